//! The sizes that a core may have.

use crate::rows::holds;
use numbers::sizes::are_core_sizes;

/// Harts, extra registers, places of the queue and actors, and whether a core may have so many.
static SIZES: [(&str, (u8, u16, u8, usize), bool); 10] = [
    ("the fewest", (1, 1, 4, 1), true),
    ("the most", (16, 528, 64, 32), true),
    ("no harts", (0, 1, 4, 1), false),
    ("17 harts", (17, 1, 4, 1), false),
    ("no extra registers", (1, 0, 4, 1), false),
    ("529 extra registers", (1, 529, 4, 1), false),
    ("a queue of 3", (1, 1, 3, 1), false),
    ("a queue of 65", (1, 1, 65, 1), false),
    ("no actors", (1, 1, 4, 0), false),
    ("33 actors", (1, 1, 4, 33), false),
];

#[test]
fn a_core_has_at_most_16_harts_528_extra_registers_and_32_actors(rt: HostRuntime) {
    for (name, (harts, extra, queue, actors), may) in &SIZES {
        holds(
            &rt,
            name,
            are_core_sizes(*harts, *extra, *queue, *actors) == *may,
        );
    }
}
