//! The gate that shows on a terminal how far a run is, with a clock and a terminal of the test's
//! own.

use actors::{Gate, Point};
use core_lock::BoardView;
use numbers::sizes::MOST_ACTORS;
use program_io::Progress;
use std::alloc::{AllocError, Global};
use std::io;
use std::io::Write;
use std::sync::atomic::{AtomicU64, AtomicUsize, Ordering};
use std::time::{Clock, Duration};

/// What the clock shows first, in milliseconds: a machine's has gone on long before a run begins.
const FIRST: u64 = 3_600_000;

/// A clock that goes on by as many milliseconds with each reading.
#[derive(Drop)]
struct Ticking {
    step: u64,
    readings: AtomicU64,
}

impl Ticking {
    fn new(step: u64) -> Ticking {
        Ticking {
            step,
            readings: AtomicU64::new(0),
        }
    }
}

impl Clock for Ticking {
    fn monotonic(&self) -> io::Result<Duration> {
        let readings = self.readings.fetch_add(1, Ordering::SeqCst);
        let passed = readings.saturating_mul(self.step);
        Ok(Duration::from_millis(FIRST.saturating_add(passed)))
    }

    fn since_1970(&self) -> io::Result<Duration> {
        self.monotonic()
    }
}

/// A terminal that shows what is written on it, as far as it has room.
#[derive(Drop)]
struct Screen {
    bytes: Vec<AtomicU64>,
    length: AtomicUsize,
}

impl Screen {
    fn new(alloc: Global) -> Result<Screen, AllocError> {
        let mut bytes = Vec::new(alloc);
        for _ in 0..256 {
            bytes.push(AtomicU64::new(0))?;
        }
        Ok(Screen {
            bytes,
            length: AtomicUsize::new(0),
        })
    }

    fn has(&self, text: &str) -> bool {
        let mut same = self.length.load(Ordering::SeqCst) == text.len();
        for (place, byte) in self.bytes.iter().zip(text.as_bytes()) {
            same &= place.load(Ordering::SeqCst) == u64::from(*byte);
        }
        same
    }
}

impl Write for &Screen {
    fn write(&mut self, buf: &[u8]) -> io::Result<usize> {
        for byte in buf {
            let at = self.length.fetch_add(1, Ordering::SeqCst);
            if let Some(place) = self.bytes.get(at) {
                place.store(u64::from(*byte), Ordering::SeqCst);
            }
        }
        Ok(buf.len())
    }

    fn flush(&mut self) -> io::Result<()> {
        Ok(())
    }
}

/// A board on which the first actor has posted 10 events and the second 20.
fn thirty_events() -> BoardView {
    let mut counts = [0; MOST_ACTORS];
    counts[0] = 10;
    counts[1] = 20;
    BoardView { counts, stop: 0 }
}

/// Whether this is what stands on a terminal when a run of so many turns is over, in each of which
/// one actor asks at one point, and the clock is so many milliseconds further at each reading.
fn shows(
    is_terminal: bool,
    step: u64,
    asked: (u8, Point),
    turns: u64,
    text: &str,
    alloc: Global,
) -> Option<bool> {
    let clock = Ticking::new(step);
    let screen = Screen::new(alloc).ok()?;
    let progress = Progress::new(&clock, &screen, is_terminal);
    let seen = thirty_events();
    let mut all_let_on = true;
    progress.begin(100);
    for _ in 0..turns {
        all_let_on &= progress.at(asked.0, asked.1, &seen);
    }
    progress.end();
    Some(all_let_on && screen.has(text))
}

const TURN: (u8, Point) = (0, Point::Turn);

#[test]
fn a_line_a_second_is_shown_and_cleared(rt: HostRuntime) {
    let shown =
        "\rsmtsim: 30 of 100 events, 1 s\x1b[K\rsmtsim: 30 of 100 events, 3 s\x1b[K\r\x1b[K";
    assert!(rt; shows(true, 1500, TURN, 1025, shown, rt.alloc()) == Some(true));
}

#[test]
fn the_clock_is_seldom_looked_at(rt: HostRuntime) {
    let shown = "\rsmtsim: 30 of 100 events, 1 s\x1b[K\r\x1b[K";
    assert!(rt; shows(true, 1500, TURN, 1024, shown, rt.alloc()) == Some(true));
}

#[test]
fn no_line_is_shown_in_the_first_second(rt: HostRuntime) {
    assert!(rt; shows(true, 999, TURN, 1024, "", rt.alloc()) == Some(true));
}

/// Whether this is what stands on a terminal when rounds are over that were looked at so often, of
/// which 70,000 steps more were made each time, and the clock is so many milliseconds further.
fn shows_rounds(
    is_terminal: bool,
    step: u64,
    looks: u64,
    text: &str,
    alloc: Global,
) -> Option<bool> {
    let clock = Ticking::new(step);
    let screen = Screen::new(alloc).ok()?;
    let progress = Progress::new(&clock, &screen, is_terminal);
    progress.begin_rounds();
    for look in 0..looks {
        progress.at_step(look.wrapping_mul(70_000), 3);
    }
    progress.end();
    Some(screen.has(text))
}

#[test]
fn rounds_show_their_steps_and_the_harts_that_go(rt: HostRuntime) {
    let shown = "\rsmtsim: 0 steps, 3 harts going, 1 s\x1b[K\
        \rsmtsim: 70000 steps, 3 harts going, 3 s\x1b[K\r\x1b[K";
    assert!(rt; shows_rounds(true, 1500, 2, shown, rt.alloc()) == Some(true));
    let later = "\rsmtsim: 70000 steps, 3 harts going, 1 s\x1b[K\r\x1b[K";
    assert!(rt; shows_rounds(true, 600, 3, later, rt.alloc()) == Some(true));
    assert!(rt; shows_rounds(true, 999, 1, "", rt.alloc()) == Some(true));
    assert!(rt; shows_rounds(false, 1500, 2, "", rt.alloc()) == Some(true));
}

/// Whether a search shows this text, that is looked at so often; each look at the clock takes `step` milliseconds.
fn shows_search(
    is_terminal: bool,
    step: u64,
    looks: u32,
    text: &str,
    alloc: Global,
) -> Option<bool> {
    let clock = Ticking::new(step);
    let screen = Screen::new(alloc).ok()?;
    let progress = Progress::new(&clock, &screen, is_terminal);
    progress.begin_search();
    for look in 0..looks {
        let seen = look.wrapping_add(1);
        progress.at_states(seen.wrapping_mul(5_000), seen.wrapping_mul(4_096));
    }
    progress.end();
    Some(screen.has(text))
}

#[test]
fn a_search_shows_its_states_and_those_to_look_at(rt: HostRuntime) {
    let shown = "\rsmtsim: 5000 states, 904 to look at, 1 s\x1b[K\
        \rsmtsim: 10000 states, 1808 to look at, 3 s\x1b[K\r\x1b[K";
    assert!(rt; shows_search(true, 1500, 2, shown, rt.alloc()) == Some(true));
    assert!(rt; shows_search(true, 999, 1, "", rt.alloc()) == Some(true));
    assert!(rt; shows_search(false, 1500, 2, "", rt.alloc()) == Some(true));
}

/// Whether a search for executions shows this text, that is looked at so often.
fn shows_choices(
    is_terminal: bool,
    step: u64,
    looks: u32,
    text: &str,
    alloc: Global,
) -> Option<bool> {
    let clock = Ticking::new(step);
    let screen = Screen::new(alloc).ok()?;
    let progress = Progress::new(&clock, &screen, is_terminal);
    progress.begin_search();
    for look in 0..looks {
        progress.at_choices(look.wrapping_add(1).wrapping_mul(8_192));
    }
    progress.end();
    Some(screen.has(text))
}

#[test]
fn a_search_for_executions_shows_its_choices(rt: HostRuntime) {
    let shown = "\rsmtsim: 8192 choices, 1 s\x1b[K\rsmtsim: 16384 choices, 3 s\x1b[K\r\x1b[K";
    assert!(rt; shows_choices(true, 1500, 2, shown, rt.alloc()) == Some(true));
    assert!(rt; shows_choices(false, 1500, 2, "", rt.alloc()) == Some(true));
}

/// Whether this is what stands on a terminal when three runs are over, of which the first and the
/// last have a turn and the second has 1024.
fn shows_runs(text: &str, alloc: Global) -> Option<bool> {
    let clock = Ticking::new(1500);
    let screen = Screen::new(alloc).ok()?;
    let progress = Progress::new(&clock, &screen, true);
    let seen = thirty_events();
    progress.begin_all(3);
    for turns in [1, 1024, 1] {
        progress.begin(100);
        for _ in 0..turns {
            let _ = progress.at(0, Point::Turn, &seen);
        }
        progress.end();
    }
    progress.end_all();
    Some(screen.has(text))
}

#[test]
fn many_runs_show_which_it_is_and_are_cleared_at_the_last(rt: HostRuntime) {
    let shown = "\rsmtsim: run 1 of 3, 30 of 100 events, 1 s\x1b[K\
        \rsmtsim: run 2 of 3, 30 of 100 events, 3 s\x1b[K\r\x1b[K";
    assert!(rt; shows_runs(shown, rt.alloc()) == Some(true));
}

#[test]
fn nothing_is_shown_where_there_is_no_terminal(rt: HostRuntime) {
    assert!(rt; shows(false, 1500, TURN, 1025, "", rt.alloc()) == Some(true));
}

#[test]
fn one_actor_alone_shows_a_line_and_before_its_turns_alone(rt: HostRuntime) {
    assert!(rt; shows(true, 1500, (1, Point::Turn), 1025, "", rt.alloc()) == Some(true));
    assert!(rt; shows(true, 1500, (0, Point::Job), 1025, "", rt.alloc()) == Some(true));
}
