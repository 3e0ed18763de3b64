//! What actors see of one another on the board.

use super::{MANY_TURNS, first_run};
use crate::asking::one_of_each;
use actors::{Gate, Point};
use core_lock::{BOARD_WORDS, BoardView};
use numbers::sizes::MOST_ACTORS;
use smt_core::Finished;
use std::alloc::{AllocError, Global};
use std::sync::Wait;
use std::sync::atomic::{AtomicBool, AtomicU64, Ordering};
use std::thread::Threads;

/// A gate that notes the greatest number that each actor has seen in each word, and whether an actor
/// has seen a word below what it had seen there before.
#[derive(Drop)]
struct Watcher {
    greatest: Vec<AtomicU64>,
    fell: AtomicBool,
}

impl Watcher {
    fn new(alloc: Global) -> Result<Watcher, AllocError> {
        let mut greatest = Vec::new(alloc);
        for _ in 0..MOST_ACTORS * BOARD_WORDS {
            greatest.push(AtomicU64::new(0))?;
        }
        Ok(Watcher {
            greatest,
            fell: AtomicBool::new(false),
        })
    }

    fn note(&self, actor: u8, word: usize, number: u64) {
        if let Some(greatest) = self.greatest.get(
            usize::from(actor)
                .wrapping_mul(BOARD_WORDS)
                .wrapping_add(word),
        ) {
            if greatest.fetch_max(number, Ordering::SeqCst) > number {
                self.fell.store(true, Ordering::SeqCst);
            }
        }
    }

    /// The greatest number that an actor has seen in a word.
    fn seen(&self, actor: usize, word: usize) -> u64 {
        match self
            .greatest
            .get(actor.wrapping_mul(BOARD_WORDS).wrapping_add(word))
        {
            Some(greatest) => greatest.load(Ordering::SeqCst),
            None => 0,
        }
    }
}

impl Gate for Watcher {
    fn at(&self, actor: u8, _point: Point, seen: &BoardView) -> bool {
        for (word, count) in seen.counts.iter().enumerate() {
            self.note(actor, word, *count);
        }
        self.note(actor, MOST_ACTORS, seen.stop);
        true
    }
}

/// Whether an actor saw a word fall, whether one saw more in an actor's word than that actor has
/// events, and whether the first four saw two or more in their own.
#[derive(Clone, Copy, Drop)]
struct Seen {
    fell: bool,
    too_much: bool,
    own_posts: bool,
}

fn seen_of(watcher: &Watcher, finished: &Finished) -> Seen {
    let mut too_much = false;
    for actor in 0..MOST_ACTORS {
        for (word, count) in finished.counts.iter().enumerate() {
            too_much |= watcher.seen(actor, word) > *count;
        }
    }
    Seen {
        fell: watcher.fell.load(Ordering::SeqCst),
        too_much,
        own_posts: (0..4).all(|actor| watcher.seen(actor, actor) >= 2),
    }
}

fn seen_in_a_run<R: Threads + Wait + Sync>(rt: &R, alloc: Global) -> Option<Seen> {
    let watcher = Watcher::new(alloc).ok()?;
    let ran = first_run(rt, one_of_each(1), 1000, MANY_TURNS, &watcher, alloc)?;
    Some(seen_of(&watcher, &ran.ok()?))
}

// Each of these four has to make its last event in a turn before which it had posted two: three
// fetches and three retirements, one a turn; three decodes and renames, and three issues and
// completions, two a turn.
#[test]
fn actors_see_what_the_others_post(rt: HostRuntime) {
    let seen = seen_in_a_run(&rt, rt.alloc()).expect(&rt, "a run");
    assert!(rt; !seen.fell);
    assert!(rt; !seen.too_much);
    assert!(rt; seen.own_posts);
}
