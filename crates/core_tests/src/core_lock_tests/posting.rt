//! The board: a count that is posted and a reason to stop are seen by its reader.

ghost use Rattle.std.specs.Prelude.{◌≡◌};
ghost use Rattle.numbers.specs.Sizes.{most_actors};
ghost use Rattle.core_lock.specs.Seats.{board_of, name_of};

use crate::first_program::first_image;
use arrayvec::ArrayVec;
use core_lock::{Ask, Board, BoardView, Held, Origin, Pass, Reason, Said, Seat};
use numbers::sizes::MOST_ACTORS;
use smt_core::{Config, Core, Role};
use std::alloc::Global;
use std::marker::Brand;
use std::sync::ledger::Blank;
use test_support::Behind;

/// A core of the first program, with as many actors as there may be, which fetch.
fn core(alloc: Global) -> Option<Core> {
    let image = first_image(alloc)?;
    let mut roles = ArrayVec::new();
    for _ in 0..MOST_ACTORS {
        let _ = roles.try_push(Role::Fetch);
    }
    let config = Config {
        harts: 1,
        extra: 64,
        queue: 16,
        roles,
    };
    Core::new(&image, config, 100, alloc).ok()
}

fn fetch<L: Origin>(held: &mut Held<L>, pass: &mut Pass<L>) {
    match held.step(pass, Ask::Fetch, &mut Behind).said() {
        Said::Job(job, _) => job.abandon(),
        Said::Event(_) | Said::Idle | Said::Stranger | Said::Full => {}
    }
}

/// Posts the pass, where it is of the seat's actor and not behind; whether it is.
fn post<L: Origin>(board: &Board, seat: &mut Seat, pass: &Pass<L>) -> bool
    requires { board_of seat.old ≡ name_of board.now }
    ensures { board_of seat.new ≡ board_of seat.old }
{
    let place = seat.place();
    if place != pass.actor() {
        return false;
    }
    if usize::from(place) >= MOST_ACTORS {
        return false;
    }
    if seat.posted() > pass.count() {
        return false;
    }
    board.post(seat, pass);
    true
}

/// Seats 0 and 31 post these passes, seat 1 asks to stop since the history is full, and seat 32 reads.
fn read_after_post<L: Origin>(
    alloc: Global,
    first_pass: &Pass<L>,
    last_pass: &Pass<L>,
) -> Option<BoardView> {
    let Ok(new) = Board::new(alloc) else {
        return None;
    };
    let (board, seats) = new;
    let [
        mut first,
        mut second,
        _s2,
        _s3,
        _s4,
        _s5,
        _s6,
        _s7,
        _s8,
        _s9,
        _s10,
        _s11,
        _s12,
        _s13,
        _s14,
        _s15,
        _s16,
        _s17,
        _s18,
        _s19,
        _s20,
        _s21,
        _s22,
        _s23,
        _s24,
        _s25,
        _s26,
        _s27,
        _s28,
        _s29,
        _s30,
        mut last,
        mut reader,
    ] = seats;
    if !post(&board, &mut first, first_pass) || !post(&board, &mut last, last_pass) {
        return None;
    }
    board.stop(&mut second, Reason::Full);
    Some(board.read(&mut reader))
}

fn view_after_fetches_with<L: Origin>(alloc: Global, core: Core, blank: Blank) -> Option<BoardView>
    requires name { blank.name ≡ L.name }
    requires parts { (blank.parts ≡ L.parts) × (L.parts ≡ most_actors) }
    requires origin { (core.setup ≡ L.setup) × (core.limit ≡ L.limit) }
{
    let (mut held, mut passes) = Held::<L>::new(core, blank);
    for _ in 0..4 {
        fetch(&mut held, &mut passes[0]);
    }
    for _ in 0..2 {
        fetch(&mut held, &mut passes[31]);
    }
    read_after_post(alloc, &passes[0], &passes[31])
}

fn view_after_fetches(alloc: Global, core: Core) -> Option<BoardView> {
    view_after_fetches_with::<Brand>(alloc, core, Blank::new(MOST_ACTORS as u64))
}

fn view(alloc: Global) -> Option<BoardView> {
    view_after_fetches(alloc, core(alloc)?)
}

#[test]
fn a_reader_sees_what_was_posted_and_why_to_stop(rt: HostRuntime) {
    let view = view(rt.alloc()).expect(&rt, "a board and a core");
    assert!(rt; (view.counts.len(), view.counts[0], view.counts[31]) == (32, 4, 2));
    assert!(rt; view.counts[1..31].iter().all(|count| *count == 0));
    assert!(rt; view.stop == 3);
}
