//! Resting on the board: it ends by itself, and when somebody asks to stop.

ghost use Rattle.std.specs.Prelude.{◌≡◌, IfSome};
ghost use Rattle.core_lock.specs.Seats.{board_of, name_of};

use core_lock::{Board, Reason, Seat};
use std::alloc::Global;
use std::sync::Wait;
use std::thread;
use std::thread::Threads;
use std::time::Duration;

/// Longer than a test may take: who isn't woken doesn't pass.
fn an_hour() -> Duration {
    Duration::from_secs(3600)
}

/// A board, and the seats of actors 0 and 1.
#[derive(Drop)]
struct Two {
    board: Board,
    first: Seat,
    second: Seat,
    ghost own: { board_of first ≡ name_of board },
    ghost other: { board_of second ≡ name_of board },
}

fn board_and_seats(alloc: Global) -> Option<Two> {
    let Ok(new) = Board::new(alloc) else {
        return None;
    };
    let (board, seats) = new;
    let [
        first,
        second,
        _s2,
        _s3,
        _s4,
        _s5,
        _s6,
        _s7,
        _s8,
        _s9,
        _s10,
        _s11,
        _s12,
        _s13,
        _s14,
        _s15,
        _s16,
        _s17,
        _s18,
        _s19,
        _s20,
        _s21,
        _s22,
        _s23,
        _s24,
        _s25,
        _s26,
        _s27,
        _s28,
        _s29,
        _s30,
        _s31,
        _reader,
    ] = seats;
    Some(Two {
        board,
        first,
        second,
    })
}

/// What a rest answers that nobody ends.
fn rest_to_the_end<R: Wait>(rt: &R, alloc: Global) -> Option<u64> {
    let Two {
        board,
        mut first,
        ..
    } = board_and_seats(alloc)?;
    Some(board.rest(rt, &mut first, Duration::from_millis(1)))
}

/// What a rest answers where another seat has asked to stop before, and then one where its own has.
fn rest_behind_stops<R: Wait>(rt: &R, alloc: Global) -> Option<(u64, u64)> {
    let Two {
        board,
        mut first,
        mut second,
    } = board_and_seats(alloc)?;
    board.stop(&mut second, Reason::Turns);
    let behind_another = board.rest(rt, &mut first, an_hour());
    board.stop(&mut first, Reason::Asked);
    Some((behind_another, board.rest(rt, &mut first, an_hour())))
}

/// Gives the processor away for so many times, and then asks to stop.
fn stop_later(board: &Board, seat: &mut Seat, yields: u32)
    requires { board_of seat.old ≡ name_of board.now }
{
    for _ in 0..yields {
        thread::yield_now();
    }
    board.stop(seat, Reason::Ended);
}

/// What a rest answers that is ended by somebody.
fn rest_long<R: Wait>(rt: &R, board: &Board, seat: &mut Seat) -> u64
    requires { board_of seat.old ≡ name_of board.now }
{
    board.rest(rt, seat, an_hour())
}

/// What the rest of a thread answers while another asks to stop after so many yields.
fn rest_until_stopped<R: Threads + Wait + Sync>(rt: &R, yields: u32, alloc: Global) -> Option<u64> {
    let Two {
        board,
        mut first,
        mut second,
    } = board_and_seats(alloc)?;
    let (shared, a, b) = (&board, &mut first, &mut second);
    let (rested, ()) = thread::join(
        rt,
        move || rest_long(rt, shared, a),
        move || stop_later(shared, b, yields),
    );
    Some(rested)
}

#[test]
fn a_rest_ends_by_itself(rt: HostRuntime) {
    assert!(rt; rest_to_the_end(&rt, rt.alloc()) == Some(0));
}

#[test]
fn nobody_rests_behind_a_stop(rt: HostRuntime) {
    assert!(rt; rest_behind_stops(&rt, rt.alloc()) == Some((2, 4)));
}

// The stop comes before the rest, in it, or just as it begins.
#[test]
fn a_stop_wakes_who_rests(rt: HostRuntime) {
    for yields in 0..100u32 {
        assert!(rt; rest_until_stopped(&rt, yields.wrapping_mul(20), rt.alloc()) == Some(1));
    }
}
