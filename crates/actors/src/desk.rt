ghost use Rattle.std.specs.Prelude.{◌≡◌, ◌≤◌, ◌<◌, ◌↔◌, All, IsTrue};
ghost use Rattle.numbers.specs.Sizes.{most_actors};
ghost use Rattle.core_lock.specs.Seats.{board_of, name_of};
ghost use Rattle.actors.specs.Naming.{Fits};

use crate::patience::Pause;
use core_lock::{BOARD_WORDS, Board, BoardView, Origin, Pass, Reason, Seat};
use numbers::sizes::MOST_ACTORS;
use std::alloc::{AllocError, Global};
use std::marker::{Brand, PhantomData};
use std::sync::Wait;
use std::thread::yield_now;
use std::time::Duration;

/// How many events of others an idle actor waits for before it asks again: as many as fill two latches.
const AHEAD: u64 = 16;

/// How often it looks at the board for them, which takes no lock.
const LOOKS: u32 = 100;

/// How often it does so where a rest comes next.
const GLANCES: u32 = 2;

/// Which core the actors of a run ask, and at which board their seats are.
pub(crate) trait Naming: Origin {
    ghost use Rattle.atomic_table.specs.Seated.{TableId};

    ghost board: { TableId };
}

impl Naming for Brand {
    ghost use Rattle.actors.specs.Naming.{no_board};

    ghost board = { no_board };
}

/// The board of a run.
#[derive(Drop)]
pub(crate) struct Desk<N: Naming> {
    board: Board,
    of: PhantomData<N>,
    ghost named: { name_of board ≡ N.board },
}

/// A seat at that board.
#[derive(Drop)]
pub(crate) struct Placed<N: Naming> {
    seat: Seat,
    of: PhantomData<N>,
    ghost named: { board_of seat ≡ N.board },
}

impl<N: Naming> Placed<N> {
    /// A seat at this board.
    fn new(seat: Seat) -> Placed<N>
        requires { board_of seat ≡ N.board }
        ensures { result.seat ≡ seat }
    {
        Placed {
            seat,
            of: PhantomData,
        }
    }

    /// Whether this is the seat of the pass's actor, and it posted no more than the pass has
    /// counted.
    pub(crate) fn is_of(&self, pass: &Pass<N>) -> bool
        ensures { IsTrue result
            ↔ Fits pass.now.actor pass.now.count self.now.seat.place self.now.seat.posted }
    {
        self.seat.place() == pass.actor()
            && usize::from(self.seat.place()) < MOST_ACTORS
            && self.seat.posted() <= pass.count()
    }
}

impl<N: Naming> Desk<N> {
    /// The desk of this board.
    pub(crate) fn new(board: Board) -> Desk<N>
        requires { name_of board ≡ N.board }
    {
        Desk {
            board,
            of: PhantomData,
        }
    }

    /// What stands on the board.
    pub(crate) fn read(&self, placed: &mut Placed<N>) -> BoardView
        ensures place { placed.new.seat.place ≡ placed.old.seat.place }
        ensures posted { placed.new.seat.posted ≡ placed.old.seat.posted }
    {
        self.board.read(&mut placed.seat)
    }

    /// Waits behind a turn before which the board was seen so.
    pub(crate) fn pause<R: Wait>(
        &self,
        rt: &R,
        placed: &mut Placed<N>,
        seen: &BoardView,
        pause: Pause,
    )
        ensures place { placed.new.seat.place ≡ placed.old.seat.place }
        ensures posted { placed.new.seat.posted ≡ placed.old.seat.posted }
    {
        match pause {
            Pause::Nothing => {}
            Pause::Watch => self.await_others(placed, seen, LOOKS),
            Pause::Glance => self.await_others(placed, seen, GLANCES),
            Pause::Rest(micros) => self.rest(rt, placed, micros),
        }
    }

    /// Rests for so many microseconds, or until somebody asks to stop.
    fn rest<R: Wait>(&self, rt: &R, placed: &mut Placed<N>, micros: u64)
        ensures place { placed.new.seat.place ≡ placed.old.seat.place }
        ensures posted { placed.new.seat.posted ≡ placed.old.seat.posted }
    {
        self.board
            .rest(rt, &mut placed.seat, Duration::from_micros(micros));
    }

    /// Gives the processor away until the others have made `AHEAD` events since the board was seen so,
    /// somebody has asked to stop, or the board was looked at so many times.
    fn await_others(&self, placed: &mut Placed<N>, seen: &BoardView, looks: u32)
        ensures place { placed.new.seat.place ≡ placed.old.seat.place }
        ensures posted { placed.new.seat.posted ≡ placed.old.seat.posted }
    {
        let wanted = events_on(seen).saturating_add(AHEAD);
        for _look in 0..looks {
            yield_now();
            let now = self.read(placed);
            if now.stop != 0 || events_on(&now) >= wanted {
                return;
            }
        }
    }

    /// Posts what the pass has counted.
    pub(crate) fn post(&self, placed: &mut Placed<N>, pass: &Pass<N>)
        requires place { pass.now.actor ≡ placed.old.seat.place }
        requires within { placed.old.seat.place < most_actors }
        requires rising { placed.old.seat.posted ≤ pass.now.count }
        ensures place { placed.new.seat.place ≡ placed.old.seat.place }
        ensures posted { placed.new.seat.posted ≡ pass.now.count }
    {
        self.board.post(&mut placed.seat, pass);
    }

    /// Asks all actors to stop.
    pub(crate) fn stop(&self, placed: &mut Placed<N>, reason: Reason)
        ensures place { placed.new.seat.place ≡ placed.old.seat.place }
        ensures posted { placed.new.seat.posted ≡ placed.old.seat.posted }
    {
        self.board.stop(&mut placed.seat, reason);
    }
}

/// The seats of a run, in a row that can be lent to threads one by one.
pub(crate) fn place_all<N: Naming>(
    seats: [Seat; BOARD_WORDS],
    alloc: Global,
) -> Result<Vec<Placed<N>>, AllocError>
    requires { All (λ seat. board_of seat ≡ N.board) seats }
{
    let mut all = Vec::new(alloc);
    for seat in seats {
        all.push(Placed::new(seat))?;
    }
    Ok(all)
}

/// How many events all actors have posted.
fn events_on(view: &BoardView) -> u64 {
    let mut events: u64 = 0;
    for count in view.counts.iter() {
        events = events.saturating_add(*count);
    }
    events
}
