ghost use Rattle.std.specs.Prelude.{◌≡◌, ◌+◌, ◌<◌, ◌≤◌, ◌++◌, ◌∷◌, [], max, replicate, map};
ghost use Rattle.std.specs.Prelude.{All, IfOk, slice_index, slice_set};
ghost use Rattle.core_lock.specs.Knowledge.{board_words, from, stop_word};
ghost use Rattle.core_lock.specs.Reasons.{number_of};
ghost use Rattle.core_lock.specs.Seats.{IsNew, IsRaised, NoneFalls};
ghost use Rattle.core_lock.specs.Seats.{asked_by, board_of, name_of, seen_by};
ghost use Rattle.smt_model.specs.Basics.{below};

use crate::board::knowledge::{Deal, Knowledge, Look, Post, Stop};
use crate::board::{BOARD_WORDS, Board, BoardView, Reason, Seat};
use crate::held::Pass;
use atomic_table::Table;
use numbers::sizes::MOST_ACTORS;
use std::alloc::{AllocError, Global};
use std::sync::Wait;
use std::sync::ledger::Ledger;
use std::time::Duration;

type Token = atomic_table::Seat<u8, Knowledge>;

/// Where the stop word stands. The words before it are the actors' counts.
const STOP: usize = MOST_ACTORS;

/// The low half of the stop word while nobody has asked to stop.
const NOBODY: u32 = 0;

// `Board::new` writes out the seats of so many actors, and the reader's: they have no default, so no loop
// fills an array with them.
const _: () = prove!(MOST_ACTORS == 32);

impl Board {
    /// A board of zeros, and its seats: seat k is actor k's, and the last one a reader's.
    /// Errors: want of memory.
    pub fn new(alloc: Global) -> Result<(Board, [Seat; BOARD_WORDS]), AllocError>
        ensures places { IfOk result (λ r. map (λ s. s.place) r.1 ≡ below board_words) }
        ensures board { IfOk result (λ r. All (λ s. board_of s ≡ name_of r.0) r.1) }
        ensures posted { IfOk result (λ r. map (λ s. s.posted) r.1 ≡ replicate board_words 0) }
        ensures asked { IfOk result (λ r. map asked_by r.1 ≡ replicate board_words 0) }
        ensures seen { IfOk result
            (λ r. map seen_by r.1 ≡ replicate board_words (replicate board_words 0)) }
    {
        let (table, mut rest) = Table::of_words(alloc, &[0; BOARD_WORDS], &())?;
        let board = Board { table };
        let (s0, s1, s2, s3) = board.deal_four(&mut rest, 0);
        let (s4, s5, s6, s7) = board.deal_four(&mut rest, 4);
        let (s8, s9, s10, s11) = board.deal_four(&mut rest, 8);
        let (s12, s13, s14, s15) = board.deal_four(&mut rest, 12);
        let (s16, s17, s18, s19) = board.deal_four(&mut rest, 16);
        let (s20, s21, s22, s23) = board.deal_four(&mut rest, 20);
        let (s24, s25, s26, s27) = board.deal_four(&mut rest, 24);
        let (s28, s29, s30, s31) = board.deal_four(&mut rest, 28);
        let reader = board.deal(&mut rest, STOP as u8);
        let seats = [
            s0, s1, s2, s3, s4, s5, s6, s7, s8, s9, s10, s11, s12, s13, s14, s15, s16, s17, s18,
            s19, s20, s21, s22, s23, s24, s25, s26, s27, s28, s29, s30, s31, reader,
        ];
        Ok((board, seats))
    }

    /// Stores the count of a pass in its actor's own word.
    pub fn post<L: Ledger>(&self, seat: &mut Seat, pass: &Pass<L>)
        requires board { board_of seat.old ≡ name_of self.now }
        requires actor { seat.old.place ≡ pass.now.actor }
        requires inside { seat.old.place < stop_word }
        requires rises { seat.old.posted ≤ pass.now.count }
        ensures board { board_of seat.new ≡ board_of seat.old }
        ensures place { seat.new.place ≡ seat.old.place }
        ensures posted { seat.new.posted ≡ pass.now.count }
        ensures seen { seen_by seat.new
            ≡ slice_set (seen_by seat.old) seat.old.place pass.now.count }
        ensures rises { NoneFalls (seen_by seat.old) (seen_by seat.new) }
        ensures asked { asked_by seat.new ≡ asked_by seat.old }
    {
        self.write(seat, pass.count());
    }

    /// Asks all threads to stop, and wakes those that rest. Of all that was asked the stop word keeps the
    /// greatest reason.
    pub fn stop(&self, seat: &mut Seat, reason: Reason)
        requires board { board_of seat.old ≡ name_of self.now }
        ensures board { board_of seat.new ≡ board_of seat.old }
        ensures place { seat.new.place ≡ seat.old.place }
        ensures posted { seat.new.posted ≡ seat.old.posted }
        ensures seen { IsRaised (number_of reason) (seen_by seat.old) (seen_by seat.new) }
        ensures rises { NoneFalls (seen_by seat.old) (seen_by seat.new) }
        ensures asked { asked_by seat.new ≡ max (asked_by seat.old) (number_of reason) }
    {
        self.raise(seat, reason.number());
        self.wake();
    }

    /// Sleeps until somebody asks to stop, but no longer than `time`. It may return sooner for no
    /// reason, and doesn't sleep where somebody has asked before. Answers the stop word as it stands
    /// then.
    pub fn rest<R: Wait>(&self, rt: &R, seat: &mut Seat, time: Duration) -> u64
        requires board { board_of seat.old ≡ name_of self.now }
        ensures board { board_of seat.new ≡ board_of seat.old }
        ensures place { seat.new.place ≡ seat.old.place }
        ensures posted { seat.new.posted ≡ seat.old.posted }
        ensures asked { asked_by seat.new ≡ asked_by seat.old }
        ensures seen { seen_by seat.new ≡ slice_set (seen_by seat.old) stop_word result }
        ensures rises { NoneFalls (seen_by seat.old) (seen_by seat.new) }
        ensures stop { asked_by seat.old ≤ result }
        ensures reason { result ≤ 4 }
    {
        self.park(rt, time);
        self.look(seat, STOP)
    }

    /// Loads all words, one after the other. What another seat has posted may come between two of
    /// them.
    pub fn read(&self, seat: &mut Seat) -> BoardView
        requires board { board_of seat.old ≡ name_of self.now }
        ensures board { board_of seat.new ≡ board_of seat.old }
        ensures place { seat.new.place ≡ seat.old.place }
        ensures posted { seat.new.posted ≡ seat.old.posted }
        ensures asked { asked_by seat.new ≡ asked_by seat.old }
        ensures seen { result.counts ++ result.stop ∷ [] ≡ seen_by seat.new }
        ensures rises { NoneFalls (seen_by seat.old) (seen_by seat.new) }
        ensures own { seat.old.place < stop_word
            → slice_index result.counts seat.old.place ≡ seat.old.posted }
        ensures stop { asked_by seat.old ≤ result.stop }
        ensures reason { result.stop ≤ 4 }
    {
        let mut counts = [0; MOST_ACTORS];
        for place in 0..MOST_ACTORS {
            counts[place] = self.look(seat, place);
        }
        let stop = self.look(seat, STOP);
        BoardView { counts, stop }
    }

    /// Cuts the seats of the next four places, from `first` on, off what is left. Four by four, since
    /// the proof of a body grows with the square of its calls.
    fn deal_four(&self, rest: &mut Token, first: u8) -> (Seat, Seat, Seat, Seat)
        requires board { rest.old.table_id ≡ name_of self.now }
        requires inside { first + 4 ≤ board_words }
        requires left { rest.old.me.0 ≡ from first }
        ensures a { IsNew (name_of self.now) first result.0 }
        ensures b { IsNew (name_of self.now) (first + 1) result.1 }
        ensures c { IsNew (name_of self.now) (first + 2) result.2 }
        ensures d { IsNew (name_of self.now) (first + 3) result.3 }
        ensures board { rest.new.table_id ≡ rest.old.table_id }
        ensures left { rest.new.me.0 ≡ from (first + 4) }
    {
        let a = self.deal(rest, first);
        let b = self.deal(rest, first + 1);
        let c = self.deal(rest, first + 2);
        let d = self.deal(rest, first + 3);
        (a, b, c, d)
    }

    /// Cuts the seat of the next place off what is left.
    fn deal(&self, rest: &mut Token, place: u8) -> Seat
        requires board { rest.old.table_id ≡ name_of self.now }
        requires inside { place < board_words }
        requires left { rest.old.me.0 ≡ from place }
        ensures new { IsNew (name_of self.now) place result }
        ensures board { rest.new.table_id ≡ rest.old.table_id }
        ensures left { rest.new.me.0 ≡ from (place + 1) }
    {
        let token = self.table.shared.split_seat::<Deal>(rest);
        Seat {
            place,
            posted: 0,
            token,
        }
    }

    /// Loads one word.
    fn look(&self, seat: &mut Seat, word: usize) -> u64
        requires board { board_of seat.old ≡ name_of self.now }
        requires inside { word < board_words }
        ensures board { board_of seat.new ≡ board_of seat.old }
        ensures place { seat.new.place ≡ seat.old.place }
        ensures posted { seat.new.posted ≡ seat.old.posted }
        ensures asked { asked_by seat.new ≡ asked_by seat.old }
        ensures seen { seen_by seat.new ≡ slice_set (seen_by seat.old) word result }
        ensures rises { slice_index (seen_by seat.old) word ≤ result }
        ensures reason { word ≡ stop_word → result ≤ 4 }
    {
        let Seat {
            place: _,
            posted: _,
            token,
        } = seat;
        self.table.shared.load::<Look>(token, word)
    }

    /// Stores a count in the seat's own word.
    fn write(&self, seat: &mut Seat, count: u64)
        requires board { board_of seat.old ≡ name_of self.now }
        requires inside { seat.old.place < stop_word }
        requires rises { seat.old.posted ≤ count }
        ensures board { board_of seat.new ≡ board_of seat.old }
        ensures place { seat.new.place ≡ seat.old.place }
        ensures posted { seat.new.posted ≡ count }
        ensures seen { seen_by seat.new ≡ slice_set (seen_by seat.old) seat.old.place count }
        ensures rises { NoneFalls (seen_by seat.old) (seen_by seat.new) }
        ensures asked { asked_by seat.new ≡ asked_by seat.old }
    {
        let Seat {
            place,
            posted,
            token,
        } = seat;
        let word = usize::from(*place);
        self.table.shared.store::<Post>(token, word, count);
        *posted = count;
    }

    /// Raises the stop word to a reason's number, where it is below it.
    fn raise(&self, seat: &mut Seat, number: u64)
        requires board { board_of seat.old ≡ name_of self.now }
        requires most { number ≤ 4 }
        ensures board { board_of seat.new ≡ board_of seat.old }
        ensures place { seat.new.place ≡ seat.old.place }
        ensures posted { seat.new.posted ≡ seat.old.posted }
        ensures seen { IsRaised number (seen_by seat.old) (seen_by seat.new) }
        ensures rises { NoneFalls (seen_by seat.old) (seen_by seat.new) }
        ensures asked { asked_by seat.new ≡ max (asked_by seat.old) number }
    {
        let Seat {
            place: _,
            posted: _,
            token,
        } = seat;
        self.table.shared.fetch_max::<Stop>(token, STOP, number);
    }
    /// Sleeps on the stop word while nobody has asked to stop, but no longer than `time`. The system
    /// compares the low 32 bits of the word alone, and reasons are numbers of 1 to 4: so each ask is
    /// seen, and one that comes between a look at the word and the sleep is too.
    fn park<R: Wait>(&self, rt: &R, time: Duration) {
        self.table.shared.park_timeout(rt, STOP, NOBODY, time);
    }

    /// Wakes all that sleep on the stop word.
    fn wake(&self) {
        self.table.shared.wake_all(STOP);
    }
}
