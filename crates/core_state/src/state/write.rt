//! What an event does, whoever decides that it comes: a step of the core, or a history that is
//! followed.

ghost use Rattle.std.specs.Prelude.{◌≡◌, ◌<◌, length, None, true};
ghost use Rattle.events.specs.declared.event.Event.TheVariants.{Decode, Rename, Issue, Complete};
ghost use Rattle.events.specs.declared.event.Event.TheVariants.{Retire, Refetch};
ghost use Rattle.smt_model.specs.Fates.{is_of};
ghost use Rattle.smt_model.specs.Picture.{picture};
ghost use Rattle.smt_model.specs.Rules.{refused};
ghost use Rattle.core_parts.specs.Agree.{IsActive, IsEntry};
ghost use Rattle.core_state.specs.Answers.{IsJobOf};
ghost use Rattle.core_state.specs.View.{CoreView, grown};

use super::State;
use crate::log::{append, put_out};
use core_parts::OpenJob;
use core_steps::{
    decode_oldest, drop_job, finish, issue_entry, refetch_oldest, rename_oldest, retire_oldest,
};
use decoded_code::decode_write;
use events::{Effect, Event, Outcome, Record};
use exec_units::Job;
use issue_queue::Entry;
use load_store::looks_after;
use numbers::{Phys, Seq};
use retire_squash::Active;

impl State {
    /// Writes the decode of instruction `seq` of hart `hart`, which may come next.
    #[inline(always)]
    pub(super) fn write_decode(&mut self, actor: u8, hart: u8, seq: Seq) -> Event
        requires room { length self.old.past < self.old.limit }
        requires allowed { refused self.old.setup self.old.past (Decode actor seq) ≡ None }
        requires of_hart { is_of self.old.past hart seq ≡ true }
        ensures event { result ≡ Decode actor seq }
        ensures made { self.new ≡ grown result self.old }
    {
        decode_oldest(&mut self.parts, hart);
        let event = Event::Decode { actor, seq };
        append(&mut self.history, &event);
        event
    }

    /// Writes the rename of instruction `seq` of hart `hart`, which may come next with the register
    /// `phys`.
    #[inline(always)]
    pub(super) fn write_rename(
        &mut self,
        actor: u8,
        hart: u8,
        seq: Seq,
        phys: Option<Phys>,
    ) -> Event
        requires room { length self.old.past < self.old.limit }
        requires allowed { refused self.old.setup self.old.past (Rename actor seq phys) ≡ None }
        requires of_hart { is_of self.old.past hart seq ≡ true }
        ensures event { result ≡ Rename actor seq phys }
        ensures made { self.new ≡ grown result self.old }
    {
        rename_oldest(&mut self.parts, hart, phys);
        let event = Event::Rename { actor, seq, phys };
        append(&mut self.history, &event);
        event
    }

    /// Writes the issue of the instruction of `entry`, which may come next.
    #[inline(always)]
    pub(super) fn write_issue(&mut self, actor: u8, entry: Entry) -> (Job, Event)
        requires room { length self.old.past < self.old.limit }
        requires allowed { refused self.old.setup self.old.past (Issue actor entry.seq) ≡ None }
        requires entry { IsEntry (picture self.old.setup self.old.past) entry }
        ensures event { result.1 ≡ Issue actor entry.seq }
        ensures made { self.new ≡ grown result.1 self.old }
        ensures job { IsJobOf self.new.setup self.new.past actor result.0 }
    {
        let job = issue_entry(&mut self.parts, actor, entry);
        let event = Event::Issue {
            actor,
            seq: entry.seq,
        };
        append(&mut self.history, &event);
        (job, event)
    }

    /// Writes the completion of an instruction in flight, which may come next with this outcome.
    #[inline(always)]
    pub(super) fn finish(
        &mut self,
        actor: u8,
        job: &OpenJob,
        active: &Active,
        outcome: Outcome,
    ) -> Event
        requires room { length self.old.past < self.old.limit }
        requires allowed { refused self.old.setup self.old.past
            (Complete actor active.now.seq outcome) ≡ None }
        requires active { IsActive (picture self.old.setup self.old.past) job.now.hart active.now }
        ensures event { result ≡ Complete actor active.now.seq outcome }
        ensures made { self.new ≡ grown result self.old }
    {
        finish(&mut self.parts, actor, job, active, &outcome);
        let event = Event::Complete {
            actor,
            seq: active.seq,
            outcome,
        };
        append(&mut self.history, &event);
        event
    }

    /// Writes the drop of a squashed instruction, which may come next.
    pub(super) fn drop_job(&mut self, actor: u8, seq: Seq) -> Event
        requires room { length self.old.past < self.old.limit }
        requires allowed { refused self.old.setup self.old.past (Event.Drop actor seq) ≡ None }
        ensures event { result ≡ Event.Drop actor seq }
        ensures made { self.new ≡ grown result self.old }
    {
        drop_job(&mut self.parts, actor);
        let event = Event::Drop { actor, seq };
        append(&mut self.history, &event);
        event
    }

    /// Writes the retirement of an instruction in flight, which may come next with this effect.
    #[inline(always)]
    pub(super) fn write_retire(
        &mut self,
        actor: u8,
        hart: u8,
        active: &Active,
        effect: Effect,
    ) -> Event
        requires room { length self.old.past < self.old.limit }
        requires allowed { refused self.old.setup self.old.past
            (Retire actor active.now.seq effect) ≡ None }
        requires active { IsActive (picture self.old.setup self.old.past) hart active.now }
        ensures event { result ≡ Retire actor active.now.seq effect }
        ensures made { self.new ≡ grown result self.old }
    {
        let looks = looks_after(
            &self.parts.accesses,
            hart,
            active.seq,
            active.op,
            &effect,
            self.looks,
        );
        self.looks = looks;
        retire_oldest(&mut self.parts, hart, active, effect);
        decode_write(&mut self.code, &self.parts.memory, effect.write);
        self.records.push_reserved(Record {
            hart,
            pc: active.pc,
            word: active.word,
            effect,
        });
        put_out(&mut self.output, effect.out);
        let event = Event::Retire {
            actor,
            seq: active.seq,
            effect,
        };
        append(&mut self.history, &event);
        event
    }

    /// Writes the refetch of an instruction in flight, which may come next.
    pub(super) fn write_refetch(&mut self, actor: u8, hart: u8, active: &Active) -> Event
        requires room { length self.old.past < self.old.limit }
        requires allowed { refused self.old.setup self.old.past
            (Refetch actor active.now.seq) ≡ None }
        requires active { IsActive (picture self.old.setup self.old.past) hart active.now }
        ensures event { result ≡ Refetch actor active.now.seq }
        ensures made { self.new ≡ grown result self.old }
    {
        refetch_oldest(&mut self.parts, hart, active);
        let event = Event::Refetch {
            actor,
            seq: active.seq,
        };
        append(&mut self.history, &event);
        event
    }
}
