//! A given event as the next, where it may come next. What decides on an event of an instruction says
//! which hart's it is. The instruction of a completion or a retirement is sought again there when it is
//! written: that costs less than to hand it over.

ghost use Rattle.std.specs.Prelude.{◌≡◌, ◌<◌, length, None, Some, is_some, true, IfOk, IfErr};
ghost use Rattle.std.specs.Result.{result_err};
ghost use Rattle.events.specs.declared.event.Event.TheVariants.{Fetch, Decode, Rename, Issue};
ghost use Rattle.events.specs.declared.event.Event.TheVariants.{Complete, Retire, Refetch};
ghost use Rattle.smt_model.specs.Rules.{refused};
ghost use Rattle.core_state.specs.View.{CoreView, grown};

use super::State;
use core_steps::FetchPoint;
use events::{Effect, Event, Outcome};
use numbers::{Phys, Seq};

impl State {
    /// Takes an event as the next, where it may come next; else the number of the first rule that
    /// it breaks, and nothing changes.
    pub fn follow(&mut self, event: &Event) -> Result<(), u8>
        requires { length self.old.past < self.old.limit }
        ensures rule { result_err result ≡ refused self.old.setup self.old.past event.now }
        ensures made { IfOk result (λ _. self.new ≡ grown event.now self.old) }
        ensures same { IfErr result (λ _. self.new ≡ self.old) }
    {
        match *event {
            Event::Fetch {
                actor,
                hart,
                seq,
                pc,
                word,
                predicted,
            } => self.follow_fetch(actor, FetchPoint { hart, pc, word }, seq, predicted),
            Event::Decode { actor, seq } => self.follow_decode(actor, seq),
            Event::Rename { actor, seq, phys } => self.follow_rename(actor, seq, phys),
            Event::Issue { actor, seq } => self.follow_issue(actor, seq),
            Event::Complete {
                actor,
                seq,
                outcome,
            } => self.follow_completion(actor, seq, outcome),
            Event::Drop { actor, seq } => self.follow_drop(actor, seq),
            Event::Retire { actor, seq, effect } => self.follow_retirement(actor, seq, effect),
            Event::Refetch { actor, seq } => self.follow_refetch(actor, seq),
        }
    }

    /// Takes an event that may come next.
    pub fn apply(&mut self, event: &Event)
        requires room { length self.old.past < self.old.limit }
        requires allowed { refused self.old.setup self.old.past event.now ≡ None }
        ensures { self.new ≡ grown event.now self.old }
    {
        if self.follow(event).is_err() {
            unreachable!();
        }
    }

    fn follow_fetch(
        &mut self,
        actor: u8,
        point: FetchPoint,
        seq: Seq,
        predicted: u32,
    ) -> Result<(), u8>
        requires { length self.old.past < self.old.limit }
        ensures rule { result_err result ≡ refused self.old.setup self.old.past
            (Fetch actor point.hart seq point.pc point.word predicted) }
        ensures made { IfOk result (λ _. self.new
            ≡ grown (Fetch actor point.hart seq point.pc point.word predicted) self.old) }
        ensures same { IfErr result (λ _. self.new ≡ self.old) }
    {
        if let Some(rule) = self.fetch_refusal(actor, point, seq, predicted) {
            return Err(rule);
        }
        self.fetch(actor, point, predicted);
        Ok(())
    }

    fn follow_decode(&mut self, actor: u8, seq: Seq) -> Result<(), u8>
        requires { length self.old.past < self.old.limit }
        ensures rule { result_err result
            ≡ refused self.old.setup self.old.past (Decode actor seq) }
        ensures made { IfOk result (λ _. self.new ≡ grown (Decode actor seq) self.old) }
        ensures same { IfErr result (λ _. self.new ≡ self.old) }
    {
        let hart = self.judge_decode(actor, seq)?;
        self.write_decode(actor, hart, seq);
        Ok(())
    }

    fn follow_rename(&mut self, actor: u8, seq: Seq, phys: Option<Phys>) -> Result<(), u8>
        requires { length self.old.past < self.old.limit }
        ensures rule { result_err result
            ≡ refused self.old.setup self.old.past (Rename actor seq phys) }
        ensures made { IfOk result (λ _. self.new ≡ grown (Rename actor seq phys) self.old) }
        ensures same { IfErr result (λ _. self.new ≡ self.old) }
    {
        let hart = self.judge_rename(actor, seq, phys)?;
        self.write_rename(actor, hart, seq, phys);
        Ok(())
    }

    fn follow_issue(&mut self, actor: u8, seq: Seq) -> Result<(), u8>
        requires { length self.old.past < self.old.limit }
        ensures rule { result_err result ≡ refused self.old.setup self.old.past (Issue actor seq) }
        ensures made { IfOk result (λ _. self.new ≡ grown (Issue actor seq) self.old) }
        ensures same { IfErr result (λ _. self.new ≡ self.old) }
    {
        // Only what the actor issues next may come, so the queue is gone through once.
        let Some(entry) = self.next_to_issue(actor) else {
            return Err(self.issue_rule(actor, seq));
        };
        if entry.seq != seq {
            return Err(self.issue_rule(actor, seq));
        }
        let (job, _event) = self.write_issue(actor, entry);
        job.abandon();
        Ok(())
    }

    /// The first rule that an issue breaks which may not come.
    fn issue_rule(&self, actor: u8, seq: Seq) -> u8
        requires { is_some (refused self.now.setup self.now.past (Issue actor seq)) ≡ true }
        ensures { Some result ≡ refused self.now.setup self.now.past (Issue actor seq) }
    {
        let Some(rule) = self.issue_refusal(actor, seq) else {
            unreachable!();
        };
        rule
    }

    fn follow_completion(&mut self, actor: u8, seq: Seq, outcome: Outcome) -> Result<(), u8>
        requires { length self.old.past < self.old.limit }
        ensures rule { result_err result
            ≡ refused self.old.setup self.old.past (Complete actor seq outcome) }
        ensures made { IfOk result (λ _. self.new ≡ grown (Complete actor seq outcome) self.old) }
        ensures same { IfErr result (λ _. self.new ≡ self.old) }
    {
        let (job, active) = self.judge_completion(actor, seq, outcome)?;
        self.finish(actor, &job, &active, outcome);
        Ok(())
    }

    fn follow_drop(&mut self, actor: u8, seq: Seq) -> Result<(), u8>
        requires { length self.old.past < self.old.limit }
        ensures rule { result_err result
            ≡ refused self.old.setup self.old.past (Event.Drop actor seq) }
        ensures made { IfOk result (λ _. self.new ≡ grown (Event.Drop actor seq) self.old) }
        ensures same { IfErr result (λ _. self.new ≡ self.old) }
    {
        if let Some(rule) = self.drop_refusal(actor, seq) {
            return Err(rule);
        }
        self.drop_job(actor, seq);
        Ok(())
    }

    fn follow_retirement(&mut self, actor: u8, seq: Seq, effect: Effect) -> Result<(), u8>
        requires { length self.old.past < self.old.limit }
        ensures rule { result_err result
            ≡ refused self.old.setup self.old.past (Retire actor seq effect) }
        ensures made { IfOk result (λ _. self.new ≡ grown (Retire actor seq effect) self.old) }
        ensures same { IfErr result (λ _. self.new ≡ self.old) }
    {
        let (hart, active) = self.judge_retirement(actor, seq, effect)?;
        self.write_retire(actor, hart, &active, effect);
        Ok(())
    }

    fn follow_refetch(&mut self, actor: u8, seq: Seq) -> Result<(), u8>
        requires { length self.old.past < self.old.limit }
        ensures rule { result_err result
            ≡ refused self.old.setup self.old.past (Refetch actor seq) }
        ensures made { IfOk result (λ _. self.new ≡ grown (Refetch actor seq) self.old) }
        ensures same { IfErr result (λ _. self.new ≡ self.old) }
    {
        let (hart, active) = self.judge_refetch(actor, seq)?;
        self.write_refetch(actor, hart, &active);
        Ok(())
    }
}
