//! What happens to a session, one event after the other.

ghost use Rattle.std.specs.Prelude.{◌≡◌, ◌≢◌, ◌+◌, ◌<◌, ◌≤◌, ◌^◌, ◌↔◌, ◌∷◌, OnErr, OnOk, length};
ghost use Rattle.tape.specs.Told.{entry_of};
ghost use Rattle.session_model.specs.Answers.{answer_to};
ghost use Rattle.session_model.specs.Legal.{CanBring, IsFair, LeavesEntry};
ghost use Rattle.session_core.specs.Seen.{IsCutEvent, IsNoDrawEvent, IsOrOutOfMemory, entries_after};

use crate::amounts::amounts_fit;
use crate::judge::judge;
use crate::session::{FULL, Session};
use rs_wire::OutOfMemory;
use tape::{Answer, Event, Tape};

impl<T: Tape> Session<T> {
    // Answers an event, which is no draw. What is cleared on the stack for it is not cleared for a
    // tick, which goes another way.
    #[inline(never)]
    fn step_on(&mut self, who: u32, event: &Event) -> Answer
        requires fair { CanBring self.old.settings event.now }
        requires no_draw { IsNoDrawEvent event.now }
        ensures answer { IsOrOutOfMemory result
            (answer_to self.old.settings self.old.entries event.now) }
        ensures full { (result ≡ Answer.TapeFull) ↔ (2 ^ 63 ≤ length self.old.entries) }
        ensures after { self.new ≡ record self.old {
          entries = entries_after who event.now result self.old.entries;
          spare = self.new.spare;
        } }
        ensures memory { IsCutEvent event.now → 0 < self.old.spare → result ≢ Answer.OutOfMemory }
        ensures spare { self.old.spare ≤ self.new.spare + 1 }
    {
        if self.tape.count() >= FULL {
            return Answer::TapeFull;
        }
        match event {
            Event::Cut { conn } => self.cut(who, *conn),
            Event::Asked(call) => match self.ask_shortly(who, call) {
                Some(answer) => answer,
                None => self.answer(who, event),
            },
            _ => self.answer(who, event),
        }
    }

    /// Answers an event, which is no draw, and notes it on the tape for the caller `who`. An
    /// opening has a first frame exactly on a server, and frames can be spelled.
    ///
    /// `TapeFull` comes exactly where there are 2^63 entries. `OutOfMemory` may come in place of
    /// any other answer, of `NotYet` and `OutBusy` too, but at a cut only where there is no spare.
    /// These four leave all as it was.
    #[inline(always)]
    pub fn step(&mut self, who: u32, event: &Event) -> Answer
        requires fair { CanBring self.old.settings event.now }
        requires no_draw { IsNoDrawEvent event.now }
        ensures answer { IsOrOutOfMemory result
            (answer_to self.old.settings self.old.entries event.now) }
        ensures full { (result ≡ Answer.TapeFull) ↔ (2 ^ 63 ≤ length self.old.entries) }
        ensures after { self.new ≡ record self.old {
          entries = entries_after who event.now result self.old.entries;
          spare = self.new.spare;
        } }
        ensures memory { IsCutEvent event.now → 0 < self.old.spare → result ≢ Answer.OutOfMemory }
        ensures spare { self.old.spare ≤ self.new.spare + 1 }
    {
        match event {
            Event::Tick { now } => self.tick(who, *now),
            _ => self.step_on(who, event),
        }
    }

    /// Answers an event, which is no draw, by the way that serves for all.
    pub(crate) fn answer(&mut self, who: u32, event: &Event) -> Answer
        requires fair { CanBring self.old.settings event.now }
        requires no_draw { IsNoDrawEvent event.now }
        requires not_full { length self.old.entries < 2 ^ 63 }
        ensures answer { IsOrOutOfMemory result
            (answer_to self.old.settings self.old.entries event.now) }
        ensures not_full { result ≢ Answer.TapeFull }
        ensures after { self.new ≡ record self.old {
          entries = entries_after who event.now result self.old.entries;
          spare = self.new.spare;
        } }
        ensures spare { self.old.spare ≤ self.new.spare + 1 }
    {
        let Ok(answer) = judge(self.alloc, &self.settings, &self.state, event) else {
            return Answer::OutOfMemory;
        };
        if !answer.leaves_entry() {
            return answer;
        }
        // It does nothing: it says that the amounts of a call have their range.
        amounts_fit(&self.settings, event);
        match self.note(who, event, &answer) {
            Ok(()) => answer,
            Err(OutOfMemory) => Answer::OutOfMemory,
        }
    }

    // Applies the event and its answer.
    fn note(&mut self, who: u32, event: &Event, answer: &Answer) -> Result<(), OutOfMemory>
        requires fair { IsFair self.old.settings event.now }
        requires no_draw { IsNoDrawEvent event.now }
        requires not_full { length self.old.entries < 2 ^ 63 }
        requires leaves { LeavesEntry answer.now }
        requires is { answer.now ≡ answer_to self.old.settings self.old.entries event.now }
        ensures ok { OnOk result (self.new ≡ record self.old {
          entries = entry_of who event.now answer.now ∷ self.old.entries;
          spare = self.new.spare;
        }) }
        ensures err { OnErr result (self.new ≡ record self.old { spare = self.new.spare }) }
        ensures spare { self.old.spare ≤ self.new.spare + 1 }
    {
        let mut prepared = self
            .state
            .prepare(self.alloc, &self.settings, event, answer)?;
        if let Err(error) = self.tape.note(who, event, answer) {
            self.state.forget(&prepared);
            return Err(error);
        }
        self.history.note(who, event, answer);
        self.state.act(&self.settings, event, answer, &mut prepared);
        Ok(())
    }
}
