//! Ticks. Most find nothing due: such a one takes its moment and is noted, and nothing is made for it.

ghost use Rattle.std.specs.Prelude.{◌≡◌, ◌≢◌, ◌+◌, ◌<◌, ◌≤◌, ◌^◌, ◌↔◌, ◌∷◌, Ok, OnErr, false, length, true};
ghost use Rattle.tape.specs.Told.{entry_of};
ghost use Rattle.session_model.specs.Answers.{answer_to};
ghost use Rattle.session_core.specs.Seen.{IsOrOutOfMemory, entries_after};

use crate::session::{FULL, Session};
use crate::ticking::is_quiet;
use crate::timing::tick;
use rs_wire::OutOfMemory;
use tape::{Answer, Event, Tape};

/// Lets a tick go, which owns nothing; `drop` would look for what other events own.
#[inline(always)]
pub fn let_tick_go(event: Event) {
    match event {
        Event::Tick { .. } => {}
        event => drop(event),
    }
}

impl<T: Tape> Session<T> {
    // Takes the moment of a tick, this event, at which nothing is due, and notes it. Answers whether
    // that is so: where something is due, nothing has changed.
    #[inline(always)]
    fn take_moment(&mut self, who: u32, event: &Event, now: u64) -> Result<bool, OutOfMemory>
        requires tick { event.now ≡ Event.Tick now }
        requires not_full { length self.old.entries < 2 ^ 63 }
        ensures quiet { result ≡ Ok true →
            answer_to self.old.settings self.old.entries event.now ≡ Answer.Quiet }
        ensures after { result ≡ Ok true → self.new ≡ record self.old {
          entries = entry_of who event.now Answer.Quiet ∷ self.old.entries;
          spare = self.new.spare;
        } }
        ensures due { result ≡ Ok false → self.new ≡ self.old }
        ensures err { OnErr result (self.new ≡ record self.old { spare = self.new.spare }) }
        ensures spare { self.old.spare ≤ self.new.spare + 1 }
    {
        if !is_quiet(&self.state, now) {
            return Ok(false);
        }
        if let Err(OutOfMemory) = self.tape.note(who, event, &Answer::Quiet) {
            return Err(OutOfMemory);
        }
        self.history.note(who, event, &Answer::Quiet);
        tick(&mut self.state.timer, now, &Answer::Quiet);
        Ok(true)
    }

    // Answers a tick by the way that serves for all. What is cleared on the stack for it is not
    // cleared for a tick at which nothing is due.
    #[inline(never)]
    fn tick_due(&mut self, who: u32, now: u64) -> Answer
        requires not_full { length self.old.entries < 2 ^ 63 }
        ensures answer { IsOrOutOfMemory result
            (answer_to self.old.settings self.old.entries (Event.Tick now)) }
        ensures not_full { result ≢ Answer.TapeFull }
        ensures after { self.new ≡ record self.old {
          entries = entries_after who (Event.Tick now) result self.old.entries;
          spare = self.new.spare;
        } }
        ensures spare { self.old.spare ≤ self.new.spare + 1 }
    {
        let event = Event::Tick { now };
        let answer = self.answer(who, &event);
        drop(event);
        answer
    }

    /// Answers a tick.
    #[inline(always)]
    pub(crate) fn tick(&mut self, who: u32, now: u64) -> Answer
        ensures answer { IsOrOutOfMemory result
            (answer_to self.old.settings self.old.entries (Event.Tick now)) }
        ensures full { (result ≡ Answer.TapeFull) ↔ (2 ^ 63 ≤ length self.old.entries) }
        ensures after { self.new ≡ record self.old {
          entries = entries_after who (Event.Tick now) result self.old.entries;
          spare = self.new.spare;
        } }
        ensures spare { self.old.spare ≤ self.new.spare + 1 }
    {
        if self.tape.count() >= FULL {
            return Answer::TapeFull;
        }
        let event = Event::Tick { now };
        let taken = self.take_moment(who, &event, now);
        let_tick_go(event);
        match taken {
            Ok(true) => Answer::Quiet,
            Ok(false) => self.tick_due(who, now),
            Err(OutOfMemory) => Answer::OutOfMemory,
        }
    }

    /// Takes the moment of a tick at which nothing is due, and notes it. Answers whether it did: where
    /// something is due, where the tape is full, or where there is no memory to note it, nothing has
    /// changed but what is reserved, and the tick has yet to be brought.
    #[inline(always)]
    pub fn tick_if_quiet(&mut self, who: u32, now: u64) -> bool
        ensures quiet { result ≡ true →
            answer_to self.old.settings self.old.entries (Event.Tick now) ≡ Answer.Quiet }
        ensures not_full { result ≡ true → length self.old.entries < 2 ^ 63 }
        ensures after { result ≡ true → self.new ≡ record self.old {
          entries = entry_of who (Event.Tick now) Answer.Quiet ∷ self.old.entries;
          spare = self.new.spare;
        } }
        ensures same { result ≡ false → self.new ≡ record self.old { spare = self.new.spare } }
        ensures spare { self.old.spare ≤ self.new.spare + 1 }
    {
        if self.tape.count() >= FULL {
            return false;
        }
        let event = Event::Tick { now };
        let taken = self.take_moment(who, &event, now);
        let_tick_go(event);
        matches!(taken, Ok(true))
    }
}
