//! What comes to a session, which takes it.

ghost use Rattle.std.specs.Prelude.{◌≡◌, ◌≢◌, ◌+◌, ◌<◌, ◌≤◌, ◌^◌, ◌↔◌, ◌∷◌, OnErr, OnOk, length};
ghost use Rattle.tape.specs.Told.{entry_of};
ghost use Rattle.session_model.specs.Answers.{answer_to, facts};
ghost use Rattle.session_model.specs.Legal.{CanBring, IsFair};
ghost use Rattle.session_core.specs.Alone.{IsAlone};
ghost use Rattle.session_core.specs.Seen.{IsCutEvent, IsNoDrawEvent, IsOrOutOfMemory, entries_after};

use crate::hearing::comes_alone;
use crate::quiet::let_tick_go;
use crate::session::{FULL, Session};
use crate::speak::make_room;
use rs_wire::OutOfMemory;
use tape::{Answer, Event, Tape};

impl<T: Tape> Session<T> {
    // Applies a message that came whole and is handled, where nothing was gathered on its stream.
    fn note_whole(&mut self, who: u32, event: Event) -> Result<(), OutOfMemory>
        requires fair { IsFair self.old.settings event }
        requires alone { IsAlone self.old.settings
            (facts self.old.settings self.old.entries) event }
        requires not_full { length self.old.entries < 2 ^ 63 }
        requires is { Answer.Handled ≡ answer_to self.old.settings self.old.entries event }
        ensures ok { OnOk result (self.new ≡ record self.old {
          entries = entry_of who event Answer.Handled ∷ self.old.entries;
          spare = self.new.spare;
        }) }
        ensures err { OnErr result (self.new ≡ record self.old { spare = self.new.spare }) }
        ensures spare { self.old.spare ≤ self.new.spare + 1 }
    {
        make_room(&mut self.state.streams, &event, &Answer::Handled)?;
        self.tape.note(who, &event, &Answer::Handled)?;
        self.history.note(who, &event, &Answer::Handled);
        self.state.apply_whole(&self.settings, event);
        Ok(())
    }

    // Answers an event that is no tick, and takes it.
    #[inline(never)]
    fn bring_on(&mut self, who: u32, event: Event) -> Answer
        requires fair { CanBring self.old.settings event }
        requires no_draw { IsNoDrawEvent event }
        ensures answer { IsOrOutOfMemory result
            (answer_to self.old.settings self.old.entries event) }
        ensures full { (result ≡ Answer.TapeFull) ↔ (2 ^ 63 ≤ length self.old.entries) }
        ensures after { self.new ≡ record self.old {
          entries = entries_after who event result self.old.entries;
          spare = self.new.spare;
        } }
        ensures memory { IsCutEvent event → 0 < self.old.spare → result ≢ Answer.OutOfMemory }
        ensures spare { self.old.spare ≤ self.new.spare + 1 }
    {
        if self.tape.count() >= FULL {
            return Answer::TapeFull;
        }
        if !comes_alone(&self.settings, &self.state, &event) {
            return self.step(who, &event);
        }
        match self.note_whole(who, event) {
            Ok(()) => Answer::Handled,
            Err(OutOfMemory) => Answer::OutOfMemory,
        }
    }

    /// Answers an event as [`Session::step`] does, and takes it: a message that comes whole, a
    /// payload's or that of a request that needs no lease, goes to whoever takes it next, and isn't
    /// copied. An event that leaves no entry is gone, too.
    #[inline(always)]
    pub fn bring(&mut self, who: u32, event: Event) -> Answer
        requires fair { CanBring self.old.settings event }
        requires no_draw { IsNoDrawEvent event }
        ensures answer { IsOrOutOfMemory result
            (answer_to self.old.settings self.old.entries event) }
        ensures full { (result ≡ Answer.TapeFull) ↔ (2 ^ 63 ≤ length self.old.entries) }
        ensures after { self.new ≡ record self.old {
          entries = entries_after who event result self.old.entries;
          spare = self.new.spare;
        } }
        ensures memory { IsCutEvent event → 0 < self.old.spare → result ≢ Answer.OutOfMemory }
        ensures spare { self.old.spare ≤ self.new.spare + 1 }
    {
        if let Event::Tick { now } = &event {
            let now = *now;
            let_tick_go(event);
            return self.tick(who, now);
        }
        self.bring_on(who, event)
    }
}
