//! Cuts, which need no memory where there is spare.

ghost use Rattle.std.specs.Prelude.{◌≡◌, ◌≢◌, ◌+◌, ◌<◌, ◌≤◌, ◌^◌, ◌∷◌, length};
ghost use Rattle.tape.specs.Told.{entry_of};
ghost use Rattle.session_model.specs.Answers.{answer_to};
ghost use Rattle.session_core.specs.Queued.{IsOfCut};
ghost use Rattle.session_core.specs.Seen.{IsOrOutOfMemory, entries_after};

use crate::judge::judge_cut;
use crate::session::{Session, answered_again};
use tape::{Answer, Entry, Event, Tape};

impl<T: Tape> Session<T> {
    /// Answers a cut and applies it. Where there is spare it needs no memory.
    pub(crate) fn cut(&mut self, who: u32, conn: u64) -> Answer
        requires not_full { length self.old.entries < 2 ^ 63 }
        ensures answer { IsOrOutOfMemory result
            (answer_to self.old.settings self.old.entries (Event.Cut conn)) }
        ensures not_full { result ≢ Answer.TapeFull }
        ensures after { self.new ≡ record self.old {
          entries = entries_after who (Event.Cut conn) result self.old.entries;
          spare = self.new.spare;
        } }
        ensures memory { 0 < self.old.spare → result ≢ Answer.OutOfMemory }
        ensures spare { self.old.spare ≤ self.new.spare + 1 }
    {
        let answer = judge_cut(&self.state, conn);
        if self.tape.reserve(1).is_err() {
            return Answer::OutOfMemory;
        }
        self.part(who, conn, answer)
    }

    // Applies a cut and its answer.
    fn part(&mut self, who: u32, conn: u64, answer: Answer) -> Answer
        requires not_full { length self.old.entries < 2 ^ 63 }
        requires spare { 0 < self.old.spare }
        requires of_cut { IsOfCut answer }
        requires is { answer ≡
            answer_to self.old.settings self.old.entries (Event.Cut conn) }
        ensures answer { result ≡ answer }
        ensures after { self.new ≡ record self.old {
          entries = entry_of who (Event.Cut conn) answer ∷ self.old.entries;
          spare = self.new.spare;
        } }
        ensures used { self.old.spare ≤ self.new.spare + 1 }
    {
        let event = Event::Cut { conn };
        let mut prepared = self.state.nothing_more(self.alloc, &self.settings);
        self.state
            .act(&self.settings, &event, &answer, &mut prepared);
        let again = answered_again(&answer);
        self.history.note(who, &event, &answer);
        self.tape.push(Entry { who, event, answer });
        again
    }
}
