//! What a caller asks of a session, which keeps its call.

ghost use Rattle.std.specs.Prelude.{◌≡◌, ◌≢◌, ◌+◌, ◌<◌, ◌≤◌, ◌^◌, ◌↔◌, IfSome, None, Some, length, true};
ghost use Rattle.rs_wire.specs.Calls.{CanBeAsked};
ghost use Rattle.tape.specs.declared.event.Event.TheVariants as events;
ghost use Rattle.session_model.specs.Answers.{answer_to};
ghost use Rattle.session_core.specs.Seen.{IsOrOutOfMemory, entries_after};
ghost use Rattle.session_core.specs.Sending.{carries_bytes};

use crate::session::{FULL, Session};
use rs_wire::{Call, OutOfMemory};
use tape::{Answer, Event, Tape};

// Whether the copy of a call takes memory.
fn carries_bytes(call: &Call) -> bool
    ensures { result ≡ carries_bytes call.now }
{
    match call {
        Call::Request { .. }
        | Call::Next { .. }
        | Call::Fail { .. }
        | Call::Push { .. }
        | Call::Lease { .. } => true,
        Call::Done { .. }
        | Call::Grant { .. }
        | Call::Cancel { .. }
        | Call::Take { .. }
        | Call::TakeJob
        | Call::Close => false,
    }
}

impl<T: Tape> Session<T> {
    // The answer to a call that has a way of its own, in which the call is not copied: a take where
    // something waits, or what goes out in one frame. `None` of any other call: nothing has changed.
    #[inline(always)]
    pub(crate) fn ask_shortly(&mut self, who: u32, call: &Call) -> Option<Answer>
        requires askable { CanBeAsked call.now }
        requires not_full { length self.old.entries < 2 ^ 63 }
        ensures answer { IfSome result (λ a. IsOrOutOfMemory a (answer_to self.old.settings
            self.old.entries (events.Asked call.now))) }
        ensures not_full { result ≢ Some Answer.TapeFull }
        ensures after { IfSome result (λ a. self.new ≡ record self.old {
          entries = entries_after who (events.Asked call.now) a self.old.entries;
          spare = self.new.spare;
        }) }
        ensures none { result ≡ None → self.new ≡ self.old }
        ensures spare { self.old.spare ≤ self.new.spare + 1 }
    {
        match call {
            Call::Take { stream } => self.take(who, *stream),
            Call::TakeJob => self.take_job(who),
            Call::Request { .. }
            | Call::Next { .. }
            | Call::Done { .. }
            | Call::Grant { .. }
            | Call::Cancel { .. }
            | Call::Fail { .. } => self.send(who, call),
            Call::Push { .. } | Call::Lease { .. } | Call::Close => None,
        }
    }

    // Answers a copy of a call, by the way that serves for all.
    #[inline(never)]
    fn answer_copy(&mut self, who: u32, call: &Call) -> Answer
        requires askable { CanBeAsked call.now }
        requires not_full { length self.old.entries < 2 ^ 63 }
        ensures answer { IsOrOutOfMemory result
            (answer_to self.old.settings self.old.entries (events.Asked call.now)) }
        ensures not_full { result ≢ Answer.TapeFull }
        ensures after { self.new ≡ record self.old {
          entries = entries_after who (events.Asked call.now) result self.old.entries;
          spare = self.new.spare;
        } }
        ensures spare { self.old.spare ≤ self.new.spare + 1 }
    {
        match call.copy(self.alloc) {
            Ok(call) => self.answer(who, &Event::Asked(call)),
            Err(OutOfMemory) => Answer::OutOfMemory,
        }
    }

    /// Answers a call as [`Session::step`] answers the event of it. Of a call that goes a short way
    /// (a take where something waits, and what is said on a stream in one frame) nothing is copied
    /// but what a tape keeps and the content of an error; a call without bytes is copied here.
    /// `None` comes of any other call: it carries bytes, which have to be copied. Nothing has
    /// changed then; the caller copies the call, outside of its turn where the session is shared,
    /// and `step` answers the copy. At a full tape `None` never comes.
    #[inline(always)]
    pub fn ask(&mut self, who: u32, call: &Call) -> Option<Answer>
        requires askable { CanBeAsked call.now }
        ensures answer { IfSome result (λ a. IsOrOutOfMemory a
            (answer_to self.old.settings self.old.entries (events.Asked call.now))) }
        ensures full { IfSome result (λ a.
            (a ≡ Answer.TapeFull) ↔ (2 ^ 63 ≤ length self.old.entries)) }
        ensures after { IfSome result (λ a. self.new ≡ record self.old {
          entries = entries_after who (events.Asked call.now) a self.old.entries;
          spare = self.new.spare;
        }) }
        ensures carries { result ≡ None → carries_bytes call.now ≡ true }
        ensures not_full { result ≡ None → length self.old.entries < 2 ^ 63 }
        ensures none { result ≡ None → self.new ≡ self.old }
        ensures spare { self.old.spare ≤ self.new.spare + 1 }
    {
        if self.tape.count() >= FULL {
            return Some(Answer::TapeFull);
        }
        let asked = self.ask_shortly(who, call);
        if asked.is_some() || carries_bytes(call) {
            return asked;
        }
        Some(self.answer_copy(who, call))
    }
}
