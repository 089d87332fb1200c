//! Taking what waits first: on a stream, or of the jobs.

ghost use Rattle.std.specs.Prelude.{◌≡◌, ◌≢◌, ◌+◌, ◌<◌, ◌≤◌, ◌^◌, IfSome, None, Some, length};
ghost use Rattle.rs_wire.specs.declared.call.Call.TheVariants as calls;
ghost use Rattle.rs_wire.specs.declared.settings.Settings.{Settings};
ghost use Rattle.tape.specs.declared.answer.Answer.TheVariants as answers;
ghost use Rattle.tape.specs.declared.event.Event.TheVariants as events;
ghost use Rattle.interactions.specs.Seen.{front_of, known_to};
ghost use Rattle.session_model.specs.Answers.{answer_to};
ghost use Rattle.session_core.specs.After.{IsAfter};
ghost use Rattle.session_core.specs.Gathering.{IsOfHeard};
ghost use Rattle.session_core.specs.Seen.{IsOrOutOfMemory, entries_after};

use crate::gathering::let_stream_go;
use crate::session::Session;
use crate::state::State;
use rs_wire::{Delivery, Job, OutOfMemory};
use tape::{Answer, Tape};

impl State {
    // Takes the delivery that waits first on a stream.
    #[inline(always)]
    fn take(&mut self, stream: u32) -> Option<Delivery>
        requires heard { IsOfHeard (known_to self.old.streams) self.old.parts }
        ensures first { result ≡ front_of ((known_to self.old.streams).waits stream) }
        ensures after { (g : Settings) → IfSome result (λ d.
            IsAfter g self.old (events.Asked (calls.Take stream)) (answers.Got d) self.new) }
    {
        let delivery = self.streams.take(stream)?;
        let_stream_go(&mut self.parts, &self.streams, stream);
        Some(delivery)
    }

    // Takes the job that waits first.
    #[inline(always)]
    fn take_job(&mut self) -> Option<Job>
        requires heard { IsOfHeard (known_to self.old.streams) self.old.parts }
        ensures first { result ≡ front_of (known_to self.old.streams).jobs }
        ensures after { (g : Settings) → IfSome result (λ j.
            IsAfter g self.old (events.Asked calls.TakeJob) (answers.GotJob j) self.new) }
    {
        self.streams.take_job()
    }
}

impl<T: Tape> Session<T> {
    /// Answers a take on a stream where something waits, and hands it out: only a tape that keeps
    /// its entries copies it. `None` where nothing waits: nothing has changed.
    #[inline(always)]
    pub(crate) fn take(&mut self, who: u32, stream: u32) -> Option<Answer>
        requires not_full { length self.old.entries < 2 ^ 63 }
        ensures answer { IfSome result (λ a. IsOrOutOfMemory a (answer_to self.old.settings
            self.old.entries (events.Asked (calls.Take stream)))) }
        ensures not_full { result ≢ Some Answer.TapeFull }
        ensures after { IfSome result (λ a. self.new ≡ record self.old {
          entries = entries_after who (events.Asked (calls.Take stream)) a self.old.entries;
          spare = self.new.spare;
        }) }
        ensures none { result ≡ None → self.new ≡ self.old }
        ensures spare { self.old.spare ≤ self.new.spare + 1 }
    {
        let delivery = self.state.streams.next_take(stream)?;
        if let Err(OutOfMemory) = self.tape.note_taken(who, stream, delivery) {
            return Some(Answer::OutOfMemory);
        }
        self.history.note_taken(who, stream, delivery);
        match self.state.take(stream) {
            Some(delivery) => Some(Answer::Got(delivery)),
            None => unreachable!(),
        }
    }

    /// Answers a take of a job where one waits, and hands it out as [`Session::take`] does. `None`
    /// where none waits: nothing has changed.
    #[inline(always)]
    pub(crate) fn take_job(&mut self, who: u32) -> Option<Answer>
        requires not_full { length self.old.entries < 2 ^ 63 }
        ensures answer { IfSome result (λ a. IsOrOutOfMemory a (answer_to self.old.settings
            self.old.entries (events.Asked calls.TakeJob))) }
        ensures not_full { result ≢ Some Answer.TapeFull }
        ensures after { IfSome result (λ a. self.new ≡ record self.old {
          entries = entries_after who (events.Asked calls.TakeJob) a self.old.entries;
          spare = self.new.spare;
        }) }
        ensures none { result ≡ None → self.new ≡ self.old }
        ensures spare { self.old.spare ≤ self.new.spare + 1 }
    {
        let job = self.state.streams.next_job()?;
        if let Err(OutOfMemory) = self.tape.note_job(who, job) {
            return Some(Answer::OutOfMemory);
        }
        self.history.note_job(who, job);
        match self.state.take_job() {
            Some(job) => Some(Answer::GotJob(job)),
            None => unreachable!(),
        }
    }
}
