//! Calls that wait until there is something to take.

ghost use Rattle.std.specs.Prelude.{◌≡◌, ◌≢◌, None};
ghost use Rattle.session_model.specs.Legal.{CanBring};
ghost use Rattle.session_core.specs.Seen.{IsNoDrawEvent};
ghost use Rattle.rs_wire.specs.declared.call.Call.TheVariants as calls;
ghost use Rattle.tape.specs.declared.event.Event.TheVariants as events;
ghost use Rattle.conn_shared.specs.Calls.{IsCalled};

use crate::caller::Caller;
use crate::connection::Connection;
use rs_wire::Call;
use std::sync::Wait;
use tape::{Answer, Event, Tape};

impl<T: Tape> Connection<T> {
    // Brings the event until the answer is another than `NotYet`, and sleeps in between until
    // something happens to the session.
    fn wait_for<R: Wait>(&self, rt: &R, caller: &mut Caller<T>, event: &Event) -> Answer
        requires of { caller.old.of ≡ self.now }
        requires fair { CanBring self.now.settings event.now }
        requires no_draw { IsNoDrawEvent event.now }
        ensures same { caller.new ≡ record caller.old { front = caller.new.front; note = None } }
        ensures called { IsCalled self.now.settings caller.old event.now result caller.new.front }
        ensures answered { result ≢ Answer.NotYet }
    {
        for _ in rt.forever() {
            // Whoever rings after this line is heard.
            let listener = self.bell.listen();
            let answer = self.event(rt, caller, event);
            if answer != Answer::NotYet {
                return answer;
            }
            listener.wait(rt);
        }
        unreachable!()
    }

    /// Takes what was delivered on a stream, the oldest first. Where nothing waits, it waits until
    /// something does, or until the stream is refused, as it is once the session is closed. It goes on
    /// waiting while a session that resumes has no live connection.
    pub fn wait_take<R: Wait>(&self, rt: &R, caller: &mut Caller<T>, stream: u32) -> Answer
        requires of { caller.old.of ≡ self.now }
        ensures same { caller.new ≡ record caller.old { front = caller.new.front; note = None } }
        ensures called { IsCalled self.now.settings caller.old
            (events.Asked (calls.Take stream)) result caller.new.front }
        ensures answered { result ≢ Answer.NotYet }
    {
        self.wait_for(rt, caller, &Event::Asked(Call::Take { stream }))
    }

    /// Takes what the peer asked, a request or metadata for the whole connection, the oldest first.
    /// Where none waits, it waits until one does, or until the session is closed. It goes on waiting
    /// while a session that resumes has no live connection.
    pub fn wait_job<R: Wait>(&self, rt: &R, caller: &mut Caller<T>) -> Answer
        requires of { caller.old.of ≡ self.now }
        ensures same { caller.new ≡ record caller.old { front = caller.new.front; note = None } }
        ensures called { IsCalled self.now.settings caller.old
            (events.Asked calls.TakeJob) result caller.new.front }
        ensures answered { result ≢ Answer.NotYet }
    {
        self.wait_for(rt, caller, &Event::Asked(Call::TakeJob))
    }
}
