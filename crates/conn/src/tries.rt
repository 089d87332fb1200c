//! Calls that wait for nobody.

ghost use Rattle.std.specs.Prelude.{◌≡◌, ◌<◌, ◌^◌, IfNone, IfSome, None, length};
ghost use Rattle.rs_wire.specs.Calls.{CanBeAsked};
ghost use Rattle.session_model.specs.Legal.{CanBring};
ghost use Rattle.session_core.specs.Queued.{IsUntouched};
ghost use Rattle.session_core.specs.Seen.{IsNoDrawEvent};
ghost use Rattle.tape.specs.declared.event.Event.TheVariants as events;
ghost use Rattle.conn_shared.specs.Members.{IsTurnedAway};
ghost use Rattle.conn_shared.specs.Calls.{IsCalled, IsDrawCall};

use crate::caller::{Caller, give_back, take};
use crate::connection::Connection;
use rs_wire::Call;
use tape::{Answer, Event, Tape};

impl<T: Tape> Connection<T> {
    // Rings after a try, where it had a turn.
    fn announce_try(&self, answer: &Option<Answer>) {
        if let Some(answer) = answer {
            self.announce(answer);
        }
    }

    /// Brings an event as [`event`](Connection::event) does, but waits for nobody. `None` comes only
    /// where the next ticket of the lock was not the one that was served when this call looked, which
    /// counts as a miss of the caller, or where the last ticket, 2^64 - 1, is served. The caller has
    /// seen nothing new then.
    pub fn try_event(&self, caller: &mut Caller<T>, event: &Event) -> Option<Answer>
        requires of { caller.old.of ≡ self.now }
        requires fair { CanBring self.now.settings event.now }
        requires no_draw { IsNoDrawEvent event.now }
        ensures same { IfSome result (λ a.
            caller.new ≡ record caller.old { front = caller.new.front; note = None }) }
        ensures called { IfSome result (λ a.
            IsCalled self.now.settings caller.old event.now a caller.new.front) }
        ensures turned_away { IfNone result (IsTurnedAway caller.old caller.new) }
    {
        let member = take(&mut caller.member);
        let (member, answer) = self.shared.try_step(member, event);
        give_back(&mut caller.member, member);
        self.announce_try(&answer);
        answer
    }

    /// Asks as [`call`](Connection::call) does, but waits for nobody. `None` is as of
    /// [`try_event`](Connection::try_event).
    pub fn try_call(&self, caller: &mut Caller<T>, call: &Call) -> Option<Answer>
        requires of { caller.old.of ≡ self.now }
        requires askable { CanBeAsked call.now }
        ensures same { IfSome result (λ a.
            caller.new ≡ record caller.old { front = caller.new.front; note = None }) }
        ensures called { IfSome result (λ a. IsCalled self.now.settings caller.old
            (events.Asked call.now) a caller.new.front) }
        ensures turned_away { IfNone result (IsTurnedAway caller.old caller.new) }
    {
        let member = take(&mut caller.member);
        let (member, answer) = self.shared.try_ask(member, call);
        give_back(&mut caller.member, member);
        self.announce_try(&answer);
        answer
    }

    /// Draws as [`draw`](Connection::draw) does, but waits for nobody. `None` is as of
    /// [`try_event`](Connection::try_event), and leaves the buffer as it was.
    pub fn try_draw(&self, caller: &mut Caller<T>, conn: u64, buffer: &mut [u8]) -> Option<Answer>
        requires of { caller.old.of ≡ self.now }
        requires some { 0 < length buffer.old }
        requires few { length buffer.old < 2 ^ 32 }
        ensures same { IfSome result (λ a.
            caller.new ≡ record caller.old { front = caller.new.front; note = None }) }
        ensures drawn { IfSome result (λ a. IsDrawCall self.now.settings caller.old conn
            (length buffer.old) a buffer.new caller.new.front) }
        ensures untouched { IfSome result (λ a. IsUntouched a buffer.old buffer.new) }
        ensures turned_away { IfNone result (IsTurnedAway caller.old caller.new) }
        ensures kept { IfNone result (buffer.new ≡ buffer.old) }
    {
        let member = take(&mut caller.member);
        let (member, answer) = self.shared.try_draw(member, conn, buffer);
        give_back(&mut caller.member, member);
        self.announce_try(&answer);
        answer
    }
}
