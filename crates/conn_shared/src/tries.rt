//! Steps that wait for nobody.

ghost use Rattle.std.specs.Prelude.{◌≡◌, ◌<◌, ◌^◌, IfNone, IfSome, None, length};
ghost use Rattle.rs_wire.specs.Calls.{CanBeAsked};
ghost use Rattle.session_model.specs.Legal.{CanBring};
ghost use Rattle.session_core.specs.Queued.{IsUntouched};
ghost use Rattle.session_core.specs.Seen.{IsNoDrawEvent};
ghost use Rattle.tape.specs.declared.event.Event.TheVariants as events;
ghost use Rattle.conn_shared.specs.Members.{IsTurnedAway};
ghost use Rattle.conn_shared.specs.Calls.{IsCalled, IsDrawCall};

use crate::member::Member;
use crate::shared::SharedSession;
use rs_wire::{Call, OutOfMemory};
use tape::{Answer, Event, Tape};

impl<T: Tape> SharedSession<T> {
    /// Brings an event as [`step`](SharedSession::step) does, but waits for nobody. `None` comes only
    /// where the next ticket of the lock was not the one that was served when this call looked, which
    /// counts as a miss of the member, or where the last ticket, 2^64 - 1, is served. The member has
    /// seen nothing new then.
    pub fn try_step(&self, member: Member<T>, event: &Event) -> (Member<T>, Option<Answer>)
        requires of { member.of ≡ self.now }
        requires fair { CanBring self.now.settings event.now }
        requires no_draw { IsNoDrawEvent event.now }
        ensures same { IfSome result.1 (λ a.
            result.0 ≡ record member { front = result.0.front; note = None }) }
        ensures called { IfSome result.1 (λ a.
            IsCalled self.now.settings member event.now a result.0.front) }
        ensures turned_away { IfNone result.1 (IsTurnedAway member result.0) }
    {
        match self.try_enter(member.into_seat()) {
            Err(seat) => (Member { seat }, None),
            Ok(turn) => {
                let (seat, answer) = self.step_in(turn, event);
                (Member { seat }, Some(answer))
            }
        }
    }

    // Asks in one turn, if there is one at once, where nothing of the call has to be copied: there is
    // no memory for a copy.
    fn try_uncopied(&self, member: Member<T>, call: &Call) -> (Member<T>, Option<Answer>)
        requires of { member.of ≡ self.now }
        requires askable { CanBeAsked call.now }
        ensures same { IfSome result.1 (λ a.
            result.0 ≡ record member { front = result.0.front; note = None }) }
        ensures called { IfSome result.1 (λ a. IsCalled self.now.settings member
            (events.Asked call.now) a result.0.front) }
        ensures turned_away { IfNone result.1 (IsTurnedAway member result.0) }
    {
        match self.try_enter(member.into_seat()) {
            Err(seat) => (Member { seat }, None),
            Ok(turn) => {
                let (seat, answer) = self.ask_in(turn, call);
                (Member { seat }, Some(answer.unwrap_or(Answer::OutOfMemory)))
            }
        }
    }

    /// Asks as [`ask`](SharedSession::ask) does, but waits for nobody: the call is copied before it is
    /// seen whether there is a turn. `None` is as of [`try_step`](SharedSession::try_step).
    pub fn try_ask(&self, member: Member<T>, call: &Call) -> (Member<T>, Option<Answer>)
        requires of { member.of ≡ self.now }
        requires askable { CanBeAsked call.now }
        ensures same { IfSome result.1 (λ a.
            result.0 ≡ record member { front = result.0.front; note = None }) }
        ensures called { IfSome result.1 (λ a. IsCalled self.now.settings member
            (events.Asked call.now) a result.0.front) }
        ensures turned_away { IfNone result.1 (IsTurnedAway member result.0) }
    {
        match call.copy(self.alloc) {
            Ok(copy) => self.try_step(member, &Event::Asked(copy)),
            Err(OutOfMemory) => self.try_uncopied(member, call),
        }
    }

    /// Draws as [`draw`](SharedSession::draw) does, but waits for nobody. `None` is as of
    /// [`try_step`](SharedSession::try_step), and leaves the buffer as it was.
    pub fn try_draw(
        &self,
        member: Member<T>,
        conn: u64,
        buffer: &mut [u8],
    ) -> (Member<T>, Option<Answer>)
        requires of { member.of ≡ self.now }
        requires some { 0 < length buffer.old }
        requires few { length buffer.old < 2 ^ 32 }
        ensures same { IfSome result.1 (λ a.
            result.0 ≡ record member { front = result.0.front; note = None }) }
        ensures drawn { IfSome result.1 (λ a. IsDrawCall self.now.settings member conn
            (length buffer.old) a buffer.new result.0.front) }
        ensures untouched { IfSome result.1 (λ a. IsUntouched a buffer.old buffer.new) }
        ensures turned_away { IfNone result.1 (IsTurnedAway member result.0) }
        ensures kept { IfNone result.1 (buffer.new ≡ buffer.old) }
    {
        match self.try_enter(member.into_seat()) {
            Err(seat) => (Member { seat }, None),
            Ok(turn) => {
                let (seat, answer) = self.draw_in(turn, conn, buffer);
                (Member { seat }, Some(answer))
            }
        }
    }
}
