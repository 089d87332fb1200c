//! Calls that wait for a turn.

ghost use Rattle.std.specs.Prelude.{◌≡◌, ◌↔◌, ◌<◌, ◌^◌, IsTrue, None, Some, false, length, true};
ghost use Rattle.rs_wire.specs.Calls.{CanBeAsked};
ghost use Rattle.session_model.specs.Frames.{queued};
ghost use Rattle.session_model.specs.Legal.{CanBring};
ghost use Rattle.session_model.specs.Life.{asked_token, carrying, closed, live, setup};
ghost use Rattle.session_core.specs.Queued.{IsUntouched};
ghost use Rattle.session_core.specs.Seen.{IsNoDrawEvent};
ghost use Rattle.tape.specs.declared.answer.Answer.TheVariants as answers;
ghost use Rattle.tape.specs.declared.event.Event.TheVariants as events;
ghost use Rattle.conn_shared.specs.Members.{Follows};
ghost use Rattle.conn_shared.specs.Calls.{IsCalled, IsDrawCall};

use crate::caller::{Caller, give_back, take};
use crate::connection::Connection;
use conn_shared::Looked;
use rs_wire::{Blob, Call};
use std::sync::Wait;
use tape::{Answer, Event, Tape};

impl<T: Tape> Connection<T> {
    /// Brings an event, which is no draw. It waits for a turn. An opening has a first frame exactly on
    /// a server, and frames can be spelled.
    pub fn event<R: Wait>(&self, rt: &R, caller: &mut Caller<T>, event: &Event) -> Answer
        requires of { caller.old.of ≡ self.now }
        requires fair { CanBring self.now.settings event.now }
        requires no_draw { IsNoDrawEvent event.now }
        ensures same { caller.new ≡ record caller.old { front = caller.new.front; note = None } }
        ensures called { IsCalled self.now.settings caller.old event.now result caller.new.front }
    {
        let member = take(&mut caller.member);
        let (member, answer) = self.shared.step(rt, member, event);
        give_back(&mut caller.member, member);
        self.announce(&answer);
        answer
    }

    /// Brings an event as [`event`](Connection::event) does, and takes it, so that what a frame carries
    /// need not be copied. It serves whoever has the event for one call, as a pump has a frame that
    /// came; `event` serves whoever brings it again.
    pub fn bring<R: Wait>(&self, rt: &R, caller: &mut Caller<T>, event: Event) -> Answer
        requires of { caller.old.of ≡ self.now }
        requires fair { CanBring self.now.settings event }
        requires no_draw { IsNoDrawEvent event }
        ensures same { caller.new ≡ record caller.old { front = caller.new.front; note = None } }
        ensures called { IsCalled self.now.settings caller.old event result caller.new.front }
    {
        let member = take(&mut caller.member);
        let (member, answer) = self.shared.bring(rt, member, event);
        give_back(&mut caller.member, member);
        self.announce(&answer);
        answer
    }

    /// Brings a tick with this moment, if nothing is due at it. It waits for a turn, and rouses nobody.
    /// Answers whether it did: if not, the caller has only seen what others did, and the tick has yet
    /// to be brought.
    pub fn tick_if_quiet<R: Wait>(&self, rt: &R, caller: &mut Caller<T>, now: u64) -> bool
        requires of { caller.old.of ≡ self.now }
        ensures same { caller.new ≡ record caller.old { front = caller.new.front; note = None } }
        ensures called { result ≡ true → IsCalled self.now.settings caller.old
            (events.Tick now) answers.Quiet caller.new.front }
        ensures follows { result ≡ false →
            Follows caller.old.names caller.old.front caller.new.front }
    {
        let member = take(&mut caller.member);
        let (member, is_quiet) = self.shared.tick_if_quiet(rt, member, now);
        give_back(&mut caller.member, member);
        is_quiet
    }

    /// Asks something of the session. It waits for a turn, and for a second one where the call has to
    /// be copied, which is done between the two.
    #[inline(always)]
    pub fn call<R: Wait>(&self, rt: &R, caller: &mut Caller<T>, call: &Call) -> Answer
        requires of { caller.old.of ≡ self.now }
        requires askable { CanBeAsked call.now }
        ensures same { caller.new ≡ record caller.old { front = caller.new.front; note = None } }
        ensures called { IsCalled self.now.settings caller.old
            (events.Asked call.now) result caller.new.front }
    {
        let member = take(&mut caller.member);
        let (member, answer) = self.shared.ask(rt, member, call);
        give_back(&mut caller.member, member);
        self.announce(&answer);
        answer
    }

    /// Draws bytes that are due on a connection into the buffer, which has 1 to 4,294,967,295 bytes.
    /// It waits for a turn.
    pub fn draw<R: Wait>(
        &self,
        rt: &R,
        caller: &mut Caller<T>,
        conn: u64,
        buffer: &mut [u8],
    ) -> Answer
        requires of { caller.old.of ≡ self.now }
        requires some { 0 < length buffer.old }
        requires few { length buffer.old < 2 ^ 32 }
        ensures same { caller.new ≡ record caller.old { front = caller.new.front; note = None } }
        ensures drawn { IsDrawCall self.now.settings caller.old conn (length buffer.old)
            result buffer.new caller.new.front }
        ensures untouched { IsUntouched result buffer.old buffer.new }
    {
        let member = take(&mut caller.member);
        let (member, answer) = self.shared.draw(rt, member, conn, buffer);
        give_back(&mut caller.member, member);
        self.announce(&answer);
        answer
    }

    /// What the session is like. It waits for a turn and leaves no entry.
    pub fn look<R: Wait>(&self, rt: &R, caller: &mut Caller<T>) -> Looked
        requires of { caller.old.of ≡ self.now }
        ensures same { caller.new ≡ record caller.old { front = caller.new.front; note = None } }
        ensures follows { Follows caller.old.names caller.old.front caller.new.front }
        ensures live { result.live ≡ live caller.new.front }
        ensures queued { result.queued ≡ queued self.now.settings caller.new.front }
        ensures carrying { result.carrying ≡ carrying self.now.settings caller.new.front }
        ensures cause { result.cause ≡ closed self.now.settings caller.new.front }
    {
        let member = take(&mut caller.member);
        let (member, looked) = self.shared.look(rt, member);
        give_back(&mut caller.member, member);
        looked
    }

    /// Whether a SETUP with this token was accepted here (RSocket 1.0, "SETUP Frame"), so that a
    /// RESUME with it is for this session. No SETUP comes to a client, so a client holds no token.
    /// It waits for a turn and leaves no entry.
    pub fn holds<R: Wait>(&self, rt: &R, caller: &mut Caller<T>, token: &Blob) -> bool
        requires of { caller.old.of ≡ self.now }
        ensures same { caller.new ≡ record caller.old { front = caller.new.front; note = None } }
        ensures follows { Follows caller.old.names caller.old.front caller.new.front }
        ensures holds { IsTrue result ↔
            (asked_token (setup caller.new.front) ≡ Some token.now) }
    {
        let member = take(&mut caller.member);
        let (member, holds) = self.shared.holds(rt, member, token);
        give_back(&mut caller.member, member);
        holds
    }
}
