//! Steps that wait for a turn.

ghost use Rattle.std.specs.Prelude.{◌≡◌, ◌↔◌, ◌<◌, ◌^◌, IfSome, IsTrue, None, Some, false, length, true};
ghost use Rattle.rs_wire.specs.Calls.{CanBeAsked};
ghost use Rattle.session_model.specs.Frames.{queued};
ghost use Rattle.session_model.specs.Legal.{CanBring};
ghost use Rattle.session_model.specs.Life.{asked_token, carrying, closed, live, setup};
ghost use Rattle.session_core.specs.Queued.{IsUntouched};
ghost use Rattle.session_core.specs.Seen.{IsNoDrawEvent};
ghost use Rattle.tape.specs.declared.answer.Answer.TheVariants as answers;
ghost use Rattle.tape.specs.declared.event.Event.TheVariants as events;
ghost use Rattle.conn_shared.specs.Members.{Follows};
ghost use Rattle.conn_shared.specs.Calls.{IsCalled, IsDrawCall};

use crate::looked::Looked;
use crate::member::Member;
use crate::shared::SharedSession;
use rs_wire::{Blob, Call};
use std::sync::Wait;
use tape::{Answer, Event, Tape};

impl<T: Tape> SharedSession<T> {
    /// Brings an event, which is no draw. It waits for a turn. An opening has a first frame exactly on
    /// a server, and frames can be spelled.
    #[inline(always)]
    pub fn step<R: Wait>(&self, rt: &R, member: Member<T>, event: &Event) -> (Member<T>, Answer)
        requires of { member.of ≡ self.now }
        requires fair { CanBring self.now.settings event.now }
        requires no_draw { IsNoDrawEvent event.now }
        ensures same { result.0 ≡ record member { front = result.0.front; note = None } }
        ensures called { IsCalled self.now.settings member event.now result.1 result.0.front }
    {
        let turn = self.enter(rt, member.into_seat());
        let (seat, answer) = self.step_in(turn, event);
        (Member { seat }, answer)
    }

    /// Brings an event as [`step`](SharedSession::step) does, and takes it, so that what a frame
    /// carries need not be copied. It serves whoever has the event for one call; `step` serves whoever
    /// brings it again.
    #[inline(always)]
    pub fn bring<R: Wait>(&self, rt: &R, member: Member<T>, event: Event) -> (Member<T>, Answer)
        requires of { member.of ≡ self.now }
        requires fair { CanBring self.now.settings event }
        requires no_draw { IsNoDrawEvent event }
        ensures same { result.0 ≡ record member { front = result.0.front; note = None } }
        ensures called { IsCalled self.now.settings member event result.1 result.0.front }
    {
        let turn = self.enter(rt, member.into_seat());
        let (seat, answer) = self.bring_in(turn, event);
        (Member { seat }, answer)
    }

    // Asks in one turn, where nothing of the call has to be copied. `None` where something has to: the
    // member has seen a session whose tape is not full.
    #[inline(always)]
    fn ask_at_once<R: Wait>(
        &self,
        rt: &R,
        member: Member<T>,
        call: &Call,
    ) -> (Member<T>, Option<Answer>)
        requires of { member.of ≡ self.now }
        requires askable { CanBeAsked call.now }
        ensures same { result.0 ≡ record member { front = result.0.front; note = None } }
        ensures called { IfSome result.1 (λ a. IsCalled self.now.settings member
            (events.Asked call.now) a result.0.front) }
        ensures follows { result.1 ≡ None →
            Follows member.names member.front result.0.front }
        ensures not_full { result.1 ≡ None → length result.0.front < 2 ^ 63 }
    {
        let turn = self.enter(rt, member.into_seat());
        let (seat, answer) = self.ask_in(turn, call);
        (Member { seat }, answer)
    }

    // Brings a copy of a call, which is made before the turn and dropped after it.
    #[cold]
    fn ask_by_copy<R: Wait>(&self, rt: &R, member: Member<T>, call: &Call) -> (Member<T>, Answer)
        requires of { member.of ≡ self.now }
        requires askable { CanBeAsked call.now }
        requires not_full { length member.front < 2 ^ 63 }
        requires note { member.note ≡ None }
        ensures same { result.0 ≡ record member { front = result.0.front; note = None } }
        ensures called { IsCalled self.now.settings member
            (events.Asked call.now) result.1 result.0.front }
    {
        let Ok(copy) = call.copy(self.alloc) else {
            return (member, Answer::OutOfMemory);
        };
        let event = Event::Asked(copy);
        let stepped = self.step(rt, member, &event);
        drop(event);
        stepped
    }

    /// Asks something of the session. It waits for a turn, and for a second one where the call has to
    /// be copied: the first turn finds that out, and the copy is made between the two.
    #[inline(always)]
    pub fn ask<R: Wait>(&self, rt: &R, member: Member<T>, call: &Call) -> (Member<T>, Answer)
        requires of { member.of ≡ self.now }
        requires askable { CanBeAsked call.now }
        ensures same { result.0 ≡ record member { front = result.0.front; note = None } }
        ensures called { IsCalled self.now.settings member
            (events.Asked call.now) result.1 result.0.front }
    {
        match self.ask_at_once(rt, member, call) {
            (member, Some(answer)) => (member, answer),
            (member, None) => self.ask_by_copy(rt, member, call),
        }
    }

    /// Brings a tick with this moment, if nothing is due at it. It waits for a turn. Answers whether
    /// it did: if not, the member has only seen what others did, and the tick has yet to be brought.
    #[inline(always)]
    pub fn tick_if_quiet<R: Wait>(&self, rt: &R, member: Member<T>, now: u64) -> (Member<T>, bool)
        requires of { member.of ≡ self.now }
        ensures same { result.0 ≡ record member { front = result.0.front; note = None } }
        ensures called { result.1 ≡ true → IsCalled self.now.settings member
            (events.Tick now) answers.Quiet result.0.front }
        ensures follows { result.1 ≡ false →
            Follows member.names member.front result.0.front }
    {
        let turn = self.enter(rt, member.into_seat());
        let (seat, is_quiet) = self.tick_in(turn, now);
        (Member { seat }, is_quiet)
    }

    /// Draws bytes that are due on a connection into the buffer, which has 1 to 4,294,967,295 bytes.
    /// It waits for a turn.
    #[inline(always)]
    pub fn draw<R: Wait>(
        &self,
        rt: &R,
        member: Member<T>,
        conn: u64,
        buffer: &mut [u8],
    ) -> (Member<T>, Answer)
        requires of { member.of ≡ self.now }
        requires some { 0 < length buffer.old }
        requires few { length buffer.old < 2 ^ 32 }
        ensures same { result.0 ≡ record member { front = result.0.front; note = None } }
        ensures drawn { IsDrawCall self.now.settings member conn (length buffer.old)
            result.1 buffer.new result.0.front }
        ensures untouched { IsUntouched result.1 buffer.old buffer.new }
    {
        let turn = self.enter(rt, member.into_seat());
        let (seat, answer) = self.draw_in(turn, conn, buffer);
        (Member { seat }, answer)
    }

    /// What the session is like. It waits for a turn and leaves no entry.
    pub fn look<R: Wait>(&self, rt: &R, member: Member<T>) -> (Member<T>, Looked)
        requires of { member.of ≡ self.now }
        ensures same { result.0 ≡ record member { front = result.0.front; note = None } }
        ensures follows { Follows member.names member.front result.0.front }
        ensures live { result.1.live ≡ live result.0.front }
        ensures queued { result.1.queued ≡ queued self.now.settings result.0.front }
        ensures carrying { result.1.carrying ≡ carrying self.now.settings result.0.front }
        ensures cause { result.1.cause ≡ closed self.now.settings result.0.front }
    {
        let turn = self.enter(rt, member.into_seat());
        let (seat, looked) = self.look_in(turn);
        (Member { seat }, looked)
    }

    /// Whether a SETUP with this token was accepted here (RSocket 1.0, "SETUP Frame"), so that a
    /// RESUME with it is for this session. No SETUP comes to a client, so a client holds no token.
    /// It waits for a turn and leaves no entry.
    pub fn holds<R: Wait>(&self, rt: &R, member: Member<T>, token: &Blob) -> (Member<T>, bool)
        requires of { member.of ≡ self.now }
        ensures same { result.0 ≡ record member { front = result.0.front; note = None } }
        ensures follows { Follows member.names member.front result.0.front }
        ensures holds { IsTrue result.1 ↔
            (asked_token (setup result.0.front) ≡ Some token.now) }
    {
        let turn = self.enter(rt, member.into_seat());
        let (seat, holds) = self.hold_in(turn, token);
        (Member { seat }, holds)
    }
}
