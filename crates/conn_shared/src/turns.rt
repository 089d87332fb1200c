//! Turns at the lock, with the session that is found there.

ghost use Rattle.std.specs.Prelude.{◌≡◌, ◌<◌, ◌^◌, ◌⊎◌, ◌+◌, ◌-◌, ◌↔◌, IfErr, IfOk, IfSome, IsTrue, None, Some, false, length, true};
ghost use Rattle.rs_wire.specs.Calls.{CanBeAsked};
ghost use Rattle.session_model.specs.Frames.{queued};
ghost use Rattle.session_model.specs.Life.{asked_token, carrying, closed, live, setup};
ghost use Rattle.session_model.specs.Legal.{CanBring, Fair, Legal};
ghost use Rattle.session_core.specs.Queued.{IsUntouched};
ghost use Rattle.session_core.specs.Seen.{IsNoDrawEvent};
ghost use Rattle.tape.specs.declared.answer.Answer.TheVariants as answers;
ghost use Rattle.tape.specs.declared.event.Event.TheVariants as events;
ghost use Rattle.conn_shared.specs.Members.{Follows, Gains, IsMember};
ghost use Rattle.conn_shared.specs.Calls.{AreNext, IsStep};
ghost use Rattle.conn_shared.specs.Lines.{entries_in, lines_with, settings_in, tells_in};

use crate::looked::Looked;
use crate::shared::SharedSession;
use crate::stored::Stored;
use conn_lock::{Seat, Turn};
use rs_wire::{Blob, Call};
use std::sync::Wait;
use tape::{Answer, Event, Tape};

impl<T: Tape> SharedSession<T> {
    /// Waits for a turn, in which the session has gone on from what the seat has seen.
    #[inline(always)]
    pub(crate) fn enter<R: Wait>(&self, rt: &R, seat: Seat<Stored<T>>) -> Turn<Stored<T>>
        requires of { seat.lock ≡ self.now.lock }
        requires settings { settings_in seat.front ≡ self.now.settings }
        requires tells { tells_in seat.front ≡ self.now.tells }
        requires member { IsMember seat }
        ensures same { result.seat ≡ record seat {
          front = lines_with self.now.settings self.now.tells result.value.entries;
          note = None;
        } }
        ensures front { entries_in result.seat.front ≡ result.value.entries }
        ensures settings { result.value.settings ≡ self.now.settings }
        ensures tells { result.value.tells ≡ self.now.tells }
        ensures follows { Follows seat.names (entries_in seat.front) result.value.entries }
    {
        self.lock.enter(rt, seat)
    }

    /// The same without waiting: a turn, where nobody has one or waits for one.
    pub(crate) fn try_enter(
        &self,
        seat: Seat<Stored<T>>,
    ) -> Result<Turn<Stored<T>>, Seat<Stored<T>>>
        requires of { seat.lock ≡ self.now.lock }
        requires settings { settings_in seat.front ≡ self.now.settings }
        requires tells { tells_in seat.front ≡ self.now.tells }
        requires member { IsMember seat }
        ensures same { IfOk result (λ t. t.seat ≡ record seat {
          front = lines_with self.now.settings self.now.tells t.value.entries;
          note = None;
        }) }
        ensures front { IfOk result (λ t. entries_in t.seat.front ≡ t.value.entries) }
        ensures settings { IfOk result (λ t. t.value.settings ≡ self.now.settings) }
        ensures tells { IfOk result (λ t. t.value.tells ≡ self.now.tells) }
        ensures follows { IfOk result (λ t.
            Follows seat.names (entries_in seat.front) t.value.entries) }
        ensures refused { IfErr result (λ s.
            (s ≡ record seat { misses = seat.misses + 1; note = None })
            ⊎ (s ≡ record seat { note = Some (2 ^ 64 - 1) })) }
    {
        self.lock.try_enter(seat)
    }

    // Gives a turn back, in which the session has gained entries of the turn's number alone.
    #[inline(always)]
    fn leave(&self, turn: Turn<Stored<T>>) -> Seat<Stored<T>>
        requires of { turn.seat.lock ≡ self.now.lock }
        requires settings { turn.value.settings ≡ self.now.settings }
        requires tells { turn.value.tells ≡ self.now.tells }
        requires was { turn.seat.front ≡
            lines_with self.now.settings self.now.tells (entries_in turn.seat.front) }
        requires own { Gains turn.seat.number (entries_in turn.seat.front) turn.value.entries }
        requires legal { Legal self.now.settings turn.value.entries }
        requires fair { Fair self.now.settings turn.value.entries }
        ensures same { result ≡ record turn.seat {
          front = lines_with self.now.settings self.now.tells turn.value.entries;
        } }
        ensures front { entries_in result.front ≡ turn.value.entries }
        ensures member { IsMember result }
    {
        self.lock.leave(turn)
    }

    /// One step in a turn, which is then over.
    #[inline(always)]
    pub(crate) fn step_in(&self, turn: Turn<Stored<T>>, event: &Event) -> (Seat<Stored<T>>, Answer)
        requires of { turn.seat.lock ≡ self.now.lock }
        requires settings { turn.value.settings ≡ self.now.settings }
        requires tells { turn.value.tells ≡ self.now.tells }
        requires was { turn.seat.front ≡
            lines_with self.now.settings self.now.tells (entries_in turn.seat.front) }
        requires front { entries_in turn.seat.front ≡ turn.value.entries }
        requires fair { CanBring self.now.settings event.now }
        requires no_draw { IsNoDrawEvent event.now }
        ensures same { result.0 ≡ record turn.seat { front = result.0.front } }
        ensures settings { settings_in result.0.front ≡ self.now.settings }
        ensures tells { tells_in result.0.front ≡ self.now.tells }
        ensures member { IsMember result.0 }
        ensures step { IsStep self.now.settings turn.seat.number turn.value.entries
            event.now result.1 (entries_in result.0.front) }
    {
        let mut turn = turn;
        let who = turn.number();
        let answer = turn.value().step(who, event);
        let seat = self.leave(turn);
        (seat, answer)
    }

    /// One step in a turn, which is then over, and takes the event.
    #[inline(always)]
    pub(crate) fn bring_in(&self, turn: Turn<Stored<T>>, event: Event) -> (Seat<Stored<T>>, Answer)
        requires of { turn.seat.lock ≡ self.now.lock }
        requires settings { turn.value.settings ≡ self.now.settings }
        requires tells { turn.value.tells ≡ self.now.tells }
        requires was { turn.seat.front ≡
            lines_with self.now.settings self.now.tells (entries_in turn.seat.front) }
        requires front { entries_in turn.seat.front ≡ turn.value.entries }
        requires fair { CanBring self.now.settings event }
        requires no_draw { IsNoDrawEvent event }
        ensures same { result.0 ≡ record turn.seat { front = result.0.front } }
        ensures settings { settings_in result.0.front ≡ self.now.settings }
        ensures tells { tells_in result.0.front ≡ self.now.tells }
        ensures member { IsMember result.0 }
        ensures step { IsStep self.now.settings turn.seat.number turn.value.entries
            event result.1 (entries_in result.0.front) }
    {
        let mut turn = turn;
        let who = turn.number();
        let answer = turn.value().bring(who, event);
        let seat = self.leave(turn);
        (seat, answer)
    }

    /// One call in a turn, which is then over, where nothing of the call has to be copied.
    #[inline(always)]
    pub(crate) fn ask_in(
        &self,
        turn: Turn<Stored<T>>,
        call: &Call,
    ) -> (Seat<Stored<T>>, Option<Answer>)
        requires of { turn.seat.lock ≡ self.now.lock }
        requires settings { turn.value.settings ≡ self.now.settings }
        requires tells { turn.value.tells ≡ self.now.tells }
        requires was { turn.seat.front ≡
            lines_with self.now.settings self.now.tells (entries_in turn.seat.front) }
        requires front { entries_in turn.seat.front ≡ turn.value.entries }
        requires askable { CanBeAsked call.now }
        ensures same { result.0 ≡ record turn.seat { front = result.0.front } }
        ensures settings { settings_in result.0.front ≡ self.now.settings }
        ensures tells { tells_in result.0.front ≡ self.now.tells }
        ensures member { IsMember result.0 }
        ensures step { IfSome result.1 (λ a. IsStep self.now.settings turn.seat.number
            turn.value.entries (events.Asked call.now) a (entries_in result.0.front)) }
        ensures not_full { result.1 ≡ None → length turn.value.entries < 2 ^ 63 }
        ensures none { result.1 ≡ None → entries_in result.0.front ≡ turn.value.entries }
    {
        let mut turn = turn;
        let who = turn.number();
        let answer = turn.value().ask(who, call);
        let seat = self.leave(turn);
        (seat, answer)
    }

    /// One tick in a turn, which is then over, if nothing is due at it.
    #[inline(always)]
    pub(crate) fn tick_in(&self, turn: Turn<Stored<T>>, now: u64) -> (Seat<Stored<T>>, bool)
        requires of { turn.seat.lock ≡ self.now.lock }
        requires settings { turn.value.settings ≡ self.now.settings }
        requires tells { turn.value.tells ≡ self.now.tells }
        requires was { turn.seat.front ≡
            lines_with self.now.settings self.now.tells (entries_in turn.seat.front) }
        requires front { entries_in turn.seat.front ≡ turn.value.entries }
        ensures same { result.0 ≡ record turn.seat { front = result.0.front } }
        ensures settings { settings_in result.0.front ≡ self.now.settings }
        ensures tells { tells_in result.0.front ≡ self.now.tells }
        ensures member { IsMember result.0 }
        ensures step { result.1 ≡ true → IsStep self.now.settings turn.seat.number
            turn.value.entries (events.Tick now) answers.Quiet (entries_in result.0.front) }
        ensures none { result.1 ≡ false → entries_in result.0.front ≡ turn.value.entries }
    {
        let mut turn = turn;
        let who = turn.number();
        let is_quiet = turn.value().tick_if_quiet(who, now);
        let seat = self.leave(turn);
        (seat, is_quiet)
    }

    /// One draw in a turn, which is then over.
    #[inline(always)]
    pub(crate) fn draw_in(
        &self,
        turn: Turn<Stored<T>>,
        conn: u64,
        buffer: &mut [u8],
    ) -> (Seat<Stored<T>>, Answer)
        requires of { turn.seat.lock ≡ self.now.lock }
        requires settings { turn.value.settings ≡ self.now.settings }
        requires tells { turn.value.tells ≡ self.now.tells }
        requires was { turn.seat.front ≡
            lines_with self.now.settings self.now.tells (entries_in turn.seat.front) }
        requires front { entries_in turn.seat.front ≡ turn.value.entries }
        requires some { 0 < length buffer.old }
        requires few { length buffer.old < 2 ^ 32 }
        ensures same { result.0 ≡ record turn.seat { front = result.0.front } }
        ensures settings { settings_in result.0.front ≡ self.now.settings }
        ensures tells { tells_in result.0.front ≡ self.now.tells }
        ensures member { IsMember result.0 }
        ensures step { IsStep self.now.settings turn.seat.number turn.value.entries
            (events.Draw conn (length buffer.old)) result.1 (entries_in result.0.front) }
        ensures bytes { AreNext self.now.settings turn.value.entries conn result.1 buffer.new }
        ensures untouched { IsUntouched result.1 buffer.old buffer.new }
    {
        let mut turn = turn;
        let who = turn.number();
        let answer = turn.value().draw(who, conn, buffer);
        let seat = self.leave(turn);
        (seat, answer)
    }

    /// A turn in which the session is looked at.
    pub(crate) fn look_in(&self, turn: Turn<Stored<T>>) -> (Seat<Stored<T>>, Looked)
        requires of { turn.seat.lock ≡ self.now.lock }
        requires settings { turn.value.settings ≡ self.now.settings }
        requires tells { turn.value.tells ≡ self.now.tells }
        requires was { turn.seat.front ≡
            lines_with self.now.settings self.now.tells (entries_in turn.seat.front) }
        requires front { entries_in turn.seat.front ≡ turn.value.entries }
        ensures same { result.0 ≡ record turn.seat { front = result.0.front } }
        ensures settings { settings_in result.0.front ≡ self.now.settings }
        ensures tells { tells_in result.0.front ≡ self.now.tells }
        ensures member { IsMember result.0 }
        ensures front { entries_in result.0.front ≡ turn.value.entries }
        ensures live { result.1.live ≡ live turn.value.entries }
        ensures queued { result.1.queued ≡ queued self.now.settings turn.value.entries }
        ensures carrying { result.1.carrying ≡ carrying self.now.settings turn.value.entries }
        ensures cause { result.1.cause ≡ closed self.now.settings turn.value.entries }
    {
        let mut turn = turn;
        let looked = turn.value().look();
        (self.leave(turn), looked)
    }

    /// A turn in which the session is asked whether it accepted a SETUP with this token.
    pub(crate) fn hold_in(&self, turn: Turn<Stored<T>>, token: &Blob) -> (Seat<Stored<T>>, bool)
        requires of { turn.seat.lock ≡ self.now.lock }
        requires settings { turn.value.settings ≡ self.now.settings }
        requires tells { turn.value.tells ≡ self.now.tells }
        requires was { turn.seat.front ≡
            lines_with self.now.settings self.now.tells (entries_in turn.seat.front) }
        requires front { entries_in turn.seat.front ≡ turn.value.entries }
        ensures same { result.0 ≡ record turn.seat { front = result.0.front } }
        ensures settings { settings_in result.0.front ≡ self.now.settings }
        ensures tells { tells_in result.0.front ≡ self.now.tells }
        ensures member { IsMember result.0 }
        ensures front { entries_in result.0.front ≡ turn.value.entries }
        ensures holds { IsTrue result.1 ↔
            (asked_token (setup turn.value.entries) ≡ Some token.now) }
    {
        let mut turn = turn;
        let holds = turn.value().holds(token);
        (self.leave(turn), holds)
    }
}
