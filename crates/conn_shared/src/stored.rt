//! The session under the lock.

ghost use Rattle.std.specs.Prelude.{◌≡◌, ◌↔◌, ◌<◌, ◌^◌, IfErr, IfOk, IfSome, IsTrue, None, Some, false, length, true};
ghost use Rattle.rs_wire.specs.Calls.{CanBeAsked};
ghost use Rattle.session_model.specs.Frames.{queued};
ghost use Rattle.session_model.specs.Life.{asked_token, carrying, closed, live, setup};
ghost use Rattle.session_model.specs.Legal.{CanBring, Fair, Legal};
ghost use Rattle.session_core.specs.Queued.{IsUntouched};
ghost use Rattle.session_core.specs.Seen.{IsNoDrawEvent};
ghost use Rattle.conn_shared.specs.Members.{Gains};
ghost use Rattle.conn_shared.specs.Calls.{AreNext, IsStep};
ghost use Rattle.tape.specs.declared.answer.Answer.TheVariants as answers;
ghost use Rattle.tape.specs.declared.event.Event.TheVariants as events;

use crate::line::Line;
use crate::looked::Looked;
use conn_lock::Stands;
use rs_wire::{Blob, Call};
use session_core::Session;
use std::alloc::Global;
use std::marker::Model;
use tape::{Answer, Event, Tape};

/// A session under the lock. It is on the heap, so that a turn moves one pointer.
#[derive(Drop)]
pub(crate) struct Stored<T: Tape> {
    session: Box<Session<T>>,
}

impl<T: Tape> Model for Stored<T> {
    ghost use Rattle.session_core.specs.Seen.{Seen};

    ghost Value = { Seen };

    ghost view = { λ s. s.session.value };
}

impl<T: Tape> Stands for Stored<T> {
    ghost use Rattle.conn_shared.specs.Lines.{lines_of, number_of};

    type Entry = Line;

    ghost list = { lines_of };

    ghost number = { number_of };
}

impl<T: Tape> Stored<T> {
    /// The session on the heap. It comes back where there was no memory.
    pub(crate) fn new(alloc: Global, session: Session<T>) -> Result<Stored<T>, Session<T>>
        ensures ok { IfOk result (λ s. s ≡ session) }
        ensures err { IfErr result (λ s. s ≡ session) }
    {
        match Box::new(alloc, session) {
            Ok(session) => Ok(Stored { session }),
            Err(failed) => Err(failed.value),
        }
    }

    /// The session again.
    pub(crate) fn into_session(self) -> Session<T>
        ensures { result ≡ self }
    {
        let Stored { session } = self;
        Box::into_inner(session)
    }

    /// One step of the session.
    #[inline(always)]
    pub(crate) fn step(&mut self, who: u32, event: &Event) -> Answer
        requires fair { CanBring self.old.settings event.now }
        requires no_draw { IsNoDrawEvent event.now }
        ensures step { IsStep self.old.settings who self.old.entries event.now result self.new.entries }
        ensures own { Gains who self.old.entries self.new.entries }
        ensures settings { self.new.settings ≡ self.old.settings }
        ensures tells { self.new.tells ≡ self.old.tells }
        ensures legal { Legal self.new.settings self.new.entries }
        ensures fair { Fair self.new.settings self.new.entries }
    {
        let answer = self.session.step(who, event);
        self.session.legal();
        answer
    }

    /// One step of the session, which takes the event.
    #[inline(always)]
    pub(crate) fn bring(&mut self, who: u32, event: Event) -> Answer
        requires fair { CanBring self.old.settings event }
        requires no_draw { IsNoDrawEvent event }
        ensures step { IsStep self.old.settings who self.old.entries event result self.new.entries }
        ensures own { Gains who self.old.entries self.new.entries }
        ensures settings { self.new.settings ≡ self.old.settings }
        ensures tells { self.new.tells ≡ self.old.tells }
        ensures legal { Legal self.new.settings self.new.entries }
        ensures fair { Fair self.new.settings self.new.entries }
    {
        let answer = self.session.bring(who, event);
        self.session.legal();
        answer
    }

    /// One call of the session, where nothing of it has to be copied.
    #[inline(always)]
    pub(crate) fn ask(&mut self, who: u32, call: &Call) -> Option<Answer>
        requires askable { CanBeAsked call.now }
        ensures step { IfSome result (λ a. IsStep self.old.settings who self.old.entries
            (events.Asked call.now) a self.new.entries) }
        ensures not_full { result ≡ None → length self.old.entries < 2 ^ 63 }
        ensures none { result ≡ None → self.new.entries ≡ self.old.entries }
        ensures own { Gains who self.old.entries self.new.entries }
        ensures settings { self.new.settings ≡ self.old.settings }
        ensures tells { self.new.tells ≡ self.old.tells }
        ensures legal { Legal self.new.settings self.new.entries }
        ensures fair { Fair self.new.settings self.new.entries }
    {
        let answer = self.session.ask(who, call);
        self.session.legal();
        answer
    }

    /// One tick of the session, if nothing is due at it. Answers whether it was noted: if not, the
    /// session has no new entry.
    #[inline(always)]
    pub(crate) fn tick_if_quiet(&mut self, who: u32, now: u64) -> bool
        ensures step { result ≡ true → IsStep self.old.settings who self.old.entries
            (events.Tick now) answers.Quiet self.new.entries }
        ensures none { result ≡ false → self.new.entries ≡ self.old.entries }
        ensures own { Gains who self.old.entries self.new.entries }
        ensures settings { self.new.settings ≡ self.old.settings }
        ensures tells { self.new.tells ≡ self.old.tells }
        ensures legal { Legal self.new.settings self.new.entries }
        ensures fair { Fair self.new.settings self.new.entries }
    {
        let is_quiet = self.session.tick_if_quiet(who, now);
        self.session.legal();
        is_quiet
    }

    /// One draw of the session.
    #[inline(always)]
    pub(crate) fn draw(&mut self, who: u32, conn: u64, buffer: &mut [u8]) -> Answer
        requires some { 0 < length buffer.old }
        requires few { length buffer.old < 2 ^ 32 }
        ensures step { IsStep self.old.settings who self.old.entries
            (events.Draw conn (length buffer.old)) result self.new.entries }
        ensures bytes { AreNext self.old.settings self.old.entries conn result buffer.new }
        ensures untouched { IsUntouched result buffer.old buffer.new }
        ensures own { Gains who self.old.entries self.new.entries }
        ensures settings { self.new.settings ≡ self.old.settings }
        ensures tells { self.new.tells ≡ self.old.tells }
        ensures legal { Legal self.new.settings self.new.entries }
        ensures fair { Fair self.new.settings self.new.entries }
    {
        let answer = self.session.draw(who, conn, buffer);
        self.session.legal();
        answer
    }

    /// What the session is like now.
    pub(crate) fn look(&self) -> Looked
        ensures live { result.live ≡ live self.now.entries }
        ensures queued { result.queued ≡ queued self.now.settings self.now.entries }
        ensures carrying { result.carrying ≡ carrying self.now.settings self.now.entries }
        ensures cause { result.cause ≡ closed self.now.settings self.now.entries }
        ensures legal { Legal self.now.settings self.now.entries }
        ensures fair { Fair self.now.settings self.now.entries }
    {
        self.session.legal();
        Looked {
            live: self.session.live(),
            queued: self.session.queued(),
            carrying: self.session.carrying(),
            cause: self.session.cause().copied(),
        }
    }

    /// Whether a SETUP with this token was accepted here.
    pub(crate) fn holds(&self, token: &Blob) -> bool
        ensures holds { IsTrue result ↔ (asked_token (setup self.now.entries) ≡ Some token.now) }
        ensures legal { Legal self.now.settings self.now.entries }
        ensures fair { Fair self.now.settings self.now.entries }
    {
        self.session.legal();
        match self.session.setup() {
            Some(setup) => setup.resume.as_ref() == Some(token),
            None => false,
        }
    }
}
