//! One end of a session.

ghost use Rattle.std.specs.Prelude.{◌≡◌, ◌≢◌, ◌+◌, ◌<◌, ◌≤◌, ◌^◌, ◌↔◌, [], ◌∷◌, IfErr, IfOk, IfSome, None, OnOk, drop, is_some, length, max, take, ℕ};
ghost use Rattle.std.specs.Option.{option_copied};
ghost use Rattle.rs_wire.specs.Settings.{IsChecked};
ghost use Rattle.rs_frame.specs.Framed.{framed_all};
ghost use Rattle.tape.specs.Told.{entry_of};
ghost use Rattle.session_model.specs.Life.{carrying, closed, live, setup};
ghost use Rattle.session_model.specs.Frames.{drawn, due, queued};
ghost use Rattle.session_model.specs.Moments.{moment, times};
ghost use Rattle.keepalive.specs.Times.{due_at};
ghost use Rattle.session_model.specs.Answers.{answer_to};
ghost use Rattle.session_model.specs.Legal.{Fair, Legal};
ghost use Rattle.session_core.specs.Due.{heeds_ticks};
ghost use Rattle.session_core.specs.Queued.{IfDrawn, IsBrief, IsOfDraw, IsUntouched};
ghost use Rattle.session_core.specs.Seen.{IsOrOutOfMemory, counts_of, entries_after, told_by};

use crate::counts::Counts;
use crate::history::History;
use crate::judge::judge_draw;
use crate::state::State;
use crate::ticking::next_due;
use keepalive::Due;
use rs_frame::Setup;
use rs_wire::{Cause, Checked, OutOfMemory};
use std::alloc::Global;
use std::marker::Model;
use tape::{Answer, Entry, Event, Tape};

/// How many entries a tape has at most.
pub(crate) const FULL: u64 = 1 << 63;

/// One end of a session, with the tape of its entries. Contracts see its settings, its entries, the
/// newest first, whether the tape shows them, and how many more it takes without memory.
///
/// # How to drive a session
///
/// A program has three kinds of calls.
///
/// - *Something happened*: [`Session::bring`], or [`Session::step`], with `Open`, `Came`, `Bad`,
///   `Cut` or `Tick`.
/// - *A caller wants something*: [`Session::ask`], which gives a call back that has to be copied;
///   `step` or `bring` answers the copy.
/// - *What goes out*: [`Session::draw`], until it answers `NotYet`. Do so after every call of the
///   other two kinds, since any of them may queue bytes.
///
/// A `Tick` says what time it is. Bring one before each `Open`, so that the connection's times
/// begin at it, and one when the moment of [`Session::next_due`] has come; ask for that again after
/// each event, since any of them may move it. Moments never fall.
///
/// After `Parted`, `Dead`, `PeerError` and `Violation` look at [`Session::cause`]: without one the
/// session waits for the next `Open`. What answers `NotYet`, `OutBusy`, `TapeFull` or `OutOfMemory`
/// has changed nothing, and may be brought again (an event that `bring` took has to be made anew).
/// [`Session::queued`], [`Session::live`] and what else only looks may be called at any time.
///
/// # The life of a session
///
/// ```text
///                     Open: Opened(n)
///    +-----------+                      +-----------------------+
///    | not begun | -------------------> | begun: n is live      |
///    +-----------+                      +-----------------------+
///          |                               |  Came or Bad on n: Violation(rule),
///          |  Open by a wrong first        |  PeerError(code)
///          |  frame: SetupRefused(fault)   |  Cut of n: Parted, or a Tick: Dead(last),
///          |  Close: Done                  |  without resumption; Close: Done
///          v                               v
///    +----------------------------------------------------------+
///    | closed, for the first cause, and never open again        |
///    +----------------------------------------------------------+
/// ```
///
/// Where resumption is agreed, a cut and a dead peer leave a begun session without a live
/// connection, and calls go on. A client opens again by RESUME, and what it makes waits for
/// RESUME_OK; a server is opened again by RESUME, which takes the place of a connection that is
/// still live.
///
/// A connection stays live in a closed session until it is cut, so what is queued can still be
/// drawn, and what waits on a stream can still be taken. Every other call is then refused as
/// `Closed`, and every frame and opening is answered `Closed`.
#[derive(Drop)]
pub struct Session<T: Tape> {
    pub(crate) alloc: Global,
    pub(crate) settings: Checked,
    pub(crate) state: State,
    pub(crate) history: History,
    pub(crate) tape: T,
}

impl<T: Tape> Model for Session<T> {
    ghost use Rattle.std.specs.Prelude.{is_some};
    ghost use Rattle.session_core.specs.Seen.{Seen};
    ghost use Rattle.session_core.specs.Sound.{IsSound};

    ghost Value = { Seen };

    ghost view = { λ s. record {
      settings = s.settings;
      entries = s.history;
      tells = is_some (T.told s.tape);
      spare = T.spare s.tape;
    } };

    ghost invariant = { λ s.
        IsSound s.settings s.state s.history (T.told s.tape) (T.count s.tape) };
}

// The answer to a draw or a cut that leaves an entry, again.
pub(crate) fn answered_again(answer: &Answer) -> Answer
    requires { IsBrief answer.now }
    ensures { result ≡ answer.now }
{
    match answer {
        Answer::Drawn(count) => Answer::Drawn(*count),
        Answer::Parted => Answer::Parted,
        Answer::Stale(live) => Answer::Stale(*live),
        _ => unreachable!(),
    }
}

impl<T: Tape> Session<T> {
    /// A session that is not begun, of which nothing happened yet. The tape is empty. Where memory
    /// runs out, the tape comes back.
    pub fn new(alloc: Global, settings: Checked, tape: T) -> Result<Session<T>, (T, OutOfMemory)>
        requires empty { T.count tape ≡ 0 }
        requires checked { IsChecked settings }
        ensures ok { IfOk result (λ s. s ≡ record {
          settings = settings;
          entries = [];
          tells = is_some (T.told tape);
          spare = T.spare tape;
        }) }
        ensures back { IfErr result (λ e. e.0 ≡ tape) }
    {
        match State::new(alloc, &settings) {
            Ok(state) => Ok(Session {
                alloc,
                settings,
                state,
                history: History::new(),
                tape,
            }),
            Err(error) => Err((tape, error)),
        }
    }

    /// Makes spare for one more entry. After it a [`Session::draw`] and a cut take no memory.
    pub fn reserve(&mut self) -> Result<(), OutOfMemory>
        ensures same { self.new ≡ record self.old { spare = self.new.spare } }
        ensures spare { OnOk result (0 < self.new.spare) }
        ensures kept { self.old.spare ≤ self.new.spare }
    {
        self.tape.reserve(1)
    }

    /// Moves the next bytes that are due on a connection into the buffer, as many as it has room
    /// for, and notes it on the tape for the caller `who`. The buffer has 1 to 4,294,967,295 bytes;
    /// after the bytes that were drawn it is as it was.
    ///
    /// `Stale` comes exactly where the connection is not the live one, else `NotYet` exactly where
    /// nothing waits. `TapeFull` comes exactly where there are 2^63 entries. `OutOfMemory` may come
    /// in place of `Stale` and `Drawn`, where there is no spare. It, `TapeFull` and `NotYet` leave
    /// all as it was.
    pub fn draw(&mut self, who: u32, conn: u64, buffer: &mut [u8]) -> Answer
        requires some { 0 < length buffer.old }
        requires few { length buffer.old < 2 ^ 32 }
        ensures answer { IsOrOutOfMemory result
            (answer_to self.old.settings self.old.entries (Event.Draw conn (length buffer.old))) }
        ensures full { (result ≡ Answer.TapeFull) ↔ (2 ^ 63 ≤ length self.old.entries) }
        ensures memory { 0 < self.old.spare → result ≢ Answer.OutOfMemory }
        ensures bytes { IfDrawn result (λ n. take n buffer.new ≡ take n
            (drop (drawn self.old.entries conn)
            (framed_all (due self.old.settings self.old.entries conn)))) }
        ensures untouched { IsUntouched result buffer.old buffer.new }
        ensures after { self.new ≡ record self.old {
          entries = entries_after who (Event.Draw conn (length buffer.old)) result self.old.entries;
          spare = self.new.spare;
        } }
        ensures spare { self.old.spare ≤ self.new.spare + 1 }
    {
        if self.tape.count() >= FULL {
            return Answer::TapeFull;
        }
        let answer = judge_draw(&self.state, conn, buffer.len() as u32);
        if !answer.leaves_entry() {
            return answer;
        }
        if self.tape.reserve(1).is_err() {
            return Answer::OutOfMemory;
        }
        self.hand_out(who, conn, answer, buffer)
    }

    // Applies a draw and its answer, and moves the bytes into the buffer.
    fn hand_out(&mut self, who: u32, conn: u64, answer: Answer, buffer: &mut [u8]) -> Answer
        requires some { 0 < length buffer.old }
        requires few { length buffer.old < 2 ^ 32 }
        requires not_full { length self.old.entries < 2 ^ 63 }
        requires spare { 0 < self.old.spare }
        requires of_draw { IsOfDraw answer }
        requires is { answer ≡
            answer_to self.old.settings self.old.entries (Event.Draw conn (length buffer.old)) }
        ensures answer { result ≡ answer }
        ensures bytes { IfDrawn result (λ n. take n buffer.new ≡ take n
            (drop (drawn self.old.entries conn)
            (framed_all (due self.old.settings self.old.entries conn)))) }
        ensures untouched { IsUntouched result buffer.old buffer.new }
        ensures after { self.new ≡ record self.old {
          entries = entry_of who (Event.Draw conn (length buffer.old)) answer ∷ self.old.entries;
          spare = self.new.spare;
        } }
        ensures used { self.old.spare ≤ self.new.spare + 1 }
    {
        let room = buffer.len() as u32;
        self.state.give(&answer, buffer);
        let again = answered_again(&answer);
        let event = Event::Draw { conn, room };
        self.history.note(who, &event, &answer);
        self.tape.push(Entry { who, event, answer });
        again
    }

    /// Each answer among the entries is the definitions' answer to the entries before it, and each
    /// event is as the caller has to bring it. It does nothing.
    pub fn legal(&self)
        ensures legal { Legal self.now.settings self.now.entries }
        ensures fair { Fair self.now.settings self.now.entries }
    {
        // The state that is read tells both.
        let _ = &self.state;
    }

    /// The number of the live connection, 0 for none.
    pub fn live(&self) -> u64
        ensures { result ≡ live self.now.entries }
    {
        self.state.live
    }

    /// How many bytes wait to be drawn.
    pub fn queued(&self) -> u64
        ensures { result ≡ queued self.now.settings self.now.entries }
    {
        self.state.outbox.len()
    }

    /// The first moment, in milliseconds, at which an [`Event::Tick`] does more than take its
    /// moment, as things stand: a KEEPALIVE is due then, or the peer counts as dead (RSocket 1.0,
    /// "KEEPALIVE Frame"). A tick at each earlier moment is answered `Quiet`. `None` without a live
    /// connection, and once the session is closed: then a tick is `Quiet` whatever its moment is.
    ///
    /// The moment may be past, where a KEEPALIVE is due and could not be made: the queue had no
    /// room, or a client waits for RESUME_OK. Then a tick comes at once, and again when bytes were
    /// drawn or a frame came. It may also lie above every `u64`.
    pub fn next_due(&self) -> Option<u128>
        ensures some { is_some result ≡ heeds_ticks self.now.settings self.now.entries }
        ensures none { result ≡ None → (now : ℕ) →
            answer_to self.now.settings self.now.entries (Event.Tick now) ≡ Answer.Quiet }
        ensures before { IfSome result (λ t. (now : ℕ) →
            max (moment self.now.entries) now < t →
            answer_to self.now.settings self.now.entries (Event.Tick now) ≡ Answer.Quiet) }
        ensures from { IfSome result (λ t. (now : ℕ) → t ≤ now →
            due_at (times self.now.settings self.now.entries) now ≢ Due.Nothing) }
    {
        next_due(&self.state)
    }

    /// Whether frames that are made go out at once on the live connection.
    pub fn carrying(&self) -> bool
        ensures { result ≡ carrying self.now.settings self.now.entries }
    {
        self.state.carrying
    }

    /// Why the session is closed.
    pub fn cause(&self) -> Option<&Cause>
        ensures { option_copied result ≡ closed self.now.settings self.now.entries }
    {
        self.state.closed.as_ref()
    }

    /// The SETUP that a server accepted.
    pub fn setup(&self) -> Option<&Setup>
        ensures { option_copied result ≡ setup self.now.entries }
    {
        self.state.setup.as_ref()
    }

    /// How many resumable frames were made and handled, and their positions.
    pub fn counts(&self) -> Counts
        ensures { result ≡ counts_of self.now.settings self.now.entries }
    {
        Counts {
            made_frames: self.state.made.frames,
            made: self.state.made.position,
            handled_frames: self.state.handled.frames,
            handled: self.state.handled.position,
        }
    }

    /// The settings.
    pub fn settings(&self) -> &Checked
        ensures { result.now ≡ self.now.settings }
    {
        &self.settings
    }

    /// The tape.
    pub fn tape(&self) -> &T
        ensures told { T.told result.now ≡ told_by self.now.tells self.now.entries }
        ensures count { T.count result.now ≡ length self.now.entries }
    {
        &self.tape
    }

    /// The tape, of a session that is done.
    pub fn into_tape(self) -> T
        ensures told { T.told result ≡ told_by self.tells self.entries }
        ensures count { T.count result ≡ length self.entries }
    {
        self.tape
    }
}
