//! Calls that go out in one frame: that of a request or a payload is written from the call's own
//! parts.

ghost use Rattle.std.specs.Prelude.{◌≡◌, ◌≢◌, ◌≤◌, ◌+◌, ◌<◌, ◌^◌, ℕ, None, Some, false, IfOk, IfSome, OnErr, OnOk, true, length, option_to_list};
ghost use Rattle.rs_wire.specs.Calls.{CanBeAsked};
ghost use Rattle.rs_wire.specs.Settings.{IsChecked};
ghost use Rattle.rs_frame.specs.declared.frame.Frame.{Frame as Sent};
ghost use Rattle.rs_frame.specs.Framed.{framed_all};
ghost use Rattle.rs_frame.specs.Spelling.{IsSpellable, length_of};
ghost use Rattle.tape.specs.declared.event.Event.TheVariants as events;
ghost use Rattle.interactions.specs.Seen.{acted, known_to};
ghost use Rattle.outbox.specs.Waiting.{IsKept, with_last, with_spare};
ghost use Rattle.stream_model.specs.Arriving.{no_message};
ghost use Rattle.session_model.specs.Answers.{answer_to};
ghost use Rattle.session_model.specs.Legal.{IsFair};
ghost use Rattle.session_model.specs.Life.{agrees_leases, agrees_resumption};
ghost use Rattle.session_core.specs.Fits.{AreLimits, HasRoom};
ghost use Rattle.session_core.specs.Leasing.{LetsStart, lease_after};
ghost use Rattle.session_core.specs.Seen.{IsOrOutOfMemory, entries_after};
ghost use Rattle.session_core.specs.Sending.{FindsPosition, IsCallOn, IsLined, IsSingle, LetsGo, MaySend, answer_on, frame_on, is_last, own_next, spoken_after};
ghost use Rattle.session_core.specs.Speaking.{Acts, with_room};

use crate::amounts::call_amounts_fit;
use crate::asked::refused_call;
use crate::gathering::let_stream_go;
use crate::life::{agrees_leases, agrees_resumption};
use crate::outgoing::nothing_more;
use crate::session::Session;
use crate::sizes::{HEADER, NUMBER, fits, mtu};
use crate::speak::{completes, named};
use crate::state::State;
use interactions::Streams;
use lease::Lease;
use outbox::Outbox;
use rs_frame::Frame;
use rs_wire::{Amount, Blob, Call, Checked, OutOfMemory};
use std::alloc::Global;
use tape::{Answer, Tape};

// What a session agreed to that a call has to heed.
#[derive(Clone, Copy)]
pub(crate) struct Agreed {
    // Frames that are made are held.
    resumption: bool,
    // Requests are counted by leases.
    leases: bool,
}

/// What goes out for a call in one frame.
#[derive(Debug, Clone, Copy)]
pub struct Single {
    /// How many bytes the frame has, without its length field.
    pub count: u32,
    /// Whether it says that this end sends nothing more on its stream.
    pub last: bool,
}

fn agreed_by(settings: &Checked, state: &State) -> Agreed
    ensures resumption { result.resumption ≡ agrees_resumption settings.now state.now.setup }
    ensures leases { result.leases ≡ agrees_leases settings.now state.now.setup }
{
    let set = settings.settings();
    Agreed {
        resumption: agrees_resumption(set, &state.setup),
        leases: agrees_leases(set, &state.setup),
    }
}

// Whether the call is not refused, and its frame goes out at once.
fn may_send(settings: &Checked, state: &State, call: &Call) -> bool
    requires room { HasRoom state.now }
    requires limits { AreLimits settings.now state.now }
    ensures { result ≡ true → MaySend settings.now state.now call.now }
{
    state.carrying && state.live != 0 && refused_call(settings, state, call).is_none()
}

// The stream on which a call says something: of a request the next of this end. `None` of any other
// call, and where the ids are spent.
#[tactic(auto, using(crate::proofs::SentOnce::next_own))]
fn stream_of(streams: &Streams, call: &Call) -> Option<u32>
    ensures { IfSome result (λ on. IsCallOn (own_next streams.now) call.now on) }
{
    match call {
        Call::Request { .. } => streams.next_id(),
        _ => named(call),
    }
}

// Whether the frame of a request or a payload says that this end sends nothing more on its stream.
fn is_last(streams: &Streams, call: &Call) -> bool
    ensures { result ≡ is_last (known_to streams.now) call.now }
{
    match call {
        Call::Request { complete, .. } => *complete,
        Call::Next {
            stream,
            complete,
            ..
        } => completes(streams, *stream, *complete),
        _ => false,
    }
}

// How many bytes the frame of a call on a stream has; 0 of any other call, which has none.
fn frame_length(on: u32, last: bool, call: &Call) -> u32
    requires { IfSome (frame_on on last call.now) IsSpellable }
    ensures { IfSome (frame_on on last call.now) (λ f. result ≡ length_of f) }
{
    match call {
        Call::Request {
            kind,
            initial,
            message,
            ..
        } => rs_frame::request_length(on, *kind, initial, last, message),
        Call::Next { message, .. } => rs_frame::item_length(on, last, message),
        Call::Done { .. } | Call::Cancel { .. } => HEADER,
        Call::Grant { .. } => HEADER + NUMBER,
        Call::Fail { content, .. } => HEADER + NUMBER + content.len() as u32,
        _ => 0,
    }
}

// Puts the frame of a call on a stream in line; nothing of any other call.
fn append_frame(
    alloc: Global,
    outbox: &mut Outbox,
    on: u32,
    last: bool,
    call: &Call,
) -> Result<(), OutOfMemory>
    requires { IfSome (frame_on on last call.now) IsSpellable }
    ensures ok { OnOk result (outbox.new ≡ with_last outbox.old
        (framed_all (option_to_list (frame_on on last call.now)))) }
    ensures err { OnErr result (outbox.new ≡ outbox.old) }
{
    match call {
        Call::Request {
            kind,
            initial,
            message,
            ..
        } => outbox.append_request(on, *kind, initial, last, message),
        Call::Next { message, .. } => outbox.append_item(on, last, message),
        Call::Done { .. } => outbox.append(&[nothing_more(alloc, on)]),
        Call::Grant { n, .. } => outbox.append(&[Frame::RequestN { stream: on, n: *n }]),
        Call::Cancel { .. } => outbox.append(&[Frame::Cancel { stream: on }]),
        Call::Fail { code, content, .. } => outbox.append(&[Frame::Error {
            stream: on,
            code: *code,
            content: content.copy(alloc)?,
        }]),
        _ => Ok(()),
    }
}

// Puts the frame that says that nothing more follows in line, and keeps it. Each such frame is made on
// the stack of a call of its own: what is cleared for it is not cleared for an item.
#[inline(never)]
fn keep_done(alloc: Global, outbox: &mut Outbox, on: u32) -> Result<(), OutOfMemory>
    requires spellable { IsSpellable (Sent.Payload on false true false no_message) }
    requires top { FindsPosition outbox.old.held (Sent.Payload on false true false no_message) }
    ensures ok { OnOk result (IsKept
        (Sent.Payload on false true false no_message) outbox.old outbox.new) }
    ensures err { OnErr result (outbox.new ≡ with_spare outbox.old outbox.new.room.spare) }
{
    outbox.keep_frame(&nothing_more(alloc, on))
}

// The same of a REQUEST_N.
#[inline(never)]
fn keep_grant(outbox: &mut Outbox, on: u32, n: Amount) -> Result<(), OutOfMemory>
    requires spellable { IsSpellable (Sent.RequestN on n) }
    requires top { FindsPosition outbox.old.held (Sent.RequestN on n) }
    ensures ok { OnOk result (IsKept
        (Sent.RequestN on n) outbox.old outbox.new) }
    ensures err { OnErr result (outbox.new ≡ with_spare outbox.old outbox.new.room.spare) }
{
    outbox.keep_frame(&Frame::RequestN { stream: on, n })
}

// The same of a CANCEL.
#[inline(never)]
fn keep_cancel(outbox: &mut Outbox, on: u32) -> Result<(), OutOfMemory>
    requires spellable { IsSpellable (Sent.Cancel on) }
    requires top { FindsPosition outbox.old.held (Sent.Cancel on) }
    ensures ok { OnOk result (IsKept
        (Sent.Cancel on) outbox.old outbox.new) }
    ensures err { OnErr result (outbox.new ≡ with_spare outbox.old outbox.new.room.spare) }
{
    outbox.keep_frame(&Frame::Cancel { stream: on })
}

// The same of an ERROR.
#[inline(never)]
fn keep_error(
    alloc: Global,
    outbox: &mut Outbox,
    on: u32,
    code: u32,
    content: &Blob,
) -> Result<(), OutOfMemory>
    requires spellable { IsSpellable (Sent.Error on code content.now) }
    requires top { FindsPosition outbox.old.held (Sent.Error on code content.now) }
    ensures ok { OnOk result (IsKept (Sent.Error on code content.now) outbox.old outbox.new) }
    ensures err { OnErr result (outbox.new ≡ with_spare outbox.old outbox.new.room.spare) }
{
    outbox.keep_frame(&Frame::Error {
        stream: on,
        code,
        content: content.copy(alloc)?,
    })
}

// Puts the frame of a call on a stream in line, and keeps it; nothing of any other call.
fn keep_frame(
    alloc: Global,
    outbox: &mut Outbox,
    on: u32,
    last: bool,
    call: &Call,
) -> Result<(), OutOfMemory>
    requires spellable { IfSome (frame_on on last call.now) IsSpellable }
    requires top { IfSome (frame_on on last call.now) (FindsPosition outbox.old.held) }
    ensures ok { OnOk result (IfSome (frame_on on last call.now) (λ f.
        IsKept f outbox.old outbox.new)) }
    ensures err { OnErr result (outbox.new ≡ with_spare outbox.old outbox.new.room.spare) }
{
    match call {
        Call::Request {
            kind,
            initial,
            message,
            ..
        } => outbox.keep_request(on, *kind, initial, last, message),
        Call::Next { message, .. } => outbox.keep_item(on, last, message),
        Call::Done { .. } => keep_done(alloc, outbox, on),
        Call::Grant { n, .. } => keep_grant(outbox, on, *n),
        Call::Cancel { .. } => keep_cancel(outbox, on),
        Call::Fail { code, content, .. } => keep_error(alloc, outbox, on, *code, content),
        _ => Ok(()),
    }
}

// Puts the frame of a call on a stream in line, and keeps it where frames are kept.
#[inline(always)]
fn line_frame(
    alloc: Global,
    outbox: &mut Outbox,
    on: u32,
    last: bool,
    call: &Call,
    keeps: bool,
) -> Result<(), OutOfMemory>
    requires spellable { IfSome (frame_on on last call.now) IsSpellable }
    requires top { IfSome (frame_on on last call.now) (FindsPosition outbox.old.held) }
    ensures ok { OnOk result (IfSome (frame_on on last call.now) (λ f.
        IsLined keeps f outbox.old outbox.new)) }
    ensures err { OnErr result (outbox.new ≡ with_spare outbox.old outbox.new.room.spare) }
{
    if keeps {
        return keep_frame(alloc, outbox, on, last, call);
    }
    append_frame(alloc, outbox, on, last, call)
}

// The answer to a call on that stream: a request starts it.
fn answer_on(call: &Call, on: u32) -> Answer
    ensures { result ≡ answer_on call.now on }
{
    match call {
        Call::Request { .. } => Answer::Started(on),
        _ => Answer::Done,
    }
}

// Counts a request, where leases are agreed.
#[tactic(auto, using(crate::proofs::Leases::started))]
fn use_lease(lease: &mut Lease, agreed: bool, call: &Call)
    requires { (on : ℕ) → LetsStart agreed (answer_on call.now on) lease.old }
    ensures { (on now : ℕ) → lease.new ≡
        lease_after agreed now (answer_on call.now on) (events.Asked call.now) lease.old }
{
    match call {
        Call::Request { .. } if agreed => lease.use_one(),
        _ => {}
    }
}

impl State {
    // What goes out for a call, where that is one frame, at once. Room is made on its stream.
    fn ready_call(
        &mut self,
        settings: &Checked,
        call: &Call,
        on: u32,
    ) -> Result<Option<Single>, OutOfMemory>
        requires stream { IsCallOn (own_next self.old.streams) call.now on }
        requires checked { IsChecked settings.now }
        requires fair { IsFair settings.now (events.Asked call.now) }
        requires room { HasRoom self.old }
        requires limits { AreLimits settings.now self.old }
        ensures single { IfOk result (λ o. IfSome o (λ r.
            IsSingle settings.now self.old call.now on r)) }
        ensures ready { IfOk result (λ o. IfSome o (λ _. self.new ≡ with_room
            self.old (Some on) self.old.parts self.old.outbox.room)) }
        ensures none { IfOk result (λ o. o ≡ None → self.new ≡ self.old) }
        ensures err { OnErr result (self.new ≡ with_room
            self.old self.new.streams.ready self.old.parts self.new.outbox.room) }
    {
        // The ids of the streams have 31 bits, so that the frames on them can be spelled.
        self.streams.fair();
        if !may_send(settings, self, call) {
            return Ok(None);
        }
        let last = is_last(&self.streams, call);
        let count = frame_length(on, last, call);
        if !fits(count, mtu(settings)) {
            return Ok(None);
        }
        self.streams.reserve(on)?;
        Ok(Some(Single { count, last }))
    }

    // Applies a call on a stream, for which room was made, once its frame of so many bytes is in line.
    #[inline(always)]
    fn speak_once(&mut self, call: &Call, on: u32, count: u32, leases: bool)
        requires acts { Acts self.old.streams call.now }
        requires frames { self.old.made.frames < 2 ^ 63 }
        requires position { self.old.made.position < 2 ^ 63 }
        requires lets { (id : ℕ) →
            LetsStart leases (answer_on call.now id) self.old.lease }
        ensures after { self.new ≡ spoken_after
            self.old call.now count self.new.parts self.old.outbox self.new.lease }
        ensures lease { (id now : ℕ) → self.new.lease ≡ lease_after
            leases now (answer_on call.now id) (events.Asked call.now) self.old.lease }
        ensures parts { LetsGo
            (known_to (acted self.old.streams call.now)) on self.old.parts self.new.parts }
    {
        self.made.frames += 1;
        self.made.position += u64::from(count);
        use_lease(&mut self.lease, leases, call);
        let _stream = self.streams.act(call);
        let_stream_go(&mut self.parts, &self.streams, on);
    }
}

impl<T: Tape> Session<T> {
    /// Sends what a call says on a stream, where it goes out in one frame, which is kept where
    /// resumption is agreed. `None` where the call isn't such a one, or is refused: nothing has
    /// changed.
    #[inline(always)]
    pub(crate) fn send(&mut self, who: u32, call: &Call) -> Option<Answer>
        requires askable { CanBeAsked call.now }
        requires not_full { length self.old.entries < 2 ^ 63 }
        ensures answer { IfSome result (λ a. IsOrOutOfMemory a
            (answer_to self.old.settings self.old.entries (events.Asked call.now))) }
        ensures not_full { result ≢ Some Answer.TapeFull }
        ensures after { IfSome result (λ a. self.new ≡ record self.old {
          entries = entries_after who (events.Asked call.now) a self.old.entries;
          spare = self.new.spare;
        }) }
        ensures none { result ≡ None → self.new ≡ self.old }
        ensures spare { self.old.spare ≤ self.new.spare + 1 }
    {
        let on = stream_of(&self.state.streams, call)?;
        // It does nothing: it says that the amounts of the call have their range.
        call_amounts_fit(call);
        let agreed = agreed_by(&self.settings, &self.state);
        let single = match self.state.ready_call(&self.settings, call, on) {
            Ok(Some(single)) => single,
            Ok(None) => return None,
            Err(OutOfMemory) => return Some(Answer::OutOfMemory),
        };
        let answer = answer_on(call, on);
        if let Err(OutOfMemory) = self.tape.note_call(who, call, &answer) {
            return Some(Answer::OutOfMemory);
        }
        let outbox = &mut self.state.outbox;
        let lined = line_frame(self.alloc, outbox, on, single.last, call, agreed.resumption);
        if let Err(OutOfMemory) = lined {
            self.tape.take_back();
            return Some(Answer::OutOfMemory);
        }
        self.history.note_call(who, call, &answer);
        self.state.speak_once(call, on, single.count, agreed.leases);
        Some(answer)
    }
}
