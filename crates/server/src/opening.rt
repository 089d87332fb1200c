//! The opening of a session by a first frame.

ghost use Rattle.std.specs.Prelude.{◌≡◌, ◌↔◌, ◌<◌, IfOk, IfSome, IsTrue, None, OnErr, false, length, slice_get};
ghost use Rattle.rs_wire.specs.declared.words.Side.TheVariants.{Server};
ghost use Rattle.rs_frame.specs.Spelling.{IsSpellable};
ghost use Rattle.session_table.specs.Table.{slot_of};
ghost use Rattle.server.specs.Opening.{AddsIf, AreBack, AreOf, BeginsAt, FollowAll, HasTicked, HasTokenAt};
ghost use Rattle.server.specs.Opening.{IsHeldAt, NotesAs, OpensAt, StayBeside, TriesAt, TriesSo};
ghost use Rattle.server.specs.Opening.{is_dead, is_last, is_opened, or_slot, place_in, wish_of};
ghost use Rattle.server.specs.declared.opening.Wish.TheVariants as wishes;

use crate::host::Host;
use conn::{Caller, Connection};
use handlers::Handler;
use outside::Clock;
use rs_frame::Frame;
use rs_wire::{Blob, OutOfMemory};
use session_table::Sessions;
use std::alloc::Global;
use std::sync::Wait;
use tape::{Answer, Event, Tape};

/// What a first frame asks for.
#[derive(Drop)]
pub(crate) enum Wish {
    /// A session that is not resumed.
    Begin,
    /// A session that may be resumed by this token.
    BeginAs(Blob),
    /// To go on with the session of this token.
    Resume(Blob),
}

/// What the frame asks for.
pub(crate) fn wish_of(alloc: Global, first: &Frame) -> Result<Wish, OutOfMemory>
    ensures { IfOk result (λ w. w ≡ wish_of first.now) }
{
    match first {
        Frame::Resume(resume) => Ok(Wish::Resume(resume.token.copy(alloc)?)),
        Frame::Setup(setup) => match &setup.resume {
            Some(token) => Ok(Wish::BeginAs(token.copy(alloc)?)),
            None => Ok(Wish::Begin),
        },
        _ => Ok(Wish::Begin),
    }
}

/// An opening: at which slot, how it was answered, and whether the tick before it found the peer of
/// that slot's live connection dead.
#[derive(Drop)]
pub(crate) struct Opening {
    pub(crate) slot: u32,
    pub(crate) answer: Answer,
    pub(crate) dead: bool,
}

// Brings a moment of the clock.
fn tick<R: Wait, K: Clock, T: Tape>(
    rt: &R,
    clock: &K,
    connection: &Connection<T>,
    caller: &mut Caller<T>,
) -> Answer
    requires of { caller.old.of ≡ connection.now }
    ensures same { caller.new ≡ record caller.old { front = caller.new.front; note = None } }
    ensures ticked { HasTicked connection.now.settings (K.moments clock.now) caller.old result
        caller.new.front }
{
    let now = clock.now();
    connection.bring(rt, caller, Event::Tick { now })
}

// Whether nothing more is asked of a session that answered so.
fn is_last(answer: &Answer) -> bool
    ensures { result ≡ is_last answer.now }
{
    matches!(answer, Answer::TapeFull | Answer::OutOfMemory)
}

fn is_dead(answer: &Answer) -> bool
    ensures { result ≡ is_dead answer.now }
{
    matches!(answer, Answer::Dead(_))
}

fn is_opened(answer: &Answer) -> bool
    ensures { result ≡ is_opened answer.now }
{
    matches!(answer, Answer::Opened(_))
}

// Brings a moment of the clock, and then the opening.
fn open_at<R: Wait, K: Clock, T: Tape>(
    rt: &R,
    clock: &K,
    slot: u32,
    connection: &Connection<T>,
    caller: &mut Caller<T>,
    first: Frame,
    taken: bool,
) -> Opening
    requires of { caller.old.of ≡ connection.now }
    requires server { connection.now.settings.side ≡ Server }
    requires spellable { IsSpellable first }
    ensures same { caller.new ≡ record caller.old { front = caller.new.front; note = None } }
    ensures tries { TriesSo connection.now.settings (K.moments clock.now) caller.old first taken
        result.answer result.dead caller.new.front }
    ensures slot { result.slot ≡ slot }
{
    let ticked = tick(rt, clock, connection, caller);
    let dead = is_dead(&ticked);
    if is_last(&ticked) {
        drop(first);
        return Opening {
            slot,
            answer: ticked,
            dead,
        };
    }
    drop(ticked);
    let event = Event::Open {
        first: Some(first),
        taken,
    };
    Opening {
        slot,
        answer: connection.bring(rt, caller, event),
        dead,
    }
}

// Opens at the slot, by its caller.
fn open_here<R: Wait, T: Tape, K: Clock, F: Handler>(
    rt: &R,
    host: &Host<'_, T, K, F>,
    at: u32,
    callers: &mut [Caller<T>],
    first: Frame,
    taken: bool,
) -> Opening
    requires place { at < length host.now.connections.now }
    requires of { AreOf host.now.settings.now host.now.connections.now callers.old }
    requires server { host.now.settings.now.side ≡ Server }
    requires spellable { IsSpellable first }
    ensures back { AreBack callers.old callers.new }
    ensures tries { TriesAt host.now.settings.now (K.moments host.now.clock.now) at callers.old
        callers.new first taken result.answer result.dead }
    ensures slot { result.slot ≡ at }
{
    let place = at as usize;
    let connections = host.connections;
    let connection = &connections[place];
    let caller = &mut callers[place];
    open_at(rt, host.clock, at, connection, caller, first, taken)
}

// The slot of the session that has the token, where it is one of so many places.
fn place_of(sessions: &Sessions, token: &Blob, slots: usize) -> Option<u32>
    ensures { result ≡ place_in slots (slot_of token.now sessions.now) }
{
    let found = sessions.find(token)?;
    if (found as usize) < slots {
        Some(found)
    } else {
        None
    }
}

// Opens the session of the token, and notes that it has a connection again, or that it has none.
fn resume_in<R: Wait, T: Tape, K: Clock, F: Handler>(
    rt: &R,
    host: &Host<'_, T, K, F>,
    sessions: &mut Sessions,
    callers: &mut [Caller<T>],
    first: Frame,
    token: &Blob,
) -> Opening
    requires place { host.now.slot < length host.now.connections.now }
    requires of { AreOf host.now.settings.now host.now.connections.now callers.old }
    requires server { host.now.settings.now.side ≡ Server }
    requires spellable { IsSpellable first }
    requires asks { wish_of first ≡ wishes.Resume token.now }
    ensures back { AreBack callers.old callers.new }
    ensures opens { OpensAt host.now.settings.now (K.moments host.now.clock.now) host.now.slot
        result.slot callers.old callers.new first result.answer }
    ensures place { result.slot < length host.now.connections.now }
    // It opens at the place that the table gives, and tells the table.
    ensures at { result.slot ≡ or_slot host.now.slot
        (place_in (length host.now.connections.now) (slot_of token.now sessions.old)) }
    ensures noted { NotesAs (K.moments host.now.clock.now) result.slot (is_opened result.answer)
        result.dead sessions.old sessions.new }
{
    let at = place_of(sessions, token, host.connections.len()).unwrap_or(host.slot);
    let opening = open_here(rt, host, at, callers, first, false);
    note_opening(host.clock, sessions, &opening);
    opening
}

// Notes of a RESUME that its session has a connection again; or, where it was refused after a tick
// that found the peer dead, that it has none.
fn note_opening<K: Clock>(clock: &K, sessions: &mut Sessions, opening: &Opening)
    ensures noted { NotesAs (K.moments clock.now) opening.now.slot (is_opened opening.now.answer)
        opening.now.dead sessions.old sessions.new }
{
    if is_opened(&opening.answer) {
        sessions.rejoined(opening.slot);
    } else if opening.dead {
        sessions.parted(opening.slot, clock.now());
    }
}

// Whether the session at this place has the token.
fn holds_at<R: Wait, T: Tape, K, F: Handler>(
    rt: &R,
    host: &Host<'_, T, K, F>,
    place: u32,
    callers: &mut [Caller<T>],
    token: &Blob,
) -> bool
    requires place { place < length host.now.connections.now }
    requires of { AreOf host.now.settings.now host.now.connections.now callers.old }
    ensures back { AreBack callers.old callers.new }
    ensures others { StayBeside place callers.old callers.new }
    ensures follow { FollowAll callers.old callers.new }
    ensures holds { IsTrue result ↔ HasTokenAt callers.new place token.now }
{
    let place = place as usize;
    let connections = host.connections;
    let connection = &connections[place];
    let caller = &mut callers[place];
    connection.holds(rt, caller, token)
}

// Whether a session at another slot has the token.
fn is_taken<R: Wait, T: Tape, K, F: Handler>(
    rt: &R,
    host: &Host<'_, T, K, F>,
    found: Option<u32>,
    callers: &mut [Caller<T>],
    token: &Blob,
) -> bool
    requires found { IfSome found (λ place. place < length host.now.connections.now) }
    requires of { AreOf host.now.settings.now host.now.connections.now callers.old }
    ensures back { AreBack callers.old callers.new }
    ensures follow { FollowAll callers.old callers.new }
    ensures here { slice_get callers.new host.now.slot ≡ slice_get callers.old host.now.slot }
    ensures taken { IsTrue result ↔ IsHeldAt host.now.slot token.now callers.new found }
{
    match found {
        Some(place) if place != host.slot => holds_at(rt, host, place, callers, token),
        _ => false,
    }
}

// Opens a session that may be resumed by the token, and adds it to the table. Where it answers that
// there was not enough memory, nothing was asked.
fn begin_in<R: Wait, T: Tape, K: Clock, F: Handler>(
    rt: &R,
    host: &Host<'_, T, K, F>,
    sessions: &mut Sessions,
    callers: &mut [Caller<T>],
    first: Frame,
    token: Blob,
) -> Result<Opening, OutOfMemory>
    requires place { host.now.slot < length host.now.connections.now }
    requires of { AreOf host.now.settings.now host.now.connections.now callers.old }
    requires server { host.now.settings.now.side ≡ Server }
    requires spellable { IsSpellable first }
    requires asks { wish_of first ≡ wishes.BeginAs token }
    ensures back { AreBack callers.old callers.new }
    ensures begins { IfOk result (λ o. BeginsAt host.now.settings.now
        (K.moments host.now.clock.now) host.now.slot
        (place_in (length host.now.connections.now) (slot_of token sessions.old)) token
        callers.old callers.new first o.answer) }
    ensures slot { IfOk result (λ o. o.slot ≡ host.now.slot) }
    ensures added { IfOk result
        (λ o. AddsIf (is_opened o.answer) token host.now.slot sessions.old sessions.new) }
    ensures nothing { OnErr result (callers.new ≡ callers.old) }
    ensures table { OnErr result (sessions.new ≡ sessions.old) }
{
    if sessions.reserve().is_err() {
        drop(first);
        return Err(OutOfMemory);
    }
    let found = place_of(sessions, &token, host.connections.len());
    let taken = is_taken(rt, host, found, callers, &token);
    let opening = open_here(rt, host, host.slot, callers, first, taken);
    add_if_opened(sessions, &opening.answer, token, host.slot);
    Ok(opening)
}

// Adds the session, where its opening was accepted. Where the token is another session's, the table
// stays as it is.
fn add_if_opened(sessions: &mut Sessions, answer: &Answer, token: Blob, slot: u32)
    ensures { AddsIf (is_opened answer.now) token slot sessions.old sessions.new }
{
    if is_opened(answer) {
        let _added = sessions.add(token, slot);
    }
}

/// Opens the session that the first frame asks for, once the table forgot those that parted so many
/// milliseconds ago. Where it answers that there was not enough memory, nothing was asked.
pub(crate) fn open<R: Wait, T: Tape, K: Clock, F: Handler>(
    rt: &R,
    host: &Host<'_, T, K, F>,
    callers: &mut [Caller<T>],
    first: Frame,
    wish: Wish,
) -> Result<Opening, OutOfMemory>
    requires place { host.now.slot < length host.now.connections.now }
    requires of { AreOf host.now.settings.now host.now.connections.now callers.old }
    requires server { host.now.settings.now.side ≡ Server }
    requires spellable { IsSpellable first }
    requires asks { wish ≡ wish_of first }
    ensures back { AreBack callers.old callers.new }
    ensures opens { IfOk result (λ o. OpensAt host.now.settings.now
        (K.moments host.now.clock.now) host.now.slot o.slot callers.old callers.new first
        o.answer) }
    ensures place { IfOk result (λ o. o.slot < length host.now.connections.now) }
    ensures nothing { OnErr result (callers.new ≡ callers.old) }
{
    let hold = host.settings.settings().session_hold_ms;
    host.table.lock(rt).purge(host.clock.now(), hold);
    match wish {
        Wish::Begin => Ok(open_here(rt, host, host.slot, callers, first, false)),
        Wish::BeginAs(token) => {
            let mut sessions = host.table.lock(rt);
            begin_in(rt, host, &mut sessions, callers, first, token)
        }
        Wish::Resume(token) => {
            let mut sessions = host.table.lock(rt);
            Ok(resume_in(rt, host, &mut sessions, callers, first, &token))
        }
    }
}
