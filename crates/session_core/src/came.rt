//! The answer to a frame that came.

ghost use Rattle.std.specs.Prelude.{◌≡◌, ◌&&◌, if◌then◌else◌, nat_lt, None, Some};
ghost use Rattle.rs_frame.specs.Spelling.{IsSpellable};
ghost use Rattle.session_model.specs.Answers.{answer_spends, breaks_credit, broken_rule, is_ahead, peer_error, rule_now, spends, to_frame, to_known, unknown_type, waiting_rule};
ghost use Rattle.session_core.specs.Came.{IsPayload};
ghost use Rattle.session_core.specs.Fits.{AreLimits, HasRoom, facts_of};

use crate::judge::is_live;
use crate::leasing::is_covered;
use crate::life::agrees_resumption;
use crate::resuming::to_resume_ok;
use crate::state::State;
use crate::turned_away::turned_away_for;
use rs_frame::{Frame, Request};
use rs_wire::{Checked, Message, Rule};
use session_model::{ANSWER_ROOM, EXTENSION, MAY_IGNORE};
use tape::Answer;

/// The bytes of the ERROR that turns a request away before its word: a header of 6, and a code of
/// 4.
const TURNED_AWAY: u64 = 10;

// The rule that a frame breaks whose type this end doesn't know.
fn unknown_type(number: u8, flags: u16) -> Option<Rule>
    ensures { result ≡ unknown_type number flags }
{
    if flags & MAY_IGNORE != 0 {
        return None;
    }
    Some(Rule::UnknownType(number))
}

// Whether the position of the frames handled would pass the top.
fn spends(settings: &Checked, state: &State, frame: &Frame) -> bool
    requires room { HasRoom state.now }
    requires spellable { IsSpellable frame.now }
    ensures { result ≡ spends settings.now (facts_of state.now) frame.now }
{
    let position = state.handled.position + u64::from(rs_frame::length(frame));
    position > settings.settings().top_position
}

// Whether the position of the frames made would pass the top by the answer to a request.
fn answer_spends(settings: &Checked, state: &State, request: &Request) -> bool
    requires room { HasRoom state.now }
    requires limits { AreLimits settings.now state.now }
    ensures { result ≡ answer_spends settings.now (facts_of state.now) request.now }
{
    match turned_away_for(&state.streams, is_covered(settings, state), request) {
        Some(word) => {
            let position = state.made.position + TURNED_AWAY + word.len() as u64;
            position > settings.settings().top_position
        }
        None => false,
    }
}

// A message of this size has too many bytes.
fn too_large(settings: &Checked, size: u64) -> Option<Rule>
    ensures { result ≡ (if nat_lt settings.now.max_payload size then
        Some (Rule.TooLarge size) else None) }
{
    if size > u64::from(settings.settings().max_payload) {
        return Some(Rule::TooLarge(size));
    }
    None
}

// The least rule that a request breaks.
#[tactic(auto, unfolding(session_model::specs::Answers::broken_rule))]
fn broken_request(
    settings: &Checked,
    state: &State,
    frame: &Frame,
    request: &Request,
) -> Option<Rule>
    requires room { HasRoom state.now }
    requires limits { AreLimits settings.now state.now }
    requires spellable { IsSpellable frame.now }
    requires is { frame.now ≡ Frame.Request request.now }
    ensures { result ≡ broken_rule settings.now (facts_of state.now) (Frame.Request request.now) }
{
    if !state.streams.is_peers_next(request.stream) {
        return Some(Rule::StreamId(request.stream));
    }
    if let Some(rule) = too_large(settings, request.message.size()) {
        return Some(rule);
    }
    if spends(settings, state, frame) || answer_spends(settings, state, request) {
        return Some(Rule::PositionSpent);
    }
    None
}

// An item finds no credit where its message becomes whole: how much was granted.
fn breaks_credit(state: &State, stream: u32, follows: bool, next: bool) -> Option<Rule>
    ensures { result ≡ breaks_credit (facts_of state.now) stream follows next }
{
    if follows {
        return None;
    }
    match state.streams.over_credit(stream, next) {
        Some(granted) => Some(Rule::OverCredit(granted)),
        None => None,
    }
}

// The least rule that a payload breaks, which is the frame, by what it makes of its message.
#[tactic(auto, unfolding(session_model::specs::Answers::broken_rule))]
fn broken_payload(
    settings: &Checked,
    state: &State,
    frame: &Frame,
    stream: u32,
    follows: bool,
    next: bool,
    message: &Message,
) -> Option<Rule>
    requires room { HasRoom state.now }
    requires spellable { IsSpellable frame.now }
    requires is { IsPayload frame.now stream follows next message.now }
    ensures { result ≡ broken_rule settings.now (facts_of state.now) frame.now }
{
    let next = state.parts.next_with(stream, next);
    if let Some(rule) = breaks_credit(state, stream, follows, next) {
        return Some(rule);
    }
    let size = state.parts.size_with(stream, message);
    if let Some(rule) = too_large(settings, size)
        && state.streams.hears(stream)
    {
        return Some(rule);
    }
    only_position(settings, state, frame)
}

// A frame that breaks no rule but that the position of the frames handled would pass the top.
fn only_position(settings: &Checked, state: &State, frame: &Frame) -> Option<Rule>
    requires room { HasRoom state.now }
    requires spellable { IsSpellable frame.now }
    ensures { result ≡ (if spends settings.now (facts_of state.now) frame.now then
        Some Rule.PositionSpent else None) }
{
    if spends(settings, state, frame) {
        return Some(Rule::PositionSpent);
    }
    None
}

// A KEEPALIVE tells a position above that of the frames made, where resumption is agreed.
fn ahead(settings: &Checked, state: &State, position: u64) -> Option<Rule>
    ensures { result ≡ (if is_ahead settings.now (facts_of state.now) position then
        Some (Rule.Ahead state.now.made.position) else None) }
{
    let agreed = agrees_resumption(settings.settings(), &state.setup);
    if agreed && position > state.made.position {
        return Some(Rule::Ahead(state.made.position));
    }
    None
}

// The least rule that the frame breaks.
#[tactic(auto, unfolding(session_model::specs::Answers::broken_rule))]
fn broken_rule(settings: &Checked, state: &State, frame: &Frame) -> Option<Rule>
    requires room { HasRoom state.now }
    requires limits { AreLimits settings.now state.now }
    requires spellable { IsSpellable frame.now }
    ensures { result ≡ broken_rule settings.now (facts_of state.now) frame.now }
{
    match frame {
        Frame::Request(request) => broken_request(settings, state, frame, request),
        Frame::Payload {
            stream,
            follows,
            next,
            message,
            ..
        } => broken_payload(settings, state, frame, *stream, *follows, *next, message),
        Frame::RequestN { .. } | Frame::Cancel { .. } | Frame::Error { .. } => {
            only_position(settings, state, frame)
        }
        Frame::Keepalive { position, .. } => ahead(settings, state, *position),
        Frame::Lease { .. } | Frame::MetadataPush { .. } => None,
        Frame::Unknown { number, flags, .. } => unknown_type(*number, *flags),
        Frame::Ext { flags, .. } => unknown_type(EXTENSION, *flags),
        _ => Some(Rule::NotNow),
    }
}

// The least rule that a frame breaks where RESUME_OK is waited for.
fn waiting_rule(frame: &Frame) -> Rule
    ensures { Some result ≡ waiting_rule frame.now }
{
    let unknown = match frame {
        Frame::Unknown { number, flags, .. } => unknown_type(*number, *flags),
        Frame::Ext { flags, .. } => unknown_type(EXTENSION, *flags),
        _ => None,
    };
    unknown.unwrap_or(Rule::NotNow)
}

// The least rule that a frame breaks on the live connection, which carries or waits for RESUME_OK.
fn rule_now(settings: &Checked, state: &State, frame: &Frame) -> Option<Rule>
    requires room { HasRoom state.now }
    requires limits { AreLimits settings.now state.now }
    requires spellable { IsSpellable frame.now }
    ensures { result ≡ rule_now settings.now (facts_of state.now) frame.now }
{
    if state.carrying {
        return broken_rule(settings, state, frame);
    }
    Some(waiting_rule(frame))
}

// The answer to a frame that is no ERROR on stream 0, where the queue has room for what answers it.
fn to_known(settings: &Checked, state: &State, frame: &Frame) -> Answer
    requires room { HasRoom state.now }
    requires limits { AreLimits settings.now state.now }
    requires spellable { IsSpellable frame.now }
    ensures { result ≡ to_known settings.now (facts_of state.now) frame.now }
{
    match frame {
        Frame::ResumeOk { .. } if state.carrying => Answer::Violation(Rule::NotNow),
        Frame::ResumeOk { position } => to_resume_ok(state, *position),
        _ => match rule_now(settings, state, frame) {
            Some(rule) => Answer::Violation(rule),
            None => Answer::Handled,
        },
    }
}

// The code of an ERROR on stream 0, which closes the session.
fn peer_error(frame: &Frame) -> Option<u32>
    ensures { result ≡ peer_error frame.now }
{
    match frame {
        Frame::Error {
            stream: 0,
            code,
            ..
        } => Some(*code),
        _ => None,
    }
}

/// The answer to a frame that came on a connection.
pub fn to_frame(settings: &Checked, state: &State, conn: u64, frame: &Frame) -> Answer
    requires room { HasRoom state.now }
    requires limits { AreLimits settings.now state.now }
    requires spellable { IsSpellable frame.now }
    ensures { result ≡ to_frame settings.now (facts_of state.now) conn frame.now }
{
    if !is_live(state.live, conn) {
        return Answer::Stale(state.live);
    }
    if let Some(cause) = state.closed {
        return Answer::Closed(cause);
    }
    let queued = state.outbox.len();
    if queued + u64::from(rs_frame::length(frame)) + ANSWER_ROOM > settings.out_limit() {
        return Answer::OutBusy(queued);
    }
    if let Some(code) = peer_error(frame) {
        return Answer::PeerError(code);
    }
    to_known(settings, state, frame)
}
