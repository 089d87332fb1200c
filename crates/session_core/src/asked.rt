//! The answer to a call.

ghost use Rattle.std.specs.Prelude.{◌≡◌, ◌≢◌, ◌<◌, ◌≤◌, ◌^◌, ℕ, List, [], ◌∷◌, None, IfOk};
ghost use Rattle.rs_wire.specs.Calls.{CanBeAsked};
ghost use Rattle.interactions.specs.Seen.{known_to};
ghost use Rattle.session_model.specs.Frames.{spoken};
ghost use Rattle.session_model.specs.Answers.{accepted, by_closed, by_sending, by_size, find_full, refused_beside, refused_call, refused_frames, refused_sending, size_in, to_call};
ghost use Rattle.rs_wire.specs.declared.settings.Settings.{Settings};
ghost use Rattle.rs_frame.specs.declared.frame.Frame.{Frame};
ghost use Rattle.stream_model.specs.Known.{Known, limits_of};
ghost use Rattle.stream_model.specs.Refused.{by_ids};
ghost use Rattle.session_core.specs.Asked.{refused_later};
ghost use Rattle.session_core.specs.Fits.{AreLimits, HasRoom, facts_of};
ghost use Rattle.session_core.specs.Sizes.{size_of_frames};

use crate::leasing::{by_agreement, by_lease};
use crate::sizes::{
    LENGTH_FIELD, MANY_BYTES, MANY_FRAMES, MOST_PAYLOAD, closing_size, option_len, size_beside,
    size_spoken,
};
use crate::state::State;
use fragment::SplitSize;
use rs_wire::{Call, Checked, OutOfMemory, Refusal};
use std::alloc::Global;
use tape::Answer;

// How many bytes a call sends on.
fn size_in(call: &Call) -> u64
    ensures value { result ≡ size_in call.now }
    ensures bound { result < 2 ^ 64 }
{
    match call {
        Call::Request { message, .. } | Call::Next { message, .. } => message.size(),
        Call::Fail { content, .. } => content.len() as u64,
        Call::Push { metadata } => metadata.len() as u64,
        Call::Lease { metadata, .. } => option_len(metadata),
        _ => 0,
    }
}

// The session is closed; what waits can still be taken.
fn by_closed(state: &State, call: &Call) -> Option<Refusal>
    ensures { result ≡ by_closed (facts_of state.now) call.now }
{
    let waits = match call {
        Call::Take { stream } => state.streams.next_take(*stream).is_some(),
        Call::TakeJob => state.streams.next_job().is_some(),
        _ => false,
    };
    if waits {
        return None;
    }
    match state.closed {
        Some(cause) => Some(Refusal::Closed(cause)),
        None => None,
    }
}

fn by_size(settings: &Checked, call: &Call) -> Option<Refusal>
    ensures value { result ≡ by_size settings.now call.now }
    ensures small { result ≡ None → size_in call.now ≤ MOST_PAYLOAD }
{
    let size = size_in(call);
    if size > u64::from(settings.settings().max_payload) {
        return Some(Refusal::TooLarge(size));
    }
    None
}

/// Whether frames of this size go out at once, and find no room in the queue.
#[tactic(auto, using(crate::proofs::Framed::framed_size))]
pub fn find_full(settings: &Checked, state: &State, size: SplitSize) -> bool
    requires few { size.frames < MANY_FRAMES }
    requires small { size.bytes < MANY_BYTES }
    ensures { (fs : List Frame) → size ≡ size_of_frames fs → result ≡
        find_full settings.now (facts_of state.now) fs }
{
    let bytes = LENGTH_FIELD * size.frames + size.bytes;
    state.carrying && state.outbox.len() + bytes > settings.out_limit()
}

// Frames of this size can't be made.
fn refused_frames(settings: &Checked, state: &State, size: SplitSize) -> Option<Refusal>
    requires room { HasRoom state.now }
    requires few { size.frames < MANY_FRAMES }
    requires small { size.bytes < MANY_BYTES }
    ensures { (fs : List Frame) → size ≡ size_of_frames fs → result ≡
        refused_frames settings.now (facts_of state.now) fs }
{
    if !state.begun {
        return Some(Refusal::NotConnected);
    }
    if find_full(settings, state, size) {
        return Some(Refusal::OutFull(state.outbox.len()));
    }
    if state.made.position + size.bytes > settings.settings().top_position {
        return Some(Refusal::PositionSpent);
    }
    None
}

// The frames of a call, where it makes any, can't be made.
fn refused_sending(settings: &Checked, state: &State, call: &Call) -> Option<Refusal>
    requires room { HasRoom state.now }
    requires size { size_in call.now ≤ MOST_PAYLOAD }
    ensures { (t : Known) (id : ℕ) → result ≡
        refused_sending settings.now (facts_of state.now) (spoken t id call.now) }
{
    match size_spoken(settings, call) {
        Some(size) => refused_frames(settings, state, size),
        None => None,
    }
}

// The ERROR that closes finds no room in the queue, where there is a connection.
fn refused_closing(settings: &Checked, state: &State) -> Option<Refusal>
    ensures { result ≡ by_sending settings.now (facts_of state.now) Call.Close }
{
    if find_full(settings, state, closing_size()) {
        return Some(Refusal::OutFull(state.outbox.len()));
    }
    None
}

// A frame of the connection alone, of this size, can't be sent.
fn refused_beside(settings: &Checked, state: &State, size: SplitSize) -> Option<Refusal>
    requires few { size.frames < MANY_FRAMES }
    requires small { size.bytes < MANY_BYTES }
    ensures { (f : Frame) → size ≡ size_of_frames (f ∷ []) → result ≡
        refused_beside settings.now (facts_of state.now) f }
{
    if !state.carrying {
        return Some(Refusal::NotConnected);
    }
    if find_full(settings, state, size) {
        return Some(Refusal::OutFull(state.outbox.len()));
    }
    None
}

// The frames of a call that is not Close can't be sent.
fn refused_frame(settings: &Checked, state: &State, call: &Call) -> Option<Refusal>
    requires room { HasRoom state.now }
    requires size { size_in call.now ≤ MOST_PAYLOAD }
    ensures { call.now ≢ Call.Close → result ≡
        by_sending settings.now (facts_of state.now) call.now }
{
    match size_beside(call) {
        Some(size) => refused_beside(settings, state, size),
        None => refused_sending(settings, state, call),
    }
}

// Close needs no connection.
fn by_sending(settings: &Checked, state: &State, call: &Call) -> Option<Refusal>
    requires room { HasRoom state.now }
    requires size { size_in call.now ≤ MOST_PAYLOAD }
    ensures { result ≡ by_sending settings.now (facts_of state.now) call.now }
{
    match call {
        Call::Close => refused_closing(settings, state),
        _ => refused_frame(settings, state, call),
    }
}

// The first refusal of a call, from its size on.
fn refused_later(settings: &Checked, state: &State, call: &Call) -> Option<Refusal>
    requires room { HasRoom state.now }
    requires limits { AreLimits settings.now state.now }
    ensures { result ≡ refused_later settings.now (facts_of state.now) call.now }
{
    if let Some(why) = by_size(settings, call) {
        return Some(why);
    }
    if let Some(why) = state.streams.by_credit(call) {
        return Some(why);
    }
    if let Some(why) = by_lease(settings, state, call) {
        return Some(why);
    }
    if let Some(why) = state.streams.by_ids(call) {
        return Some(why);
    }
    if let Some(why) = state.streams.by_live(call) {
        return Some(why);
    }
    by_sending(settings, state, call)
}

/// The first refusal of a call.
#[tactic(auto, unfolding(session_model::specs::Answers::refused_call))]
pub fn refused_call(settings: &Checked, state: &State, call: &Call) -> Option<Refusal>
    requires room { HasRoom state.now }
    requires limits { AreLimits settings.now state.now }
    ensures { result ≡ refused_call settings.now (facts_of state.now) call.now }
{
    if let Some(why) = by_closed(state, call) {
        return Some(why);
    }
    if let Some(why) = state.streams.by_state(call) {
        return Some(why);
    }
    if let Some(why) = by_agreement(settings, state, call) {
        return Some(why);
    }
    refused_later(settings, state, call)
}

// The answer to a call that is not refused.
fn accepted(alloc: Global, state: &State, call: &Call) -> Result<Answer, OutOfMemory>
    requires { by_ids state.now.streams.limits (known_to state.now.streams) call.now ≡ None }
    ensures { (g : Settings) → limits_of g ≡ state.now.streams.limits → IfOk result (λ a. a ≡
        accepted g (facts_of state.now) call.now) }
{
    Ok(match call {
        Call::Request { .. } => Answer::Started(state.streams.next_id().unwrap()),
        Call::Take { stream } => match state.streams.next_take(*stream) {
            Some(delivery) => Answer::Got(delivery.copy(alloc)?),
            None => Answer::NotYet,
        },
        Call::TakeJob => match state.streams.next_job() {
            Some(job) => Answer::GotJob(job.copy(alloc)?),
            None => Answer::NotYet,
        },
        _ => Answer::Done,
    })
}

/// The answer to a call. It copies what is taken.
#[tactic(auto, using(crate::proofs::Asking::ids_left))]
pub fn to_call(
    alloc: Global,
    settings: &Checked,
    state: &State,
    call: &Call,
) -> Result<Answer, OutOfMemory>
    requires room { HasRoom state.now }
    requires limits { AreLimits settings.now state.now }
    ensures { IfOk result (λ a. a ≡ to_call settings.now (facts_of state.now) call.now) }
{
    match refused_call(settings, state, call) {
        Some(why) => Ok(Answer::Refused(why)),
        None => accepted(alloc, state, call),
    }
}
