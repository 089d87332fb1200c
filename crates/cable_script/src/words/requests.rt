//! The words of a request.

ghost use Rattle.std.specs.Prelude.{◌≡◌, ℕ, Bool, Option, false, true, IfNone, IfSome, None, Some};
ghost use Rattle.rs_wire.specs.Calls.{is_streamed};
ghost use Rattle.rs_wire.specs.declared.words.Kind.{Kind as Meant};
ghost use Rattle.rs_wire.specs.declared.message.Message.{Message as Said};
ghost use Rattle.cable_script.specs.Line.{IsAmount, IsPayload, IsSayable, call_words};
ghost use Rattle.cable_script.specs.Words.{SpellsCall};

use crate::spoken::kind_word;
use crate::words::asked::Asked;
use crate::words::cuts::before;
use crate::words::forms::{amount_and_payload_after, payload_after};
use rs_wire::{Call, Kind};

// `fnf P` or `response P`.
fn single_of(word: &[u8], kind: Kind) -> Option<Asked<'_>>
    requires { is_streamed kind ≡ false }
    ensures some { IfSome result (SpellsCall word.now) }
    ensures none { IfNone result ((m : Said) → IsPayload m →
        ¬ (word.now ≡ call_words (Call.Request kind None m false))) }
{
    match payload_after(word, kind_word(kind)) {
        Some(payload) => Some(Asked::Request {
            kind,
            initial: None,
            payload,
            complete: false,
        }),
        None => None,
    }
}

// `stream N P` or `channel N P`.
fn streamed_of(word: &[u8], kind: Kind) -> Option<Asked<'_>>
    requires { is_streamed kind ≡ true }
    ensures some { IfSome result (SpellsCall word.now) }
    ensures none { IfNone result ((n : ℕ) (m : Said) → IsAmount n → IsPayload m →
        ¬ (word.now ≡ call_words (Call.Request kind (Some n) m false))) }
{
    match amount_and_payload_after(word, kind_word(kind)) {
        Some((n, payload)) => Some(Asked::Request {
            kind,
            initial: Some(n),
            payload,
            complete: false,
        }),
        None => None,
    }
}

// `channel N P last`.
fn last_channel_of(word: &[u8]) -> Option<Asked<'_>>
    ensures some { IfSome result (SpellsCall word.now) }
    ensures none { IfNone result ((n : ℕ) (m : Said) → IsAmount n → IsPayload m →
        ¬ (word.now ≡ call_words (Call.Request Kind.Channel (Some n) m true))) }
{
    let front = before(word, b" last")?;
    match amount_and_payload_after(front, "channel") {
        Some((n, payload)) => Some(Asked::Request {
            kind: Kind::Channel,
            initial: Some(n),
            payload,
            complete: true,
        }),
        None => None,
    }
}

/// The words of a request.
pub(crate) fn request_of(word: &[u8]) -> Option<Asked<'_>>
    ensures some { IfSome result (SpellsCall word.now) }
    ensures none { IfNone result ((kind : Meant) (i : Option ℕ) (m : Said) (complete : Bool) →
        IsSayable (Call.Request kind i m complete) →
        ¬ (word.now ≡ call_words (Call.Request kind i m complete))) }
{
    if let Some(asked) = single_of(word, Kind::Fnf) {
        return Some(asked);
    }
    if let Some(asked) = single_of(word, Kind::Response) {
        return Some(asked);
    }
    if let Some(asked) = streamed_of(word, Kind::Stream) {
        return Some(asked);
    }
    if let Some(asked) = streamed_of(word, Kind::Channel) {
        return Some(asked);
    }
    last_channel_of(word)
}
