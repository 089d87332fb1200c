//! The words of a call on a stream, and of the calls on none.

ghost use Rattle.std.specs.Prelude.{◌≡◌, ◌++◌, ◌∷◌, ℕ, Bool, List, None, true, codes, IfNone, IfSome, IsTrue, decimal};
ghost use Rattle.hex.specs.Hex.{IsBytes};
ghost use Rattle.rs_wire.specs.Calls.{is_stream_code};
ghost use Rattle.rs_wire.specs.declared.call.Call.{Call as Meant};
ghost use Rattle.rs_wire.specs.declared.message.Message.{Message as Said};
ghost use Rattle.cable_script.specs.Line.{IsAmount, IsPayload, IsSayable, call_words, part_text};
ghost use Rattle.cable_script.specs.Words.{SpellsCall, bytes_of, is_part};

use crate::spoken::next_word;
use crate::words::asked::Asked;
use crate::words::cuts::{after, amount, code_and};
use crate::words::forms::{amount_after, amount_and_after, amount_and_payload_after};
use crate::words::payload::is_part;
use crate::words::requests::request_of;
use rs_wire::Call;

// `next S P`, or `last S P` where the payload is complete.
fn next_of(word: &[u8], complete: bool) -> Option<Asked<'_>>
    ensures some { IfSome result (SpellsCall word.now) }
    ensures none { IfNone result ((s : ℕ) (m : Said) → IsAmount s → IsPayload m →
        ¬ (word.now ≡ call_words (Call.Next s m complete))) }
{
    match amount_and_payload_after(word, next_word(complete)) {
        Some((stream, payload)) => Some(Asked::Next {
            stream: stream.get(),
            payload,
            complete,
        }),
        None => None,
    }
}

// `done S`.
fn done_of(word: &[u8]) -> Option<Asked<'_>>
    ensures some { IfSome result (SpellsCall word.now) }
    ensures none { IfNone result ((s : ℕ) → IsAmount s → ¬ (word.now ≡ call_words (Call.Done s))) }
{
    match amount_after(word, "done") {
        Some(stream) => Some(Asked::Done {
            stream: stream.get(),
        }),
        None => None,
    }
}

// `grant S N`.
fn grant_of(word: &[u8]) -> Option<Asked<'_>>
    ensures some { IfSome result (SpellsCall word.now) }
    ensures none { IfNone result ((s n : ℕ) → IsAmount s → IsAmount n →
        ¬ (word.now ≡ call_words (Call.Grant s n))) }
{
    let Some((stream, rest)) = amount_and_after(word, "grant") else {
        return None;
    };
    match amount(rest) {
        Some(n) => Some(Asked::Grant {
            stream: stream.get(),
            n,
        }),
        None => None,
    }
}

// `cancel S`.
fn cancel_of(word: &[u8]) -> Option<Asked<'_>>
    ensures some { IfSome result (SpellsCall word.now) }
    ensures none { IfNone result ((s : ℕ) → IsAmount s →
        ¬ (word.now ≡ call_words (Call.Cancel s))) }
{
    match amount_after(word, "cancel") {
        Some(stream) => Some(Asked::Cancel {
            stream: stream.get(),
        }),
        None => None,
    }
}

// `CODE PART`: an error code of a stream, and what the error says.
fn error_of(word: &[u8]) -> Option<(u32, &[u8])>
    ensures some { IfSome result (λ r.
        (word.now ≡ decimal r.0 ++ (32 ∷ part_text (bytes_of r.1.now))) ×
        (is_stream_code r.0 ≡ true) × IsTrue (is_part r.1.now) × IsBytes (bytes_of r.1.now)) }
    ensures none { IfNone result ((code : ℕ) (content : List ℕ) → is_stream_code code ≡ true →
        IsBytes content → ¬ (word.now ≡ decimal code ++ (32 ∷ part_text content))) }
{
    let (code, content) = code_and(word)?;
    if is_part(content) {
        return Some((code, content));
    }
    None
}

// `fail S CODE PART`.
fn fail_of(word: &[u8]) -> Option<Asked<'_>>
    ensures some { IfSome result (SpellsCall word.now) }
    ensures none { IfNone result ((s code : ℕ) (content : List ℕ) → IsAmount s →
        is_stream_code code ≡ true → IsBytes content →
        ¬ (word.now ≡ call_words (Call.Fail s code content))) }
{
    let Some((stream, rest)) = amount_and_after(word, "fail") else {
        return None;
    };
    match error_of(rest) {
        Some((code, content)) => Some(Asked::Fail {
            stream: stream.get(),
            code,
            content,
        }),
        None => None,
    }
}

// `take S`.
fn take_of(word: &[u8]) -> Option<Asked<'_>>
    ensures some { IfSome result (SpellsCall word.now) }
    ensures none { IfNone result ((s : ℕ) → IsAmount s → ¬ (word.now ≡ call_words (Call.Take s))) }
{
    match amount_after(word, "take") {
        Some(stream) => Some(Asked::Take {
            stream: stream.get(),
        }),
        None => None,
    }
}

// `push PART`.
fn push_of(word: &[u8]) -> Option<Asked<'_>>
    ensures some { IfSome result (SpellsCall word.now) }
    ensures none { IfNone result ((metadata : List ℕ) → IsBytes metadata →
        ¬ (word.now ≡ call_words (Call.Push metadata))) }
{
    let metadata = after(word, "push")?;
    if is_part(metadata) {
        return Some(Asked::Push { metadata });
    }
    None
}

// `lease N N`.
fn lease_of(word: &[u8]) -> Option<Asked<'_>>
    ensures some { IfSome result (SpellsCall word.now) }
    ensures none { IfNone result ((ttl count : ℕ) → IsAmount ttl → IsAmount count →
        ¬ (word.now ≡ call_words (Call.Lease ttl count None))) }
{
    let Some((ttl, rest)) = amount_and_after(word, "lease") else {
        return None;
    };
    match amount(rest) {
        Some(count) => Some(Asked::Lease { ttl, count }),
        None => None,
    }
}

// A call on no stream that carries something.
fn beside_of(word: &[u8]) -> Option<Asked<'_>>
    ensures some { IfSome result (SpellsCall word.now) }
    ensures push { IfNone result ((metadata : List ℕ) → IsBytes metadata →
        ¬ (word.now ≡ call_words (Call.Push metadata))) }
    ensures lease { IfNone result ((ttl count : ℕ) → IsAmount ttl → IsAmount count →
        ¬ (word.now ≡ call_words (Call.Lease ttl count None))) }
{
    if let Some(asked) = push_of(word) {
        return Some(asked);
    }
    lease_of(word)
}

// `job` or `close`.
fn single_word_of(word: &[u8]) -> Option<Asked<'_>>
    ensures some { IfSome result (SpellsCall word.now) }
    ensures none { IfNone result ((¬ (word.now ≡ codes "job")) × (¬ (word.now ≡ codes "close"))) }
{
    if word == b"job".as_slice() {
        return Some(Asked::TakeJob);
    }
    if word == b"close".as_slice() {
        return Some(Asked::Close);
    }
    None
}

// A call on a stream, with what it carries.
fn sent_of(word: &[u8]) -> Option<Asked<'_>>
    ensures some { IfSome result (SpellsCall word.now) }
    ensures next { IfNone result ((s : ℕ) (m : Said) (complete : Bool) → IsAmount s →
        IsPayload m → ¬ (word.now ≡ call_words (Call.Next s m complete))) }
    ensures fail { IfNone result ((s code : ℕ) (content : List ℕ) → IsAmount s →
        is_stream_code code ≡ true → IsBytes content →
        ¬ (word.now ≡ call_words (Call.Fail s code content))) }
{
    if let Some(asked) = next_of(word, false) {
        return Some(asked);
    }
    if let Some(asked) = next_of(word, true) {
        return Some(asked);
    }
    fail_of(word)
}

// A call on a stream that carries nothing.
fn bare_of(word: &[u8]) -> Option<Asked<'_>>
    ensures some { IfSome result (SpellsCall word.now) }
    ensures done { IfNone result ((s : ℕ) → IsAmount s →
        ¬ (word.now ≡ call_words (Call.Done s))) }
    ensures grant { IfNone result ((s n : ℕ) → IsAmount s → IsAmount n →
        ¬ (word.now ≡ call_words (Call.Grant s n))) }
    ensures cancel { IfNone result ((s : ℕ) → IsAmount s →
        ¬ (word.now ≡ call_words (Call.Cancel s))) }
    ensures take { IfNone result ((s : ℕ) → IsAmount s →
        ¬ (word.now ≡ call_words (Call.Take s))) }
{
    if let Some(asked) = done_of(word) {
        return Some(asked);
    }
    if let Some(asked) = grant_of(word) {
        return Some(asked);
    }
    if let Some(asked) = cancel_of(word) {
        return Some(asked);
    }
    take_of(word)
}

/// The words of the call that the word is the text of.
pub(crate) fn asked_of(word: &[u8]) -> Option<Asked<'_>>
    ensures some { IfSome result (SpellsCall word.now) }
    ensures none { IfNone result ((c : Meant) → IsSayable c → ¬ (word.now ≡ call_words c)) }
{
    if let Some(asked) = request_of(word) {
        return Some(asked);
    }
    if let Some(asked) = sent_of(word) {
        return Some(asked);
    }
    if let Some(asked) = bare_of(word) {
        return Some(asked);
    }
    if let Some(asked) = beside_of(word) {
        return Some(asked);
    }
    single_word_of(word)
}
