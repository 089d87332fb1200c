//! A word, and what stands after it: the forms of calls.

ghost use Rattle.std.specs.Prelude.{◌≡◌, ◌++◌, ◌∷◌, ℕ, List, IfNone, IfSome, IsSomeAnd, decimal};
ghost use Rattle.rs_wire.specs.declared.message.Message.{Message as Said};
ghost use Rattle.cable_script.specs.Line.{IsAmount, IsPayload, payload_text};
ghost use Rattle.cable_script.specs.Words.{SpellsMessage};

use crate::words::cuts::{after, amount, amount_and};
use crate::words::payload::{Payload, payload_of};
use rs_wire::Amount;

/// `FIRST N`.
pub(crate) fn amount_after(word: &[u8], first: &str) -> Option<Amount>
    ensures some { IfSome result (λ n. (word.now ≡ first.now ++ (32 ∷ decimal n)) × IsAmount n) }
    ensures none { IfNone result ((n : ℕ) → IsAmount n →
        ¬ (word.now ≡ first.now ++ (32 ∷ decimal n))) }
{
    match after(word, first) {
        Some(rest) => amount(rest),
        None => None,
    }
}

/// `FIRST N` and a space: N, and what follows.
pub(crate) fn amount_and_after<'a>(word: &'a [u8], first: &str) -> Option<(Amount, &'a [u8])>
    ensures some { IfSome result (λ r.
        (word.now ≡ first.now ++ (32 ∷ (decimal r.0 ++ (32 ∷ r.1.now)))) × IsAmount r.0) }
    ensures only { (n : ℕ) (rest : List ℕ) → IsAmount n →
        word.now ≡ first.now ++ (32 ∷ (decimal n ++ (32 ∷ rest))) →
        IsSomeAnd result (λ r. (r.0 ≡ n) × (r.1.now ≡ rest)) }
{
    match after(word, first) {
        Some(rest) => amount_and(rest),
        None => None,
    }
}

/// `FIRST P`.
pub(crate) fn payload_after<'a>(word: &'a [u8], first: &str) -> Option<Payload<'a>>
    ensures some { IfSome result (SpellsMessage (λ text. word.now ≡ first.now ++ (32 ∷ text))) }
    ensures none { IfNone result ((m : Said) → IsPayload m →
        ¬ (word.now ≡ first.now ++ (32 ∷ payload_text m))) }
{
    match after(word, first) {
        Some(rest) => payload_of(rest),
        None => None,
    }
}

/// `FIRST N P`.
pub(crate) fn amount_and_payload_after<'a>(
    word: &'a [u8],
    first: &str,
) -> Option<(Amount, Payload<'a>)>
    ensures some { IfSome result (λ r. IsAmount r.0 ×
        SpellsMessage (λ text. word.now ≡ first.now ++ (32 ∷ (decimal r.0 ++ (32 ∷ text)))) r.1) }
    ensures none { IfNone result ((n : ℕ) (m : Said) → IsAmount n → IsPayload m →
        ¬ (word.now ≡ first.now ++ (32 ∷ (decimal n ++ (32 ∷ payload_text m))))) }
{
    let Some((n, rest)) = amount_and_after(word, first) else {
        return None;
    };
    match payload_of(rest) {
        Some(payload) => Some((n, payload)),
        None => None,
    }
}
