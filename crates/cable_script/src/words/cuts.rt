//! Words and numbers at the front of a text.

ghost use Rattle.std.specs.Prelude.{◌≡◌, ◌==◌, ◌++◌, ◌∷◌, ℕ, List, true, IfNone, IfSome, IsSomeAnd, decimal, position};
ghost use Rattle.rs_wire.specs.Calls.{is_stream_code};
ghost use Rattle.cable_script.specs.Line.{IsAmount};
ghost use Rattle.cable_script.specs.Words.{HasNo};

use plain_text::read_number;
use rs_wire::{Amount, is_stream_code};

fn first_of(word: &[u8], byte: u8) -> Option<usize>
    ensures { result ≡ position (λ b. b == byte) word.now }
{
    word.iter().position(|b| *b == byte)
}

/// What stands before the first such byte, and after it.
pub(crate) fn cut_at(word: &[u8], byte: u8) -> Option<(&[u8], &[u8])>
    ensures cut { IfSome result (λ r.
        (word.now ≡ r.0.now ++ (byte ∷ r.1.now)) × HasNo byte r.0.now) }
    ensures whole { IfNone result (HasNo byte word.now) }
{
    match first_of(word, byte) {
        None => None,
        Some(i) => {
            let (front, rest) = word.split_at(i);
            Some((front, rest.split_at(1).1))
        }
    }
}

fn without<'a>(word: &'a [u8], front: &[u8]) -> Option<&'a [u8]>
    ensures some { IfSome result (λ rest. word.now ≡ front.now ++ rest.now) }
    ensures none { IfNone result ((rest : List ℕ) → ¬ (word.now ≡ front.now ++ rest)) }
{
    word.strip_prefix(front)
}

/// What follows this word and a space.
pub(crate) fn after<'a>(word: &'a [u8], first: &str) -> Option<&'a [u8]>
    ensures some { IfSome result (λ rest. word.now ≡ first.now ++ (32 ∷ rest.now)) }
    ensures none { IfNone result ((rest : List ℕ) → ¬ (word.now ≡ first.now ++ (32 ∷ rest))) }
{
    match without(word, first.as_bytes()) {
        Some(rest) => without(rest, b" "),
        None => None,
    }
}

/// What stands before this text at the end.
pub(crate) fn before<'a>(word: &'a [u8], last: &[u8]) -> Option<&'a [u8]>
    ensures some { IfSome result (λ front. word.now ≡ front.now ++ last.now) }
    ensures none { IfNone result ((front : List ℕ) → ¬ (word.now ≡ front ++ last.now)) }
{
    word.strip_suffix(last)
}

/// The amount that the word is the decimal text of.
pub(crate) fn amount(word: &[u8]) -> Option<Amount>
    ensures some { IfSome result (λ n. (word.now ≡ decimal n) × IsAmount n) }
    ensures none { IfNone result ((n : ℕ) → IsAmount n → ¬ (word.now ≡ decimal n)) }
{
    match read_number(word, 1, 2_147_483_647) {
        Some(n) => Amount::of(n as u32),
        None => None,
    }
}

/// The amount at the front, and what follows after a space.
pub(crate) fn amount_and(word: &[u8]) -> Option<(Amount, &[u8])>
    ensures some { IfSome result (λ r. (word.now ≡ decimal r.0 ++ (32 ∷ r.1.now)) × IsAmount r.0) }
    ensures only { (n : ℕ) (rest : List ℕ) → IsAmount n → word.now ≡ decimal n ++ (32 ∷ rest) →
        IsSomeAnd result (λ r. (r.0 ≡ n) × (r.1.now ≡ rest)) }
{
    let (front, rest) = cut_at(word, b' ')?;
    let n = amount(front)?;
    Some((n, rest))
}

fn code(word: &[u8]) -> Option<u32>
    ensures some { IfSome result (λ n. (word.now ≡ decimal n) × (is_stream_code n ≡ true)) }
    ensures none { IfNone result ((n : ℕ) → is_stream_code n ≡ true → ¬ (word.now ≡ decimal n)) }
{
    match read_number(word, 0, 0xFFFF_FFFF) {
        Some(n) if is_stream_code(n as u32) => Some(n as u32),
        _ => None,
    }
}

/// The error code of a stream at the front, and what follows after a space.
pub(crate) fn code_and(word: &[u8]) -> Option<(u32, &[u8])>
    ensures some { IfSome result (λ r.
        (word.now ≡ decimal r.0 ++ (32 ∷ r.1.now)) × (is_stream_code r.0 ≡ true)) }
    ensures only { (n : ℕ) (rest : List ℕ) → is_stream_code n ≡ true →
        word.now ≡ decimal n ++ (32 ∷ rest) →
        IsSomeAnd result (λ r. (r.0 ≡ n) × (r.1.now ≡ rest)) }
{
    let (front, rest) = cut_at(word, b' ')?;
    let n = code(front)?;
    Some((n, rest))
}
