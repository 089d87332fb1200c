//! Reading bytes.

ghost use Rattle.std.specs.Prelude.{◌≡◌, ◌<◌, ◌^◌, IfOk, IsTrue, length};
ghost use Rattle.std.specs.List.{list_all};
ghost use Rattle.hex.specs.Hex.{IsBytes};
ghost use Rattle.plain_text.specs.Words.{hex_bytes, hex_word, is_hex_word, is_lower, is_mark, is_pairs};

use rs_wire::{Blob, OutOfMemory};
use std::alloc::Global;

fn is_lower_hex(b: u8) -> bool
    ensures { result ≡ is_lower b }
{
    matches!(b, b'0'..=b'9' | b'a'..=b'f')
}

fn is_all_lower(word: &[u8]) -> bool
    ensures { result ≡ list_all is_lower word.now }
{
    word.iter().all(|b| is_lower_hex(*b))
}

// Whether the word is lower-case hex digits, two a byte, for at least one byte.
fn is_pairs(word: &[u8]) -> bool
    ensures { result ≡ is_pairs word.now }
{
    !word.is_empty() && word.len() % 2 == 0 && is_all_lower(word)
}

/// Whether the word is this one character.
pub fn is_mark(word: &[u8], mark: u8) -> bool
    ensures { result ≡ is_mark mark word.now }
{
    word.len() == 1 && word[0] == mark
}

/// Whether the word is the text of bytes.
#[tactic(auto, using(crate::proofs::Hex::hex_back))]
pub fn is_hex_word(word: &[u8], mark: u8) -> bool
    ensures value { result ≡ is_hex_word mark word.now }
    ensures spelled { IsTrue result → word.now ≡ hex_word mark (hex_bytes mark word.now) }
{
    is_mark(word, mark) || is_pairs(word)
}

/// How many bytes the word is the text of.
pub fn hex_size(word: &[u8], mark: u8) -> u64
    requires { IsTrue (is_hex_word mark word.now) }
    ensures value { result ≡ length (hex_bytes mark word.now) }
    ensures bound { result < 2 ^ 62 }
{
    if is_mark(word, mark) {
        return 0;
    }
    word.len() as u64 / 2
}

/// The bytes that the word is the text of.
#[tactic(auto, unfolding(crate::specs::Words::hex_bytes))]
pub fn read_hex(alloc: Global, word: &[u8], mark: u8) -> Result<Blob, OutOfMemory>
    requires { IsTrue (is_hex_word mark word.now) }
    ensures value { IfOk result (λ bytes. bytes ≡ hex_bytes mark word.now) }
    ensures spelled { IfOk result (λ bytes. (word.now ≡ hex_word mark bytes) × IsBytes bytes) }
{
    if is_mark(word, mark) {
        return Ok(Blob::from_vec(Vec::new(alloc)));
    }
    match hex::decode(alloc, word) {
        Ok(bytes) => Ok(Blob::from_vec(bytes)),
        Err(_) => Err(OutOfMemory),
    }
}
