//! What a word of a line spells.

ghost use Rattle.std.specs.Prelude.{◌≡◌, ◌<◌, ◌^◌, ◌++◌, IfOk, IfSome, IsTrue, ◌⊎◌, bytes_eq, codes, false, length, position, slice_index};
ghost use Rattle.std.specs.Option.{option_map};
ghost use Rattle.frame_text.specs.Spelled.{after_word, bytes_of, channel_words, cut_word, follows_words, meaning_in, is_blob, is_dash, is_space, option_of, payload_words, respond_words, setup_words};
ghost use Rattle.frame_text.specs.Words.{blob_word, letters_word, letter_if, option_word};

use crate::words::{ABSENT, NO_BYTES};
use plain_text::{hex_size, is_hex_word, is_mark, read_hex};
use rs_wire::{Blob, OutOfMemory};
use std::alloc::Global;

fn first_space(line: &[u8]) -> Option<usize>
    ensures value { result ≡ position is_space line.now }
    ensures within { IfSome result (λ i. (i < length line.now) × (slice_index line.now i ≡ 32)) }
{
    line.iter().position(|b| *b == b' ')
}

/// The first word, and what follows the space after it.
pub fn next_word(line: &[u8]) -> (&[u8], Option<&[u8]>)
    ensures cut { (result.0.now, option_map (λ x. x.now) result.1) ≡ cut_word line.now }
    ensures whole { line.now ≡ result.0.now ++ after_word (option_map (λ x. x.now) result.1) }
{
    match first_space(line) {
        None => (line, None),
        Some(i) => {
            let (word, rest) = line.split_at(i);
            (word, Some(&rest[1..]))
        }
    }
}

/// Whether the word says that bytes are absent.
pub fn is_dash(word: &[u8]) -> bool
    ensures { result ≡ is_dash word.now }
{
    is_mark(word, ABSENT)
}

/// Whether the word is the text of bytes.
pub fn is_blob_word(word: &[u8]) -> bool
    ensures value { result ≡ is_blob word.now }
    ensures spelled { IsTrue result → word.now ≡ blob_word (bytes_of word.now) }
{
    is_hex_word(word, NO_BYTES)
}

/// How many bytes the word is the text of.
pub fn size(word: &[u8]) -> u64
    requires { IsTrue (is_blob word.now) }
    ensures value { result ≡ length (bytes_of word.now) }
    ensures bound { result < 2 ^ 62 }
{
    hex_size(word, NO_BYTES)
}

/// The bytes that the word is the text of.
pub fn blob(alloc: Global, word: &[u8]) -> Result<Blob, OutOfMemory>
    requires { IsTrue (is_blob word.now) }
    ensures { IfOk result (λ b. b ≡ bytes_of word.now) }
{
    read_hex(alloc, word, NO_BYTES)
}

/// The bytes, or none for a dash.
pub fn option(alloc: Global, word: &[u8]) -> Result<Option<Blob>, OutOfMemory>
    requires { IsTrue (is_dash word.now) ⊎ IsTrue (is_blob word.now) }
    ensures { IfOk result (λ b. b ≡ option_of word.now) }
{
    if is_dash(word) {
        return Ok(None);
    }
    Ok(Some(blob(alloc, word)?))
}

/// Whether the word is this text.
pub fn is(word: &[u8], text: &str) -> bool
    ensures value { result ≡ bytes_eq word.now text.now }
    ensures same { IsTrue result → word.now ≡ text.now }
{
    word == text.as_bytes()
}

/// The flag R.
pub fn respond(word: &[u8]) -> Option<bool>
    ensures value { result ≡ meaning_in respond_words word.now }
    ensures spelled { IfSome result (λ r. word.now ≡ letters_word (letter_if r (codes "R"))) }
{
    if is(word, "-") {
        return Some(false);
    }
    if is(word, "R") {
        return Some(true);
    }
    None
}

/// The flag F.
pub fn follows(word: &[u8]) -> Option<bool>
    ensures value { result ≡ meaning_in follows_words word.now }
    ensures spelled { IfSome result (λ f. word.now ≡ letters_word (letter_if f (codes "F") ++
        letter_if false (codes "C"))) }
{
    if is(word, "-") {
        return Some(false);
    }
    if is(word, "F") {
        return Some(true);
    }
    None
}

/// The flags R and L.
pub fn resume_lease(word: &[u8]) -> Option<(bool, bool)>
    ensures value { result ≡ meaning_in setup_words word.now }
    ensures spelled { IfSome result (λ f. word.now ≡ letters_word (letter_if f.0 (codes "R") ++
        letter_if f.1 (codes "L"))) }
{
    if is(word, "-") {
        return Some((false, false));
    }
    if is(word, "R") {
        return Some((true, false));
    }
    if is(word, "L") {
        return Some((false, true));
    }
    if is(word, "RL") {
        return Some((true, true));
    }
    None
}

/// The flags F and C.
pub fn follows_complete(word: &[u8]) -> Option<(bool, bool)>
    ensures value { result ≡ meaning_in channel_words word.now }
    ensures spelled { IfSome result (λ f. word.now ≡ letters_word (letter_if f.0 (codes "F") ++
        letter_if f.1 (codes "C"))) }
{
    if is(word, "-") {
        return Some((false, false));
    }
    if is(word, "F") {
        return Some((true, false));
    }
    if is(word, "C") {
        return Some((false, true));
    }
    if is(word, "FC") {
        return Some((true, true));
    }
    None
}

/// The flags F, C and N.
pub fn follows_complete_next(word: &[u8]) -> Option<(bool, bool, bool)>
    ensures value { result ≡ meaning_in payload_words word.now }
    ensures spelled { IfSome result (λ f. word.now ≡ letters_word (letter_if f.0 (codes "F") ++
        (letter_if f.1 (codes "C") ++ letter_if f.2 (codes "N")))) }
{
    if is(word, "-") {
        return Some((false, false, false));
    }
    if is(word, "F") {
        return Some((true, false, false));
    }
    if is(word, "C") {
        return Some((false, true, false));
    }
    if is(word, "N") {
        return Some((false, false, true));
    }
    if is(word, "FC") {
        return Some((true, true, false));
    }
    if is(word, "FN") {
        return Some((true, false, true));
    }
    if is(word, "CN") {
        return Some((false, true, true));
    }
    if is(word, "FCN") {
        return Some((true, true, true));
    }
    None
}
