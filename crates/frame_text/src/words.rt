//! The words of a line, each after a space.

ghost use Rattle.std.specs.Prelude.{◌≡◌, ◌++◌, ◌∷◌, OnOk, codes};
ghost use Rattle.frame_text.specs.Words.{blob_word, letters_word, letter_if, option_word};

use plain_text::{write_hex, write_word};
use rs_wire::{Blob, OutOfMemory};

/// The word of no bytes.
pub const NO_BYTES: u8 = b'.';

/// The word of absent bytes.
pub const ABSENT: u8 = b'-';

/// Appends bytes.
pub fn write_blob(out: &mut Vec<u8>, blob: &Blob) -> Result<(), OutOfMemory>
    ensures { OnOk result (out.new.items ≡ out.old.items ++ (32 ∷ blob_word blob.now)) }
{
    out.push(b' ')?;
    write_hex(out, blob.as_slice(), NO_BYTES)
}

/// Appends bytes that may be absent.
pub fn write_option(out: &mut Vec<u8>, blob: &Option<Blob>) -> Result<(), OutOfMemory>
    ensures { OnOk result (out.new.items ≡ out.old.items ++ (32 ∷ option_word blob.now)) }
{
    match blob {
        None => write_word(out, "-"),
        Some(blob) => write_blob(out, blob),
    }
}

/// The flags R and L as letters.
pub fn resume_lease(resume: bool, lease: bool) -> &'static str
    ensures { result.now ≡ letters_word (letter_if resume (codes "R") ++
        letter_if lease (codes "L")) }
{
    match (resume, lease) {
        (false, false) => "-",
        (true, false) => "R",
        (false, true) => "L",
        (true, true) => "RL",
    }
}

/// The flag R as a letter.
pub fn respond(respond: bool) -> &'static str
    ensures { result.now ≡ letters_word (letter_if respond (codes "R")) }
{
    if respond { "R" } else { "-" }
}

/// The flags F and C as letters.
pub fn follows_complete(follows: bool, complete: bool) -> &'static str
    ensures { result.now ≡ letters_word (letter_if follows (codes "F") ++
        letter_if complete (codes "C")) }
{
    match (follows, complete) {
        (false, false) => "-",
        (true, false) => "F",
        (false, true) => "C",
        (true, true) => "FC",
    }
}

/// The flags F, C and N as letters.
pub fn follows_complete_next(follows: bool, complete: bool, next: bool) -> &'static str
    ensures { result.now ≡ letters_word (letter_if follows (codes "F") ++
        (letter_if complete (codes "C") ++ letter_if next (codes "N"))) }
{
    match (follows, complete, next) {
        (false, false, false) => "-",
        (true, false, false) => "F",
        (false, true, false) => "C",
        (false, false, true) => "N",
        (true, true, false) => "FC",
        (true, false, true) => "FN",
        (false, true, true) => "CN",
        (true, true, true) => "FCN",
    }
}
