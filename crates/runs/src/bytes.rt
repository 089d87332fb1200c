//! The bytes that a word or a line of a run represents.

use anyhow::{Context, Result};
use hex::decode;
use std::alloc::Global;

// The bytes of these digits, two a byte.
fn of_digits(alloc: Global, digits: &str) -> Result<Vec<u8>> {
    decode(alloc, digits).ok().context("digits are not hex")
}

/// The bytes of a word.
pub fn of_word(alloc: Global, word: &str) -> Result<Vec<u8>> {
    match word.strip_prefix("0x") {
        Some(digits) => of_digits(alloc, digits),
        None => Ok(Vec::from_slice(alloc, word.as_bytes())?),
    }
}

/// Appends the bytes of a line.
pub fn put_line(alloc: Global, out: &mut Vec<u8>, line: &str) -> Result<()> {
    if line.starts_with("0x") {
        out.extend_from_slice(&of_word(alloc, line)?)?;
    } else if let Some(part) = line.strip_suffix("\\") {
        out.extend_from_slice(part.as_bytes())?;
    } else {
        out.extend_from_slice(line.as_bytes())?;
        out.push(b'\n')?;
    }
    Ok(())
}
