//! Words that say numbers, bytes, messages and frames.

use anyhow::{Context, Result, bail};
use frame_text::read_line;
use plain_text::{is_hex_word, read_hex, read_number};
use rs_frame::Frame;
use rs_wire::{Amount, Blob, Message};
use std::alloc::Global;

/// How many copies of a byte a word says at most: more than the largest message has, 16,000,000.
const MOST_COPIES: u64 = 20_000_000;

/// A number.
pub fn number(word: &str) -> Result<u64> {
    read_number(word.as_bytes(), 0, u64::MAX).context("no number")
}

/// A number of 32 bits.
pub fn number_32(word: &str) -> Result<u32> {
    u32::try_from(number(word)?).context("no number of 32 bits")
}

/// An amount, from 1 to 2,147,483,647.
pub fn amount(word: &str) -> Result<Amount> {
    Amount::of(number_32(word)?).context("no amount")
}

// How many copies a word says.
fn copies(word: &str) -> Result<u64> {
    let count = number(word)?;
    if count > MOST_COPIES {
        bail!("too many copies");
    }
    Ok(count)
}

// Bytes by their digits, `-` for none.
fn digits(alloc: Global, word: &str) -> Result<Blob> {
    if !is_hex_word(word.as_bytes(), b'-') {
        bail!("no bytes");
    }
    Ok(read_hex(alloc, word.as_bytes(), b'-')?)
}

// The first byte of these digits.
fn first_byte(alloc: Global, word: &str) -> Result<u8> {
    let bytes = digits(alloc, word)?;
    let first = bytes.as_slice().first().copied();
    drop(bytes);
    first.context("no byte")
}

// So many copies of the byte of these digits.
fn copied(alloc: Global, once: &str, count: &str) -> Result<Blob> {
    let byte = first_byte(alloc, once)?;
    let count = copies(count)?;
    Ok(Blob::from_vec(vec![in alloc; byte; count as usize]?))
}

/// A part: bytes by their digits, `-` for none, or `68*100` for a hundred of the byte 0x68.
pub fn part(alloc: Global, word: &str) -> Result<Blob> {
    match word.split_once('*') {
        Some((once, count)) => copied(alloc, once, count),
        None => digits(alloc, word),
    }
}

/// A message: the part of its content, or those of its metadata and its content with `:` between.
pub fn message(alloc: Global, word: &str) -> Result<Message> {
    let (metadata, content) = match word.split_once(':') {
        Some((metadata, content)) => (Some(part(alloc, metadata)?), content),
        None => (None, word),
    };
    match part(alloc, content) {
        Ok(content) => Ok(Message { metadata, content }),
        Err(error) => {
            drop(metadata);
            Err(error)
        }
    }
}

// Appends a word of the line of a frame, with `68*3` as `686868`.
fn push_word(line: &mut Vec<u8>, word: &str) -> Result<()> {
    let (once, count) = match word.split_once('*') {
        Some((once, count)) => (once, copies(count)?),
        None => (word, 1),
    };
    for _ in 0..count {
        line.extend_from_slice(once.as_bytes())?;
    }
    Ok(())
}

// Appends the words of the line of a frame, with a space between two.
fn push_words(line: &mut Vec<u8>, words: &[&str]) -> Result<()> {
    for (index, word) in words.iter().enumerate() {
        if index > 0 {
            line.push(b' ')?;
        }
        push_word(line, word)?;
    }
    Ok(())
}

/// The frame of a line, given as its words, in which `68*100` is a hundred of the byte 0x68.
pub fn frame(alloc: Global, words: &[&str]) -> Result<Frame> {
    let mut line = Vec::new(alloc);
    push_words(&mut line, words)?;
    Ok(read_line(alloc, &line)?)
}
