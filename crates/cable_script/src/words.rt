//! The words of a line.

ghost use Rattle.std.specs.Prelude.{◌≡◌, ◌≤◌, ◌++◌, ◌∷◌, ℕ, List, codes, IfNone, IfOk, IfSome, decimal};
ghost use Rattle.rs_wire.specs.declared.call.Call.{Call as Meant};
ghost use Rattle.cable_script.specs.declared.TheConstants.{LAST_TICK, MOST_ITEM};
ghost use Rattle.cable_script.specs.declared.line.Line.{Line as Played};
ghost use Rattle.cable_script.specs.Spoken.{numbered, side_word};
ghost use Rattle.cable_script.specs.Line.{IsAmount, IsLine, IsSayable, call_words, many_words, text_of};
ghost use Rattle.cable_script.specs.Words.{AreRight, line_of, text_of_words};

mod asked;
mod calls;
mod cuts;
mod forms;
mod payload;
mod requests;

use crate::line::Line;
use crate::spoken::side_word as side_text;
use crate::words::asked::Asked;
use crate::words::calls::asked_of;
use crate::words::cuts::{after, amount_and};
use crate::words::forms::{amount_after, amount_and_after};
use crate::{LAST_TICK, MOST_ITEM};
use plain_text::read_number;
use rs_wire::{Amount, OutOfMemory, Side};
use std::alloc::Global;

/// The words of a line, where they are those of a line.
#[derive(Clone, Copy)]
pub(crate) enum Words<'a> {
    Ask(Side, Asked<'a>),
    Many {
        side: Side,
        stream: u32,
        count: Amount,
        size: u32,
    },
    Up(Amount),
    Down(Amount),
    Drain,
    Cut,
    Open,
    Drop,
    Late(Amount),
    Tick(u64),
}

impl Words<'_> {
    /// The line of these words.
    pub(crate) fn line(&self, alloc: Global) -> Result<Line, OutOfMemory>
        requires { AreRight self.now }
        ensures { IfOk result (λ line. line ≡ line_of self.now) }
    {
        match self {
            Words::Ask(side, asked) => Ok(Line::Ask {
                side: *side,
                call: asked.call(alloc)?,
            }),
            Words::Many {
                side,
                stream,
                count,
                size,
            } => Ok(Line::Many {
                side: *side,
                stream: *stream,
                count: *count,
                size: *size,
            }),
            Words::Up(most) => Ok(Line::Up { most: *most }),
            Words::Down(most) => Ok(Line::Down { most: *most }),
            Words::Drain => Ok(Line::Drain),
            Words::Cut => Ok(Line::Cut),
            Words::Open => Ok(Line::Open),
            Words::Drop => Ok(Line::Drop),
            Words::Late(most) => Ok(Line::Late { most: *most }),
            Words::Tick(now) => Ok(Line::Tick { now: *now }),
        }
    }
}

// The size of an item that the word is the decimal text of.
fn size_of(word: &[u8]) -> Option<u32>
    ensures some { IfSome result (λ n. (word.now ≡ decimal n) × (n ≤ MOST_ITEM)) }
    ensures none { IfNone result ((n : ℕ) → n ≤ MOST_ITEM → ¬ (word.now ≡ decimal n)) }
{
    match read_number(word, 0, u64::from(MOST_ITEM)) {
        Some(n) => Some(n as u32),
        None => None,
    }
}

// `N M`: how many items, and their size.
fn counts_of(word: &[u8]) -> Option<(Amount, u32)>
    ensures some { IfSome result (λ r. (word.now ≡ numbered (decimal r.0) r.1) ×
        IsAmount r.0 × (r.1 ≤ MOST_ITEM)) }
    ensures none { IfNone result ((count size : ℕ) → IsAmount count → size ≤ MOST_ITEM →
        ¬ (word.now ≡ numbered (decimal count) size)) }
{
    let Some((count, rest)) = amount_and(word) else {
        return None;
    };
    match size_of(rest) {
        Some(size) => Some((count, size)),
        None => None,
    }
}

// `SIDE many S N M`, after the word of the side.
fn many_of(side: Side, word: &[u8]) -> Option<Words<'_>>
    ensures some { IfSome result (λ w. (side_word side ++ (32 ∷ word.now) ≡ text_of_words w) ×
        AreRight w) }
    ensures none { IfNone result ((stream count size : ℕ) → IsAmount stream → IsAmount count →
        size ≤ MOST_ITEM → ¬ (word.now ≡ many_words stream count size)) }
{
    let Some((stream, rest)) = amount_and_after(word, "many") else {
        return None;
    };
    match counts_of(rest) {
        Some((count, size)) => Some(Words::Many {
            side,
            stream: stream.get(),
            count,
            size,
        }),
        None => None,
    }
}

// What one end is asked, after the word of the side.
fn asked_at(side: Side, word: &[u8]) -> Option<Words<'_>>
    ensures some { IfSome result (λ w. (side_word side ++ (32 ∷ word.now) ≡ text_of_words w) ×
        AreRight w) }
    ensures none { IfNone result ((c : Meant) → IsSayable c → ¬ (word.now ≡ call_words c)) }
{
    match asked_of(word) {
        Some(asked) => Some(Words::Ask(side, asked)),
        None => None,
    }
}

// A line of one end.
fn line_at(side: Side, line: &[u8]) -> Option<Words<'_>>
    ensures some { IfSome result (λ w. (line.now ≡ text_of_words w) × AreRight w) }
    ensures ask { IfNone result ((c : Meant) → IsSayable c →
        ¬ (line.now ≡ text_of (Line.Ask side c))) }
    ensures many { IfNone result ((stream count size : ℕ) → IsAmount stream → IsAmount count →
        size ≤ MOST_ITEM → ¬ (line.now ≡ text_of (Line.Many side stream count size))) }
{
    let word = after(line, side_text(side))?;
    if let Some(words) = asked_at(side, word) {
        return Some(words);
    }
    many_of(side, word)
}

// `up N`, `down N` or `late N`.
fn carrying_of(line: &[u8]) -> Option<Words<'_>>
    ensures some { IfSome result (λ w. (line.now ≡ text_of_words w) × AreRight w) }
    ensures up { IfNone result ((n : ℕ) → IsAmount n → ¬ (line.now ≡ text_of (Line.Up n))) }
    ensures down { IfNone result ((n : ℕ) → IsAmount n → ¬ (line.now ≡ text_of (Line.Down n))) }
    ensures late { IfNone result ((n : ℕ) → IsAmount n → ¬ (line.now ≡ text_of (Line.Late n))) }
{
    if let Some(most) = amount_after(line, "up") {
        return Some(Words::Up(most));
    }
    if let Some(most) = amount_after(line, "down") {
        return Some(Words::Down(most));
    }
    match amount_after(line, "late") {
        Some(most) => Some(Words::Late(most)),
        None => None,
    }
}

// `tick T`.
fn tick_of(line: &[u8]) -> Option<Words<'_>>
    ensures some { IfSome result (λ w. (line.now ≡ text_of_words w) × AreRight w) }
    ensures none { IfNone result ((n : ℕ) → n ≤ LAST_TICK →
        ¬ (line.now ≡ text_of (Line.Tick n))) }
{
    let word = after(line, "tick")?;
    match read_number(word, 0, LAST_TICK) {
        Some(now) => Some(Words::Tick(now)),
        None => None,
    }
}

// A line of one word.
fn single_word_of(line: &[u8]) -> Option<Words<'_>>
    ensures some { IfSome result (λ w. (line.now ≡ text_of_words w) × AreRight w) }
    ensures none { IfNone result ((¬ (line.now ≡ text_of Line.Drain)) ×
        (¬ (line.now ≡ text_of Line.Cut)) × (¬ (line.now ≡ text_of Line.Open)) ×
        (¬ (line.now ≡ text_of Line.Drop))) }
{
    if line == b"drain".as_slice() {
        return Some(Words::Drain);
    }
    if line == b"cut".as_slice() {
        return Some(Words::Cut);
    }
    if line == b"open".as_slice() {
        return Some(Words::Open);
    }
    if line == b"drop".as_slice() {
        return Some(Words::Drop);
    }
    None
}

/// The words of a line. `None` exactly where the text is that of no line.
pub(crate) fn words_of(line: &[u8]) -> Option<Words<'_>>
    ensures some { IfSome result (λ w. (line.now ≡ text_of_words w) × AreRight w) }
    ensures none { IfNone result ((l : Played) → IsLine l → ¬ (line.now ≡ text_of l)) }
{
    if let Some(words) = line_at(Side::Client, line) {
        return Some(words);
    }
    if let Some(words) = line_at(Side::Server, line) {
        return Some(words);
    }
    if let Some(words) = carrying_of(line) {
        return Some(words);
    }
    if let Some(words) = tick_of(line) {
        return Some(words);
    }
    single_word_of(line)
}
