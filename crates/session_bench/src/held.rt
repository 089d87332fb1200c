//! Lets a replay buffer hold frames, and waits, so that the memory that it takes can be looked at from
//! outside.
//!
//! It prints what it holds once it has made so many bytes, of which all but the newest were
//! acknowledged, and ends when its input does.

use anyhow::{Context, Result};
use outside::{Read, Source, StdSource};
use replay_buffer::Replay;
use rs_wire::OutOfMemory;
use std::alloc::Global;
use std::env::Args;
use std::io::Print;

/// A frame, or the beginning of one.
const FRAME: &[u8] = &[0x5a; 1_000];

/// No row makes more bytes.
const MOST: u64 = 1_000_000_000_000;

/// What a buffer holds, in turn.
#[derive(Clone, Copy)]
pub struct Row {
    /// How many bytes may be held.
    hold: u64,
    /// How many bytes are held at the end, and in every second stretch before it.
    last: u64,
    /// How many bytes are held in the other stretches. Older ones are acknowledged.
    other: u64,
    /// How many bytes a frame has.
    length: u64,
    /// How many bytes are made.
    made: u64,
    /// In how many stretches they are made.
    stretches: u64,
}

/// What a short run holds.
const FEW: Row = Row {
    hold: 4_096,
    last: 2_000,
    other: 2_000,
    length: 100,
    made: 100_000,
    stretches: 1,
};

// The next word, which is a number.
fn next_number(words: &mut Args) -> Result<u64> {
    let word = words.next().context("a number of the row is missing")?;
    word.parse::<u64>()
        .context("a word of the row is no number")
}

impl Row {
    /// A row of six words, in the order of its fields.
    pub fn read(words: &mut Args) -> Result<Row> {
        Ok(Row {
            hold: next_number(words)?,
            last: next_number(words)?,
            other: next_number(words)?,
            length: next_number(words)?,
            made: next_number(words)?,
            stretches: next_number(words)?,
        })
    }

    // How many bytes are held once so many were made.
    fn held_at(self, end: u64) -> u64 {
        let newest = self.stretches.max(1) - 1;
        let stretch = end / (self.made / self.stretches.max(1)).max(1);
        if stretch.min(newest) % 2 == newest % 2 {
            self.last
        } else {
            self.other
        }
    }

    // A frame of the row.
    fn frame(self) -> &'static [u8] {
        let length = usize::try_from(self.length).unwrap_or(FRAME.len());
        &FRAME[..length.min(FRAME.len())]
    }
}

// Keeps a frame, and acknowledges what is held beyond so many bytes. A frame that can't be kept is
// passed over.
fn keep_one(replay: &mut Replay, frame: &[u8], held: u64) -> Result<(), OutOfMemory> {
    if frame.len() < 6 || frame.len() > FRAME.len() || replay.end() > MOST {
        return Ok(());
    }
    replay.reserve(1, frame.len())?;
    replay.keep(frame);
    let acknowledged = replay.end().saturating_sub(held);
    if replay.first() < acknowledged {
        replay.release(acknowledged);
    }
    Ok(())
}

// Makes the frames of a row.
fn make(alloc: Global, row: Row) -> Result<Replay, OutOfMemory> {
    let mut replay = Replay::new(alloc, row.hold)?;
    let frame = row.frame();
    for _ in 0..row.made {
        let end = replay.end();
        if end >= row.made {
            break;
        }
        keep_one(&mut replay, frame, row.held_at(end))?;
    }
    Ok(replay)
}

// Tells what is held, and what was in turn with that.
fn tell(rt: &impl Print, row: Row, replay: &Replay) -> Result<()> {
    let Row {
        hold,
        other,
        length,
        stretches,
        ..
    } = row;
    let end = replay.end();
    let held = end.saturating_sub(replay.first());
    println!(rt;
        "held {held} of {hold} bytes {length} made {end} other {other} stretches {stretches}"
    )?;
    Ok(())
}

/// A short run.
pub fn run(rt: &impl Print, alloc: Global) -> Result<()> {
    let replay = make(alloc, FEW)?;
    let told = tell(rt, FEW, &replay);
    drop(replay);
    told
}

/// Lets what the row says be held until the input ends.
pub fn hold(rt: &impl Print, alloc: Global, row: Row, input: &mut StdSource) -> Result<()> {
    let replay = make(alloc, row)?;
    let told = tell(rt, row, &replay);
    let mut buffer = [0; 1];
    // Whatever comes, it is over.
    let _over: Read = input.read(&mut buffer);
    drop(replay);
    told
}
