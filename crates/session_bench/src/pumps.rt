//! Times what two ends say to one another through their pumps, over a wire in memory and by one
//! thread: requests with their responses, and items of a stream.
//!
//! Timed, it prints nanoseconds an item at each end, of calls and turns, for items that cross one by
//! one, and for batches of which each crosses at once. Else it prints how many items crossed, in
//! short runs.

mod rounds;
mod wire;

use crate::pumps::rounds::{Run, Shape, Took, cross};
use anyhow::Result;
use std::alloc::Global;
use std::io;
use std::io::Print;
use std::sync::Wait;
use std::time::Clock;

/// A small item.
const SMALL: &[u8] = b"an item of bytes";

/// An item of 1 KiB.
const LARGE: &[u8] = &[0x5a; 1_024];

/// What crosses: the shape, an item, how many cross at once, and how many rounds are 300 items.
type Row = (Shape, &'static [u8], u32, u32);

const ROWS: &[Row] = &[
    (Shape::Response, SMALL, 1, 300),
    (Shape::Response, SMALL, 100, 3),
    (Shape::Response, LARGE, 1, 300),
    (Shape::Response, LARGE, 15, 20),
    (Shape::Stream, SMALL, 1, 300),
    (Shape::Stream, SMALL, 100, 3),
    (Shape::Stream, LARGE, 1, 300),
    (Shape::Stream, LARGE, 15, 20),
];

/// How many times 300 items cross.
const SHORT: &[u32] = &[1, 2];

/// The same where it is timed.
const TIMED: &[u32] = &[50, 500];

/// The sessions of each row: those that hold no frames, and those that do, for a resumption.
const RESUMES: &[bool] = &[false, true];

// Prints what crossed, and where it was timed how long an item took.
fn tell(rt: &impl Print, run: Run, took: Took, is_timed: bool) -> io::Result<()> {
    let items = run.rounds.saturating_mul(run.batch);
    let held = if run.resumes { " held" } else { "" };
    print!(rt;
        "{:?} bytes {} batch {} items {items}{held}",
        run.shape,
        run.item.len(),
        run.batch
    )?;
    if is_timed {
        let count = u128::from(items.max(1));
        print!(rt;
            " client {} server {}",
            took.client / count,
            took.server / count
        )?;
    }
    println!(rt; "")
}

// Lets the items of a row cross, so many times 300, and tells of it.
fn cross_row<R: Clock + Wait + Print>(
    rt: &R,
    alloc: Global,
    row: Row,
    times: u32,
    resumes: bool,
    is_timed: bool,
) -> Result<()> {
    let (shape, item, batch, rounds) = row;
    let run = Run {
        shape,
        item,
        batch,
        rounds: rounds.saturating_mul(times),
        resumes,
    };
    let took = cross(rt, alloc, run)?;
    Ok(tell(rt, run, took, is_timed)?)
}

/// Times what crosses, or else lets a little cross. Each row is once without resumption and then once
/// with it, so that a machine that changes its speed changes it for both.
pub fn run<R: Clock + Wait + Print>(rt: &R, alloc: Global, is_timed: bool) -> Result<()> {
    let lengths = if is_timed { TIMED } else { SHORT };
    for times in lengths {
        for row in ROWS {
            for resumes in RESUMES {
                cross_row(rt, alloc, *row, *times, *resumes, is_timed)?;
            }
        }
    }
    Ok(())
}
