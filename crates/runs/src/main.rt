//! Plays runs of `rsocket` over memory, read from files, and compares how each ends with what its
//! text says.
//!
//! For each file it prints how many runs there are and how many differ, after the first ten of those
//! with what they gave. The status is 1 where one differs, or a file is out of form. With a word, as
//! `runs data`, the files are those of that folder.
//!
//! A file `NAME.runs` begins with comments. A run in it is a line of its name, one of the status that
//! it ends with and its words, its input, a line `--`, and what it writes:
//!
//! ```text
//! == an empty script makes two lines
//! 0 cable
//! --
//! client made 0 0 handled 0 0
//! server made 0 0 handled 0 0
//! ```
//!
//! In a run of `call` or `serve` the lines of the input describe its net: `link`, then maybe `ends` (it
//! ends after its bytes, and else it lulls), `most N` (bytes of one call), `fails N` (the call that
//! fails), and the bytes that are read of it; `dials N` (the call of the net that fails); `clock M M`
//! (the moments); `given` (the bytes that the links are to be given). Such a run is played twice, also
//! over tapes that show nothing.
//!
//! A run of `cable --threads` has the two lines of counts. It is played twenty times over tapes that show
//! nothing, and once over tapes that show their entries, whose report begins so.
//!
//! A line or a word that begins with `0x` is the bytes of its digits, without a line feed; `0x`
//! alone is no byte. A line that ends with `\` goes on in the next one.
#![tactic(auto)]

mod bytes;
mod play;
mod run;
mod tally;
mod wires;

use crate::play::play_file;
use anyhow::{Context, Result};
use std::env;
use std::process::ExitCode;

/// The files of runs.
const FILES: [&str; 11] = [
    "words", "script", "settings", "stream", "fragment", "moments", "resume", "frames", "call",
    "threads", "serve",
];

fn main(rt: HostRuntime) -> Result<ExitCode> {
    let mut words = env::args(&rt).context("the words cannot be read")?;
    let folder = words.nth(1);
    let folder = folder.as_deref().unwrap_or(".");
    let mut right = true;
    for file in FILES {
        right = play_file(&rt, folder, file)? && right;
    }
    if right {
        Ok(ExitCode::SUCCESS)
    } else {
        Ok(ExitCode::FAILURE)
    }
}
