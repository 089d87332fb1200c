//! Sessions by rows of text: each list sets an end up, and each of its rows brings an event and says
//! what it is to answer. `docs/rows.md` has the grammar.
//!
//! Plays the files of the folder that a word names, or of the one that it is run in. Writes a line for each file, and
//! before it the first ten of its rows that differ. The status is 1 where one does.
#![tactic(auto)]

mod answers;
mod bytes;
mod calls;
mod end;
mod ends;
mod events;
mod lists;
mod play;
mod row;

use crate::play::play;
use anyhow::{Context, Result};
use std::process::ExitCode;
use std::{env, fs};

/// The files of rows.
const FILES: &[&str] = &[
    "client",
    "server",
    "streams",
    "fragments",
    "queues",
    "moments",
    "leases",
    "resumption",
];

// The text of a file of this folder.
fn read(rt: &HostRuntime, folder: &str, file: &str) -> Result<String> {
    let path = format!(in rt.alloc(); "{folder}/{file}.rows")?;
    fs::read_to_string(rt, path.as_str()).context("no such file")
}

// Plays the files of this folder. Answers whether no row differs.
fn play_all(rt: &HostRuntime, folder: &str) -> Result<bool> {
    let mut right = true;
    for &file in FILES {
        let text = read(rt, folder, file)?;
        right = play(rt, rt.alloc(), file, &text)? && right;
    }
    Ok(right)
}

fn main(rt: HostRuntime) -> Result<ExitCode> {
    let mut words = env::args(&rt).context("the words cannot be read")?;
    let folder = words.nth(1);
    if play_all(&rt, folder.as_deref().unwrap_or("."))? {
        Ok(ExitCode::SUCCESS)
    } else {
        Ok(ExitCode::FAILURE)
    }
}
