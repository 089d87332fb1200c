//! Plays the runs of a file.

use crate::run::Run;
use crate::tally::Tally;
use anyhow::{Context, Result};
use std::alloc::Global;
use std::fs;
use std::io::Print;
use std::rt::Files;
use std::sync::Wait;
use std::thread::Threads;

// The run of this name. Where its text is out of form, its name is printed.
fn read_run(rt: &impl Print, alloc: Global, name: &str, text: &str) -> Result<Run> {
    match Run::read(alloc, text) {
        Ok(run) => Ok(run),
        Err(error) => {
            println!(rt; "out of form: {name}")?;
            Err(error)
        }
    }
}

/// Plays the runs of a file, and answers whether none differs.
pub fn play_file<R: Files + AllocGlobal + Print + Threads + Wait + Sync>(
    rt: &R,
    folder: &str,
    file: &str,
) -> Result<bool> {
    let alloc = rt.alloc();
    let path = format!(in alloc; "{folder}/{file}.runs")?;
    let text = fs::read_to_string(rt, path.as_str()).context("a file of runs cannot be read")?;
    let mut tally = Tally::new();
    for part in text.split("\n== ").skip(1) {
        let name = part.lines().next().unwrap_or("");
        let run = read_run(rt, alloc, name, part)?;
        let end = run.play(rt, alloc)?;
        tally.add(rt, name, run.is_met(&end), &end)?;
        for _ in 0..run.blank_times() {
            let blank = run.play_blank(rt, alloc)?;
            tally.add(rt, name, run.is_met_over_blank(&blank), &blank)?;
        }
    }
    Ok(tally.close(rt, file)?)
}
