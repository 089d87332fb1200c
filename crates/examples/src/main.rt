//! The library in use: three short programs, a module each. [`stream`] and [`resume`] are two ends of
//! a session in one process; [`handler`] is a handler of a program's own. The first to read is the
//! program `hello` beside this one.
//!
//! `examples stream` runs one of them, and with no word all three run, one after another.
#![tactic(auto)]

mod ends;
mod handler;
mod resume;
mod stream;

use anyhow::{Context, Result};
use std::alloc::Global;
use std::env;
use std::io::Print;
use std::process::ExitCode;

/// The status of a run whose words name no example.
const USAGE: u8 = 2;

/// An example.
#[derive(Clone, Copy)]
enum Example {
    Stream,
    Resume,
    Handler,
}

/// In the order in which they are run.
const ALL: [Example; 3] = [Example::Stream, Example::Resume, Example::Handler];

impl Example {
    fn named(name: &str) -> Option<Example> {
        match name {
            "stream" => Some(Example::Stream),
            "resume" => Some(Example::Resume),
            "handler" => Some(Example::Handler),
            _ => None,
        }
    }

    fn run(self, rt: &impl Print, alloc: Global) -> Result<()> {
        match self {
            Example::Stream => stream::run(rt, alloc),
            Example::Resume => resume::run(rt, alloc),
            Example::Handler => handler::run(rt, alloc),
        }
    }
}

fn main(rt: HostRuntime) -> Result<ExitCode> {
    let alloc = rt.alloc();
    let mut words = env::args(&rt).context("the words cannot be read")?;
    let Some(name) = words.nth(1) else {
        for example in ALL {
            example.run(&rt, alloc)?;
        }
        return Ok(ExitCode::SUCCESS);
    };
    let Some(example) = Example::named(&name) else {
        eprintln!(rt; "examples: no example {name:?}, only stream, resume and handler")?;
        return Ok(ExitCode::from(USAGE));
    };
    if let Some(word) = words.next() {
        eprintln!(rt; "examples: a word too many, {word:?}")?;
        return Ok(ExitCode::from(USAGE));
    }
    example.run(&rt, alloc)?;
    Ok(ExitCode::SUCCESS)
}
