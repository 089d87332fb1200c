//! Times turns of a lock, calls and ticks through a connection, and what two ends say to one another
//! through their pumps, over a wire in memory and over TCP on the loopback.
//!
//! The first word says what: `lock`, `conn`, `tick`, `pump` or `edge`. With a word after it, as `times`,
//! what is printed are nanoseconds, for `tick` tenths of them; with none it is what a short run leaves,
//! which is always the same. With no word at all there is a short run of each.
//!
//! `held` with six numbers lets a replay buffer hold what they say, until the input ends.
#![tactic(auto)]

mod asks;
mod calls;
mod edges;
mod end;
mod held;
mod locks;
mod pumps;
mod sessions;
mod ticks;
mod times;

use anyhow::{Context, Result};
use outside::StdSource;
use std::alloc::Global;
use std::env;
use std::io::Print;
use std::net::{Net, TcpListener, TcpStream};
use std::process::ExitCode;
use std::sync::Wait;
use std::thread::Threads;
use std::time::{Clock, CpuClock};

/// The status of a run whose first word names nothing to time.
const USAGE: u8 = 2;

/// What is timed.
#[derive(Clone, Copy)]
enum Bench {
    Lock,
    Conn,
    Tick,
    Pump,
    Edge,
}

/// In the order in which they are run.
const ALL: [Bench; 5] = [
    Bench::Lock,
    Bench::Conn,
    Bench::Tick,
    Bench::Pump,
    Bench::Edge,
];

impl Bench {
    fn named(name: &str) -> Option<Bench> {
        match name {
            "lock" => Some(Bench::Lock),
            "conn" => Some(Bench::Conn),
            "tick" => Some(Bench::Tick),
            "pump" => Some(Bench::Pump),
            "edge" => Some(Bench::Edge),
            _ => None,
        }
    }

    fn run<R>(self, rt: R, alloc: Global, is_timed: bool) -> Result<()>
    where
        R: Net<Listener = TcpListener, Stream = TcpStream>
            + Threads
            + Wait
            + Clock
            + CpuClock
            + Print
            + Send
            + Sync
            + Copy
            + Drop
            + 'static,
    {
        match self {
            Bench::Lock => locks::run(&rt, alloc, is_timed),
            Bench::Conn => calls::run(&rt, alloc, is_timed),
            Bench::Tick => ticks::run(&rt, alloc, is_timed),
            Bench::Pump => pumps::run(&rt, alloc, is_timed),
            Bench::Edge => edges::run(rt, alloc, is_timed),
        }
    }
}

fn main(rt: HostRuntime) -> Result<ExitCode> {
    let alloc = rt.alloc();
    let mut words = env::args(&rt).context("the words cannot be read")?;
    let Some(name) = words.nth(1) else {
        for bench in ALL {
            bench.run(rt, alloc, false)?;
        }
        held::run(&rt, alloc)?;
        return Ok(ExitCode::SUCCESS);
    };
    if name.as_str() == "held" {
        let row = held::Row::read(&mut words)?;
        held::hold(&rt, alloc, row, &mut StdSource::new(rt.stdin()))?;
        return Ok(ExitCode::SUCCESS);
    }
    let Some(bench) = Bench::named(&name) else {
        eprintln!(rt; "session_bench: cannot time {name:?}, only lock, conn, tick, pump and edge")?;
        return Ok(ExitCode::from(USAGE));
    };
    bench.run(rt, alloc, words.next().is_some())?;
    Ok(ExitCode::SUCCESS)
}
