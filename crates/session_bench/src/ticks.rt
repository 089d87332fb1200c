//! Times ticks that find nothing due, of a session that nobody shares and through a connection, beside a
//! look through one.
//!
//! Timed, it prints tenths of a nanosecond a step of each kind. Else it makes a few and prints how many
//! ticks found nothing due, and how many looks found the session open.

ghost use Rattle.std.specs.Prelude.{◌≡◌};
ghost use Rattle.conn_lock.specs.Callers.{all_parts};

use crate::calls::{open_alone, open_shared};
use crate::sessions::{close, new_connection, new_session};
use crate::times::{ROUNDS, median, now, tenths_since};
use anyhow::Result;
use conn::{Caller, Connection};
use rs_wire::Side;
use session_core::Session;
use std::alloc::Global;
use std::io::Print;
use std::sync::Wait;
use std::time::Clock;
use tape::Blank;

/// How many steps are made in a round.
const TIMES: u32 = 50_000;

/// How many steps are made where nothing is timed.
const FEW: u32 = 100;

/// The moment of each tick, in milliseconds: before the first KEEPALIVE is due.
const NOW: u64 = 1;

/// What some steps took.
#[derive(Clone, Copy)]
struct Steps {
    /// Tenths of a nanosecond a step.
    tenths: u64,
    /// How many steps found what they were to find.
    count: u64,
}

// Ticks a session that nobody shares, and answers how many ticks found nothing due.
fn tick_alone(session: &mut Session<Blank>, times: u32) -> u64 {
    let mut quiet: u64 = 0;
    for _ in 0..times {
        if session.tick_if_quiet(0, NOW) {
            quiet = quiet.saturating_add(1);
        }
    }
    quiet
}

// Ticks through a connection, and answers how many ticks found nothing due.
fn tick_shared<R: Wait>(
    rt: &R,
    connection: &Connection<Blank>,
    caller: Caller<Blank>,
    times: u32,
) -> (Caller<Blank>, u64)
    requires of { caller.of ≡ connection.now }
    requires whole { caller.parts ≡ all_parts }
    ensures of { result.0.of ≡ connection.now }
    ensures whole { result.0.parts ≡ all_parts }
{
    let mut caller = caller;
    let mut quiet: u64 = 0;
    for _ in 0..times {
        if connection.tick_if_quiet(rt, &mut caller, NOW) {
            quiet = quiet.saturating_add(1);
        }
    }
    (caller, quiet)
}

// Looks through a connection, and answers how many looks found the session open.
fn look_shared<R: Wait>(
    rt: &R,
    connection: &Connection<Blank>,
    caller: Caller<Blank>,
    times: u32,
) -> (Caller<Blank>, u64)
    requires of { caller.of ≡ connection.now }
    requires whole { caller.parts ≡ all_parts }
    ensures of { result.0.of ≡ connection.now }
    ensures whole { result.0.parts ≡ all_parts }
{
    let mut caller = caller;
    let mut open: u64 = 0;
    for _ in 0..times {
        if connection.look(rt, &mut caller).cause.is_none() {
            open = open.saturating_add(1);
        }
    }
    (caller, open)
}

// Ticks of a client that has opened its connection, and nobody shares.
fn time_alone<R: Clock>(rt: &R, alloc: Global, times: u32) -> Result<Steps> {
    let mut session = new_session(alloc, Side::Client, false)?;
    open_alone(&mut session);
    let start = now(rt);
    let count = tick_alone(&mut session, times);
    let tenths = tenths_since(rt, start, times);
    session.into_tape();
    Ok(Steps { tenths, count })
}

// The same of one that its callers share, by its one caller.
fn time_shared<R: Wait + Clock>(rt: &R, alloc: Global, times: u32) -> Result<Steps> {
    let (connection, mut caller) = new_connection(alloc, Side::Client, false)?;
    open_shared(rt, &connection, &mut caller);
    let start = now(rt);
    let (caller, count) = tick_shared(rt, &connection, caller, times);
    let tenths = tenths_since(rt, start, times);
    close(connection, caller);
    Ok(Steps { tenths, count })
}

// Looks at one that its callers share, by its one caller.
fn time_looks<R: Wait + Clock>(rt: &R, alloc: Global, times: u32) -> Result<Steps> {
    let (connection, mut caller) = new_connection(alloc, Side::Client, false)?;
    open_shared(rt, &connection, &mut caller);
    let start = now(rt);
    let (caller, count) = look_shared(rt, &connection, caller, times);
    let tenths = tenths_since(rt, start, times);
    close(connection, caller);
    Ok(Steps { tenths, count })
}

// Prints tenths of a nanosecond, the median of all rounds of each kind, which are timed in turn.
fn compare<R: Wait + Clock + Print>(rt: &R, alloc: Global) -> Result<()> {
    let mut alone = [0; ROUNDS];
    let mut shared = [0; ROUNDS];
    let mut looks = [0; ROUNDS];
    for round in 0..ROUNDS {
        alone[round] = time_alone(rt, alloc, TIMES)?.tenths;
        shared[round] = time_shared(rt, alloc, TIMES)?.tenths;
        looks[round] = time_looks(rt, alloc, TIMES)?.tenths;
    }
    let (alone, shared, look) = (median(alone), median(shared), median(looks));
    println!(rt; "tick {alone} shared {shared} look {look}")?;
    Ok(())
}

// Makes a few, and prints how many ticks found nothing due, and how many looks the session open.
fn count<R: Wait + Clock + Print>(rt: &R, alloc: Global) -> Result<()> {
    let quiet = time_alone(rt, alloc, FEW)?.count;
    let shared = time_shared(rt, alloc, FEW)?.count;
    let open = time_looks(rt, alloc, FEW)?.count;
    println!(rt; "quiet {quiet} shared {shared} open {open}")?;
    Ok(())
}

/// Times ticks and looks, or else makes a few.
pub fn run<R: Wait + Clock + Print>(rt: &R, alloc: Global, is_timed: bool) -> Result<()> {
    if is_timed {
        compare(rt, alloc)
    } else {
        count(rt, alloc)
    }
}
