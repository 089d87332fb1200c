//! Times a call through a connection beside a step of a session that nobody shares.
//!
//! Timed, it prints nanoseconds a step of each kind. Else it makes a few and prints how many entries
//! the sessions have.

ghost use Rattle.std.specs.Prelude.{◌≡◌};
ghost use Rattle.conn_lock.specs.Callers.{all_parts};
ghost use Rattle.rs_wire.specs.Calls.{CanBeAsked};
ghost use Rattle.rs_wire.specs.declared.words.Side.TheVariants.{Client};

use crate::sessions::{close, new_connection, new_session};
use crate::times::{ROUNDS, Timed, median, nanos_since, now};
use anyhow::Result;
use conn::{Caller, Connection};
use rs_wire::{Blob, Call, Side};
use session_core::Session;
use std::alloc::Global;
use std::io::Print;
use std::sync::Wait;
use std::time::Clock;
use tape::{Blank, Event, Tape};

/// How many steps are made in a round.
const TIMES: u32 = 50_000;

/// How many steps are made where nothing is timed.
const FEW: u32 = 100;

/// Opens the connection of a client that nobody shares.
pub fn open_alone(session: &mut Session<Blank>)
    requires side { session.old.settings.side ≡ Client }
{
    drop(session.bring(0, Event::opening()));
}

/// Opens one that its callers share.
pub fn open_shared<R: Wait>(rt: &R, connection: &Connection<Blank>, caller: &mut Caller<Blank>)
    requires of { caller.old.of ≡ connection.now }
    requires side { connection.now.settings.side ≡ Client }
    ensures of { caller.new.of ≡ connection.now }
    ensures parts { caller.new.parts ≡ caller.old.parts }
{
    drop(connection.bring(rt, caller, Event::opening()));
}

// Asks a session that nobody shares.
fn ask_often(session: &mut Session<Blank>, call: &Call, times: u32)
    requires { CanBeAsked call.now }
{
    for _ in 0..times {
        if let Some(answer) = session.ask(0, call) {
            drop(answer);
        }
    }
}

// Asks through a connection.
fn call_often<R: Wait>(
    rt: &R,
    connection: &Connection<Blank>,
    caller: Caller<Blank>,
    call: &Call,
    times: u32,
) -> Caller<Blank>
    requires of { caller.of ≡ connection.now }
    requires whole { caller.parts ≡ all_parts }
    requires askable { CanBeAsked call.now }
    ensures of { result.of ≡ connection.now }
    ensures whole { result.parts ≡ all_parts }
{
    let mut caller = caller;
    for _ in 0..times {
        drop(connection.call(rt, &mut caller, call));
    }
    caller
}

// Steps of a client that has opened its connection, and nobody shares.
fn time_steps<R: Clock>(rt: &R, alloc: Global, call: &Call, times: u32) -> Result<Timed>
    requires { CanBeAsked call.now }
{
    let mut session = new_session(alloc, Side::Client, false)?;
    open_alone(&mut session);
    let start = now(rt);
    ask_often(&mut session, call, times);
    Ok(Timed {
        nanos: nanos_since(rt, start, times),
        count: session.into_tape().count(),
    })
}

// The same of one that its callers share, by its one caller.
fn time_calls<R: Wait + Clock>(rt: &R, alloc: Global, call: &Call, times: u32) -> Result<Timed>
    requires { CanBeAsked call.now }
{
    let (connection, mut caller) = new_connection(alloc, Side::Client, false)?;
    open_shared(rt, &connection, &mut caller);
    let start = now(rt);
    let caller = call_often(rt, &connection, caller, call, times);
    let nanos = nanos_since(rt, start, times);
    let count = close(connection, caller);
    Ok(Timed { nanos, count })
}

// Prints nanoseconds, the median of all rounds of each kind, which are timed in turn.
fn compare<R: Wait + Clock + Print>(rt: &R, alloc: Global, call: &Call) -> Result<()>
    requires { CanBeAsked call.now }
{
    let mut bare = [0; ROUNDS];
    let mut calls = [0; ROUNDS];
    for round in 0..ROUNDS {
        bare[round] = time_steps(rt, alloc, call, TIMES)?.nanos;
        calls[round] = time_calls(rt, alloc, call, TIMES)?.nanos;
    }
    println!(rt; "bare {} call {}", median(bare), median(calls))?;
    Ok(())
}

// Makes a few calls, and prints how many entries the sessions have.
fn count<R: Wait + Clock + Print>(rt: &R, alloc: Global, call: &Call) -> Result<()>
    requires { CanBeAsked call.now }
{
    let bare = time_steps(rt, alloc, call, FEW)?.count;
    let calls = time_calls(rt, alloc, call, FEW)?.count;
    println!(rt; "bare {bare} call {calls}")?;
    Ok(())
}

// What is called each time.
fn compare_or_count<R: Wait + Clock + Print>(
    rt: &R,
    alloc: Global,
    call: &Call,
    is_timed: bool,
) -> Result<()>
    requires { CanBeAsked call.now }
{
    if is_timed {
        compare(rt, alloc, call)
    } else {
        count(rt, alloc, call)
    }
}

/// Times calls, or else makes a few.
pub fn run<R: Wait + Clock + Print>(rt: &R, alloc: Global, is_timed: bool) -> Result<()> {
    let call = Call::fire_and_forget(Blob::from_slice(alloc, b"hi")?);
    let compared = compare_or_count(rt, alloc, &call, is_timed);
    drop(call);
    compared
}
