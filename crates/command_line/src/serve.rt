//! The command `serve`: an address, how many connections are served, and options.

ghost use Rattle.std.specs.Prelude.{◌≡◌, [], IfOk, None, OnOk, Some, Err, codes, map};
ghost use Rattle.clap.specs.Words.{fault_of, first_of, found_of, matches_of, rows_of};
ghost use Rattle.command_line.specs.Serves.{IsServeOf, number_if, serve_app};
ghost use Rattle.command_line.specs.declared.serve_task.ServeTask.{ServeTask};

use crate::arguments::{Argument, Form, is_on, number, number_or, operand_value, value};
use crate::fault::WordsFault;
use crate::parse::parse;
use crate::serve_task::ServeTask;
use clap::ArgMatches;
use plain_text::read_number;
use rs_wire::{Amount, Blob};
use std::alloc::Global;

/// The most connections that are served.
const MOST_CONNECTIONS: u64 = 64;

/// The most workers of a connection.
const MOST_WORKERS: u64 = 16;

/// The most requests that a lease lets in (RSocket 1.0, "LEASE Frame").
const MOST_LEASE: u64 = 2_147_483_647;

/// The arguments of the command.
const ARGUMENTS: [Argument; 6] = [
    Argument {
        form: Form::Operand,
        name: "address",
    },
    Argument {
        form: Form::Option,
        name: "connections",
    },
    Argument {
        form: Form::Option,
        name: "workers",
    },
    Argument {
        form: Form::Option,
        name: "lease",
    },
    Argument {
        form: Form::Flag,
        name: "resume",
    },
    Argument {
        form: Form::Flag,
        name: "ws",
    },
];

// How many requests a lease lets in, where leases are granted.
fn lease(matches: &ArgMatches) -> Result<Option<Amount>, WordsFault>
    ensures is { IfOk result (λ n. number_if 1 2147483647
        (first_of (codes "lease") (rows_of (found_of matches.now))) ≡ Some n) }
    ensures usage { result ≡ Err WordsFault.Usage → number_if 1 2147483647
        (first_of (codes "lease") (rows_of (found_of matches.now))) ≡ None }
{
    let Some(word) = value(matches, "lease") else {
        return Ok(None);
    };
    let Some(count) = read_number(word.as_bytes(), 1, MOST_LEASE) else {
        return Err(WordsFault::Usage);
    };
    match Amount::of(count as u32) {
        Some(count) => Ok(Some(count)),
        None => unreachable!(),
    }
}

// What the values ask for.
fn read(alloc: Global, matches: &ArgMatches) -> Result<ServeTask, WordsFault>
    ensures is { IfOk result (IsServeOf (rows_of (found_of matches.now))) }
    ensures usage { result ≡ Err WordsFault.Usage → (t : ServeTask) →
        ¬ (IsServeOf (rows_of (found_of matches.now)) t) }
{
    let address = operand_value(matches, "address")?;
    let connections = number(matches, "connections", 1, MOST_CONNECTIONS)? as u32;
    let workers = number_or(matches, "workers", 1, 1, MOST_WORKERS)? as u32;
    let lease = lease(matches)?;
    let address = Blob::from_slice(alloc, address.as_bytes())?;
    Ok(ServeTask {
        address,
        connections,
        workers,
        lease,
        resume: is_on(matches, "resume"),
        ws: is_on(matches, "ws"),
    })
}

/// Reads the words of `serve`, the first of which is its name.
pub fn serve<'a>(alloc: Global, words: &'a [&'a str]) -> Result<ServeTask, WordsFault>
    ensures taken { OnOk result (fault_of serve_app (map (λ w. w.now) words.entry.now) ≡ []) }
    ensures read { IfOk result
        (IsServeOf (matches_of serve_app (map (λ w. w.now) words.entry.now))) }
    ensures usage { result ≡ Err WordsFault.Usage → (t : ServeTask) →
        fault_of serve_app (map (λ w. w.now) words.entry.now) ≡ [] →
        ¬ (IsServeOf (matches_of serve_app (map (λ w. w.now) words.entry.now)) t) }
{
    let matches = parse(alloc, "serve", &ARGUMENTS, words)?;
    let task = read(alloc, &matches);
    drop(matches);
    task
}
