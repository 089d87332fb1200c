//! The command `call`: an address, what is called, and options.

ghost use Rattle.std.specs.Prelude.{◌≡◌, ◌≤◌, ◌+◌, ◌↔◌, [], IfOk, IfSome, None, OnOk, Some, Err, codes, length, map, true, ℕ, List};
ghost use Rattle.clap.specs.Words.{fault_of, first_of, found_of, matches_of, rows_of};
ghost use Rattle.plain_text.specs.Words.{is_hex_word};
ghost use Rattle.rs_wire.specs.declared.words.Kind.{Kind};
ghost use Rattle.command_line.specs.Calls.{IsCallOf, IsContent, IsToken, call_app, kind_word, number_or};
ghost use Rattle.command_line.specs.declared.call_task.CallTask.{CallTask};

use crate::arguments::{Argument, Form, is_on, number_or, operand_value, value};
use crate::call_task::CallTask;
use crate::fault::WordsFault;
use crate::parse::parse;
use clap::ArgMatches;
use plain_text::{is_hex_word, read_hex};
use rs_wire::{Amount, Blob, Kind};
use std::alloc::Global;

/// The most bytes that route and content have together: as many as a message may have.
const MOST_CONTENT: usize = 16_000_000;

/// The most bytes of a token (RSocket 1.0, "SETUP Frame").
const MOST_TOKEN: usize = 65_535;

/// The largest amount of items that can be let in (RSocket 1.0, "REQUEST_N Frame").
const MOST_COUNT: u64 = 2_147_483_647;

/// The word of an empty content.
const EMPTY: u8 = b'.';

/// The arguments of the command.
const ARGUMENTS: [Argument; 10] = [
    Argument {
        form: Form::Operand,
        name: "address",
    },
    Argument {
        form: Form::Operand,
        name: "kind",
    },
    Argument {
        form: Form::Operand,
        name: "route",
    },
    Argument {
        form: Form::Operand,
        name: "content",
    },
    Argument {
        form: Form::Option,
        name: "count",
    },
    Argument {
        form: Form::Option,
        name: "resume",
    },
    Argument {
        form: Form::Flag,
        name: "lease",
    },
    Argument {
        form: Form::Option,
        name: "lulls",
    },
    Argument {
        form: Form::Option,
        name: "tries",
    },
    Argument {
        form: Form::Flag,
        name: "ws",
    },
];

// The interaction that a word names.
fn kind(word: &str) -> Result<Kind, WordsFault>
    ensures is { IfOk result (λ k. word.now ≡ kind_word k) }
    ensures usage { result ≡ Err WordsFault.Usage → (k : Kind) → ¬ (word.now ≡ kind_word k) }
{
    match word {
        "response" => Ok(Kind::Response),
        "fnf" => Ok(Kind::Fnf),
        "stream" => Ok(Kind::Stream),
        "channel" => Ok(Kind::Channel),
        _ => Err(WordsFault::Usage),
    }
}

// The bytes that a word is the text of.
fn content(alloc: Global, word: &str) -> Result<Blob, WordsFault>
    ensures is { IfOk result (IsContent word.now) }
    ensures usage { result ≡ Err WordsFault.Usage → ¬ (is_hex_word 46 word.now ≡ true) }
{
    let word = word.as_bytes();
    if !is_hex_word(word, EMPTY) {
        return Err(WordsFault::Usage);
    }
    Ok(read_hex(alloc, word, EMPTY)?)
}

// The token of a session that resumes, where there is one.
fn token(alloc: Global, matches: &ArgMatches) -> Result<Option<Blob>, WordsFault>
    ensures is { IfOk result (λ t.
        first_of (codes "resume") (rows_of (found_of matches.now)) ≡ t) }
    ensures fits { IfOk result (λ t. IfSome t IsToken) }
    ensures usage { result ≡ Err WordsFault.Usage →
        ¬ (IfSome (first_of (codes "resume") (rows_of (found_of matches.now))) IsToken) }
{
    let Some(word) = value(matches, "resume") else {
        return Ok(None);
    };
    let word = word.as_bytes();
    if word.is_empty() || word.len() > MOST_TOKEN {
        return Err(WordsFault::Usage);
    }
    Ok(Some(Blob::from_slice(alloc, word)?))
}

// Whether route and content are not longer together than a message may be.
fn fits(route: &Blob, content: &Blob) -> bool
    ensures { result ≡ true ↔ length route.now + length content.now ≤ 16000000 }
{
    content.len() <= MOST_CONTENT && route.len() <= MOST_CONTENT - content.len()
}

// How many items are let in at a time.
fn count(matches: &ArgMatches) -> Result<Amount, WordsFault>
    ensures is { IfOk result (λ n. number_or 2147483647 1 2147483647
        (first_of (codes "count") (rows_of (found_of matches.now))) ≡ Some n) }
    ensures usage { result ≡ Err WordsFault.Usage → number_or 2147483647 1 2147483647
        (first_of (codes "count") (rows_of (found_of matches.now))) ≡ None }
{
    let n = number_or(matches, "count", MOST_COUNT, 1, MOST_COUNT)?;
    match Amount::of(n as u32) {
        Some(n) => Ok(n),
        None => unreachable!(),
    }
}

// The route and the content of a request, which are not longer together than a message may be.
fn request(alloc: Global, route: &str, spelled: &str) -> Result<(Blob, Blob), WordsFault>
    ensures route { IfOk result (λ r. route.now ≡ r.0) }
    ensures content { IfOk result (λ r. IsContent spelled.now r.1) }
    ensures fits { IfOk result (λ r. length r.0 + length r.1 ≤ 16000000) }
    ensures usage { result ≡ Err WordsFault.Usage → (content : List ℕ) →
        IsContent spelled.now content → ¬ (length route.now + length content ≤ 16000000) }
{
    let content = content(alloc, spelled)?;
    let route = Blob::from_slice(alloc, route.as_bytes())?;
    if !fits(&route, &content) {
        return Err(WordsFault::Usage);
    }
    Ok((route, content))
}

// What the values ask for.
fn read(alloc: Global, matches: &ArgMatches) -> Result<CallTask, WordsFault>
    ensures is { IfOk result (IsCallOf (rows_of (found_of matches.now))) }
    ensures usage { result ≡ Err WordsFault.Usage → (t : CallTask) →
        ¬ (IsCallOf (rows_of (found_of matches.now)) t) }
{
    let address = operand_value(matches, "address")?;
    let kind = kind(operand_value(matches, "kind")?)?;
    let route = operand_value(matches, "route")?;
    let spelled = operand_value(matches, "content")?;
    let count = count(matches)?;
    let lulls = number_or(matches, "lulls", 1_000, 1, 1_000_000_000)?;
    let tries = number_or(matches, "tries", 0, 0, 16)? as u32;
    let token = token(alloc, matches)?;
    let (route, content) = request(alloc, route, spelled)?;
    let address = Blob::from_slice(alloc, address.as_bytes())?;
    Ok(CallTask {
        address,
        kind,
        route,
        content,
        count,
        token,
        lease: is_on(matches, "lease"),
        lulls,
        tries,
        ws: is_on(matches, "ws"),
    })
}

/// Reads the words of `call`, the first of which is its name.
pub fn call<'a>(alloc: Global, words: &'a [&'a str]) -> Result<CallTask, WordsFault>
    ensures taken { OnOk result (fault_of call_app (map (λ w. w.now) words.entry.now) ≡ []) }
    ensures read { IfOk result
        (IsCallOf (matches_of call_app (map (λ w. w.now) words.entry.now))) }
    ensures usage { result ≡ Err WordsFault.Usage → (t : CallTask) →
        fault_of call_app (map (λ w. w.now) words.entry.now) ≡ [] →
        ¬ (IsCallOf (matches_of call_app (map (λ w. w.now) words.entry.now)) t) }
{
    let matches = parse(alloc, "call", &ARGUMENTS, words)?;
    let task = read(alloc, &matches);
    drop(matches);
    task
}
