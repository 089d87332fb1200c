//! Calls by their words, which are those of a script's action lines without the side.

use crate::bytes::{amount, message, number_32, part};
use anyhow::{Result, bail};
use rs_wire::{Call, Kind};
use std::alloc::Global;

// A request, with how many items may be sent at first where its kind has items.
fn request(
    alloc: Global,
    kind: Kind,
    initial: Option<&str>,
    content: &str,
    complete: bool,
) -> Result<Call> {
    let initial = match initial {
        Some(n) => Some(amount(n)?),
        None => None,
    };
    Ok(Call::Request {
        kind,
        initial,
        message: message(alloc, content)?,
        complete,
    })
}

fn next(alloc: Global, stream: u32, content: &str, complete: bool) -> Result<Call> {
    Ok(Call::Next {
        stream,
        message: message(alloc, content)?,
        complete,
    })
}

fn fail(alloc: Global, stream: u32, code: &str, content: &str) -> Result<Call> {
    Ok(Call::Fail {
        stream,
        code: number_32(code)?,
        content: part(alloc, content)?,
    })
}

fn lease(alloc: Global, ttl: &str, count: &str, metadata: Option<&str>) -> Result<Call> {
    let ttl = amount(ttl)?;
    let count = amount(count)?;
    let metadata = match metadata {
        Some(metadata) => Some(part(alloc, metadata)?),
        None => None,
    };
    Ok(Call::Lease {
        ttl,
        count,
        metadata,
    })
}

// A call on a stream that is there.
fn on_stream(alloc: Global, name: &str, stream: u32, words: &[&str]) -> Result<Call> {
    match (name, words) {
        ("next", [p]) => next(alloc, stream, p, false),
        ("last", [p]) => next(alloc, stream, p, true),
        ("done", []) => Ok(Call::Done { stream }),
        ("grant", [n]) => Ok(Call::Grant {
            stream,
            n: amount(n)?,
        }),
        ("cancel", []) => Ok(Call::Cancel { stream }),
        ("fail", [code, content]) => fail(alloc, stream, code, content),
        ("take", []) => Ok(Call::Take { stream }),
        _ => bail!("no such row"),
    }
}

// A request, or a call on a stream.
fn on_any_stream(alloc: Global, words: &[&str]) -> Result<Call> {
    match words {
        ["fnf", p] => request(alloc, Kind::Fnf, None, p, false),
        ["response", p] => request(alloc, Kind::Response, None, p, false),
        ["stream", n, p] => request(alloc, Kind::Stream, Some(n), p, false),
        ["channel", n, p] => request(alloc, Kind::Channel, Some(n), p, false),
        ["channel", n, p, "last"] => request(alloc, Kind::Channel, Some(n), p, true),
        [name, stream, rest @ ..] => on_stream(alloc, name, number_32(stream)?, rest),
        _ => bail!("no such row"),
    }
}

/// The call that the words say.
pub fn call(alloc: Global, words: &[&str]) -> Result<Call> {
    match words {
        ["push", metadata] => Ok(Call::Push {
            metadata: part(alloc, metadata)?,
        }),
        ["lease", ttl, count] => lease(alloc, ttl, count, None),
        ["lease", ttl, count, metadata] => lease(alloc, ttl, count, Some(metadata)),
        ["job"] => Ok(Call::TakeJob),
        ["close"] => Ok(Call::Close),
        _ => on_any_stream(alloc, words),
    }
}
