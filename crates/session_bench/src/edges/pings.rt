//! Requests, each made once the response to the one before is there.

use crate::asks::{request_response, respond, take_next};
use crate::edges::SMALL;
use crate::edges::sockets::{TcpSide, next_request, outlast};
use crate::end::Said;
use anyhow::{Result, bail, ensure};
use rs_wire::Blob;
use std::alloc::Global;
use std::sync::Wait;

/// How many turns a response may take.
const MOST_TURNS: u32 = 10_000;

/// Answers so many requests. A response goes out while it waits for the next request, and the last one
/// while it waits for the client to be gone.
pub fn serve<R: Wait>(rt: &R, alloc: Global, server: &mut TcpSide, pings: u32) -> Result<()> {
    for _ in 0..pings {
        let stream = next_request(rt, server)?;
        let content = Blob::from_slice(alloc, SMALL)?;
        let said = server.ask(rt, respond(stream, content));
        ensure!(said == Some(Said::Done), "a response is {said:?}");
    }
    outlast(rt, server);
    Ok(())
}

// Turns until the response on a stream is there, and takes it.
fn take_response<R: Wait>(rt: &R, client: &mut TcpSide, stream: u32) -> Result<()> {
    for _ in 0..MOST_TURNS {
        client.turn(rt)?;
        let said = client.ask(rt, take_next(stream));
        if said == Some(Said::Item) {
            let ended = client.ask(rt, take_next(stream)) == Some(Said::Complete);
            ensure!(ended, "no end is taken");
            return Ok(());
        }
    }
    bail!("no response came")
}

/// Makes so many requests, each once the one before is answered.
pub fn ask<R: Wait>(rt: &R, alloc: Global, client: &mut TcpSide, pings: u32) -> Result<()> {
    for _ in 0..pings {
        let content = Blob::from_slice(alloc, SMALL)?;
        let said = client.ask(rt, request_response(content));
        match said {
            Some(Said::Started(stream)) => take_response(rt, client, stream)?,
            _ => bail!("a request is {said:?}"),
        }
    }
    Ok(())
}
