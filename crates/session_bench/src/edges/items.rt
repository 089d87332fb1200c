//! Items of one stream, from a server to a client.

use crate::asks::{item, request_stream, take_next};
use crate::edges::SMALL;
use crate::edges::sockets::{TcpSide, next_request, outlast};
use crate::end::Said;
use anyhow::{Result, bail, ensure};
use rs_wire::Blob;
use std::alloc::Global;
use std::sync::Wait;

/// How many items are sent before each turn: their frames, of 25 bytes and a length of 3 each, fit one
/// draw of 16,384 bytes.
const BATCH: u32 = 500;

// Sends the next items, of which so many are sent, until the end takes no more. How many it took.
fn send_some<R: Wait>(
    rt: &R,
    alloc: Global,
    server: &mut TcpSide,
    stream: u32,
    sent: u32,
    items: u32,
) -> Result<u32> {
    let left = items.saturating_sub(sent);
    let batch = left.min(BATCH);
    for done in 0..batch {
        let content = Blob::from_slice(alloc, SMALL)?;
        let is_last = left == done.saturating_add(1);
        let said = server.ask(rt, item(stream, content, is_last));
        if said != Some(Said::Done) {
            return Ok(done);
        }
    }
    Ok(batch)
}

/// Sends so many items on the stream that is asked for. The last ones go out while it waits for the
/// client to be gone.
pub fn serve<R: Wait>(rt: &R, alloc: Global, server: &mut TcpSide, items: u32) -> Result<()> {
    let stream = next_request(rt, server)?;
    let mut sent = 0u32;
    for _ in 0..u64::MAX {
        sent = sent.saturating_add(send_some(rt, alloc, server, stream, sent, items)?);
        if sent >= items {
            break;
        }
        server.turn(rt)?;
    }
    outlast(rt, server);
    Ok(())
}

// Takes what came: how many items, and whether the stream ended after them.
fn take_some<R: Wait>(rt: &R, client: &mut TcpSide, stream: u32) -> (u32, bool) {
    let mut count = 0u32;
    for _ in 0..u32::MAX {
        let said = client.ask(rt, take_next(stream));
        match said {
            Some(Said::Item) => count = count.saturating_add(1),
            Some(Said::Complete) => return (count, true),
            _ => break,
        }
    }
    (count, false)
}

// Takes all items of a stream, in whichever turn they come.
fn take_all<R: Wait>(rt: &R, client: &mut TcpSide, stream: u32) -> Result<u32> {
    let mut taken = 0u32;
    for _ in 0..u64::MAX {
        client.turn(rt)?;
        let (count, ended) = take_some(rt, client, stream);
        taken = taken.saturating_add(count);
        if ended {
            break;
        }
    }
    Ok(taken)
}

/// Asks for a stream, on which so many items come.
pub fn ask<R: Wait>(rt: &R, alloc: Global, client: &mut TcpSide, items: u32) -> Result<()> {
    let content = Blob::from_slice(alloc, SMALL)?;
    let said = client.ask(rt, request_stream(content));
    let Some(Said::Started(stream)) = said else {
        bail!("a request is {said:?}");
    };
    let taken = take_all(rt, client, stream)?;
    ensure!(taken == items, "{taken} of {items} items came");
    Ok(())
}
