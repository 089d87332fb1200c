//! Two ends of a session in one process: a stream of three items, two of which may come at first.

ghost use Rattle.std.specs.Prelude.{◌≡◌};
ghost use Rattle.rustshuttle.specs.Side.TheVariants.{Client};

use crate::ends::{End, ROOM, ask, connect, receive, send};
use anyhow::{Context, Result};
use rustshuttle::{
    Amount, Blob, client, complete, next, request_n, request_stream, server, take, take_job,
};
use std::alloc::Global;
use std::io::Print;

/// The one stream, which the client opens.
const STREAM: u32 = 1;

// So many items.
fn items(count: u32) -> Result<Amount> {
    Amount::of(count).context("not in range")
}

// The client asks for the stream, of which two items may come at first.
fn ask_for_items(rt: &impl Print, alloc: Global, client: &mut End) -> Result<Vec<u8>> {
    let content = Blob::from_slice(alloc, b"count")?;
    ask(rt, "client", client, request_stream(content, items(2)?))?;
    send(rt, alloc, "client", client, ROOM)
}

// The server sends an item.
fn send_item(rt: &impl Print, alloc: Global, server: &mut End, item: &[u8]) -> Result<()> {
    let content = Blob::from_slice(alloc, item)?;
    ask(rt, "server", server, next(STREAM, content))
}

// SETUP and the request come. The server takes the job, and sends two items; for a third there is
// no credit.
fn send_two(rt: &impl Print, alloc: Global, server: &mut End, bytes: &[u8]) -> Result<Vec<u8>> {
    receive(rt, alloc, "server", server, bytes)?;
    ask(rt, "server", server, take_job())?;
    for item in [b"1", b"2", b"3"] {
        send_item(rt, alloc, server, item)?;
    }
    send(rt, alloc, "server", server, ROOM)
}

// The client takes one of the items that came, and lets one more come.
fn grant_one(rt: &impl Print, alloc: Global, client: &mut End, bytes: &[u8]) -> Result<Vec<u8>> {
    receive(rt, alloc, "client", client, bytes)?;
    ask(rt, "client", client, take(STREAM))?;
    ask(rt, "client", client, request_n(STREAM, items(1)?))?;
    send(rt, alloc, "client", client, ROOM)
}

// The server sends the third item, and is done.
fn send_last(rt: &impl Print, alloc: Global, server: &mut End, bytes: &[u8]) -> Result<Vec<u8>> {
    receive(rt, alloc, "server", server, bytes)?;
    send_item(rt, alloc, server, b"3")?;
    ask(rt, "server", server, complete(STREAM))?;
    send(rt, alloc, "server", server, ROOM)
}

// The client takes the other items, and the end.
fn take_rest(rt: &impl Print, alloc: Global, client: &mut End, bytes: &[u8]) -> Result<()> {
    receive(rt, alloc, "client", client, bytes)?;
    for _ in 0..3 {
        ask(rt, "client", client, take(STREAM))?;
    }
    Ok(())
}

// The whole stream, between two ends at which nothing happened yet.
fn run_between(rt: &impl Print, alloc: Global, client: &mut End, server: &mut End) -> Result<()>
    requires { client.old.session.settings.side ≡ Client }
{
    connect(rt, client)?;
    let asked = ask_for_items(rt, alloc, client)?;
    let two = send_two(rt, alloc, server, &asked)?;
    let granted = grant_one(rt, alloc, client, &two)?;
    let last = send_last(rt, alloc, server, &granted)?;
    take_rest(rt, alloc, client, &last)
}

// The same, of a client and a new server.
fn run_with(rt: &impl Print, alloc: Global, client: &mut End) -> Result<()>
    requires { client.old.session.settings.side ≡ Client }
{
    let mut server = server(alloc)?;
    let ran = run_between(rt, alloc, client, &mut server);
    drop(server);
    ran
}

/// The whole example.
pub fn run(rt: &impl Print, alloc: Global) -> Result<()> {
    let mut client = client(alloc)?;
    let ran = run_with(rt, alloc, &mut client);
    drop(client);
    ran
}
