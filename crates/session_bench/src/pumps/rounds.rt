//! Items that cross in rounds, and the time that they take at each end.

ghost use Rattle.rs_wire.specs.Calls.{CanBeAsked};

use crate::asks::{item, request_response, request_stream, respond, take_job, take_next};
use crate::end::{End, Said, Unlinked};
use crate::pumps::wire::Wire;
use anyhow::{Context, Result, ensure};
use rs_wire::{Blob, Call};
use std::alloc::Global;
use std::sync::Wait;
use std::time::{Clock, Instant};

/// What crosses.
#[derive(Clone, Copy, Debug, PartialEq, Eq)]
pub enum Shape {
    /// A request and its response, each with an item.
    Response,
    /// An item of a stream, to the client.
    Stream,
}

/// How items cross.
#[derive(Clone, Copy)]
pub struct Run {
    /// What crosses.
    pub shape: Shape,
    /// An item.
    pub item: &'static [u8],
    /// How many cross at once, at least one. Their frames fit one draw, of 16,384 bytes.
    pub batch: u32,
    /// How many times so many cross.
    pub rounds: u32,
    /// Whether both ends agree to resumption, and hold frames for it.
    pub resumes: bool,
}

/// Nanoseconds of the calls and turns at each end.
#[derive(Clone, Copy)]
pub struct Took {
    /// At the client.
    pub client: u128,
    /// At the server.
    pub server: u128,
}

fn request(shape: Shape, content: Blob) -> Call
    ensures { CanBeAsked result }
{
    match shape {
        Shape::Response => request_response(content),
        Shape::Stream => request_stream(content),
    }
}

// One turn, in which bytes move.
fn turn<R: Wait>(rt: &R, end: &mut End<Wire>) -> Result<()> {
    let moved = end.turn(rt)?;
    ensure!(moved, "nothing moves in a turn");
    Ok(())
}

// What the other end was given comes, by one turn.
fn receive<R: Wait>(rt: &R, end: &mut End<Wire>, other: &mut End<Wire>) -> Result<()> {
    end.link.carry(&mut other.link)?;
    turn(rt, end)
}

// The server that the client's SETUP opens.
fn serve<R: Wait>(
    rt: &R,
    alloc: Global,
    client: &mut End<Wire>,
    resumes: bool,
) -> Result<End<Wire>> {
    turn(rt, client)?;
    let unlinked = Unlinked::server(rt, alloc, resumes, client.link.given())?;
    client.link.forget();
    Ok(End {
        unlinked,
        link: Wire::new(alloc),
    })
}

// The client makes a request: on which stream.
fn ask<R: Wait>(rt: &R, alloc: Global, client: &mut End<Wire>, run: Run) -> Option<u32> {
    let content = Blob::from_slice(alloc, run.item).ok()?;
    match client.ask(rt, request(run.shape, content))? {
        Said::Started(stream) => Some(stream),
        _ => None,
    }
}

// The client makes a batch of requests: on which stream the first is.
fn ask_all<R: Wait>(rt: &R, alloc: Global, client: &mut End<Wire>, run: Run) -> Result<u32> {
    let first = ask(rt, alloc, client, run).context("a request is not started")?;
    for _ in 1..run.batch {
        let started = ask(rt, alloc, client, run).is_some();
        ensure!(started, "a request is not started");
    }
    turn(rt, client)?;
    Ok(first)
}

// The server takes a request: on which stream.
fn take_request<R: Wait>(rt: &R, server: &mut End<Wire>) -> Option<u32> {
    match server.ask(rt, take_job())? {
        Said::Asked(stream) => Some(stream),
        _ => None,
    }
}

// The server sends an item on a stream, or answers the request that it takes.
fn send<R: Wait>(
    rt: &R,
    alloc: Global,
    server: &mut End<Wire>,
    stream: u32,
    run: Run,
) -> Option<Said> {
    match run.shape {
        Shape::Response => {
            let stream = take_request(rt, server)?;
            let content = Blob::from_slice(alloc, run.item).ok()?;
            server.ask(rt, respond(stream, content))
        }
        Shape::Stream => {
            let content = Blob::from_slice(alloc, run.item).ok()?;
            server.ask(rt, item(stream, content, false))
        }
    }
}

fn send_all<R: Wait>(
    rt: &R,
    alloc: Global,
    server: &mut End<Wire>,
    stream: u32,
    run: Run,
) -> Result<()> {
    for _ in 0..run.batch {
        let said = send(rt, alloc, server, stream, run);
        ensure!(said == Some(Said::Done), "an item is {said:?}");
    }
    turn(rt, server)
}

// The client takes what came on a stream.
fn take<R: Wait>(rt: &R, client: &mut End<Wire>, stream: u32, wanted: Said) -> bool {
    client.ask(rt, take_next(stream)) == Some(wanted)
}

// The client takes a batch of items of a stream, or of responses, whose streams are every second
// one.
fn take_all<R: Wait>(rt: &R, client: &mut End<Wire>, first: u32, run: Run) -> Result<()> {
    let mut stream = first;
    for _ in 0..run.batch {
        let taken = take(rt, client, stream, Said::Item);
        ensure!(taken, "no item is taken");
        if run.shape == Shape::Response {
            let ended = take(rt, client, stream, Said::Complete);
            ensure!(ended, "no end is taken");
            stream = stream.saturating_add(2);
        }
    }
    Ok(())
}

// A round on a stream, or of requests.
fn round<R: Clock + Wait>(
    rt: &R,
    alloc: Global,
    client: &mut End<Wire>,
    server: &mut End<Wire>,
    stream: u32,
    run: Run,
) -> Result<Took> {
    let start = Instant::now(rt)?;
    let mut first = stream;
    if run.shape == Shape::Response {
        first = ask_all(rt, alloc, client, run)?;
    }
    let asked = Instant::now(rt)?;
    if run.shape == Shape::Response {
        receive(rt, server, client)?;
    }
    send_all(rt, alloc, server, stream, run)?;
    let sent = Instant::now(rt)?;
    receive(rt, client, server)?;
    take_all(rt, client, first, run)?;
    let taking = sent.elapsed(rt)?.as_nanos();
    Ok(Took {
        client: asked
            .duration_since(start)
            .as_nanos()
            .saturating_add(taking),
        server: sent.duration_since(asked).as_nanos(),
    })
}

// The client asks for a stream, and the server takes the job.
fn begin<R: Wait>(
    rt: &R,
    alloc: Global,
    client: &mut End<Wire>,
    server: &mut End<Wire>,
    run: Run,
) -> Result<u32> {
    if run.shape == Shape::Response {
        return Ok(0);
    }
    ask(rt, alloc, client, run).context("the stream is not started")?;
    turn(rt, client)?;
    receive(rt, server, client)?;
    take_request(rt, server).context("no job is taken")
}

// All rounds of two ends.
fn cross_between<R: Clock + Wait>(
    rt: &R,
    alloc: Global,
    client: &mut End<Wire>,
    server: &mut End<Wire>,
    run: Run,
) -> Result<Took> {
    let stream = begin(rt, alloc, client, server, run)?;
    let mut all = Took {
        client: 0,
        server: 0,
    };
    for _ in 0..run.rounds {
        let took = round(rt, alloc, client, server, stream, run)?;
        all = Took {
            client: all.client.saturating_add(took.client),
            server: all.server.saturating_add(took.server),
        };
    }
    Ok(all)
}

// Items cross between a client and the server that its SETUP opens.
fn cross_from<R: Clock + Wait>(
    rt: &R,
    alloc: Global,
    client: &mut End<Wire>,
    run: Run,
) -> Result<Took> {
    let mut server = serve(rt, alloc, client, run.resumes)?;
    let took = cross_between(rt, alloc, client, &mut server, run);
    server.close();
    took
}

/// Items cross between two new ends.
pub fn cross<R: Clock + Wait>(rt: &R, alloc: Global, run: Run) -> Result<Took> {
    let mut client = End {
        unlinked: Unlinked::client(rt, alloc, run.resumes)?,
        link: Wire::new(alloc),
    };
    let took = cross_from(rt, alloc, &mut client, run);
    client.close();
    took
}
