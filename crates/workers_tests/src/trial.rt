//! A server with a worker, to which frames come. It is written for any tape, since a proof is dearer
//! the more types a function knows.

ghost use Rattle.std.specs.Prelude.{◌≡◌, ◌<◌, ◌^◌, Ok, length};
ghost use Rattle.rs_wire.specs.declared.words.Side.TheVariants.{Server};
ghost use Rattle.rs_frame.specs.Spelling.{IsSpellable};
ghost use Rattle.workers.specs.Serving.{AreRouted};

use conn::{Caller, Connection};
use handlers::{Handler, Law, Routes, Stored};
use rs_frame::{Frame, decode};
use rs_wire::{
    Amount, Blob, Call, Checked, Kind, Refusal, Settings, Side, check as check_settings,
};
use session_core::Session;
use std::alloc::Global;
use std::process::Abort;
use std::sync::Wait;
use tape::{Answer, Event, Tape};
use workers::{OpenGate, Progress, Work, Worked, serve_job, serve_some};

/// A SETUP of version 1.0 with a keepalive of 20,000 and a lifetime of 90,000 milliseconds, and both
/// MIME types `a/b`.
const SETUP: &[u8; 26] =
    b"\x00\x00\x00\x00\x04\x00\x00\x01\x00\x00\x00\x00\x4e\x20\x00\x01\x5f\x90\x03a/b\x03a/b";

/// Moves at a server that was opened, and what they show.
pub struct Trial {
    /// What they show.
    pub shows: &'static str,
    /// The moves, first to last.
    pub moves: &'static [Move],
}

/// What happens at a server with a worker.
#[derive(Clone, Copy)]
pub enum Move {
    /// A frame of these bytes comes.
    Comes(&'static [u8]),
    /// The worker serves a job, with this outcome.
    Serves(Wanted),
    /// The worker serves some bytes, which are at most so many and one reply more.
    ServesSome(u64, Wanted),
    /// These bytes are all that is queued, and are drawn.
    Draws(&'static [u8]),
    /// Another item is granted to the requester of a channel.
    Grants(u32),
    /// The work has so many jobs.
    Has(usize),
}

/// What a worker is to say.
#[derive(Clone, Copy)]
pub enum Wanted {
    /// The job of this stream is served, with so many items.
    Served(u32, u64),
    /// The job of this stream waits.
    Waiting(u32),
    /// A job is stopped by this refusal.
    Stopped(Refusal),
    /// The job of this stream had its bytes, and goes on later.
    More(u32),
    /// There is nothing to do.
    Idle,
}

// What was made. A fault that has no words stops the test, and is not let go.
fn made<R: Abort, T, E>(rt: &R, made: Result<T, E>) -> T
    ensures { made ≡ Ok result }
{
    match made {
        Ok(made) => made,
        Err(_) => panic!(rt; "it is not made"),
    }
}

fn usual_settings<R: Abort>(rt: &R, alloc: Global) -> Checked
    ensures { result.side ≡ Server }
{
    let settings = Settings::usual(alloc, Side::Server).expect(rt, "there is memory");
    made(rt, check_settings(settings))
}

// A server of which nothing happened yet.
fn connected<R: Abort, T: Tape>(rt: &R, alloc: Global, tape: T) -> (Connection<T>, Caller<T>)
    requires empty { T.count tape ≡ 0 }
    ensures of { result.1.of ≡ result.0 }
    ensures side { result.0.settings.side ≡ Server }
{
    let session = made(rt, Session::new(alloc, usual_settings(rt, alloc), tape));
    made(rt, Connection::new(alloc, session))
}

/// The tape of a server. All trials end so: a connection or a session that is let go is dear to
/// prove, and here a tape need not be `Drop`.
pub fn close<R: Abort, T: Tape>(rt: &R, server: Connection<T>, caller: Caller<T>) -> T
    requires of { caller.of ≡ server }
{
    made(rt, server.close(caller)).into_tape()
}

/// The bytes.
pub fn blob<R: Abort>(rt: &R, alloc: Global, bytes: &[u8]) -> Blob {
    Blob::from_slice(alloc, bytes).expect(rt, "there is memory")
}

/// Adds a route.
pub fn add<R: Abort, F: Handler>(
    rt: &R,
    alloc: Global,
    routes: &mut Routes<F>,
    name: &[u8],
    kind: Kind,
    stored: Stored<F>,
) {
    routes
        .add(blob(rt, alloc, name), kind, stored)
        .expect(rt, "there is memory, and no route is added twice");
}

/// A route of each law.
const ROUTES: [(&[u8], Kind, Law); 6] = [
    (b"echo", Kind::Response, Law::Echo),
    (b"upper", Kind::Channel, Law::Upper),
    (b"count", Kind::Stream, Law::Count),
    (b"drop", Kind::Fnf, Law::Drop),
    (b"none", Kind::Response, Law::Drop),
    (b"first", Kind::Channel, Law::Count),
];

// These routes.
fn routes<R: Abort>(rt: &R, alloc: Global) -> Routes<Law> {
    let mut routes = Routes::new(alloc);
    for (name, kind, law) in ROUTES {
        add(rt, alloc, &mut routes, name, kind, Stored::of(law));
    }
    routes
}

// The frame that the bytes spell.
fn frame<R: Abort>(rt: &R, alloc: Global, bytes: &[u8]) -> Frame
    requires { length bytes.now < 2 ^ 24 }
    ensures { IsSpellable result }
{
    decode(alloc, bytes).expect(rt, "the bytes spell a frame")
}

/// What an answer is to be.
#[derive(Clone, Copy)]
enum Right {
    /// The first opening.
    Opened,
    /// A frame is handled.
    Handled,
    /// A call is done.
    Done,
}

fn is_right(answer: &Answer, right: Right) -> bool {
    match right {
        Right::Opened => matches!(answer, Answer::Opened(1)),
        Right::Handled => matches!(answer, Answer::Handled),
        Right::Done => matches!(answer, Answer::Done),
    }
}

// Whether an answer is the right one. It is let go.
fn came_right(answer: Answer, right: Right) -> bool {
    let is_right = is_right(&answer, right);
    drop(answer);
    is_right
}

/// A server that is opened by a SETUP.
pub fn opened<R: Abort + Wait, T: Tape>(
    rt: &R,
    alloc: Global,
    tape: T,
) -> (Connection<T>, Caller<T>)
    requires empty { T.count tape ≡ 0 }
    ensures of { result.1.of ≡ result.0 }
{
    let (server, mut caller) = connected(rt, alloc, tape);
    let event = Event::opened_by(frame(rt, alloc, SETUP));
    let answer = server.bring(rt, &mut caller, event);
    assert!(rt; came_right(answer, Right::Opened));
    (server, caller)
}

/// Whether a frame of these bytes, which comes, is handled.
pub fn comes<R: Abort + Wait, T: Tape>(
    rt: &R,
    alloc: Global,
    connection: &Connection<T>,
    caller: &mut Caller<T>,
    bytes: &[u8],
) -> bool
    requires of { caller.old.of ≡ connection.now }
    ensures of { caller.new.of ≡ connection.now }
{
    assert!(rt; bytes.len() < 1 << 24);
    let event = Event::arrived(1, frame(rt, alloc, bytes));
    came_right(connection.bring(rt, caller, event), Right::Handled)
}

// How many bytes are drawn by this answer.
fn drawn(answer: Answer) -> usize {
    let count = answer.drawn().unwrap_or(0);
    drop(answer);
    count as usize
}

// Whether these bytes are all that is queued. They are drawn.
fn draws<R: Wait, T: Tape>(
    rt: &R,
    connection: &Connection<T>,
    caller: &mut Caller<T>,
    bytes: &[u8],
) -> bool
    requires of { caller.old.of ≡ connection.now }
    ensures of { caller.new.of ≡ connection.now }
{
    let mut buffer = [0; 200];
    let count = drawn(connection.draw(rt, caller, 1, &mut buffer));
    count == bytes.len() && buffer.starts_with(bytes)
}

// Whether another item is granted.
fn grants<R: Abort + Wait, T: Tape>(
    rt: &R,
    connection: &Connection<T>,
    caller: &mut Caller<T>,
    stream: u32,
) -> bool
    requires of { caller.old.of ≡ connection.now }
    ensures of { caller.new.of ≡ connection.now }
{
    let n = Amount::of(1).expect(rt, "1 is an amount");
    let call = Call::Grant { stream, n };
    let answer = connection.call(rt, caller, &call);
    drop(call);
    came_right(answer, Right::Done)
}

// Whether a worker said the wanted thing.
fn is_worked(worked: &Worked, wanted: Wanted) -> bool {
    match (wanted, worked) {
        (
            Wanted::Served(stream, items),
            Worked::Served {
                stream: of,
                items: count,
            },
        ) => { *of == stream && *count == items }
        (Wanted::Waiting(stream), Worked::Waiting(of)) => *of == stream,
        (Wanted::Stopped(refusal), Worked::Stopped(Answer::Refused(given))) => *given == refusal,
        (Wanted::Idle, Worked::Idle) => true,
        _ => false,
    }
}

// Whether a worker that serves some bytes did.
fn is_progress(progress: &Progress, wanted: Wanted) -> bool {
    match progress {
        Progress::More(of) => matches!(wanted, Wanted::More(stream) if stream == *of),
        Progress::Worked(worked) => is_worked(worked, wanted),
    }
}

/// Whether the worker serves a job with this outcome.
pub fn serves<R: Wait, T: Tape, F: Handler>(
    rt: &R,
    alloc: Global,
    connection: &Connection<T>,
    caller: &mut Caller<T>,
    routes: &Routes<F>,
    work: &mut Work,
    wanted: Wanted,
) -> bool
    requires of { caller.old.of ≡ connection.now }
    requires routed { AreRouted routes.now work.old }
    ensures of { caller.new.of ≡ connection.now }
    ensures routed { AreRouted routes.now work.new }
{
    let worked = serve_job(rt, alloc, connection, caller, routes, &OpenGate, work);
    let is_wanted = is_worked(&worked, wanted);
    drop(worked);
    is_wanted
}

// Whether the worker serves so many bytes, or one reply more, with this outcome.
fn serves_some<R: Wait, T: Tape>(
    rt: &R,
    alloc: Global,
    connection: &Connection<T>,
    caller: &mut Caller<T>,
    routes: &Routes<Law>,
    work: &mut Work,
    most: u64,
    wanted: Wanted,
) -> bool
    requires of { caller.old.of ≡ connection.now }
    requires routed { AreRouted routes.now work.old }
    ensures of { caller.new.of ≡ connection.now }
    ensures routed { AreRouted routes.now work.new }
{
    let progress = serve_some(rt, alloc, connection, caller, routes, &OpenGate, work, most);
    let is_wanted = is_progress(&progress, wanted);
    drop(progress);
    is_wanted
}

// Whether a move goes as it says.
fn act<R: Abort + Wait, T: Tape>(
    rt: &R,
    alloc: Global,
    connection: &Connection<T>,
    caller: &mut Caller<T>,
    routes: &Routes<Law>,
    work: &mut Work,
    next: &Move,
) -> bool
    requires of { caller.old.of ≡ connection.now }
    requires routed { AreRouted routes.now work.old }
    ensures of { caller.new.of ≡ connection.now }
    ensures routed { AreRouted routes.now work.new }
{
    match next {
        Move::Comes(bytes) => comes(rt, alloc, connection, caller, bytes),
        Move::Draws(bytes) => draws(rt, connection, caller, bytes),
        Move::Grants(stream) => grants(rt, connection, caller, *stream),
        Move::Has(jobs) => work.len() == *jobs,
        Move::Serves(wanted) => serves(rt, alloc, connection, caller, routes, work, *wanted),
        Move::ServesSome(most, wanted) => {
            serves_some(rt, alloc, connection, caller, routes, work, *most, *wanted)
        }
    }
}

fn act_all<R: Abort + Wait, T: Tape>(
    rt: &R,
    alloc: Global,
    connection: &Connection<T>,
    caller: &mut Caller<T>,
    trial: &Trial,
)
    requires of { caller.old.of ≡ connection.now }
    ensures of { caller.new.of ≡ connection.now }
{
    let routes = routes(rt, alloc);
    let mut work = Work::new(alloc);
    for next in trial.moves {
        let went = act(rt, alloc, connection, caller, &routes, &mut work, next);
        assert!(rt; went, "{}", trial.shows);
    }
    drop(work);
    drop(routes);
}

/// These moves happen at a server that was opened.
pub fn play<R: Abort + Wait, T: Tape>(rt: &R, alloc: Global, tape: T, trial: &Trial) -> T
    requires empty { T.count tape ≡ 0 }
{
    let (server, mut caller) = opened(rt, alloc, tape);
    act_all(rt, alloc, &server, &mut caller, trial);
    close(rt, server, caller)
}
