//! Connections to try, and what is done at one end of them.

ghost use Rattle.std.specs.Prelude.{◌≡◌, ◌<◌, ◌^◌, [], length};
ghost use Rattle.rs_wire.specs.declared.words.Side.TheVariants.{Client, Server};
ghost use Rattle.rs_wire.specs.Calls.{CanBeAsked};
ghost use Rattle.rs_frame.specs.Spelling.{IsSpellable};
ghost use Rattle.session_model.specs.Legal.{CanBring};
ghost use Rattle.session_core.specs.Seen.{IsNoDrawEvent};

use super::answers::{Wanted, check};
use conn::{Caller, Connection};
use rs_frame::{Frame, decode};
use rs_wire::{Blob, Call, Checked, Settings, Side, check as check_settings};
use session_core::Session;
use std::alloc::Global;
use std::process::Abort;
use std::sync::Wait;
use tape::{Event, Tape};

/// The token of a client that resumes.
pub const TOKEN: &[u8; 4] = b"tok1";

/// These bytes.
pub fn blob<R: Abort>(rt: &R, alloc: Global, bytes: &[u8]) -> Blob {
    Blob::from_slice(alloc, bytes).expect(rt, "there is memory")
}

// The token of this end: a server has none, nor a client that does not resume.
fn token<R: Abort>(rt: &R, alloc: Global, side: Side, resume: bool) -> Blob {
    if resume && side == Side::Client {
        blob(rt, alloc, TOKEN)
    } else {
        blob(rt, alloc, b"")
    }
}

// The usual settings, with resumption where it is asked for.
fn settings<R: Abort>(rt: &R, alloc: Global, side: Side, resume: bool) -> Checked
    ensures side { result.side ≡ side }
{
    let mut settings = Settings::usual(alloc, side).expect(rt, "there is memory");
    settings.resume = settings.resume || resume;
    settings.token = token(rt, alloc, side, resume);
    match check_settings(settings) {
        Ok(settings) => settings,
        Err(_) => panic!(rt; "the settings are right"),
    }
}

fn session<R: Abort, T: Tape>(
    rt: &R,
    alloc: Global,
    side: Side,
    resume: bool,
    tape: T,
) -> Session<T>
    requires empty { T.count tape ≡ 0 }
    ensures side { result.settings.side ≡ side }
    ensures entries { result.entries ≡ [] }
{
    let settings = settings(rt, alloc, side, resume);
    match Session::new(alloc, settings, tape) {
        Ok(session) => session,
        Err(_) => panic!(rt; "there is memory"),
    }
}

/// A connection round a session with the usual settings, of which nothing happened yet, and its first
/// caller. It resumes where that is asked for.
pub fn connected<R: Abort, T: Tape>(
    rt: &R,
    alloc: Global,
    side: Side,
    resume: bool,
    tape: T,
) -> (Connection<T>, Caller<T>)
    requires empty { T.count tape ≡ 0 }
    ensures of { result.1.of ≡ result.0 }
    ensures side { result.0.settings.side ≡ side }
{
    match Connection::new(alloc, session(rt, alloc, side, resume, tape)) {
        Ok(made) => made,
        Err(_) => panic!(rt; "there is memory"),
    }
}

/// One more caller.
pub fn one_more<R: Abort + Wait, T: Tape>(
    rt: &R,
    connection: &Connection<T>,
    caller: &mut Caller<T>,
) -> Caller<T>
    requires of { caller.old.of ≡ connection.now }
    ensures same { caller.new.of ≡ connection.now }
    ensures of { result.of ≡ connection.now }
{
    connection.split(rt, caller).expect(rt, "there are parts")
}

/// The tape of the session of a connection, whose caller has all parts again. All trials end so: a
/// connection or a session that is let go is dear to prove, and here a tape need not be `Drop`.
pub fn close<R: Abort, T: Tape>(rt: &R, connection: Connection<T>, caller: Caller<T>) -> T
    requires of { caller.of ≡ connection }
{
    match connection.close(caller) {
        Ok(session) => session.into_tape(),
        Err(_) => panic!(rt; "all parts are there"),
    }
}

/// The frame that the bytes spell.
pub fn frame<R: Abort>(rt: &R, alloc: Global, bytes: &[u8]) -> Frame
    requires { length bytes.now < 2 ^ 24 }
    ensures { IsSpellable result }
{
    match decode(alloc, bytes) {
        Ok(frame) => frame,
        Err(_) => panic!(rt; "the bytes spell a frame"),
    }
}

/// Lets an event go. Each place where that is done is dear to prove.
pub fn let_go(_event: Event) {}

/// Brings an event, to which the answer is the wanted one.
pub fn bring<R: Abort + Wait, T: Tape>(
    rt: &R,
    connection: &Connection<T>,
    caller: &mut Caller<T>,
    event: Event,
    wanted: Wanted,
)
    requires of { caller.old.of ≡ connection.now }
    requires fair { CanBring connection.now.settings event }
    requires no_draw { IsNoDrawEvent event }
    ensures of { caller.new.of ≡ connection.now }
{
    check(rt, connection.event(rt, caller, &event), wanted);
    let_go(event);
}

/// Opens a client.
pub fn open<R: Abort + Wait, T: Tape>(rt: &R, client: &Connection<T>, caller: &mut Caller<T>)
    requires of { caller.old.of ≡ client.now }
    requires side { client.now.settings.side ≡ Client }
    ensures of { caller.new.of ≡ client.now }
{
    bring(rt, client, caller, Event::opening(), Wanted::Opened);
}

/// Opens a server by the SETUP that the bytes spell.
pub fn open_server<R: Abort + Wait, T: Tape>(
    rt: &R,
    alloc: Global,
    server: &Connection<T>,
    caller: &mut Caller<T>,
    setup: &[u8],
)
    requires of { caller.old.of ≡ server.now }
    requires side { server.now.settings.side ≡ Server }
    requires short { length setup.now < 2 ^ 24 }
    ensures of { caller.new.of ≡ server.now }
{
    let event = Event::opened_by(frame(rt, alloc, setup));
    bring(rt, server, caller, event, Wanted::Opened);
}

/// Asks, to which the answer is the wanted one.
pub fn ask<R: Abort + Wait, T: Tape>(
    rt: &R,
    connection: &Connection<T>,
    caller: &mut Caller<T>,
    call: Call,
    wanted: Wanted,
)
    requires of { caller.old.of ≡ connection.now }
    requires askable { CanBeAsked call }
    ensures of { caller.new.of ≡ connection.now }
{
    check(rt, connection.call(rt, caller, &call), wanted);
}
