//! One caller, with nobody beside it.

ghost use Rattle.std.specs.Prelude.{◌≡◌};

use super::answers::{Wanted, check, check_try};
use super::ends::{ask, bring, close, connected, frame, let_go, open_server};
use conn::{Caller, Connection, Looked};
use rs_wire::{Call, Side};
use std::alloc::Global;
use std::process::Abort;
use std::sync::Wait;
use tape::{Blank, Event, Tape};

/// What a session is like of which nothing happened.
const NOTHING: Looked = Looked {
    live: 0,
    queued: 0,
    carrying: false,
    cause: None,
};

// Takes from a stream that is not there, and looks at a client of which nothing happened.
fn take_nothing<R: Abort + Wait, T: Tape>(rt: &R, alloc: Global, tape: T) -> T
    requires empty { T.count tape ≡ 0 }
{
    let (client, mut caller) = connected(rt, alloc, Side::Client, false, tape);
    let take = Call::Take { stream: 1 };
    ask(rt, &client, &mut caller, take, Wanted::UnknownStream);
    assert!(rt; client.max_in() == 16_777_215);
    assert!(rt; client.look(rt, &mut caller) == NOTHING);
    close(rt, client, caller)
}

#[test]
fn a_call_is_refused_by_the_session(rt: HostRuntime) {
    take_nothing(&rt, rt.alloc(), Blank::new());
}

/// A SETUP of version 1.0 with a keepalive of 20,000 and a lifetime of 90,000 milliseconds, both
/// MIME types `a/b`, and the content `hi`.
pub const SETUP: &[u8; 28] = b"\
    \x00\x00\x00\x00\x04\x00\x00\x01\x00\x00\x00\x00\x4e\x20\x00\x01\x5f\x90\
    \x03a/b\x03a/bhi";

/// A REQUEST_FNF of stream 1, without metadata and with the content `hi`.
const FNF: &[u8; 8] = b"\x00\x00\x00\x01\x14\x00hi";

// Takes the one job that there is, and then tries to take another.
fn take_job<R: Abort + Wait, T: Tape>(rt: &R, server: &Connection<T>, caller: &mut Caller<T>)
    requires of { caller.old.of ≡ server.now }
    ensures of { caller.new.of ≡ server.now }
{
    check(rt, server.wait_job(rt, caller), Wanted::Fnf);
    check_try(rt, server.try_call(caller, &Call::TakeJob), Wanted::NotYet);
}

// Brings a server its first two events, and takes what waits, which is one job, and nothing of a
// stream that is not there.
fn take_all<R: Abort + Wait, T: Tape>(rt: &R, alloc: Global, tape: T) -> T
    requires empty { T.count tape ≡ 0 }
{
    let (server, mut caller) = connected(rt, alloc, Side::Server, false, tape);
    open_server(rt, alloc, &server, &mut caller, SETUP);
    let event = Event::arrived(1, frame(rt, alloc, FNF));
    check(rt, server.bring(rt, &mut caller, event), Wanted::Handled);
    take_job(rt, &server, &mut caller);
    check(
        rt,
        server.wait_take(rt, &mut caller, 3),
        Wanted::UnknownStream,
    );
    close(rt, server, caller)
}

#[test]
fn what_waits_is_taken_at_once(rt: HostRuntime) {
    take_all(&rt, rt.alloc(), Blank::new());
}

// Opens a client by a try, and draws its SETUP by another: 68 bytes after their length of 3.
fn try_to_open<R: Abort, T: Tape>(rt: &R, alloc: Global, tape: T) -> T
    requires empty { T.count tape ≡ 0 }
{
    let (client, mut caller) = connected(rt, alloc, Side::Client, false, tape);
    let event = Event::opening();
    check_try(rt, client.try_event(&mut caller, &event), Wanted::Opened);
    let_go(event);
    let mut buffer = [0; 100];
    check_try(
        rt,
        client.try_draw(&mut caller, 1, &mut buffer),
        Wanted::Drawn(71),
    );
    close(rt, client, caller)
}

#[test]
fn a_try_has_its_turn_where_nobody_else_has(rt: HostRuntime) {
    try_to_open(&rt, rt.alloc(), Blank::new());
}
