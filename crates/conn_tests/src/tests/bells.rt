//! A link that hears the bell of a connection.

ghost use Rattle.std.specs.Prelude.{◌≡◌};

use super::answers::{Wanted, check};
use super::ends::{close, connected, open};
use super::ringing::{LONG, begin_to_sleep, events_within, hearing};
use conn::{Caller, Connection};
use rs_wire::Side;
use std::alloc::Global;
use std::net::Net;
use std::process::Abort;
use std::sync::Wait;
use tape::{Blank, Tape};

// Draws the SETUP of the client, which nobody waits for.
fn draw<R: Abort + Wait, T: Tape>(rt: &R, connection: &Connection<T>, caller: &mut Caller<T>)
    requires of { caller.old.of ≡ connection.now }
    ensures of { caller.new.of ≡ connection.now }
{
    let bell = connection.bell();
    bell.watch();
    let mut buffer = [0; 100];
    check(
        rt,
        connection.draw(rt, caller, 1, &mut buffer),
        Wanted::Drawn(71),
    );
    assert!(rt; bell.begin_sleep());
}

// A link sleeps until a client is opened, and not until it is drawn from.
fn wake_by_opening<R: Abort + Net + Wait, T: Tape>(rt: &R, alloc: Global, tape: T) -> T
    requires empty { T.count tape ≡ 0 }
{
    let (connection, mut caller) = connected(rt, alloc, Side::Client, false, tape);
    let mut poll = hearing(rt, connection.bell());
    begin_to_sleep(rt, connection.bell());
    open(rt, &connection, &mut caller);
    assert!(rt; events_within(rt, alloc, &mut poll, LONG) == 1);
    draw(rt, &connection, &mut caller);
    close(rt, connection, caller)
}

#[test]
fn a_step_ends_the_sleep_of_a_link(rt: HostRuntime) {
    wake_by_opening(&rt, rt.alloc(), Blank::new());
}
