//! Two callers of one connection, in two threads.

ghost use Rattle.std.specs.Prelude.{◌≡◌, ◌<◌, ◌*◌};
ghost use Rattle.rs_wire.specs.Calls.{CanBeAsked};

use super::answers::{Wanted, check, is, let_go};
use super::ends::{ask, blob, close, connected, one_more, open};
use conn::{Caller, Connection};
use rs_wire::{Call, Side};
use std::alloc::Global;
use std::process::Abort;
use std::sync::Wait;
use std::thread::{Threads, join};
use tape::{Blank, Kept, Tape};

/// How often each of two callers asks.
const TIMES: u32 = 100;

/// How many connections are closed while one of their callers waits.
const WAITS: u32 = 100;

// Asks again and again.
fn ask_often<R: Wait, T: Tape>(
    rt: &R,
    connection: &Connection<T>,
    caller: Caller<T>,
    call: &Call,
) -> Caller<T>
    requires of { caller.of ≡ connection.now }
    requires askable { CanBeAsked call.now }
    ensures of { result.of ≡ connection.now }
{
    let mut caller = caller;
    for _ in 0..TIMES {
        let_go(connection.call(rt, &mut caller, call));
    }
    caller
}

// Both callers ask as often, in two threads, and are joined.
fn ask_in_two<R: Threads + Wait + Sync, T: Tape + Send>(
    rt: &R,
    connection: &Connection<T>,
    first: Caller<T>,
    second: Caller<T>,
    call: &Call,
) -> Caller<T>
    requires first { first.of ≡ connection.now }
    requires second { second.of ≡ connection.now }
    requires askable { CanBeAsked call.now }
    ensures of { result.of ≡ connection.now }
{
    let (mut caller, other) = join(
        rt,
        || -> Caller<T>
            requires { (first.of ≡ connection.now) × CanBeAsked call.now }
            ensures { result.of ≡ connection.entry.now }
        { ask_often(rt, connection, first, call) },
        || -> Caller<T>
            requires { (second.of ≡ connection.now) × CanBeAsked call.now }
            ensures { result.of ≡ connection.entry.now }
        { ask_often(rt, connection, second, call) },
    );
    connection.join(&mut caller, other);
    caller
}

// Who made the call at this place of the tape, from 0. Its id is the next odd one.
fn who_called<R: Abort, T: Tape>(rt: &R, tape: &T, number: u32) -> u32
    requires { number < 2 * 100 }
{
    let entry = tape.entry(1 + u64::from(number)).expect(rt, "an entry");
    assert!(rt; is(&entry.answer, Wanted::Started(2 * number + 1)));
    entry.who
}

// How many of the calls on the tape are of this caller.
fn count_calls<R: Abort, T: Tape>(rt: &R, tape: &T, who: u32) -> u32 {
    let mut count = 0u32;
    for number in 0..2 * TIMES {
        if who_called(rt, tape, number) == who {
            count = count.wrapping_add(1);
        }
    }
    count
}

// Checks a tape: the opening, and then as many calls of each of two callers.
fn check_calls<R: Abort, T: Tape>(rt: &R, tape: &T) {
    assert!(rt; tape.count() == 1 + 2 * u64::from(TIMES));
    assert!(rt; count_calls(rt, tape, 0) == TIMES);
    assert!(rt; count_calls(rt, tape, 1) == TIMES);
}

// Opens a client, asks by two callers, and closes it.
fn share<R: Abort + Threads + Wait + Sync, T: Tape + Send>(rt: &R, alloc: Global, tape: T) -> T
    requires empty { T.count tape ≡ 0 }
{
    let (connection, mut caller) = connected(rt, alloc, Side::Client, false, tape);
    open(rt, &connection, &mut caller);
    let other = one_more(rt, &connection, &mut caller);
    let call = Call::fire_and_forget(blob(rt, alloc, b"hi"));
    let caller = ask_in_two(rt, &connection, caller, other, &call);
    let tape = close(rt, connection, caller);
    check_calls(rt, &tape);
    tape
}

#[test]
fn two_threads_share_one_list(rt: HostRuntime) {
    share(&rt, rt.alloc(), Kept::new(rt.alloc()));
}

// Waits for a job, which never comes.
fn wait_in_vain<R: Abort + Wait, T: Tape>(
    rt: &R,
    connection: &Connection<T>,
    waiter: Caller<T>,
) -> Caller<T>
    requires of { waiter.of ≡ connection.now }
    ensures of { result.of ≡ connection.now }
{
    let mut waiter = waiter;
    check(rt, connection.wait_job(rt, &mut waiter), Wanted::Closed);
    waiter
}

// Closes the session, for which the other caller wakes.
fn wake<R: Abort + Wait, T: Tape>(
    rt: &R,
    connection: &Connection<T>,
    closer: Caller<T>,
) -> Caller<T>
    requires of { closer.of ≡ connection.now }
    ensures of { result.of ≡ connection.now }
{
    let mut closer = closer;
    ask(rt, connection, &mut closer, Call::Close, Wanted::Done);
    closer
}

// One caller waits in this thread, and the other closes in a thread that is started for it, so that
// the first mostly sleeps by then.
fn wait_and_wake<R: Abort + Threads + Wait + Sync, T: Tape + Send>(
    rt: &R,
    connection: &Connection<T>,
    waiter: Caller<T>,
    closer: Caller<T>,
) -> Caller<T>
    requires waiter { waiter.of ≡ connection.now }
    requires closer { closer.of ≡ connection.now }
    ensures of { result.of ≡ connection.now }
{
    let (mut closer, waiter) = join(
        rt,
        || -> Caller<T>
            requires { closer.of ≡ connection.now }
            ensures { result.of ≡ connection.entry.now }
        { wake(rt, connection, closer) },
        || -> Caller<T>
            requires { waiter.of ≡ connection.now }
            ensures { result.of ≡ connection.entry.now }
        { wait_in_vain(rt, connection, waiter) },
    );
    connection.join(&mut closer, waiter);
    closer
}

// Opens a client, for whose end one caller waits until the other closes it.
fn close_in_two<R: Abort + Threads + Wait + Sync, T: Tape + Send>(
    rt: &R,
    alloc: Global,
    tape: T,
) -> T
    requires empty { T.count tape ≡ 0 }
{
    let (connection, mut closer) = connected(rt, alloc, Side::Client, false, tape);
    open(rt, &connection, &mut closer);
    let waiter = one_more(rt, &connection, &mut closer);
    let caller = wait_and_wake(rt, &connection, waiter, closer);
    close(rt, connection, caller)
}

#[test]
fn a_waiter_wakes(rt: HostRuntime) {
    for _ in 0..WAITS {
        close_in_two(&rt, rt.alloc(), Blank::new());
    }
}
