//! Two workers, each in its thread.

ghost use Rattle.std.specs.Prelude.{◌≡◌};

use crate::trial::{add, close, comes, opened};
use conn::{Caller, Connection};
use handlers::{Handler, Law, Produced, Routes, Stored};
use rs_wire::{Blob, Kind};
use std::alloc::Global;
use std::process::Abort;
use std::sync::Wait;
use std::sync::atomic::{AtomicBool, Ordering};
use std::thread::{Threads, join, yield_now};
use tape::{Blank, Tape};
use workers::{Gate, Work, Worked, serve_job};

/// How often stream 1 looks before it gives up.
const MOST_LOOKS: u32 = 10_000_000;

/// Where stream 1 is held.
#[derive(Drop)]
enum Held {
    /// Before its handler is asked.
    Before,
    /// While its handler is asked.
    Within,
}

/// Holds stream 1 until stream 3 is answered.
#[derive(Drop)]
struct Hold {
    held: Held,
    answered: AtomicBool,
    gave_up: AtomicBool,
}

impl Hold {
    fn new(held: Held) -> Hold {
        Hold {
            held,
            answered: AtomicBool::new(false),
            gave_up: AtomicBool::new(false),
        }
    }

    // Waits until stream 3 is answered, or gives up.
    fn wait(&self) {
        for _ in 0..MOST_LOOKS {
            if self.answered.load(Ordering::SeqCst) {
                return;
            }
            yield_now();
        }
        self.gave_up.store(true, Ordering::SeqCst);
    }
}

/// Holds stream 1 before its handler is asked, where it is to be held there, and tells what is
/// answered.
#[derive(Drop)]
struct HeldGate<'a> {
    hold: &'a Hold,
}

impl Gate for HeldGate<'_> {
    fn before(&self, stream: u32) {
        if stream == 1 && matches!(self.hold.held, Held::Before) {
            self.hold.wait();
        }
    }

    fn after(&self, stream: u32) {
        if stream == 3 {
            self.hold.answered.store(true, Ordering::SeqCst);
        }
    }
}

/// Echoes, and holds the content `a`, that of stream 1, while it is asked, where it is to be held
/// there.
#[derive(Drop)]
struct HeldEcho<'a> {
    hold: &'a Hold,
}

impl Handler for HeldEcho<'_> {
    ghost use Rattle.handlers.specs.declared.law.Law.TheVariants as law;
    ghost use Rattle.handlers.specs.Values.{value};

    ghost gives = { λ _ content index. value law.Echo content index };

    fn call(&self, alloc: Global, content: &Blob, index: u64) -> Produced {
        if content.as_slice() == b"a".as_slice() && matches!(self.hold.held, Held::Within) {
            self.hold.wait();
        }
        Law::Echo.call(alloc, content, index)
    }
}

// The route of a handler that may be held.
fn echo<'a, R: Abort>(rt: &R, alloc: Global, hold: &'a Hold) -> Routes<HeldEcho<'a>> {
    let mut routes = Routes::new(alloc);
    let stored = Stored::new(Law::Echo, HeldEcho { hold });
    add(rt, alloc, &mut routes, b"echo", Kind::Response, stored);
    routes
}

// Whether a job was served with one item.
fn is_one(worked: &Worked) -> bool {
    matches!(worked, Worked::Served { items: 1, .. })
}

// A response of one item is served.
fn serve_one<R: Abort + Wait, T: Tape>(
    rt: &R,
    alloc: Global,
    connection: &Connection<T>,
    caller: Caller<T>,
    hold: &Hold,
) -> Caller<T>
    requires of { caller.of ≡ connection.now }
    ensures of { result.of ≡ connection.now }
{
    let mut caller = caller;
    let routes = echo(rt, alloc, hold);
    let gate = HeldGate { hold };
    let mut work = Work::new(alloc);
    let worked = serve_job(
        rt,
        alloc,
        connection,
        &mut caller,
        &routes,
        &gate,
        &mut work,
    );
    let is_one = is_one(&worked);
    drop(worked);
    drop(work);
    drop(routes);
    assert!(rt; is_one);
    caller
}

// Two workers serve a response each, in two threads, and are joined.
fn serve_in_two<R: Abort + Threads + Wait + Sync, T: Tape + Send>(
    rt: &R,
    alloc: Global,
    connection: &Connection<T>,
    first: Caller<T>,
    second: Caller<T>,
    hold: &Hold,
) -> Caller<T>
    requires first { first.of ≡ connection.now }
    requires second { second.of ≡ connection.now }
    ensures of { result.of ≡ connection.now }
{
    let (mut caller, other) = join(
        rt,
        || -> Caller<T>
            requires { first.of ≡ connection.now }
            ensures { result.of ≡ connection.entry.now }
        { serve_one(rt, alloc, connection, first, hold) },
        || -> Caller<T>
            requires { second.of ≡ connection.now }
            ensures { result.of ≡ connection.entry.now }
        { serve_one(rt, alloc, connection, second, hold) },
    );
    connection.join(&mut caller, other);
    caller
}

fn one_more<R: Abort + Wait, T: Tape>(
    rt: &R,
    connection: &Connection<T>,
    caller: &mut Caller<T>,
) -> Caller<T>
    requires of { caller.old.of ≡ connection.now }
    ensures same { caller.new.of ≡ connection.now }
    ensures of { result.of ≡ connection.now }
{
    connection.split(rt, caller).expect(rt, "there are parts")
}

/// A request of stream 1, for the route `echo` and with the content `a`.
const FIRST: &[u8] = b"\x00\x00\x00\x01\x11\x00\x00\x00\x04echoa";

/// And one of stream 3, with the content `b`.
const SECOND: &[u8] = b"\x00\x00\x00\x03\x11\x00\x00\x00\x04echob";

// Requests come on streams 1 and 3, and each of two workers serves one: the one of stream 1 goes on
// once that of stream 3 is answered.
fn cross<R: Abort + Threads + Wait + Sync, T: Tape + Send>(
    rt: &R,
    alloc: Global,
    tape: T,
    held: Held,
) -> T
    requires empty { T.count tape ≡ 0 }
{
    let (server, mut caller) = opened(rt, alloc, tape);
    assert!(rt; comes(rt, alloc, &server, &mut caller, FIRST));
    assert!(rt; comes(rt, alloc, &server, &mut caller, SECOND));
    let other = one_more(rt, &server, &mut caller);
    let hold = Hold::new(held);
    let caller = serve_in_two(rt, alloc, &server, caller, other, &hold);
    assert!(rt; !hold.gave_up.load(Ordering::SeqCst));
    close(rt, server, caller)
}

#[test]
fn a_job_is_held_before_its_handler_while_another_is_answered(rt: HostRuntime) {
    cross(&rt, rt.alloc(), Blank::new(), Held::Before);
}

#[test]
fn a_handler_is_held_while_another_job_is_answered(rt: HostRuntime) {
    cross(&rt, rt.alloc(), Blank::new(), Held::Within);
}
