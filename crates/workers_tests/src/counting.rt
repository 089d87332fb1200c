//! How often a worker asks a handler.

ghost use Rattle.std.specs.Prelude.{◌≡◌};

use crate::trial::{Wanted, add, close, comes, opened, serves};
use handlers::{Handler, Law, Produced, Routes, Stored};
use rs_wire::{Blob, Kind};
use std::alloc::Global;
use std::process::Abort;
use std::sync::Wait;
use std::sync::atomic::{AtomicU64, Ordering};
use tape::{Blank, Tape};
use workers::Work;

/// How often a handler was asked, and the sum of the indices.
#[derive(Drop)]
struct Asked {
    calls: AtomicU64,
    indices: AtomicU64,
}

impl Asked {
    fn new() -> Asked {
        Asked {
            calls: AtomicU64::new(0),
            indices: AtomicU64::new(0),
        }
    }

    // Stops the test where the handler was asked another number of times, or at another index than 0.
    fn check<R: Abort>(&self, rt: &R, calls: u64) {
        assert_eq!(rt; self.calls.load(Ordering::SeqCst), calls);
        assert_eq!(rt; self.indices.load(Ordering::SeqCst), 0);
    }
}

/// Drops its content, and counts how often it is asked.
#[derive(Drop)]
struct CountedDrop<'a> {
    asked: &'a Asked,
}

impl Handler for CountedDrop<'_> {
    ghost use Rattle.handlers.specs.declared.law.Law.TheVariants as law;
    ghost use Rattle.handlers.specs.Values.{value};

    ghost gives = { λ _ content index. value law.Drop content index };

    fn call(&self, alloc: Global, content: &Blob, index: u64) -> Produced {
        self.asked.calls.fetch_add(1, Ordering::SeqCst);
        self.asked.indices.fetch_add(index, Ordering::SeqCst);
        Law::Drop.call(alloc, content, index)
    }
}

// The route of a handler that counts.
fn counted<'a, R: Abort>(rt: &R, alloc: Global, asked: &'a Asked) -> Routes<CountedDrop<'a>> {
    let mut routes = Routes::new(alloc);
    let stored = Stored::new(Law::Drop, CountedDrop { asked });
    add(rt, alloc, &mut routes, b"drop", Kind::Fnf, stored);
    routes
}

/// A fire-and-forget of stream 1, for the route `drop` and with the content `hi`.
const FNF: &[u8] = b"\x00\x00\x00\x01\x15\x00\x00\x00\x04drophi";

// One job is served, and then there is none. The handler is asked for the job alone.
fn serve_once<R: Abort + Wait, T: Tape>(rt: &R, alloc: Global, tape: T) -> T
    requires empty { T.count tape ≡ 0 }
{
    let (server, mut caller) = opened(rt, alloc, tape);
    assert!(rt; comes(rt, alloc, &server, &mut caller, FNF));
    let asked = Asked::new();
    let routes = counted(rt, alloc, &asked);
    let mut work = Work::new(alloc);
    let served = Wanted::Served(1, 0);
    assert!(rt; serves(rt, alloc, &server, &mut caller, &routes, &mut work, served));
    asked.check(rt, 1);
    assert!(rt;
        serves(
            rt,
            alloc,
            &server,
            &mut caller,
            &routes,
            &mut work,
            Wanted::Idle
        )
    );
    asked.check(rt, 1);
    drop(work);
    drop(routes);
    close(rt, server, caller)
}

#[test]
fn the_handler_of_a_fire_and_forget_is_asked_once(rt: HostRuntime) {
    serve_once(&rt, rt.alloc(), Blank::new());
}
