//! The calls of both ends are made at one time, and bytes are drawn meanwhile.

ghost use Rattle.std.specs.Prelude.{◌≡◌};

use super::ends::{read, run_by_threads, tapes_of};
use cable_script::Script;
use rs_wire::{Call, Delivery, Job, OutOfMemory};
use std::alloc::Global;
use std::process::Abort;
use std::sync::atomic::{AtomicU32, Ordering};
use std::sync::{Arc, Wait};
use std::thread;
use std::thread::Threads;
use tape::{Answer, Entry, Event, Tape};

/// How often a tape looks for what it awaits.
const LOOKS: u32 = 10_000_000;

/// The bits of what was seen: a call of either end, bytes that the client drew, and a look that came to
/// its end.
const CLIENT: u32 = 1;

const SERVER: u32 = 2;

const DREW: u32 = 4;

const GAVE_UP: u32 = 8;

/// A tape that keeps nothing, and that waits at a call until something else was seen.
#[derive(Drop)]
struct Meeting {
    count: u64,
    // What is seen by a call, and by a draw.
    called: u32,
    drew: u32,
    awaits: u32,
    seen: Arc<AtomicU32, Global>,
}

// Looks until the bits are seen.
fn await_bits(seen: &AtomicU32, bits: u32) {
    for _ in 0..LOOKS {
        if seen.load(Ordering::SeqCst) & bits == bits {
            return;
        }
        thread::yield_now();
    }
    seen.fetch_or(GAVE_UP, Ordering::SeqCst);
}

impl Meeting {
    // A call was made: waits.
    fn meet(&self) {
        self.seen.fetch_or(self.called, Ordering::SeqCst);
        await_bits(&self.seen, self.awaits);
    }

    fn watch(&self, event: &Event) {
        match event {
            Event::Asked(_) => self.meet(),
            Event::Draw { .. } => {
                self.seen.fetch_or(self.drew, Ordering::SeqCst);
            }
            _ => {}
        }
    }
}

impl Tape for Meeting {
    ghost use Rattle.std.specs.Prelude.{None, ◌^◌};

    ghost told = { λ b. None };

    ghost count = { λ b. b.count };

    ghost spare = { λ b. 2 ^ 64 };

    ghost counted = { λ b. tt };

    fn reserve(&mut self, _n: usize) -> Result<(), OutOfMemory> {
        Ok(())
    }

    fn push(&mut self, entry: Entry) {
        self.watch(&entry.event);
        self.count += 1;
    }

    fn note(&mut self, _who: u32, event: &Event, _answer: &Answer) -> Result<(), OutOfMemory> {
        self.watch(event);
        self.count += 1;
        Ok(())
    }

    fn note_call(&mut self, _who: u32, _call: &Call, _answer: &Answer) -> Result<(), OutOfMemory> {
        self.meet();
        self.count += 1;
        Ok(())
    }

    fn note_taken(
        &mut self,
        _who: u32,
        _stream: u32,
        _delivery: &Delivery,
    ) -> Result<(), OutOfMemory> {
        self.count += 1;
        Ok(())
    }

    fn note_job(&mut self, _who: u32, _job: &Job) -> Result<(), OutOfMemory> {
        self.count += 1;
        Ok(())
    }

    fn take_back(&mut self) {
        self.count -= 1;
    }

    fn count(&self) -> u64 {
        self.count
    }

    fn entry(&self, _index: u64) -> Option<&Entry> {
        None
    }
}

fn shared<R: Abort>(rt: &R, seen: &Arc<AtomicU32, Global>) -> Arc<AtomicU32, Global> {
    Arc::try_clone(seen).expect(rt, "there are fewer of them")
}

// The tape of a client, whose calls await these bits.
fn client_tape<R: Abort>(rt: &R, seen: &Arc<AtomicU32, Global>, awaits: u32) -> Meeting
    ensures { result.count ≡ 0 }
{
    Meeting {
        count: 0,
        called: CLIENT,
        drew: DREW,
        awaits,
        seen: shared(rt, seen),
    }
}

// The tape of a server.
fn server_tape<R: Abort>(rt: &R, seen: &Arc<AtomicU32, Global>, awaits: u32) -> Meeting
    ensures { result.count ≡ 0 }
{
    Meeting {
        count: 0,
        called: SERVER,
        drew: 0,
        awaits,
        seen: shared(rt, seen),
    }
}

// Runs the script between two ends with these tapes.
fn run_between<R: Abort + Threads + Wait + Sync, T: Tape + Drop + Send>(
    rt: &R,
    alloc: Global,
    script: &Script,
    client: T,
    server: T,
)
    requires client { T.count client ≡ 0 }
    requires server { T.count server ≡ 0 }
{
    let ran = run_by_threads(rt, alloc, script, client, server);
    tapes_of(ran);
}

// What the tapes saw of a run where a call of the client awaits the one, and a call of the server the
// other.
fn seen_of<R: Abort + Threads + Wait + Sync>(
    rt: &R,
    alloc: Global,
    text: &[u8],
    client_awaits: u32,
    server_awaits: u32,
) -> u32 {
    let script = read(rt, alloc, text);
    let seen = Arc::new(alloc, AtomicU32::new(0)).expect(rt, "there is memory");
    let client = client_tape(rt, &seen, client_awaits);
    let server = server_tape(rt, &seen, server_awaits);
    run_between(rt, alloc, &script, client, server);
    seen.load(Ordering::SeqCst)
}

#[test]
fn cable_crossing(rt: HostRuntime) {
    let script = b"client fnf 61\nserver fnf 61\n";
    let seen = seen_of(&rt, rt.alloc(), script, SERVER, CLIENT);
    assert!(rt; seen & GAVE_UP == 0);
    assert!(rt; seen & (CLIENT | SERVER) == CLIENT | SERVER);
}

#[test]
fn bytes_are_drawn_while_calls_are_made(rt: HostRuntime) {
    let seen = seen_of(&rt, rt.alloc(), b"server fnf 61\nup 1000\n", 0, DREW);
    assert!(rt; seen & GAVE_UP == 0);
    assert!(rt; seen & DREW == DREW);
}
