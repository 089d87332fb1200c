//! Two links at one time that ask for sessions of one token.
//!
//! The one that comes first is held up while it has the lock of the table, twice, so that the other
//! waits for it, and waits again. Then the lock is left to the other as soon as it is let go: what the
//! first does with the table after that comes too late.

ghost use Rattle.std.specs.Prelude.{◌≡◌, ◌<◌, length};
ghost use Rattle.rs_wire.specs.declared.words.Side.TheVariants.{Server};
ghost use Rattle.server.specs.Opening.{AreOf};

use super::slots::{PLAIN, Plan, Shared, TwoRows, clock, link, make_shared, serve_by, two_rows};
use super::tokens::RESUMING_SETUP;
use conn::{Caller, Connection};
use outside::{After, Clock};
use rs_wire::SetupFault;
use server::Served;
use std::alloc::Global;
use std::process::Abort;
use std::sync::Wait;
use std::sync::atomic::{AtomicU64, Ordering};
use std::thread;
use std::thread::{Threads, join};
use std::time::{self, Duration};
use tape::{BlankShelf, KeptShelf, Shelf, Tape};

/// How often two links ask for one token.
const ROUNDS: u32 = 30;

/// How long the first link is held up each time, in milliseconds.
const PAUSE: u64 = 1;

/// How often a link looks at its clock before it has the lock of the table for the first time, where
/// old sessions are forgotten, and for the second time, where its session is opened.
const FORGETS: u64 = 1;

const OPENS: u64 = 2;

/// How a link was served, and what it opened.
type Ended = (Served, Option<(u32, u64)>);

/// How far the two links are: each counts what it did.
#[derive(Drop)]
struct Race {
    first: AtomicU64,
    second: AtomicU64,
}

// Waits until the count is above this.
fn wait_above<R: Wait>(rt: &R, count: &AtomicU64, seen: u64) {
    for _ in rt.forever() {
        if count.load(Ordering::SeqCst) > seen {
            return;
        }
        thread::yield_now();
    }
}

/// The clock of the first link, which stands still. It counts how often the link looked at it, and
/// holds the link up while that has the lock of the table.
#[derive(Drop)]
struct HoldingClock<'a, R> {
    rt: &'a R,
    race: &'a Race,
}

impl<R: Wait + time::Clock> HoldingClock<'_, R> {
    fn hold_up(&self, looked: u64) {
        if looked == FORGETS {
            wait_above(self.rt, &self.race.second, 0);
        }
        if looked == FORGETS || looked == OPENS {
            thread::sleep(self.rt, Duration::from_millis(PAUSE));
        }
    }
}

impl<R: Wait + time::Clock> Clock for HoldingClock<'_, R> {
    ghost use Rattle.std.specs.Prelude.{None};

    ghost moments = { λ c. None };

    fn now(&self) -> u64 {
        let looked = self.race.first.fetch_add(1, Ordering::SeqCst);
        self.hold_up(looked);
        0
    }
}

// Serves a link at this slot that begins a session of the token.
fn begin_at<R: Abort + Wait, K: Clock, T: Tape>(
    rt: &R,
    alloc: Global,
    connections: &[Connection<T>],
    callers: &mut [Caller<T>],
    shared: &Shared,
    clock: &K,
    slot: u32,
) -> Ended
    requires of { AreOf shared.now.settings connections.now callers.old }
    requires server { shared.now.settings.side ≡ Server }
    requires place { slot < length connections.now }
{
    let plan = Plan { slot, ..PLAIN };
    let mut link = link(rt, alloc, RESUMING_SETUP, After::Ends, 0);
    serve_by(
        rt,
        alloc,
        connections,
        callers,
        shared,
        plan,
        clock,
        &mut link,
    )
}

// The first link, at the first slot.
fn begin_first<R: Abort + Wait + time::Clock, T: Tape>(
    rt: &R,
    alloc: Global,
    race: &Race,
    connections: &[Connection<T>],
    callers: &mut [Caller<T>],
    shared: &Shared,
) -> Ended
    requires of { AreOf shared.now.settings connections.now callers.old }
    requires server { shared.now.settings.side ≡ Server }
    requires two { length connections.now ≡ 2 }
{
    let clock = HoldingClock { rt, race };
    begin_at(rt, alloc, connections, callers, shared, &clock, 0)
}

// The second link, at the second slot, which comes once the first has the lock of the table.
fn begin_second<R: Abort + Wait, T: Tape>(
    rt: &R,
    alloc: Global,
    race: &Race,
    connections: &[Connection<T>],
    callers: &mut [Caller<T>],
    shared: &Shared,
) -> Ended
    requires of { AreOf shared.now.settings connections.now callers.old }
    requires server { shared.now.settings.side ≡ Server }
    requires two { length connections.now ≡ 2 }
{
    let clock = clock(rt, alloc, &[0]);
    wait_above(rt, &race.first, FORGETS);
    race.second.fetch_add(1, Ordering::SeqCst);
    begin_at(rt, alloc, connections, callers, shared, &clock, 1)
}

// Two threads serve a link each.
fn begin_both<R: Abort + Threads + Wait + Sync + time::Clock, T: Tape + Drop + Send>(
    rt: &R,
    alloc: Global,
    race: &Race,
    connections: &[Connection<T>],
    callers: &mut [Caller<T>],
    others: &mut [Caller<T>],
    shared: &Shared,
) -> (Ended, Ended)
    requires of { AreOf shared.now.settings connections.now callers.old }
    requires others { AreOf shared.now.settings connections.now others.old }
    requires server { shared.now.settings.side ≡ Server }
    requires two { length connections.now ≡ 2 }
{
    join(
        rt,
        || -> Ended
            requires { AreOf shared.now.settings connections.now callers.now
                × (shared.now.settings.side ≡ Server) × (length connections.now ≡ 2) }
        { begin_first(rt, alloc, race, connections, callers, shared) },
        || -> Ended
            requires { AreOf shared.now.settings connections.now others.now
                × (shared.now.settings.side ≡ Server) × (length connections.now ≡ 2) }
        { begin_second(rt, alloc, race, connections, others, shared) },
    )
}

// Whether the session began at this slot, and its link ended.
fn began(ended: &Ended, slot: u32) -> bool {
    *ended == (Served::Parted, Some((slot, 1)))
}

// Whether the token was another session's.
fn was_taken(ended: &Ended) -> bool {
    *ended == (Served::SetupRefused(SetupFault::TokenTaken), None)
}

// One of two links gets the token, and the other does not.
fn ask_at_once<R: Abort + Threads + Wait + Sync + time::Clock, H: Shelf>(
    rt: &R,
    alloc: Global,
    shelf: &mut H,
)
where
    H::Tape: Drop + Send,
{
    let shared = make_shared(rt, alloc, true, false);
    let TwoRows {
        connections,
        mut callers,
        mut others,
    } = two_rows(rt, alloc, shelf);
    let race = Race {
        first: AtomicU64::new(0),
        second: AtomicU64::new(0),
    };
    let (first, second) = begin_both(
        rt,
        alloc,
        &race,
        &connections,
        &mut callers,
        &mut others,
        &shared,
    );
    let one = began(&first, 0) && was_taken(&second);
    let other = was_taken(&first) && began(&second, 1);
    assert!(rt; one || other);
}

#[test]
fn two_links_at_one_time_get_one_token_once(rt: HostRuntime) {
    let alloc = rt.alloc();
    for _ in 0..ROUNDS {
        ask_at_once(&rt, alloc, &mut KeptShelf::new(alloc));
        ask_at_once(&rt, alloc, &mut BlankShelf::new(alloc));
    }
}
