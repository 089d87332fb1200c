//! A server with three slots, and the links that it serves.

ghost use Rattle.std.specs.Prelude.{◌≡◌, ◌<◌, ◌∷◌, [], IfSome, false, length, true};
ghost use Rattle.rs_wire.specs.declared.words.Side.TheVariants.{Server};
ghost use Rattle.rs_wire.specs.Settings.{usual};
ghost use Rattle.outside.specs.Links.{IsNew};
ghost use Rattle.outside.specs.MemoryLink.{shown_of};
ghost use Rattle.server.specs.Opening.{AreOf};

use conn::{Caller, Connection};
use handlers::{Law, Routes, Stored};
use outside::{After, Clock, MemClock, MemLink};
use rs_wire::{Amount, Blob, Checked, Kind, Settings, Side, check};
use server::{Served, serve_connection};
use session_core::Session;
use session_table::Sessions;
use std::alloc::Global;
use std::process::Abort;
use std::sync::{Mutex, Wait};
use tape::{Shelf, Tape};
use workers::Work;

/// How many slots there are.
pub const SLOTS: usize = 3;

/// The most bytes that a call of a link moves.
const MOST: u32 = 100_000;

/// What all slots share.
#[derive(Drop)]
pub struct Shared {
    pub table: Mutex<Sessions>,
    pub settings: Checked,
    pub routes: Routes<Law>,
}

/// How a link is served.
#[derive(Clone, Copy)]
pub struct Plan {
    /// Below 3.
    pub slot: u32,
    /// What the clock gives, in milliseconds; the last one again and again.
    pub moments: &'static [u64],
    /// Whether the thread of the link answers jobs.
    pub works: bool,
    /// How many requests are granted, and 0 for no grant.
    pub grant: u32,
}

/// At the first slot, with a clock that stands still.
pub const PLAIN: Plan = Plan {
    slot: 0,
    moments: &[0],
    works: false,
    grant: 0,
};

fn settings_of<R: Abort>(rt: &R, alloc: Global, resume: bool, lease: bool) -> Checked
    ensures { result ≡ record (usual Server) { resume = resume; lease = lease } }
{
    let mut settings = Settings::usual(alloc, Side::Server).expect(rt, "there is memory");
    settings.resume = resume;
    settings.lease = lease;
    match check(settings) {
        Ok(settings) => settings,
        Err(_) => panic!(rt; "the settings are right"),
    }
}

fn session<R: Abort, T: Tape + Drop>(
    rt: &R,
    alloc: Global,
    settings: Checked,
    tape: T,
) -> Session<T>
    requires empty { T.count tape ≡ 0 }
    ensures settings { result.settings ≡ settings }
    ensures entries { result.entries ≡ [] }
{
    match Session::new(alloc, settings, tape) {
        Ok(session) => session,
        Err(_) => panic!(rt; "there is memory"),
    }
}

fn connected<R: Abort, T: Tape + Drop>(
    rt: &R,
    alloc: Global,
    settings: Checked,
    tape: T,
) -> (Connection<T>, Caller<T>)
    requires empty { T.count tape ≡ 0 }
    ensures of { result.1.of ≡ result.0 }
    ensures settings { result.0.settings ≡ settings }
{
    match Connection::new(alloc, session(rt, alloc, settings, tape)) {
        Ok(made) => made,
        Err(_) => panic!(rt; "there is memory"),
    }
}

// A connection with a tape of the shelf.
fn lent<R: Abort, H: Shelf>(
    rt: &R,
    alloc: Global,
    shelf: &mut H,
    resume: bool,
    lease: bool,
) -> (Connection<H::Tape>, Caller<H::Tape>)
where
    H::Tape: Drop,
    ensures of { result.1.of ≡ result.0 }
    ensures settings { result.0.settings ≡
        record (usual Server) { resume = resume; lease = lease } }
{
    let settings = settings_of(rt, alloc, resume, lease);
    match shelf.lend(Side::Server) {
        Ok(tape) => connected(rt, alloc, settings, tape),
        Err(_) => panic!(rt; "there is memory"),
    }
}

/// These bytes.
pub fn blob<R: Abort>(rt: &R, alloc: Global, bytes: &[u8]) -> Blob {
    Blob::from_slice(alloc, bytes).expect(rt, "there is memory")
}

/// What the slots of a server share that resumes or not, and has leases or not.
pub fn make_shared<R: Abort>(rt: &R, alloc: Global, resume: bool, lease: bool) -> Shared
    ensures { result.settings ≡ record (usual Server) { resume = resume; lease = lease } }
{
    let mut routes = Routes::new(alloc);
    match routes.add(
        blob(rt, alloc, b"echo"),
        Kind::Response,
        Stored::of(Law::Echo),
    ) {
        Ok(()) => {}
        Err(_) => panic!(rt; "there is memory, and no route is added twice"),
    }
    Shared {
        table: Mutex::new(Sessions::new(alloc)),
        settings: settings_of(rt, alloc, resume, lease),
        routes,
    }
}

// A list of two.
fn two<R: Abort, T: Drop>(rt: &R, alloc: Global, first: T, second: T) -> Vec<T>
    ensures { result.items ≡ first ∷ second ∷ [] }
{
    let mut list = Vec::new(alloc);
    assert!(rt; list.push(first).is_ok());
    assert!(rt; list.push(second).is_ok());
    list
}

// A list of three.
fn three<R: Abort, T: Drop>(rt: &R, alloc: Global, first: T, second: T, third: T) -> Vec<T>
    ensures { result.items ≡ first ∷ second ∷ third ∷ [] }
{
    let mut list = two(rt, alloc, first, second);
    assert!(rt; list.push(third).is_ok());
    list
}

/// Three connections, each with its first caller.
pub fn slots<R: Abort, H: Shelf>(
    rt: &R,
    alloc: Global,
    shelf: &mut H,
    resume: bool,
    lease: bool,
) -> (Vec<Connection<H::Tape>>, Vec<Caller<H::Tape>>)
where
    H::Tape: Drop,
    ensures of { AreOf (record (usual Server) { resume = resume; lease = lease })
        result.0.items result.1.items }
    ensures three { length result.0.items ≡ 3 }
{
    let (first, first_caller) = lent(rt, alloc, shelf, resume, lease);
    let (second, second_caller) = lent(rt, alloc, shelf, resume, lease);
    let (third, third_caller) = lent(rt, alloc, shelf, resume, lease);
    let connections = three(rt, alloc, first, second, third);
    let callers = three(rt, alloc, first_caller, second_caller, third_caller);
    (connections, callers)
}

// A connection with a tape of the shelf, and two callers of it.
fn lent_to_two<R: Abort + Wait, H: Shelf>(
    rt: &R,
    alloc: Global,
    shelf: &mut H,
) -> (Connection<H::Tape>, Caller<H::Tape>, Caller<H::Tape>)
where
    H::Tape: Drop,
    ensures of { result.1.of ≡ result.0 }
    ensures other { result.2.of ≡ result.0 }
    ensures settings { result.0.settings ≡
        record (usual Server) { resume = true; lease = false } }
{
    let (connection, mut caller) = lent(rt, alloc, shelf, true, false);
    match connection.split(rt, &mut caller) {
        Ok(other) => (connection, caller, other),
        Err(_) => panic!(rt; "there is a part and a number for one more"),
    }
}

/// Two slots of a server that resumes and has no leases, and two callers of each.
pub struct TwoRows<T: Tape> {
    pub connections: Vec<Connection<T>>,
    pub callers: Vec<Caller<T>>,
    pub others: Vec<Caller<T>>,
}

/// Two connections, and two rows of callers.
pub fn two_rows<R: Abort + Wait, H: Shelf>(rt: &R, alloc: Global, shelf: &mut H) -> TwoRows<H::Tape>
where
    H::Tape: Drop,
    ensures of { AreOf (record (usual Server) { resume = true; lease = false })
        result.connections.items result.callers.items }
    ensures others { AreOf (record (usual Server) { resume = true; lease = false })
        result.connections.items result.others.items }
    ensures two { length result.connections.items ≡ 2 }
{
    let (first, first_caller, first_other) = lent_to_two(rt, alloc, shelf);
    let (second, second_caller, second_other) = lent_to_two(rt, alloc, shelf);
    TwoRows {
        connections: two(rt, alloc, first, second),
        callers: two(rt, alloc, first_caller, second_caller),
        others: two(rt, alloc, first_other, second_other),
    }
}

/// A new link that has these bytes to take, and of which the call with this number fails, from 1;
/// with 0 none does.
pub fn link<R: Abort>(rt: &R, alloc: Global, bytes: &[u8], after: After, fails: u64) -> MemLink
    ensures { IsNew (shown_of result) }
{
    let fails = Vec::from_slice(alloc, &[fails]).expect(rt, "there is memory");
    MemLink::new(alloc, blob(rt, alloc, bytes), after, MOST, fails)
}

/// A clock that gives these moments, the last one again and again.
pub fn clock<R: Abort>(rt: &R, alloc: Global, moments: &[u64]) -> MemClock {
    let moments = Vec::from_slice(alloc, moments).expect(rt, "there is memory");
    assert!(rt; !moments.is_empty());
    MemClock::new(moments)
}

fn work_of(alloc: Global, works: bool) -> Option<Work>
    ensures { IfSome result (λ work. work ≡ []) }
{
    if works { Some(Work::new(alloc)) } else { None }
}

/// Serves the link of a slot by this clock, and says how: as `serve_connection` does.
#[tactic(auto, using(server::proofs::Places::of_back))]
pub fn serve_by<R: Wait, K: Clock, T: Tape>(
    rt: &R,
    alloc: Global,
    connections: &[Connection<T>],
    callers: &mut [Caller<T>],
    shared: &Shared,
    plan: Plan,
    clock: &K,
    link: &mut MemLink,
) -> (Served, Option<(u32, u64)>)
    requires of { AreOf shared.now.settings connections.now callers.old }
    requires server { shared.now.settings.side ≡ Server }
    requires place { plan.slot < length connections.now }
    requires new { IsNew (shown_of link.old) }
    ensures of { AreOf shared.now.settings connections.now callers.new }
{
    let mut jobs = work_of(alloc, plan.works);
    let grant = Amount::of(plan.grant);
    serve_connection(
        rt,
        alloc,
        link,
        clock,
        plan.slot,
        connections,
        callers,
        &shared.table,
        &shared.settings,
        &shared.routes,
        grant,
        &mut jobs,
    )
}

/// Serves the link. Its answer is this one.
pub fn serve<R: Abort + Wait, T: Tape>(
    rt: &R,
    alloc: Global,
    connections: &[Connection<T>],
    callers: &mut [Caller<T>],
    shared: &Shared,
    plan: Plan,
    link: &mut MemLink,
    wanted: Served,
    opened: Option<(u32, u64)>,
)
    requires of { AreOf shared.now.settings connections.now callers.old }
    requires server { shared.now.settings.side ≡ Server }
    requires place { plan.slot < length connections.now }
    requires new { IsNew (shown_of link.old) }
    ensures of { AreOf shared.now.settings connections.now callers.new }
{
    let clock = clock(rt, alloc, plan.moments);
    let served = serve_by(rt, alloc, connections, callers, shared, plan, &clock, link);
    assert!(rt; served.0 == wanted);
    assert!(rt; served.1 == opened);
}
