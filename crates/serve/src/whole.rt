//! The whole server.

ghost use Rattle.std.specs.Prelude.{◌≡◌, ◌≤◌, ◌+◌, ◌++◌, [], Err, IfOk, OnErr, length, vec_capacity};
ghost use Rattle.std.specs.List.{AllByRecursion};
ghost use Rattle.std.specs.Option.{option_map};
ghost use Rattle.rs_wire.specs.declared.words.Side.TheVariants.{Server};
ghost use Rattle.outside.specs.Causes.{Rose};
ghost use Rattle.serve_slots.specs.Callers.{AreCallersOf, AreFirst, HaveSettings, all_placed};
ghost use Rattle.serve_slots.specs.Tapes.{HasAll};
ghost use Rattle.serve_threads.specs.Ending.{rows_of};
ghost use Rattle.serve_threads.specs.Making.{AreInOrder, AreMade, HaveWorkers, working};
ghost use Rattle.serve_threads.specs.Threads.{IsReady, IsVacant};
ghost use Rattle.serve_told.specs.Links.{answers_of, links_of};
ghost use Rattle.serve.specs.Links.{LeavesLinks, fault_in, fault_of, net_of};
ghost use Rattle.serve.specs.Whole.{Serves};
ghost use Rattle.serve.specs.declared.plan.ServeFault.TheVariants as serve_fault;

use crate::plan::{ServeFault, ServePlan, ServedList};
use crate::putting::{add_answers, fault_of, put_links, take_in_workers};
use conn::{Caller, Connection};
use handlers::{Handler, Routes};
use outside::{Clock, Net};
use rs_wire::{Checked, OutOfMemory};
use serve_slots::{make_slots, put_tapes};
use serve_threads::{Guest, Mains, Worker, make_threads, run_threads, take_in_guests};
use server::Served;
use std::alloc::Global;
use std::sync::Wait;
use std::thread::Threads;
use tape::{Shelf, Tape};

// What all of a server's functions share. K is the clock.
#[derive(Clone, Copy)]
struct Serving<'a, K, F: Handler> {
    alloc: Global,
    clock: &'a K,
    routes: &'a Routes<F>,
    // The settings of all sessions.
    settings: &'a Checked,
    plan: &'a ServePlan,
}

// Puts the links back, and says how they were served.
fn end_links<N: Net, T: Tape>(
    net: &mut N,
    guests: Vec<Guest<N::Link, T>>,
    list: Vec<Served>,
) -> Result<ServedList, ServeFault>
where
    N::Link: Drop,
    requires empty { list.items ≡ [] }
    requires room { length guests.items ≤ vec_capacity list }
    requires enough { length (links_of N.Link.shown guests.items) ≤ N.out net.old }
    ensures back { N.back net.new ≡ option_map
        (λ was. was ++ links_of N.Link.shown guests.items) (N.back net.old) }
    ensures out { N.out net.new + length (links_of N.Link.shown guests.items) ≡ N.out net.old }
    ensures asked { N.asked net.new ≡ N.asked net.old }
    ensures faults { N.faults net.new ≡ N.faults net.old }
    ensures list { IfOk result (λ list. list ≡ answers_of guests.items) }
    ensures fault { fault_in result ≡ fault_of guests.items }
{
    let mut list = list;
    let fault = fault_of(&guests);
    add_answers(&guests, &mut list);
    put_links(net, guests);
    match fault {
        None => Ok(ServedList::from_vec(list)),
        Some(fault) => Err(fault),
    }
}

// Takes all callers in, where not all that a server needs could be made.
fn undo<L: Drop, T: Tape>(
    connections: &[Connection<T>],
    mains: &mut [Caller<T>],
    guests: &mut [Guest<L, T>],
    workers: &mut Vec<Worker<T>>,
)
    requires of { AreCallersOf connections.now mains.old }
    requires made { AreMade connections.now mains.old
        (all_placed (rows_of guests.old) ++ working workers.old.items) }
    ensures of { AreCallersOf connections.now mains.new }
    ensures parts { AllByRecursion HasAll mains.new }
{
    take_in_guests(connections, mains, guests);
    take_in_workers(connections, mains, workers);
}

// Serves the links at these places, with these workers beside. Then all callers are taken in, and the
// links are put back.
fn serve_at<
    R: Threads + Wait + Sync,
    N: Net + Send,
    K: Clock + Sync,
    T: Tape + Send,
    F: Handler + Sync,
>(
    rt: &R,
    serving: &Serving<'_, K, F>,
    net: &mut N,
    connections: &[Connection<T>],
    mains: &mut Mains<T>,
    guests: Vec<Guest<N::Link, T>>,
    workers: Vec<Worker<T>>,
    list: Vec<Served>,
) -> Result<ServedList, ServeFault>
where
    N::Link: Send + Drop,
    requires of { AreCallersOf connections.now mains.old.callers.items }
    requires few { length connections.now ≤ 64 }
    requires made { AreMade connections.now mains.old.callers.items
        (all_placed (rows_of guests.items) ++ working workers.items) }
    requires guests { AllByRecursion (IsVacant serving.now.settings.now connections.now) guests.items }
    requires each { length guests.items ≡ length connections.now }
    requires order { AreInOrder 0 guests.items }
    requires workers { AllByRecursion (IsReady serving.now.settings.now connections.now) workers.items }
    requires have { HaveWorkers (length connections.now) workers.items }
    requires empty { list.items ≡ [] }
    requires room { length connections.now ≤ vec_capacity list }
    ensures of { AreCallersOf connections.now mains.new.callers.items }
    ensures parts { AllByRecursion HasAll mains.new.callers.items }
    ensures links { LeavesLinks serving.now.settings.now serving.now.plan.now
        serving.now.routes.now (K.moments serving.now.clock.now) (length connections.now)
        (net_of N.asked N.back N.out N.faults net.old)
        (net_of N.asked N.back N.out N.faults net.new) mains.new.callers.items result }
    ensures cause { result ≡ Err serve_fault.Net → Rose (N.faults net.old) (N.faults net.new) }
    ensures counted { N.faults net.old ≤ N.faults net.new }
{
    let mut guests = guests;
    let mut workers = workers;
    run_threads(
        rt,
        serving.alloc,
        net,
        serving.clock,
        serving.routes,
        serving.settings,
        serving.plan.grant,
        serving.plan.ws,
        connections,
        mains,
        &mut guests,
        &mut workers,
    );
    take_in_workers(connections, &mut mains.callers, &mut workers);
    end_links(net, guests, list)
}

// Serves the links over these connections. All callers are taken in again, whatever it answers.
fn serve_over<
    R: Threads + Wait + Sync,
    N: Net + Send,
    K: Clock + Sync,
    T: Tape + Send,
    F: Handler + Sync,
>(
    rt: &R,
    serving: &Serving<'_, K, F>,
    net: &mut N,
    connections: &[Connection<T>],
    mains: &mut Mains<T>,
) -> Result<ServedList, ServeFault>
where
    N::Link: Send + Drop,
    requires server { serving.now.settings.now.side ≡ Server }
    requires first { AreFirst connections.now mains.old.callers.items }
    requires settings { HaveSettings serving.now.settings.now connections.now }
    requires few { length connections.now ≤ 64 }
    requires workers { 1 ≤ serving.now.plan.now.workers }
    ensures of { AreCallersOf connections.now mains.new.callers.items }
    ensures parts { AllByRecursion HasAll mains.new.callers.items }
    ensures links { LeavesLinks serving.now.settings.now serving.now.plan.now
        serving.now.routes.now (K.moments serving.now.clock.now) (length connections.now)
        (net_of N.asked N.back N.out N.faults net.old)
        (net_of N.asked N.back N.out N.faults net.new) mains.new.callers.items result }
    ensures cause { result ≡ Err serve_fault.Net → Rose (N.faults net.old) (N.faults net.new) }
    ensures counted { N.faults net.old ≤ N.faults net.new }
{
    let works = !serving.settings.settings().resume;
    let mut guests = Vec::new(serving.alloc);
    let mut workers = Vec::new(serving.alloc);
    let made = make_threads(
        rt,
        serving.alloc,
        connections,
        &mut mains.callers,
        works,
        serving.plan.workers,
        &mut guests,
        &mut workers,
    );
    match made {
        Ok(list) => serve_at(rt, serving, net, connections, mains, guests, workers, list),
        Err(_) => {
            undo(connections, &mut mains.callers, &mut guests, &mut workers);
            Err(ServeFault::OutOfMemory)
        }
    }
}

// Serves the links over the connections that were made, where all were.
fn serve_made<
    R: Threads + Wait + Sync,
    N: Net + Send,
    K: Clock + Sync,
    T: Tape + Send,
    F: Handler + Sync,
>(
    rt: &R,
    serving: &Serving<'_, K, F>,
    net: &mut N,
    made: Result<(), OutOfMemory>,
    connections: &[Connection<T>],
    mains: &mut Mains<T>,
) -> Result<ServedList, ServeFault>
where
    N::Link: Send + Drop,
    requires server { serving.now.settings.now.side ≡ Server }
    requires first { AreFirst connections.now mains.old.callers.items }
    requires settings { HaveSettings serving.now.settings.now connections.now }
    requires few { length connections.now ≤ 64 }
    requires workers { 1 ≤ serving.now.plan.now.workers }
    ensures of { AreCallersOf connections.now mains.new.callers.items }
    ensures parts { AllByRecursion HasAll mains.new.callers.items }
    ensures links { LeavesLinks serving.now.settings.now serving.now.plan.now
        serving.now.routes.now (K.moments serving.now.clock.now) (length connections.now)
        (net_of N.asked N.back N.out N.faults net.old)
        (net_of N.asked N.back N.out N.faults net.new) mains.new.callers.items result }
    ensures unmade { OnErr made (result ≡ Err serve_fault.OutOfMemory) }
    ensures cause { result ≡ Err serve_fault.Net → Rose (N.faults net.old) (N.faults net.new) }
    ensures counted { N.faults net.old ≤ N.faults net.new }
{
    match made {
        Ok(()) => serve_over(rt, serving, net, connections, mains),
        Err(_) => Err(ServeFault::OutOfMemory),
    }
}

/// Accepts as many links as the plan says, serves each on its own thread, with workers beside, and puts
/// the links and the tapes of the sessions back. Where no thread can be made the work is done by the one
/// that would have started it: a link at once, before the next is accepted, and a worker's at the end.
///
/// A connection is made for each link, with a session of these settings round a tape of the shelf. A
/// link whose first frame names a session of another slot goes on with that one (RSocket 1.0, "Resuming
/// Operation"). After a fault of the net nothing more is accepted; the links that came are served to
/// their end. When all have ended each session is closed, and the jobs that wait are served, to be
/// refused where they send anything.
///
/// It answers how each link was served, in the order of acceptance. `Net` comes where the net failed, and
/// `OutOfMemory` where memory ran out before the first link, while one was accepted, or while one was
/// served, also beside a fault of the net. Either way all links and all tapes are put back.
pub fn serve<R: Threads + Wait + Sync, N: Net + Send, K: Clock + Sync, H: Shelf, F: Handler + Sync>(
    rt: &R,
    alloc: Global,
    net: &mut N,
    clock: &K,
    shelf: &mut H,
    routes: &Routes<F>,
    settings: &Checked,
    plan: &ServePlan,
) -> Result<ServedList, ServeFault>
where
    N::Link: Send + Drop,
    H::Tape: Send + Drop,
    requires server { settings.now.side ≡ Server }
    requires connections { (1 ≤ plan.now.connections) × (plan.now.connections ≤ 64) }
    requires workers { (1 ≤ plan.now.workers) × (plan.now.workers ≤ 16) }
    // The tapes and the links that were put back, what the net was asked, and how each link was served.
    ensures serves { Serves settings.now plan.now routes.now (K.moments clock.now)
        (H.back shelf.old) (H.back shelf.new) (net_of N.asked N.back N.out N.faults net.old)
        (net_of N.asked N.back N.out N.faults net.new) result }
    // No tape that was lent is kept.
    ensures lent { H.lent shelf.new ≡ H.lent shelf.old }
    ensures cause { result ≡ Err serve_fault.Net → Rose (N.faults net.old) (N.faults net.new) }
    ensures counted { N.faults net.old ≤ N.faults net.new }
{
    let mut connections = Vec::new(alloc);
    let mut mains = Mains {
        callers: Vec::new(alloc),
    };
    let made = make_slots(
        alloc,
        shelf,
        settings,
        plan.connections as usize,
        &mut connections,
        &mut mains.callers,
    );
    let serving = Serving {
        alloc,
        clock,
        routes,
        settings,
        plan,
    };
    let served = serve_made(rt, &serving, net, made, &connections, &mut mains);
    let Mains { callers } = mains;
    put_tapes(shelf, connections, callers);
    served
}
