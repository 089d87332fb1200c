//! The threads: what they need is made, and they are run.

ghost use Rattle.std.specs.Prelude.{◌≡◌, ◌≤◌, ◌<◌, ◌+◌, ◌++◌, true, false, [], IfOk, List, OnOk, length, vec_capacity};
ghost use Rattle.std.specs.List.{AllByRecursion};
ghost use Rattle.rs_wire.specs.declared.settings.Settings.{Settings};
ghost use Rattle.rs_wire.specs.declared.words.Side.TheVariants.{Server};
ghost use Rattle.crew.specs.Places.{Pairwise};
ghost use Rattle.serve_slots.specs.Callers.{AreCallersOf, AreFirst, HaveSettings, all_placed};
ghost use Rattle.serve_threads.specs.Ending.{HaveCome, rows_of};
ghost use Rattle.serve_threads.specs.Making.{AreInOrder, AreMade, HaveWorkers, working};
ghost use Rattle.serve_threads.specs.Threads.{IsDone, IsReady, IsVacant};

use crate::ending::Mains;
use crate::guest::Guest;
use crate::making::{make_guests, make_workers};
use crate::shared::Shared;
use crate::worker::Worker;
use conn::{Caller, Connection};
use crew::serve_with_workers;
use handlers::{Handler, Routes};
use outside::{Clock, Net};
use rs_wire::{Amount, Checked, OutOfMemory};
use server::Served;
use session_table::Sessions;
use std::alloc::Global;
use std::sync::{Mutex, Wait};
use std::thread::Threads;
use tape::Tape;

/// Makes what the threads need: the places of the links, the workers, and a list with room for the
/// answers. Where memory runs out, what was made so far stays.
pub fn make_threads<R: Wait, L: Drop, T: Tape>(
    rt: &R,
    alloc: Global,
    connections: &[Connection<T>],
    mains: &mut [Caller<T>],
    works: bool,
    each: u32,
    guests: &mut Vec<Guest<L, T>>,
    workers: &mut Vec<Worker<T>>,
) -> Result<Vec<Served>, OutOfMemory>
    requires first { AreFirst connections.now mains.old }
    requires few { length connections.now ≤ 64 }
    requires no_guests { guests.old.items ≡ [] }
    requires no_workers { workers.old.items ≡ [] }
    ensures of { AreCallersOf connections.now mains.new }
    ensures made { AreMade connections.now mains.new
        (all_placed (rows_of guests.new.items) ++ working workers.new.items) }
    ensures vacant { OnOk result ((g : Settings) → g.side ≡ Server → (works ≡ true → g.resume ≡ false)
        → HaveSettings g connections.now
        → AllByRecursion (IsVacant g connections.now) guests.new.items) }
    ensures each { OnOk result (length guests.new.items ≡ length connections.now) }
    ensures order { OnOk result (AreInOrder 0 guests.new.items) }
    ensures ready { OnOk result ((g : Settings) → HaveSettings g connections.now
        → AllByRecursion (IsReady g connections.now) workers.new.items) }
    ensures workers { OnOk result (1 ≤ each
        → HaveWorkers (length connections.now) workers.new.items) }
    ensures empty { IfOk result (λ list. list.items ≡ []) }
    ensures room { IfOk result (λ list. length connections.now ≤ vec_capacity list) }
{
    let list = Vec::with_capacity(alloc, connections.len())?;
    make_guests(rt, alloc, connections, mains, works, guests)?;
    make_workers(rt, connections, mains, each, workers)?;
    Ok(list)
}

/// Serves the links of the net at these places, with these workers beside. At the end the callers of the
/// places are taken in, and each session is closed.
pub fn run_threads<
    R: Threads + Wait + Sync,
    N: Net + Send,
    K: Clock + Sync,
    T: Tape + Send,
    F: Handler + Sync,
>(
    rt: &R,
    alloc: Global,
    net: &mut N,
    clock: &K,
    routes: &Routes<F>,
    settings: &Checked,
    grant: Option<Amount>,
    ws: bool,
    connections: &[Connection<T>],
    mains: &mut Mains<T>,
    guests: &mut [Guest<N::Link, T>],
    workers: &mut [Worker<T>],
)
where
    N::Link: Send + Drop,
    requires of { AreCallersOf connections.now mains.old.callers.items }
    requires guests { AllByRecursion (IsVacant settings.now connections.now) guests.old }
    requires each { length guests.old ≡ length connections.now }
    requires workers { AllByRecursion (IsReady settings.now connections.now) workers.old }
    // The links came and were served, and then all was ended over their places.
    ensures links { HaveCome N.Link.shown settings.now (K.moments clock.now) grant
        routes.now N.asked N.back N.out N.faults ws net.old net.new
        mains.old.callers.items guests.old mains.new.callers.items guests.new }
    ensures workers { Pairwise (IsDone settings.now routes.now) workers.old workers.new }
{
    let table = Mutex::new(Sessions::new(alloc));
    let shared = Shared {
        alloc,
        connections,
        table: &table,
        clock,
        routes,
        settings,
        grant,
        ws,
    };
    serve_with_workers(rt, &shared, net, guests, mains, workers);
}
