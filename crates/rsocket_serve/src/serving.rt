//! One server.

ghost use Rattle.std.specs.Prelude.{◌≡◌, ◌≤◌, ◌⊎◌, Err, IfOk, OnErr, OnOk};
ghost use Rattle.outside.specs.Causes.{Rose};
ghost use Rattle.rsocket_output.specs.Written.{CutsOffSome, FailedWrites, WritesLine, WritesSome, memory_line};
ghost use Rattle.rsocket_serve.specs.Came.{HasCome};
ghost use Rattle.rsocket_serve.specs.Served.{AllWereServed, CouldNotListen, GotLegal, IsServeStatus, NetFailed, WasEnding, listened, settings_for};
ghost use Rattle.serve.specs.Links.{net_of};
ghost use Rattle.serve.specs.declared.plan.ServeFault.TheVariants as serve_fault;

use crate::last::tell;
use crate::settings::{plan, settings};
use command_line::ServeTask;
use handlers::{Handler, Routes};
use outside::{Clock, Net, NetFault, Sink};
use serve::{ServeFault, ServedList};
use std::alloc::Global;
use std::sync::Wait;
use std::thread::Threads;
use tape::Shelf;

// Makes the net listen at the address of the words.
fn listen<N: Net>(net: &mut N, task: &ServeTask) -> Result<(), ServeFault>
    ensures listened { OnOk result (net_of N.asked N.back N.out N.faults net.new
        ≡ listened task.now (net_of N.asked N.back N.out N.faults net.old)) }
    ensures failed { result ≡ Err ServeFault.Net → net_of N.asked N.back N.out N.faults net.new
        ≡ record (listened task.now (net_of N.asked N.back N.out N.faults net.old)) {
          faults = N.faults net.new;
        } }
    ensures cause { result ≡ Err ServeFault.Net → Rose (N.faults net.old) (N.faults net.new) }
{
    match net.listen(&task.address) {
        Ok(()) => Ok(()),
        Err(NetFault::Failed) => Err(ServeFault::Net),
        Err(NetFault::OutOfMemory) => Err(ServeFault::OutOfMemory),
    }
}

// Listens at the address, and serves the links that come to it.
fn come<R: Threads + Wait + Sync, N: Net + Send, K: Clock + Sync, H: Shelf, F: Handler + Sync>(
    rt: &R,
    alloc: Global,
    task: &ServeTask,
    net: &mut N,
    clock: &K,
    shelf: &mut H,
    routes: &Routes<F>,
) -> Result<ServedList, ServeFault>
where
    N::Link: Send + Drop,
    H::Tape: Send + Drop,
    requires connections { (1 ≤ task.now.connections) × (task.now.connections ≤ 64) }
    requires workers { (1 ≤ task.now.workers) × (task.now.workers ≤ 16) }
    ensures come { HasCome task.now routes.now (K.moments clock.now)
        (H.back shelf.old) (H.back shelf.new) (net_of N.asked N.back N.out N.faults net.old)
        (net_of N.asked N.back N.out N.faults net.new) result }
    ensures got { GotLegal (settings_for task.now) (H.back shelf.old) (H.back shelf.new) }
    ensures lent { H.lent shelf.new ≡ H.lent shelf.old }
{
    let Ok(settings) = settings(alloc, task) else {
        return Err(ServeFault::OutOfMemory);
    };
    listen(net, task)?;
    let plan = plan(task);
    serve::serve(rt, alloc, net, clock, shelf, routes, &settings, &plan)
}

/// Serves the connections that the words ask for: listens at the address, accepts as many links as
/// the words say, serves each on its own thread with workers beside it, and writes `served` and how
/// many those were once all have ended.
///
/// The status is 0 where all were served. 5: the line could not be written. 6: there was not enough
/// memory. 8: the net failed, as it was to listen or as a link was to come; the links that came before
/// are served to their end. But for 0 and 5 the line says so.
pub fn serve<
    R: Threads + Wait + Sync,
    O: Sink,
    N: Net + Send,
    K: Clock + Sync,
    H: Shelf,
    F: Handler + Sync,
>(
    rt: &R,
    alloc: Global,
    task: &ServeTask,
    output: &mut O,
    net: &mut N,
    clock: &K,
    shelf: &mut H,
    routes: &Routes<F>,
) -> u8
where
    N::Link: Send + Drop,
    H::Tape: Send + Drop,
    requires connections { (1 ≤ task.now.connections) × (task.now.connections ≤ 64) }
    requires workers { (1 ≤ task.now.workers) × (task.now.workers ≤ 16) }
    ensures status { IsServeStatus result }

    // All links came and were served, and this is said.
    ensures done { result ≡ 0 → WritesSome (AllWereServed task.now routes.now (K.moments clock.now)
        (H.back shelf.old) (H.back shelf.new) (net_of N.asked N.back N.out N.faults net.old)
        (net_of N.asked N.back N.out N.faults net.new)) (O.shown output.old) (O.shown output.new) }

    // The last line could not be written whole.
    ensures cut_off { result ≡ 5 → CutsOffSome (WasEnding task.now routes.now (K.moments clock.now)
        (H.back shelf.old) (H.back shelf.new) (net_of N.asked N.back N.out N.faults net.old)
        (net_of N.asked N.back N.out N.faults net.new)) (O.shown output.old) (O.shown output.new) }
    ensures memory { result ≡ 6 →
        WritesLine memory_line (O.shown output.old) (O.shown output.new) }

    // The net failed, and this is said.
    ensures failed { result ≡ 8 → WritesSome (NetFailed task.now routes.now (K.moments clock.now)
        (H.back shelf.old) (H.back shelf.new) (net_of N.asked N.back N.out N.faults net.old)
        (net_of N.asked N.back N.out N.faults net.new)) (O.shown output.old) (O.shown output.new) }

    // Where neither the net nor a write fails all are served, unless memory runs out.
    ensures complete { ¬ (Rose (N.faults net.old) (N.faults net.new)) →
        ¬ (Rose (O.shown output.old).faults (O.shown output.new).faults) →
        (result ≡ 0) ⊎ (result ≡ 6) }
    ensures failed_writes { FailedWrites
        (O.shown output.old).faults (O.shown output.new).faults result }

    // On every status as many tapes are lent as before, and those that came back are sessions'.
    ensures lent { H.lent shelf.new ≡ H.lent shelf.old }
    ensures got { GotLegal (settings_for task.now) (H.back shelf.old) (H.back shelf.new) }
{
    let served = come(rt, alloc, task, net, clock, shelf, routes);
    tell(alloc, output, task.connections, served)
}
