//! One call of a server.

ghost use Rattle.std.specs.Prelude.{◌≡◌, ◌<◌, ◌+◌, List, Option, IfOk, is_some};
ghost use Rattle.conn_shared.specs.Members.{first_member};
ghost use Rattle.client.specs.Counting.{HasDialed};
ghost use Rattle.outside.specs.declared.net.Ask.{Ask};
ghost use Rattle.rsocket_call.specs.Begun.{HasOpened};
ghost use Rattle.rsocket_call.specs.Called.{Finished, FoundDead, WasIdle, WasPrinting, WasRefused, WasUnlinked, asking_for, settings_for};
ghost use Rattle.rsocket_call.specs.Ended.{EndsInMemory, GotSome, HasCome, IsCallStatus, IsPlanOf};
ghost use Rattle.rsocket_output.specs.Written.{CutsOffSome, FailedWrites, WritesSome};

use crate::begin::begin;
use crate::connect::connect;
use crate::finish::{finish, put_away};
use crate::last::tell;
use crate::make::{Made, make};
use client::{CallPlan, Called, Client};
use command_line::CallTask;
use conn::{Caller, Connection};
use outside::{Clock, Net, Sink};
use rs_wire::OutOfMemory;
use std::alloc::Global;
use std::sync::Wait;
use tape::Shelf;

/// The status of a call whose output could not be written.
const WRITE_FAULT: u8 = 5;

// What is called, and when to give up.
fn plan(alloc: Global, task: &CallTask) -> Result<CallPlan, OutOfMemory>
    ensures { IfOk result (λ p. IsPlanOf task.now p) }
{
    Ok(CallPlan {
        kind: task.kind,
        route: task.route.copy(alloc)?,
        content: task.content.copy(alloc)?,
        initial: task.count,
        lulls: task.lulls,
        tries: task.tries,
    })
}

// Makes the call of a client that was just opened, and gives back what it has.
fn call_as<H: Shelf, N: Net, K: Clock, O: Sink, R: Wait>(
    rt: &R,
    alloc: Global,
    task: &CallTask,
    plan: &CallPlan,
    output: &mut O,
    net: &mut N,
    clock: &K,
    shelf: &mut H,
    mut client: Client<N, H::Tape>,
) -> Made
    requires plan { IsPlanOf task.now plan.now }
    requires opened { HasOpened (K.moments clock.now) (first_member client.of) client }
    requires settings { client.of.settings ≡ settings_for task.now }
    requires tells { client.of.tells ≡ is_some H.fresh }
    requires to { (client.address ≡ task.now.address) × (client.ws ≡ task.now.ws) }
    requires out { 0 < N.out net.old }
    requires lent { 0 < H.lent shelf.old }
    ensures lent { H.lent shelf.new + 1 ≡ H.lent shelf.old }
    ensures come { (asks : Option (List Ask)) →
        HasDialed task.now.address task.now.ws asks (N.asked net.old) →
        HasCome result task.now (K.moments clock.now) H.fresh
        (H.back shelf.old) (H.back shelf.new) asks (N.asked net.new) (N.back net.old) (N.back net.new)
        (N.faults net.old) (N.faults net.new) (O.shown output.old) (O.shown output.new) }
    ensures got { GotSome (settings_for task.now) H.fresh (H.back shelf.old) (H.back shelf.new) }
{
    let made = make(rt, alloc, &mut client, net, clock, plan, output);
    finish(client, net, shelf);
    made
}

// Opens the session of a call on a link, makes the call, and gives back what it had.
fn call_on<H: Shelf, N: Net, K: Clock, O: Sink, R: Wait>(
    rt: &R,
    alloc: Global,
    task: &CallTask,
    plan: &CallPlan,
    output: &mut O,
    net: &mut N,
    clock: &K,
    shelf: &mut H,
    connection: Connection<H::Tape>,
    caller: Caller<H::Tape>,
) -> Made
    requires plan { IsPlanOf task.now plan.now }
    requires first { caller ≡ first_member connection }
    requires settings { connection.settings ≡ settings_for task.now }
    requires tells { connection.tells ≡ is_some H.fresh }
    requires lent { 0 < H.lent shelf.old }
    ensures lent { H.lent shelf.new + 1 ≡ H.lent shelf.old }
    ensures come { HasCome result task.now (K.moments clock.now)
        H.fresh (H.back shelf.old) (H.back shelf.new) (N.asked net.old) (N.asked net.new)
        (N.back net.old) (N.back net.new)
        (N.faults net.old) (N.faults net.new) (O.shown output.old) (O.shown output.new) }
    ensures got { GotSome (settings_for task.now) H.fresh (H.back shelf.old) (H.back shelf.new) }
{
    match begin(rt, alloc, task, net, clock, connection, caller) {
        Ok(client) => call_as(rt, alloc, task, plan, output, net, clock, shelf, client),
        Err((connection, caller, called)) => {
            put_away(connection, caller, shelf);
            Made::Called(called)
        }
    }
}

// Makes the call, and writes what it prints.
fn come<H: Shelf, N: Net, K: Clock, O: Sink, R: Wait>(
    rt: &R,
    alloc: Global,
    task: &CallTask,
    output: &mut O,
    net: &mut N,
    clock: &K,
    shelf: &mut H,
) -> Made
    ensures lent { H.lent shelf.new ≡ H.lent shelf.old }
    ensures come { HasCome result task.now (K.moments clock.now)
        H.fresh (H.back shelf.old) (H.back shelf.new) (N.asked net.old) (N.asked net.new)
        (N.back net.old) (N.back net.new)
        (N.faults net.old) (N.faults net.new) (O.shown output.old) (O.shown output.new) }
    ensures got { GotSome (settings_for task.now) H.fresh (H.back shelf.old) (H.back shelf.new) }
{
    let Ok(plan) = plan(alloc, task) else {
        return Made::Called(Called::OutOfMemory);
    };
    match connect(alloc, task, shelf) {
        Err(OutOfMemory) => Made::Called(Called::OutOfMemory),
        Ok((connection, caller)) => call_on(
            rt, alloc, task, &plan, output, net, clock, shelf, connection, caller,
        ),
    }
}

/// Makes the call that the words ask for: opens a session over a link of the net, asks for the stream,
/// and writes the line of each delivery as soon as it came; for a fire-and-forget it writes `sent`
/// once all was given to the link.
///
/// The status is 0 where the end of the call came. 5: a write failed. 6: there was not enough memory.
/// 7: the peer closed the session or broke a rule, or the session could not be resumed. 8: no link was
/// had, or one was lost and no try is left. 9: the peer counts as dead. 10: as many lulls were met as
/// the words let it. But for 0 and 5 the last line says so.
pub fn call<H: Shelf, N: Net, K: Clock, O: Sink, R: Wait>(
    rt: &R,
    alloc: Global,
    task: &CallTask,
    output: &mut O,
    net: &mut N,
    clock: &K,
    shelf: &mut H,
) -> u8
    ensures status { IsCallStatus result }

    // The end came, and is said.
    ensures done { result ≡ 0 → WritesSome (Finished task.now (K.moments clock.now)
        H.fresh (H.back shelf.old) (H.back shelf.new) (N.asked net.old) (N.asked net.new)
        (N.back net.old) (N.back net.new))
        (O.shown output.old) (O.shown output.new) }

    // A write failed, the last one: a prefix is written of what the call printed, or of that and its
    // last line.
    ensures cut_off { result ≡ 5 → CutsOffSome (WasPrinting task.now (K.moments clock.now)
        H.fresh (H.back shelf.old) (H.back shelf.new) (N.asked net.old) (N.asked net.new)
        (N.back net.old) (N.back net.new))
        (O.shown output.old) (O.shown output.new) }
    ensures memory { result ≡ 6 → EndsInMemory (O.shown output.old) (O.shown output.new) }

    // The end did not come, for this cause, and what came is said with its line.
    ensures refused { result ≡ 7 → WritesSome (WasRefused task.now (K.moments clock.now)
        H.fresh (H.back shelf.old) (H.back shelf.new) (N.asked net.old) (N.asked net.new)
        (N.back net.old) (N.back net.new))
        (O.shown output.old) (O.shown output.new) }
    ensures unlinked { result ≡ 8 → WritesSome (WasUnlinked task.now (K.moments clock.now)
        H.fresh (H.back shelf.old) (H.back shelf.new) (N.asked net.old) (N.asked net.new)
        (N.back net.old) (N.back net.new)
        (N.faults net.old) (N.faults net.new)) (O.shown output.old) (O.shown output.new) }
    ensures dead { result ≡ 9 → WritesSome (FoundDead task.now (K.moments clock.now)
        H.fresh (H.back shelf.old) (H.back shelf.new) (N.asked net.old) (N.asked net.new)
        (N.back net.old) (N.back net.new))
        (O.shown output.old) (O.shown output.new) }
    ensures idle { result ≡ 10 → WritesSome (WasIdle task.now (K.moments clock.now)
        H.fresh (H.back shelf.old) (H.back shelf.new) (N.asked net.old) (N.asked net.new)
        (N.back net.old) (N.back net.new))
        (O.shown output.old) (O.shown output.new) }
    ensures failed_writes { FailedWrites
        (O.shown output.old).faults (O.shown output.new).faults result }

    // On every status as many tapes are lent as before, and the shelf gets at most one, of a session,
    // which tells its entries where a fresh one tells.
    ensures lent { H.lent shelf.new ≡ H.lent shelf.old }
    ensures got { GotSome (settings_for task.now) H.fresh (H.back shelf.old) (H.back shelf.new) }
{
    match come(rt, alloc, task, output, net, clock, shelf) {
        Made::WriteFault => WRITE_FAULT,
        Made::Called(called) => tell(alloc, output, called),
    }
}
