//! The beginning of a call: a tick, and the first opening.

ghost use Rattle.std.specs.Prelude.{◌≡◌, ◌≢◌, ◌<◌, IfErr, IfOk, None, OnOk};
ghost use Rattle.rs_wire.specs.declared.words.Side.TheVariants.{Client as Calling};
ghost use Rattle.client.specs.Counting.{HasDialed};
ghost use Rattle.rsocket_call.specs.Begun.{HasOpened, HasTicked, IsStillTo, came_of};

use client::{BeginFault, Called, Client};
use command_line::CallTask;
use conn::{Caller, Connection};
use outside::{Clock, Net};
use rs_wire::OutOfMemory;
use std::alloc::Global;
use std::sync::Wait;
use tape::{Answer, Event, Tape};

fn ticked(answer: Answer) -> Result<(), OutOfMemory>
    ensures { OnOk result (answer ≢ Answer.OutOfMemory) }
{
    if answer.is_out_of_memory() {
        return Err(OutOfMemory);
    }
    Ok(())
}

// Tells the session the moment now.
fn tick<T: Tape, K: Clock, R: Wait>(
    rt: &R,
    clock: &K,
    connection: &Connection<T>,
    caller: &mut Caller<T>,
) -> Result<(), OutOfMemory>
    requires of { caller.old.of ≡ connection.now }
    ensures same { caller.new ≡ record caller.old { front = caller.new.front; note = None } }
    ensures ticks { OnOk result (HasTicked (K.moments clock.now) caller.old caller.new.front) }
{
    ticked(connection.event(rt, caller, &Event::Tick { now: clock.now() }))
}

// What a call comes to that could not begin.
fn came_of(fault: BeginFault) -> Called
    ensures { result ≡ came_of fault }
{
    match fault {
        BeginFault::Net => Called::Net,
        BeginFault::Refused(_) | BeginFault::OutOfMemory => Called::OutOfMemory,
    }
}

/// Tells the session the moment, and opens it over a link that is dialed. Where that fails, a link
/// that was dialed is put back, and the connection and the caller come back, with what the call came
/// to: `Net`, or `OutOfMemory`.
pub fn begin<N: Net, T: Tape, K: Clock, R: Wait>(
    rt: &R,
    alloc: Global,
    task: &CallTask,
    net: &mut N,
    clock: &K,
    connection: Connection<T>,
    mut caller: Caller<T>,
) -> Result<Client<N, T>, (Connection<T>, Caller<T>, Called)>
    requires of { caller.of ≡ connection }
    requires client { connection.settings.side ≡ Calling }
    ensures asked { HasDialed task.now.address task.now.ws (N.asked net.old) (N.asked net.new) }
    ensures opened { IfOk result (HasOpened (K.moments clock.now) caller) }
    ensures to { IfOk result (λ c. (c.address ≡ task.now.address) × (c.ws ≡ task.now.ws)) }
    ensures kept { IfOk result (λ c. (N.back net.new ≡ N.back net.old) ×
        (N.faults net.new ≡ N.faults net.old) × (0 < N.out net.new)) }
    ensures connection { IfErr result (λ r. r.0 ≡ connection) }
    ensures caller { IfErr result (λ r.
        r.1 ≡ record caller { front = r.1.front; note = r.1.note }) }
    ensures cause { IfErr result (λ r. IsStillTo r.2 (K.moments clock.now) caller r.1.front
        (N.back net.old) (N.back net.new) (N.faults net.old) (N.faults net.new)) }
{
    if tick(rt, clock, &connection, &mut caller).is_err() {
        return Err((connection, caller, Called::OutOfMemory));
    }
    match Client::begin(rt, alloc, net, &task.address, task.ws, connection, caller) {
        Ok(client) => Ok(client),
        Err((connection, caller, fault)) => Err((connection, caller, came_of(fault))),
    }
}
