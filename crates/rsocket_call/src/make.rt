//! The steps of a call, each of which writes what it prints.

ghost use Rattle.std.specs.Prelude.{◌≡◌, ◌<◌, IfSome, IsSome, Some, false};
ghost use Rattle.rs_wire.specs.declared.words.Side.TheVariants.{Client as Calls};
ghost use Rattle.client.specs.Clients.{asking_of};
ghost use Rattle.client.specs.Counting.{HasDialed, tries_of};
ghost use Rattle.rsocket_call.specs.Made.{HasMade};

use client::{CallPlan, Called, Client};
use outside::{Clock, Net, Sink};
use rsocket_output::write_all;
use std::alloc::Global;
use std::sync::Wait;
use tape::Tape;

/// How a call came to its end.
#[derive(Clone, Copy, Debug, PartialEq, Eq)]
pub enum Made {
    /// It came to this, and what it printed is written; where memory ran out, maybe not all of it.
    Called(Called),
    /// A write failed.
    WriteFault,
}

// Whether a step ran out of memory.
fn ran_out(step: Option<Called>) -> bool
    ensures { result ≡ false → ¬ (step ≡ Some Called.OutOfMemory) }
{
    match step {
        Some(Called::OutOfMemory) => true,
        _ => false,
    }
}

/// Makes a call, and writes what it prints.
pub fn make<N: Net, T: Tape, K: Clock, O: Sink, R: Wait>(
    rt: &R,
    alloc: Global,
    client: &mut Client<N, T>,
    net: &mut N,
    clock: &K,
    plan: &CallPlan,
    output: &mut O,
) -> Made
    requires side { client.old.of.settings.side ≡ Calls }
    requires link { IsSome client.old.link }
    requires out { 0 < N.out net.old }
    ensures of { client.new.of ≡ client.old.of }
    ensures caller { client.new.caller ≡ record client.old.caller {
      front = client.new.caller.front;
      note = client.new.caller.note;
    } }
    ensures link { IfSome client.new.link (λ link. 0 < N.out net.new) }
    ensures asked { HasDialed client.old.address client.old.ws (N.asked net.old) (N.asked net.new) }
    ensures made { HasMade result (asking_of plan.now) (K.moments clock.now) plan.now.lulls
        (tries_of client.old.of.settings plan.now.tries) client.old client.new
        (N.back net.old) (N.back net.new) (N.faults net.old) (N.faults net.new)
        (O.shown output.old) (O.shown output.new) }
{
    let mut lines = Vec::new(alloc);
    let Ok(mut calling) = client.start(rt, plan) else {
        return Made::Called(Called::OutOfMemory);
    };
    for _ in rt.forever() {
        let step = client.go_on(rt, net, clock, plan, &mut calling, &mut lines);
        if ran_out(step) {
            return Made::Called(Called::OutOfMemory);
        }
        if write_all(output, &lines).is_err() {
            return Made::WriteFault;
        }
        if let Some(called) = step {
            return Made::Called(called);
        }
        lines.clear();
    }
    unreachable!()
}
