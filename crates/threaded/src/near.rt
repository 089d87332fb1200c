//! The carrier of the client, which this thread is.

ghost use Rattle.std.specs.Prelude.{◌≡◌, ◌∷◌, IfErr, IfOk, OnOk};
ghost use Rattle.rtrb.specs.Ring.{SameConsumer, SameProducer, received, sent};
ghost use Rattle.rs_wire.specs.declared.words.Side.TheVariants.{Client};
ghost use Rattle.threaded_client.specs.Carrying.{IsSound};
ghost use Rattle.threaded.specs.Threads.{IsOn, NearFollows};

use cable_script::Script;
use conn::{Caller, Connection};
use ring::Stop;
use std::alloc::Global;
use std::sync::Wait;
use tape::Tape;
use threaded_client::ClientCarrier;

/// What the carrier of the client hands back: all that it has, or its caller where it stopped.
pub(crate) type NearBack<T> = Result<ClientCarrier<T>, Caller<T>>;

/// Follows the lines, once the first opening came to this. Where it stops it lets its ends of the rings
/// go, so that the other carrier stops.
pub(crate) fn carry_near<T: Tape + Drop, R: Wait>(
    rt: &R,
    alloc: Global,
    client: &Connection<T>,
    script: &Script,
    near: ClientCarrier<T>,
    opened: Result<(), Stop>,
) -> NearBack<T>
    requires of { near.caller.of ≡ client.now }
    requires client { client.now.settings.side ≡ Client }
    requires sound { OnOk opened (IsSound client.now.settings near.conn near.pump) }
    ensures stopped { IfErr result (λ k. IsOn near.caller k) }
    ensures opened { IfOk result (λ c. opened ≡ Ok tt) }
    ensures same { IfOk result (λ c. IsOn near.caller c.caller) }
    ensures out { IfOk result (λ c. SameProducer near.out c.out) }
    ensures from { IfOk result (λ c. SameConsumer near.from c.from) }
    ensures sound { IfOk result (λ c. IsSound client.now.settings c.conn c.pump) }
    ensures followed { IfOk result (λ c. NearFollows script.now.lines near.caller c.caller
        near.pump c.pump (sent near.out) (sent c.out) (received near.from) (received c.from)) }
{
    let mut near = near;
    if opened.is_err() {
        return Err(near.caller);
    }
    match near.carry_all(rt, alloc, client, script.lines()) {
        Ok(()) => Ok(near),
        Err(_) => Err(near.caller),
    }
}
