//! The calls of a worker.

ghost use Rattle.std.specs.Prelude.{◌≡◌, ◌≤◌, ◌^◌, ℕ, length};
ghost use Rattle.rs_wire.specs.Calls.{CanBeAsked};
ghost use Rattle.session_laws.specs.Streams.{IsLawful};
ghost use Rattle.workers.specs.Causes.{WasAnswered};
ghost use Rattle.workers.specs.Courses.{GoesOn, HasReplied, HasSent, IsWorkersCall, accepted_of, bytes_of_all, course};
ghost use Rattle.workers.specs.Going.{MayAnswer, told};

use conn::{Caller, Connection};
use rs_wire::Call;
use std::sync::Wait;
use tape::{Answer, Tape};

/// Makes one of a worker's calls.
pub fn ask<R: Wait, T: Tape>(
    rt: &R,
    connection: &Connection<T>,
    caller: &mut Caller<T>,
    call: &Call,
) -> Answer
    requires of { caller.old.of ≡ connection.now }
    requires workers { IsWorkersCall call.now }
    requires askable { CanBeAsked call.now }
    ensures same { caller.new ≡
        record caller.old { front = caller.new.front; note = caller.new.note } }
    ensures told { (s : ℕ) → course caller.old.names s caller.new.front
        ≡ told s call.now result (course caller.old.names s caller.old.front) }
    ensures goes { GoesOn (λ c. c ≡ call.now) caller.old.names caller.old.number
        caller.old.front caller.new.front (length (accepted_of call.now result)) }
    ensures sent { HasSent caller.old.names caller.old.front caller.new.front
        (bytes_of_all (accepted_of call.now result)) }
    ensures replied { HasReplied caller.old.names caller.old.front caller.new.front
        (accepted_of call.now result) }
    ensures may { MayAnswer call.now result }
    ensures was { WasAnswered connection.now.settings caller.old.number caller.old.front
        caller.new.front call.now result }
    ensures full { result ≡ Answer.TapeFull → 2 ^ 63 ≤ length caller.new.front }
    ensures lawful { IsLawful connection.now.settings caller.new.front }
{
    // The caller's number is one of its names, and its front is lawful, which contracts have from these
    // two calls alone.
    let _number = caller.number();
    let answer = connection.call(rt, caller, call);
    caller.legal();
    answer
}
