//! The calls of the lines at one end.

ghost use Rattle.std.specs.Prelude.{◌≡◌, ◌∷◌, [], IfOk, List, OnOk, if◌then◌else◌, replicate};
ghost use Rattle.rs_wire.specs.declared.call.Call.{Call};
ghost use Rattle.std.specs.List.{AllByRecursion};
ghost use Rattle.rs_wire.specs.Calls.{CanBeAsked};
ghost use Rattle.cable_script.specs.Line.{IsLine};
ghost use Rattle.threaded_model.specs.Threaded.{an_item, at_side, calls_in, calls_of};
ghost use Rattle.threaded_asker.specs.Asking.{HasAsked, HasOnlyAsked};

use cable_script::{ITEM_BYTE, Line};
use conn::{Caller, Connection};
use rs_wire::{Blob, Call, Message, OutOfMemory, Side};
use std::alloc::Global;
use std::sync::Wait;
use tape::Tape;

// Asks once, where there is memory, and a place on the tape.
fn ask<T: Tape, R: Wait>(
    rt: &R,
    connection: &Connection<T>,
    caller: &mut Caller<T>,
    call: &Call,
) -> Result<(), OutOfMemory>
    requires of { caller.old.of ≡ connection.now }
    requires askable { CanBeAsked call.now }
    ensures same { caller.new ≡ record caller.old {
      front = caller.new.front;
      note = caller.new.note;
    } }
    ensures only { HasOnlyAsked caller.old caller.new.front }
    ensures asked { OnOk result (HasAsked caller.old (call.now ∷ []) caller.new.front) }
{
    let answer = connection.call(rt, caller, call);
    let starved = answer.is_out_of_memory();
    drop(answer);
    if starved {
        return Err(OutOfMemory);
    }
    Ok(())
}

// Asks the same so many times.
fn ask_often<T: Tape, R: Wait>(
    rt: &R,
    connection: &Connection<T>,
    caller: &mut Caller<T>,
    call: &Call,
    count: u32,
) -> Result<(), OutOfMemory>
    requires of { caller.old.of ≡ connection.now }
    requires askable { CanBeAsked call.now }
    ensures same { caller.new ≡ record caller.old {
      front = caller.new.front;
      note = caller.new.note;
    } }
    ensures only { HasOnlyAsked caller.old caller.new.front }
    ensures asked { OnOk result
        (HasAsked caller.old (replicate count call.now) caller.new.front) }
{
    for _ in 0..count {
        ask(rt, connection, caller, call)?;
    }
    Ok(())
}

// The call that a line `many` makes often.
fn item(alloc: Global, stream: u32, size: u32) -> Result<Call, OutOfMemory>
    ensures { IfOk result (λ call. call ≡ an_item stream size) }
{
    let content = Blob::from_vec(vec![in alloc; ITEM_BYTE; size as usize]?);
    Ok(Call::Next {
        stream,
        message: Message {
            metadata: None,
            content,
        },
        complete: false,
    })
}

// Whether the calls of that side are this end's.
fn is_at(end: Side, side: Side) -> bool
    ensures { (calls : List Call) → at_side end side calls ≡ (if result then calls else []) }
{
    match (end, side) {
        (Side::Client, Side::Client) | (Side::Server, Side::Server) => true,
        _ => false,
    }
}

// Makes the calls of a line, where they are this end's.
fn ask_line<T: Tape, R: Wait>(
    rt: &R,
    alloc: Global,
    connection: &Connection<T>,
    caller: &mut Caller<T>,
    end: Side,
    line: &Line,
) -> Result<(), OutOfMemory>
    requires of { caller.old.of ≡ connection.now }
    requires right { IsLine line.now }
    ensures same { caller.new ≡ record caller.old {
      front = caller.new.front;
      note = caller.new.note;
    } }
    ensures only { HasOnlyAsked caller.old caller.new.front }
    ensures asked { OnOk result (HasAsked caller.old (calls_in end line.now) caller.new.front) }
{
    match line {
        Line::Ask { side, call } => {
            if !is_at(end, *side) {
                return Ok(());
            }
            ask(rt, connection, caller, call)
        }
        Line::Many {
            side,
            stream,
            count,
            size,
        } => {
            if !is_at(end, *side) {
                return Ok(());
            }
            let call = item(alloc, *stream, *size)?;
            let asked = ask_often(rt, connection, caller, &call, count.get());
            drop(call);
            asked
        }
        Line::Up { .. }
        | Line::Down { .. }
        | Line::Drain
        | Line::Cut
        | Line::Open
        | Line::Drop
        | Line::Late { .. }
        | Line::Tick { .. } => Ok(()),
    }
}

/// Makes the calls of the lines at one end, in their order. It waits for a turn at each. Where memory
/// ran out, or the tape was full, the calls before that one were made.
pub fn ask_all<T: Tape, R: Wait>(
    rt: &R,
    alloc: Global,
    connection: &Connection<T>,
    caller: &mut Caller<T>,
    end: Side,
    lines: &[Line],
) -> Result<(), OutOfMemory>
    requires of { caller.old.of ≡ connection.now }
    requires right { AllByRecursion IsLine lines.now }
    ensures same { caller.new ≡ record caller.old {
      front = caller.new.front;
      note = caller.new.note;
    } }
    ensures only { HasOnlyAsked caller.old caller.new.front }
    ensures asked { OnOk result (HasAsked caller.old (calls_of end lines.now) caller.new.front) }
{
    for line in lines {
        ask_line(rt, alloc, connection, caller, end, line)?;
    }
    Ok(())
}
