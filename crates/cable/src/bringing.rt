//! Events are brought to one end.

ghost use Rattle.std.specs.Prelude.{◌≡◌, None, false, IfOk, OnOk};
ghost use Rattle.rs_wire.specs.declared.words.Side.TheVariants.{Client};
ghost use Rattle.rs_wire.specs.Calls.{CanBeAsked};
ghost use Rattle.session_model.specs.Legal.{CanBring};
ghost use Rattle.session_model.specs.Answers.{answer_to};
ghost use Rattle.session_core.specs.Seen.{IsNoDrawEvent};
ghost use Rattle.cable.specs.Played.{adds, an_item};
ghost use Rattle.cable.specs.Hearing.{IsNoWant};

use cable_script::ITEM_BYTE;
use rs_wire::{Blob, Call, Message, OutOfMemory};
use session_core::Session;
use std::alloc::Global;
use tape::{Answer, Event, Tape};

/// The number of the one caller.
pub(crate) const CALLER: u32 = 0;

/// Where memory did not run out.
pub(crate) fn wanted(answer: &Answer) -> Result<(), OutOfMemory>
    ensures { OnOk result (IsNoWant answer.now) }
{
    if answer.is_out_of_memory() {
        return Err(OutOfMemory);
    }
    Ok(())
}

/// Brings an event to an end: its answer.
pub(crate) fn tell<T: Tape>(end: &mut Session<T>, event: Event) -> Result<Answer, OutOfMemory>
    requires fair { CanBring end.old.settings event }
    requires no_draw { IsNoDrawEvent event }
    ensures end { end.new ≡ record end.old { entries = end.new.entries; spare = end.new.spare } }
    ensures noted { OnOk result (end.new.entries ≡ adds end.old.settings end.old.entries event) }
    ensures answer { IfOk result (λ a. a ≡ answer_to end.old.settings end.old.entries event) }
{
    let answer = end.bring(CALLER, event);
    wanted(&answer)?;
    Ok(answer)
}

// Brings an event to an end, whatever it is answered.
fn note<T: Tape>(end: &mut Session<T>, event: Event) -> Result<(), OutOfMemory>
    requires fair { CanBring end.old.settings event }
    requires no_draw { IsNoDrawEvent event }
    ensures end { end.new ≡ record end.old { entries = end.new.entries; spare = end.new.spare } }
    ensures noted { OnOk result (end.new.entries ≡ adds end.old.settings end.old.entries event) }
{
    wanted(&end.bring(CALLER, event))
}

/// A client opens a connection: its answer.
pub(crate) fn connect<T: Tape>(end: &mut Session<T>) -> Result<Answer, OutOfMemory>
    requires { end.old.settings.side ≡ Client }
    ensures end { end.new ≡ record end.old { entries = end.new.entries; spare = end.new.spare } }
    ensures noted { OnOk result (end.new.entries ≡
        adds end.old.settings end.old.entries (Event.Open None false)) }
    ensures answer { IfOk result (λ a. a ≡
        answer_to end.old.settings end.old.entries (Event.Open None false)) }
{
    tell(end, Event::opening())
}

fn asked(call: Call) -> Event
    ensures { result ≡ Event.Asked call }
{
    Event::Asked(call)
}

/// A caller at an end asks something.
pub(crate) fn ask<T: Tape>(
    alloc: Global,
    end: &mut Session<T>,
    call: &Call,
) -> Result<(), OutOfMemory>
    requires { CanBeAsked call.now }
    ensures end { end.new ≡ record end.old { entries = end.new.entries; spare = end.new.spare } }
    ensures noted { OnOk result (end.new.entries ≡
        adds end.old.settings end.old.entries (Event.Asked call.now)) }
{
    note(end, asked(call.copy(alloc)?))
}

/// The call that a line `many` makes often.
pub(crate) fn item(alloc: Global, stream: u32, size: u32) -> Result<Call, OutOfMemory>
    ensures { IfOk result (λ call. call ≡ an_item stream size) }
{
    let content = Blob::from_vec(vec![in alloc; ITEM_BYTE; size as usize]?);
    Ok(Call::Next {
        stream,
        message: Message {
            metadata: None,
            content,
        },
        complete: false,
    })
}

/// Time passes at an end.
pub(crate) fn pass<T: Tape>(end: &mut Session<T>, now: u64) -> Result<(), OutOfMemory>
    ensures end { end.new ≡ record end.old { entries = end.new.entries; spare = end.new.spare } }
    ensures noted { OnOk result (end.new.entries ≡
        adds end.old.settings end.old.entries (Event.Tick now)) }
{
    note(end, Event::Tick { now })
}

/// A connection is gone at an end.
pub(crate) fn cut<T: Tape>(end: &mut Session<T>, conn: u64) -> Result<(), OutOfMemory>
    ensures end { end.new ≡ record end.old { entries = end.new.entries; spare = end.new.spare } }
    ensures noted { OnOk result (end.new.entries ≡
        adds end.old.settings end.old.entries (Event.Cut conn)) }
{
    note(end, Event::Cut { conn })
}
