//! What the bytes that came begin with, as an event, and what its answer leaves in front.

ghost use Rattle.std.specs.Prelude.{◌≡◌, ◌<◌, ◌^◌, None, IfErr, IfOk, IfSome, is_some, not};
ghost use Rattle.tape.specs.Answers.{leaves};
ghost use Rattle.link_model.specs.Reading.{IsInFront, IsPart};
ghost use Rattle.rustshuttle.specs.Ends.{IsFaultBy, IsFirst, IsFirstFault, is_bad};

use crate::fault::EndFault;
use rs_chunk::{Front, Reader};
use rs_frame::{decode, rule_number};
use session_model::LONG_FRAME;
use std::alloc::Global;
use tape::{Answer, Event};

/// The first frame of a connection, where it is whole.
pub fn first_event(alloc: Global, reader: &Reader) -> Result<Option<Event>, EndFault>
    requires { reader.now.max_in < 2 ^ 24 }
    ensures some { IfOk result (λ found. IfSome found
        (IsFirst reader.now.bytes reader.now.max_in)) }
    ensures none { IfOk result (λ found. found ≡ None → IsPart reader.now.bytes reader.now.max_in) }
    ensures fault { IfErr result (IsFirstFault reader.now.bytes reader.now.max_in) }
{
    match reader.front() {
        Front::Part => Ok(None),
        Front::TooLong(_) => Err(EndFault::NoFirstFrame(LONG_FRAME)),
        Front::Whole(bytes) => match decode(alloc, bytes) {
            Ok(first) => Ok(Some(Event::opened_by(first))),
            Err(fault) => Err(rule_number(fault).map_or(
                EndFault::OutOfMemory,
                EndFault::NoFirstFrame,
            )),
        },
    }
}

/// What stands in front on connection `conn`.
pub fn next_event(alloc: Global, reader: &Reader, conn: u64) -> Result<Option<Event>, EndFault>
    requires { reader.now.max_in < 2 ^ 24 }
    ensures some { IfOk result (λ found. IfSome found
        (IsInFront conn reader.now.bytes reader.now.max_in)) }
    ensures none { IfOk result (λ found. found ≡ None → IsPart reader.now.bytes reader.now.max_in) }
    ensures fault { IfErr result (λ fault. fault ≡ EndFault.OutOfMemory) }
{
    match reader.front() {
        Front::Part => Ok(None),
        Front::TooLong(_) => Ok(Some(Event::Bad {
            conn,
            rule: LONG_FRAME,
        })),
        Front::Whole(bytes) => match decode(alloc, bytes) {
            Ok(frame) => Ok(Some(Event::Came { conn, frame })),
            Err(fault) => match rule_number(fault) {
                Some(rule) => Ok(Some(Event::Bad { conn, rule })),
                None => Err(EndFault::OutOfMemory),
            },
        },
    }
}

/// Why what stands in front stays there, where it does after this answer.
pub fn fault_of(answer: &Answer) -> Option<EndFault>
    ensures some { is_some result ≡ not (leaves answer.now) }
    ensures cause { IfSome result (IsFaultBy answer.now) }
{
    match answer {
        Answer::OutBusy(queued) => Some(EndFault::Busy(*queued)),
        Answer::TapeFull => Some(EndFault::TapeFull),
        Answer::NotYet | Answer::OutOfMemory => Some(EndFault::OutOfMemory),
        _ => None,
    }
}

/// Whether bytes came that are no frame.
pub fn is_bad(event: &Event) -> bool
    ensures { result ≡ is_bad event.now }
{
    matches!(event, Event::Bad { .. })
}
