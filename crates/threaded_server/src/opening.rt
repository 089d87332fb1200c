//! The first frame of a connection.

ghost use Rattle.std.specs.Prelude.{◌≡◌, ◌<◌, ◌^◌, ◌++◌, [], false, IfOk, IfSome, None, OnOk, Some};
ghost use Rattle.rs_wire.specs.declared.words.Side.TheVariants.{Server};
ghost use Rattle.rs_frame.specs.Framed.{framed_all, framed_frame};
ghost use Rattle.rs_frame.specs.Spelling.{IsSpellable};
ghost use Rattle.rs_chunk.specs.Stream.{IsWhole};
ghost use Rattle.session_model.specs.Frames.{refusal};
ghost use Rattle.session_model.specs.Joined.{only};
ghost use Rattle.session_model.specs.Legal.{CanBring};
ghost use Rattle.session_core.specs.Seen.{IsNoDrawEvent};
ghost use Rattle.tape.specs.declared.event.Event.TheVariants as events;
ghost use Rattle.threaded_model.specs.Threaded.{made_by};
ghost use Rattle.threaded_server.specs.Begun.{HasBegun, HasOpened, IsBegun, IsFirst, Passes};

use crate::knows::Knows;
use carriers::tell;
use conn::{Caller, Connection};
use pump::Pump;
use ring::Stop;
use rs_chunk::{Front, Reader, frame_bytes};
use rs_frame::{Frame, decode, rule_number};
use rs_wire::{Blob, OutOfMemory};
use session_core::refusal_frame;
use std::alloc::Global;
use std::mem;
use std::sync::Wait;
use tape::{Answer, Event, Tape};

// The first frame, where one stands in front. Bytes that spell none stay there.
fn first_frame(alloc: Global, reader: &Reader) -> Result<Option<Frame>, Stop>
    requires { reader.now.max_in < 2 ^ 24 }
    ensures { IfOk result (λ o. IfSome o (IsFirst reader.now)) }
{
    let Front::Whole(bytes) = reader.front() else {
        return Ok(None);
    };
    match decode(alloc, bytes) {
        Ok(frame) => Ok(Some(frame)),
        Err(fault) => match rule_number(fault) {
            Some(_) => Ok(None),
            None => Err(Stop::OutOfMemory),
        },
    }
}

// The number of an opening that was accepted.
fn number_of(answer: &Answer) -> Option<u64>
    ensures { result ≡ made_by answer.now }
{
    match answer {
        Answer::Opened(conn) => Some(*conn),
        _ => None,
    }
}

// Appends a frame after its length, and lets it go.
fn append(bytes: &mut Vec<u8>, frame: Frame) -> Result<(), OutOfMemory>
    requires { IsSpellable frame }
    ensures { OnOk result (bytes.new.items ≡ bytes.old.items ++ framed_frame frame) }
{
    frame_bytes(&frame, bytes)
}

// The bytes of a refusal, after their length.
fn refusal_bytes(alloc: Global, answer: &Answer) -> Result<Blob, OutOfMemory>
    ensures { IfOk result (λ bytes. bytes ≡ framed_all (only (refusal answer.now))) }
{
    let mut bytes = Vec::new(alloc);
    if let Some(frame) = refusal_frame(alloc, answer)? {
        append(&mut bytes, frame)?;
    }
    Ok(Blob::from_vec(bytes))
}

// What the server knows of a connection that was accepted.
fn accepted(alloc: Global, conn: u64, rest: Reader) -> Result<Knows, Stop>
    requires { rest.max_in < 2 ^ 24 }
    ensures { IfOk result (IsBegun rest.max_in (Answer.Opened conn) rest.bytes) }
{
    match Pump::new(alloc, conn, rest) {
        Ok(pump) => Ok(Knows::Accepted { conn, pump }),
        Err(_) => Err(Stop::OutOfMemory),
    }
}

// What the server knows of a connection that was refused.
fn refused(alloc: Global, answer: &Answer) -> Result<Knows, Stop>
    requires { made_by answer.now ≡ None }
    ensures { IfOk result (IsBegun 0 answer.now []) }
{
    match refusal_bytes(alloc, answer) {
        Ok(bytes) => Ok(Knows::Refused { bytes, pushed: 0 }),
        Err(OutOfMemory) => Err(Stop::OutOfMemory),
    }
}

// What the server knows of a connection whose opening was so answered.
fn knows_by(alloc: Global, answer: &Answer, rest: Reader) -> Result<Knows, Stop>
    requires { rest.max_in < 2 ^ 24 }
    ensures { IfOk result (IsBegun rest.max_in answer.now rest.bytes) }
{
    match number_of(answer) {
        Some(conn) => accepted(alloc, conn, rest),
        None => refused(alloc, answer),
    }
}

// Opens a connection.
fn open_by<T: Tape, R: Wait>(
    rt: &R,
    alloc: Global,
    connection: &Connection<T>,
    caller: &mut Caller<T>,
    event: Event,
    rest: Reader,
) -> Result<Knows, Stop>
    requires of { caller.old.of ≡ connection.now }
    requires fair { CanBring connection.now.settings event }
    requires no_draw { IsNoDrawEvent event }
    requires short { rest.max_in < 2 ^ 24 }
    ensures same { caller.new ≡ record caller.old {
      front = caller.new.front;
      note = caller.new.note;
    } }
    ensures opened { IfOk result
        (HasOpened connection.now.settings caller.old caller.new event rest) }
{
    let answer = tell(rt, connection, caller, event)?;
    knows_by(alloc, &answer, rest)
}

// Opens a connection by its first frame.
fn open_by_frame<T: Tape, R: Wait>(
    rt: &R,
    alloc: Global,
    connection: &Connection<T>,
    caller: &mut Caller<T>,
    frame: Frame,
    rest: Reader,
) -> Result<Knows, Stop>
    requires of { caller.old.of ≡ connection.now }
    requires fair { CanBring connection.now.settings (events.Open (Some frame) false) }
    requires short { rest.max_in < 2 ^ 24 }
    ensures same { caller.new ≡ record caller.old {
      front = caller.new.front;
      note = caller.new.note;
    } }
    ensures opened { IfOk result (HasOpened connection.now.settings caller.old caller.new
        (events.Open (Some frame) false) rest) }
{
    open_by(rt, alloc, connection, caller, Event::opened_by(frame), rest)
}

// The bytes after the first frame. The reader is not used any more.
fn rest_of(alloc: Global, reader: &mut Reader) -> Reader
    requires { IsWhole reader.old.bytes reader.old.max_in }
    ensures max_in { result.max_in ≡ reader.old.max_in }
    ensures passes { Passes reader.old.bytes result.bytes }
{
    let mut rest = mem::replace(reader, Reader::new(alloc, 0));
    rest.pass();
    rest
}

/// Opens a connection by the first frame, where one stands in front: what the server knows of it then.
pub(crate) fn begin<T: Tape, R: Wait>(
    rt: &R,
    alloc: Global,
    connection: &Connection<T>,
    caller: &mut Caller<T>,
    reader: &mut Reader,
) -> Result<Option<Knows>, Stop>
    requires of { caller.old.of ≡ connection.now }
    requires server { connection.now.settings.side ≡ Server }
    requires short { reader.old.max_in < 2 ^ 24 }
    ensures same { caller.new ≡ record caller.old {
      front = caller.new.front;
      note = caller.new.note;
    } }
    ensures none { IfOk result (λ o. o ≡ None →
        (caller.new ≡ caller.old) × (reader.new ≡ reader.old)) }
    ensures some { IfOk result (λ o. IfSome o
        (HasBegun connection.now.settings caller.old caller.new reader.old)) }
{
    let Some(frame) = first_frame(alloc, reader)? else {
        return Ok(None);
    };
    let rest = rest_of(alloc, reader);
    let knows = open_by_frame(rt, alloc, connection, caller, frame, rest)?;
    Ok(Some(knows))
}
