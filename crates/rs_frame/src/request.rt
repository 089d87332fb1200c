//! The four requests, each of which begins a stream (RSocket 1.0, "REQUEST_RESPONSE Frame (0x04)",
//! "REQUEST_FNF (Fire-n-Forget) Frame (0x05)", "REQUEST_STREAM Frame (0x06)" and "REQUEST_CHANNEL
//! Frame (0x07)").
//!
//! | type | name | flags | stream | fields after the header |
//! |---|---|---|---|---|
//! | 0x04 | REQUEST_RESPONSE | M, F 0x80 | above 0 | payload |
//! | 0x05 | REQUEST_FNF | M, F 0x80 | above 0 | payload |
//! | 0x06 | REQUEST_STREAM | M, F 0x80 | above 0 | initial n of 31 bits, above 0; payload |
//! | 0x07 | REQUEST_CHANNEL | M, F 0x80, C 0x40 | above 0 | initial n of 31 bits, above 0; payload |

ghost use Rattle.std.specs.Prelude.{◌≡◌, ◌+◌, ◌<◌, ◌≤◌, ◌^◌, ◌++◌, ◌↔◌, IsTrue, is_some, length, vec_len, vec_capacity};
ghost use Rattle.rs_frame.specs.Views.{Shows};
ghost use Rattle.rs_frame.specs.Reading.{counted_at, plain_at};
ghost use Rattle.rs_frame.specs.Spelling.{FieldsFit, InitialFits, MessageFits, bit_if, kind_number, number_there, payload};
ghost use Rattle.rs_frame.specs.declared.frame.Frame.{Frame};

use crate::cursor::{is_stream, put_u32};
use crate::fault::FrameFault;
use crate::frame::Request;
use crate::frame_ref::{FrameRef, RequestRef};
use crate::header::{COMPLETE, FOLLOWS, Header, METADATA, bit};
use crate::parts::{message_fits, parts_of, payload_length, put_payload};
use byteorder::{BigEndian, ByteOrder};
use rs_wire::{Amount, Kind, Message};

/// The request without an initial n that has this header and this payload, or the least rule that
/// is broken.
#[tactic(auto, unfolding(crate::specs::Reading::plain_at))]
pub fn find_plain(kind: Kind, header: Header, body: &[u8]) -> Result<FrameRef<'_>, FrameFault>
    ensures { Shows result (plain_at kind header.stream header.flags body.now) }
{
    if header.stream == 0 {
        return Err(FrameFault::WrongStream);
    }
    let Some(message) = parts_of(header.has(METADATA), body) else {
        return Err(FrameFault::MetadataLength);
    };
    let follows = header.has(FOLLOWS);
    Ok(FrameRef::Request(RequestRef {
        stream: header.stream,
        kind,
        follows,
        complete: false,
        initial: None,
        message,
    }))
}

/// The request with an initial n that has this header and these fields, or the least rule that is
/// broken.
#[tactic(auto, unfolding(crate::specs::Reading::counted_at))]
pub fn find_counted(
    kind: Kind,
    complete: bool,
    header: Header,
    body: &[u8],
) -> Result<FrameRef<'_>, FrameFault>
    ensures { Shows result (counted_at kind complete header.stream header.flags body.now) }
{
    if header.stream == 0 {
        return Err(FrameFault::WrongStream);
    }
    if body.len() < 4 {
        return Err(FrameFault::ShortBody);
    }
    let n = BigEndian::read_u32(body);
    if n == 0 {
        return Err(FrameFault::ZeroNumber);
    }
    let Some(message) = parts_of(header.has(METADATA), &body[4..]) else {
        return Err(FrameFault::MetadataLength);
    };
    let Some(n) = Amount::of(n) else {
        return Err(FrameFault::HighBit);
    };
    let follows = header.has(FOLLOWS);
    Ok(FrameRef::Request(RequestRef {
        stream: header.stream,
        kind,
        follows,
        complete,
        initial: Some(n),
        message,
    }))
}

/// The type number of a request of this kind.
pub fn number(kind: Kind) -> u16
    ensures value { result ≡ kind_number kind }
    ensures fits { result < 64 }
{
    match kind {
        Kind::Response => 0x04,
        Kind::Fnf => 0x05,
        Kind::Stream => 0x06,
        Kind::Channel => 0x07,
    }
}

fn initial_fits(kind: Kind, initial: Option<Amount>, complete: bool) -> bool
    ensures { IsTrue result ↔ InitialFits kind initial complete }
{
    match (kind, initial) {
        (Kind::Response | Kind::Fnf, None) => !complete,
        (Kind::Stream, Some(_)) => !complete,
        (Kind::Channel, Some(_)) => true,
        _ => false,
    }
}

/// Whether each field is in its range and stands where the kind has it.
pub fn fits(fields: &Request) -> bool
    ensures { IsTrue result ↔ FieldsFit (Frame.Request fields.now) }
{
    is_stream(fields.stream)
        && initial_fits(fields.kind, fields.initial, fields.complete)
        && message_fits(&fields.message)
}

/// The flags M, F and C as the fields say.
pub fn flags(follows: bool, complete: bool, message: &Message) -> u16
    ensures value { result ≡ bit_if (is_some message.now.metadata) 0x100 + bit_if follows 0x80 +
        bit_if complete 0x40 }
    ensures fits { result < 1024 }
{
    bit(message.metadata.is_some(), METADATA) + bit(follows, FOLLOWS) + bit(complete, COMPLETE)
}

/// How many bytes the fields have.
pub fn body_length(initial: &Option<Amount>, message: &Message) -> usize
    requires { MessageFits message.now }
    ensures value { result ≡ length (number_there initial.now ++ payload message.now) }
    ensures bound { result < 2 ^ 63 + 2 ^ 26 }
{
    match initial {
        None => payload_length(message),
        Some(_) => 4 + payload_length(message),
    }
}

/// Appends the fields, for which there is room.
pub fn write(out: &mut Vec<u8>, initial: &Option<Amount>, message: &Message)
    requires fits { MessageFits message.now }
    requires has_room { vec_len out.old + length (number_there initial.now ++ payload message.now) ≤
        vec_capacity out.old }
    ensures { out.new.items ≡ out.old.items ++ (number_there initial.now ++ payload message.now) }
{
    if let Some(n) = initial {
        put_u32(out, n.get());
    }
    put_payload(out, message);
}
