//! SETUP: the client opens a session (RSocket 1.0, "SETUP Frame (0x01)").
//!
//! | type | flags | stream | fields after the header |
//! |---|---|---|---|
//! | 0x01 | M, R 0x80, L 0x40 | 0 | major and minor of 16 bits; keepalive and lifetime of 31 bits, above 0; with R a token after its length of 16 bits; the MIME types of metadata and of content, each after its length of 8 bits; a payload |

ghost use Rattle.std.specs.Prelude.{◌≡◌, ◌+◌, ◌<◌, ◌≤◌, ◌^◌, ◌++◌, ◌↔◌, IfSome, IsTrue, length, vec_len, vec_capacity};
ghost use Rattle.std.specs.Option.{option_map};
ghost use Rattle.std.specs.Result.{result_map_both};
ghost use Rattle.rs_frame.specs.Rules.{names_of, token_of};
ghost use Rattle.rs_frame.specs.Reading.{as_frame, setup_at};
ghost use Rattle.rs_frame.specs.Spelling.{FieldsFit, body_of, counted_bytes, flags_of, if_there};
ghost use Rattle.rs_frame.specs.Views.{Shows, names_view, setup_view};
ghost use Rattle.rs_frame.specs.declared.frame.Frame.{Frame};

use crate::cursor::{counted_u8, counted_u16, put, put_counted, put_u8, put_u16, put_u32};
use crate::fault::FrameFault;
use crate::frame::Setup;
use crate::frame_ref::{FrameRef, SetupRef};
use crate::header::{Header, METADATA, bit};
use crate::parts::{message_fits, parts_of, payload_length, put_payload};
use byteorder::{BigEndian, ByteOrder};
use rs_wire::{Amount, Blob};

/// Bytes of the numbers that a SETUP has first: two versions of 2 and two intervals of 4.
const SETUP_NUMBERS: usize = 12;

/// The flag R: a token is there.
const RESUME: u16 = 0x80;

/// The flag L: the client keeps to leases.
const LEASE: u16 = 0x40;

/// The token and the MIME types that lie in a SETUP's bytes, and what follows them.
#[derive(Clone, Copy)]
struct NamesAt<'a> {
    token: Option<&'a [u8]>,
    metadata_mime: &'a [u8],
    content_mime: &'a [u8],
    rest: &'a [u8],
}

fn token_at(resume: bool, bytes: &[u8]) -> Option<(Option<&[u8]>, &[u8])>
    ensures { option_map (λ x. (option_map (λ y. y.now) x.0, x.1.now)) result ≡
        token_of resume bytes.now }
{
    if !resume {
        return Some((None, bytes));
    }
    match counted_u16(bytes) {
        None => None,
        Some((token, rest)) => Some((Some(token), rest)),
    }
}

fn names_at(resume: bool, bytes: &[u8]) -> Option<NamesAt<'_>>
    ensures { option_map names_view result ≡ names_of resume bytes.now }
{
    let (token, bytes) = token_at(resume, bytes)?;
    let (metadata_mime, bytes) = counted_u8(bytes)?;
    let (content_mime, rest) = counted_u8(bytes)?;
    Some(NamesAt {
        token,
        metadata_mime,
        content_mime,
        rest,
    })
}

#[tactic(auto, unfolding(crate::specs::Reading::setup_at))]
fn fields_at(header: Header, body: &[u8]) -> Result<SetupRef<'_>, FrameFault>
    ensures { result_map_both setup_view (λ fault. fault) result ≡
        setup_at header.stream header.flags body.now }
{
    if header.stream != 0 {
        return Err(FrameFault::WrongStream);
    }
    if body.len() < SETUP_NUMBERS {
        return Err(FrameFault::ShortBody);
    }
    let keepalive = BigEndian::read_u32(&body[4..]);
    let lifetime = BigEndian::read_u32(&body[8..]);
    if keepalive == 0 || lifetime == 0 {
        return Err(FrameFault::ZeroNumber);
    }
    let Some(names) = names_at(header.has(RESUME), &body[SETUP_NUMBERS..]) else {
        return Err(FrameFault::NameLength);
    };
    let Some(message) = parts_of(header.has(METADATA), names.rest) else {
        return Err(FrameFault::MetadataLength);
    };
    let (Some(keepalive), Some(lifetime)) = (Amount::of(keepalive), Amount::of(lifetime)) else {
        return Err(FrameFault::HighBit);
    };
    Ok(SetupRef {
        resume: names.token,
        lease: header.has(LEASE),
        major: BigEndian::read_u16(body),
        minor: BigEndian::read_u16(&body[2..]),
        keepalive,
        lifetime,
        metadata_mime: names.metadata_mime,
        content_mime: names.content_mime,
        message,
    })
}

/// The SETUP with this header and these fields, or the least rule that is broken.
pub fn find(header: Header, body: &[u8]) -> Result<FrameRef<'_>, FrameFault>
    ensures { Shows result (as_frame (setup_at header.stream header.flags body.now)) }
{
    match fields_at(header, body) {
        Ok(fields) => Ok(FrameRef::Setup(fields)),
        Err(fault) => Err(fault),
    }
}

/// Whether each field is in its range.
pub fn fits(fields: &Setup) -> bool
    ensures { IsTrue result ↔ FieldsFit (Frame.Setup fields.now) }
{
    // The ranges of numbers are known where they are read.
    let _ = fields.keepalive.get();
    let _ = fields.lifetime.get();
    let _major = fields.major;
    let _minor = fields.minor;
    let token_fits = match &fields.resume {
        None => true,
        Some(token) => token.len() < 0x1_0000,
    };
    token_fits
        && fields.metadata_mime.len() < 256
        && fields.content_mime.len() < 256
        && message_fits(&fields.message)
}

/// The flags M, R and L as the fields say.
pub fn flags(fields: &Setup) -> u16
    ensures value { result ≡ flags_of (Frame.Setup fields.now) }
    ensures fits { result < 1024 }
{
    bit(fields.message.metadata.is_some(), METADATA)
        + bit(fields.resume.is_some(), RESUME)
        + bit(fields.lease, LEASE)
}

/// How many bytes the fields have.
pub fn body_length(fields: &Setup) -> usize
    requires { FieldsFit (Frame.Setup fields.now) }
    ensures value { result ≡ length (body_of (Frame.Setup fields.now)) }
    ensures bound { result < 2 ^ 63 + 2 ^ 26 }
{
    let token = match &fields.resume {
        None => 0,
        Some(token) => 2 + token.len(),
    };
    SETUP_NUMBERS
        + token
        + 1
        + fields.metadata_mime.len()
        + 1
        + fields.content_mime.len()
        + payload_length(&fields.message)
}

fn put_token(out: &mut Vec<u8>, token: &Option<Blob>)
    requires fits { IfSome token.now (λ t. length t < 2 ^ 16) }
    requires has_room { vec_len out.old + length (if_there 2 token.now) ≤ vec_capacity out.old }
    ensures items { out.new.items ≡ out.old.items ++ if_there 2 token.now }
    ensures len { vec_len out.new ≡ vec_len out.old + length (if_there 2 token.now) }
    ensures room { vec_capacity out.old ≤ vec_capacity out.new }
{
    if let Some(token) = token {
        put_counted(out, token);
    }
}

fn put_name(out: &mut Vec<u8>, name: &Blob)
    requires fits { length name.now < 2 ^ 8 }
    requires has_room { vec_len out.old + 1 + length name.now ≤ vec_capacity out.old }
    ensures items { out.new.items ≡ out.old.items ++ counted_bytes 1 name.now }
    ensures len { vec_len out.new ≡ vec_len out.old + 1 + length name.now }
    ensures room { vec_capacity out.old ≤ vec_capacity out.new }
{
    put_u8(out, name.len() as u8);
    put(out, name.as_slice());
}

/// Appends the fields, for which there is room.
pub fn write(out: &mut Vec<u8>, fields: &Setup)
    requires fits { FieldsFit (Frame.Setup fields.now) }
    requires has_room { vec_len out.old + length (body_of (Frame.Setup fields.now)) ≤
        vec_capacity out.old }
    ensures items { out.new.items ≡ out.old.items ++ body_of (Frame.Setup fields.now) }
{
    put_u16(out, fields.major);
    put_u16(out, fields.minor);
    put_u32(out, fields.keepalive.get());
    put_u32(out, fields.lifetime.get());
    put_token(out, &fields.resume);
    put_name(out, &fields.metadata_mime);
    put_name(out, &fields.content_mime);
    put_payload(out, &fields.message);
}
