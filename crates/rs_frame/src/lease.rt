//! LEASE: the sender allows requests for a time (RSocket 1.0, "LEASE Frame (0x02)").
//!
//! | type | flags | stream | fields after the header |
//! |---|---|---|---|
//! | 0x02 | M | 0 | time to live and count of 31 bits; with M metadata to the end |

ghost use Rattle.std.specs.Prelude.{◌≡◌, ◌+◌, ◌<◌, ◌≤◌, ◌^◌, ◌++◌, ◌↔◌, Some, None, IsTrue, is_some, length, vec_len, vec_capacity, if◌then◌else◌};
ghost use Rattle.std.specs.Option.{option_map};
ghost use Rattle.rs_frame.specs.Views.{Shows};
ghost use Rattle.rs_frame.specs.Reading.{lease_at};
ghost use Rattle.rs_frame.specs.Spelling.{bit_if, body_of, to_end};
ghost use Rattle.rs_frame.specs.declared.frame.Frame.{Frame};

use crate::cursor::{is_31, put, put_u32};
use crate::fault::FrameFault;
use crate::frame_ref::FrameRef;
use crate::header::{Header, METADATA, bit};
use byteorder::{BigEndian, ByteOrder};
use rs_wire::Blob;

fn if_present(present: bool, bytes: &[u8]) -> Option<&[u8]>
    ensures { option_map (λ x. x.now) result ≡ (if present then Some bytes.now else None) }
{
    if present { Some(bytes) } else { None }
}

/// The LEASE with this header and these fields, or the least rule that is broken.
#[tactic(auto, unfolding(crate::specs::Reading::lease_at))]
pub fn find(header: Header, body: &[u8]) -> Result<FrameRef<'_>, FrameFault>
    ensures { Shows result (lease_at header.stream header.flags body.now) }
{
    if header.stream != 0 {
        return Err(FrameFault::WrongStream);
    }
    if body.len() < 8 {
        return Err(FrameFault::ShortBody);
    }
    let present = header.has(METADATA);
    if !present && body.len() > 8 {
        return Err(FrameFault::LongBody);
    }
    let ttl = BigEndian::read_u32(body);
    let count = BigEndian::read_u32(&body[4..]);
    if ttl >= 0x8000_0000 || count >= 0x8000_0000 {
        return Err(FrameFault::HighBit);
    }
    let metadata = if_present(present, &body[8..]);
    Ok(FrameRef::Lease {
        ttl,
        count,
        metadata,
    })
}

/// Whether each field is in its range.
pub fn fits(ttl: u32, count: u32) -> bool
    ensures { IsTrue result ↔ (ttl < 2 ^ 31) × (count < 2 ^ 31) }
{
    is_31(ttl) && is_31(count)
}

/// The flag M, where metadata is there.
pub fn flags(metadata: &Option<Blob>) -> u16
    ensures value { result ≡ bit_if (is_some metadata.now) 0x100 }
    ensures fits { result < 1024 }
{
    bit(metadata.is_some(), METADATA)
}

/// How many bytes the fields have.
pub fn body_length(metadata: &Option<Blob>) -> usize
    ensures value { result ≡ 8 + length (to_end metadata.now) }
    ensures bound { result < 2 ^ 63 + 2 ^ 26 }
{
    match metadata {
        None => 8,
        Some(metadata) => 8 + metadata.len(),
    }
}

fn put_to_end(out: &mut Vec<u8>, bytes: &Option<Blob>)
    requires { vec_len out.old + length (to_end bytes.now) ≤ vec_capacity out.old }
    ensures { out.new.items ≡ out.old.items ++ to_end bytes.now }
{
    if let Some(bytes) = bytes {
        put(out, bytes.as_slice());
    }
}

/// Appends the fields, for which there is room.
pub fn write(out: &mut Vec<u8>, ttl: u32, count: u32, metadata: &Option<Blob>)
    requires { vec_len out.old + length (body_of (Frame.Lease ttl count metadata.now)) ≤
        vec_capacity out.old }
    ensures { out.new.items ≡ out.old.items ++ body_of (Frame.Lease ttl count metadata.now) }
{
    put_u32(out, ttl);
    put_u32(out, count);
    put_to_end(out, metadata);
}
