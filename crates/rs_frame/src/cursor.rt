//! What all frame types read and write by: bytes after their length, numbers, and the tests
//! of a number's range. Numbers are big-endian (RSocket 1.0, "Framing Format").

ghost use Rattle.std.specs.Prelude.{◌≡◌, ◌+◌, ◌<◌, ◌≤◌, ◌^◌, ◌++◌, ◌↔◌, IsTrue, length, vec_len, vec_capacity};
ghost use Rattle.std.specs.Option.{option_map};
ghost use Rattle.byteorder.specs.Endian.{big_bytes};
ghost use Rattle.rs_frame.specs.Rules.{prefixed};
ghost use Rattle.rs_frame.specs.Spelling.{IsStream, counted_bytes};
ghost use Rattle.rs_frame.specs.Table.{long_at};
ghost use Rattle.rs_frame.specs.Views.{cut_of};

use byteorder::{BigEndian, ByteOrder};
use rs_wire::Blob;

/// The first `len` bytes and the others. `None` where there are fewer.
pub fn cut(len: usize, bytes: &[u8]) -> Option<(&[u8], &[u8])>
    ensures { option_map (λ x. (x.0.now, x.1.now)) result ≡ cut_of len bytes.now }
{
    if bytes.len() < len {
        return None;
    }
    Some(bytes.split_at(len))
}

/// The bytes after their length of one byte, and what follows.
pub fn counted_u8(bytes: &[u8]) -> Option<(&[u8], &[u8])>
    ensures { option_map (λ x. (x.0.now, x.1.now)) result ≡ prefixed 1 bytes.now }
{
    match bytes {
        [] => None,
        [len, rest @ ..] => cut(*len as usize, rest),
    }
}

/// The bytes after their length of two bytes, and what follows.
pub fn counted_u16(bytes: &[u8]) -> Option<(&[u8], &[u8])>
    ensures { option_map (λ x. (x.0.now, x.1.now)) result ≡ prefixed 2 bytes.now }
{
    if bytes.len() < 2 {
        return None;
    }
    cut(BigEndian::read_u16(bytes) as usize, &bytes[2..])
}

/// The bytes after their length of three bytes, and what follows.
pub fn counted_u24(bytes: &[u8]) -> Option<(&[u8], &[u8])>
    ensures { option_map (λ x. (x.0.now, x.1.now)) result ≡ prefixed 3 bytes.now }
{
    if bytes.len() < 3 {
        return None;
    }
    cut(BigEndian::read_u24(bytes) as usize, &bytes[3..])
}

/// The number of the eight bytes at a place.
#[tactic(auto, unfolding(crate::specs::Table::long_at))]
pub fn u64_at(bytes: &[u8], place: usize) -> u64
    requires { place + 8 ≤ length bytes.now }
    ensures { result ≡ long_at place bytes.now }
{
    BigEndian::read_u64(&bytes[place..])
}

/// Whether the number has 31 bits.
pub fn is_31(n: u32) -> bool
    ensures { IsTrue result ↔ (n < 2 ^ 31) }
{
    n < 0x8000_0000
}

/// Whether the number has 63 bits.
pub fn is_63(n: u64) -> bool
    ensures { IsTrue result ↔ (n < 2 ^ 63) }
{
    n < 0x8000_0000_0000_0000
}

/// Whether the number is the id of a stream: above 0, and of 31 bits.
pub fn is_stream(n: u32) -> bool
    ensures { IsTrue result ↔ IsStream n }
{
    n != 0 && n < 0x8000_0000
}

/// Appends bytes for which there is room.
#[inline(always)]
pub fn put(out: &mut Vec<u8>, bytes: &[u8])
    requires { vec_len out.old + length bytes.now ≤ vec_capacity out.old }
    ensures items { out.new.items ≡ out.old.items ++ bytes.now }
    ensures len { vec_len out.new ≡ vec_len out.old + length bytes.now }
    ensures room { vec_capacity out.old ≤ vec_capacity out.new }
{
    // There is room, so this takes no memory and can't fail.
    let _ = out.extend_from_slice(bytes);
}

/// Appends a number of one byte.
pub fn put_u8(out: &mut Vec<u8>, n: u8)
    requires { vec_len out.old + 1 ≤ vec_capacity out.old }
    ensures items { out.new.items ≡ out.old.items ++ big_bytes 1 n }
    ensures len { vec_len out.new ≡ vec_len out.old + 1 }
    ensures room { vec_capacity out.old ≤ vec_capacity out.new }
{
    out.push_reserved(n);
}

/// Appends a number of two bytes.
pub fn put_u16(out: &mut Vec<u8>, n: u16)
    requires { vec_len out.old + 2 ≤ vec_capacity out.old }
    ensures items { out.new.items ≡ out.old.items ++ big_bytes 2 n }
    ensures len { vec_len out.new ≡ vec_len out.old + 2 }
    ensures room { vec_capacity out.old ≤ vec_capacity out.new }
{
    let mut buffer = [0u8; 2];
    BigEndian::write_u16(&mut buffer, n);
    put(out, &buffer);
}

/// Appends a number of three bytes.
pub fn put_u24(out: &mut Vec<u8>, n: u32)
    requires fits { n < 2 ^ 24 }
    requires has_room { vec_len out.old + 3 ≤ vec_capacity out.old }
    ensures items { out.new.items ≡ out.old.items ++ big_bytes 3 n }
    ensures len { vec_len out.new ≡ vec_len out.old + 3 }
    ensures room { vec_capacity out.old ≤ vec_capacity out.new }
{
    let mut buffer = [0u8; 3];
    BigEndian::write_u24(&mut buffer, n);
    put(out, &buffer);
}

/// Appends a number of four bytes.
pub fn put_u32(out: &mut Vec<u8>, n: u32)
    requires { vec_len out.old + 4 ≤ vec_capacity out.old }
    ensures items { out.new.items ≡ out.old.items ++ big_bytes 4 n }
    ensures len { vec_len out.new ≡ vec_len out.old + 4 }
    ensures room { vec_capacity out.old ≤ vec_capacity out.new }
{
    let mut buffer = [0u8; 4];
    BigEndian::write_u32(&mut buffer, n);
    put(out, &buffer);
}

/// Appends a number of eight bytes.
pub fn put_u64(out: &mut Vec<u8>, n: u64)
    requires { vec_len out.old + 8 ≤ vec_capacity out.old }
    ensures items { out.new.items ≡ out.old.items ++ big_bytes 8 n }
    ensures len { vec_len out.new ≡ vec_len out.old + 8 }
    ensures room { vec_capacity out.old ≤ vec_capacity out.new }
{
    let mut buffer = [0u8; 8];
    BigEndian::write_u64(&mut buffer, n);
    put(out, &buffer);
}

/// Appends a token after its length of two bytes.
pub fn put_counted(out: &mut Vec<u8>, token: &Blob)
    requires fits { length token.now < 2 ^ 16 }
    requires has_room { vec_len out.old + 2 + length token.now ≤ vec_capacity out.old }
    ensures items { out.new.items ≡ out.old.items ++ counted_bytes 2 token.now }
    ensures len { vec_len out.new ≡ vec_len out.old + 2 + length token.now }
    ensures room { vec_capacity out.old ≤ vec_capacity out.new }
{
    put_u16(out, token.len() as u16);
    put(out, token.as_slice());
}
