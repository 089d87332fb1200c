//! The head of a frame: the bytes of it that stand before its message's own, with its length field.

ghost use Rattle.std.specs.Prelude.{◌≡◌, ◌+◌, ◌<◌, ◌≤◌, ◌^◌, ◌++◌, [], length};
ghost use Rattle.byteorder.specs.Endian.{big_bytes};

use crate::header::HEADER;
use byteorder::{BigEndian, ByteOrder};
use std::marker::Model;

/// How many bytes the length field before a frame has.
const LENGTH: usize = 3;

/// How many bytes a head has at most: 3 of the frame's length, 6 of the header, 4 of an initial
/// number, and 3 of the length of metadata.
pub const MOST_HEAD: usize = 16;

/// The first bytes of a frame, on the stack. Contracts see them as one list.
#[derive(Debug, Drop)]
pub struct Head {
    bytes: [u8; MOST_HEAD],
    // How many of them there are.
    count: usize,
}

impl Model for Head {
    ghost use Rattle.std.specs.Prelude.{ℕ, ◌≤◌, List, take};
    ghost use Rattle.rs_frame.specs.declared.head.TheConstants.{MOST_HEAD};

    ghost Value = { List ℕ };

    ghost view = { λ h. take h.count h.bytes };

    ghost invariant = { λ h. h.count ≤ MOST_HEAD };
}

impl Head {
    /// No bytes.
    pub fn new() -> Head
        ensures { result ≡ [] }
    {
        Head {
            bytes: [0; MOST_HEAD],
            count: 0,
        }
    }

    /// The length field of a frame, and its header.
    pub fn framed(length: u32, stream: u32, word: u16) -> Head
        requires { length < 2 ^ 24 }
        ensures { result ≡ big_bytes 3 length ++ (big_bytes 4 stream ++ big_bytes 2 word) }
    {
        let mut bytes = [0; MOST_HEAD];
        BigEndian::write_u24(&mut bytes, length);
        BigEndian::write_u32(&mut bytes[LENGTH..], stream);
        BigEndian::write_u16(&mut bytes[LENGTH + 4..], word);
        Head {
            bytes,
            count: LENGTH + HEADER,
        }
    }

    // Appends bytes for which there is room.
    fn put(&mut self, bytes: &[u8])
        requires { length self.old + length bytes.now ≤ MOST_HEAD }
        ensures { self.new ≡ self.old ++ bytes.now }
    {
        let end = self.count + bytes.len();
        self.bytes[self.count..end].copy_from_slice(bytes);
        self.count = end;
    }

    /// Appends a number of three bytes.
    pub fn put_u24(&mut self, n: u32)
        requires fits { n < 2 ^ 24 }
        requires has_room { length self.old + 3 ≤ MOST_HEAD }
        ensures { self.new ≡ self.old ++ big_bytes 3 n }
    {
        let mut buffer = [0u8; 3];
        BigEndian::write_u24(&mut buffer, n);
        self.put(&buffer);
    }

    /// Appends a number of four bytes.
    pub fn put_u32(&mut self, n: u32)
        requires { length self.old + 4 ≤ MOST_HEAD }
        ensures { self.new ≡ self.old ++ big_bytes 4 n }
    {
        let mut buffer = [0u8; 4];
        BigEndian::write_u32(&mut buffer, n);
        self.put(&buffer);
    }

    /// How many bytes.
    pub fn len(&self) -> usize
        ensures value { result ≡ length self.now }
        ensures bound { result ≤ MOST_HEAD }
    {
        self.count
    }

    /// The bytes.
    pub fn as_slice(&self) -> &[u8]
        ensures { result.now ≡ self.now }
    {
        &self.bytes[..self.count]
    }
}
