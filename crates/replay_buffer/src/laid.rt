//! How a frame lies in the blocks: after its length, in as few bytes as tell it.

ghost use Rattle.std.specs.Prelude.{◌≡◌, ◌+◌, ◌-◌, ◌<◌, ◌≤◌, ◌^◌, ◌++◌, ℕ, List, drop, length};
ghost use Rattle.rs_frame.specs.Framed.{framed};
ghost use Rattle.replay_buffer.specs.Laid.{Begins, laid, plain_after, prefix_len};

use crate::blocks::Blocks;
use byteorder::{BigEndian, ByteOrder};
use rs_frame::Pieces;

/// A frame of at most so many bytes lies after one byte, which is its length. The shortest frame has 6
/// bytes, so the length is no 0 and no 1.
pub const SHORT: usize = 16;

/// A frame of fewer bytes than these, and more than [`SHORT`], lies as it goes onto a stream: after its
/// 24-bit length, whose first byte is 0. A frame of as many lies after a 1 and its 24-bit length.
pub const LONG: usize = 65_536;

/// What stands before a frame.
#[derive(Debug, Clone, Copy)]
pub struct Prefix {
    /// How many bytes.
    pub size: usize,
    /// How many bytes the frame has.
    pub length: usize,
}

/// How many bytes stand before a frame of so many bytes.
#[inline(always)]
pub fn prefix_len(count: usize) -> usize
    ensures { result ≡ prefix_len count }
{
    if count <= SHORT {
        1
    } else if count < LONG {
        3
    } else {
        4
    }
}

/// The position from which on frames lie as they go onto a stream, once one more of so many bytes lies
/// there, which ends at `end`.
#[inline(always)]
pub fn plain_after(plain: u64, end: u64, count: usize) -> u64
    ensures { result ≡ plain_after plain end count }
{
    if SHORT < count && count < LONG {
        plain
    } else {
        end
    }
}

/// The bytes without the first ones.
pub fn without_front<'a>(bytes: &'a [u8], count: usize) -> &'a [u8]
    ensures { result.now ≡ drop count bytes.now }
{
    &bytes[count.min(bytes.len())..]
}

impl Blocks {
    /// Appends the frame as it lies, for which there is room.
    pub fn put_laid(&mut self, frame: &[u8])
        requires room { prefix_len (length frame.now) + length frame.now ≤ self.old.free }
        requires longest { length frame.now < 2 ^ 24 }
        ensures { self.new ≡ record self.old {
          items = self.old.items ++ laid frame.now;
          free = self.old.free - (prefix_len (length frame.now) + length frame.now);
        } }
    {
        let mut prefix = [1, 0, 0, 0];
        BigEndian::write_u24(&mut prefix[1..], frame.len() as u32);
        self.put(&prefix[4 - prefix_len(frame.len())..]);
        self.put(frame);
    }

    // Appends the bytes of the pieces from one on, for which there is room.
    fn put_pieces_from(&mut self, start: usize, more: &Pieces<'_>)
        requires { length (drop start more.now) ≤ self.old.free }
        ensures { self.new ≡ record {
          items = self.old.items ++ drop start more.now;
          free = self.old.free - length (drop start more.now);
        } }
    {
        let (head, metadata, content) = more.as_slices();
        self.put(without_front(head, start));
        let start = start.saturating_sub(head.len());
        self.put(without_front(metadata, start));
        let start = start.saturating_sub(metadata.len());
        self.put(without_front(content, start));
    }

    /// Appends the frame as it lies that stands after its 24-bit length, in pieces. There is room for it.
    pub fn put_laid_pieces(&mut self, bytes: &Pieces<'_>)
        requires framed { bytes.now ≡ framed (drop 3 bytes.now) }
        requires room { prefix_len (length (drop 3 bytes.now)) + length (drop 3 bytes.now)
            ≤ self.old.free }
        requires longest { length (drop 3 bytes.now) < 2 ^ 24 }
        ensures { self.new ≡ record self.old {
          items = self.old.items ++ laid (drop 3 bytes.now);
          free = self.old.free -
              (prefix_len (length (drop 3 bytes.now)) + length (drop 3 bytes.now));
        } }
    {
        let count = bytes.len() - 3;
        match prefix_len(count) {
            1 => self.put_pieces_from(2, bytes),
            3 => self.put_pieces(bytes),
            _ => {
                self.put(&[1]);
                self.put_pieces(bytes);
            }
        }
    }

    /// What stands before the frame that lies at the index.
    pub fn prefix_at(&self, index: usize) -> Prefix
        requires some { (frame : List ℕ) × Begins (drop index self.now.items) frame }
        requires top { index + 4 < 2 ^ 64 }
        ensures { (frame : List ℕ) → Begins (drop index self.now.items) frame →
            result ≡ record { size = prefix_len (length frame); length = length frame } }
    {
        let part = self.part_from(index);
        match part[0] {
            // Mostly the length lies in one block.
            0 if part.len() >= 3 => Prefix {
                size: 3,
                length: usize::from(part[1]) * 256 + usize::from(part[2]),
            },
            0 => Prefix {
                size: 3,
                length: self.number_at(index),
            },
            1 => Prefix {
                size: 4,
                length: self.number_at(index + 1),
            },
            length => Prefix {
                size: 1,
                length: usize::from(length),
            },
        }
    }
}
