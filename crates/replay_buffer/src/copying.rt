//! Frames that are copied out, each after its length field.

ghost use Rattle.std.specs.Prelude.{◌≡◌, ◌+◌, ◌-◌, ◌<◌, ◌≤◌, ◌^◌, ◌++◌, ℕ, List, length, take, drop, min};
ghost use Rattle.rs_frame.specs.Framed.{framed};
ghost use Rattle.replay_buffer.specs.Laid.{Begins};
ghost use Rattle.replay_buffer.specs.Stored.{IsStart, framed_from};

use crate::blocks::Blocks;
use crate::laid::{Prefix, without_front};
use crate::store::Store;
use byteorder::{BigEndian, ByteOrder};

// Writes as many of the bytes as fit to the beginning of the buffer, without the first `skip`, and
// answers how many.
fn copy_some(bytes: &[u8], skip: usize, buffer: &mut [u8]) -> usize
    ensures count { result ≡ min (length buffer.old) (length bytes.now - skip) }
    ensures written { buffer.new ≡ take result (drop skip bytes.now) ++ drop result buffer.old }
{
    let rest = without_front(bytes, skip);
    let count = rest.len().min(buffer.len());
    buffer[..count].copy_from_slice(&rest[..count]);
    count
}

impl Blocks {
    /// Writes as many bytes as fit of the frame that lies at the index, which stand after its 24-bit
    /// length, without the first `skip` of all these. Answers how many were written.
    fn copy_framed(&self, index: usize, skip: usize, buffer: &mut [u8]) -> usize
        requires some { (frame : List ℕ) × Begins (drop index self.now.items) frame ×
            (skip ≤ 3 + length frame) }
        requires top { length self.now.items < 2 ^ 64 }
        ensures count { (frame : List ℕ) → Begins (drop index self.now.items) frame →
            result ≡ min (length buffer.old) (3 + length frame - skip) }
        ensures written { (frame : List ℕ) → Begins (drop index self.now.items) frame →
            buffer.new ≡ take result (drop skip (framed frame)) ++ drop result buffer.old }
    {
        let Prefix { size, length } = self.prefix_at(index);
        let mut field = [0; 3];
        BigEndian::write_u24(&mut field, length as u32);
        let first = copy_some(&field, skip, buffer);
        let gone = skip.saturating_sub(3);
        let count = (length - gone).min(buffer.len() - first);
        first + self.copy_after(index + size + gone, &mut buffer[first..first + count])
    }
}

impl Store {
    /// Writes as many bytes as fit of the frames from one on, each after its length field, without
    /// the first `skip` of these bytes. Answers how many were written. Frames that lie as they go onto
    /// a stream are copied together, others one by one.
    pub fn copy(&self, from: u64, skip: u64, buffer: &mut [u8]) -> usize
        requires boundary { IsStart self.now from }
        requires within { skip ≤ length (framed_from self.now from) }
        ensures count { let framed = framed_from self.now from in
            result ≡ min (length buffer.old) (length framed - skip) }
        ensures written { let framed = framed_from self.now from in
            buffer.new ≡ take result (drop skip framed) ++ drop result buffer.old }
    {
        let mut spot = self.find(from);
        let mut skip = skip as usize;
        let mut written = 0;
        while spot.position < self.plain {
            let next = self.next(spot);
            let framed = 3 + (next.position - spot.position) as usize;
            if skip < framed {
                let lies = spot.offset - self.base;
                written += self.bytes.copy_framed(lies, skip, &mut buffer[written..]);
                if written == buffer.len() {
                    return written;
                }
            }
            skip = skip.saturating_sub(framed);
            spot = next;
        }
        let lies = spot.offset - self.base;
        written + self.bytes.copy_after(lies + skip, &mut buffer[written..])
    }
}
