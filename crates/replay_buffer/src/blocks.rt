//! Bytes in blocks of one size, which are appended at one end and dropped at the other. They are never
//! moved: a block is made where room is reserved, and let go once all of its bytes were dropped.

ghost use Rattle.std.specs.Prelude.{◌≡◌, ◌+◌, ◌-◌, ◌*◌, ◌<◌, ◌≤◌, ◌++◌, ◌∷◌, [], ◌^◌, ℕ, List, OnErr, OnOk, IfOk, drop, length, max, min, slice_index, take};
ghost use Rattle.std.specs.List.{AllByRecursion, flat_map};
ghost use Rattle.byteorder.specs.Endian.{big_number};
ghost use Rattle.replay_buffer.specs.Blocks.{IsEmpty, IsFull};
ghost use Rattle.replay_buffer.specs.declared.block.TheConstants.{BLOCK};
ghost use Rattle.replay_buffer.specs.declared.blocks.TheConstants.{MOST_BLOCKS};

use crate::block::{BLOCK, Block};
use circular_buffer::HeapCircularBuffer;
use rs_frame::Pieces;
use rs_wire::OutOfMemory;
use std::alloc::Global;
use std::marker::Model;
use std::mem::replace;

/// The most blocks that there are places for: 4 EiB, which no machine has. So how many bytes lie in
/// them fits a number.
const MOST_BLOCKS: usize = 1 << 48;

/// The fewest blocks that their ring has places for, once it has any.
const SOME_BLOCKS: usize = 16;

/// Bytes in blocks, the oldest first. Contracts see the bytes, and how many more there is room for.
#[derive(Debug, Drop)]
pub struct Blocks {
    // The blocks that are full, the oldest first.
    full: HeapCircularBuffer<Block>,
    // The block after them, which is written to.
    last: Block,
    // Blocks that are to be written to next.
    spare: Vec<Block>,
    // How many bytes of the oldest block were dropped.
    gone: usize,
}

impl Model for Blocks {
    ghost use Rattle.replay_buffer.specs.Blocks.{Bytes, IsBlocks, bytes_of};

    ghost Value = { Bytes };

    ghost view = { bytes_of };

    ghost invariant = { IsBlocks };
}

// Lets the oldest blocks go, all of whose bytes were dropped. Answers how many bytes were dropped of
// the one that is the oldest then.
fn let_go(full: &mut HeapCircularBuffer<Block>, gone: usize) -> usize
    requires full { AllByRecursion IsFull full.old.items }
    requires within { gone ≤ BLOCK * length full.old.items + BLOCK }
    ensures full { AllByRecursion IsFull full.new.items }
    ensures capacity { full.new.capacity ≡ full.old.capacity }
    ensures fewer { length full.new.items ≤ length full.old.items }
    ensures gone { result ≤ BLOCK }
    ensures count { result + BLOCK * length full.old.items ≡
        gone + BLOCK * length full.new.items }
    ensures same { (rest : List ℕ) → drop result (flat_map (λ b. b) full.new.items ++ rest) ≡
        drop gone (flat_map (λ b. b) full.old.items ++ rest) }
{
    let mut gone = gone;
    while gone >= BLOCK {
        let Some(block) = full.pop_front() else {
            break;
        };
        drop(block);
        gone -= BLOCK;
    }
    gone
}

// Makes places for `count` blocks more in their ring. Where most places are not used, the others are
// given back.
fn make_places(full: &mut HeapCircularBuffer<Block>, count: usize) -> Result<(), OutOfMemory>
    requires { full.old.capacity ≤ MOST_BLOCKS }
    ensures items { full.new.items ≡ full.old.items }
    ensures few { full.new.capacity ≤ MOST_BLOCKS }
    ensures places { OnOk result (length full.new.items + count ≤ full.new.capacity) }
    ensures err { OnErr result (full.new ≡ full.old) }
{
    let capacity = full.capacity();
    let wanted = full.len().checked_add(count).ok_or(OutOfMemory)?;
    if wanted > MOST_BLOCKS {
        return Err(OutOfMemory);
    }
    let double = wanted.saturating_mul(2).max(SOME_BLOCKS).min(MOST_BLOCKS);
    if wanted > capacity {
        full.resize(double)?;
    } else if double < capacity / 4 {
        // Where there is no memory for fewer places, they stay.
        let _fewer = full.resize(double);
    }
    Ok(())
}

// Makes as many spare blocks as are wanted.
fn make_spare(spare: &mut Vec<Block>, count: usize, alloc: Global) -> Result<(), OutOfMemory>
    requires { AllByRecursion IsEmpty spare.old.items }
    ensures spare { AllByRecursion IsEmpty spare.new.items }
    ensures enough { OnOk result (count ≤ length spare.new.items) }
    ensures more { length spare.old.items ≤ length spare.new.items }
    ensures most { length spare.new.items ≤ max (length spare.old.items) count }
{
    while spare.len() < count {
        spare.push(Block::new(alloc)?)?;
    }
    Ok(())
}

// Goes on from the last block, which is full, to a spare one.
fn go_on(full: &mut HeapCircularBuffer<Block>, last: &mut Block, spare: &mut Vec<Block>)
    requires some { 0 < length spare.old.items }
    requires spare { AllByRecursion IsEmpty spare.old.items }
    requires place { length full.old.items < full.old.capacity }
    ensures full { full.new ≡ record full.old { items = full.old.items ++ last.old ∷ [] } }
    ensures last { last.new ≡ [] }
    ensures spare { spare.new.items ≡ take (length spare.old.items - 1) spare.old.items }
{
    if let Some(block) = spare.pop() {
        let _place = full.try_push_back(replace(last, block));
    }
}

// The bytes from one on.
fn rest_of<'a>(bytes: &'a [u8], start: usize) -> &'a [u8]
    requires { start ≤ length bytes.now }
    ensures { result.now ≡ drop start bytes.now }
{
    &bytes[start..]
}

// The bytes from one on that lie in the same block, of those in full blocks and in the last one.
fn bytes_from<'a>(full: &'a HeapCircularBuffer<Block>, last: &'a Block, at: usize) -> &'a [u8]
    requires full { AllByRecursion IsFull full.now.items }
    requires within { at < length (flat_map (λ b. b) full.now.items ++ last.now) }
    ensures some { 0 < length result.now }
    ensures bytes { result.now ≡
        take (length result.now) (drop at (flat_map (λ b. b) full.now.items ++ last.now)) }
{
    match full.get(at / BLOCK) {
        Some(block) => rest_of(block.as_slice(), at % BLOCK),
        None => rest_of(last.as_slice(), at - BLOCK * full.len()),
    }
}

impl Blocks {
    /// There is no byte yet, and room for some.
    pub fn new(alloc: Global) -> Result<Blocks, OutOfMemory>
        ensures { IfOk result (λ blocks. blocks.items ≡ []) }
    {
        Ok(Blocks {
            full: HeapCircularBuffer::with_capacity(alloc, 0)?,
            last: Block::new(alloc)?,
            spare: Vec::new(alloc),
            gone: 0,
        })
    }

    /// How many bytes there are.
    pub fn len(&self) -> usize
        ensures value { result ≡ length self.now.items }
        ensures bound { result < 3 * 2 ^ 61 }
    {
        BLOCK * self.full.len() + self.last.len() - self.gone
    }

    // Makes spare blocks for so many bytes more, and lets those go that are not wanted, but for one.
    #[inline(never)]
    fn reserve_blocks(&mut self, wanted: usize) -> Result<(), OutOfMemory>
        ensures items { self.new.items ≡ self.old.items }
        ensures room { OnOk result (wanted ≤ self.new.free) }
        ensures err { OnErr result (self.old.free ≤ self.new.free) }
    {
        let room = BLOCK - self.last.len();
        let count = wanted.saturating_sub(room).div_ceil(BLOCK);
        make_places(&mut self.full, count.max(self.spare.len()))?;
        let alloc = *self.full.allocator();
        make_spare(&mut self.spare, count, alloc)?;
        self.spare.truncate(count + 1);
        Ok(())
    }

    /// Makes room for so many bytes more.
    #[inline(always)]
    pub fn reserve(&mut self, wanted: usize) -> Result<(), OutOfMemory>
        ensures items { self.new.items ≡ self.old.items }
        ensures room { OnOk result (wanted ≤ self.new.free) }
        ensures err { OnErr result (self.old.free ≤ self.new.free) }
    {
        let spare = self.spare.len();
        if spare < 2 && wanted <= BLOCK - self.last.len() + BLOCK * spare {
            return Ok(());
        }
        self.reserve_blocks(wanted)
    }

    // Appends as many of the bytes as find room in one block. Where the last one is full, that is the
    // next one.
    fn put_some(&mut self, bytes: &[u8]) -> usize
        requires some { 0 < length bytes.now }
        requires room { length bytes.now ≤ self.old.free }
        ensures count { result ≤ length bytes.now }
        ensures some { 0 < result }
        ensures put { self.new ≡ record {
          items = self.old.items ++ take result bytes.now;
          free = self.old.free - result;
        } }
    {
        if self.last.len() == BLOCK {
            go_on(&mut self.full, &mut self.last, &mut self.spare);
        }
        let count = bytes.len().min(BLOCK - self.last.len());
        self.last.put(&bytes[..count]);
        count
    }

    // Appends the bytes, for which there is room in several blocks.
    #[inline(never)]
    fn put_across(&mut self, bytes: &[u8])
        requires { length bytes.now ≤ self.old.free }
        ensures { self.new ≡ record {
          items = self.old.items ++ bytes.now;
          free = self.old.free - length bytes.now;
        } }
    {
        let mut rest = bytes;
        while !rest.is_empty() {
            let count = self.put_some(rest);
            rest = &rest[count..];
        }
    }

    /// Appends the bytes, for which there is room.
    #[inline(always)]
    pub fn put(&mut self, bytes: &[u8])
        requires { length bytes.now ≤ self.old.free }
        ensures { self.new ≡ record {
          items = self.old.items ++ bytes.now;
          free = self.old.free - length bytes.now;
        } }
    {
        if bytes.len() <= BLOCK - self.last.len() {
            self.last.put(bytes);
            return;
        }
        self.put_across(bytes);
    }

    /// Appends bytes that lie in pieces, for which there is room.
    pub fn put_pieces(&mut self, more: &Pieces<'_>)
        requires { length more.now ≤ self.old.free }
        ensures { self.new ≡ record {
          items = self.old.items ++ more.now;
          free = self.old.free - length more.now;
        } }
    {
        let (head, metadata, content) = more.as_slices();
        self.put(head);
        if !metadata.is_empty() {
            self.put(metadata);
        }
        self.put(content);
    }

    /// Drops the first bytes.
    pub fn drop_front(&mut self, count: usize)
        requires { count ≤ length self.old.items }
        ensures { self.new ≡ record self.old { items = drop count self.old.items } }
    {
        self.gone += count;
        if self.gone >= BLOCK {
            self.gone = let_go(&mut self.full, self.gone);
        }
    }

    /// The bytes from the one at the index on that lie in the same block.
    pub fn part_from(&self, index: usize) -> &[u8]
        requires { index < length self.now.items }
        ensures some { 0 < length result.now }
        ensures bytes { result.now ≡ take (length result.now) (drop index self.now.items) }
    {
        bytes_from(&self.full, &self.last, self.gone + index)
    }

    /// The byte at the index.
    pub fn byte_at(&self, index: usize) -> usize
        requires { index < length self.now.items }
        ensures value { result ≡ slice_index self.now.items index }
        ensures bound { result < 256 }
    {
        usize::from(self.part_from(index)[0])
    }

    /// The 24-bit number at the index.
    pub fn number_at(&self, index: usize) -> usize
        requires within { index + 3 ≤ length self.now.items }
        requires top { index + 3 < 2 ^ 64 }
        ensures value { result ≡ big_number 3 (drop index self.now.items) }
        ensures bound { result < 2 ^ 24 }
    {
        let high = self.byte_at(index);
        let middle = self.byte_at(index + 1);
        let low = self.byte_at(index + 2);
        high * 65_536 + middle * 256 + low
    }

    /// Writes as many of the bytes as fit to the beginning of the buffer, without the first `skip`, and
    /// answers how many.
    pub fn copy_after(&self, skip: usize, buffer: &mut [u8]) -> usize
        requires { skip ≤ length self.now.items }
        ensures count { result ≡ min (length buffer.old) (length self.now.items - skip) }
        ensures written { buffer.new ≡
            take result (drop skip self.now.items) ++ drop result buffer.old }
    {
        let count = buffer.len().min(self.len() - skip);
        let mut written = 0;
        while written < count {
            let part = self.part_from(skip + written);
            let more = part.len().min(count - written);
            buffer[written..written + more].copy_from_slice(&part[..more]);
            written += more;
        }
        written
    }
}
