//! Marks: where some of the frames start and lie. The others are found from these, by their lengths.

ghost use Rattle.std.specs.Prelude.{◌≡◌, ◌+◌, ◌-◌, ◌*◌, ◌<◌, ◌^◌, ◌≤◌, ◌++◌, [], ◌∷◌, length, take, drop, true, IfSome, OnOk, OnErr, IfOk, ℕ, List};
ghost use Rattle.position.specs.Boundaries.{pos_by};
ghost use Rattle.circular_buffer.specs.Buffer.{buffer};
ghost use Rattle.replay_buffer.specs.Laid.{laid_len};
ghost use Rattle.replay_buffer.specs.Marked.{Counts, HasRoom, IsAt, IsMarked, mark_at};

use crate::rings::{Mark, at, count_up_to, drop_front, make_room, push};
use circular_buffer::HeapCircularBuffer;
use rs_wire::OutOfMemory;
use std::alloc::Global;

/// Every so many frames there is a mark, of 16 bytes: an eighth of a byte for each frame. From a
/// mark fewer than so many lengths are read, in less time than the frames take to be copied.
pub const EVERY: usize = 128;

/// So few marks don't pay for looking whether their ring has far more room.
const SOME_MARKS: usize = 64;

/// The index of a frame, the position where it starts, and how many bytes lay before it; or how many
/// frames there are, the position where the newest one ended, and how many bytes lay in all.
#[derive(Debug, Clone, Copy)]
pub struct Spot {
    /// The index, the oldest frame's being 0.
    pub index: usize,
    /// The position, in bytes.
    pub position: u64,
    /// How many bytes lay before it, those of forgotten frames with them.
    pub offset: usize,
}

impl Spot {
    /// The place of the first frame, which starts at the position and lies after so many bytes.
    #[inline(always)]
    pub fn first(position: u64, offset: usize) -> Spot
        ensures { result ≡ record { index = 0; position = position; offset = offset } }
    {
        Spot {
            index: 0,
            position,
            offset,
        }
    }

    /// The same place once the frames before another one are gone; that one, where this place lay
    /// before it.
    pub fn without_front(self, gone: Spot) -> Spot
        ensures { (at base : ℕ) (frames : List (List ℕ)) → IsAt at base frames self →
            IsAt at base frames gone →
            IsAt gone.position gone.offset (drop gone.index frames) result }
    {
        if self.index < gone.index {
            return Spot::first(gone.position, gone.offset);
        }
        Spot {
            index: self.index - gone.index,
            position: self.position,
            offset: self.offset,
        }
    }

    /// The later of two places, or this one where the other lies beyond the position.
    pub fn or_later(self, other: Spot, position: u64) -> Spot
        ensures at { (at base : ℕ) (frames : List (List ℕ)) → IsAt at base frames self →
            IsAt at base frames other → IsAt at base frames result }
        ensures low { self.position ≤ position → result.position ≤ position }
    {
        if self.position < other.position && other.position <= position {
            return other;
        }
        self
    }
}

/// A place in the framed bytes: so many bytes after a boundary.
#[derive(Debug, Clone, Copy)]
pub struct Place {
    /// The boundary.
    pub position: u64,
    /// How many bytes after it.
    pub skip: u64,
}

/// How many frames there are, and where every [`EVERY`]-th of them starts and lies.
#[derive(Debug, Drop)]
pub struct Marks {
    // Where every so many-th frame starts and lies, the oldest first.
    starts: HeapCircularBuffer<Mark>,
    // How many frames lie before the first that has a mark.
    lead: usize,
    // How many frames there are.
    frames: usize,
}

impl Marks {
    /// There is no frame.
    pub fn new(alloc: Global) -> Result<Marks, OutOfMemory>
        ensures { IfOk result (λ marks.
            marks ≡ record { starts = buffer [] 0; lead = 0; frames = 0 }) }
    {
        Ok(Marks {
            starts: HeapCircularBuffer::with_capacity(alloc, 0)?,
            lead: 0,
            frames: 0,
        })
    }

    /// How many frames there are.
    pub fn frames(&self) -> usize
        ensures { result ≡ self.now.frames }
    {
        self.frames
    }

    // Whether there is room for the marks of so many frames more, and not far more.
    #[inline(always)]
    fn suits(&self, spare: usize) -> bool
        requires { Counts self.now }
        ensures { result ≡ true → HasRoom self.now spare }
    {
        let capacity = self.starts.capacity();
        let marked = self.starts.len();
        spare / EVERY < capacity - marked && capacity / 4 <= marked + SOME_MARKS
    }

    /// Reserves memory for the marks of `spare` frames more.
    pub fn reserve(&mut self, spare: usize) -> Result<(), OutOfMemory>
        requires { Counts self.old }
        ensures same { self.new ≡
            record self.old { starts = buffer self.old.starts.items self.new.starts.capacity } }
        ensures room { OnOk result (HasRoom self.new spare) }
        ensures err { OnErr result (self.new ≡ self.old) }
    {
        if self.suits(spare) {
            return Ok(());
        }
        make_room(&mut self.starts, 1 + spare / EVERY)
    }

    /// Appends a frame that starts at the position and lies after so many bytes.
    pub fn append(&mut self, position: u64, offset: usize)
        requires room { HasRoom self.old 1 }
        requires counts { Counts self.old }
        ensures marked { (at base : ℕ) (frames : List (List ℕ)) (frame : List ℕ) →
            IsMarked at base frames self.old → position ≡ at + pos_by length frames →
            offset ≡ base + laid_len frames →
            IsMarked at base (frames ++ frame ∷ []) self.new }
        ensures count { self.new.frames ≡ self.old.frames + 1 }
        ensures room { (spare : ℕ) → HasRoom self.old (1 + spare) → HasRoom self.new spare }
    {
        if self.frames == self.lead + EVERY * self.starts.len() {
            push(&mut self.starts, Mark { position, offset });
        }
        self.frames += 1;
    }

    /// Drops the first frames.
    pub fn drop_front(&mut self, count: usize)
        requires within { count ≤ self.old.frames }
        requires counts { Counts self.old }
        ensures marked { (at base : ℕ) (frames : List (List ℕ)) →
            IsMarked at base frames self.old →
            IsMarked (at + pos_by length (take count frames)) (base + laid_len (take count frames))
            (drop count frames) self.new }
        ensures count { self.new.frames ≡ self.old.frames - count }
        ensures room { (spare : ℕ) → HasRoom self.old spare → HasRoom self.new spare }
    {
        self.frames -= count;
        if count <= self.lead {
            self.lead -= count;
            return;
        }
        let marks = (count - self.lead + (EVERY - 1)) / EVERY;
        self.lead = self.lead + EVERY * marks - count;
        drop_front(&mut self.starts, marks);
    }

    // The frame with the mark of this index.
    fn place(&self, mark: usize) -> Spot
        requires within { mark < length self.now.starts.items }
        requires counts { Counts self.now }
        ensures index { result.index ≡ self.now.lead + EVERY * mark }
        ensures position { result.position ≡ (mark_at self.now.starts.items mark).position }
        ensures at { (at base : ℕ) (frames : List (List ℕ)) →
            IsMarked at base frames self.now → IsAt at base frames result }
    {
        let Mark { position, offset } = at(&self.starts, mark);
        Spot {
            index: self.lead + EVERY * mark,
            position,
            offset,
        }
    }

    /// The last frame with a mark that starts at or before the position; where there is none the
    /// first frame, whose place is given.
    pub fn before(&self, first: Spot, position: u64) -> Spot
        requires first { first.index ≡ 0 }
        requires marked { (frames : List (List ℕ)) ×
            IsMarked first.position first.offset frames self.now }
        requires counts { Counts self.now }
        ensures at { (frames : List (List ℕ)) →
            IsMarked first.position first.offset frames self.now →
            IsAt first.position first.offset frames result }
        ensures low { first.position ≤ position → result.position ≤ position }
    {
        let count = count_up_to(&self.starts, position);
        if count == 0 {
            return first;
        }
        self.place(count - 1)
    }

    /// The first frame with a mark after the index.
    pub fn after(&self, index: usize) -> Option<Spot>
        requires within { index ≤ self.now.frames }
        requires counts { Counts self.now }
        ensures at { IfSome result (λ spot. (at base : ℕ) (frames : List (List ℕ)) →
            IsMarked at base frames self.now → IsAt at base frames spot) }
        ensures later { IfSome result (λ spot. index < spot.index) }
    {
        let place = if index < self.lead {
            0
        } else {
            (index - self.lead) / EVERY + 1
        };
        if place >= self.starts.len() {
            return None;
        }
        Some(self.place(place))
    }
}
