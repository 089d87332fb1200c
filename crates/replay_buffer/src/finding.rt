//! Where frames lie that are looked for.

ghost use Rattle.std.specs.Prelude.{◌≡◌, ◌+◌, ◌-◌, ◌<◌, ◌≤◌, ◌↔◌, length, take, drop, IsTrue, ℕ};
ghost use Rattle.position.specs.Boundaries.{pos_by};
ghost use Rattle.replay_buffer.specs.Marked.{IsAt};
ghost use Rattle.replay_buffer.specs.Stored.{IsStart, floor_of, frames_of, framed_from};

use crate::laid::Prefix;
use crate::marks::{Place, Spot};
use crate::store::Store;

impl Store {
    /// The place after the frame at a place.
    pub(crate) fn next(&self, spot: Spot) -> Spot
        requires at { IsAt (floor_of self.now) self.now.base (frames_of self.now) spot }
        requires some { spot.index < length (frames_of self.now) }
        ensures at { IsAt (floor_of self.now) self.now.base (frames_of self.now) result }
        ensures index { result.index ≡ spot.index + 1 }
        ensures later { spot.position < result.position }
    {
        let Prefix { size, length } = self.bytes.prefix_at(spot.offset - self.base);
        Spot {
            index: spot.index + 1,
            position: spot.position + length as u64,
            offset: spot.offset + size + length,
        }
    }

    // The last frame after a place that starts at or before the position, or the place.
    fn walk(&self, from: Spot, position: u64) -> Spot
        requires at { IsAt (floor_of self.now) self.now.base (frames_of self.now) from }
        requires low { from.position ≤ position }
        ensures at { IsAt (floor_of self.now) self.now.base (frames_of self.now) result }
        ensures low { result.position ≤ position }
        ensures next { (k : ℕ) → result.index < k → k ≤ length (frames_of self.now) →
            position < floor_of self.now + pos_by length (take k (frames_of self.now)) }
    {
        let mut spot = from;
        while spot.index < self.marks.frames() {
            let next = self.next(spot);
            if next.position > position {
                break;
            }
            spot = next;
        }
        spot
    }

    // A frame that starts at or before the position, less than a mark's distance from it: one with a
    // mark, the oldest held one, from which on few are passed at a time, or the one that is likely.
    fn nearest(&self, position: u64) -> Spot
        requires { floor_of self.now ≤ position }
        ensures at { IsAt (floor_of self.now) self.now.base (frames_of self.now) result }
        ensures low { result.position ≤ position }
    {
        let first = Spot::first(self.floor, self.base);
        self.marks
            .before(first, position)
            .or_later(self.oldest, position)
            .or_later(self.near, position)
    }

    /// The last frame that starts at or before the position, and the first one where none does; where
    /// the newest one ended at or before it, the place after that one. It takes the time for a binary
    /// search among the marks, and for a walk from one mark to the next.
    pub fn find(&self, position: u64) -> Spot
        ensures at { IsAt (floor_of self.now) self.now.base (frames_of self.now) result }
        ensures low { 0 < result.index → result.position ≤ position }
        ensures next { (k : ℕ) → result.index < k → k ≤ length (frames_of self.now) →
            position < floor_of self.now + pos_by length (take k (frames_of self.now)) }
        ensures start { IsStart self.now position → result.position ≡ position }
    {
        if position >= self.end {
            return Spot {
                index: self.marks.frames(),
                position: self.end,
                offset: self.base + self.bytes.len(),
            };
        }
        if position <= self.floor {
            return Spot::first(self.floor, self.base);
        }
        if position == self.near.position {
            return self.near;
        }
        self.walk(self.nearest(position), position)
    }

    /// From now on [`Store::find`] begins at the place that it finds here, where that is nearer.
    pub fn remember(&mut self, position: u64)
        ensures { self.new ≡ self.old }
    {
        self.near = self.find(position);
    }

    /// Whether a frame starts at the position, or the newest one ended there: [`Store::find`] tells.
    pub fn is_start(&self, position: u64) -> bool
        ensures { IsTrue result ↔ IsStart self.now position }
    {
        self.find(position).position == position
    }

    /// The last start of a frame that the first `count` framed bytes from one on reach, and how many
    /// of them lie after it.
    pub fn place_after(&self, from: u64, count: u64) -> Place
        requires boundary { IsStart self.now from }
        requires within { count ≤ length (framed_from self.now from) }
        ensures start { IsStart self.now result.position }
        ensures later { from ≤ result.position }
        ensures skip { result.skip ≤ count }
        ensures rest { drop (count - result.skip) (framed_from self.now from) ≡
            framed_from self.now result.position }
        ensures inside { result.skip ≤ length (framed_from self.now result.position) }
        ensures last { (p : ℕ) → IsStart self.now p → result.position < p →
            count + length (framed_from self.now p) < length (framed_from self.now from) }
    {
        let mut spot = self.find(from);
        let mut skip = count;
        while let Some(next) = self.marks.after(spot.index) {
            let framed = (next.position - spot.position) + 3 * (next.index - spot.index) as u64;
            if framed > skip {
                break;
            }
            skip -= framed;
            spot = next;
        }
        while spot.index < self.marks.frames() {
            let next = self.next(spot);
            let framed = 3 + (next.position - spot.position);
            if skip < framed {
                break;
            }
            skip -= framed;
            spot = next;
        }
        Place {
            position: spot.position,
            skip,
        }
    }
}
