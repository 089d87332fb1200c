//! A shelf of tapes that keep no entry.

ghost use Rattle.std.specs.Prelude.{◌≡◌, ◌+◌, ◌≤◌, [], length, vec_len, vec_capacity};

use crate::blank::Blank;
use crate::shelf::Shelf;
use rs_wire::{OutOfMemory, Side};
use std::alloc::Global;

/// A shelf of tapes that keep no entry. Of each that was put back it keeps the count of entries.
#[derive(Drop)]
pub struct BlankShelf {
    /// How many tapes are lent and not put back.
    lent: usize,
    /// The tapes that were put back, with a place reserved for each that is lent.
    tapes: Vec<Blank>,
    ghost room: { vec_len tapes + lent ≤ vec_capacity tapes },
}

impl BlankShelf {
    /// An empty shelf, of which nothing is lent.
    pub fn new(alloc: Global) -> BlankShelf
        ensures back { ⟦<BlankShelf as Shelf>⟧.back result ≡ [] }
        ensures lent { ⟦<BlankShelf as Shelf>⟧.lent result ≡ 0 }
    {
        BlankShelf {
            lent: 0,
            tapes: Vec::new(alloc),
        }
    }

    /// The tapes that were put back, in their order.
    pub fn tapes(&self) -> &[Blank]
        ensures { length result.now ≡ length (⟦<BlankShelf as Shelf>⟧.back self.now) }
    {
        self.tapes.as_slice()
    }
}

impl Shelf for BlankShelf {
    ghost use Rattle.std.specs.Prelude.{map, None};

    type Tape = Blank;

    ghost back = { λ s. map (λ k. None) s.tapes.items };

    ghost lent = { λ s. s.lent };

    ghost fresh = { None };

    fn lend(&mut self, _side: Side) -> Result<Blank, OutOfMemory> {
        self.tapes.reserve(self.lent + 1)?;
        self.lent += 1;
        Ok(Blank::new())
    }

    fn put_back(&mut self, tape: Blank) {
        self.tapes.push_reserved(tape);
        self.lent -= 1;
    }
}
