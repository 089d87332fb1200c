//! A connection to a peer.

ghost use Rattle.std.specs.Prelude.{◌≡◌, ◌<◌, length};
ghost use Rattle.outside.specs.Causes.{Rose};
ghost use Rattle.outside.specs.Links.{IsGive, IsTake, NoneFell, Shown, counts_after_give, counts_after_take};

use bell::Bell;
use std::sync::{Arc, Wait};

/// What one take gave.
#[derive(Clone, Copy, Debug, PartialEq, Eq)]
pub enum Taken {
    /// This many bytes, at least 1, at the start of the buffer.
    Took(usize),
    /// Nothing came for now, which is counted as a lull.
    Lull,
    /// The peer will send no more, which is counted as an end.
    End,
    /// A fault, which is counted. Nothing was taken.
    Failed,
}

/// What one give did.
#[derive(Clone, Copy, Debug, PartialEq, Eq)]
pub enum Given {
    /// The first bytes of the piece, this many and at least 1, are on their way.
    Took(usize),
    /// Nothing could go for now, which is counted as a stall.
    Lull,
    /// A fault, which is counted. Nothing was given.
    Failed,
}

/// A connection to a peer. On every transport the bytes are frames, each after its 24-bit length
/// (RSocket 1.0, "Framing Protocol").
pub trait Link {
    /// The bytes taken and the bytes given, where the link shows them, and the counts of its faults,
    /// lulls, stalls and ends. A count stands still where a u64 ends.
    ghost shown: { Self → Shown };

    /// Takes bytes into the buffer, which is not empty: as many as came, and at least 1.
    fn take(&mut self, buffer: &mut [u8]) -> Taken
        requires { 0 < length buffer.old }
        ensures taken { IsTake (shown self.old).taken (shown self.new).taken buffer.new result }
        ensures given { (shown self.new).given ≡ (shown self.old).given }
        ensures counted { NoneFell (shown self.old).counts (shown self.new).counts }
        ensures failed { result ≡ Taken.Failed →
            Rose (shown self.old).counts.faults (shown self.new).counts.faults }
        ensures lull { result ≡ Taken.Lull → Rose (shown self.old).counts.lulls
            (shown self.new).counts.lulls }
        ensures end { result ≡ Taken.End → Rose (shown self.old).counts.ends
            (shown self.new).counts.ends }
        ensures counts { (shown self.new).counts ≡
            counts_after_take result (shown self.old).counts };

    /// Gives the first bytes of the piece, which is not empty: as many as there is room for now,
    /// and at least 1. Giving nothing is a fault.
    fn give(&mut self, piece: &[u8]) -> Given
        requires { 0 < length piece.now }
        ensures given { IsGive (shown self.old).given (shown self.new).given piece.now result }
        ensures taken { (shown self.new).taken ≡ (shown self.old).taken }
        ensures counted { NoneFell (shown self.old).counts (shown self.new).counts }
        ensures failed { result ≡ Given.Failed →
            Rose (shown self.old).counts.faults (shown self.new).counts.faults }
        ensures lull { result ≡ Given.Lull → Rose (shown self.old).counts.stalls
            (shown self.new).counts.stalls }
        ensures counts { (shown self.new).counts ≡
            counts_after_give result (shown self.old).counts };

    /// Hands the link the bell of its connection. A link that waits in [`take`](Link::take) ends
    /// that wait, as a lull, when the bell rings, and does not wait where it rang since the last
    /// take. A link that never waits leaves the bell alone, as one may where the system refuses.
    fn hear<R: Wait>(&mut self, _rt: &R, _bell: &Arc<Bell>)
        ensures same { shown self.new ≡ shown self.old }
    {}

    /// Says that nothing more is given, so that the peer does not wait for it. Call it when the link is
    /// given up. A link in memory, whose peer waits for nothing, does nothing.
    fn close(&mut self)
        ensures same { shown self.new ≡ shown self.old }
    {}
}
