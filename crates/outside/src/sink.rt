//! Where bytes go.

ghost use Rattle.std.specs.Prelude.{◌≡◌, ◌<◌, length};
ghost use Rattle.outside.specs.Streams.{ByteStream, IsWrite, faults_after_write};

/// What one write did.
#[derive(Clone, Copy, Debug, PartialEq, Eq)]
pub enum Wrote {
    /// The first bytes of the piece, this many and at least 1, are written.
    Took(usize),
    /// A fault, which is counted. Nothing was written.
    Failed,
}

/// Where bytes go, in their order.
pub trait Sink {
    /// The bytes written, where the sink shows them, and how many writes failed: that count never
    /// falls, and stands still where a u64 ends.
    ghost shown: { Self → ByteStream };

    /// Writes the first bytes of the piece, which is not empty: as many as there is room for now,
    /// and at least 1. Taking nothing is a fault.
    fn write(&mut self, piece: &[u8]) -> Wrote
        requires { 0 < length piece.now }
        ensures write { IsWrite (shown self.old).told (shown self.new).told piece.now result }
        ensures faults { (shown self.new).faults ≡
            faults_after_write result (shown self.old).faults };
}
