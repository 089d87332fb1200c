//! Where bytes come from.

ghost use Rattle.std.specs.Prelude.{◌≡◌, ◌<◌, length};
ghost use Rattle.outside.specs.Streams.{ByteStream, IsRead, faults_after_read};

/// What one read gave.
#[derive(Clone, Copy, Debug, PartialEq, Eq)]
pub enum Read {
    /// This many bytes, at least 1, at the start of the buffer.
    Took(usize),
    /// Nothing is left.
    End,
    /// A fault, which is counted. Nothing was taken.
    Failed,
}

/// Where bytes come from, in their order.
pub trait Source {
    /// The bytes left, where the source shows them, and how many reads failed: that count never
    /// falls, and stands still where a u64 ends.
    ghost shown: { Self → ByteStream };

    /// Takes bytes into the buffer, which is not empty: as many as there are now, and at least 1.
    fn read(&mut self, buffer: &mut [u8]) -> Read
        requires { 0 < length buffer.old }
        ensures read { IsRead (shown self.old).told (shown self.new).told buffer.new result }
        ensures faults { (shown self.new).faults ≡
            faults_after_read result (shown self.old).faults };
}
