//! What callers take: deliveries of a stream, and jobs.

ghost use Rattle.std.specs.Prelude.{◌≡◌, ◌++◌, List};
ghost use Rattle.stream_model.specs.Arriving.{took, took_job};
ghost use Rattle.stream_model.specs.Marks.{Mark};
ghost use Rattle.interactions.specs.Seen.{front_of};
ghost use Rattle.interactions.specs.Stands.{known_of, KeepsRoom, Stands};

use crate::parts::Parts;
use rs_wire::{Delivery, Job};

impl Parts {
    /// Takes what waits first on a stream.
    #[inline(always)]
    pub fn take(&mut self, stream: u32) -> Option<Delivery>
        ensures front { result ≡ front_of ((known_of self.old).waits stream) }
        ensures limits { self.new.table.limits ≡ self.old.table.limits }
        ensures stands { (seen : List Mark) → Stands self.old seen →
            Stands self.new (took stream result ++ seen) }
        ensures keeps { KeepsRoom self.old self.new }
    {
        self.waits.pop(stream)
    }

    /// Takes the job that waits first.
    #[inline(always)]
    pub fn take_job(&mut self) -> Option<Job>
        ensures front { result ≡ front_of (known_of self.old).jobs }
        ensures limits { self.new.table.limits ≡ self.old.table.limits }
        ensures stands { (seen : List Mark) → Stands self.old seen →
            Stands self.new (took_job result ++ seen) }
        ensures keeps { KeepsRoom self.old self.new }
    {
        self.jobs.pop()
    }
}
