//! The streams of an end without what happened on them: what is kept of those that are open, and
//! what waits to be taken.

ghost use Rattle.std.specs.Prelude.{◌≡◌, ◌<◌, ◌≤◌, ◌^◌, ℕ, IfOk, OnOk, IsOk, [], List};
ghost use Rattle.stream_model.specs.Marks.{Mark};
ghost use Rattle.stream_model.specs.declared.stream.Limits.{Limits};
ghost use Rattle.interactions.specs.Stands.{known_of, HasRoom, KeepsRoom, Stands};

use crate::queue::Queue;
use crate::waits::Waits;
use rs_wire::{Job, OutOfMemory, Side};
use std::alloc::Global;
use stream_table::Table;

/// What is kept of the streams that are open, and what waits.
#[derive(Drop)]
pub struct Parts {
    /// The streams that are open.
    pub table: Table,
    /// The deliveries that wait, by stream.
    pub waits: Waits,
    /// The jobs that wait.
    pub jobs: Queue<Job>,
}

impl Parts {
    /// No stream yet.
    pub fn new(
        alloc: Global,
        side: Side,
        max_streams: u32,
        last_id: u32,
    ) -> Result<Parts, OutOfMemory>
        requires { last_id < 2 ^ 31 }
        ensures limits { IfOk result (λ p. p.table.limits ≡
            record { side = side; max_streams = max_streams; last_id = last_id }) }
        ensures stands { IfOk result (λ p. Stands p []) }
    {
        Ok(Parts {
            table: Table::new(alloc, side, max_streams, last_id)?,
            waits: Waits::new(alloc),
            jobs: Queue::new(alloc),
        })
    }

    /// Makes room for what comes on a stream.
    #[inline(always)]
    pub fn reserve(&mut self, stream: u32) -> Result<(), OutOfMemory>
        ensures limits { self.new.table.limits ≡ self.old.table.limits }
        ensures known { known_of self.new ≡ known_of self.old }
        ensures room { OnOk result (HasRoom self.new stream) }
        ensures keeps { KeepsRoom self.old self.new }
    {
        self.table.reserve()?;
        self.jobs.reserve(1)?;
        self.waits.reserve(stream, 2)
    }
}
