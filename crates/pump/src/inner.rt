//! What a pump has inside.

ghost use Rattle.std.specs.Prelude.{◌≡◌, ◌<◌, ◌^◌, [], false, IfOk};
ghost use Rattle.pump.specs.Turns.{has};

use crate::incoming::Incoming;
use crate::outgoing::Outgoing;
use rs_chunk::Reader;
use rs_wire::OutOfMemory;
use std::alloc::Global;

/// What a pump has inside: the bytes on their way in both directions.
#[derive(Drop)]
pub(crate) struct Inner {
    pub(crate) alloc: Global,
    /// The number of the connection.
    pub(crate) conn: u64,
    pub(crate) outgoing: Outgoing,
    pub(crate) incoming: Incoming,
    /// Bytes came that are no frame. What comes after them is dropped.
    pub(crate) bad: bool,
}

impl Inner {
    pub(crate) fn new(alloc: Global, conn: u64, reader: Reader) -> Result<Inner, OutOfMemory>
        requires { reader.max_in < 2 ^ 24 }
        ensures { IfOk result (λ p. has p ≡ record {
          conn = conn;
          left = [];
          rest = reader.bytes;
          max_in = reader.max_in;
          bad = false;
        }) }
    {
        Ok(Inner {
            alloc,
            conn,
            outgoing: Outgoing::new(alloc)?,
            incoming: Incoming::new(alloc, reader)?,
            bad: false,
        })
    }
}
