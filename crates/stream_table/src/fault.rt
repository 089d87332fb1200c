//! Why a stream can't be started.

use rs_wire::OutOfMemory;
use thiserror::Error;

/// Why a stream can't be started. The table is then as before.
#[derive(Clone, Copy, Debug, PartialEq, Eq, Error)]
pub enum TableFault {
    /// So many streams are open, as many as may be.
    #[error("the limit of {0} open streams is reached")]
    TooMany(u32),
    /// There was not enough memory.
    #[error("out of memory")]
    OutOfMemory,
}

impl From<OutOfMemory> for TableFault {
    ghost use Rattle.std.specs.Prelude.{◌≡◌};
    ghost use Rattle.stream_table.specs.declared.fault.TableFault.TheVariants as faults;

    ghost from_gives = { λ _ fault. fault ≡ faults.OutOfMemory };

    fn from(_error: OutOfMemory) -> TableFault {
        TableFault::OutOfMemory
    }
}
