//! Why a route can't be added.

use std::alloc::AllocFailed;
use thiserror::Error;

/// Why a route can't be added. The routes are then as before.
#[derive(Clone, Copy, Debug, PartialEq, Eq, Error)]
pub enum RouteFault {
    /// There is a route of this name and kind already.
    #[error("there is a route of this name and kind already")]
    Twice,
    /// There was not enough memory, or there are 2^32 routes, as many as have numbers.
    #[error("out of memory")]
    OutOfMemory,
}

impl<T: Drop> From<AllocFailed<T>> for RouteFault {
    ghost use Rattle.std.specs.Prelude.{◌≡◌};
    ghost use Rattle.handlers.specs.declared.fault.RouteFault.TheVariants as faults;

    ghost from_gives = { λ _ fault. fault ≡ faults.OutOfMemory };

    fn from(_error: AllocFailed<T>) -> RouteFault {
        RouteFault::OutOfMemory
    }
}
