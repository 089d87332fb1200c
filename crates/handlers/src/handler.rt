//! What can be called as a handler.

ghost use Rattle.std.specs.Prelude.{ℕ, List, Option};
ghost use Rattle.handlers.specs.Values.{Shows};

use crate::law::Produced;
use rs_wire::Blob;
use std::alloc::Global;

/// What can be called as a handler: it gives a value for a content and an index. The handlers of a
/// program are one type, for instance an enum of its own.
pub trait Handler: Drop {
    /// The item at a content and an index from 0, or none where the handler finishes.
    ghost gives: { Self → List ℕ → ℕ → Option (List ℕ) };

    /// The item at this index, counted from 0, for this content.
    fn call(&self, alloc: Global, content: &Blob, index: u64) -> Produced
        ensures { Shows (gives self.now content.now index) result };
}
