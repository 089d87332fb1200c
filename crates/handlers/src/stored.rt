//! A handler beside the law that it keeps.

ghost use Rattle.std.specs.Prelude.{◌≡◌, ℕ, List};
ghost use Rattle.handlers.specs.Values.{Shows, value};

use crate::handler::Handler;
use crate::law::{Law, Produced};
use rs_wire::Blob;
use std::alloc::Global;
use std::marker::Model;

/// A handler that keeps a law: what it gives is what the law says. Contracts see the law.
#[derive(Debug, Drop)]
pub struct Stored<F: Handler> {
    law: Law,
    call: F,
}

impl<F: Handler> Model for Stored<F> {
    ghost use Rattle.std.specs.Prelude.{◌≡◌, ℕ, List};
    ghost use Rattle.handlers.specs.declared.law.Law.{Law};
    ghost use Rattle.handlers.specs.Values.{value};

    ghost Value = { Law };

    ghost view = { λ s. s.law };

    ghost invariant = { λ s. (d : List ℕ) (i : ℕ) → F.gives s.call d i ≡ value s.law d i };
}

impl<F: Handler> Stored<F> {
    /// The handler, which gives what the law says.
    pub fn new(law: Law, call: F) -> Stored<F>
        requires lawful { (d : List ℕ) (i : ℕ) → F.gives call d i ≡ value law d i }
        ensures { result ≡ law }
    {
        Stored { law, call }
    }

    /// The law.
    pub fn law(&self) -> Law
        ensures { result ≡ self.now }
    {
        self.law
    }

    /// What the law says at this index, counted from 0, for this content.
    pub fn answer(&self, alloc: Global, content: &Blob, index: u64) -> Produced
        ensures { Shows (value self.now content.now index) result }
    {
        self.call.call(alloc, content, index)
    }
}
