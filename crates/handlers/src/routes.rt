//! Routes, by name and kind.

ghost use Rattle.std.specs.Prelude.{◌≡◌, ◌↔◌, ◌<◌, [], ◌∷◌, ◌++◌, length, slice_get, Err, IfSome, IsSome, OnErr, OnOk};
ghost use Rattle.handlers.specs.Listed.{is_for, place};
ghost use Rattle.handlers.specs.Values.{Shows, value};
ghost use Rattle.handlers.specs.declared.fault.RouteFault.TheVariants as faults;

use crate::fault::RouteFault;
use crate::handler::Handler;
use crate::law::Produced;
use crate::stored::Stored;
use rs_wire::{Blob, Kind};
use std::alloc::Global;
use std::marker::Model;

// How many routes have numbers.
const MOST_ROUTES: usize = 1 << 32;

// A handler, and the requests that it answers.
#[derive(Debug, Drop)]
struct Route<F: Handler> {
    name: Blob,
    kind: Kind,
    stored: Stored<F>,
}

impl<F: Handler> Model for Route<F> {
    ghost use Rattle.handlers.specs.Listed.{Listed};

    ghost Value = { Listed };

    ghost view = { λ r. record { name = r.name; kind = r.kind; law = r.stored } };
}

impl<F: Handler> Route<F> {
    // Whether it answers the requests of this name and kind.
    fn is_for(&self, name: &Blob, kind: Kind) -> bool
        ensures { result ≡ is_for name.now kind self.now }
    {
        self.name == *name && self.kind == kind
    }

    fn answer(&self, alloc: Global, content: &Blob, index: u64) -> Produced
        ensures { Shows (value self.now.law content.now index) result }
    {
        self.stored.answer(alloc, content, index)
    }
}

// The place of the first route of this name and kind.
fn place<F: Handler>(routes: &[Route<F>], name: &Blob, kind: Kind) -> Option<usize>
    ensures place { result ≡ place routes.now name.now kind }
    ensures within { IfSome result (λ n. n < length routes.now) }
{
    routes.iter().position(|route| route.is_for(name, kind))
}

/// The routes of a program, in the order in which they were added. The number of a route is its
/// place, from 0, and stays. Contracts see the list of their names, kinds and laws.
#[derive(Debug, Drop)]
pub struct Routes<F: Handler> {
    routes: Vec<Route<F>>,
}

impl<F: Handler> Model for Routes<F> {
    ghost use Rattle.std.specs.Prelude.{◌≤◌, ◌^◌, List, length};
    ghost use Rattle.handlers.specs.Listed.{Listed};

    ghost Value = { List Listed };

    ghost view = { λ r. r.routes.items };

    ghost invariant = { λ r. length r.routes.items ≤ 2 ^ 32 };
}

impl<F: Handler> Routes<F> {
    /// No routes.
    pub fn new(alloc: Global) -> Routes<F>
        ensures { result ≡ [] }
    {
        Routes {
            routes: Vec::new(alloc),
        }
    }

    /// The number of the route of this name and kind, or none where there is none. It looks at the
    /// routes in their order, so it takes time in proportion to their number.
    pub fn find(&self, name: &Blob, kind: Kind) -> Option<u32>
        ensures place { result ≡ place self.now name.now kind }
        ensures within { IfSome result (λ n. n < length self.now) }
    {
        let n = place(&self.routes, name, kind)?;
        Some(n as u32)
    }

    /// Adds a route, as the last, unless there is one of this name and kind. The name is any bytes,
    /// compared as they are.
    pub fn add(&mut self, name: Blob, kind: Kind, stored: Stored<F>) -> Result<(), RouteFault>
        ensures twice { (result ≡ Err faults.Twice) ↔ IsSome (place self.old name kind) }
        ensures added { OnOk result
            (self.new ≡ self.old ++ record { name = name; kind = kind; law = stored } ∷ []) }
        ensures refused { OnErr result (self.new ≡ self.old) }
    {
        if self.find(&name, kind).is_some() {
            return Err(RouteFault::Twice);
        }
        if self.routes.len() >= MOST_ROUTES {
            return Err(RouteFault::OutOfMemory);
        }
        self.routes.push(Route { name, kind, stored })?;
        Ok(())
    }

    /// What the law of the route of this number says at this index, counted from 0, for this
    /// content.
    pub fn answer(&self, alloc: Global, route: u32, content: &Blob, index: u64) -> Produced
        requires { route < length self.now }
        ensures { IfSome (slice_get self.now route)
            (λ r. Shows (value r.law content.now index) result) }
    {
        self.routes[route as usize].answer(alloc, content, index)
    }
}
