//! The handlers of the program, and the routes under which a request asks for them.
//!
//! | route | kind | content | items |
//! |---|---|---|---|
//! | `echo` | request-response | any | the content |
//! | `upper` | request-channel | any | the content, `a` to `z` as capitals |
//! | `count` | request-stream | a number of 1 to 9 digits | 0 and on, as many as it says |
//! | `drop` | fire-and-forget | any | none |
//!
//! Each of them is a [`Law`] that is called itself, so what it answers is the law's item. The
//! promise to the layer above: the routes are these four, in this order, and a route is found by
//! its name, byte by byte, and its kind together.
//!
//! It leaves out how a request carries a name, and what a request for no route is answered.
#![tactic(auto)]

ghost use Rattle.std.specs.Prelude.{◌≡◌, [], ◌∷◌, ◌++◌, None, IfOk, OnOk};
ghost use Rattle.handlers.specs.Listed.{place};
ghost use Rattle.stored_handlers.specs.Stored.{stored_routes};

use handlers::{Law, RouteFault, Routes, Stored};
use rs_wire::{Blob, Kind, OutOfMemory};
use std::alloc::Global;

// Adds the route of this name and kind, whose handler is the law.
fn add(
    alloc: Global,
    routes: &mut Routes<Law>,
    name: &str,
    kind: Kind,
    law: Law,
) -> Result<(), OutOfMemory>
    requires { place routes.old name.now kind ≡ None }
    ensures { OnOk result (routes.new ≡
        routes.old ++ record { name = name.now; kind = kind; law = law } ∷ []) }
{
    let name = Blob::from_slice(alloc, name.as_bytes())?;
    match routes.add(name, kind, Stored::of(law)) {
        Ok(()) => Ok(()),
        Err(RouteFault::OutOfMemory) => Err(OutOfMemory),
        Err(RouteFault::Twice) => unreachable!(),
    }
}

/// The routes of the program's four handlers.
pub fn stored_routes(alloc: Global) -> Result<Routes<Law>, OutOfMemory>
    ensures { IfOk result (λ routes. routes ≡ stored_routes) }
{
    let mut routes = Routes::new(alloc);
    add(alloc, &mut routes, "echo", Kind::Response, Law::Echo)?;
    add(alloc, &mut routes, "upper", Kind::Channel, Law::Upper)?;
    add(alloc, &mut routes, "count", Kind::Stream, Law::Count)?;
    add(alloc, &mut routes, "drop", Kind::Fnf, Law::Drop)?;
    Ok(routes)
}
