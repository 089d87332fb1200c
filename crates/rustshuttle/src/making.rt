//! Ends at which nothing happened yet.

ghost use Rattle.std.specs.Prelude.{◌≡◌, IfOk, None, [], false};
ghost use Rattle.rs_wire.specs.Settings.{usual};
ghost use Rattle.rs_wire.specs.declared.words.Side.TheVariants.{Client, Server};

use crate::endpoint::Endpoint;
use rs_wire::{Checked, OutOfMemory, Settings, Side, check};
use std::alloc::Global;
use tape::Blank;

/// The defaults of a side, checked.
pub fn usual(alloc: Global, side: Side) -> Result<Checked, OutOfMemory>
    ensures { IfOk result (λ s. s ≡ usual side) }
{
    check(Settings::usual(alloc, side)?).map_err(|_| OutOfMemory)
}

// An end with the defaults of its side, whose tape only counts what happens.
fn end(alloc: Global, side: Side) -> Result<Endpoint<Blank>, OutOfMemory>
    ensures settings { IfOk result (λ e. e.session.settings ≡ usual side) }
    ensures new { IfOk result (λ e. e.session.entries ≡ []) }
{
    Endpoint::new(alloc, usual(alloc, side)?, Blank::new()).map_err(|(_, error)| error)
}

/// A client with the defaults, at which nothing happened yet.
pub fn client(alloc: Global) -> Result<Endpoint<Blank>, OutOfMemory>
    ensures settings { IfOk result (λ e. e.session.settings ≡ usual Client) }
    ensures new { IfOk result (λ e. e.session.entries ≡ []) }
{
    end(alloc, Side::Client)
}

/// A server with the defaults, at which nothing happened yet.
pub fn server(alloc: Global) -> Result<Endpoint<Blank>, OutOfMemory>
    ensures settings { IfOk result (λ e. e.session.settings ≡ usual Server) }
    ensures new { IfOk result (λ e. e.session.entries ≡ []) }
{
    end(alloc, Side::Server)
}
