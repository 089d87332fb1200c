//! A script played between two ends, and its report.

ghost use Rattle.std.specs.Prelude.{◌≡◌, IfOk, OnOk, false};
ghost use Rattle.cable.specs.Report.{report_of};
ghost use Rattle.cable.specs.Shelves.{GotTapes, Reports, sides_by};

use crate::ends::both_ends;
use crate::reports::report;
use crate::run::{Ran, scheduled};
use cable_script::Script;
use rs_wire::OutOfMemory;
use std::alloc::Global;
use tape::{Shelf, Tape};

/// The report of a run, unless memory ran out.
pub fn report_of<T: Tape>(alloc: Global, ran: &Ran<T>) -> Result<Vec<u8>, OutOfMemory>
    ensures went { OnOk result (ran.now.want ≡ false) }
    ensures reported { IfOk result (λ text. text.items ≡ report_of ran.now.client ran.now.server) }
{
    if ran.want {
        return Err(OutOfMemory);
    }
    let mut text = Vec::new(alloc);
    report(alloc, ran, &mut text)?;
    Ok(text)
}

/// Plays the script between a client and a server over tapes of the shelf, and gives the tapes back,
/// the client's first. The report of the run.
pub fn play<H: Shelf>(alloc: Global, script: &Script, shelf: &mut H) -> Result<Vec<u8>, OutOfMemory>
    ensures reports { IfOk result (λ text.
        Reports script.now H.fresh (H.back shelf.old) (H.back shelf.new) text.items) }
    ensures lent { H.lent shelf.new ≡ H.lent shelf.old }
    ensures got { GotTapes (sides_by script.now.settings) H.fresh
        (H.back shelf.old) (H.back shelf.new) }
{
    let (client, server) = both_ends(alloc, script, shelf)?;
    let ran = scheduled(alloc, script, client, server);
    let text = report_of(alloc, &ran);
    let Ran { client, server, .. } = ran;
    shelf.put_back(client.into_tape());
    shelf.put_back(server.into_tape());
    text
}
