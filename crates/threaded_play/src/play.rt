//! The play of a script by threads.

ghost use Rattle.std.specs.Prelude.{◌≡◌, IfOk};
ghost use Rattle.cable.specs.Shelves.{GotTapes, sides_by};
ghost use Rattle.threaded_play.specs.Reports.{ReportsByThreads};

use cable::{Ran, both_ends, report_of};
use cable_script::Script;
use rs_wire::OutOfMemory;
use std::alloc::Global;
use std::sync::Wait;
use std::thread::Threads;
use tape::Shelf;
use threaded::threaded;

/// Plays the script by threads between a client and a server over tapes of the shelf, and gives the
/// tapes back, the client's first. The report of the run.
///
/// Where a thread can't be started the script is played line by line. Lines `drop` and `late` do
/// nothing where threads play.
pub fn play_by_threads<H: Shelf, R: Threads + Wait + Sync>(
    rt: &R,
    alloc: Global,
    script: &Script,
    shelf: &mut H,
) -> Result<Vec<u8>, OutOfMemory>
where
    H::Tape: Drop + Send,
    ensures reports { IfOk result (λ text.
        ReportsByThreads script.now H.fresh (H.back shelf.old) (H.back shelf.new) text.items) }
    ensures lent { H.lent shelf.new ≡ H.lent shelf.old }
    ensures got { GotTapes (sides_by script.now.settings) H.fresh
        (H.back shelf.old) (H.back shelf.new) }
{
    let (client, server) = both_ends(alloc, script, shelf)?;
    let ran = threaded(rt, alloc, script, client, server);
    let text = report_of(alloc, &ran);
    let Ran { client, server, .. } = ran;
    shelf.put_back(client.into_tape());
    shelf.put_back(server.into_tape());
    text
}
