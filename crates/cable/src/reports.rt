//! The report of a run.

ghost use Rattle.std.specs.Prelude.{◌≡◌, ◌++◌, OnOk, OnErr};
ghost use Rattle.session_core.specs.Seen.{told_by};
ghost use Rattle.cable.specs.Report.{counts_of, report_of, told_lines};

mod answers;
mod entries;
mod events;

use crate::reports::entries::{put_counts, put_entries};
use crate::run::Ran;
use rs_wire::{OutOfMemory, Side};
use session_core::Session;
use std::alloc::Global;
use tape::Tape;

fn put_end_counts<T: Tape>(
    out: &mut Vec<u8>,
    side: Side,
    end: &Session<T>,
) -> Result<(), OutOfMemory>
    ensures { OnOk result (out.new.items ≡ out.old.items ++
        counts_of side end.now.settings end.now.entries) }
{
    let counts = end.counts();
    let made = (counts.made_frames, counts.made);
    let handled = (counts.handled_frames, counts.handled);
    put_counts(out, side, made, handled)
}

fn put_end_entries<T: Tape>(
    out: &mut Vec<u8>,
    side: Side,
    end: &Session<T>,
) -> Result<(), OutOfMemory>
    ensures { OnOk result (out.new.items ≡
        out.old.items ++ told_lines side (told_by end.now.tells end.now.entries)) }
{
    end.legal();
    put_entries(out, side, end.tape())
}

fn put_report<T: Tape>(out: &mut Vec<u8>, ran: &Ran<T>) -> Result<(), OutOfMemory>
    ensures { OnOk result (out.new.items ≡
        out.old.items ++ report_of ran.now.client ran.now.server) }
{
    put_end_counts(out, Side::Client, &ran.client)?;
    put_end_counts(out, Side::Server, &ran.server)?;
    put_end_entries(out, Side::Client, &ran.client)?;
    put_end_entries(out, Side::Server, &ran.server)
}

/// Appends the report of a run: two lines of counts, then a line for each entry of the client and
/// of the server, but for the draws that gave bytes. Of an end whose tape tells no entries there
/// are only the counts. Where memory runs out, nothing is appended.
pub fn report<T: Tape>(alloc: Global, ran: &Ran<T>, out: &mut Vec<u8>) -> Result<(), OutOfMemory>
    ensures ok { OnOk result (out.new.items ≡
        out.old.items ++ report_of ran.now.client ran.now.server) }
    ensures err { OnErr result (out.new.items ≡ out.old.items) }
{
    let mut text = Vec::new(alloc);
    put_report(&mut text, ran)?;
    out.extend_from_slice(&text)?;
    Ok(())
}
