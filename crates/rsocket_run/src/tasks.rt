//! What each command of the program does with its input.

ghost use Rattle.std.specs.Prelude.{◌≡◌, [], ℕ, List, true, false, Some, IfErr, IfOk, OnOk};
ghost use Rattle.command_line.specs.declared.task.Task.TheVariants as tasks;
ghost use Rattle.rsocket_run.specs.declared.tasks.TheConstants.{READ_FOR_CAPTURE, READ_FOR_SCRIPT};
ghost use Rattle.cable.specs.Shelves.{GotTapes, sides_by};
ghost use Rattle.rsocket_run.specs.Run.{PlayedSome, RanBack, RanCable, RanFrames, ReportsBy};
ghost use Rattle.rsocket_run.specs.Stops.{IsShelfAfterCable, StoppedBy, faults_after_work};
ghost use Rattle.rsocket_run.specs.Streams.{HasRead};

use crate::input::read_to;
use crate::stop::Stop;
use cable::play;
use cable_script::{MOST_SCRIPT, Script};
use capture::{MOST_CAPTURE, from_lines, to_lines};
use outside::Source;
use rs_wire::OutOfMemory;
use std::alloc::Global;
use std::sync::Wait;
use std::thread::Threads;
use tape::Shelf;
use threaded_play::play_by_threads;

/// How many bytes are read for a script at most: one more than it may have, which shows that it is
/// too long.
const READ_FOR_SCRIPT: usize = MOST_SCRIPT + 1;

/// How many bytes are read for a capture, or for its lines, at most: one more than they may have.
const READ_FOR_CAPTURE: usize = MOST_CAPTURE + 1;

// Plays a script by threads, or line by line.
fn play_by<R: Threads + Wait + Sync, H: Shelf>(
    rt: &R,
    alloc: Global,
    threads: bool,
    script: &Script,
    shelf: &mut H,
) -> Result<Vec<u8>, OutOfMemory>
where
    H::Tape: Drop + Send,
    ensures reports { IfOk result (λ text. ReportsBy threads script.now H.fresh
        (H.back shelf.old) (H.back shelf.new) text.items) }
    ensures lent { H.lent shelf.new ≡ H.lent shelf.old }
    ensures got { GotTapes (sides_by script.now.settings) H.fresh
        (H.back shelf.old) (H.back shelf.new) }
{
    if threads {
        play_by_threads(rt, alloc, script, shelf)
    } else {
        play(alloc, script, shelf)
    }
}

/// `cable`: reads a script, plays it between a client and a server, by threads or line by line, and
/// appends the report.
pub fn cable<R: Threads + Wait + Sync, I: Source, H: Shelf>(
    rt: &R,
    alloc: Global,
    threads: bool,
    input: &mut I,
    shelf: &mut H,
    out: &mut Vec<u8>,
) -> Result<(), Stop>
where
    H::Tape: Drop + Send,
    requires { out.old.items ≡ [] }
    ensures done { (text : List ℕ) → (I.shown input.old).told ≡ Some text →
        OnOk result (RanCable threads text (I.shown input.new).told H.fresh (H.back shelf.old)
        (H.back shelf.new) out.new.items) }
    ensures played { OnOk result
        (PlayedSome threads H.fresh (H.back shelf.old) (H.back shelf.new) out.new.items) }
    ensures stopped { (text : List ℕ) → (I.shown input.old).told ≡ Some text →
        IfErr result (λ stop. StoppedBy (tasks.Cable threads) text
        (I.shown input.new).told stop out.new.items) }
    ensures read { HasRead READ_FOR_SCRIPT (I.shown input.old).told (I.shown input.new).told }
    ensures faults { (I.shown input.new).faults ≡
        faults_after_work result (I.shown input.old).faults }
    ensures words { ¬ (result ≡ Err Stop.Usage) }
    ensures lent { H.lent shelf.new ≡ H.lent shelf.old }
    ensures back { IsShelfAfterCable (I.shown input.old) (I.shown input.new).told H.fresh
        (H.back shelf.old) (H.back shelf.new) result }
{
    let text = read_to(alloc, input, READ_FOR_SCRIPT)?;
    let script = Script::read(alloc, &text)?;
    *out = play_by(rt, alloc, threads, &script, shelf)?;
    Ok(())
}

/// `frames`: reads a capture, and appends the line of each frame.
pub fn lines<I: Source>(alloc: Global, input: &mut I, out: &mut Vec<u8>) -> Result<(), Stop>
    requires { out.old.items ≡ [] }
    ensures done { (text : List ℕ) → (I.shown input.old).told ≡ Some text →
        OnOk result (RanFrames text (I.shown input.new).told out.new.items) }
    ensures stopped { (text : List ℕ) → (I.shown input.old).told ≡ Some text →
        IfErr result (λ stop. StoppedBy (tasks.Frames false) text
        (I.shown input.new).told stop out.new.items) }
    ensures read { HasRead READ_FOR_CAPTURE (I.shown input.old).told (I.shown input.new).told }
    ensures faults { (I.shown input.new).faults ≡
        faults_after_work result (I.shown input.old).faults }
    ensures words { ¬ (result ≡ Err Stop.Usage) }
{
    let bytes = read_to(alloc, input, READ_FOR_CAPTURE)?;
    Ok(to_lines(alloc, &bytes, out)?)
}

/// `frames --back`: reads the lines of a capture, and appends the bytes of each frame.
pub fn bytes<I: Source>(alloc: Global, input: &mut I, out: &mut Vec<u8>) -> Result<(), Stop>
    requires { out.old.items ≡ [] }
    ensures done { (text : List ℕ) → (I.shown input.old).told ≡ Some text →
        OnOk result (RanBack text (I.shown input.new).told out.new.items) }
    ensures stopped { (text : List ℕ) → (I.shown input.old).told ≡ Some text →
        IfErr result (λ stop. StoppedBy (tasks.Frames true) text
        (I.shown input.new).told stop out.new.items) }
    ensures read { HasRead READ_FOR_CAPTURE (I.shown input.old).told (I.shown input.new).told }
    ensures faults { (I.shown input.new).faults ≡
        faults_after_work result (I.shown input.old).faults }
    ensures words { ¬ (result ≡ Err Stop.Usage) }
{
    let text = read_to(alloc, input, READ_FOR_CAPTURE)?;
    Ok(from_lines(alloc, &text, out)?)
}
