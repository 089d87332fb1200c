//! What the program does with its words, its input, its output and its net.

ghost use Rattle.std.specs.Prelude.{◌≡◌, ◌⊎◌, [], Bool, Err, IfErr, OnOk};
ghost use Rattle.outside.specs.Causes.{Rose};
ghost use Rattle.command_line.specs.Calls.{AsksCall};
ghost use Rattle.command_line.specs.Words.{Asks};
ghost use Rattle.cable.specs.Shelves.{GotTapes, sides_by};
ghost use Rattle.load_script.specs.Generated.{load_settings};
ghost use Rattle.rsocket_load.specs.Load.{Loads};
ghost use Rattle.command_line.specs.declared.call_task.CallTask.{CallTask};
ghost use Rattle.command_line.specs.declared.task.Task.{Task};
ghost use Rattle.command_line.specs.declared.task.Task.TheVariants as tasks;
ghost use Rattle.rsocket_call.specs.Called.{Finished, FoundDead, WasIdle, WasPrinting, WasRefused, WasUnlinked, settings_for};
ghost use Rattle.rsocket_call.specs.Ended.{EndsInMemory, GotSome, IsCallStatus};
ghost use Rattle.rsocket_output.specs.Written.{CutsOffSome, FailedWrites, Writes, WritesLine, WritesSome, memory_line};
ghost use Rattle.rsocket_run.specs.Run.{AskNothing, IsDone, IsDue, IsRightInput, IsShelfAfter, IsLoadStatus, IsStatus, IsTaskStatus, OfCall, OfLoad, OfServe, OfTask, PlayedSome, TellsBadFrame, TellsWrongLine, most_of, read_fault_line, usage_line};
ghost use Rattle.rsocket_serve.specs.Served.{AllWereServed, GotLegal, IsServeStatus, NetFailed, WasEnding, settings_for as serve_settings};
ghost use Rattle.serve.specs.Links.{net_of};
ghost use Rattle.rsocket_run.specs.Stops.{IsShelfAfterWork, StoppedBy, faults_after_work};
ghost use Rattle.rsocket_run.specs.Streams.{FailedReads, HasRead};

use crate::large::run_load;
use crate::stop::Stop;
use crate::tasks::{bytes, cable, lines};
use crate::tell::{tell_done, tell_stop};
use command_line::{Asked, Task, WordsFault, read_words, words_laws};
use handlers::{Handler, Routes};
use outside::{Clock, Net, Sink, Source};
use rs_wire::Blob;
use rsocket_call::call;
use rsocket_output::tell_out_of_memory;
use rsocket_serve::serve;
use std::alloc::Global;
use std::sync::Wait;
use std::thread::Threads;
use tape::Shelf;

// Does a task that the words ask for, and appends the output to the text.
fn work<R: Threads + Wait + Sync, I: Source, H: Shelf>(
    rt: &R,
    alloc: Global,
    words: &[Blob],
    task: Task,
    input: &mut I,
    shelf: &mut H,
    out: &mut Vec<u8>,
) -> Result<(), Stop>
where
    H::Tape: Drop + Send,
    requires asked { Asks words.now task }
    requires empty { out.old.items ≡ [] }
    ensures done { OfTask words.now (I.shown input.old) (λ task text. OnOk result
        (IsDone task text (I.shown input.new).told H.fresh (H.back shelf.old)
        (H.back shelf.new) out.new.items)) }
    ensures played { (threads : Bool) → Asks words.now (tasks.Cable threads) → OnOk result
        (PlayedSome threads H.fresh (H.back shelf.old) (H.back shelf.new) out.new.items) }
    ensures stopped { OfTask words.now (I.shown input.old) (λ task text.
        IfErr result (λ stop. StoppedBy task text (I.shown input.new).told stop out.new.items)) }
    ensures usage { ¬ (result ≡ Err Stop.Usage) }
    ensures read { (task : Task) → Asks words.now task →
        HasRead (most_of task) (I.shown input.old).told (I.shown input.new).told }
    ensures faults { (I.shown input.new).faults ≡
        faults_after_work result (I.shown input.old).faults }
    ensures lent { H.lent shelf.new ≡ H.lent shelf.old }
    ensures back { IsShelfAfterWork words.now (I.shown input.old) (I.shown input.new).told
        H.fresh (H.back shelf.old) (H.back shelf.new) result }
{
    words_laws();
    match task {
        Task::Cable { threads } => cable(rt, alloc, threads, input, shelf, out),
        Task::Frames { back: false } => lines(alloc, input, out),
        Task::Frames { back: true } => bytes(alloc, input, out),
    }
}

// Runs a task that the words ask for.
fn run_task<R: Threads + Wait + Sync, I: Source, O: Sink, H: Shelf>(
    rt: &R,
    alloc: Global,
    words: &[Blob],
    task: Task,
    input: &mut I,
    output: &mut O,
    shelf: &mut H,
) -> u8
where
    H::Tape: Drop + Send,
    requires asked { Asks words.now task }
    ensures status { IsTaskStatus result }
    ensures complete { OfTask words.now (I.shown input.old) (λ task text. IsRightInput task text →
        ¬ (Rose (I.shown input.old).faults (I.shown input.new).faults) →
        ¬ (Rose (O.shown output.old).faults (O.shown output.new).faults) →
        (result ≡ 0) ⊎ (result ≡ 6)) }
    ensures read { (task : Task) → Asks words.now task →
        HasRead (most_of task) (I.shown input.old).told (I.shown input.new).told }
    ensures failed_reads { FailedReads
        (I.shown input.old).faults (I.shown input.new).faults result }
    ensures done { result ≡ 0 → OfTask words.now (I.shown input.old) (λ task text. WritesSome
        (IsDone task text (I.shown input.new).told H.fresh (H.back shelf.old) (H.back shelf.new))
        (O.shown output.old) (O.shown output.new)) }
    ensures played { (threads : Bool) → result ≡ 0 → Asks words.now (tasks.Cable threads) →
        WritesSome (PlayedSome threads H.fresh (H.back shelf.old) (H.back shelf.new))
        (O.shown output.old) (O.shown output.new) }
    ensures wrong_line { result ≡ 3 → OfTask words.now (I.shown input.old) (λ task text.
        WritesSome (TellsWrongLine task text (I.shown input.new).told)
        (O.shown output.old) (O.shown output.new)) }
    ensures fault_line { result ≡ 4 →
        Writes read_fault_line (O.shown output.old) (O.shown output.new) }
    ensures cut_off { result ≡ 5 → OfTask words.now (I.shown input.old) (λ task text. CutsOffSome
        (IsDue task text (I.shown input.old) (I.shown input.new)
        H.fresh (H.back shelf.old) (H.back shelf.new)) (O.shown output.old) (O.shown output.new)) }
    ensures memory_line { result ≡ 6 →
        WritesLine memory_line (O.shown output.old) (O.shown output.new) }
    ensures bad_frame { result ≡ 11 → OfTask words.now (I.shown input.old) (λ task text.
        WritesSome (TellsBadFrame task text (I.shown input.new).told)
        (O.shown output.old) (O.shown output.new)) }
    ensures failed_writes { FailedWrites
        (O.shown output.old).faults (O.shown output.new).faults result }
    ensures lent { H.lent shelf.new ≡ H.lent shelf.old }
    ensures back { IsShelfAfter words.now (I.shown input.old) (I.shown input.new).told
        H.fresh (H.back shelf.old) (H.back shelf.new) result }
{
    let mut text = Vec::new(alloc);
    match work(rt, alloc, words, task, input, shelf, &mut text) {
        Ok(()) => tell_done(output, &text),
        Err(stop) => tell_stop(output, &mut text, stop),
    }
}

/// Runs the program: `words` are those after its name. Every line, also that of a status, goes to
/// the output.
///
/// `cable` reads a script of at most 16,777,216 bytes, plays it between a client and a server, line by
/// line or with `--threads` by threads, and writes the report. `frames` reads frames, each after its
/// length, of at most 67,108,864 bytes in all, and writes their lines; `frames --back` reads such lines,
/// and writes their bytes. These two read all input before anything is written. `call` reads none: it
/// calls a server over a link of the net, and writes what it gets as it comes. `load` reads none either:
/// it plays the large script of a seed, and writes the counts of its two ends. `serve` serves as many
/// links of the net as its words say, and writes how many those were.
///
/// The status is 0 where that was done. 2: the words are none of these. 3: a line of the input is
/// wrong, or it is too long. 4: a read failed. 5: a write failed. 6: there was not enough memory. 7:
/// the server refused the session, or broke a rule of the protocol. 8: the net failed, or a link. 9:
/// the server counts as dead. 10: nothing came for too long. 11: a frame can't be read; the lines of
/// the frames before it are written.
pub fn run<
    R: Threads + Wait + Sync,
    I: Source,
    O: Sink,
    N: Net + Send,
    K: Clock + Sync,
    H: Shelf,
    F: Handler + Sync,
>(
    rt: &R,
    alloc: Global,
    words: &[Blob],
    input: &mut I,
    output: &mut O,
    net: &mut N,
    clock: &K,
    shelf: &mut H,
    routes: &Routes<F>,
) -> u8
where
    N::Link: Drop + Send,
    H::Tape: Drop + Send,
    // The statuses. 2 comes exactly where the words ask for nothing, but for running out of memory;
    // 6 is free. Where nothing is wrong with the input and no fault is counted, the work is done.
    ensures status { IsStatus result }
    ensures usage { result ≡ 2 → AskNothing words.now }
    ensures no_task { AskNothing words.now → (result ≡ 2) ⊎ (result ≡ 6) }
    ensures task_status { (task : Task) → Asks words.now task → IsTaskStatus result }
    ensures call_status { OfCall words.now (λ t. IsCallStatus result) }
    ensures load_status { OfLoad words.now (λ seed. IsLoadStatus result) }
    ensures serve_status { OfServe words.now (λ t. IsServeStatus result) }
    ensures complete { OfTask words.now (I.shown input.old) (λ task text. IsRightInput task text →
        ¬ (Rose (I.shown input.old).faults (I.shown input.new).faults) →
        ¬ (Rose (O.shown output.old).faults (O.shown output.new).faults) →
        (result ≡ 0) ⊎ (result ≡ 6)) }

    // What is read, on every status: a prefix of the input, at most one byte more than it may have,
    // and nothing where the words ask for no task. A failed read is the last one.
    ensures read { (task : Task) → Asks words.now task →
        HasRead (most_of task) (I.shown input.old).told (I.shown input.new).told }
    ensures unread { AskNothing words.now → I.shown input.new ≡ I.shown input.old }
    ensures call_unread { OfCall words.now (λ t. I.shown input.new ≡ I.shown input.old) }
    ensures load_unread { OfLoad words.now (λ seed. I.shown input.new ≡ I.shown input.old) }
    ensures serve_unread { OfServe words.now (λ t. I.shown input.new ≡ I.shown input.old) }
    ensures failed_reads { FailedReads
        (I.shown input.old).faults (I.shown input.new).faults result }

    // What a task writes. Status 0: the output of the work, which for `cable` is the report of two
    // ends that are legal and joined and have the headline, and whose tapes the shelf has; so it is
    // too where the input does not show its text (`played`). 3 and 11: what is wrong with the
    // input, and just that. 5: a prefix of one of these, or of the line of 4. 2 and 6: their line,
    // or where a write failed a prefix of it. A failed write is the last one.
    ensures done { result ≡ 0 → OfTask words.now (I.shown input.old) (λ task text. WritesSome
        (IsDone task text (I.shown input.new).told H.fresh (H.back shelf.old) (H.back shelf.new))
        (O.shown output.old) (O.shown output.new)) }
    ensures played { (threads : Bool) → result ≡ 0 → Asks words.now (tasks.Cable threads) →
        WritesSome (PlayedSome threads H.fresh (H.back shelf.old) (H.back shelf.new))
        (O.shown output.old) (O.shown output.new) }
    ensures usage_line { result ≡ 2 →
        WritesLine usage_line (O.shown output.old) (O.shown output.new) }
    ensures wrong_line { result ≡ 3 → OfTask words.now (I.shown input.old) (λ task text.
        WritesSome (TellsWrongLine task text (I.shown input.new).told)
        (O.shown output.old) (O.shown output.new)) }
    ensures fault_line { result ≡ 4 →
        Writes read_fault_line (O.shown output.old) (O.shown output.new) }
    ensures cut_off { result ≡ 5 → OfTask words.now (I.shown input.old) (λ task text. CutsOffSome
        (IsDue task text (I.shown input.old) (I.shown input.new)
        H.fresh (H.back shelf.old) (H.back shelf.new)) (O.shown output.old) (O.shown output.new)) }
    ensures memory_line { result ≡ 6 → (task : Task) → Asks words.now task →
        WritesLine memory_line (O.shown output.old) (O.shown output.new) }
    ensures bad_frame { result ≡ 11 → OfTask words.now (I.shown input.old) (λ task text.
        WritesSome (TellsBadFrame task text (I.shown input.new).told)
        (O.shown output.old) (O.shown output.new)) }
    ensures failed_writes { FailedWrites
        (O.shown output.old).faults (O.shown output.new).faults result }

    // What a large run writes: the counts of its two ends and a last line; on 5 a prefix of that.
    ensures loaded { result ≡ 0 → OfLoad words.now (λ seed. WritesSome
        (Loads seed H.fresh (H.back shelf.old) (H.back shelf.new))
        (O.shown output.old) (O.shown output.new)) }
    ensures load_cut_off { result ≡ 5 → OfLoad words.now (λ seed. CutsOffSome
        (Loads seed H.fresh (H.back shelf.old) (H.back shelf.new))
        (O.shown output.old) (O.shown output.new)) }
    ensures load_memory_line { result ≡ 6 → OfLoad words.now (λ seed.
        WritesLine memory_line (O.shown output.old) (O.shown output.new)) }

    // What a call writes, status by status, each with its cause. 5: a prefix of what it printed, or of
    // that and its last line. 6: some of what it printed, and the line; so it is on every words.
    ensures called { result ≡ 0 → OfCall words.now (λ t. WritesSome (Finished t
        (K.moments clock.now) H.fresh (H.back shelf.old) (H.back shelf.new)
        (N.asked net.old) (N.asked net.new) (N.back net.old) (N.back net.new))
        (O.shown output.old) (O.shown output.new)) }
    ensures call_cut_off { result ≡ 5 → OfCall words.now (λ t. CutsOffSome (WasPrinting t
        (K.moments clock.now) H.fresh (H.back shelf.old) (H.back shelf.new)
        (N.asked net.old) (N.asked net.new) (N.back net.old) (N.back net.new))
        (O.shown output.old) (O.shown output.new)) }
    ensures memory { result ≡ 6 → EndsInMemory (O.shown output.old) (O.shown output.new) }
    ensures refused { result ≡ 7 → OfCall words.now (λ t. WritesSome (WasRefused t
        (K.moments clock.now) H.fresh (H.back shelf.old) (H.back shelf.new)
        (N.asked net.old) (N.asked net.new) (N.back net.old) (N.back net.new))
        (O.shown output.old) (O.shown output.new)) }
    ensures unlinked { result ≡ 8 → OfCall words.now (λ t. WritesSome (WasUnlinked t
        (K.moments clock.now) H.fresh (H.back shelf.old) (H.back shelf.new)
        (N.asked net.old) (N.asked net.new) (N.back net.old) (N.back net.new)
        (N.faults net.old) (N.faults net.new)) (O.shown output.old) (O.shown output.new)) }
    ensures dead { result ≡ 9 → OfCall words.now (λ t. WritesSome (FoundDead t
        (K.moments clock.now) H.fresh (H.back shelf.old) (H.back shelf.new)
        (N.asked net.old) (N.asked net.new) (N.back net.old) (N.back net.new))
        (O.shown output.old) (O.shown output.new)) }
    ensures idle { result ≡ 10 → OfCall words.now (λ t. WritesSome (WasIdle t
        (K.moments clock.now) H.fresh (H.back shelf.old) (H.back shelf.new)
        (N.asked net.old) (N.asked net.new) (N.back net.old) (N.back net.new))
        (O.shown output.old) (O.shown output.new)) }

    // What a server writes, each with its cause. 0: how many connections were served, each to its end.
    // 8: the net failed, and those before were served. 5: a prefix of one of these two lines. Where
    // neither the net nor the output counts a fault it served them all.
    ensures served { result ≡ 0 → OfServe words.now (λ t. WritesSome (AllWereServed t routes.now
        (K.moments clock.now) (H.back shelf.old) (H.back shelf.new)
        (net_of N.asked N.back N.out N.faults net.old)
        (net_of N.asked N.back N.out N.faults net.new)) (O.shown output.old) (O.shown output.new)) }
    ensures serve_cut_off { result ≡ 5 → OfServe words.now (λ t. CutsOffSome (WasEnding t routes.now
        (K.moments clock.now) (H.back shelf.old) (H.back shelf.new)
        (net_of N.asked N.back N.out N.faults net.old)
        (net_of N.asked N.back N.out N.faults net.new)) (O.shown output.old) (O.shown output.new)) }
    ensures serve_memory_line { result ≡ 6 → OfServe words.now (λ t.
        WritesLine memory_line (O.shown output.old) (O.shown output.new)) }
    ensures net_failed { result ≡ 8 → OfServe words.now (λ t. WritesSome (NetFailed t routes.now
        (K.moments clock.now) (H.back shelf.old) (H.back shelf.new)
        (net_of N.asked N.back N.out N.faults net.old)
        (net_of N.asked N.back N.out N.faults net.new)) (O.shown output.old) (O.shown output.new)) }
    ensures serve_complete { OfServe words.now (λ t.
        ¬ (Rose (N.faults net.old) (N.faults net.new)) →
        ¬ (Rose (O.shown output.old).faults (O.shown output.new).faults) →
        (result ≡ 0) ⊎ (result ≡ 6)) }

    // The shelf: as many tapes are lent as before. A task gets tapes back on 0, 5 and 6 alone, where
    // `cable` has read its script: those of the two ends, or where memory ran out the client's alone.
    // A call gets one, or none; a large run those of its two ends; a server one for each connection, or
    // fewer. Each tape is that of a session.
    ensures lent { H.lent shelf.new ≡ H.lent shelf.old }
    ensures back { (task : Task) → Asks words.now task → IsShelfAfter words.now
        (I.shown input.old) (I.shown input.new).told
        H.fresh (H.back shelf.old) (H.back shelf.new) result }
    ensures empty { AskNothing words.now → H.back shelf.new ≡ H.back shelf.old }
    ensures got { OfCall words.now (λ t.
        GotSome (settings_for t) H.fresh (H.back shelf.old) (H.back shelf.new)) }
    ensures load_got { OfLoad words.now (λ seed. GotTapes (sides_by load_settings) H.fresh
        (H.back shelf.old) (H.back shelf.new)) }

    ensures serve_got { OfServe words.now (λ t.
        GotLegal (serve_settings t) (H.back shelf.old) (H.back shelf.new)) }

    // No net is used but by a call and a server.
    ensures task_net { (task : Task) → Asks words.now task → net.new ≡ net.old }
    ensures load_net { OfLoad words.now (λ seed. net.new ≡ net.old) }
    ensures no_net { AskNothing words.now → net.new ≡ net.old }
{
    words_laws();
    match read_words(alloc, words) {
        Err(WordsFault::Usage) => tell_stop(output, &mut Vec::new(alloc), Stop::Usage),
        Err(WordsFault::OutOfMemory) => tell_out_of_memory(output),
        Ok(Asked::Task(task)) => run_task(rt, alloc, words, task, input, output, shelf),
        Ok(Asked::Call(task)) => call(rt, alloc, &task, output, net, clock, shelf),
        Ok(Asked::Load { seed }) => run_load(alloc, seed, output, shelf),
        Ok(Asked::Serve(task)) => serve(rt, alloc, &task, output, net, clock, shelf, routes),
    }
}
