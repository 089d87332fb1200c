//! Scripts and ends to try.

ghost use Rattle.std.specs.Prelude.{◌≡◌, []};
ghost use Rattle.rs_wire.specs.Settings.{IsChecked};
ghost use Rattle.rs_wire.specs.declared.words.Side.TheVariants.{Client, Server};

use cable::{Ran, report, scheduled};
use cable_script::Script;
use rs_wire::{Checked, Side};
use session_core::Session;
use std::alloc::Global;
use std::process::Abort;
use std::sync::Wait;
use std::thread::Threads;
use tape::Tape;
use threaded::threaded;

/// The script of this text.
pub fn read<R: Abort>(rt: &R, alloc: Global, text: &[u8]) -> Script {
    match Script::read(alloc, text) {
        Ok(script) => script,
        Err(_) => panic!(rt; "the text is a script"),
    }
}

#[tactic(auto, using(cable_script::proofs::Settings::settings_side))]
fn settings<R: Abort>(rt: &R, alloc: Global, script: &Script, side: Side) -> Checked
    ensures side { result.side ≡ side }
    ensures checked { IsChecked result }
{
    match script.settings(alloc, side) {
        Ok(settings) => settings,
        Err(_) => panic!(rt; "the settings are right"),
    }
}

// An end of which nothing happened yet.
fn end<R: Abort, T: Tape + Drop>(
    rt: &R,
    alloc: Global,
    script: &Script,
    side: Side,
    tape: T,
) -> Session<T>
    requires empty { T.count tape ≡ 0 }
    ensures side { result.settings.side ≡ side }
    ensures checked { IsChecked result.settings }
    ensures fresh { result.entries ≡ [] }
{
    let settings = settings(rt, alloc, script, side);
    match Session::new(alloc, settings, tape) {
        Ok(session) => session,
        Err(_) => panic!(rt; "there is memory"),
    }
}

// A run that had enough memory.
fn enough<R: Abort, T: Tape + Drop>(rt: &R, ran: Ran<T>) -> Ran<T> {
    assert!(rt; !ran.want);
    ran
}

/// What a run by threads between two ends with these tapes leaves, which had enough memory.
pub fn run_by_threads<R: Abort + Threads + Wait + Sync, T: Tape + Drop + Send>(
    rt: &R,
    alloc: Global,
    script: &Script,
    client: T,
    server: T,
) -> Ran<T>
    requires client { T.count client ≡ 0 }
    requires server { T.count server ≡ 0 }
{
    let client = end(rt, alloc, script, Side::Client, client);
    let server = end(rt, alloc, script, Side::Server, server);
    let ran = threaded(rt, alloc, script, client, server);
    enough(rt, ran)
}

/// What a run line by line leaves, which had enough memory.
pub fn run_by_lines<R: Abort, T: Tape + Drop>(
    rt: &R,
    alloc: Global,
    script: &Script,
    client: T,
    server: T,
) -> Ran<T>
    requires client { T.count client ≡ 0 }
    requires server { T.count server ≡ 0 }
{
    let client = end(rt, alloc, script, Side::Client, client);
    let server = end(rt, alloc, script, Side::Server, server);
    let ran = scheduled(alloc, script, client, server);
    enough(rt, ran)
}

/// The tapes of a run, the client's first.
pub fn tapes_of<T: Tape>(ran: Ran<T>) -> (T, T) {
    let Ran { client, server, .. } = ran;
    (client.into_tape(), server.into_tape())
}

// The report of a run.
fn report_of<R: Abort, T: Tape>(rt: &R, alloc: Global, ran: &Ran<T>) -> Vec<u8> {
    let mut out = Vec::new(alloc);
    match report(alloc, ran, &mut out) {
        Ok(()) => out,
        Err(_) => panic!(rt; "there is memory"),
    }
}

/// The report of a run by threads.
pub fn report_by_threads<R: Abort + Threads + Wait + Sync, T: Tape + Drop + Send>(
    rt: &R,
    alloc: Global,
    script: &Script,
    client: T,
    server: T,
) -> Vec<u8>
    requires client { T.count client ≡ 0 }
    requires server { T.count server ≡ 0 }
{
    let ran = run_by_threads(rt, alloc, script, client, server);
    let text = report_of(rt, alloc, &ran);
    tapes_of(ran);
    text
}

/// That of a run line by line.
pub fn report_by_lines<R: Abort, T: Tape + Drop>(
    rt: &R,
    alloc: Global,
    script: &Script,
    client: T,
    server: T,
) -> Vec<u8>
    requires client { T.count client ≡ 0 }
    requires server { T.count server ≡ 0 }
{
    let ran = run_by_lines(rt, alloc, script, client, server);
    let text = report_of(rt, alloc, &ran);
    tapes_of(ran);
    text
}
