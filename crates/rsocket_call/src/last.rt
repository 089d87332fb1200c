//! The last line of a call.

ghost use Rattle.std.specs.Prelude.{◌≡◌, ◌≢◌, ◌++◌, ◌∷◌, [], OnOk, decimal};
ghost use Rattle.call_model.specs.Ran.{cause_line};
ghost use Rattle.rsocket_call.specs.Ended.{IsTold, last_line, refused_line, status_of, word_of};
ghost use Rattle.rsocket_output.specs.Written.{WritesLine, memory_line};

use client::Called;
use outside::Sink;
use plain_text::{write_number, write_text};
use rs_wire::{Cause, OutOfMemory};
use rsocket_output::{say, tell_out_of_memory};
use std::alloc::Global;

// Appends the cause for which the peer closed a session, or it was not resumed; nothing for others.
fn put_cause(line: &mut Vec<u8>, cause: Cause) -> Result<(), OutOfMemory>
    ensures { OnOk result (line.new.items ≡ line.old.items ++ word_of (cause_line cause)) }
{
    match cause {
        Cause::Peer(code) => {
            write_text(line, "peer ")?;
            write_number(line, code.into())
        }
        Cause::Broken(rule) => {
            write_text(line, "broken ")?;
            write_text(line, rule.word())
        }
        Cause::Resume(gone) => {
            write_text(line, "resume ")?;
            write_text(line, gone.word())
        }
        _ => Ok(()),
    }
}

fn put_refused(line: &mut Vec<u8>, cause: Cause) -> Result<(), OutOfMemory>
    ensures { OnOk result (line.new.items ≡ line.old.items ++ refused_line cause) }
{
    write_text(line, "rsocket: refused ")?;
    put_cause(line, cause)?;
    line.push(b'\n')?;
    Ok(())
}

// Appends a line of these words and a number.
fn put_number(line: &mut Vec<u8>, words: &str, number: u64) -> Result<(), OutOfMemory>
    ensures { OnOk result (line.new.items ≡
        line.old.items ++ (words.now ++ (decimal number ++ 10 ∷ []))) }
{
    write_text(line, words)?;
    write_number(line, number)?;
    line.push(b'\n')?;
    Ok(())
}

// Appends the line that tells what a call came to, none where it is finished.
fn put_last(line: &mut Vec<u8>, called: Called) -> Result<(), OutOfMemory>
    ensures { OnOk result (line.new.items ≡ line.old.items ++ last_line called) }
{
    match called {
        Called::Finished => Ok(()),
        Called::Net => write_text(line, "rsocket: link fault\n"),
        Called::Dead(last) => put_number(line, "rsocket: dead ", last),
        Called::Idle(lulls) => put_number(line, "rsocket: idle ", lulls),
        Called::Refused(cause) => put_refused(line, cause),
        Called::OutOfMemory => write_text(line, "rsocket: out of memory\n"),
    }
}

fn status_of(called: Called) -> u8
    ensures { result ≡ status_of called }
{
    match called {
        Called::Finished => 0,
        Called::OutOfMemory => 6,
        Called::Refused(_) => 7,
        Called::Net => 8,
        Called::Dead(_) => 9,
        Called::Idle(_) => 10,
    }
}

/// Writes the last line of a call that came to this. The status.
pub fn tell<O: Sink>(alloc: Global, output: &mut O, called: Called) -> u8
    ensures told { called ≢ Called.OutOfMemory →
        IsTold called (O.shown output.old) (O.shown output.new) result }
    ensures memory { called ≡ Called.OutOfMemory →
        (result ≡ 6) × WritesLine memory_line (O.shown output.old) (O.shown output.new) }
{
    if called == Called::OutOfMemory {
        return tell_out_of_memory(output);
    }
    let mut line = Vec::new(alloc);
    match put_last(&mut line, called) {
        Ok(()) => say(output, &line, status_of(called)),
        Err(OutOfMemory) => tell_out_of_memory(output),
    }
}
