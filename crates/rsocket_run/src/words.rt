//! The words of the command line, as the system gives them.

ghost use Rattle.std.specs.Prelude.{◌≡◌};
ghost use Rattle.rsocket_call.specs.Ended.{EndsInMemory};
ghost use Rattle.rsocket_run.specs.Run.{IsStatus, read_fault_line, usage_line};
ghost use Rattle.rsocket_output.specs.Written.{FailedWrites, Writes, WritesLine};
ghost use Rattle.rsocket_run.specs.Streams.{FailedReads};

use crate::program::run;
use handlers::{Handler, Routes};
use outside::{Clock, Net, Sink, Source};
use rs_wire::{Blob, OutOfMemory};
use rsocket_output::tell_out_of_memory;
use std::alloc::Global;
use std::env::{Env, FillError};
use std::sync::Wait;
use std::thread::Threads;
use tape::{BlankShelf, KeptShelf};

/// How many bytes a word is given room for at first.
const FIRST_ROOM: usize = 256;

// Word `index` of the command line, as its bytes, text or not; the program's name is word 0. None
// where there are fewer words. The buffer grows until the word fits.
fn word<R: Env>(
    rt: &R,
    alloc: Global,
    index: usize,
    buffer: &mut Vec<u8>,
) -> Result<Option<Blob>, OutOfMemory> {
    for _ in 0..usize::BITS {
        match rt.arg(index, buffer.as_mut_slice()) {
            Ok(length) => return Ok(Some(Blob::from_slice(alloc, &buffer[..length])?)),
            Err(FillError::NotPresent) => return Ok(None),
            Err(FillError::TooLong) => buffer.resize(buffer.len() * 2, 0)?,
        }
    }
    Err(OutOfMemory)
}

/// The words after the program's name.
pub fn words<R: Env>(rt: &R, alloc: Global) -> Result<Vec<Blob>, OutOfMemory> {
    let mut words = Vec::new(alloc);
    let mut buffer = vec![in alloc; 0; FIRST_ROOM]?;
    for index in 1..usize::MAX {
        match word(rt, alloc, index, &mut buffer)? {
            Some(word) => words.push(word)?,
            None => break,
        }
    }
    Ok(words)
}

/// Whether the words ask for the cable, whose report needs tapes that show their entries.
fn is_cable(words: &[Blob]) -> bool {
    match words.first() {
        Some(word) => word.as_slice() == b"cable".as_slice(),
        None => false,
    }
}

/// Runs the program on the words of the command line, as [`run`] does, which says more of each
/// status. `cable` has tapes that are kept; other commands have tapes that show nothing and take no
/// memory. No contract knows the words that the system gives.
pub fn start<
    E: Env,
    R: Threads + Wait + Sync,
    I: Source,
    O: Sink,
    N: Net + Send,
    K: Clock + Sync,
    F: Handler + Sync,
>(
    env: &E,
    rt: &R,
    alloc: Global,
    input: &mut I,
    output: &mut O,
    net: &mut N,
    clock: &K,
    routes: &Routes<F>,
) -> u8
where
    N::Link: Drop + Send,
    ensures status { IsStatus result }
    ensures failed_reads { FailedReads
        (I.shown input.old).faults (I.shown input.new).faults result }
    ensures failed_writes { FailedWrites
        (O.shown output.old).faults (O.shown output.new).faults result }
    ensures usage_line { result ≡ 2 →
        WritesLine usage_line (O.shown output.old) (O.shown output.new) }
    ensures fault_line { result ≡ 4 →
        Writes read_fault_line (O.shown output.old) (O.shown output.new) }
    ensures memory { result ≡ 6 → EndsInMemory (O.shown output.old) (O.shown output.new) }
{
    let Ok(words) = words(env, alloc) else {
        return tell_out_of_memory(output);
    };
    if is_cable(&words) {
        let mut shelf = KeptShelf::new(alloc);
        run(
            rt, alloc, &words, input, output, net, clock, &mut shelf, routes,
        )
    } else {
        let mut shelf = BlankShelf::new(alloc);
        run(
            rt, alloc, &words, input, output, net, clock, &mut shelf, routes,
        )
    }
}
