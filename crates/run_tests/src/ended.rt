//! Runs over memory, which the tests share.

use outside::{MemClock, MemNet, MemSink, MemSource, Sink, Source};
use rs_wire::Blob;
use rsocket_run::run;
use std::alloc::Global;
use std::sync::Wait;
use std::test::Fail;
use std::thread::Threads;
use stored_handlers::stored_routes;
use tape::KeptShelf;

/// The words that play a script.
pub const CABLE: &[&[u8]] = &[b"cable"];

/// The words that show frames as lines.
pub const FRAMES: &[&[u8]] = &[b"frames"];

/// The words that make frames of lines.
pub const BACK: &[&[u8]] = &[b"frames", b"--back"];

// These words, as they come from the system.
fn words(alloc: Global, all: &[&[u8]]) -> Result<Vec<Blob>, Fail> {
    let mut words = Vec::new(alloc);
    for word in all {
        words.push(Blob::from_slice(alloc, word)?)?;
    }
    Ok(words)
}

/// The status of a run on these words over such an input and output.
pub fn status_over<R: Threads + Wait + Sync, I: Source, O: Sink>(
    rt: &R,
    alloc: Global,
    all: &[&[u8]],
    input: &mut I,
    output: &mut O,
) -> Result<u8, Fail> {
    let words = words(alloc, all)?;
    let mut shelf = KeptShelf::new(alloc);
    let mut net = MemNet::new(alloc, Vec::new(alloc), Vec::new(alloc));
    let clock = MemClock::new(vec![in alloc; 0; 1]?);
    let routes = stored_routes(alloc)?;
    Ok(run(
        rt, alloc, &words, input, output, &mut net, &clock, &mut shelf, &routes,
    ))
}

/// The status of a run on these words and this input, and what it wrote.
pub fn ran<R: Threads + Wait + Sync>(
    rt: &R,
    alloc: Global,
    all: &[&[u8]],
    text: &[u8],
) -> Result<(u8, Vec<u8>), Fail> {
    let mut input = MemSource::new(Blob::from_slice(alloc, text)?, Vec::new(alloc));
    let mut output = MemSink::new(alloc, Vec::new(alloc));
    let status = status_over(rt, alloc, all, &mut input, &mut output)?;
    Ok((status, Vec::from_slice(alloc, output.written())?))
}

/// Whether a run on these words and this input ends with status 0 and wrote just that.
pub fn writes<R: Threads + Wait + Sync>(
    rt: &R,
    alloc: Global,
    all: &[&[u8]],
    text: &[u8],
    written: &[u8],
) -> Result<bool, Fail> {
    let (status, output) = ran(rt, alloc, all, text)?;
    Ok(status == 0 && output.as_slice() == written)
}
