//! Sources and sinks.

use outside::{MemSink, MemSource, Read, Sink, Source, StdSink, StdSource, Wrote};
use rs_wire::Blob;
use std::alloc::Global;
use std::process::Abort;

fn source(rt: &impl Abort, alloc: Global, bytes: &[u8], fails: &[u64]) -> MemSource {
    let bytes = Blob::from_slice(alloc, bytes).expect(rt, "there is memory");
    let fails = Vec::from_slice(alloc, fails).expect(rt, "there is memory");
    MemSource::new(bytes, fails)
}

/// What each read comes to of a source of three bytes, whose second and fourth read fail, and what
/// the buffer of two bytes has then.
const READS: &[(Read, [u8; 2])] = &[
    (Read::Took(2), [1, 2]),
    (Read::Failed, [1, 2]),
    (Read::Took(1), [3, 2]),
    (Read::Failed, [3, 2]),
    (Read::End, [3, 2]),
];

// Whether the reads come to that.
fn gives(source: &mut MemSource) -> bool {
    let mut buffer = [0; 2];
    let mut right = true;
    for (read, bytes) in READS {
        right = source.read(&mut buffer) == *read && buffer == *bytes && right;
    }
    right
}

#[test]
fn a_source_in_memory_gives_its_bytes_and_then_ends(rt: HostRuntime) {
    let mut source = source(&rt, rt.alloc(), &[1, 2, 3], &[2, 4]);
    let gives = gives(&mut source);
    drop(source);
    assert!(rt; gives);
}

#[test]
fn a_sink_in_memory_has_what_was_written(rt: HostRuntime) {
    let fails = Vec::from_slice(rt.alloc(), &[2]).expect(&rt, "there is memory");
    let mut sink = MemSink::new(rt.alloc(), fails);
    let first = sink.write(b"ab");
    let second = sink.write(b"cd");
    let third = sink.write(b"e");
    let is_written = sink.written() == b"abe".as_slice();
    drop(sink);
    assert!(rt; first == Wrote::Took(2) && second == Wrote::Failed);
    assert!(rt; third == Wrote::Took(1) && is_written);
}

#[test]
fn standard_input_ends(rt: HostRuntime) {
    let mut source = StdSource::new(rt.stdin());
    assert!(rt; source.read(&mut [0]) == Read::End);
}

#[test]
fn standard_output_takes_bytes(rt: HostRuntime) {
    let mut sink = StdSink::new(rt.stdout());
    assert!(rt; sink.write(b"\n") == Wrote::Took(1));
}
