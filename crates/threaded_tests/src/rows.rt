//! Scripts that let only one outcome.

use super::ends::{read, report_by_lines, report_by_threads};
use cable_script::Script;
use std::alloc::Global;
use std::process::Abort;
use std::sync::Wait;
use std::thread::Threads;
use tape::Kept;

/// A script, how often threads play it, and the two lines of counts with which the report begins each
/// time. Threads let all cross that is left in the end, as a line `drain` does.
struct Row {
    script: &'static [u8],
    times: u32,
    counts: &'static [u8],
}

const ROWS: [Row; 7] = [
    // A request.
    Row {
        script: b"client fnf 6869\ndrain\n",
        times: 20,
        counts: b"client made 1 8 handled 0 0\nserver made 0 0 handled 1 8\n",
    },
    Row {
        script: b"client fnf 6869\n",
        times: 5,
        counts: b"client made 1 8 handled 0 0\nserver made 0 0 handled 1 8\n",
    },
    // Requests over three connections, of which two are cut and resumed.
    Row {
        script: b"resume tok1\nclient fnf 6869\nup 80\ncut\nopen\nclient fnf 61\ndrain\nup 7\ndown 3\n\
            cut\nopen\nclient fnf 62\nup 1000\ncut\nopen\n",
        times: 20,
        counts: b"client made 3 22 handled 0 0\nserver made 0 0 handled 3 22\n",
    },
    // A channel with ticks, over three connections: its request, since no item is asked for.
    Row {
        script: b"resume t\nclient channel 100000 -\nclient many 1 1000 20\nup 80\ncut\nopen\n\
            tick 100\ndrain\ntick 200\ndrain\ncut\nopen\nup 100\n",
        times: 5,
        counts: b"client made 1 10 handled 0 0\nserver made 0 0 handled 1 10\n",
    },
    // A first frame that is longer than the server takes.
    Row {
        script: b"set server maxin 64\nclient fnf 6869\ndrain\n",
        times: 5,
        counts: b"client made 1 8 handled 0 0\nserver made 0 0 handled 0 0\n",
    },
    // A SETUP that asks for leases, which the server refuses: no lease comes for the request.
    Row {
        script: b"lease client\nclient fnf 61\nup 10\n",
        times: 5,
        counts: b"client made 0 0 handled 0 0\nserver made 0 0 handled 0 0\n",
    },
    // No line.
    Row {
        script: b"",
        times: 1,
        counts: b"client made 0 0 handled 0 0\nserver made 0 0 handled 0 0\n",
    },
];

// The report of a script that threads play.
fn by_threads<R: Abort + Threads + Wait + Sync>(rt: &R, alloc: Global, script: &Script) -> Vec<u8> {
    report_by_threads(rt, alloc, script, Kept::new(alloc), Kept::new(alloc))
}

// The report of one that is played line by line.
fn line_by_line<R: Abort>(rt: &R, alloc: Global, script: &Script) -> Vec<u8> {
    report_by_lines(rt, alloc, script, Kept::new(alloc), Kept::new(alloc))
}

// The script with a line `drain` more.
fn drained<R: Abort>(rt: &R, alloc: Global, text: &[u8]) -> Script {
    let mut all = Vec::from_slice(alloc, text).expect(rt, "there is memory");
    assert!(rt; all.extend_from_slice(b"drain\n").is_ok());
    read(rt, alloc, &all)
}

// Each run by threads has the counts, and so has the run line by line.
fn play<R: Abort + Threads + Wait + Sync>(rt: &R, alloc: Global, row: &Row) {
    let alone = line_by_line(rt, alloc, &drained(rt, alloc, row.script));
    assert!(rt; alone.as_slice().starts_with(row.counts));
    let script = read(rt, alloc, row.script);
    for _ in 0..row.times {
        let report = by_threads(rt, alloc, &script);
        assert!(rt; report.as_slice().starts_with(row.counts));
    }
}

#[test]
fn counts_are_those_without_threads(rt: HostRuntime) {
    for row in &ROWS {
        play(&rt, rt.alloc(), row);
    }
}
