//! Inputs and outputs that fail or fall short.

use crate::ended::{BACK, CABLE, FRAMES, status_over};
use outside::{MemSink, MemSource, Read, Sink, Source, Wrote};
use rs_wire::Blob;
use std::alloc::Global;
use std::sync::Wait;
use std::test::Fail;
use std::thread::Threads;

const HELLO: &[u8] = b"client fnf 6869\nup 1000\n";

const REPORT: &[u8] = b"client made 1 8 handled 0 0
server made 0 0 handled 1 8
client open: opened 1
client fnf 2: stream 1
server open SETUP 0 68: opened 1
server came REQUEST_FNF 1 8: handled
";

const CANCELS: &[u8] = &[0, 0, 6, 0, 0, 0, 1, 0x24, 0, 0, 0, 6, 0, 0, 0, 3, 0x24, 0];

const LINES: &[u8] = b"CANCEL 1\nCANCEL 3\n";

/// Each command with its input and output.
const WORK: [(&[&[u8]], &[u8], &[u8]); 3] = [
    (CABLE, HELLO, REPORT),
    (FRAMES, CANCELS, LINES),
    (BACK, LINES, CANCELS),
];

/// A source that gives one byte a read.
#[derive(Drop)]
struct ByteSource {
    source: MemSource,
}

impl Source for ByteSource {
    ghost use Rattle.outside.specs.Memory.{shown_of_memory};

    ghost shown = { λ s. shown_of_memory s.source };

    fn read(&mut self, buffer: &mut [u8]) -> Read {
        self.source.read(&mut buffer[..1])
    }
}

/// A sink that takes one byte a write.
#[derive(Drop)]
struct ByteSink {
    sink: MemSink,
}

impl Sink for ByteSink {
    ghost use Rattle.outside.specs.Memory.{shown_of_memory};

    ghost shown = { λ s. shown_of_memory s.sink };

    fn write(&mut self, piece: &[u8]) -> Wrote {
        self.sink.write(&piece[..1])
    }
}

/// Reads and writes of one byte that fail, and how each command then ends.
#[derive(Clone, Copy)]
struct Fault {
    /// What the runs show.
    shows: &'static str,
    /// The reads that fail, from 1.
    reads: &'static [u64],
    /// The writes that fail, from 1.
    writes: &'static [u64],
    status: u8,
    written: Written,
}

/// What was written.
#[derive(Clone, Copy)]
enum Written {
    /// All the output.
    All,
    /// As many of its bytes.
    First(usize),
    /// These bytes in its place.
    Other(&'static [u8]),
}

const FAULTS: [Fault; 12] = [
    Fault {
        shows: "one byte a call is enough",
        reads: &[],
        writes: &[],
        status: 0,
        written: Written::All,
    },
    Fault {
        shows: "the first read that fails is told",
        reads: &[1],
        writes: &[],
        status: 4,
        written: Written::Other(b"rsocket: read fault\n"),
    },
    Fault {
        shows: "the second read that fails is told",
        reads: &[2],
        writes: &[],
        status: 4,
        written: Written::Other(b"rsocket: read fault\n"),
    },
    Fault {
        shows: "the third read that fails is told",
        reads: &[3],
        writes: &[],
        status: 4,
        written: Written::Other(b"rsocket: read fault\n"),
    },
    Fault {
        shows: "the fourth read that fails is told",
        reads: &[4],
        writes: &[],
        status: 4,
        written: Written::Other(b"rsocket: read fault\n"),
    },
    Fault {
        shows: "the fifth read that fails is told",
        reads: &[5],
        writes: &[],
        status: 4,
        written: Written::Other(b"rsocket: read fault\n"),
    },
    Fault {
        shows: "the first write that fails leaves nothing",
        reads: &[],
        writes: &[1],
        status: 5,
        written: Written::First(0),
    },
    Fault {
        shows: "the second write that fails leaves what was written",
        reads: &[],
        writes: &[2],
        status: 5,
        written: Written::First(1),
    },
    Fault {
        shows: "the third write that fails leaves what was written",
        reads: &[],
        writes: &[3],
        status: 5,
        written: Written::First(2),
    },
    Fault {
        shows: "the fourth write that fails leaves what was written",
        reads: &[],
        writes: &[4],
        status: 5,
        written: Written::First(3),
    },
    Fault {
        shows: "the fifth write that fails leaves what was written",
        reads: &[],
        writes: &[5],
        status: 5,
        written: Written::First(4),
    },
    Fault {
        shows: "a read that fails while writes fail is a write fault",
        reads: &[1],
        writes: &[3],
        status: 5,
        written: Written::Other(b"rs"),
    },
];

/// Whether a run that reads and writes one byte a call ends with this status, and wrote just that.
fn ends_over<R: Threads + Wait + Sync>(
    rt: &R,
    alloc: Global,
    words: &[&[u8]],
    text: &[u8],
    fault: &Fault,
    written: Option<&[u8]>,
) -> Result<bool, Fail> {
    let fails = Vec::from_slice(alloc, fault.reads)?;
    let source = MemSource::new(Blob::from_slice(alloc, text)?, fails);
    let mut input = ByteSource { source };
    let sink = MemSink::new(alloc, Vec::from_slice(alloc, fault.writes)?);
    let mut output = ByteSink { sink };
    let status = status_over(rt, alloc, words, &mut input, &mut output)?;
    Ok(status == fault.status && written == Some(output.sink.written()))
}

#[test]
fn each_command_ends_so(rt: HostRuntime) -> Result<(), Fail> {
    for fault in FAULTS {
        for (words, text, all) in WORK {
            let written = match fault.written {
                Written::All => Some(all),
                Written::First(count) => all.get(..count),
                Written::Other(bytes) => Some(bytes),
            };
            let right = ends_over(&rt, rt.alloc(), words, text, &fault, written)?;
            assert!(rt; right, "{words:?}: {}", fault.shows);
        }
    }
    Ok(())
}

const USAGE: Fault = Fault {
    shows: "usage stays where it can't be written",
    reads: &[],
    writes: &[1],
    status: 2,
    written: Written::First(0),
};

#[test]
fn usage_stays_where_it_cant_be_written(rt: HostRuntime) -> Result<(), Fail> {
    assert!(rt; ends_over(&rt, rt.alloc(), &[], b"", &USAGE, Some(b""))?);
    Ok(())
}
