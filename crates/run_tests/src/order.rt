//! All input is read before anything is written.

use crate::ended::{BACK, CABLE, FRAMES, status_over};
use outside::{MemSink, MemSource, Read, Sink, Source, Wrote};
use rs_wire::Blob;
use std::alloc::Global;
use std::sync::Wait;
use std::sync::atomic::{AtomicBool, Ordering};
use std::test::Fail;
use std::thread::Threads;

/// What a source and a sink see of one another.
#[derive(Drop)]
struct Order {
    wrote: AtomicBool,
    read_after_a_write: AtomicBool,
}

/// A source that gives one byte a read, and notes a read that comes after a write.
#[derive(Drop)]
struct NotingSource<'a> {
    source: MemSource,
    order: &'a Order,
}

impl Source for NotingSource<'_> {
    ghost use Rattle.outside.specs.Memory.{shown_of_memory};

    ghost shown = { λ s. shown_of_memory s.source };

    fn read(&mut self, buffer: &mut [u8]) -> Read {
        if self.order.wrote.load(Ordering::SeqCst) {
            self.order.read_after_a_write.store(true, Ordering::SeqCst);
        }
        self.source.read(&mut buffer[..1])
    }
}

/// A sink that notes each write.
#[derive(Drop)]
struct NotingSink<'a> {
    sink: MemSink,
    order: &'a Order,
}

impl Sink for NotingSink<'_> {
    ghost use Rattle.outside.specs.Memory.{shown_of_memory};

    ghost shown = { λ s. shown_of_memory s.sink };

    fn write(&mut self, piece: &[u8]) -> Wrote {
        self.order.wrote.store(true, Ordering::SeqCst);
        self.sink.write(piece)
    }
}

/// A run, and the status with which it ends.
#[derive(Clone, Copy)]
struct Row {
    /// What has been read before anything is written.
    shows: &'static str,
    words: &'static [&'static [u8]],
    input: &'static [u8],
    /// The reads that fail, from 1.
    fails: &'static [u64],
    status: u8,
}

/// Whether the run ends with the status, writes, and reads nothing after the first write.
fn reads_first<R: Threads + Wait + Sync>(rt: &R, alloc: Global, row: &Row) -> Result<bool, Fail> {
    let order = Order {
        wrote: AtomicBool::new(false),
        read_after_a_write: AtomicBool::new(false),
    };
    let fails = Vec::from_slice(alloc, row.fails)?;
    let mut input = NotingSource {
        source: MemSource::new(Blob::from_slice(alloc, row.input)?, fails),
        order: &order,
    };
    let mut output = NotingSink {
        sink: MemSink::new(alloc, Vec::new(alloc)),
        order: &order,
    };
    let ended = status_over(rt, alloc, row.words, &mut input, &mut output)?;
    let wrote = order.wrote.load(Ordering::SeqCst);
    let late = order.read_after_a_write.load(Ordering::SeqCst);
    Ok(ended == row.status && wrote && !late)
}

const CANCEL: &[u8] = &[0, 0, 6, 0, 0, 0, 1, 0x24, 0];

const ROWS: [Row; 9] = [
    Row {
        shows: "a script that is played",
        words: CABLE,
        input: b"client fnf 6869\nup 1000\n",
        fails: &[],
        status: 0,
    },
    Row {
        shows: "frames that are shown",
        words: FRAMES,
        input: CANCEL,
        fails: &[],
        status: 0,
    },
    Row {
        shows: "lines of which frames are made",
        words: BACK,
        input: b"CANCEL 1\n",
        fails: &[],
        status: 0,
    },
    Row {
        shows: "a script with a wrong line",
        words: CABLE,
        input: b"client fnf 6\nup 1000\n",
        fails: &[],
        status: 3,
    },
    Row {
        shows: "frames of which the last is cut off",
        words: FRAMES,
        input: &[0, 0, 6, 0, 0, 0, 1, 0x24, 0, 0, 0, 6],
        fails: &[],
        status: 11,
    },
    Row {
        shows: "lines of which the first is wrong",
        words: BACK,
        input: b"CANCEL 01\nCANCEL 1\n",
        fails: &[],
        status: 3,
    },
    Row {
        shows: "a script of which a read fails",
        words: CABLE,
        input: b"up 1000\n",
        fails: &[3],
        status: 4,
    },
    Row {
        shows: "frames of which a read fails",
        words: FRAMES,
        input: CANCEL,
        fails: &[3],
        status: 4,
    },
    Row {
        shows: "lines of which a read fails",
        words: BACK,
        input: b"CANCEL 1\n",
        fails: &[3],
        status: 4,
    },
];

#[test]
fn all_is_read_before_anything_is_written(rt: HostRuntime) -> Result<(), Fail> {
    for row in ROWS {
        assert!(rt; reads_first(&rt, rt.alloc(), &row)?, "{}", row.shows);
    }
    Ok(())
}
