//! The words of the command line, over a system of the tests.

use outside::{MemClock, MemNet, MemSink, MemSource};
use rs_wire::Blob;
use rsocket_run::start;
use std::alloc::Global;
use std::env::{Env, FillError};
use std::sync::Wait;
use std::test::Fail;
use std::thread::Threads;
use stored_handlers::stored_routes;

/// A system whose command line has these words, the program's name first.
#[derive(Drop)]
struct Line<'a> {
    words: &'a [&'a [u8]],
    /// How many bytes a buffer has to have before a word is put into it.
    wants: usize,
}

impl Env for Line<'_> {
    fn arg(&self, i: usize, buf: &mut [u8]) -> Result<usize, FillError> {
        let Some(word) = self.words.get(i) else {
            return Err(FillError::NotPresent);
        };
        if buf.len() < word.len() || buf.len() < self.wants {
            return Err(FillError::TooLong);
        }
        buf[..word.len()].copy_from_slice(word);
        Ok(word.len())
    }

    fn var(&self, _name: &str, _buf: &mut [u8]) -> Result<usize, FillError> {
        Err(FillError::NotPresent)
    }

    fn var_at(&self, _i: usize, _buf: &mut [u8]) -> Result<usize, FillError> {
        Err(FillError::NotPresent)
    }
}

/// The line whose frame the program makes, or not.
const INPUT: &[u8] = b"CANCEL 1\n";

/// Whether the program on this command line ends with this status and writes just that.
fn starts<R: Threads + Wait + Sync>(
    rt: &R,
    alloc: Global,
    line: &Line<'_>,
    status: u8,
    written: &[u8],
) -> Result<bool, Fail> {
    let mut input = MemSource::new(Blob::from_slice(alloc, INPUT)?, Vec::new(alloc));
    let mut output = MemSink::new(alloc, Vec::new(alloc));
    let mut net = MemNet::new(alloc, Vec::new(alloc), Vec::new(alloc));
    let clock = MemClock::new(vec![in alloc; 0; 1]?);
    let routes = stored_routes(alloc)?;
    let ended = start(
        line,
        rt,
        alloc,
        &mut input,
        &mut output,
        &mut net,
        &clock,
        &routes,
    );
    Ok(ended == status && output.written() == written)
}

/// A command line, and how the program ends on it.
#[derive(Clone, Copy)]
struct Row {
    /// What the run shows.
    shows: &'static str,
    line: &'static [&'static [u8]],
    status: u8,
    written: &'static [u8],
}

const USAGE: &[u8] = b"rsocket: usage\n";

const WRONG: &[u8] = b"rsocket: script line 1\n";

const BYTES: &[u8] = &[0, 0, 6, 0, 0, 0, 1, 0x24, 0];

const ROWS: [Row; 12] = [
    Row {
        shows: "a name alone has no words after it",
        line: &[b"rsocket"],
        status: 2,
        written: USAGE,
    },
    Row {
        shows: "a command line without a name has no words",
        line: &[],
        status: 2,
        written: USAGE,
    },
    Row {
        shows: "the name is no word",
        line: &[b"cable", b"rsocket"],
        status: 2,
        written: USAGE,
    },
    Row {
        shows: "a word comes whole",
        line: &[b"rsocket", b"cable"],
        status: 3,
        written: WRONG,
    },
    Row {
        shows: "two words come",
        line: &[b"rsocket", b"frames", b"--back"],
        status: 0,
        written: BYTES,
    },
    Row {
        shows: "words come in their order",
        line: &[b"rsocket", b"--back", b"frames"],
        status: 2,
        written: USAGE,
    },
    Row {
        shows: "three words come",
        line: &[b"rsocket", b"frames", b"--back", b"--"],
        status: 0,
        written: BYTES,
    },
    Row {
        shows: "a word too much comes",
        line: &[b"rsocket", b"frames", b"--back", b"x"],
        status: 2,
        written: USAGE,
    },
    Row {
        shows: "an empty word comes first",
        line: &[b"rsocket", b"", b"cable"],
        status: 2,
        written: USAGE,
    },
    Row {
        shows: "an empty word comes last",
        line: &[b"rsocket", b"cable", b""],
        status: 2,
        written: USAGE,
    },
    Row {
        shows: "a name need not be text",
        line: &[b"\xff", b"cable"],
        status: 3,
        written: WRONG,
    },
    Row {
        shows: "words need not be text",
        line: &[b"\xff", b"\xc3\x28", b"\x00"],
        status: 2,
        written: USAGE,
    },
];

#[test]
fn every_word_reaches_the_program(rt: HostRuntime) -> Result<(), Fail> {
    for row in ROWS {
        let line = Line {
            words: row.line,
            wants: 0,
        };
        let right = starts(&rt, rt.alloc(), &line, row.status, row.written)?;
        assert!(rt; right, "{}", row.shows);
    }
    Ok(())
}

#[test]
fn words_come_whole_once_there_is_room(rt: HostRuntime) -> Result<(), Fail> {
    for wants in [255, 256, 257, 511, 512, 513, 5_000] {
        let line = Line {
            words: &[b"rsocket", b"frames", b"--back"],
            wants,
        };
        assert!(rt; starts(&rt, rt.alloc(), &line, 0, BYTES)?, "{wants}");
    }
    Ok(())
}

/// Whether the program ends with status 2 where this many bytes stand after a command's first.
fn is_too_long<R: Threads + Wait + Sync>(
    rt: &R,
    alloc: Global,
    count: usize,
) -> Result<bool, Fail> {
    let mut long = Vec::from_slice(alloc, b"cable")?;
    long.resize(count, b'x')?;
    let line = Line {
        words: &[b"rsocket", &long],
        wants: 0,
    };
    starts(rt, alloc, &line, 2, USAGE)
}

#[test]
fn no_word_is_cut_off(rt: HostRuntime) -> Result<(), Fail> {
    for count in [255, 256, 257, 511, 512, 513, 5_000] {
        assert!(rt; is_too_long(&rt, rt.alloc(), count)?, "{count}");
    }
    Ok(())
}
