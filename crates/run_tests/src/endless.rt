//! Inputs that never end.

use crate::ended::{BACK, CABLE, FRAMES, status_over};
use outside::{MemSink, Read, Source};
use std::alloc::Global;
use std::sync::Wait;
use std::test::Fail;
use std::thread::Threads;

/// A source that never ends: nine bytes, again and again.
#[derive(Drop)]
struct EndlessSource {
    pattern: [u8; 9],
    /// How many bytes it gave, without whole patterns.
    given: usize,
}

impl Source for EndlessSource {
    ghost use Rattle.std.specs.Prelude.{None};

    ghost shown = { λ _. record { told = None; faults = 0 } };

    fn read(&mut self, buffer: &mut [u8]) -> Read {
        let rest = &self.pattern[self.given % 9..];
        let count = rest.len().min(buffer.len());
        buffer[..count].copy_from_slice(&rest[..count]);
        self.given = (self.given % 9 + count) % 9;
        Read::Took(count)
    }
}

/// A run over an endless source.
#[derive(Clone, Copy)]
struct Endless {
    /// What the run shows.
    shows: &'static str,
    words: &'static [&'static [u8]],
    pattern: [u8; 9],
    status: u8,
    /// How often it writes `CANCEL 1`, and then just the last line.
    lines: usize,
    last: &'static [u8],
}

const ENDLESS: [Endless; 5] = [
    Endless {
        shows: "an endless script is too long",
        words: CABLE,
        pattern: [b'#'; 9],
        status: 3,
        lines: 0,
        last: b"rsocket: script line 0\n",
    },
    Endless {
        shows: "endless bytes that are no frame are told",
        words: FRAMES,
        pattern: [0xff; 9],
        status: 11,
        lines: 0,
        last: b"rsocket: frame at 0 rule 2\n",
    },
    Endless {
        shows: "endless bytes that are no line are told",
        words: BACK,
        pattern: [b'#'; 9],
        status: 3,
        lines: 0,
        last: b"rsocket: script line 1\n",
    },
    // 67,108,864 is 9 * 7,456,540 + 4.
    Endless {
        shows: "the frame that passes the limit is told",
        words: FRAMES,
        pattern: [0, 0, 6, 0, 0, 0, 1, 0x24, 0],
        status: 11,
        lines: 7_456_540,
        last: b"rsocket: frame at 67108860 rule 0\n",
    },
    Endless {
        shows: "the line that passes the limit is told",
        words: BACK,
        pattern: *b"CANCEL 1\n",
        status: 3,
        lines: 0,
        last: b"rsocket: script line 7456541\n",
    },
];

/// Whether the run ends with the status, and wrote just the lines.
fn ends_still<R: Threads + Wait + Sync>(
    rt: &R,
    alloc: Global,
    row: &Endless,
) -> Result<bool, Fail> {
    let mut input = EndlessSource {
        pattern: row.pattern,
        given: 0,
    };
    let mut output = MemSink::new(alloc, Vec::new(alloc));
    let status = status_over(rt, alloc, row.words, &mut input, &mut output)?;
    let mut rest = output.written();
    for _ in 0..row.lines {
        match rest.strip_prefix(b"CANCEL 1\n".as_slice()) {
            Some(after) => rest = after,
            None => return Ok(false),
        }
    }
    Ok(status == row.status && rest == row.last)
}

#[test]
fn each_endless_run_ends(rt: HostRuntime) -> Result<(), Fail> {
    for row in ENDLESS {
        assert!(rt; ends_still(&rt, rt.alloc(), &row)?, "{}", row.shows);
    }
    Ok(())
}
