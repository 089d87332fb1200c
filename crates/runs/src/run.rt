//! A run of the program, and how it ends.

use crate::bytes::{of_word, put_line};
use crate::wires::Wires;
use anyhow::{Context, Result, ensure};
use outside::{MemSink, MemSource};
use rs_wire::Blob;
use rsocket_run::run;
use std::alloc::Global;
use std::sync::Wait;
use std::thread::Threads;
use stored_handlers::stored_routes;
use tape::{BlankShelf, KeptShelf, Shelf};

/// How often threads play a script over tapes that show nothing.
const TIMES_BY_THREADS: u32 = 20;

/// How a run ends.
#[derive(Drop, PartialEq, Eq)]
pub struct End {
    /// The exit status.
    pub status: u8,
    /// All bytes that it wrote.
    pub written: Vec<u8>,
    /// All bytes that its links were given, in the order in which they were put back.
    pub given: Vec<u8>,
}

/// What a run is given, and how it is to end.
#[derive(Drop)]
pub struct Run {
    /// The words after the program's name.
    pub words: Vec<Blob>,
    /// The bytes on its input.
    pub input: Vec<u8>,
    /// Its net and its clock.
    pub wires: Wires,
    /// How it is to end.
    pub end: End,
}

// The words of a run, which stand after its status.
fn words(alloc: Global, line: &str) -> Result<Vec<Blob>> {
    let mut words = Vec::new(alloc);
    for word in line.split(' ').skip(1) {
        words.push(Blob::from_vec(of_word(alloc, word)?))?;
    }
    Ok(words)
}

// The status of a run, the first word of its line.
fn status(line: &str) -> Result<u8> {
    let word = line.split(' ').next().context("a run has a status")?;
    word.parse::<u8>().ok().context("a status is a number")
}

// The input and the output of a run, with a line `--` between them.
fn sides(alloc: Global, text: &str) -> Result<(Vec<u8>, Vec<u8>)> {
    let mut input = Vec::new(alloc);
    let mut output = Vec::new(alloc);
    let mut is_input = true;
    for line in text.lines().skip(2) {
        if !is_input {
            put_line(alloc, &mut output, line)?;
        } else if line == "--" {
            is_input = false;
        } else {
            put_line(alloc, &mut input, line)?;
        }
    }
    ensure!(!is_input, "a run has a line -- after its input");
    Ok((input, output))
}

impl Run {
    /// The run of this text, whose first line is its name.
    pub fn read(alloc: Global, text: &str) -> Result<Run> {
        let line = text.lines().nth(1).context("a run has a line of words")?;
        let status = status(line)?;
        let words = words(alloc, line)?;
        let (input, written) = sides(alloc, text)?;
        Ok(Run {
            words,
            input,
            wires: Wires::read(alloc, text)?,
            end: End {
                status,
                written,
                given: Vec::new(alloc),
            },
        })
    }

    // How the program ends over tapes of this shelf.
    fn play_on<R: Threads + Wait + Sync, H: Shelf>(
        &self,
        rt: &R,
        alloc: Global,
        shelf: &mut H,
    ) -> Result<End>
    where
        H::Tape: Drop + Send,
    {
        let mut input = MemSource::new(Blob::from_slice(alloc, &self.input)?, Vec::new(alloc));
        let mut output = MemSink::new(alloc, Vec::new(alloc));
        let mut net = self.wires.net(alloc)?;
        let clock = self.wires.clock(alloc)?;
        let routes = stored_routes(alloc)?;
        let status = run(
            rt,
            alloc,
            &self.words,
            &mut input,
            &mut output,
            &mut net,
            &clock,
            shelf,
            &routes,
        );
        let mut given = Vec::new(alloc);
        for link in net.back() {
            given.extend_from_slice(link.given())?;
        }
        Ok(End {
            status,
            written: Vec::from_slice(alloc, output.written())?,
            given,
        })
    }

    /// How the program ends on these words and this input, over tapes that show their entries.
    pub fn play<R: Threads + Wait + Sync>(&self, rt: &R, alloc: Global) -> Result<End> {
        let mut shelf = KeptShelf::new(alloc);
        self.play_on(rt, alloc, &mut shelf)
    }

    /// How it ends over tapes that show nothing.
    pub fn play_blank<R: Threads + Wait + Sync>(&self, rt: &R, alloc: Global) -> Result<End> {
        let mut shelf = BlankShelf::new(alloc);
        self.play_on(rt, alloc, &mut shelf)
    }

    // Whether the first word is this one.
    fn begins_with(&self, word: &[u8]) -> bool {
        match self.words.first() {
            Some(first) => first.as_slice() == word,
            None => false,
        }
    }

    // Whether threads play it.
    fn is_by_threads(&self) -> bool {
        match self.words.get(1) {
            Some(second) => self.begins_with(b"cable")
                && second.as_slice() == b"--threads".as_slice(),
            None => false,
        }
    }

    /// How often it is played over tapes that show nothing.
    pub fn blank_times(&self) -> u32 {
        if self.is_by_threads() {
            TIMES_BY_THREADS
        } else if self.begins_with(b"call") || self.begins_with(b"serve") {
            1
        } else {
            0
        }
    }

    // Whether its status and what its links were given are as its text says.
    fn has_ended_so(&self, end: &End) -> bool {
        let given = match &self.wires.given {
            Some(given) => *given == end.given,
            None => true,
        };
        given && self.end.status == end.status
    }

    /// Whether it ended so as its text says, over tapes that show their entries. Of what threads play
    /// the text has the counts alone.
    pub fn is_met(&self, end: &End) -> bool {
        let written = if self.is_by_threads() {
            end.written.as_slice().starts_with(&self.end.written)
        } else {
            self.end.written == end.written
        };
        written && self.has_ended_so(end)
    }

    /// Whether it ended so over tapes that show nothing.
    pub fn is_met_over_blank(&self, end: &End) -> bool {
        self.end.written == end.written && self.has_ended_so(end)
    }
}
