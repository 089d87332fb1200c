//! The net of a run, as its text describes it.

ghost use Rattle.std.specs.Prelude.{◌≡◌, ◌<◌, IfOk};
ghost use Rattle.outside.specs.Links.{IsNew};
ghost use Rattle.outside.specs.MemoryLink.{shown_of};

use crate::bytes::of_word;
use anyhow::{Context, Result, ensure};
use outside::{After, MemClock, MemLink, MemNet};
use rs_wire::Blob;
use std::alloc::Global;

/// The most bytes that one call of a link moves, where the text does not say.
const MOST: u32 = 1_000_000;

/// One link: what is to be read of it, and what it is to be given.
#[derive(Drop)]
pub struct Wire {
    bytes: Vec<u8>,
    after: After,
    most: u32,
    fails: Vec<u64>,
}

/// The net of a run: its links, the dials that fail, the moments of its clock, and all bytes that the
/// links are to be given, where the text says so.
#[derive(Drop)]
pub struct Wires {
    links: Vec<Wire>,
    fails: Vec<u64>,
    moments: Vec<u64>,
    /// The bytes that the links are to be given, one after the other.
    pub given: Option<Vec<u8>>,
}

fn number(word: Option<&str>) -> Result<u64> {
    let word = word.context("a number is missing")?;
    word.parse::<u64>().ok().context("a number is out of form")
}

// The link of a line: `link`, then maybe `ends`, `most N` and `fails N`, then its bytes.
fn read_wire(alloc: Global, line: &str) -> Result<Wire> {
    let mut wire = Wire {
        bytes: Vec::new(alloc),
        after: After::Lulls,
        most: MOST,
        fails: Vec::new(alloc),
    };
    let mut words = line.split(' ').skip(1);
    for _ in 0..u64::MAX {
        match words.next() {
            None => break,
            Some("ends") => wire.after = After::Ends,
            Some("most") => {
                wire.most = u32::try_from(number(words.next())?)
                    .ok()
                    .context("most is too large")?;
            }
            Some("fails") => wire.fails.push(number(words.next())?)?,
            Some(word) => wire.bytes = of_word(alloc, word)?,
        }
    }
    Ok(wire)
}

fn numbers(alloc: Global, line: &str) -> Result<Vec<u64>> {
    let mut numbers = Vec::new(alloc);
    for word in line.split(' ').skip(1) {
        numbers.push(number(Some(word))?)?;
    }
    Ok(numbers)
}

impl Wires {
    /// The net of a text, whose other lines are passed over.
    pub fn read(alloc: Global, text: &str) -> Result<Wires> {
        let mut wires = Wires {
            links: Vec::new(alloc),
            fails: Vec::new(alloc),
            moments: Vec::new(alloc),
            given: None,
        };
        for line in text.lines() {
            wires.take(alloc, line)?;
        }
        Ok(wires)
    }

    // Takes a line in.
    fn take(&mut self, alloc: Global, line: &str) -> Result<()> {
        match line.split(' ').next() {
            Some("link") => self.links.push(read_wire(alloc, line)?)?,
            Some("dials") => self.fails = numbers(alloc, line)?,
            Some("clock") => self.moments = numbers(alloc, line)?,
            Some("given") => {
                let word = line.split(' ').nth(1).context("bytes are missing")?;
                let mut given = self.given.take().unwrap_or(Vec::new(alloc));
                given.extend_from_slice(&of_word(alloc, word)?)?;
                self.given = Some(given);
            }
            _ => {}
        }
        Ok(())
    }

    /// The clock, which gives 0 where no moment is told.
    pub fn clock(&self, alloc: Global) -> Result<MemClock> {
        let mut moments = Vec::from_slice(alloc, &self.moments)?;
        if moments.is_empty() {
            moments.push(0)?;
        }
        ensure!(!moments.is_empty(), "a clock has a moment");
        Ok(MemClock::new(moments))
    }

    /// The net.
    pub fn net(&self, alloc: Global) -> Result<MemNet> {
        let mut links = Vec::new(alloc);
        for wire in &self.links {
            links.push(link(alloc, wire)?)?;
        }
        Ok(MemNet::new(alloc, links, Vec::from_slice(alloc, &self.fails)?))
    }
}

fn link(alloc: Global, wire: &Wire) -> Result<MemLink>
    ensures { IfOk result (λ l. IsNew (shown_of l)) }
{
    ensure!(wire.most > 0, "a call moves a byte");
    let bytes = Blob::from_slice(alloc, &wire.bytes)?;
    let fails = Vec::from_slice(alloc, &wire.fails)?;
    Ok(MemLink::new(alloc, bytes, wire.after, wire.most, fails))
}
