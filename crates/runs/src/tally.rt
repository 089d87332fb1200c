//! How many runs were played, and how many differ.

use crate::run::End;
use std::io;
use std::io::Print;

/// How many runs of a file that differ are printed.
const MOST_PRINTED: u64 = 10;

/// How many runs were played, and how many differ. A count stands still at 2^64 - 1.
#[derive(Clone, Copy)]
pub struct Tally {
    runs: u64,
    differ: u64,
}

// Prints how a run ended.
fn show(rt: &impl Print, name: &str, end: &End) -> io::Result<()> {
    println!(rt; "differs: {name}: status {}", end.status)?;
    match std::str::from_utf8(&end.written) {
        Ok(text) => print!(rt; "{text}"),
        Err(_) => println!(rt; "{:?}", end.written.as_slice()),
    }
}

impl Tally {
    /// None yet.
    pub fn new() -> Tally {
        Tally { runs: 0, differ: 0 }
    }

    /// Counts the run of this name, which ended so, and whether that is as its text says.
    pub fn add(
        &mut self,
        rt: &impl Print,
        name: &str,
        is_met: bool,
        ended: &End,
    ) -> io::Result<()> {
        self.runs = self.runs.saturating_add(1);
        if is_met {
            return Ok(());
        }
        self.differ = self.differ.saturating_add(1);
        if self.differ <= MOST_PRINTED {
            show(rt, name, ended)?;
        }
        Ok(())
    }

    /// Prints the counts of a file, and answers whether no run differs.
    pub fn close(self, rt: &impl Print, file: &str) -> io::Result<bool> {
        println!(rt; "{file}: {} runs, {} differ", self.runs, self.differ)?;
        Ok(self.differ == 0)
    }
}
