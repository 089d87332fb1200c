//! Standard input and output.

ghost use Rattle.std.specs.Prelude.{◌≡◌, ◌<◌, List, ℕ, Some, length};
ghost use Rattle.outside.specs.Streams.{IsPartOf, IsRead, IsWrite, faults_after_read, faults_after_write};

use crate::sink::{Sink, Wrote};
use crate::source::{Read, Source};
use std::io;
use std::io::{Stdin, Stdout};
use std::marker::Model;

/// Standard input. It shows nothing of its content, and contracts see the count of its faults alone.
/// It reads straight from the system, so give it a large buffer.
#[derive(Drop)]
pub struct StdSource {
    stdin: Stdin,
    faults: u64,
}

/// Standard output. It shows nothing of its content, and contracts see the count of its faults
/// alone. It writes straight to the system, so give it large pieces.
#[derive(Drop)]
pub struct StdSink {
    stdout: Stdout,
    faults: u64,
}

// One read of any reader, as a source answers it: an error is a fault and is counted.
fn read_once<R: io::Read>(reader: &mut R, faults: &mut u64, buffer: &mut [u8]) -> Read
    requires { 0 < length buffer.old }
    ensures took { (n : ℕ) → result ≡ Read.Took n → IsPartOf n (length buffer.new) }
    ensures read { (left : List ℕ) → R.remaining reader.old ≡ Some left →
        IsRead (Some left) (R.remaining reader.new) buffer.new result }
    ensures faults { faults.new ≡ faults_after_read result faults.old }
{
    match reader.read(buffer) {
        Ok(0) => Read::End,
        Ok(count) => Read::Took(count),
        Err(_) => {
            *faults = faults.saturating_add(1);
            Read::Failed
        }
    }
}

// One write to any writer, as a sink answers it: an error is a fault and is counted, and so is a
// write that took nothing.
fn write_once<W: io::Write>(writer: &mut W, faults: &mut u64, piece: &[u8]) -> Wrote
    ensures took { (n : ℕ) → result ≡ Wrote.Took n → IsPartOf n (length piece.now) }
    ensures write { (old : List ℕ) → W.contents writer.old ≡ Some old →
        IsWrite (Some old) (W.contents writer.new) piece.now result }
    ensures faults { faults.new ≡ faults_after_write result faults.old }
{
    match writer.write(piece) {
        Ok(0) | Err(_) => {
            *faults = faults.saturating_add(1);
            Wrote::Failed
        }
        Ok(count) => Wrote::Took(count),
    }
}

impl Model for StdSource {
    ghost use Rattle.std.specs.Prelude.{ℕ};

    ghost Value = { ℕ };

    ghost view = { λ s. s.faults };
}

impl StdSource {
    /// Standard input with no fault yet, as of `rt.stdin()`.
    pub fn new(stdin: Stdin) -> StdSource
        ensures { result ≡ 0 }
    {
        StdSource { stdin, faults: 0 }
    }
}

impl Source for StdSource {
    ghost use Rattle.std.specs.Prelude.{None};

    ghost shown = { λ s. record { told = None; faults = s } };

    fn read(&mut self, buffer: &mut [u8]) -> Read {
        read_once(&mut self.stdin, &mut self.faults, buffer)
    }
}

impl Model for StdSink {
    ghost use Rattle.std.specs.Prelude.{ℕ};

    ghost Value = { ℕ };

    ghost view = { λ s. s.faults };
}

impl StdSink {
    /// Standard output with no fault yet, as of `rt.stdout()`.
    pub fn new(stdout: Stdout) -> StdSink
        ensures { result ≡ 0 }
    {
        StdSink { stdout, faults: 0 }
    }
}

impl Sink for StdSink {
    ghost use Rattle.std.specs.Prelude.{None};

    ghost shown = { λ s. record { told = None; faults = s } };

    fn write(&mut self, piece: &[u8]) -> Wrote {
        write_once(&mut self.stdout, &mut self.faults, piece)
    }
}
