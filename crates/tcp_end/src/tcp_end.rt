//! A link over a TCP socket.

ghost use Rattle.std.specs.Prelude.{◌≡◌, ◌<◌, ◌≤◌, ℕ, IfOk, length};
ghost use Rattle.outside.specs.Links.{no_counts};
ghost use Rattle.outside.specs.Streams.{IsPartOf};

use crate::waiter::Waiter;
use bell::Bell;
use outside::{Given, Link, Taken, Tally};
use std::alloc::Global;
use std::io;
use std::io::{ErrorKind, Read, Write};
use std::marker::Model;
use std::net::{Net, Shutdown, TcpStream};
use std::sync::{Arc, Wait};

/// How many bytes a read of a link that is given up drops at most.
const CLOSE_PIECE: usize = 4096;

/// How many such reads there are at most.
const MOST_CLOSE_READS: u32 = 256;

/// A link over a TCP socket. It shows nothing of its content, and contracts see its counts alone.
///
/// ```text
///   the last give      what the take does
///   ------------------ -----------------------------------------------------------
///   moved bytes        reads once, and lulls at once where nothing came
///   none, or a stall   reads where bytes may have come, else waits 10 ms at most for
///                      bytes, room after a stall, or the bell; then reads once more
/// ```
#[derive(Drop)]
pub struct TcpEnd {
    /// The socket.
    waiter: Waiter,
    /// Whether the last give, since the last take, moved bytes.
    gave: bool,
    tally: Tally,
}

impl Model for TcpEnd {
    ghost use Rattle.outside.specs.Links.{Counts};

    ghost Value = { Counts };

    ghost view = { λ e. e.tally };
}

// Whether a call did nothing, and may do more later.
fn is_lull(error: &io::Error) -> bool {
    matches!(error.kind(), ErrorKind::WouldBlock | ErrorKind::Interrupted)
}

impl TcpEnd {
    /// A link over this socket, which never blocks from now on, with nothing counted. It fails where
    /// the system has no poll for it, or no memory.
    pub fn new<R: Net>(rt: &R, alloc: Global, stream: TcpStream) -> io::Result<TcpEnd>
        ensures { IfOk result (λ e. e ≡ no_counts) }
    {
        Ok(TcpEnd {
            waiter: Waiter::new(rt, alloc, stream)?,
            gave: false,
            tally: Tally::new(),
        })
    }

    // One read, as a take answers it.
    fn read(&mut self, buffer: &mut [u8]) -> Taken
        requires { 0 < length buffer.old }
        ensures took { (n : ℕ) → result ≡ Taken.Took n → IsPartOf n (length buffer.new) }
        ensures same { self.new ≡ self.old }
    {
        match self.waiter.stream().read(buffer) {
            Ok(0) => Taken::End,
            Ok(count) => Taken::Took(count),
            Err(error) => {
                if error.kind() == ErrorKind::WouldBlock {
                    self.waiter.found_nothing();
                }
                if is_lull(&error) {
                    Taken::Lull
                } else {
                    Taken::Failed
                }
            }
        }
    }

    // A read where bytes may have come.
    fn read_if_fresh(&mut self, buffer: &mut [u8]) -> Taken
        requires { 0 < length buffer.old }
        ensures took { (n : ℕ) → result ≡ Taken.Took n → IsPartOf n (length buffer.new) }
        ensures same { self.new ≡ self.old }
    {
        if self.waiter.may_have_bytes() {
            self.read(buffer)
        } else {
            Taken::Lull
        }
    }

    // A read, and where it finds nothing a wait and one more.
    fn read_or_wait(&mut self, buffer: &mut [u8]) -> Taken
        requires { 0 < length buffer.old }
        ensures took { (n : ℕ) → result ≡ Taken.Took n → IsPartOf n (length buffer.new) }
        ensures same { self.new ≡ self.old }
    {
        match self.read_if_fresh(buffer) {
            Taken::Lull => {
                self.waiter.wait();
                self.read_if_fresh(buffer)
            }
            answer => answer,
        }
    }

    // One write, as a give answers it.
    fn write(&mut self, piece: &[u8]) -> Given
        requires { 0 < length piece.now }
        ensures took { (n : ℕ) → result ≡ Given.Took n → IsPartOf n (length piece.now) }
        ensures same { self.new ≡ self.old }
    {
        match self.waiter.stream().write(piece) {
            Ok(0) => Given::Failed,
            Ok(count) => Given::Took(count),
            Err(error) => {
                if is_lull(&error) {
                    Given::Lull
                } else {
                    Given::Failed
                }
            }
        }
    }
}

impl Link for TcpEnd {
    ghost use Rattle.std.specs.Prelude.{None};

    ghost shown = { λ counts. record { taken = None; given = None; counts = counts } };

    fn take(&mut self, buffer: &mut [u8]) -> Taken {
        let answer = if self.gave {
            self.gave = false;
            self.read(buffer)
        } else {
            self.read_or_wait(buffer)
        };
        self.waiter.watch();
        self.tally.note_take(answer);
        answer
    }

    fn give(&mut self, piece: &[u8]) -> Given {
        let answer = self.write(piece);
        self.gave = matches!(answer, Given::Took(_));
        self.waiter.set_stalled(matches!(answer, Given::Lull));
        self.tally.note_give(answer);
        answer
    }

    fn hear<R: Wait>(&mut self, rt: &R, bell: &Arc<Bell>) {
        self.waiter.hear(rt, bell);
    }

    /// Says so by the end of what is sent, and drops what came: from a socket that is let go with bytes
    /// unread, the peer may lose what it has not read either.
    fn close(&mut self) {
        // The peer learns of the end of the socket, too, so what fails here is of no use to anyone.
        let stream = self.waiter.stream();
        let _ = stream.shutdown(Shutdown::Write);
        let mut buffer = [0; CLOSE_PIECE];
        for _ in 0..MOST_CLOSE_READS {
            match stream.read(&mut buffer) {
                Ok(count) if count > 0 => {}
                _ => return,
            }
        }
    }
}
