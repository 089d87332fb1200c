//! A link over a WebSocket.

ghost use Rattle.std.specs.Prelude.{◌≡◌, ◌<◌, ◌≤◌, ℕ, IfOk, length};
ghost use Rattle.outside.specs.Links.{no_counts};
ghost use Rattle.outside.specs.Streams.{IsPartOf};

use crate::coming::{Came, hand_out, next_message};
use crate::sending::{Flushed, flush, send_whole};
use crate::sizes::MOST_FRAME;
use bell::Bell;
use byte_queue::ByteQueue;
use outside::{Given, Link, Taken, Tally};
use rs_chunk::Reader;
use std::alloc::Global;
use std::io::{Read, Write};
use std::marker::Model;
use std::net::Shutdown;
use std::sync::{Arc, Wait};
use tcp_end::Waiter;
use tungstenite::{MaskKeys, WebSocket};

/// How many messages one take reads at most, so that a peer that sends nothing but pings does not
/// hold it.
const MOST_MESSAGES: u32 = 1024;

/// How many bytes one give takes at most. With the longest frame before them they fit into what may
/// wait in a socket ([`limits`](crate::limits())).
const MOST_GIVEN: usize = 65_536;

/// How a link is over.
#[derive(Clone, Copy, Debug, PartialEq, Eq)]
enum Over {
    /// The peer sends no more.
    Ended,
    /// It broke a rule of the link, or the stream failed, or there was not enough memory.
    Failed,
}

/// A link over a WebSocket. It shows nothing of its content, and contracts see its counts alone.
///
/// ```text
///   given: bytes with length fields          taken: bytes with length fields
///      |                                         ^
///   part      of a frame that is not whole    frames    that came and were not taken
///      |  one binary message a frame             |  a frame after its length
///   socket    bytes that wait for room        socket
/// ```
///
/// | what comes | what takes answer |
/// |---|---|
/// | a binary message of at most 16,777,215 bytes, in fragments too | its frame, after its length, in as many takes as it needs |
/// | a ping, a pong | nothing; the socket answers pings |
/// | a text, a longer message, a broken rule of RFC 6455 | `Failed`, from then on, once what came before is taken |
/// | a close, or the end of the stream | `End`, from then on, once what came before is taken |
///
/// What is sent of a message may lie in the socket until its stream has room: it goes out with the
/// next take or give. After a fault, or the end, gives fail.
#[derive(Drop)]
pub struct WsEnd<S, K> {
    alloc: Global,
    socket: WebSocket<S, K>,
    /// What was given of a frame that is not whole yet.
    part: Reader,
    /// The frames that came and were not taken, each after its length.
    frames: ByteQueue,
    /// How the link ended, once it has.
    over: Option<Over>,
    /// Whether bytes that were given, or a close, may wait in the socket for room.
    owes: bool,
    /// Whether the last give, since the last take, moved bytes.
    gave: bool,
    /// What waits for the stream, where the stream never blocks.
    waiter: Option<Waiter>,
    tally: Tally,
}

impl<S, K> Model for WsEnd<S, K> {
    ghost use Rattle.outside.specs.Links.{Counts};

    ghost Value = { Counts };

    ghost view = { λ e. e.tally };
}

impl<S: Read + Write + Drop, K: MaskKeys + Drop> WsEnd<S, K> {
    /// A link over this socket, with nothing counted. Its takes wait where the stream does. Make the
    /// socket with the [`limits`](crate::limits()) of frames.
    pub fn new(alloc: Global, socket: WebSocket<S, K>) -> WsEnd<S, K>
        ensures { result ≡ no_counts }
    {
        WsEnd {
            alloc,
            socket,
            part: Reader::new(alloc, MOST_FRAME as u32),
            frames: ByteQueue::new(alloc),
            over: None,
            owes: false,
            gave: false,
            waiter: None,
            tally: Tally::new(),
        }
    }

    /// A link over a socket whose stream never blocks, with nothing counted. The waiter waits for
    /// that stream.
    pub fn waiting(alloc: Global, socket: WebSocket<S, K>, waiter: Waiter) -> WsEnd<S, K>
        ensures { result ≡ no_counts }
    {
        let mut end = WsEnd::new(alloc, socket);
        end.waiter = Some(waiter);
        end
    }

    /// The socket, without what was given of a frame that is not whole and what was not taken.
    pub fn into_socket(self) -> WebSocket<S, K> {
        let WsEnd {
            alloc: _,
            socket,
            part: _,
            frames: _,
            over: _,
            owes: _,
            gave: _,
            waiter: _,
            tally: _,
        } = self;
        socket
    }

    // Notes how the link ended.
    fn end(&mut self, how: Over)
        ensures { self.new ≡ self.old }
    {
        self.over = Some(how);
    }

    // Sends what waits.
    fn flush(&mut self) -> Flushed
        ensures { self.new ≡ self.old }
    {
        let flushed = flush(&mut self.socket);
        self.owes = flushed == Flushed::Waits;
        if let Some(waiter) = &mut self.waiter {
            waiter.set_stalled(self.owes);
        }
        if flushed == Flushed::Failed {
            self.end(Over::Failed);
        }
        flushed
    }

    // Sends each frame that is whole with this piece.
    fn send(&mut self, piece: &[u8]) -> bool
        ensures { self.new ≡ self.old }
    {
        if self.part.feed(piece).is_err() {
            return false;
        }
        // Each frame that is whole now has a byte of this piece.
        let sent = send_whole(&mut self.socket, self.alloc, &mut self.part, piece.len());
        if !sent {
            self.end(Over::Failed);
        }
        sent
    }

    // A give that is not counted yet.
    fn give_some(&mut self, piece: &[u8]) -> Given
        requires { 0 < length piece.now }
        ensures took { (n : ℕ) → result ≡ Given.Took n → IsPartOf n (length piece.now) }
        ensures same { self.new ≡ self.old }
    {
        if self.over.is_some() {
            return Given::Failed;
        }
        match self.flush() {
            Flushed::All => {}
            Flushed::Waits => return Given::Lull,
            Flushed::Failed => return Given::Failed,
        }
        let count = piece.len().min(MOST_GIVEN);
        if !self.send(&piece[..count]) || self.flush() == Flushed::Failed {
            return Given::Failed;
        }
        Given::Took(count)
    }

    // Reads messages until so many bytes of frames are there, or nothing more is.
    fn read_messages(&mut self, most: usize)
        ensures { self.new ≡ self.old }
    {
        for _ in 0..MOST_MESSAGES {
            if self.over.is_some() || self.frames.len() >= most {
                return;
            }
            match next_message(&mut self.socket, &mut self.frames) {
                Came::Frame | Came::Control => {}
                Came::Nothing => return,
                Came::End => {
                    // The socket answers a close by one, as far as the stream has room.
                    self.flush();
                    self.end(Over::Ended);
                }
                Came::Failed => self.end(Over::Failed),
            }
        }
    }

    // Reads messages, and where no frame is there waits once and reads again.
    fn read_or_wait(&mut self, most: usize, may_wait: bool)
        ensures { self.new ≡ self.old }
    {
        if self.owes {
            self.flush();
        }
        self.read_messages(most);
        if !may_wait || self.frames.len() > 0 || self.over.is_some() {
            return;
        }
        if let Some(waiter) = &mut self.waiter {
            waiter.wait();
            self.read_messages(most);
        }
    }

    // A take that is not counted yet.
    fn take_some(&mut self, buffer: &mut [u8]) -> Taken
        requires { 0 < length buffer.old }
        ensures took { (n : ℕ) → result ≡ Taken.Took n → IsPartOf n (length buffer.new) }
        ensures same { self.new ≡ self.old }
    {
        let may_wait = !self.gave;
        self.gave = false;
        if self.frames.len() == 0 {
            self.read_or_wait(buffer.len(), may_wait);
        }
        let count = hand_out(&mut self.frames, buffer);
        if count > 0 {
            return Taken::Took(count);
        }
        match self.over {
            None => Taken::Lull,
            Some(Over::Ended) => Taken::End,
            Some(Over::Failed) => Taken::Failed,
        }
    }
}

impl<S: Read + Write + Drop, K: MaskKeys + Drop> Link for WsEnd<S, K> {
    ghost use Rattle.std.specs.Prelude.{None};

    ghost shown = { λ counts. record { taken = None; given = None; counts = counts } };

    fn take(&mut self, buffer: &mut [u8]) -> Taken {
        let answer = self.take_some(buffer);
        if let Some(waiter) = &self.waiter {
            waiter.watch();
        }
        self.tally.note_take(answer);
        answer
    }

    fn give(&mut self, piece: &[u8]) -> Given {
        let answer = self.give_some(piece);
        self.gave = matches!(answer, Given::Took(_));
        self.tally.note_give(answer);
        answer
    }

    fn hear<R: Wait>(&mut self, rt: &R, bell: &Arc<Bell>) {
        if let Some(waiter) = &mut self.waiter {
            waiter.hear(rt, bell);
        }
    }

    /// Says so by a close, as far as the stream has room, after what waits, and then by the end of what
    /// is sent, where no more waits: a peer that closes, too, has had all that was sent.
    fn close(&mut self) {
        // The peer learns of the end of the stream, too, so what fails here is of no use to anyone.
        let _ = self.socket.close(None);
        self.owes = flush(&mut self.socket) == Flushed::Waits;
        if let Some(waiter) = &mut self.waiter {
            waiter.set_stalled(self.owes);
            if !self.owes {
                let _ = waiter.stream().shutdown(Shutdown::Write);
            }
        }
    }
}
