//! Streams in memory, and links over them.

ghost use Rattle.std.specs.Prelude.{◌<◌, length};

use outside::{Given, Link, Taken};
use rtrb::{Consumer, Producer, RingBuffer};
use std::alloc::Global;
use std::io;
use std::io::{ErrorKind, Read, Write};
use std::process::Abort;
use std::random::RandomSource;
use tungstenite::{Role, WebSocket};
use ws_end::{ClientKeys, WsEnd, limits};

/// One end of a stream in memory: a ring for each direction. It never blocks, and what comes ends
/// where the other end is shut.
#[derive(Drop)]
pub struct Stream {
    coming: Consumer<u8>,
    /// None once it is shut.
    going: Option<Producer<u8>>,
}

impl Stream {
    /// Says that nothing more is written.
    pub fn shut(&mut self) {
        self.going = None;
    }

    /// Reads what came.
    pub fn drain<R: Abort>(&mut self, rt: &R, alloc: Global) -> Vec<u8> {
        let mut bytes = Vec::new(alloc);
        let mut piece = [0; 4096];
        for _ in 0..10_000 {
            match self.coming.pop_partial_slice(&mut piece) {
                0 => break,
                count => bytes
                    .extend_from_slice(&piece[..count])
                    .expect(rt, "there is memory"),
            }
        }
        bytes
    }

    /// Writes all of these bytes, for which there is room.
    pub fn feed<R: Abort>(&mut self, rt: &R, bytes: &[u8]) {
        match &mut self.going {
            Some(going) => assert!(rt; going.push_entire_slice(bytes).is_ok()),
            None => assert!(rt; false, "the stream is shut"),
        }
    }
}

impl Read for Stream {
    fn read(&mut self, buf: &mut [u8]) -> io::Result<usize> {
        match self.coming.pop_partial_slice(buf) {
            0 if self.coming.is_abandoned() => Ok(0),
            0 => Err(io::Error::from(ErrorKind::WouldBlock)),
            count => Ok(count),
        }
    }
}

impl Write for Stream {
    fn write(&mut self, buf: &[u8]) -> io::Result<usize> {
        let Some(going) = &mut self.going else {
            return Err(io::Error::from(ErrorKind::BrokenPipe));
        };
        let (gone, _) = going.push_partial_slice(buf);
        match gone.len() {
            0 => Err(io::Error::from(ErrorKind::WouldBlock)),
            count => Ok(count),
        }
    }

    fn flush(&mut self) -> io::Result<()> {
        Ok(())
    }
}

/// The two ends of a stream that keeps so many bytes in each direction.
pub fn streams<R: Abort>(rt: &R, alloc: Global, room: usize) -> (Stream, Stream) {
    let (up, from_up) = RingBuffer::new(alloc, room).expect(rt, "there is memory");
    let (down, from_down) = RingBuffer::new(alloc, room).expect(rt, "there is memory");
    let near = Stream {
        coming: from_down,
        going: Some(up),
    };
    let far = Stream {
        coming: from_up,
        going: Some(down),
    };
    (near, far)
}

/// A source of zeros.
struct Zeros;

impl RandomSource for Zeros {
    fn fill_bytes(&self, buf: &mut [u8]) -> io::Result<()> {
        buf.fill(0);
        Ok(())
    }
}

// The keys of a generator with a seed of zeros.
fn keys<R: Abort>(rt: &R) -> ClientKeys {
    ClientKeys::seeded_by(&Zeros).expect(rt, "there are keys")
}

/// A link over a stream in memory.
pub type End = WsEnd<Stream, ClientKeys>;

/// The link of that role over this stream, as a handshake leaves it. As a client it masks with those
/// keys.
pub fn end_over<R: Abort, S: Read + Write + Drop>(
    rt: &R,
    alloc: Global,
    role: Role,
    stream: S,
) -> WsEnd<S, ClientKeys> {
    let socket = WebSocket::from_raw_socket(alloc, stream, keys(rt), role, Some(limits()));
    WsEnd::new(alloc, socket)
}

/// Lets a link go, but for its stream alone. Each trial ends so: a place where the whole link is let go
/// is dear to prove.
pub fn let_go<S: Read + Write + Drop>(end: WsEnd<S, ClientKeys>) {
    drop(end.into_socket().into_inner());
}

/// Takes once, which is answered so.
pub fn take<R: Abort, L: Link>(rt: &R, link: &mut L, buffer: &mut [u8], answer: Taken)
    requires { 0 < length buffer.old }
{
    assert_eq!(rt; link.take(buffer), answer);
}

/// Gives these bytes at once, which is answered so.
pub fn give<R: Abort, L: Link>(rt: &R, link: &mut L, bytes: &[u8], answer: Given)
    requires { 0 < length bytes.now }
{
    assert_eq!(rt; link.give(bytes), answer);
}
