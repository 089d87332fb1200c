//! Many messages, and the longest ones.

use super::stream::{end_over, let_go, streams, take};
use outside::{Given, Link, Taken};
use std::alloc::Global;
use std::io;
use std::io::{ErrorKind, Read, Write};
use std::process::Abort;
use tungstenite::Role;
use ws_end::{ClientKeys, MOST_FRAME, WsEnd};

#[test]
fn a_flood_of_pings_holds_no_take(rt: HostRuntime) {
    let (near, mut far) = streams(&rt, rt.alloc(), 20_000);
    let mut end = end_over(&rt, rt.alloc(), Role::Server, near);
    for _ in 0..2500 {
        far.feed(&rt, b"\x89\x80\x37\xfa\x21\x3d");
    }
    far.feed(&rt, b"\x82\x81\x37\xfa\x21\x3d\x1d");
    let mut buffer = [0; 16];
    take(&rt, &mut end, &mut buffer, Taken::Lull);
    take(&rt, &mut end, &mut buffer, Taken::Lull);
    take(&rt, &mut end, &mut buffer, Taken::Took(4));
    drop(far);
    let_go(end);
}

/// A stream in memory with one end: bytes that come, of which so many were read, and those that were
/// written. A ring would move them one by one.
#[derive(Drop)]
struct Long {
    coming: Vec<u8>,
    read: usize,
    gone: Vec<u8>,
}

impl Read for Long {
    fn read(&mut self, buf: &mut [u8]) -> io::Result<usize> {
        let left = self.coming.get(self.read..).unwrap_or(&[]);
        let count = left.len().min(buf.len());
        if count == 0 {
            return Err(io::Error::from(ErrorKind::WouldBlock));
        }
        buf[..count].copy_from_slice(&left[..count]);
        self.read = self.read.saturating_add(count);
        Ok(count)
    }
}

impl Write for Long {
    fn write(&mut self, buf: &[u8]) -> io::Result<usize> {
        self.gone.extend_from_slice(buf)?;
        Ok(buf.len())
    }

    fn flush(&mut self) -> io::Result<()> {
        Ok(())
    }
}

// A server to which these bytes come.
fn server<R: Abort>(rt: &R, alloc: Global, coming: Vec<u8>) -> WsEnd<Long, ClientKeys> {
    let stream = Long {
        coming,
        read: 0,
        gone: Vec::new(alloc),
    };
    end_over(rt, alloc, Role::Server, stream)
}

// These bytes, and zeros up to that length.
fn padded<R: Abort>(rt: &R, alloc: Global, bytes: &[u8], length: usize) -> Vec<u8> {
    let mut padded = Vec::from_slice(alloc, bytes).expect(rt, "there is memory");
    assert!(rt; padded.resize(length, 0).is_ok());
    padded
}

// Gives all of these bytes.
fn give_all<R: Abort, L: Link>(rt: &R, link: &mut L, bytes: &[u8]) {
    let mut from = 0;
    for _ in 0..1000 {
        if from >= bytes.len() {
            return;
        }
        match link.give(&bytes[from..]) {
            Given::Took(count) => from += count,
            Given::Lull | Given::Failed => assert!(rt; false, "there is room"),
        }
    }
}

#[test]
fn the_longest_frame_goes(rt: HostRuntime) {
    let alloc = rt.alloc();
    let mut end = server(&rt, alloc, Vec::new(alloc));
    let frame = padded(&rt, alloc, b"\xff\xff\xff\x2a", 3 + MOST_FRAME);
    give_all(&rt, &mut end, &frame);
    let stream = end.into_socket().into_inner();
    let head = b"\x82\x7f\x00\x00\x00\x00\x00\xff\xff\xff\x2a";
    let wanted = padded(&rt, alloc, head, 10 + MOST_FRAME);
    assert!(rt; stream.gone == wanted);
    drop(stream);
    drop(wanted);
    drop(frame);
}

/// The head of a message of 16,777,215 bytes in one frame, and that of a first fragment of 16,777,214
/// bytes. The key is zeros, which leaves bytes as they are.
const WHOLE: &[u8] = b"\x82\xff\x00\x00\x00\x00\x00\xff\xff\xff\x00\x00\x00\x00";

const FIRST: &[u8] = b"\x02\xff\x00\x00\x00\x00\x00\xff\xff\xfe\x00\x00\x00\x00";

/// Such a head, what comes after 16,777,214 zeros, and what a take of it all answers: a frame in one
/// message, the same without its last byte, and with a last fragment of one byte and of two.
const MESSAGES: [(&[u8], &[u8], Taken); 4] = [
    (WHOLE, b"\x2a", Taken::Took(3 + MOST_FRAME)),
    (WHOLE, b"", Taken::Lull),
    (
        FIRST,
        b"\x80\x81\x00\x00\x00\x00\x2a",
        Taken::Took(3 + MOST_FRAME),
    ),
    (FIRST, b"\x80\x82\x00\x00\x00\x00\x2a\x2a", Taken::Failed),
];

fn play<R: Abort>(rt: &R, alloc: Global, head: &[u8], last: &[u8], answer: Taken) {
    let zeros = MOST_FRAME - 1;
    let mut coming = padded(rt, alloc, head, head.len().saturating_add(zeros));
    assert!(rt; coming.extend_from_slice(last).is_ok());
    let mut end = server(rt, alloc, coming);
    let mut buffer = padded(rt, alloc, b"", 4 + MOST_FRAME);
    assert!(rt; !buffer.is_empty());
    take(rt, &mut end, &mut buffer, answer);
    drop(buffer);
    let_go(end);
}

#[test]
fn the_longest_frame_comes_whole_or_in_fragments_and_no_longer_one(rt: HostRuntime) {
    for (head, last, answer) in MESSAGES {
        play(&rt, rt.alloc(), head, last, answer);
    }
}
