//! What comes, and what is taken of it. A client's frames are masked by the key of RFC 6455, section
//! 5.7: `37 fa 21 3d`, under which `Hello` is `7f 9f 4d 51 58`.

ghost use Rattle.std.specs.Prelude.{◌<◌};

use super::stream::{Stream, end_over, let_go, streams};
use outside::{Given, Link, Taken};
use std::alloc::Global;
use std::process::Abort;
use tungstenite::Role;

/// Bytes that come to a link, and what its takes answer.
struct Row {
    shows: &'static str,
    role: Role,
    coming: &'static [u8],
    /// How many zeros come then.
    zeros: usize,
    /// Whether the stream ends then.
    ends: bool,
    /// What is taken in all.
    taken: &'static [u8],
    /// The take after that, and each further one.
    last: Taken,
    /// A give after that.
    given: Given,
    /// What the socket answered.
    gone: &'static [u8],
}

/// Nothing that comes to a server.
const QUIET: Row = Row {
    shows: "nothing at all is nothing yet",
    role: Role::Server,
    coming: b"",
    zeros: 0,
    ends: false,
    taken: b"",
    last: Taken::Lull,
    given: Given::Took(1),
    gone: b"",
};

/// What breaks a rule.
const BROKEN: Row = Row {
    last: Taken::Failed,
    given: Given::Failed,
    ..QUIET
};

/// What ends the link.
const ENDED: Row = Row {
    last: Taken::End,
    given: Given::Failed,
    ..QUIET
};

const HELLO: &[u8] = b"\x00\x00\x05Hello";

const ROWS: &[Row] = &[
    QUIET,
    Row {
        shows: "a binary message is a frame",
        coming: b"\x82\x85\x37\xfa\x21\x3d\x7f\x9f\x4d\x51\x58",
        taken: HELLO,
        ..QUIET
    },
    Row {
        shows: "a message in fragments is one frame, and a ping between them is answered",
        coming: b"\x02\x83\x37\xfa\x21\x3d\x7f\x9f\x4d\x89\x81\x37\xfa\x21\x3d\x1d\x80\x82\x37\xfa\x21\x3d\x5b\x95",
        taken: HELLO,
        gone: b"\x8a\x01\x2a",
        ..QUIET
    },
    Row {
        shows: "two messages are two frames",
        coming: b"\x82\x85\x37\xfa\x21\x3d\x7f\x9f\x4d\x51\x58\x82\x81\x37\xfa\x21\x3d\x1d",
        taken: b"\x00\x00\x05Hello\x00\x00\x01\x2a",
        ..QUIET
    },
    Row {
        shows: "an empty message is an empty frame",
        coming: b"\x82\x80\x37\xfa\x21\x3d",
        taken: b"\x00\x00\x00",
        ..QUIET
    },
    Row {
        shows: "a pong is nothing",
        coming: b"\x8a\x85\x37\xfa\x21\x3d\x7f\x9f\x4d\x51\x58",
        ..QUIET
    },
    Row {
        shows: "half a frame and then nothing is nothing yet",
        coming: b"\x82\x85\x37\xfa\x21\x3d\x7f\x9f",
        ..QUIET
    },
    Row {
        shows: "the head of a message of 16,777,215 bytes may come",
        coming: b"\x82\xff\x00\x00\x00\x00\x00\xff\xff\xff\x37\xfa\x21\x3d",
        ..QUIET
    },
    Row {
        shows: "one of 16,777,216 bytes may not",
        coming: b"\x82\xff\x00\x00\x00\x00\x01\x00\x00\x00\x37\xfa\x21\x3d",
        ..BROKEN
    },
    Row {
        shows: "a text is a fault",
        coming: b"\x81\x85\x37\xfa\x21\x3d\x7f\x9f\x4d\x51\x58",
        ..BROKEN
    },
    Row {
        shows: "what came before a fault is taken first",
        coming: b"\x82\x85\x37\xfa\x21\x3d\x7f\x9f\x4d\x51\x58\x81\x80\x37\xfa\x21\x3d",
        taken: HELLO,
        ..BROKEN
    },
    Row {
        shows: "a frame that a client does not mask is a fault",
        coming: b"\x82\x05Hello",
        ..BROKEN
    },
    Row {
        shows: "a frame that a server masks is a fault",
        role: Role::Client,
        coming: b"\x82\x85\x37\xfa\x21\x3d\x7f\x9f\x4d\x51\x58",
        ..BROKEN
    },
    Row {
        shows: "a reserved bit is a fault",
        coming: b"\xc2\x85\x37\xfa\x21\x3d\x7f\x9f\x4d\x51\x58",
        ..BROKEN
    },
    Row {
        shows: "a reserved opcode is a fault",
        coming: b"\x83\x80\x37\xfa\x21\x3d",
        ..BROKEN
    },
    Row {
        shows: "a ping in fragments is a fault",
        coming: b"\x09\x80\x37\xfa\x21\x3d",
        ..BROKEN
    },
    Row {
        shows: "a ping of 126 bytes is a fault",
        coming: b"\x89\xfe\x00\x7e\x37\xfa\x21\x3d",
        zeros: 126,
        ..BROKEN
    },
    Row {
        shows: "a fragment of no message is a fault",
        coming: b"\x80\x80\x37\xfa\x21\x3d",
        ..BROKEN
    },
    Row {
        shows: "a message in the middle of another one is a fault",
        coming: b"\x02\x81\x37\xfa\x21\x3d\x1d\x82\x81\x37\xfa\x21\x3d\x1d",
        ..BROKEN
    },
    Row {
        shows: "a length of 5 in three bytes is a fault",
        coming: b"\x82\xfe\x00\x05\x37\xfa\x21\x3d\x7f\x9f\x4d\x51\x58",
        ..BROKEN
    },
    Row {
        shows: "a length with its top bit set is a fault",
        coming: b"\x82\xff\x80\x00\x00\x00\x00\x01\x00\x00\x37\xfa\x21\x3d",
        ..BROKEN
    },
    Row {
        shows: "a close is the end, and is answered by one",
        coming: b"\x88\x80\x37\xfa\x21\x3d",
        gone: b"\x88\x00",
        ..ENDED
    },
    Row {
        shows: "a close with a code is answered with it, and nothing after it is read",
        coming: b"\x82\x81\x37\xfa\x21\x3d\x1d\x88\x82\x37\xfa\x21\x3d\x34\x12\x82\x80\x37\xfa\x21\x3d",
        taken: b"\x00\x00\x01\x2a",
        gone: b"\x88\x02\x03\xe8",
        ..ENDED
    },
    Row {
        shows: "the end of the stream is the end, in the middle of a frame too",
        role: Role::Client,
        coming: b"\x82\x05Hello\x82\x02H",
        ends: true,
        taken: HELLO,
        ..ENDED
    },
];

/// How many bytes a stream keeps.
const ROOM: usize = 1024;

// Takes until nothing comes, and gives what that take answered.
fn take_all<R: Abort, L: Link>(rt: &R, link: &mut L, taken: &mut Vec<u8>) -> Taken {
    let mut buffer = [0; 4];
    for _ in 0..100 {
        match link.take(&mut buffer) {
            Taken::Took(count) => taken
                .extend_from_slice(&buffer[..count])
                .expect(rt, "there is memory"),
            last => return last,
        }
    }
    Taken::Took(0)
}

// The bytes that come by a row.
fn coming<R: Abort>(rt: &R, alloc: Global, row: &Row) -> Vec<u8> {
    let mut bytes = Vec::from_slice(alloc, row.coming).expect(rt, "there is memory");
    let whole = row.coming.len().saturating_add(row.zeros);
    assert!(rt; bytes.resize(whole, 0).is_ok());
    bytes
}

// Stops the test, which names the row, where something is not right.
fn check<R: Abort>(rt: &R, right: bool, shows: &str) {
    assert!(rt; right, "{shows}");
}

// Sends a link what comes by a row in pieces, and takes after each.
fn take_pieces<R: Abort, L: Link>(
    rt: &R,
    alloc: Global,
    link: &mut L,
    far: &mut Stream,
    row: &Row,
    most: usize,
)
    requires { 0 < most }
{
    let bytes = coming(rt, alloc, row);
    let mut taken = Vec::new(alloc);
    for piece in bytes.chunks(most) {
        far.feed(rt, piece);
        take_all(rt, link, &mut taken);
    }
    if row.ends {
        far.shut();
    }
    let last = take_all(rt, link, &mut taken);
    check(rt, taken.as_slice() == row.taken, row.shows);
    check(rt, last == row.last, row.shows);
    drop(taken);
    drop(bytes);
}

// It stays so, and nothing goes once it is over.
fn try_more<R: Abort, L: Link>(rt: &R, link: &mut L, row: &Row) {
    let mut buffer = [0; 4];
    check(rt, link.take(&mut buffer) == row.last, row.shows);
    check(rt, link.give(&[0]) == row.given, row.shows);
}

fn play<R: Abort>(rt: &R, alloc: Global, row: &Row, most: usize)
    requires { 0 < most }
{
    let (near, mut far) = streams(rt, alloc, ROOM);
    let mut end = end_over(rt, alloc, row.role, near);
    take_pieces(rt, alloc, &mut end, &mut far, row, most);
    try_more(rt, &mut end, row);
    let gone = far.drain(rt, alloc);
    assert!(rt; gone.as_slice() == row.gone, "the answer to {}", row.shows);
    drop(gone);
    drop(far);
    let_go(end);
}

#[test]
fn each_row_comes_as_it_says(rt: HostRuntime) {
    for row in ROWS {
        for most in 1..=26 {
            play(&rt, rt.alloc(), row, most);
        }
    }
}
