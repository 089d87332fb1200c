//! What is given, and what goes over the wire.

ghost use Rattle.std.specs.Prelude.{◌<◌};

use super::stream::{end_over, give, let_go, streams};
use outside::{Given, Link};
use std::alloc::Global;
use std::process::Abort;
use tungstenite::Role;

/// What is given, and what goes.
struct Row {
    shows: &'static str,
    role: Role,
    given: &'static [u8],
    gone: &'static [u8],
}

const ROWS: &[Row] = &[
    Row {
        shows: "each frame is one binary message",
        role: Role::Server,
        given: b"\x00\x00\x05Hello\x00\x00\x00\x00\x00\x01\x2a",
        gone: b"\x82\x05Hello\x82\x00\x82\x01\x2a",
    },
    Row {
        shows: "a frame of 126 bytes has its length in two bytes more",
        role: Role::Server,
        given: b"\x00\x00\x7e\
            The stream frames that each end has handled over all connections of a session are \
            a prefix of those that the other end made.!!",
        gone: b"\x82\x7e\x00\x7e\
            The stream frames that each end has handled over all connections of a session are \
            a prefix of those that the other end made.!!",
    },
    Row {
        shows: "half a frame does not go",
        role: Role::Server,
        given: b"\x00\x00\x05Hell",
        gone: b"",
    },
    // The key stream of ChaCha20 for a key and a nonce of zeros begins 76 b8 e0 ad a0 f1 3d 90 (RFC
    // 8439, appendix A.1). `H` is 48 under 76, so 3e, and `i` 69 under b8, so d1; under a0 and f1
    // they are e8 and 98.
    Row {
        shows: "a client masks each frame with a key of its own",
        role: Role::Client,
        given: b"\x00\x00\x02Hi\x00\x00\x02Hi",
        gone: b"\x82\x82\x76\xb8\xe0\xad\x3e\xd1\x82\x82\xa0\xf1\x3d\x90\xe8\x98",
    },
];

// Gives these bytes in pieces.
fn give_pieces<R: Abort, L: Link>(rt: &R, link: &mut L, given: &[u8], most: usize)
    requires { 0 < most }
{
    for piece in given.chunks(most) {
        give(rt, link, piece, Given::Took(piece.len()));
    }
}

fn play<R: Abort>(rt: &R, alloc: Global, row: &Row, most: usize)
    requires { 0 < most }
{
    let (near, mut far) = streams(rt, alloc, 1024);
    let mut end = end_over(rt, alloc, row.role, near);
    give_pieces(rt, &mut end, row.given, most);
    let gone = far.drain(rt, alloc);
    assert!(rt;
        gone.as_slice() == row.gone,
        "{}, in pieces of {most}",
        row.shows
    );
    drop(gone);
    drop(far);
    let_go(end);
}

#[test]
fn each_row_goes_as_it_says(rt: HostRuntime) {
    for row in ROWS {
        for most in 1..=150 {
            play(&rt, rt.alloc(), row, most);
        }
    }
}
