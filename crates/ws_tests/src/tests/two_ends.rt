//! Two links over one stream in memory.

use super::stream::{End, end_over, give, let_go, streams, take};
use outside::{Given, Link, Taken};
use std::alloc::Global;
use std::process::Abort;
use tungstenite::Role;

// A client and a server over a stream that keeps so many bytes in each direction.
fn two_ends<R: Abort>(rt: &R, alloc: Global, room: usize) -> (End, End) {
    let (near, far) = streams(rt, alloc, room);
    (
        end_over(rt, alloc, Role::Client, near),
        end_over(rt, alloc, Role::Server, far),
    )
}

/// Frames of 68 bytes, as a SETUP has, of 8 and of none.
const FRAMES: &[u8] = b"\
    \x00\x00\x44\
    The stream frames that each end has handled are a prefix of those ..\
    \x00\x00\x08requests\
    \x00\x00\x00";

/// How many bytes a stream keeps, and whether a give stalls by that: all of the frames, and less than
/// one of them.
const ROOMS: [(usize, bool); 2] = [(4096, false), (20, true)];

// Gives the next bytes, 7 at most, or takes, so that what waits in the socket goes. How many bytes
// were given, and whether it stalled.
fn push<L: Link>(link: &mut L, left: &[u8]) -> (usize, bool) {
    let piece = &left[..left.len().min(7)];
    if piece.is_empty() {
        let mut buffer = [0; 1];
        link.take(&mut buffer);
        return (0, false);
    }
    match link.give(piece) {
        Given::Took(count) => (count, false),
        Given::Lull => (0, true),
        Given::Failed => (0, false),
    }
}

// Takes once, and appends what was taken.
fn pull<R: Abort, L: Link>(rt: &R, link: &mut L, taken: &mut Vec<u8>) {
    let mut buffer = [0; 50];
    if let Taken::Took(count) = link.take(&mut buffer) {
        taken
            .extend_from_slice(&buffer[..count])
            .expect(rt, "there is memory");
    }
}

// Carries the frames from one end to the other. Whether a give stalled.
fn carry<R: Abort, A: Link, B: Link>(rt: &R, alloc: Global, from: &mut A, to: &mut B) -> bool {
    let mut taken = Vec::new(alloc);
    let mut given = 0;
    let mut stalled = false;
    for _ in 0..10_000 {
        if taken.len() >= FRAMES.len() {
            break;
        }
        let (count, stalls) = push(from, FRAMES.get(given..).unwrap_or(&[]));
        given = given.saturating_add(count);
        stalled = stalled || stalls;
        pull(rt, to, &mut taken);
    }
    assert!(rt; taken.as_slice() == FRAMES);
    drop(taken);
    stalled
}

fn cross<R: Abort>(rt: &R, alloc: Global, room: usize, stalls: bool) {
    let (mut client, mut server) = two_ends(rt, alloc, room);
    assert!(rt; carry(rt, alloc, &mut client, &mut server) == stalls, "up");
    assert!(rt;
        carry(rt, alloc, &mut server, &mut client) == stalls,
        "down"
    );
    let_go(client);
    let_go(server);
}

#[test]
fn frames_cross_though_the_stream_keeps_few_bytes(rt: HostRuntime) {
    for (room, stalls) in ROOMS {
        cross(&rt, rt.alloc(), room, stalls);
    }
}

// The client sent a frame and a close: the server takes both, and then both are over.
fn end_both<R: Abort, A: Link, B: Link>(rt: &R, client: &mut A, server: &mut B) {
    let mut buffer = [0; 8];
    take(rt, server, &mut buffer, Taken::Took(4));
    take(rt, server, &mut buffer, Taken::End);
    take(rt, client, &mut buffer, Taken::End);
    give(rt, server, b"\x00", Given::Failed);
    give(rt, client, b"\x00", Given::Failed);
}

#[test]
fn a_close_ends_both_ends(rt: HostRuntime) {
    let (mut client, mut server) = two_ends(&rt, rt.alloc(), 4096);
    give(&rt, &mut client, b"\x00\x00\x01\x2a", Given::Took(4));
    client.close();
    end_both(&rt, &mut client, &mut server);
    let_go(client);
    let_go(server);
}
