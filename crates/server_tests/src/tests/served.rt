//! How links end that a server serves: by their first bytes, and by those after a SETUP.

use super::rows::{OPENED, REFUSED, Row, play};
use super::slots::{PLAIN, Plan, make_shared, slots};
use super::tokens::{RESUME, RESUMING_SETUP};
use outside::After;
use rs_wire::{Cause, Gone, Rule, SetupFault};
use server::Served;
use std::alloc::Global;
use std::process::Abort;
use std::sync::Wait;
use tape::{BlankShelf, KeptShelf, Shelf};

/// A SETUP of a client that asks for leases, and else as [`SETUP`].
const LEASING_SETUP: &[u8] = b"\
    \x00\x00\x44\
    \x00\x00\x00\x00\x04\x40\x00\x01\x00\x00\x00\x00\x4e\x20\x00\x01\x5f\x90\
    \x18application/octet-stream\
    \x18application/octet-stream";

/// A request of a response by the route `echo`, with the content `hi`, after its length.
const ECHO: &[u8] = b"\x00\x00\x0f\x00\x00\x00\x01\x11\x00\x00\x00\x04echohi";

/// The response to it.
const ECHOED: &[u8] = b"\x00\x00\x08\x00\x00\x00\x01\x28\x60hi";

/// A LEASE of 5 requests for 60,000 milliseconds.
const LEASE: &[u8] = b"\x00\x00\x0e\x00\x00\x00\x00\x08\x00\x00\x00\xea\x60\x00\x00\x00\x05";

const ROWS: &[Row] = &[
    // The first frame is a CANCEL: the ERROR has 19 bytes after its length.
    Row {
        first: b"\x00\x00\x06\x00\x00\x00\x01\x24\x00",
        served: Served::SetupRefused(SetupFault::NotFirst),
        given: 22,
        end: b"not-first",
        ..REFUSED
    },
    // A RESUME of a token that no session has.
    Row {
        resume: true,
        first: RESUME,
        served: Served::ResumeRefused(Gone::Token),
        given: 18,
        end: b"token",
        ..REFUSED
    },
    // A SETUP that asks for resumption, of a server without.
    Row {
        first: RESUMING_SETUP,
        served: Served::SetupRefused(SetupFault::NoResume),
        given: 22,
        end: b"no-resume",
        ..REFUSED
    },
    // A first frame of five bytes, which is none.
    Row {
        first: b"\x00\x00\x05\x00\x00\x00\x01\x24",
        then: b"\x00",
        served: Served::BadFirst(1),
        given: 22,
        end: b"bad-frame",
        ..REFUSED
    },
    // No first frame for the lifetime.
    Row {
        plan: Plan {
            moments: &[0, 90_000],
            ..PLAIN
        },
        served: Served::NoFirst(90_000),
        ..REFUSED
    },
    // Nothing after a SETUP for its lifetime: after the call began, the table was purged and the
    // session was opened, all at 0.
    Row {
        plan: Plan {
            moments: &[0, 0, 0, 90_000],
            ..PLAIN
        },
        served: Served::Dead(0),
        ..OPENED
    },
    // A SETUP that is cut off.
    Row {
        first: b"\x00\x00\x44\x00\x00",
        after: After::Ends,
        ..REFUSED
    },
    // A PAYLOAD too short for its row.
    Row {
        then: b"\x00\x00\x06\x00\x00\x00\x01\x04\x00",
        served: Served::Over(Cause::Broken(Rule::BadFrame(3))),
        given: 22,
        end: b"bad-frame",
        ..OPENED
    },
    // A frame of an unknown type that may be ignored, and one that may not.
    Row {
        then: b"\x00\x00\x06\x00\x00\x00\x01\x82\x00\x00\x00\x06\x00\x00\x00\x01\x80\x00",
        served: Served::Over(Cause::Broken(Rule::UnknownType(32))),
        given: 25,
        end: b"unknown-type",
        ..OPENED
    },
    // A request on a stream of the server's own ids.
    Row {
        then: b"\x00\x00\x06\x00\x00\x00\x02\x14\x00",
        served: Served::Over(Cause::Broken(Rule::StreamId(2))),
        given: 22,
        end: b"stream-id",
        ..OPENED
    },
    // A KEEPALIVE that tells a position above that of the frames made.
    Row {
        resume: true,
        first: RESUMING_SETUP,
        then: b"\x00\x00\x0e\x00\x00\x00\x00\x0c\x00\x00\x00\x00\x00\x00\x00\x00\x01",
        served: Served::Over(Cause::Broken(Rule::Ahead(0))),
        given: 18,
        end: b"ahead",
        ..OPENED
    },
    // The thread of the link answers a request.
    Row {
        then: ECHO,
        after: After::Ends,
        plan: Plan {
            works: true,
            ..PLAIN
        },
        given: 11,
        end: ECHOED,
        ..OPENED
    },
    // Requests are granted at once.
    Row {
        lease: true,
        first: LEASING_SETUP,
        after: After::Ends,
        plan: Plan { grant: 5, ..PLAIN },
        given: 17,
        end: LEASE,
        ..OPENED
    },
];

fn play_all<R: Abort + Wait, H: Shelf>(rt: &R, alloc: Global, shelf: &mut H)
where
    H::Tape: Drop,
{
    for row in ROWS {
        let shared = make_shared(rt, alloc, row.resume, row.lease);
        let (connections, mut callers) = slots(rt, alloc, shelf, row.resume, row.lease);
        play(rt, alloc, &connections, &mut callers, &shared, row);
    }
}

#[test]
fn links_end_as_their_bytes_say(rt: HostRuntime) {
    let alloc = rt.alloc();
    play_all(&rt, alloc, &mut KeptShelf::new(alloc));
    play_all(&rt, alloc, &mut BlankShelf::new(alloc));
}
