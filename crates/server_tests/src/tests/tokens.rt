//! Sessions that are resumed by their tokens.

ghost use Rattle.std.specs.Prelude.{◌≡◌, length};
ghost use Rattle.rs_wire.specs.declared.words.Side.TheVariants.{Server};
ghost use Rattle.server.specs.Opening.{AreOf};

use super::rows::{self, Row, play};
use super::slots::{PLAIN, Plan, Shared, blob, make_shared, slots};
use conn::{Caller, Connection};
use outside::After;
use rs_wire::{Gone, SetupFault};
use server::Served;
use std::alloc::Global;
use std::process::Abort;
use std::sync::Wait;
use tape::{BlankShelf, KeptShelf, Shelf, Tape};

/// A SETUP of version 1.0 after its length, with a keepalive of 20,000 and a lifetime of 90,000
/// milliseconds, of a client that resumes by the token `tok1`.
pub const RESUMING_SETUP: &[u8] = b"\
    \x00\x00\x4a\
    \x00\x00\x00\x00\x04\x80\x00\x01\x00\x00\x00\x00\x4e\x20\x00\x01\x5f\x90\
    \x00\x04tok1\
    \x18application/octet-stream\
    \x18application/octet-stream";

/// A RESUME of version 1.0 after its length, by the token `tok1`, of a client to which nothing came
/// and that has all it made: both positions are 0.
pub const RESUME: &[u8] = b"\
    \x00\x00\x20\
    \x00\x00\x00\x00\x34\x00\x00\x01\x00\x00\
    \x00\x04tok1\
    \x00\x00\x00\x00\x00\x00\x00\x00\
    \x00\x00\x00\x00\x00\x00\x00\x00";

/// The same by the token `tok2`.
const OTHER_RESUME: &[u8] = b"\
    \x00\x00\x20\
    \x00\x00\x00\x00\x34\x00\x00\x01\x00\x00\
    \x00\x04tok2\
    \x00\x00\x00\x00\x00\x00\x00\x00\
    \x00\x00\x00\x00\x00\x00\x00\x00";

/// A fire-and-forget with the content `hi`, after its length.
const FNF: &[u8] = b"\x00\x00\x08\x00\x00\x00\x01\x14\x00hi";

/// How many calls the link of a SETUP and a fire-and-forget gets before it ends.
const CALLS: u64 = 7;

/// A link to a server that resumes, which then ends.
const REFUSED: Row = Row {
    resume: true,
    after: After::Ends,
    ..rows::REFUSED
};

/// A SETUP with `tok1`: its link is given nothing.
const BEGUN: Row = Row {
    first: RESUMING_SETUP,
    served: Served::Parted,
    opened: Some((0, 1)),
    ..REFUSED
};

/// A SETUP with the token of another slot's session. The ERROR has 21 bytes after its length.
const TAKEN: Row = Row {
    first: RESUMING_SETUP,
    served: Served::SetupRefused(SetupFault::TokenTaken),
    given: 24,
    end: b"token-taken",
    ..REFUSED
};

/// A RESUME that is accepted. The RESUME_OK has 14 bytes after its length, and says at their end how
/// many bytes of frames were handled.
const RESUMED: Row = Row {
    first: RESUME,
    served: Served::Parted,
    given: 17,
    ..REFUSED
};

/// The same at the slot of [`BEGUN`], after a fire-and-forget of 8 bytes.
const RESUMED_AFTER_FNF: Row = Row {
    plan: Plan { slot: 1, ..PLAIN },
    opened: Some((0, 2)),
    end: b"\x00\x08",
    ..RESUMED
};

/// A RESUME of a token that no session has. The ERROR has 15 bytes after its length.
const UNKNOWN: Row = Row {
    first: RESUME,
    served: Served::ResumeRefused(Gone::Token),
    given: 18,
    end: b"token",
    ..REFUSED
};

// The link of a SETUP and a fire-and-forget, which fails at this call. The first call takes both
// frames: where it fails no SETUP came.
fn failing(call: u64) -> Row {
    let (served, opened) = if call == 1 {
        (Served::LinkFault, None)
    } else {
        (Served::Parted, BEGUN.opened)
    };
    Row {
        then: FNF,
        fails: call,
        served,
        opened,
        ..BEGUN
    }
}

// The link that asks then to resume.
fn resuming(call: u64) -> Row {
    if call == 1 {
        UNKNOWN
    } else {
        RESUMED_AFTER_FNF
    }
}

fn fail_and_resume<R: Abort + Wait, T: Tape>(
    rt: &R,
    alloc: Global,
    connections: &[Connection<T>],
    callers: &mut [Caller<T>],
    shared: &Shared,
    call: u64,
)
    requires of { AreOf shared.now.settings connections.now callers.old }
    requires server { shared.now.settings.side ≡ Server }
    requires three { length connections.now ≡ 3 }
{
    play(rt, alloc, connections, callers, shared, &failing(call));
    play(rt, alloc, connections, callers, shared, &resuming(call));
}

fn fail_at_each_call<R: Abort + Wait, H: Shelf>(rt: &R, alloc: Global, shelf: &mut H)
where
    H::Tape: Drop,
{
    for call in 0..CALLS {
        let shared = make_shared(rt, alloc, true, false);
        let (connections, mut callers) = slots(rt, alloc, shelf, true, false);
        fail_and_resume(rt, alloc, &connections, &mut callers, &shared, call);
    }
}

#[test]
fn a_link_that_fails_at_any_call_is_resumed_where_its_setup_came(rt: HostRuntime) {
    let alloc = rt.alloc();
    fail_at_each_call(&rt, alloc, &mut KeptShelf::new(alloc));
    fail_at_each_call(&rt, alloc, &mut BlankShelf::new(alloc));
}

/// One token, on the links of three slots, one after the other.
const SHARED: &[Row] = &[
    Row {
        plan: Plan { slot: 1, ..PLAIN },
        opened: Some((1, 1)),
        ..BEGUN
    },
    // Another session can't have it, whether its slot is before or after.
    TAKEN,
    Row {
        plan: Plan { slot: 2, ..PLAIN },
        ..TAKEN
    },
    // It is resumed at its own slot, from any.
    Row {
        plan: Plan { slot: 2, ..PLAIN },
        opened: Some((1, 2)),
        end: b"\x00\x00",
        ..RESUMED
    },
    // A minute later the session is forgotten.
    Row {
        plan: Plan {
            moments: &[0, 60_000],
            ..PLAIN
        },
        ..UNKNOWN
    },
];

fn share_token<R: Abort + Wait, T: Tape>(
    rt: &R,
    alloc: Global,
    connections: &[Connection<T>],
    callers: &mut [Caller<T>],
    shared: &Shared,
)
    requires of { AreOf shared.now.settings connections.now callers.old }
    requires server { shared.now.settings.side ≡ Server }
    requires three { length connections.now ≡ 3 }
{
    for row in SHARED {
        play(rt, alloc, connections, callers, shared, row);
    }
    assert!(rt; shared.table.lock(rt).find(&blob(rt, alloc, b"tok1")) == None);
}

fn share_on<R: Abort + Wait, H: Shelf>(rt: &R, alloc: Global, shelf: &mut H)
where
    H::Tape: Drop,
{
    let shared = make_shared(rt, alloc, true, false);
    let (connections, mut callers) = slots(rt, alloc, shelf, true, false);
    share_token(rt, alloc, &connections, &mut callers, &shared);
}

#[test]
fn a_token_has_one_session(rt: HostRuntime) {
    let alloc = rt.alloc();
    share_on(&rt, alloc, &mut KeptShelf::new(alloc));
    share_on(&rt, alloc, &mut BlankShelf::new(alloc));
}

// The table has one session, of `tok1` at this slot, which parted at this moment.
fn compare_table<R: Abort + Wait>(rt: &R, alloc: Global, shared: &Shared, slot: u32, parted: u64) {
    let mut sessions = shared.table.lock(rt);
    assert!(rt; sessions.find(&blob(rt, alloc, b"tok1")) == Some(slot));
    assert!(rt; sessions.find(&blob(rt, alloc, b"tok2")) == None);
    assert!(rt; sessions.purge(parted.saturating_add(59_999), 60_000) == 0);
    assert!(rt; sessions.purge(parted.saturating_add(60_000), 60_000) == 1);
}

/// A link that begins the session of `tok1`, and one a while later that asks for another session.
struct Other {
    first: Row,
    later: Row,
    /// When the session of `tok1` parted.
    parted: u64,
}

/// A RESUME of a session that there is not.
const OTHER: Row = Row {
    first: OTHER_RESUME,
    ..UNKNOWN
};

const OTHERS: &[Other] = &[
    Other {
        first: Row {
            plan: Plan { slot: 1, ..PLAIN },
            opened: Some((1, 1)),
            ..BEGUN
        },
        later: Row {
            plan: Plan {
                moments: &[0, 30_000],
                ..PLAIN
            },
            ..OTHER
        },
        parted: 0,
    },
    // The call begins, the table is purged and the session is opened at 0. Its peer is dead at 90,000.
    Other {
        first: Row {
            after: After::Lulls,
            plan: Plan {
                slot: 1,
                moments: &[0, 0, 0, 90_000],
                ..PLAIN
            },
            served: Served::Dead(0),
            opened: Some((1, 1)),
            ..BEGUN
        },
        later: Row {
            plan: Plan {
                moments: &[91_000],
                ..PLAIN
            },
            ..OTHER
        },
        parted: 90_000,
    },
];

// A RESUME of another session leaves the table as it was.
fn ask_for_another<R: Abort + Wait, T: Tape>(
    rt: &R,
    alloc: Global,
    connections: &[Connection<T>],
    callers: &mut [Caller<T>],
    shared: &Shared,
    row: &Other,
)
    requires of { AreOf shared.now.settings connections.now callers.old }
    requires server { shared.now.settings.side ≡ Server }
    requires three { length connections.now ≡ 3 }
{
    play(rt, alloc, connections, callers, shared, &row.first);
    play(rt, alloc, connections, callers, shared, &row.later);
    compare_table(rt, alloc, shared, 1, row.parted);
}

fn ask_on<R: Abort + Wait, H: Shelf>(rt: &R, alloc: Global, shelf: &mut H)
where
    H::Tape: Drop,
{
    for row in OTHERS {
        let shared = make_shared(rt, alloc, true, false);
        let (connections, mut callers) = slots(rt, alloc, shelf, true, false);
        ask_for_another(rt, alloc, &connections, &mut callers, &shared, row);
    }
}

#[test]
fn a_resume_of_no_session_leaves_the_table_as_it_was(rt: HostRuntime) {
    let alloc = rt.alloc();
    ask_on(&rt, alloc, &mut KeptShelf::new(alloc));
    ask_on(&rt, alloc, &mut BlankShelf::new(alloc));
}
