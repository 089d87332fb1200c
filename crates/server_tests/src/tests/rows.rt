//! Links as data: what comes on a link, and how it is served.

ghost use Rattle.std.specs.Prelude.{◌≡◌, length};
ghost use Rattle.rs_wire.specs.declared.words.Side.TheVariants.{Server};
ghost use Rattle.server.specs.Opening.{AreOf};

use super::slots::{PLAIN, Plan, Shared, link, serve};
use conn::{Caller, Connection};
use outside::After;
use server::Served;
use std::alloc::Global;
use std::process::Abort;
use std::sync::Wait;
use tape::Tape;

/// A SETUP of version 1.0 after its length, with a keepalive of 20,000 and a lifetime of 90,000
/// milliseconds, without a token and without leases.
pub const SETUP: &[u8] = b"\
    \x00\x00\x44\
    \x00\x00\x00\x00\x04\x00\x00\x01\x00\x00\x00\x00\x4e\x20\x00\x01\x5f\x90\
    \x18application/octet-stream\
    \x18application/octet-stream";

/// A link, and how it is served.
#[derive(Clone, Copy)]
pub struct Row {
    /// The server resumes, and has leases.
    pub resume: bool,
    pub lease: bool,
    /// What comes first, and what comes then.
    pub first: &'static [u8],
    pub then: &'static [u8],
    pub after: After,
    /// Which call of the link fails, from 1; with 0 none does.
    pub fails: u64,
    pub plan: Plan,
    pub served: Served,
    pub opened: Option<(u32, u64)>,
    /// How many bytes the link is given, and how they end.
    pub given: usize,
    pub end: &'static [u8],
}

/// A link to a server that neither resumes nor has leases, and that is not opened.
pub const REFUSED: Row = Row {
    resume: false,
    lease: false,
    first: b"",
    then: b"",
    after: After::Lulls,
    fails: 0,
    plan: PLAIN,
    served: Served::End,
    opened: None,
    given: 0,
    end: b"",
};

/// One that opens the first slot by a SETUP.
pub const OPENED: Row = Row {
    first: SETUP,
    opened: Some((0, 1)),
    ..REFUSED
};

/// Serves the link of the row, and compares.
pub fn play<R: Abort + Wait, T: Tape>(
    rt: &R,
    alloc: Global,
    connections: &[Connection<T>],
    callers: &mut [Caller<T>],
    shared: &Shared,
    row: &Row,
)
    requires of { AreOf shared.now.settings connections.now callers.old }
    requires server { shared.now.settings.side ≡ Server }
    requires three { length connections.now ≡ 3 }
    ensures of { AreOf shared.now.settings connections.now callers.new }
{
    let mut bytes = Vec::from_slice(alloc, row.first).expect(rt, "there is memory");
    assert!(rt; bytes.extend_from_slice(row.then).is_ok());
    let mut link = link(rt, alloc, &bytes, row.after, row.fails);
    assert!(rt; row.plan.slot < 3);
    serve(
        rt,
        alloc,
        connections,
        callers,
        shared,
        row.plan,
        &mut link,
        row.served,
        row.opened,
    );
    assert!(rt; link.given().len() == row.given);
    assert!(rt; link.given().ends_with(row.end));
}
