//! Ends that resume their session, and the token by which a server knows it.

ghost use Rattle.std.specs.Prelude.{◌≡◌, ◌<◌, ◌^◌, length};
ghost use Rattle.rs_wire.specs.declared.words.Side.TheVariants.{Client, Server};

use super::calls::SETUP;
use super::ends::{TOKEN, blob, close, connected, open, open_server};
use conn::{Caller, Connection};
use rs_wire::Side;
use std::alloc::Global;
use std::process::Abort;
use std::sync::Wait;
use tape::{Blank, Tape};

/// The SETUP of a client that resumes by the token `tok1`: R, and the token after its length of 4.
const RESUMING_SETUP: &[u8; 74] = b"\
    \x00\x00\x00\x00\x04\x80\x00\x01\x00\x00\x00\x00\x4e\x20\x00\x01\x5f\x90\
    \x00\x04tok1\
    \x18application/octet-stream\
    \x18application/octet-stream";

/// A token, and whether a server holds it whose client has the token `tok1`.
const TOKENS: [(&[u8], bool); 4] = [
    (TOKEN, true),
    (b"tok2", false),
    (b"tok", false),
    (b"", false),
];

// Stops the test where an end holds other tokens than those of the table: of a server whose client has
// none it is none.
fn check_tokens<R: Abort + Wait, T: Tape>(
    rt: &R,
    alloc: Global,
    connection: &Connection<T>,
    caller: &mut Caller<T>,
    has_token: bool,
)
    requires of { caller.old.of ≡ connection.now }
    ensures of { caller.new.of ≡ connection.now }
{
    for row in TOKENS {
        let (token, held) = row;
        let token = blob(rt, alloc, token);
        assert!(rt; connection.holds(rt, caller, &token) == (held && has_token));
    }
}

// A server that resumes, before and after a client opens it by this SETUP, with a token or without.
fn open_by<R: Abort + Wait, T: Tape>(
    rt: &R,
    alloc: Global,
    setup: &[u8],
    has_token: bool,
    tape: T,
) -> T
    requires empty { T.count tape ≡ 0 }
    requires short { length setup.now < 2 ^ 24 }
{
    let (server, mut caller) = connected(rt, alloc, Side::Server, true, tape);
    check_tokens(rt, alloc, &server, &mut caller, false);
    open_server(rt, alloc, &server, &mut caller, setup);
    check_tokens(rt, alloc, &server, &mut caller, has_token);
    close(rt, server, caller)
}

#[test]
fn a_server_holds_the_token_of_its_setup(rt: HostRuntime) {
    open_by(&rt, rt.alloc(), RESUMING_SETUP, true, Blank::new());
}

#[test]
fn a_server_without_a_token_holds_none(rt: HostRuntime) {
    open_by(&rt, rt.alloc(), SETUP, false, Blank::new());
}

// A client that resumes by a token: no SETUP comes to it.
fn hold_own<R: Abort + Wait, T: Tape>(rt: &R, alloc: Global, tape: T) -> T
    requires empty { T.count tape ≡ 0 }
{
    let (client, mut caller) = connected(rt, alloc, Side::Client, true, tape);
    open(rt, &client, &mut caller);
    assert!(rt; client.resumes());
    check_tokens(rt, alloc, &client, &mut caller, false);
    close(rt, client, caller)
}

#[test]
fn a_client_resumes_and_holds_no_token(rt: HostRuntime) {
    hold_own(&rt, rt.alloc(), Blank::new());
}

// An end with the usual settings does not resume its session.
fn check_usual<R: Abort, T: Tape>(rt: &R, alloc: Global, side: Side, tape: T) -> T
    requires empty { T.count tape ≡ 0 }
{
    let (connection, caller) = connected(rt, alloc, side, false, tape);
    assert!(rt; !connection.resumes());
    close(rt, connection, caller)
}

#[test]
fn a_usual_end_does_not_resume(rt: HostRuntime) {
    check_usual(&rt, rt.alloc(), Side::Client, Blank::new());
    check_usual(&rt, rt.alloc(), Side::Server, Blank::new());
}
