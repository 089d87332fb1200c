//! A token once, and a session that is kept for its time.

use rs_wire::Blob;
use session_table::{AddFault, Sessions};
use std::alloc::Global;
use std::process::Abort;

fn token<R: Abort>(rt: &R, alloc: Global, text: &[u8]) -> Blob {
    Blob::from_slice(alloc, text).expect(rt, "there is memory")
}

fn add_twice<R: Abort>(rt: &R, alloc: Global) {
    let mut sessions = Sessions::new(alloc);
    assert!(rt; sessions.add(token(rt, alloc, b"tok1"), 3) == Ok(()));
    assert!(rt; sessions.add(token(rt, alloc, b"tok1"), 4) == Err(AddFault::Taken));
    assert!(rt; sessions.find(&token(rt, alloc, b"tok1")) == Some(3));
    assert!(rt; sessions.find(&token(rt, alloc, b"tok2")) == None);
}

#[test]
fn a_token_has_one_slot(rt: HostRuntime) {
    add_twice(&rt, rt.alloc());
}

fn keep_and_purge<R: Abort>(rt: &R, alloc: Global) {
    let mut sessions = Sessions::new(alloc);
    assert!(rt; sessions.add(token(rt, alloc, b"tok1"), 0) == Ok(()));
    assert!(rt; sessions.purge(60_000, 60_000) == 0);
    sessions.parted(0, 0);
    assert!(rt; sessions.purge(59_999, 60_000) == 0);
    sessions.rejoined(0);
    assert!(rt; sessions.purge(60_000, 60_000) == 0);
    sessions.parted(0, 0);
    assert!(rt; sessions.purge(60_000, 60_000) == 1);
    assert!(rt; sessions.find(&token(rt, alloc, b"tok1")) == None);
}

#[test]
fn a_session_that_parted_is_kept_for_its_time(rt: HostRuntime) {
    keep_and_purge(&rt, rt.alloc());
}
