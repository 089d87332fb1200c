//! Short gives, and links that fail.

ghost use Rattle.std.specs.Prelude.{◌≡◌, ◌<◌};

use super::ends::{End, compare, link};
use crate::SETUP_BYTES;
use outside::After;
use pump::Turned;
use std::alloc::Global;
use std::process::Abort;
use std::sync::Wait;
use tape::{Blank, Tape};

// The SETUP as a link is given it, `most` bytes in a call, until nothing is left to move.
fn give_all<R: Abort + Wait, T: Tape + Drop>(rt: &R, alloc: Global, tape: T, most: u32) -> Vec<u8>
    requires some { 0 < most }
    requires empty { T.count tape ≡ 0 }
{
    let link = link(rt, alloc, &[], After::Lulls, most, 0);
    let mut end = End::new(rt, alloc, 1, link, 0, tape);
    compare(rt, end.run(rt, 2), Turned::Lull);
    assert!(rt; end.left() == 0);
    let given = Vec::from_slice(alloc, end.given()).expect(rt, "there is memory");
    drop(end.close(rt));
    given
}

// Each length of a give, up to the whole draw, gives the link the same bytes.
#[test]
fn a_short_give_of_any_length_loses_nothing(rt: HostRuntime) {
    let whole = give_all(&rt, rt.alloc(), Blank::new(), SETUP_BYTES);
    assert!(rt; whole.len() == SETUP_BYTES as usize);
    assert!(rt; whole.starts_with(&[0, 0, 68, 0, 0, 0, 0, 4]));
    for most in 1..SETUP_BYTES {
        let pieces = give_all(&rt, rt.alloc(), Blank::new(), most);
        assert!(rt; pieces == whole);
        drop(pieces);
    }
    drop(whole);
}

/// The most bytes of one call of a link that fails.
const PIECE: u32 = 30;

/// A call of the link that fails, and how many bytes were given by then. The first three turns give
/// 30, 30 and 11 bytes, and each takes then. The fourth and the fifth have nothing to give: they
/// take alone and lull, and that was the run. There is no ninth call.
const FAILS: &[(u64, usize, Turned)] = &[
    (1, 0, Turned::LinkFault),
    (2, 30, Turned::LinkFault),
    (3, 30, Turned::LinkFault),
    (4, 60, Turned::LinkFault),
    (5, 60, Turned::LinkFault),
    (6, 71, Turned::LinkFault),
    (7, 71, Turned::LinkFault),
    (8, 71, Turned::LinkFault),
    (9, 71, Turned::Lull),
];

// What was drawn and not given is left.
fn fail_at<R: Abort + Wait, T: Tape>(
    rt: &R,
    alloc: Global,
    tape: T,
    call: u64,
    given: usize,
    wanted: Turned,
) -> T
    requires empty { T.count tape ≡ 0 }
{
    let link = link(rt, alloc, &[], After::Lulls, PIECE, call);
    let mut end = End::new(rt, alloc, 1, link, 0, tape);
    compare(rt, end.run(rt, 2), wanted);
    assert!(rt; end.given().len() == given);
    assert!(rt; end.left().saturating_add(given) == SETUP_BYTES as usize);
    end.close(rt)
}

#[test]
fn a_link_that_fails_at_any_call_is_a_fault(rt: HostRuntime) {
    for &(call, given, wanted) in FAILS {
        fail_at(&rt, rt.alloc(), Blank::new(), call, given, wanted);
    }
}
