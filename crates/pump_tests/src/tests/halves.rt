//! The halves of a pump, whose bytes are carried by other means than a link.

ghost use Rattle.std.specs.Prelude.{◌≡◌};

use super::ends::{End, link};
use crate::SETUP_BYTES;
use outside::After;
use pump::Brought;
use std::alloc::Global;
use std::process::Abort;
use std::sync::Wait;
use tape::{Blank, Tape};

/// A frame of 3 bytes, which has no whole header: rule 1 (RSocket 1.0, "Frame Header Format").
const SHORT: &[u8] = &[0, 0, 3, 1, 2, 3];

/// How many bytes the ERROR has that answers it: a length of 3 bytes, a header of 6, a code of 4,
/// and the 9 bytes of `bad-frame`.
const ERROR_BYTES: usize = 22;

// An end whose link does nothing.
fn idle<R: Abort + Wait, T: Tape>(rt: &R, alloc: Global, conn: u64, tape: T) -> End<T>
    requires empty { T.count tape ≡ 0 }
{
    let link = link(rt, alloc, &[], After::Lulls, 1, 0);
    End::new(rt, alloc, conn, link, 0, tape)
}

// Draws at most `most` bytes in a call, until nothing is queued.
fn drawn_by<R: Abort + Wait, T: Tape + Drop>(rt: &R, alloc: Global, tape: T, most: usize) -> Vec<u8>
    requires empty { T.count tape ≡ 0 }
{
    let mut end = idle(rt, alloc, 1, tape);
    let mut bytes = Vec::new(alloc);
    for _ in 0..SETUP_BYTES {
        let brought = end.draw(rt, most);
        assert!(rt; end.left() <= most);
        end.carry(rt, &mut bytes);
        if brought == Brought::Nothing {
            break;
        }
    }
    drop(end.close(rt));
    bytes
}

/// The most bytes of a draw, fewer than there are and one more.
const LENGTHS: &[usize] = &[1, 2, 30, 70, 71, 72];

#[test]
fn draws_of_any_length_draw_the_same_bytes(rt: HostRuntime) {
    let whole = drawn_by(&rt, rt.alloc(), Blank::new(), 1_000_000);
    assert!(rt; whole.len() == SETUP_BYTES as usize);
    for &most in LENGTHS {
        let bytes = drawn_by(&rt, rt.alloc(), Blank::new(), most);
        assert!(rt; bytes == whole);
        drop(bytes);
    }
    let none = drawn_by(&rt, rt.alloc(), Blank::new(), 0);
    assert!(rt; none.is_empty());
    drop(none);
    drop(whole);
}

// Nothing is drawn while drawn bytes are left.
fn draw_once<R: Abort + Wait, T: Tape>(rt: &R, alloc: Global, tape: T) -> T
    requires empty { T.count tape ≡ 0 }
{
    let mut end = idle(rt, alloc, 1, tape);
    assert!(rt; end.draw(rt, 10) == Brought::Noted);
    assert!(rt; end.left() == 10);
    assert!(rt; end.draw(rt, 10) == Brought::Nothing);
    assert!(rt; end.left() == 10);
    end.close(rt)
}

#[test]
fn nothing_is_drawn_while_bytes_are_left(rt: HostRuntime) {
    draw_once(&rt, rt.alloc(), Blank::new());
}

// What is fed comes once it is whole, and after bytes that are no frame nothing comes.
fn feed_in_parts<R: Abort + Wait, T: Tape>(rt: &R, alloc: Global, tape: T) -> T
    requires empty { T.count tape ≡ 0 }
{
    let mut end = idle(rt, alloc, 1, tape);
    let mut bytes = Vec::new(alloc);
    for byte in SHORT {
        assert!(rt; end.hear(rt) == Brought::Nothing);
        end.feed(rt, &[*byte]);
    }
    assert!(rt; end.hear(rt) == Brought::Noted);
    end.feed(rt, SHORT);
    assert!(rt; end.hear(rt) == Brought::Nothing);
    assert!(rt; end.draw(rt, 1_000) == Brought::Noted);
    end.carry(rt, &mut bytes);
    assert!(rt; bytes.len() == SETUP_BYTES as usize + ERROR_BYTES);
    drop(bytes);
    end.close(rt)
}

#[test]
fn what_is_fed_comes_once_it_is_whole(rt: HostRuntime) {
    feed_in_parts(&rt, rt.alloc(), Blank::new());
}

// Both halves of a pump of another connection are told which one is live.
fn stray<R: Abort + Wait, T: Tape>(rt: &R, alloc: Global, tape: T) -> T
    requires empty { T.count tape ≡ 0 }
{
    let mut end = idle(rt, alloc, 2, tape);
    assert!(rt; end.draw(rt, 1_000) == Brought::Displaced(1));
    end.feed(rt, SHORT);
    assert!(rt; end.hear(rt) == Brought::Displaced(1));
    assert!(rt; end.left() == 0);
    end.close(rt)
}

#[test]
fn another_connection_is_live(rt: HostRuntime) {
    stray(&rt, rt.alloc(), Blank::new());
}
