//! A peer that sends on while its frames find no room in the queue, and one that sends more items than
//! were let in.

ghost use Rattle.std.specs.Prelude.{◌≡◌};

use super::ends::{End, compare, link};
use outside::After;
use pump::Turned;
use rs_wire::{Cause, Rule};
use std::alloc::Global;
use std::process::Abort;
use std::sync::Wait;
use tape::{Blank, Tape};

/// How many bytes may be queued: the greatest frame, and as much again as a request of 1,024 bytes.
const OUT_ROOM: u64 = 16_778_239;

/// Two requests of these lengths fill the queue, with the 71 bytes of SETUP and a header of 9 bytes
/// each.
const FIRST: usize = 16_000_000;

const SECOND: usize = 778_150;

/// How many bytes one turn draws, and the request that fills the queue again.
const PIECE: usize = 16_384;

const AGAIN: usize = PIECE - 9;

/// A CANCEL of stream 2, which breaks no rule, nine times over (RSocket 1.0, "CANCEL Frame").
const CANCELS: &[u8] = &[
    0, 0, 6, 0, 0, 0, 2, 0x24, 0, //
    0, 0, 6, 0, 0, 0, 2, 0x24, 0, //
    0, 0, 6, 0, 0, 0, 2, 0x24, 0, //
];

/// The length of one.
const CANCEL: usize = 9;

// An end with a full queue, whose first piece is drawn.
fn full<R: Abort + Wait, T: Tape>(rt: &R, alloc: Global, tape: T) -> End<T>
    requires empty { T.count tape ≡ 0 }
{
    let link = link(rt, alloc, CANCELS, After::Lulls, 1, 0);
    let mut end = End::new(rt, alloc, 1, link, 0, tape);
    assert!(rt; end.ask(rt, alloc, FIRST) == Some(1));
    assert!(rt; end.ask(rt, alloc, SECOND) == Some(3));
    end.turn(rt);
    assert!(rt; end.left() == PIECE - 1);
    assert!(rt; end.ask(rt, alloc, AGAIN) == Some(5));
    end
}

// The first frame waits, and no byte is taken after it.
fn flood<R: Abort + Wait, T: Tape>(rt: &R, alloc: Global, tape: T) -> T
    requires empty { T.count tape ≡ 0 }
{
    let mut end = full(rt, alloc, tape);
    for _ in 2..CANCEL {
        compare(rt, end.turn(rt), Turned::Moved { given: 1, taken: 1 });
    }
    for _ in 0..100 {
        compare(rt, end.turn(rt), Turned::Busy(OUT_ROOM));
        assert!(rt; end.taken() == CANCEL);
    }
    end.close(rt)
}

#[test]
fn nothing_is_taken_while_a_frame_waits(rt: HostRuntime) {
    flood(&rt, rt.alloc(), Blank::new());
}

/// An item on stream 1 whose content is `b`, twice over (RSocket 1.0, "PAYLOAD Frame").
const TWO_ITEMS: &[u8] = &[
    0, 0, 7, 0, 0, 0, 1, 0x28, 0x20, 0x62, //
    0, 0, 7, 0, 0, 0, 1, 0x28, 0x20, 0x62, //
];

// The session is over at the second item, of which one was let in.
fn overdraw<R: Abort + Wait, T: Tape>(rt: &R, alloc: Global, tape: T) -> T
    requires empty { T.count tape ≡ 0 }
{
    let link = link(rt, alloc, TWO_ITEMS, After::Lulls, 100, 0);
    let mut end = End::new(rt, alloc, 1, link, 0, tape);
    assert!(rt; end.ask_item(rt, alloc) == Some(1));
    let over = Turned::Over(Cause::Broken(Rule::OverCredit(1)));
    compare(rt, end.run(rt, 10), over);
    end.close(rt)
}

#[test]
fn an_item_more_than_was_let_in_ends_the_session(rt: HostRuntime) {
    overdraw(&rt, rt.alloc(), Blank::new());
}
