//! What carries bytes from one connection to another.

ghost use Rattle.std.specs.Prelude.{◌≡◌, IfSome};
ghost use Rattle.rs_frame.specs.Spelling.{IsSpellable};

use super::answers::{Wanted, drawn};
use super::ends::{bring, frame};
use conn::{Caller, Connection};
use rs_chunk::{Front, Reader};
use rs_frame::Frame;
use std::alloc::Global;
use std::process::Abort;
use std::sync::Wait;
use std::thread;
use tape::{Event, Tape};

/// How many bytes are drawn at once.
const ROOM: usize = 4096;

// The next whole frame, passed.
fn next_frame<R: Abort>(rt: &R, alloc: Global, reader: &mut Reader) -> Option<Frame>
    ensures { IfSome result IsSpellable }
{
    let Front::Whole(bytes) = reader.front() else {
        return None;
    };
    assert!(rt; bytes.len() < 1 << 24);
    let next = frame(rt, alloc, bytes);
    reader.pass();
    Some(next)
}

// Brings each whole frame.
fn bring_all<R: Abort + Wait, T: Tape>(
    rt: &R,
    alloc: Global,
    to: &Connection<T>,
    bringer: &mut Caller<T>,
    reader: &mut Reader,
)
    requires of { bringer.old.of ≡ to.now }
    ensures of { bringer.new.of ≡ to.now }
{
    for _ in rt.forever() {
        match next_frame(rt, alloc, reader) {
            None => return,
            Some(frame) => bring(rt, to, bringer, Event::arrived(1, frame), Wanted::Handled),
        }
    }
    unreachable!()
}

// Draws some bytes into the reader: how many, 0 where none are due.
fn draw_some<R: Abort + Wait, T: Tape>(
    rt: &R,
    from: &Connection<T>,
    drawer: &mut Caller<T>,
    reader: &mut Reader,
) -> u32
    requires of { drawer.old.of ≡ from.now }
    ensures of { drawer.new.of ≡ from.now }
{
    let mut buffer = [0; ROOM];
    let count = drawn(from.draw(rt, drawer, 1, &mut buffer));
    let piece = buffer.get(..count as usize).expect(rt, "within the buffer");
    reader.feed(piece).expect(rt, "there is memory");
    count
}

/// Carries the bytes that are due at one connection to another one.
pub fn carry<R: Abort + Wait, T: Tape>(
    rt: &R,
    alloc: Global,
    from: &Connection<T>,
    drawer: &mut Caller<T>,
    to: &Connection<T>,
    bringer: &mut Caller<T>,
    reader: &mut Reader,
)
    requires from { drawer.old.of ≡ from.now }
    requires to { bringer.old.of ≡ to.now }
    ensures from { drawer.new.of ≡ from.now }
    ensures to { bringer.new.of ≡ to.now }
{
    if draw_some(rt, from, drawer, reader) > 0 {
        bring_all(rt, alloc, to, bringer, reader);
    } else {
        thread::yield_now();
    }
}
