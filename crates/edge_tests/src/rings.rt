//! Trials of a ring: bytes and marks come in their order, across two threads too.

use ring::{Gone, Item, Mark, ROOM, Stop, compare, next, push, push_bytes, read_line};
use rtrb::RingBuffer;
use std::alloc::Global;
use std::process::Abort;
use std::sync::Wait;
use std::test::Fail;
use std::thread::{Threads, join};

/// How many lines cross between two threads, each with its mark: many times what a ring holds.
const LINES: u64 = 3_000;

fn push_lines<R: Wait>(rt: &R, producer: &mut rtrb::Producer<Item>) -> Result<(), Gone> {
    for _ in 0..LINES {
        push_bytes(rt, producer, b"four")?;
        push(rt, producer, Item::Mark(Mark::Line))?;
    }
    push(rt, producer, Item::Mark(Mark::End))
}

fn read_lines<R: Wait>(
    rt: &R,
    alloc: Global,
    consumer: &mut rtrb::Consumer<Item>,
) -> Result<u64, Stop> {
    let mut lines = 0u64;
    for _ in 0..=LINES {
        let mut line = Vec::new(alloc);
        match read_line(rt, consumer, &mut line)? {
            Mark::Line if line.as_slice() == b"four".as_slice() => lines = lines.saturating_add(1),
            _ => return Ok(lines),
        }
    }
    Ok(lines)
}

fn cross<R: Threads + Wait + Abort + Sync>(rt: &R, alloc: Global) -> Result<(), Fail> {
    let (mut producer, mut consumer) = RingBuffer::new(alloc, ROOM)?;
    let (pushed, read) = join(
        rt,
        || push_lines(rt, &mut producer),
        || read_lines(rt, alloc, &mut consumer),
    );
    assert!(rt; pushed == Ok(()));
    assert!(rt; read == Ok(LINES));
    Ok(())
}

#[test]
fn lines_cross_between_two_threads(rt: HostRuntime) -> Result<(), Fail> {
    cross(&rt, rt.alloc())
}

fn leave<R: Wait + Abort>(rt: &R, alloc: Global) -> Result<(), Fail> {
    let (mut producer, mut consumer) = RingBuffer::new(alloc, ROOM)?;
    assert!(rt; push(rt, &mut producer, Item::Byte(7)) == Ok(()));
    compare(&mut producer, &mut consumer);
    drop(producer);
    assert!(rt; next(rt, &mut consumer) == Ok(Item::Byte(7)));
    assert!(rt; next(rt, &mut consumer) == Err(Gone));
    let mut line = Vec::new(alloc);
    assert!(rt; read_line(rt, &mut consumer, &mut line) == Err(Stop::Gone));
    Ok(())
}

#[test]
fn an_end_that_left_is_told_after_what_it_pushed(rt: HostRuntime) -> Result<(), Fail> {
    leave(&rt, rt.alloc())
}
