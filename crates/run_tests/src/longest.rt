//! The longest frames and their lines, in both directions.

use crate::ended::{BACK, FRAMES, writes};
use byteorder::{BigEndian, ByteOrder};
use std::alloc::Global;
use std::sync::Wait;
use std::test::Fail;
use std::thread::Threads;

// Appends a frame after its length of 3 bytes.
fn put_framed(out: &mut Vec<u8>, frame: &[u8]) -> Result<(), Fail> {
    if frame.len() > 0xff_ffff {
        return Err(Fail::from("the frame has a length of 24 bits"));
    }
    let mut length = [0; 3];
    BigEndian::write_u24(&mut length, frame.len() as u32);
    out.extend_from_slice(&length)?;
    out.extend_from_slice(frame)?;
    Ok(())
}

// Appends a blob of so many bytes 0xab to the bytes, and its digits to the line.
fn put_many(bytes: &mut Vec<u8>, line: &mut Vec<u8>, count: u32) -> Result<(), Fail> {
    for _ in 0..count {
        bytes.push(0xab)?;
        line.extend_from_slice(b"ab")?;
    }
    Ok(())
}

fn goes_and_comes<R: Threads + Wait + Sync>(
    rt: &R,
    alloc: Global,
    frame: &[u8],
    line: &mut Vec<u8>,
) -> Result<bool, Fail> {
    let mut bytes = Vec::new(alloc);
    put_framed(&mut bytes, frame)?;
    line.push(b'\n')?;
    Ok(writes(rt, alloc, FRAMES, &bytes, line)? && writes(rt, alloc, BACK, line, &bytes)?)
}

#[test]
fn the_longest_content_comes_back(rt: HostRuntime) -> Result<(), Fail> {
    let mut frame = Vec::from_slice(rt.alloc(), &[0, 0, 0, 1, 0x28, 0])?;
    let mut line = Vec::from_slice(rt.alloc(), b"PAYLOAD 1 - - ")?;
    put_many(&mut frame, &mut line, 0xff_ffff - 6)?;
    assert!(rt; goes_and_comes(&rt, rt.alloc(), &frame, &mut line)?);
    Ok(())
}

#[test]
fn the_longest_metadata_comes_back(rt: HostRuntime) -> Result<(), Fail> {
    let mut frame = Vec::from_slice(rt.alloc(), &[0, 0, 0, 1, 0x29, 0, 0xff, 0xff, 0xf6])?;
    let mut line = Vec::from_slice(rt.alloc(), b"PAYLOAD 1 - ")?;
    put_many(&mut frame, &mut line, 0xff_ffff - 9)?;
    line.extend_from_slice(b" .")?;
    assert!(rt; goes_and_comes(&rt, rt.alloc(), &frame, &mut line)?);
    Ok(())
}

#[test]
fn the_longest_names_come_back(rt: HostRuntime) -> Result<(), Fail> {
    let head = [
        0, 0, 0, 0, 4, 0x80, 0, 1, 0, 0, 0, 0, 0, 1, 0, 0, 0, 2, 0xff, 0xff,
    ];
    let mut frame = Vec::from_slice(rt.alloc(), &head)?;
    let mut line = Vec::from_slice(rt.alloc(), b"SETUP 0 R 1 0 1 2 ")?;
    put_many(&mut frame, &mut line, 0xffff)?;
    for _ in 0..2 {
        frame.push(0xff)?;
        line.push(b' ')?;
        put_many(&mut frame, &mut line, 0xff)?;
    }
    line.extend_from_slice(b" - .")?;
    assert!(rt; goes_and_comes(&rt, rt.alloc(), &frame, &mut line)?);
    Ok(())
}
