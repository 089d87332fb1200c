//! Frames out of a stream that comes in pieces.

use crate::frames::decoded;
use rs_chunk::{Front, FrontView, Reader, frame_bytes, item_bytes, request_bytes, split_frame};
use rs_frame::{Frame, FrameRef, Request, spellable};
use std::alloc::Global;
use std::process::Abort;

// Whether a frame of the byte 7 is read, whose length comes in two pieces, and none before or after.
fn reads_pieces(rt: &impl Abort, reader: &mut Reader) -> bool {
    reader.feed(&[0, 0]).expect(rt, "there is memory");
    let is_part = matches!(reader.front(), Front::Part);
    reader.feed(&[1, 7, 0]).expect(rt, "there is memory");
    let Front::Whole(frame) = reader.front() else {
        return false;
    };
    let is_seven = frame == [7].as_slice();
    reader.pass();
    is_part && is_seven && matches!(reader.front(), Front::Part)
}

#[test]
fn a_length_cut_across_pieces_is_read(rt: HostRuntime) {
    let mut reader = Reader::new(rt.alloc(), 64);
    let is_read = reads_pieces(&rt, &mut reader);
    drop(reader);
    assert!(rt; is_read);
}

// Whether a frame of 65 bytes, which is too long, lies in front once the piece came.
fn is_too_long(rt: &impl Abort, reader: &mut Reader, piece: &[u8]) -> bool {
    reader.feed(piece).expect(rt, "there is memory");
    matches!(reader.front(), Front::TooLong(65))
}

#[test]
fn a_length_above_the_limit_is_told(rt: HostRuntime) {
    let mut reader = Reader::new(rt.alloc(), 64);
    let at_once = is_too_long(&rt, &mut reader, &[0, 0, 65]);
    let later = is_too_long(&rt, &mut reader, &[1, 2, 3]);
    drop(reader);
    assert!(rt; at_once && later);
}

/// What lies in front of a stream.
#[derive(Clone, Copy, PartialEq, Eq)]
enum InFront {
    Cancel(u32),
    OtherFrame,
    Wrong(u8),
    TooLong(u32),
    Part,
}

fn look(reader: &Reader) -> InFront {
    match reader.front_view() {
        FrontView::Frame(FrameRef::Cancel { stream }) => InFront::Cancel(stream),
        FrontView::Frame(_) => InFront::OtherFrame,
        FrontView::Wrong(rule) => InFront::Wrong(rule),
        FrontView::TooLong(length) => InFront::TooLong(length),
        FrontView::Part => InFront::Part,
    }
}

/// Bytes that came, and what lies in front of them where a frame may have 64 bytes.
const FRONTS: &[(&[u8], InFront)] = &[
    (b"\0\0\x06\0\0\0\x07\x24\0\0", InFront::Cancel(7)),
    (b"\0\0\x08\0\0\0\0\x30\0\x61\x62", InFront::OtherFrame),
    (b"\0\0\x07\0\0\0\x07\x24\0\0", InFront::Wrong(5)),
    (b"\0\0\x0a\0\0\0\x01\x20\0\0\0\0\0", InFront::Wrong(6)),
    (b"\0\0\x41", InFront::TooLong(65)),
    (b"\0\0\x06\0\0\0\x07\x24", InFront::Part),
    (b"\0\0", InFront::Part),
];

fn first(rt: &impl Abort, alloc: Global, bytes: &[u8]) -> InFront {
    let mut reader = Reader::new(alloc, 64);
    reader.feed(bytes).expect(rt, "there is memory");
    let first = look(&reader);
    drop(reader);
    first
}

#[test]
fn what_lies_in_front_is_seen(rt: HostRuntime) {
    for (bytes, front) in FRONTS {
        assert!(rt; first(&rt, rt.alloc(), bytes) == *front, "{bytes:?}");
    }
}

#[test]
fn a_frame_stands_after_its_length(rt: HostRuntime) {
    let mut out = Vec::new(rt.alloc());
    out.push(9).expect(&rt, "there is memory");
    let cancel = Frame::Cancel { stream: 1 };
    frame_bytes(&cancel, &mut out).expect(&rt, "there is memory");
    drop(cancel);
    let is_written = out.as_slice() == [9, 0, 0, 6, 0, 0, 0, 1, 0x24, 0].as_slice();
    drop(out);
    assert!(rt; is_written);
}

/// Items and requests whose messages are whole, after their lengths.
const WHOLE: &[&[u8]] = &[
    b"\0\0\x07\0\0\0\x01\x28\x20\x61",
    b"\0\0\x0b\0\0\0\x02\x29\x60\0\0\x01\x6d\x63",
    b"\0\0\x07\0\0\0\x03\x14\0\x68",
    b"\0\0\x0b\0\0\0\x01\x1c\x40\0\0\0\x05\x63",
];

// The frame, written from the parts of an item or a request.
fn of_parts(rt: &impl Abort, alloc: Global, frame: &Frame) -> Vec<u8> {
    let mut out = Vec::new(alloc);
    if !spellable(frame) {
        return out;
    }
    let written = match frame {
        Frame::Payload {
            stream,
            follows: false,
            complete,
            next: true,
            message,
        } => item_bytes(*stream, *complete, message, &mut out),
        Frame::Request(
            Request {
                stream,
                kind,
                follows: false,
                complete,
                initial,
                message,
            },
        ) => request_bytes(*stream, *kind, initial, *complete, message, &mut out),
        _ => Ok(()),
    };
    written.expect(rt, "there is memory");
    out
}

// Whether the frame after its length is written so again from its parts.
fn comes_back_of_parts(rt: &impl Abort, alloc: Global, bytes: &[u8]) -> bool {
    let Some((frame, _)) = split_frame(bytes) else {
        return false;
    };
    let frame = decoded(rt, alloc, frame);
    let out = of_parts(rt, alloc, &frame);
    drop(frame);
    let is_same = out.as_slice() == bytes;
    drop(out);
    is_same
}

#[test]
fn items_and_requests_are_written_from_their_parts(rt: HostRuntime) {
    for bytes in WHOLE {
        assert!(rt; comes_back_of_parts(&rt, rt.alloc(), bytes), "{bytes:?}");
    }
}
