//! Bytes counted by hand.

ghost use Rattle.rs_frame.specs.Spelling.{IsSpellable};

use rs_frame::{
    Frame, FrameFault, Request, decode, encode, grammar_laws, length, resumable, rule_number,
    spellable, stream, view,
};
use rs_wire::{Blob, Kind, Message};
use std::alloc::Global;
use std::process::Abort;

/// The frame that the bytes spell.
pub fn decoded(rt: &impl Abort, alloc: Global, bytes: &[u8]) -> Frame
    ensures { IsSpellable result }
{
    assert!(rt; bytes.len() <= 0xff_ffff);
    decode(alloc, bytes).expect(rt, "the bytes spell a frame")
}

/// For each rule its number, and bytes of which it is the least that they break.
const BROKEN: &[(u8, &[u8])] = &[
    (1, b"\0\0\0\x01\x20"),
    (2, b"\x80\0\0\x01\x24\0"),
    (3, b"\0\0\0\0\x24\0"),
    (4, b"\0\0\0\x01\x20\0\0\0"),
    (5, b"\0\0\0\x01\x24\0\0"),
    (6, b"\0\0\0\x01\x20\0\0\0\0\0"),
    (7, b"\0\0\0\0\x04\0\0\x01\0\0\0\0\x4e\x20\0\x01\x5f\x90"),
    (8, b"\0\0\0\x01\x29\x20\0\0\x05\x61"),
    (9, b"\0\0\0\0\x38\0\x80\0\0\0\0\0\0\0"),
];

fn number(alloc: Global, bytes: &[u8]) -> Option<u8> {
    if bytes.len() > 0xff_ffff {
        return None;
    }
    match decode(alloc, bytes).err() {
        Some(fault) => rule_number(fault),
        None => None,
    }
}

// The number of the rule, where the bytes are only looked at.
fn number_seen(bytes: &[u8]) -> Option<u8> {
    if bytes.len() > 0xff_ffff {
        return None;
    }
    match view(bytes) {
        Err(rule) => Some(rule),
        Ok(_) => None,
    }
}

#[test]
fn each_rule_is_named(rt: HostRuntime) {
    for (rule, bytes) in BROKEN {
        assert!(rt; number(rt.alloc(), bytes) == Some(*rule), "rule {rule}");
        assert!(rt; number_seen(bytes) == Some(*rule), "rule {rule}");
    }
    assert!(rt;
        rule_number(FrameFault::OutOfMemory).is_none(),
        "want of memory is no rule"
    );
}

/// The canonical bytes of each type, the usual SETUP first.
const CANONICAL: &[&[u8]] = &[
    b"\0\0\0\0\x04\0\0\x01\0\0\0\0\x4e\x20\0\x01\x5f\x90\
        \x18application/octet-stream\x18application/octet-stream",
    b"\0\0\0\0\x05\xc0\0\x01\0\0\0\0\0\x01\0\0\0\x02\0\x01\x74\0\x01\x61\0\0\x01\x6d\x63",
    b"\0\0\0\0\x09\0\0\0\0\x01\0\0\0\x02\x6d",
    b"\0\0\0\0\x0c\x80\0\0\0\0\0\0\0\x07\x63",
    b"\0\0\0\x01\x11\x80\0\0\x01\x6d\x63",
    b"\0\0\0\x03\x14\x80\x63",
    b"\0\0\0\x01\x14\0\x68\x69",
    b"\0\0\0\x01\x18\0\0\0\0\x05\x63",
    b"\0\0\0\x01\x1c\x40\x7f\xff\xff\xff",
    b"\0\0\0\x01\x20\0\0\0\0\x01",
    b"\x7f\xff\xff\xff\x24\0",
    b"\0\0\0\x02\x29\xe0\0\0\0",
    b"\0\0\0\0\x2c\0\xff\xff\xff\xff\x6f",
    b"\0\0\0\0\x31\0",
    b"\0\0\0\0\x34\0\0\x01\0\0\0\x01\x74\0\0\0\0\0\0\0\x08\0\0\0\0\0\0\0\x09",
    b"\0\0\0\0\x38\0\0\0\0\0\0\0\0\x10",
    b"\0\0\0\0\xff\xff\0\0\0\x09\x72",
    b"\0\0\0\x05\x82\x01\x72",
];

/// Bytes with flags that their type does not name, or without the one that it has, and the
/// canonical bytes of the same frame.
const OTHER_FLAGS: &[(&[u8], &[u8])] = &[
    (
        b"\0\0\0\x01\x2f\xff\0\0\0\x2a",
        b"\0\0\0\x01\x2c\0\0\0\0\x2a",
    ),
    (b"\0\0\0\0\x30\0\x61", b"\0\0\0\0\x31\0\x61"),
];

fn written(rt: &impl Abort, alloc: Global, frame: &Frame) -> Vec<u8> {
    let mut out = Vec::new(alloc);
    if spellable(frame) {
        encode(frame, &mut out).expect(rt, "there is memory");
    }
    out
}

fn has_length(frame: &Frame, count: usize) -> bool {
    spellable(frame) && length(frame) as usize == count
}

fn copied(rt: &impl Abort, alloc: Global, frame: &Frame) -> Frame {
    frame.copy(alloc).expect(rt, "there is memory")
}

// Whether the frame is the other, and is written as these bytes.
fn is_written_as(
    rt: &impl Abort,
    alloc: Global,
    frame: &Frame,
    other: &Frame,
    bytes: &[u8],
) -> bool {
    let written = written(rt, alloc, frame);
    let is_written = written.as_slice() == bytes;
    drop(written);
    is_written && *frame == *other && has_length(frame, bytes.len())
}

// Whether the bytes spell a frame whose copy is the same, and has these canonical bytes.
fn comes_back(rt: &impl Abort, alloc: Global, bytes: &[u8], canonical: &[u8]) -> bool {
    let frame = decoded(rt, alloc, bytes);
    let copy = copied(rt, alloc, &frame);
    let is_so = is_written_as(rt, alloc, &copy, &frame, canonical);
    drop(copy);
    drop(frame);
    is_so
}

#[test]
fn each_type_comes_back(rt: HostRuntime) {
    for bytes in CANONICAL {
        assert!(rt; comes_back(&rt, rt.alloc(), bytes, bytes), "{bytes:?}");
    }
    grammar_laws();
}

// Whether the frame that lies in the bytes is the one that they are read as.
fn lies_there(rt: &impl Abort, alloc: Global, bytes: &[u8]) -> bool {
    assert!(rt; bytes.len() <= 0xff_ffff);
    match view(bytes) {
        Ok(frame) => {
            let own = frame.to_frame(alloc).expect(rt, "there is memory");
            let read = decoded(rt, alloc, bytes);
            let is_same = own == read;
            drop(own);
            drop(read);
            is_same
        }
        Err(_) => false,
    }
}

#[test]
fn each_type_lies_in_its_bytes(rt: HostRuntime) {
    for bytes in CANONICAL {
        assert!(rt; lies_there(&rt, rt.alloc(), bytes), "{bytes:?}");
    }
}

#[test]
fn flags_that_are_not_named_are_not_read(rt: HostRuntime) {
    for (bytes, canonical) in OTHER_FLAGS {
        assert!(rt; comes_back(&rt, rt.alloc(), bytes, canonical), "{bytes:?}");
    }
}

/// Bytes, and what they say.
#[derive(Clone, Copy)]
struct Row {
    bytes: &'static [u8],
    says: &'static str,
    stream: u32,
    resumable: bool,
}

const READ: &[Row] = &[
    Row {
        bytes: b"\0\0\0\0\x04\0\0\x01\0\0\0\0\x4e\x20\0\x01\x5f\x90\
            \x18application/octet-stream\x18application/octet-stream",
        says: "Setup(Setup { resume: None, lease: false, major: 1, minor: 0, \
            keepalive: Amount { number: 20000 }, lifetime: Amount { number: 90000 }, \
            metadata_mime: Blob { bytes: [97, 112, 112, 108, 105, 99, 97, 116, 105, 111, 110, 47, \
            111, 99, 116, 101, 116, 45, 115, 116, 114, 101, 97, 109] }, \
            content_mime: Blob { bytes: [97, 112, 112, 108, 105, 99, 97, 116, 105, 111, 110, 47, \
            111, 99, 116, 101, 116, 45, 115, 116, 114, 101, 97, 109] }, \
            message: Message { metadata: None, content: Blob { bytes: [] } } })",
        stream: 0,
        resumable: false,
    },
    Row {
        bytes: b"\0\0\0\0\x08\0\0\0\0\0\0\0\0\0",
        says: "Lease { ttl: 0, count: 0, metadata: None }",
        stream: 0,
        resumable: false,
    },
    Row {
        bytes: b"\0\0\0\x01\x14\0\x68\x69",
        says: "Request(Request { stream: 1, kind: Fnf, follows: false, complete: false, \
            initial: None, message: Message { metadata: None, content: Blob { bytes: [104, 105] } } })",
        stream: 1,
        resumable: true,
    },
    Row {
        bytes: b"\0\0\0\x01\x2f\xff\0\0\0\x2a",
        says: "Error { stream: 1, code: 42, content: Blob { bytes: [] } }",
        stream: 1,
        resumable: true,
    },
    Row {
        bytes: b"\0\0\0\0\x34\0\0\x01\0\0\0\x01\x74\0\0\0\0\0\0\0\x08\0\0\0\0\0\0\0\x09",
        says: "Resume(Resume { major: 1, minor: 0, token: Blob { bytes: [116] }, \
            server_position: 8, client_position: 9 })",
        stream: 0,
        resumable: false,
    },
];

// Whether the frame is written so for a reader, and has the stream of the row.
fn says(rt: &impl Abort, alloc: Global, frame: &Frame, row: &Row) -> bool {
    let text = format!(in alloc; "{frame:?}").expect(rt, "there is memory");
    let is_text = text.as_str() == row.says;
    drop(text);
    is_text && stream(frame) == row.stream && resumable(frame) == row.resumable
}

#[test]
fn bytes_are_read_by_field(rt: HostRuntime) {
    for row in READ {
        let frame = decoded(&rt, rt.alloc(), row.bytes);
        let says = says(&rt, rt.alloc(), &frame, row);
        drop(frame);
        assert!(rt; says, "{}", row.says);
    }
}

#[test]
fn a_channel_has_an_initial_number(rt: HostRuntime) {
    let frame = Frame::Request(Request {
        stream: 1,
        kind: Kind::Channel,
        follows: false,
        complete: true,
        initial: None,
        message: Message {
            metadata: None,
            content: Blob::from_vec(Vec::new(rt.alloc())),
        },
    });
    let is_spellable = spellable(&frame);
    drop(frame);
    assert!(rt; !is_spellable);
}
