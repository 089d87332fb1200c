//! Frames as lines of text, and lines that are those of no frame.

use crate::frames::decoded;
use frame_text::{TextFault, line_of, read_line};
use rs_frame::encode;
use std::alloc::Global;
use std::process::Abort;

/// The canonical bytes of frames, and their lines.
const LINES: &[(&[u8], &[u8])] = &[
    (
        b"\0\0\0\0\x05\xc0\0\x01\0\0\0\0\0\x01\0\0\0\x02\0\x01\x74\x01\x61\0\0\0\x01\x6d\x63",
        b"SETUP 0 RL 1 0 1 2 74 61 . 6d 63",
    ),
    (b"\0\0\0\0\x09\0\0\0\0\x01\0\0\0\x02\x6d", b"LEASE 0 1 2 6d"),
    (b"\0\0\0\0\x08\0\0\0\0\x01\0\0\0\x02", b"LEASE 0 1 2 -"),
    (
        b"\0\0\0\0\x0c\x80\0\0\0\0\0\0\0\x07\xff",
        b"KEEPALIVE 0 R 7 ff",
    ),
    (b"\0\0\0\0\x31\0", b"METADATA_PUSH 0 ."),
    (
        b"\0\0\0\0\x34\0\0\x01\0\0\0\x01\x74\0\0\0\0\0\0\0\x08\0\0\0\0\0\0\0\x09",
        b"RESUME 0 1 0 74 8 9",
    ),
    (
        b"\0\0\0\0\x34\0\0\x01\0\0\0\0\0\0\0\0\0\0\0\x08\x7f\xff\xff\xff\xff\xff\xff\xff",
        b"RESUME 0 1 0 . 8 9223372036854775807",
    ),
    (
        b"\0\0\0\0\x38\0\x7f\xff\xff\xff\xff\xff\xff\xff",
        b"RESUME_OK 0 9223372036854775807",
    ),
    (b"\0\0\0\x01\x14\0\x68\x69", b"REQUEST_FNF 1 - - 6869"),
    (
        b"\0\0\0\x01\x11\x80\0\0\0\x63",
        b"REQUEST_RESPONSE 1 F . 63",
    ),
    (
        b"\0\0\0\x01\x18\0\0\0\0\x05\x63",
        b"REQUEST_STREAM 1 - 5 - 63",
    ),
    (
        b"\0\0\0\x01\x1c\xc0\x7f\xff\xff\xff",
        b"REQUEST_CHANNEL 1 FC 2147483647 - .",
    ),
    (b"\0\0\0\x01\x20\0\0\0\0\x01", b"REQUEST_N 1 1"),
    (b"\0\0\0\x01\x24\0", b"CANCEL 1"),
    (b"\0\0\0\x02\x29\xe0\0\0\0", b"PAYLOAD 2 FCN . ."),
    (b"\0\0\0\x02\x29\x60\0\0\0\x68\x69", b"PAYLOAD 2 CN . 6869"),
    (b"\0\0\0\0\x2c\0\0\0\x01\x01\x6f", b"ERROR 0 257 6f"),
    (b"\0\0\0\0\xff\xff\0\0\0\x09\x72", b"EXT 0 1023 9 72"),
    (b"\0\0\0\x05\x82\x01", b"UNKNOWN 5 32 513 ."),
];

/// Lines that are those of no frame, and the first wrong word of each.
const WRONG: &[(&[u8], TextFault)] = &[
    (b"REQUEST_FNF 0 - - 6869", TextFault::BadNumber(1)),
    (b"REQUEST_FNF 1 - - 686", TextFault::BadHex(4)),
    (b"CANCEL 1 2", TextFault::BadWord(2)),
    (b"CANCEL", TextFault::BadWord(1)),
    (b"", TextFault::BadWord(0)),
    (b"RESUME 0 1 0 - 8 9", TextFault::BadHex(4)),
    (b"UNKNOWN 1 9 0 .", TextFault::BadNumber(2)),
    // A token fits its flag.
    (b"SETUP 0 R 1 0 1 2 - . . - .", TextFault::BadWord(7)),
    (b"SETUP 0 L 1 0 1 2 74 . . - .", TextFault::BadWord(7)),
    (b"SETUP 0 - 1 0 1 2 7 . . - .", TextFault::BadHex(7)),
];

// Whether the line of the frame that the bytes spell is appended to a `>`.
fn is_shown(rt: &impl Abort, alloc: Global, bytes: &[u8], line: &[u8]) -> bool {
    let mut out = Vec::from_slice(alloc, b">").expect(rt, "there is memory");
    let frame = decoded(rt, alloc, bytes);
    line_of(&frame, &mut out).expect(rt, "there is memory");
    drop(frame);
    let is_shown = match out.as_slice() {
        [b'>', rest @ ..] => rest == line,
        _ => false,
    };
    drop(out);
    is_shown
}

// Whether the line is that of the frame with these canonical bytes.
fn is_read(rt: &impl Abort, alloc: Global, line: &[u8], bytes: &[u8]) -> bool {
    let mut out = Vec::new(alloc);
    let frame = read_line(alloc, line).expect(rt, "the line is that of a frame");
    encode(&frame, &mut out).expect(rt, "there is memory");
    drop(frame);
    let is_read = out.as_slice() == bytes;
    drop(out);
    is_read
}

#[test]
fn frames_and_lines_say_the_same(rt: HostRuntime) {
    for (bytes, line) in LINES {
        assert!(rt;
            is_shown(&rt, rt.alloc(), bytes, line),
            "to the line {line:?}"
        );
        assert!(rt;
            is_read(&rt, rt.alloc(), line, bytes),
            "from the line {line:?}"
        );
    }
}

#[test]
fn the_first_wrong_word_is_told(rt: HostRuntime) {
    for (line, fault) in WRONG {
        assert!(rt;
            read_line(rt.alloc(), line).err() == Some(*fault),
            "{line:?}"
        );
    }
}
