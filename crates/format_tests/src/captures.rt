//! Captures as bytes and as lines.

use capture::{BadFrame, CaptureFault, LineFault, from_lines, to_lines};
use rs_frame::FrameFault;
use std::alloc::Global;
use std::process::Abort;

/// Bytes, the first bad frame in them, and their lines.
const READ: &[(&[u8], Option<CaptureFault>, &[u8])] = &[
    (b"", None, b""),
    // REQUEST_N of stream 1 with 2,147,483,647.
    (
        b"\0\0\x0a\0\0\0\x01\x20\0\x7f\xff\xff\xff",
        None,
        b"REQUEST_N 1 2147483647\n",
    ),
    // CANCEL of stream 2, with a flag that no row names.
    (b"\0\0\x06\0\0\0\x02\x24\x01", None, b"CANCEL 2\n"),
    // The least broken rule is named.
    (
        b"\0\0\x05\0\0\0\x01\x20",
        Some(CaptureFault::Frame {
            place: 0,
            bad: BadFrame::Breaks(FrameFault::ShortHeader),
        }),
        b"",
    ),
    (
        b"\0\0\x0a\0\0\0\x01\x20\0\0\0\0\0",
        Some(CaptureFault::Frame {
            place: 0,
            bad: BadFrame::Breaks(FrameFault::ZeroNumber),
        }),
        b"",
    ),
    // A capture may end within a frame.
    (
        b"\0\0\x08\0\0",
        Some(CaptureFault::Frame {
            place: 0,
            bad: BadFrame::NotWhole,
        }),
        b"",
    ),
    (
        b"\0\0",
        Some(CaptureFault::Frame {
            place: 0,
            bad: BadFrame::NotWhole,
        }),
        b"",
    ),
    // The lines before a wrong frame, here one of no bytes, are appended.
    (
        b"\0\0\x0a\0\0\0\x01\x20\0\0\0\0\x05\0\0\x06\0\0\0\x02\x24\0",
        None,
        b"REQUEST_N 1 5\nCANCEL 2\n",
    ),
    (
        b"\0\0\x0a\0\0\0\x01\x20\0\0\0\0\x05\0\0\x06\0\0\0\x02\x24\0\
            \0\0\0\0\0\x06\0\0\0\x02\x24\0",
        Some(CaptureFault::Frame {
            place: 22,
            bad: BadFrame::Breaks(FrameFault::ShortHeader),
        }),
        b"REQUEST_N 1 5\nCANCEL 2\n",
    ),
];

/// A text, its first wrong line, and the bytes of its frames.
const WRITTEN: &[(&[u8], Option<LineFault>, &[u8])] = &[
    // A line gives its frame after its length.
    (
        b"REQUEST_FNF 1 - - 6869\n",
        None,
        b"\0\0\x08\0\0\0\x01\x14\0\x68\x69",
    ),
    // The last line feed may be missing.
    (b"CANCEL 1", None, b"\0\0\x06\0\0\0\x01\x24\0"),
    (b"", None, b""),
    // An empty line is wrong, and a wrong line leaves what stood there.
    (b"CANCEL 1\n\nCANCEL 1\n", Some(LineFault::Line(2)), b""),
    (b"CANCEL 1\nCANCEL 01\n", Some(LineFault::Line(2)), b""),
];

// Whether the bytes after the first are these.
fn is_rest(whole: &[u8], wanted: &[u8]) -> bool {
    match whole {
        [b'#', rest @ ..] => rest == wanted,
        _ => false,
    }
}

// The first bad frame in the bytes, and whether these lines are appended.
fn shown(
    rt: &impl Abort,
    alloc: Global,
    bytes: &[u8],
    lines: &[u8],
) -> (Option<CaptureFault>, bool) {
    let mut out = Vec::from_slice(alloc, b"#").expect(rt, "there is memory");
    let fault = to_lines(alloc, bytes, &mut out).err();
    let are_appended = is_rest(out.as_slice(), lines);
    drop(out);
    (fault, are_appended)
}

#[test]
fn each_frame_has_a_line(rt: HostRuntime) {
    for (bytes, wanted, lines) in READ {
        let (fault, are_appended) = shown(&rt, rt.alloc(), bytes, lines);
        assert!(rt; fault == *wanted && are_appended, "{bytes:?}");
    }
}

// The first wrong line of the text, and whether these bytes are appended.
fn read(rt: &impl Abort, alloc: Global, text: &[u8], bytes: &[u8]) -> (Option<LineFault>, bool) {
    let mut out = Vec::from_slice(alloc, b"#").expect(rt, "there is memory");
    let fault = from_lines(alloc, text, &mut out).err();
    let are_appended = is_rest(out.as_slice(), bytes);
    drop(out);
    (fault, are_appended)
}

#[test]
fn each_line_gives_its_frame(rt: HostRuntime) {
    for (text, wanted, bytes) in WRITTEN {
        let (fault, are_appended) = read(&rt, rt.alloc(), text, bytes);
        assert!(rt; fault == *wanted && are_appended, "{text:?}");
    }
}
