//! Composite metadata and routing tags.

use routing::{MetaFault, MimeName, read_composite, read_tags, write_composite, write_tags};
use std::alloc::Global;
use std::process::Abort;

/// A part of the well-known number 126, whose content is the tag `echo` alone.
const ECHO: &[u8] = b"\xfe\0\0\x05\x04echo";

/// Bytes that spell no list of parts, and why.
const NO_PARTS: &[(&[u8], MetaFault)] = &[
    (b"\xfe\0\0\x05\x04ech", MetaFault::ShortContent(0)),
    (b"\x81\0", MetaFault::ShortEntry(0)),
    (b"\x01a", MetaFault::ShortEntry(0)),
    (b"\0a\0\0\0\x81\0", MetaFault::ShortEntry(5)),
    (b"\0a\0\0\0\x81\0\0\x01", MetaFault::ShortContent(5)),
];

/// Bytes that spell no list of tags, and why.
const NO_TAGS: &[(&[u8], MetaFault)] = &[
    (b"\x02a", MetaFault::ShortTag(0)),
    (b"\x01a\0\x03a", MetaFault::ShortTag(3)),
];

fn has_no_parts(alloc: Global, bytes: &[u8], fault: MetaFault) -> bool {
    match read_composite(alloc, bytes) {
        Ok(parts) => {
            drop(parts);
            false
        }
        Err(found) => found == fault,
    }
}

fn has_no_tags(alloc: Global, bytes: &[u8], fault: MetaFault) -> bool {
    match read_tags(alloc, bytes) {
        Ok(tags) => {
            drop(tags);
            false
        }
        Err(found) => found == fault,
    }
}

#[test]
fn what_is_cut_short_is_named_by_its_place(rt: HostRuntime) {
    for (bytes, fault) in NO_PARTS {
        assert!(rt; has_no_parts(rt.alloc(), bytes, *fault));
    }
    for (bytes, fault) in NO_TAGS {
        assert!(rt; has_no_tags(rt.alloc(), bytes, *fault));
    }
}

// Whether the content is the tag `echo`, which is written as it was read.
fn is_echo(rt: &impl Abort, alloc: Global, content: &[u8]) -> bool {
    let tags = read_tags(alloc, content).expect(rt, "there is memory");
    let is_one = tags.as_slice().len() == 1 && tags.as_slice()[0].as_slice() == b"echo".as_slice();
    let mut out = Vec::new(alloc);
    write_tags(&tags, &mut out).expect(rt, "there is memory");
    drop(tags);
    is_one && out.as_slice() == content
}

// How many parts the bytes spell, which are written as they were read, and whether the first is the
// tag `echo`.
fn parts_of(rt: &impl Abort, alloc: Global, bytes: &[u8]) -> (usize, bool) {
    let parts = read_composite(alloc, bytes).expect(rt, "there is memory");
    let count = parts.as_slice().len();
    let is_echo = match parts.as_slice() {
        [part, ..] => {
            part.mime == MimeName::Known(126) && is_echo(rt, alloc, part.content.as_slice())
        }
        [] => false,
    };
    let mut out = Vec::new(alloc);
    write_composite(&parts, &mut out).expect(rt, "there is memory");
    drop(parts);
    assert!(rt; out.as_slice() == bytes);
    (count, is_echo)
}

/// Bytes that spell parts: how many, and whether the first is the tag `echo`.
const PARTS: &[(&[u8], usize, bool)] = &[
    (ECHO, 1, true),
    (b"", 0, false),
    (b"\0a\0\0\0\xfe\0\0\x05\x04echo", 2, false),
    (b"\xfe\0\0\x05\x04echo\x01ab\0\0\x01c\x80\0\0\0", 3, true),
];

#[test]
fn parts_and_tags_are_read_and_written_again(rt: HostRuntime) {
    for (bytes, count, is_echo) in PARTS {
        let found = parts_of(&rt, rt.alloc(), bytes);
        assert!(rt; found.0 == *count && found.1 == *is_echo);
    }
}
