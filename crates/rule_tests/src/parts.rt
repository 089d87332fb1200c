//! Messages that are not whole yet.

use fragment::Glued;
use reassembly::Reassembly;
use rs_wire::{Blob, Message};
use std::alloc::Global;
use std::process::Abort;

/// Metadata, where there is some, and content.
type Text = (Option<&'static [u8]>, &'static [u8]);

/// A part that comes: its stream, whether more follow, what it has, and its C and N; and the message
/// that is whole then, with its C and N.
type Row = (u32, bool, Text, (bool, bool), Option<(Text, bool, bool)>);

fn blob(rt: &impl Abort, alloc: Global, bytes: &[u8]) -> Blob {
    Blob::from_slice(alloc, bytes).expect(rt, "there is memory")
}

fn message(rt: &impl Abort, alloc: Global, text: Text) -> Message {
    let (metadata, content) = text;
    let metadata = match metadata {
        Some(bytes) => Some(blob(rt, alloc, bytes)),
        None => None,
    };
    Message {
        metadata,
        content: blob(rt, alloc, content),
    }
}

// Whether a message has this metadata and content.
fn is_text(message: &Message, text: Text) -> bool {
    let (metadata, content) = text;
    let is_metadata = match (&message.metadata, metadata) {
        (Some(given), Some(bytes)) => given.as_slice() == bytes,
        (None, None) => true,
        _ => false,
    };
    is_metadata && message.content.as_slice() == content
}

// Whether the part is answered as its row says.
fn is_answer(given: &Glued, row: &Row) -> bool {
    let (_, _, _, _, whole) = *row;
    match (given, whole) {
        (Glued::Part, None) => true,
        (
            Glued::Whole {
                message,
                complete,
                next,
            },
            Some((whole, is_complete, is_next)),
        ) => *complete == is_complete && *next == is_next && is_text(message, whole),
        _ => false,
    }
}

// What is answered to the part.
fn given(rt: &impl Abort, alloc: Global, reassembly: &mut Reassembly, row: &Row) -> Glued {
    let (stream, follows, text, (complete, next), _) = *row;
    let part = message(rt, alloc, text);
    reassembly
        .reserve(stream, &part)
        .expect(rt, "there is memory");
    reassembly.push(stream, follows, &part, complete, next)
}

// That each part is answered as its row says, and is there until its message is whole.
fn comes(rt: &impl Abort, alloc: Global, reassembly: &mut Reassembly, rows: &[Row]) {
    for row in rows {
        let given = given(rt, alloc, reassembly, row);
        let is_answer = is_answer(&given, row);
        drop(given);
        let (stream, follows, _, _, _) = *row;
        assert!(rt; is_answer && reassembly.has_part(stream) == follows);
    }
}

/// Parts that come in turn, where no part was before.
const LISTS: &[&[Row]] = &[
    // Parts of two streams come in turn.
    &[
        (1, true, (None, b"ab"), (false, false), None),
        (3, true, (None, b"x"), (false, false), None),
        (
            1,
            false,
            (None, b"c"),
            (false, false),
            Some(((None, b"abc"), false, false)),
        ),
        (
            3,
            false,
            (None, b"y"),
            (false, false),
            Some(((None, b"xy"), false, false)),
        ),
    ],
    // Metadata comes in two parts.
    &[
        (1, true, (Some(b"m"), b""), (false, false), None),
        (1, true, (Some(b"n"), b"a"), (false, false), None),
        (
            1,
            false,
            (None, b"b"),
            (false, false),
            Some(((Some(b"mn"), b"ab"), false, false)),
        ),
    ],
    // An empty part is a part.
    &[
        (1, true, (None, b""), (false, false), None),
        (
            1,
            false,
            (Some(b""), b""),
            (false, false),
            Some(((Some(b""), b""), false, false)),
        ),
    ],
    // Flags are taken from any part.
    &[
        (5, true, (None, b"a"), (true, false), None),
        (
            5,
            false,
            (None, b"b"),
            (false, true),
            Some(((None, b"ab"), true, true)),
        ),
    ],
];

#[test]
fn parts_are_joined_by_stream(rt: HostRuntime) {
    for rows in LISTS {
        let mut reassembly = Reassembly::new(rt.alloc());
        comes(&rt, rt.alloc(), &mut reassembly, rows);
        drop(reassembly);
    }
}

/// A part with N.
const NEXT: &[Row] = &[(1, true, (Some(b"m"), b"ab"), (false, true), None)];

// How large the message would be with more on this stream, and whether N stood on any part of it.
fn measure(rt: &impl Abort, reassembly: &Reassembly, stream: u32, more: &Message) -> (u64, bool) {
    assert!(rt; more.size() < 1000);
    (
        reassembly.size_with(stream, more),
        reassembly.next_with(stream, false),
    )
}

#[test]
fn a_part_is_measured_before_it_is_pushed(rt: HostRuntime) {
    let mut reassembly = Reassembly::new(rt.alloc());
    let more = message(&rt, rt.alloc(), (Some(b"mn"), b"c"));
    let before = measure(&rt, &reassembly, 1, &more);
    comes(&rt, rt.alloc(), &mut reassembly, NEXT);
    let after = measure(&rt, &reassembly, 1, &more);
    let other = measure(&rt, &reassembly, 3, &more);
    drop(more);
    drop(reassembly);
    assert!(rt; before == (3, false) && after == (6, true) && other == (3, false));
}

/// Parts of two streams.
const BEGUN: &[Row] = &[
    (1, true, (None, b"a"), (false, false), None),
    (3, true, (None, b"b"), (false, false), None),
];

/// The last part of the second.
const SECOND: &[Row] = &[(
    3,
    false,
    (None, b""),
    (false, false),
    Some(((None, b"b"), false, false)),
)];

/// A whole message on the first, where no part is.
const FIRST: &[Row] = &[(
    1,
    false,
    (None, b"c"),
    (false, false),
    Some(((None, b"c"), false, false)),
)];

// Whether the parts leave nothing once they are whole.
fn leave_nothing(
    rt: &impl Abort,
    alloc: Global,
    reassembly: &mut Reassembly,
    rows: &[Row],
) -> bool {
    comes(rt, alloc, reassembly, rows);
    reassembly.is_empty()
}

#[test]
fn a_whole_or_forgotten_message_leaves_nothing(rt: HostRuntime) {
    let mut reassembly = Reassembly::new(rt.alloc());
    let was_empty = reassembly.is_empty();
    comes(&rt, rt.alloc(), &mut reassembly, BEGUN);
    reassembly.forget(1);
    let is_forgotten = !reassembly.has_part(1) && reassembly.has_part(3);
    let second = leave_nothing(&rt, rt.alloc(), &mut reassembly, SECOND);
    let first = leave_nothing(&rt, rt.alloc(), &mut reassembly, FIRST);
    drop(reassembly);
    assert!(rt; was_empty && is_forgotten && second && first);
}
