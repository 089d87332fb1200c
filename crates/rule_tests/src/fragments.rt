//! Messages in fragments, and what was split joined again.

ghost use Rattle.fragment.specs.Splitting.{IsSplittable, IsMtu};

use fragment::{Frames, Glue, GlueFault, Glued, SplitSize, split, split_size};
use rs_frame::{Frame, Request, encode, spellable};
use rs_wire::{Amount, Blob, Kind, Message};
use std::alloc::Global;
use std::process::Abort;

/// A frame of stream 1.
#[derive(Clone, Copy)]
enum What {
    Fnf,
    // Complete, with initial n 5.
    Channel,
    Payload { complete: bool, next: bool },
}

/// A frame whose message has this many bytes of metadata, where there is any, and of content, and
/// the word of type and flags and the length of each frame that it is split into.
#[derive(Clone, Copy)]
struct Row {
    shows: &'static str,
    what: What,
    metadata: Option<usize>,
    content: usize,
    mtu: u32,
    frames: &'static [(u16, usize)],
}

const SPLIT: &[Row] = &[
    Row {
        shows: "a request of a hundred bytes is split",
        what: What::Fnf,
        metadata: None,
        content: 100,
        mtu: 64,
        frames: &[(0x1480, 64), (0x2820, 48)],
    },
    Row {
        shows: "a frame at exactly the mtu is whole",
        what: What::Fnf,
        metadata: None,
        content: 58,
        mtu: 64,
        frames: &[(0x1400, 64)],
    },
    Row {
        shows: "a frame of one byte more is not",
        what: What::Fnf,
        metadata: None,
        content: 59,
        mtu: 64,
        frames: &[(0x1480, 64), (0x2820, 7)],
    },
    Row {
        shows: "an empty message is one frame",
        what: What::Fnf,
        metadata: None,
        content: 0,
        mtu: 64,
        frames: &[(0x1400, 6)],
    },
    Row {
        shows: "an mtu of 0 sets no limit",
        what: What::Fnf,
        metadata: None,
        content: 100,
        mtu: 0,
        frames: &[(0x1400, 106)],
    },
    Row {
        shows: "metadata that ends at an edge is over",
        what: What::Fnf,
        metadata: Some(55),
        content: 1,
        mtu: 64,
        frames: &[(0x1580, 64), (0x2820, 7)],
    },
    Row {
        shows: "metadata past an edge goes on",
        what: What::Fnf,
        metadata: Some(56),
        content: 1,
        mtu: 64,
        frames: &[(0x1580, 64), (0x2920, 11)],
    },
    Row {
        shows: "empty metadata stands on the first alone",
        what: What::Fnf,
        metadata: Some(0),
        content: 60,
        mtu: 64,
        frames: &[(0x1580, 64), (0x2820, 11)],
    },
    Row {
        shows: "complete without next stands on the last",
        what: What::Payload {
            complete: true,
            next: false,
        },
        metadata: None,
        content: 100,
        mtu: 64,
        frames: &[(0x2880, 64), (0x2840, 48)],
    },
    Row {
        shows: "next stands on every fragment",
        what: What::Payload {
            complete: true,
            next: true,
        },
        metadata: None,
        content: 100,
        mtu: 64,
        frames: &[(0x28a0, 64), (0x2860, 48)],
    },
    Row {
        shows: "a channel is complete with its last fragment",
        what: What::Channel,
        metadata: None,
        content: 100,
        mtu: 64,
        frames: &[(0x1c80, 64), (0x2860, 52)],
    },
];

fn filled(rt: &impl Abort, alloc: Global, byte: u8, length: usize) -> Blob {
    Blob::from_vec(vec![in alloc; byte; length].expect(rt, "there is memory"))
}

// A message with this many bytes of metadata, where there is any, and of content.
fn sized(rt: &impl Abort, alloc: Global, metadata: Option<usize>, content: usize) -> Message {
    let metadata = match metadata {
        Some(length) => Some(filled(rt, alloc, 0xcd, length)),
        None => None,
    };
    Message {
        metadata,
        content: filled(rt, alloc, 0xab, content),
    }
}

fn frame(what: What, message: Message) -> Frame
    ensures { IsSplittable result }
{
    match what {
        What::Fnf => Frame::Request(Request {
            stream: 1,
            kind: Kind::Fnf,
            follows: false,
            complete: false,
            initial: None,
            message,
        }),
        What::Channel => Frame::Request(Request {
            stream: 1,
            kind: Kind::Channel,
            follows: false,
            complete: true,
            initial: Amount::of(5),
            message,
        }),
        What::Payload { complete, next } => Frame::Payload {
            stream: 1,
            follows: false,
            complete,
            next,
            message,
        },
    }
}

// The word of type and flags, and the length.
fn shape(rt: &impl Abort, alloc: Global, fragment: &Frame) -> (u16, usize) {
    let mut bytes = Vec::new(alloc);
    if spellable(fragment) {
        encode(fragment, &mut bytes).expect(rt, "there is memory");
    }
    match bytes.as_slice() {
        [_, _, _, _, high, low, ..] => (u16::from_be_bytes([*high, *low]), bytes.len()),
        _ => (0, 0),
    }
}

// Whether the frames have these shapes.
fn are_shaped(rt: &impl Abort, alloc: Global, frames: &[Frame], shapes: &[(u16, usize)]) -> bool {
    let mut found = Vec::new(alloc);
    for fragment in frames {
        found
            .push(shape(rt, alloc, fragment))
            .expect(rt, "there is memory");
    }
    found.as_slice() == shapes
}

// What a frame is split into.
fn fragments(rt: &impl Abort, alloc: Global, frame: &Frame, mtu: u32) -> Frames
    requires whole { IsSplittable frame.now }
    requires limit { IsMtu mtu }
{
    assert!(rt; spellable(frame));
    split(alloc, frame, mtu).expect(rt, "there is memory")
}

// Whether the frame of the row is split as it says.
fn is_split_so(rt: &impl Abort, alloc: Global, row: &Row) -> bool {
    let message = sized(rt, alloc, row.metadata, row.content);
    let frame = frame(row.what, message);
    let mtu = if row.mtu == 64 { 64 } else { 0 };
    let frames = fragments(rt, alloc, &frame, mtu);
    drop(frame);
    let are_shaped = are_shaped(rt, alloc, frames.as_slice(), row.frames);
    drop(frames);
    are_shaped
}

#[test]
fn frames_are_split_at_the_mtu(rt: HostRuntime) {
    for row in SPLIT {
        assert!(rt; is_split_so(&rt, rt.alloc(), row), "{}", row.shows);
    }
}

/// Of a message its metadata, where there is any, and its content, of a frame its head, all in bytes,
/// and the mtu; then how many frames and bytes the split has.
const SIZES: &[(Option<usize>, usize, u32, u32, u64, u64)] = &[
    (None, 100, 6, 0, 1, 106),
    (None, 58, 6, 64, 1, 64),
    (None, 59, 6, 64, 2, 71),
    (None, 100, 10, 64, 2, 116),
    (Some(55), 1, 6, 64, 2, 71),
    (Some(56), 1, 6, 64, 2, 75),
    (Some(0), 60, 6, 64, 2, 75),
    (None, 0, 6, 64, 1, 6),
    (Some(130), 70, 6, 64, 4, 233),
];

// The size of the split of a message.
fn size(rt: &impl Abort, message: &Message, head: u32, mtu: u32) -> SplitSize {
    assert!(rt; message.size() < 1000 && head <= 10 && (mtu == 0 || mtu == 64));
    split_size(message, head, mtu)
}

#[test]
fn the_size_of_a_split_is_known_before_it_is_made(rt: HostRuntime) {
    for (metadata, content, head, mtu, frames, bytes) in SIZES {
        let message = sized(&rt, rt.alloc(), *metadata, *content);
        let size = size(&rt, &message, *head, *mtu);
        drop(message);
        assert!(rt; size.frames == *frames && size.bytes == *bytes);
    }
}

// Pushes a payload. What the glue answers.
fn push(rt: &impl Abort, glue: &mut Glue, frame: &Frame) -> Glued {
    match frame {
        Frame::Payload {
            follows,
            complete,
            next,
            message,
            ..
        } => {
            assert!(rt; message.size() < 100);
            glue.push(*follows, message, *complete, *next)
                .expect(rt, "it is not too large")
        }
        _ => panic!(rt; "a fragment is a payload"),
    }
}

// The last answer to the payloads of a split, pushed in turn.
fn joined(rt: &impl Abort, alloc: Global, frames: &[Frame]) -> Glued {
    let mut glue = Glue::new(alloc, 200);
    let mut last = Glued::Part;
    for frame in frames {
        assert!(rt; matches!(last, Glued::Part));
        last = push(rt, &mut glue, frame);
    }
    last
}

#[test]
fn a_split_is_joined_again(rt: HostRuntime) {
    let what = What::Payload {
        complete: true,
        next: true,
    };
    let item = frame(what, sized(&rt, rt.alloc(), Some(130), 70));
    let frames = fragments(&rt, rt.alloc(), &item, 64);
    drop(item);
    let joined = joined(&rt, rt.alloc(), frames.as_slice());
    drop(frames);
    let expected = Glued::Whole {
        message: sized(&rt, rt.alloc(), Some(130), 70),
        complete: true,
        next: true,
    };
    let is_same = joined == expected;
    drop(joined);
    drop(expected);
    assert!(rt; is_same);
}

#[test]
fn frames_are_the_vector_that_they_were_made_of(rt: HostRuntime) {
    let mut frames = Vec::new(rt.alloc());
    let one = frame(What::Fnf, sized(&rt, rt.alloc(), None, 1));
    frames.push(one).expect(&rt, "there is memory");
    let frames = Frames::from_vec(frames);
    let count = frames.as_slice().len();
    let frames = frames.into_vec();
    let again = frames.len();
    drop(frames);
    assert!(rt; count == 1 && again == 1);
}

#[test]
fn a_fault_says_why_in_a_sentence(rt: HostRuntime) {
    let fault = GlueFault::TooLarge(5);
    let sentence = format!(in rt.alloc(); "{fault}").expect(&rt, "there is memory");
    let is_so = sentence.as_str() == "the joined message would have 5 bytes, more than is taken";
    drop(sentence);
    assert!(rt; is_so);
}
