//! Parts that come are joined up to a limit, with the flags of any of them.

use fragment::{Glue, GlueFault, Glued};
use rs_wire::{Blob, Message};
use std::alloc::Global;
use std::process::Abort;

/// A part of a message without metadata, with its F, C and N, what a glue that takes at most 4 bytes
/// answers, and how many it holds then.
#[derive(Clone, Copy)]
struct Part {
    content: &'static [u8],
    flags: (bool, bool, bool),
    answer: &'static str,
    held: u64,
}

/// A part is too large exactly above the limit, and changes nothing.
const TOO_LARGE: &[Part] = &[
    Part {
        content: b"abc",
        flags: (true, false, false),
        answer: "Ok(Part)",
        held: 3,
    },
    Part {
        content: b"de",
        flags: (false, false, false),
        answer: "Err(TooLarge(5))",
        held: 3,
    },
    Part {
        content: b"d",
        flags: (false, false, false),
        answer: "Ok(Whole { message: Message { metadata: None, \
            content: Blob { bytes: [97, 98, 99, 100] } }, complete: false, next: false })",
        held: 0,
    },
];

/// C and N are taken from any part.
const FLAGS: &[Part] = &[
    Part {
        content: b"ab",
        flags: (true, true, false),
        answer: "Ok(Part)",
        held: 2,
    },
    Part {
        content: b"c",
        flags: (false, false, true),
        answer: "Ok(Whole { message: Message { metadata: None, \
            content: Blob { bytes: [97, 98, 99] } }, complete: true, next: true })",
        held: 0,
    },
];

// What the glue answers to a part of this message.
fn pushed(
    rt: &impl Abort,
    glue: &mut Glue,
    message: &Message,
    flags: (bool, bool, bool),
) -> Result<Glued, GlueFault> {
    assert!(rt; message.size() < 1000);
    let (follows, complete, next) = flags;
    glue.push(follows, message, complete, next)
}

// What the glue answers, in words.
fn answer(rt: &impl Abort, alloc: Global, glue: &mut Glue, part: &Part) -> String {
    let message = Message {
        metadata: None,
        content: Blob::from_slice(alloc, part.content).expect(rt, "there is memory"),
    };
    let answer = pushed(rt, glue, &message, part.flags);
    drop(message);
    let words = format!(in alloc; "{answer:?}");
    drop(answer);
    words.expect(rt, "there is memory")
}

// Whether the glue answers so to the part, and holds so many bytes then.
fn is_answered_so(rt: &impl Abort, alloc: Global, glue: &mut Glue, part: &Part) -> bool {
    let answer = answer(rt, alloc, glue, part);
    let is_so = answer.as_str() == part.answer;
    drop(answer);
    is_so && glue.size() == part.held
}

// Whether a glue answers so to the parts, in turn.
fn comes(rt: &impl Abort, alloc: Global, parts: &[Part]) -> bool {
    let mut glue = Glue::new(alloc, 4);
    let mut right = true;
    for part in parts {
        right = is_answered_so(rt, alloc, &mut glue, part) && right;
    }
    drop(glue);
    right
}

#[test]
fn parts_are_joined_up_to_the_limit(rt: HostRuntime) {
    assert!(rt; comes(&rt, rt.alloc(), TOO_LARGE));
    assert!(rt; comes(&rt, rt.alloc(), FLAGS));
}
