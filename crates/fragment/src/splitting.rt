//! Splitting a frame into fragments.

ghost use Rattle.std.specs.Prelude.{◌≡◌, ◌≢◌, ◌<◌, ◌≤◌, ◌+◌, ◌^◌, All, IfOk};
ghost use Rattle.rs_frame.specs.Spelling.{IsSpellable, length_of};
ghost use Rattle.fragment.specs.Splitting.{IsSplittable, IsMtu, split_of, first_fragment, rest_after, head_length};
ghost use Rattle.fragment.specs.Views.{carried, frame_by, frame_in, message_in};

use crate::frames::Frames;
use crate::parts::Parts;
use rs_frame::{Frame, Request};
use rs_wire::{Amount, Kind, OutOfMemory};
use std::alloc::Global;

/// The fragments of a request or a payload, in the order in which they are sent, each of at most
/// `mtu` bytes (RSocket 1.0, "Fragmentation and Reassembly").
///
/// The mtu is 64 to 16,777,215 and counts no length field; 0 sets no limit. A frame that is not
/// longer is its own one fragment. Else the first fragment is of the frame's own type, the later ones
/// are PAYLOAD frames, and each but the last is exactly `mtu` bytes long and has F. Metadata comes
/// first: a fragment has M where it is the first and the message has metadata, or where bytes of it are
/// left. C stands on the last alone. N stands on each PAYLOAD that continues a request, and on all or
/// none of a PAYLOAD's, as the whole has it.
pub fn split(alloc: Global, frame: &Frame, mtu: u32) -> Result<Frames, OutOfMemory>
    requires spellable { IsSpellable frame.now }
    requires whole { IsSplittable frame.now }
    requires limit { IsMtu mtu }
    ensures split { IfOk result (λ frames. frames ≡ split_of frame.now mtu) }
    ensures spellable { IfOk result (λ frames. All IsSpellable frames) }
    ensures short { mtu ≢ 0 → IfOk result (λ frames. All (λ f. length_of f ≤ mtu) frames) }
{
    let mut frames = Vec::new(alloc);
    let mut rest = Rest::of(frame);
    let most = mtu as usize;
    while most > 0 && rest.length() > most {
        frames.push(rest.first(alloc, most)?)?;
        rest = rest.after(most);
    }
    frames.push(rest.whole(alloc)?)?;
    Ok(Frames::from_vec(frames))
}

/// What a request says that opens a stream.
#[derive(Clone, Copy)]
struct Opening {
    kind: Kind,
    initial: Option<Amount>,
}

/// A request or a payload that nothing follows, borrowed: what is left to send of a frame.
#[derive(Clone, Copy)]
struct Rest<'a> {
    stream: u32,
    /// There where nothing of a request was sent yet.
    opening: Option<Opening>,
    metadata: Option<&'a [u8]>,
    content: &'a [u8],
    complete: bool,
    next: bool,
}

impl<'a> Rest<'a> {
    /// All of a frame.
    fn of(frame: &'a Frame) -> Rest<'a>
        requires { IsSplittable frame.now }
        ensures { frame_in result ≡ frame.now }
    {
        match frame {
            Frame::Request(request) => {
                let Parts { metadata, content } = Parts::of(&request.message);
                Rest {
                    stream: request.stream,
                    opening: Some(Opening {
                        kind: request.kind,
                        initial: request.initial,
                    }),
                    metadata,
                    content,
                    complete: request.complete,
                    next: false,
                }
            }
            Frame::Payload {
                stream,
                complete,
                next,
                message,
                ..
            } => {
                let Parts { metadata, content } = Parts::of(message);
                Rest {
                    stream: *stream,
                    opening: None,
                    metadata,
                    content,
                    complete: *complete,
                    next: *next,
                }
            }
            _ => unreachable!(),
        }
    }

    /// How many bytes stand before what it carries.
    fn head_length(&self) -> usize
        ensures value { result ≡ head_length (frame_in self.now) }
        ensures small { result ≤ 10 }
    {
        match self.opening {
            Some(
                Opening {
                    initial: Some(_),
                    ..
                },
            ) => 10,
            _ => 6,
        }
    }

    /// The frame's length.
    fn length(&self) -> usize
        requires { length_of (frame_in self.now) < 2 ^ 24 }
        ensures { result ≡ length_of (frame_in self.now) }
    {
        self.head_length() + self.parts().field_length() + self.content.len()
    }

    // What it carries.
    fn parts(&self) -> Parts<'a>
        ensures { message_in result ≡ carried self.now }
    {
        Parts {
            metadata: self.metadata,
            content: self.content,
        }
    }

    // The frame with this flag F, with what these parts carry.
    fn frame(
        &self,
        alloc: Global,
        follows: bool,
        complete: bool,
        parts: &Parts,
    ) -> Result<Frame, OutOfMemory>
        ensures { IfOk result (λ f. f ≡
            frame_by self.now.opening self.now follows complete (message_in parts.now)) }
    {
        let message = parts.copy(alloc)?;
        Ok(match self.opening {
            Some(opening) => Frame::Request(Request {
                stream: self.stream,
                kind: opening.kind,
                follows,
                complete,
                initial: opening.initial,
                message,
            }),
            None => Frame::Payload {
                stream: self.stream,
                follows,
                complete,
                next: self.next,
                message,
            },
        })
    }

    /// The frame, owned.
    fn whole(&self, alloc: Global) -> Result<Frame, OutOfMemory>
        ensures { IfOk result (λ f. f ≡ frame_in self.now) }
    {
        self.frame(alloc, false, self.complete, &self.parts())
    }

    /// Its first fragment, of this length.
    fn first(&self, alloc: Global, mtu: usize) -> Result<Frame, OutOfMemory>
        requires { length_of (frame_in self.now) < 2 ^ 24 }
        ensures { IfOk result (λ f. f ≡ first_fragment mtu (frame_in self.now)) }
    {
        let room = mtu.saturating_sub(self.head_length());
        self.frame(alloc, true, false, &self.parts().first(room))
    }

    /// What is left after its first fragment.
    fn after(&self, mtu: usize) -> Rest<'a>
        requires { length_of (frame_in self.now) < 2 ^ 24 }
        ensures { frame_in result ≡ rest_after mtu (frame_in self.now) }
    {
        let room = mtu.saturating_sub(self.head_length());
        let Parts { metadata, content } = self.parts().left(room);
        Rest {
            stream: self.stream,
            opening: None,
            metadata,
            content,
            complete: self.complete,
            next: self.next || self.opening.is_some(),
        }
    }
}
