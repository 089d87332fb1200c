//! How large a split is, before anything is made.

ghost use Rattle.std.specs.Prelude.{◌≡◌, ◌<◌, ◌≤◌, ◌+◌, ◌-◌, ◌^◌, length};
ghost use Rattle.rs_wire.specs.Message.{size_of};
ghost use Rattle.rs_frame.specs.declared.frame.Frame.{Frame};
ghost use Rattle.position.specs.Boundaries.{pos};
ghost use Rattle.fragment.specs.Splitting.{IsSplittable, IsMtu, carried_by, carried_length, head_length, left_part, split_of};
ghost use Rattle.fragment.specs.Views.{message_in};

use crate::parts::Parts;
use rs_wire::Message;

// The bytes before the message in a PAYLOAD frame: its header.
const HEADER: u32 = 6;

/// How many fragments a frame is split into, and their lengths in sum, in bytes.
#[derive(Clone, Copy, Debug, PartialEq, Eq)]
pub struct SplitSize {
    /// How many frames there are.
    pub frames: u64,
    /// The sum of their lengths, in bytes.
    pub bytes: u64,
}

/// What is left of a frame: how many bytes stand before the message, and the message.
#[derive(Clone, Copy)]
struct Left<'a> {
    head: u32,
    parts: Parts<'a>,
}

impl<'a> Left<'a> {
    // The length of a frame of it.
    fn length(&self) -> u64
        requires { carried_length (message_in self.now.parts) < 2 ^ 32 }
        ensures { result ≡ self.now.head + carried_length (message_in self.now.parts) }
    {
        u64::from(self.head) + self.parts.field_length() as u64 + self.parts.content.len() as u64
    }

    // What is left of it after a first fragment of this length.
    fn after(&self, mtu: u32) -> Left<'a>
        requires { carried_length (message_in self.now.parts) < 2 ^ 32 }
        ensures head { result.head ≡ HEADER }
        ensures parts { message_in result.parts
            ≡ left_part (mtu - self.now.head) (message_in self.now.parts) }
    {
        Left {
            head: HEADER,
            parts: self.parts.left(mtu.saturating_sub(self.head) as usize),
        }
    }
}

/// The size of the split of a request or a payload that carries this message, as
/// [`split`](crate::split) makes it, without making it. `head` is how many bytes stand before the
/// message: 6, or 10 in a request with an initial n. It takes a step for each fragment.
pub fn split_size(message: &Message, head: u32, mtu: u32) -> SplitSize
    requires limit { IsMtu mtu }
    requires head { head ≤ 10 }
    requires size { size_of message.now ≤ 16000000 }
    ensures frames { (f : Frame) → IsSplittable f → carried_by f ≡ message.now →
        head_length f ≡ head → result.frames ≡ length (split_of f mtu) }
    ensures bytes { (f : Frame) → IsSplittable f → carried_by f ≡ message.now →
        head_length f ≡ head → result.bytes ≡ pos (split_of f mtu) }
    ensures few { result.frames < 2 ^ 40 }
    ensures small { result.bytes < 2 ^ 60 }
{
    let most = u64::from(mtu);
    let mut rest = Left {
        head,
        parts: Parts::of(message),
    };
    let mut size = SplitSize {
        frames: 1,
        bytes: 0,
    };
    while most > 0 && rest.length() > most {
        rest = rest.after(mtu);
        size.frames += 1;
        size.bytes += most;
    }
    size.bytes += rest.length();
    size
}
