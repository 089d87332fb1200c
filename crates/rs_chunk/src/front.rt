//! The frame that bytes begin with.

ghost use Rattle.std.specs.Prelude.{◌≡◌, ◌<◌, ◌^◌, ◌++◌, [], ◌∷◌, ℕ, List, length, None, IfSome};
ghost use Rattle.rs_frame.specs.Framed.{framed};
ghost use Rattle.rs_chunk.specs.Stream.{HasFrame, IsCut, IsFront, IsFrontView, after_frame, first_frame};

use byteorder::{BigEndian, ByteOrder};
use rs_frame::{FrameRef, view};

/// What bytes of a stream begin with.
#[derive(Clone, Copy)]
pub enum Front<'a> {
    /// The first frame, whole and within the limit, without its length.
    Whole(&'a [u8]),
    /// The length of the first frame, in bytes, which is above the limit. It can never be passed.
    TooLong(u32),
    /// Fewer bytes than a length field, or a frame within the limit that is not whole yet.
    Part,
}

/// What bytes of a stream begin with, where the frame lies in them.
#[derive(Clone, Copy)]
pub enum FrontView<'a> {
    /// The first frame, whole and within the limit.
    Frame(FrameRef<'a>),
    /// The number of the least rule that the first frame breaks, from 1 to 9; it is whole and within
    /// the limit.
    Wrong(u8),
    /// The length of the first frame, in bytes, which is above the limit. It can never be passed.
    TooLong(u32),
    /// Fewer bytes than a length field, or a frame within the limit that is not whole yet.
    Part,
}

/// The frame that the bytes begin with, without its length, and what follows it; nothing where they
/// do not have a whole frame.
pub fn split_frame(bytes: &[u8]) -> Option<(&[u8], &[u8])>
    ensures frame { IfSome result (λ r. HasFrame bytes.now × (r.0.now ≡ first_frame bytes.now)) }
    ensures after { IfSome result (λ r. r.1.now ≡ after_frame bytes.now) }
    ensures cut { IfSome result (λ r. bytes.now ≡ framed r.0.now ++ r.1.now) }
    ensures fits { IfSome result (λ r. length r.0.now < 2 ^ 24) }
    ensures none { result ≡ None → ¬ (HasFrame bytes.now) }

    // The frames that were cut off a stream before, and this one.
    ensures passes { IfSome result (λ r. (all : List ℕ) (frames : List (List ℕ)) →
        IsCut all frames bytes.now → IsCut all (frames ++ r.0.now ∷ []) r.1.now) }
{
    if bytes.len() < 3 {
        return None;
    }
    let length = BigEndian::read_u24(bytes) as usize;
    let rest = &bytes[3..];
    if rest.len() < length {
        return None;
    }
    Some(rest.split_at(length))
}

/// What the bytes begin with, where a frame may have `max_in` bytes.
pub(crate) fn front_of(bytes: &[u8], max_in: u32) -> Front<'_>
    ensures front { IsFront bytes.now max_in result }
    ensures no_more { result ≡ Front.Part → ¬ (HasFrame bytes.now) }
{
    if bytes.len() < 3 {
        return Front::Part;
    }
    let length = BigEndian::read_u24(bytes);
    if length > max_in {
        return Front::TooLong(length);
    }
    match split_frame(bytes) {
        Some((frame, _)) => Front::Whole(frame),
        None => Front::Part,
    }
}

/// What the bytes begin with, where a frame may have `max_in` bytes and is read as it lies in them.
pub(crate) fn front_view_of(bytes: &[u8], max_in: u32) -> FrontView<'_>
    ensures { IsFrontView bytes.now max_in result }
{
    match front_of(bytes, max_in) {
        Front::Whole(frame) => match view(frame) {
            Ok(frame) => FrontView::Frame(frame),
            Err(rule) => FrontView::Wrong(rule),
        },
        Front::TooLong(length) => FrontView::TooLong(length),
        Front::Part => FrontView::Part,
    }
}
