//! How many bytes the frames of a call take.

ghost use Rattle.std.specs.Prelude.{◌≡◌, ◌+◌, ◌<◌, ◌≤◌, ◌^◌, [], ◌∷◌, ℕ, true, IfSome, length};
ghost use Rattle.rs_wire.specs.Message.{option_length};
ghost use Rattle.rs_frame.specs.Spelling.{length_of, number_there};
ghost use Rattle.rs_frame.specs.declared.frame.Frame.{Frame};
ghost use Rattle.stream_model.specs.Known.{Known};
ghost use Rattle.fragment.specs.Splitting.{IsMtu};
ghost use Rattle.session_model.specs.Frames.{closing_error, in_fragments, spoken};
ghost use Rattle.rs_frame.specs.declared.frame.Frame.TheVariants as frames;
ghost use Rattle.session_model.specs.Answers.{size_in};
ghost use Rattle.session_core.specs.Outgoing.{frame_beside};
ghost use Rattle.session_core.specs.Sizes.{size_alone, size_of_frames, size_sent};

use fragment::{SplitSize, split_size};
use rs_wire::{Amount, Blob, Call, Checked, Message};

/// The bytes of a frame's header.
pub const HEADER: u32 = 6;

/// The bytes of a code, of an initial n, of the n of REQUEST_N, and of each number of LEASE.
pub const NUMBER: u32 = 4;

/// The bytes of the position of a KEEPALIVE.
const POSITION: u32 = 8;

/// The bytes of the length before each frame (RSocket 1.0, "Framing Protocol Usage").
pub const LENGTH_FIELD: u64 = 3;

/// The most bytes that a call may send on: the upper limit of the setting `max_payload`. With them
/// the length of a frame still has 24 bits.
pub const MOST_PAYLOAD: u64 = 16_000_000;

/// More frames than a call goes out in, by far: with [`MANY_BYTES`] it keeps sums of sizes below
/// 2^64.
pub const MANY_FRAMES: u64 = 1 << 40;

/// More bytes than the frames of a call have, by far.
pub const MANY_BYTES: u64 = 1 << 60;

/// The most bytes of a frame that is sent, 0 for no limit.
#[tactic(auto, using(crate::proofs::Framed::mtu_limit))]
pub fn mtu(settings: &Checked) -> u32
    ensures value { result ≡ settings.now.mtu }
    ensures limit { IsMtu result }
{
    settings.settings().mtu
}

/// Whether a frame of this length goes out in one piece: it is not longer than the mtu, or there is
/// no limit.
pub fn fits(length: u32, mtu: u32) -> bool
    ensures { (f : Frame) → length_of f ≡ length → result ≡ true →
        in_fragments mtu f ≡ f ∷ [] }
{
    mtu == 0 || length <= mtu
}

/// How many bytes these are, where there are some.
pub fn option_len(bytes: &Option<Blob>) -> u64
    ensures value { result ≡ option_length bytes.now }
    ensures bound { result < 2 ^ 63 }
{
    match bytes {
        Some(bytes) => bytes.len() as u64,
        None => 0,
    }
}

// One frame of this length.
fn one(bytes: u64) -> SplitSize
    ensures { result ≡ record { frames = 1; bytes = bytes } }
{
    SplitSize { frames: 1, bytes }
}

/// The size of the ERROR without content that closes a session.
#[tactic(auto, unfolding(position::specs::Boundaries::pos_by))]
pub fn closing_size() -> SplitSize
    ensures value { result ≡ size_of_frames (closing_error [] ∷ []) }
    ensures few { result.frames < MANY_FRAMES }
    ensures small { result.bytes < MANY_BYTES }
{
    one(u64::from(HEADER + NUMBER))
}

/// The size of a KEEPALIVE without content.
#[tactic(auto, unfolding(position::specs::Boundaries::pos_by))]
pub fn keepalive_size() -> SplitSize
    ensures value { (position : ℕ) → result ≡
        size_of_frames (frames.Keepalive true position [] ∷ []) }
    ensures few { result.frames < MANY_FRAMES }
    ensures small { result.bytes < MANY_BYTES }
{
    one(u64::from(HEADER + POSITION))
}

/// The size of the frame of the connection alone that a call makes, where it makes one.
pub fn size_beside(call: &Call) -> Option<SplitSize>
    requires { size_in call.now ≤ MOST_PAYLOAD }
    ensures value { result ≡ size_alone (frame_beside call.now) }
    ensures few { IfSome result (λ n. n.frames < MANY_FRAMES) }
    ensures small { IfSome result (λ n. n.bytes < MANY_BYTES) }
{
    match call {
        Call::Push { metadata } => Some(one(u64::from(HEADER) + metadata.len() as u64)),
        Call::Lease { metadata, .. } => {
            Some(one(u64::from(HEADER + 2 * NUMBER) + option_len(metadata)))
        }
        _ => None,
    }
}

// The bytes before the message in a request.
fn head(initial: Option<Amount>) -> u32
    ensures value { result ≡ HEADER + length (number_there initial) }
    ensures small { result ≤ 10 }
{
    match initial {
        Some(_) => HEADER + NUMBER,
        None => HEADER,
    }
}

/// How many frames the frame of a call goes out in, where it makes one, and their bytes in sum.
pub fn size_spoken(settings: &Checked, call: &Call) -> Option<SplitSize>
    requires { size_in call.now ≤ MOST_PAYLOAD }
    ensures value { (t : Known) (id : ℕ) → result ≡
        size_sent settings.now.mtu (spoken t id call.now) }
    ensures few { IfSome result (λ n. n.frames < MANY_FRAMES) }
    ensures small { IfSome result (λ n. n.bytes < MANY_BYTES) }
{
    let mtu = mtu(settings);
    match call {
        Call::Request {
            initial,
            message,
            ..
        } => Some(split_size(message, head(*initial), mtu)),
        Call::Next { message, .. } => Some(split_size(message, HEADER, mtu)),
        Call::Done { .. } => Some(one(u64::from(HEADER))),
        Call::Cancel { .. } => Some(one(u64::from(HEADER))),
        Call::Grant { .. } => Some(one(u64::from(HEADER + NUMBER))),
        Call::Fail { content, .. } => {
            Some(one(u64::from(HEADER + NUMBER) + content.len() as u64))
        }
        Call::Push { .. } | Call::Lease { .. } | Call::Take { .. } | Call::TakeJob | Call::Close =>
            None,
    }
}
