//! Writing a frame for a stream.

ghost use Rattle.std.specs.Prelude.{◌≡◌, ◌<◌, ◌^◌, ◌++◌, OnOk, OnErr, false, true, length, take};
ghost use Rattle.std.specs.List.{AllByRecursion};
ghost use Rattle.byteorder.specs.Endian.{big_bytes};
ghost use Rattle.rs_frame.specs.Requests.{request_frame};
ghost use Rattle.rs_frame.specs.Spelling.{IsSpellable};
ghost use Rattle.rs_frame.specs.Framed.{framed_all, framed_frame};

use byteorder::{BigEndian, ByteOrder};
use rs_frame::Frame;
use rs_wire::{Amount, Kind, Message, OutOfMemory};

// Appends the length of a frame.
fn put_length(out: &mut Vec<u8>, length: u32) -> Result<(), OutOfMemory>
    requires { length < 2 ^ 24 }
    ensures ok { OnOk result (out.new.items ≡ out.old.items ++ big_bytes 3 length) }
    ensures err { OnErr result (out.new.items ≡ out.old.items) }
{
    let mut bytes = [0; 3];
    BigEndian::write_u24(&mut bytes, length);
    out.extend_from_slice(&bytes)?;
    Ok(())
}

/// Appends the frame in its canonical bytes, after its length of 3 bytes (RSocket 1.0, "Framing
/// Protocol Usage"). Where memory runs out, nothing is appended.
pub fn frame_bytes(frame: &Frame, out: &mut Vec<u8>) -> Result<(), OutOfMemory>
    requires { IsSpellable frame.now }
    ensures ok { OnOk result (out.new.items ≡ out.old.items ++ framed_frame frame.now) }
    ensures err { OnErr result (out.new.items ≡ out.old.items) }
{
    let start = out.len();
    put_length(out, rs_frame::length(frame))?;
    let done = rs_frame::encode(frame, out);
    if done.is_err() {
        out.truncate(start);
    }
    done
}

/// Appends the PAYLOAD of an item as [`frame_bytes`] does. Its message stays its owner's. Where memory
/// runs out, nothing is appended.
pub fn item_bytes(
    stream: u32,
    complete: bool,
    message: &Message,
    out: &mut Vec<u8>,
) -> Result<(), OutOfMemory>
    requires { IsSpellable (Frame.Payload stream false complete true message.now) }
    ensures ok { OnOk result (out.new.items ≡ out.old.items ++
        framed_frame (Frame.Payload stream false complete true message.now)) }
    ensures err { OnErr result (out.new.items ≡ out.old.items) }
{
    let start = out.len();
    put_length(out, rs_frame::item_length(stream, complete, message))?;
    let done = rs_frame::encode_item(stream, complete, message, out);
    if done.is_err() {
        out.truncate(start);
    }
    done
}

/// Appends a request whose message is whole as [`frame_bytes`] does. Its message stays its owner's.
/// Where memory runs out, nothing is appended.
pub fn request_bytes(
    stream: u32,
    kind: Kind,
    initial: &Option<Amount>,
    complete: bool,
    message: &Message,
    out: &mut Vec<u8>,
) -> Result<(), OutOfMemory>
    requires { IsSpellable (request_frame stream kind initial.now message.now complete) }
    ensures ok { OnOk result (out.new.items ≡ out.old.items ++
        framed_frame (request_frame stream kind initial.now message.now complete)) }
    ensures err { OnErr result (out.new.items ≡ out.old.items) }
{
    let start = out.len();
    put_length(
        out,
        rs_frame::request_length(stream, kind, initial, complete, message),
    )?;
    let done = rs_frame::encode_request(stream, kind, initial, complete, message, out);
    if done.is_err() {
        out.truncate(start);
    }
    done
}

// Appends frame by frame; some of them, where memory runs out.
#[tactic(auto, using(std::proofs::lemmas::List::take_at))]
fn put_frames(frames: &[Frame], out: &mut Vec<u8>) -> Result<(), OutOfMemory>
    requires { AllByRecursion IsSpellable frames.now }
    ensures ok { OnOk result (out.new.items ≡ out.old.items ++ framed_all frames.now) }
    ensures err { OnErr result (take (length out.old.items) out.new.items ≡ out.old.items) }
{
    for frame in frames {
        frame_bytes(frame, out)?;
    }
    Ok(())
}

/// Appends each frame as [`frame_bytes`] does. Where memory runs out, nothing is appended.
pub fn frames_bytes(frames: &[Frame], out: &mut Vec<u8>) -> Result<(), OutOfMemory>
    requires { AllByRecursion IsSpellable frames.now }
    ensures ok { OnOk result (out.new.items ≡ out.old.items ++ framed_all frames.now) }
    ensures err { OnErr result (out.new.items ≡ out.old.items) }
{
    let before = out.len();
    let written = put_frames(frames, out);
    if written.is_err() {
        out.truncate(before);
    }
    written
}
