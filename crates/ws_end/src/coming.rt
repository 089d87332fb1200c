//! Messages that come, and the bytes that are taken of them.

ghost use Rattle.std.specs.Prelude.{◌≡◌, ◌≢◌, ◌<◌, ◌^◌, ◌++◌, length, take, drop, min};
ghost use Rattle.rs_frame.specs.Framed.{framed};
ghost use Rattle.tungstenite.specs.Failure.{IsIo};
ghost use Rattle.ws_end.specs.Messages.{CameAsControl, CameAsFrame, CameNothing, IsFrameOf, IsPingOrPong};

use crate::sending::is_wait;
use crate::sizes::MOST_FRAME;
use byte_queue::ByteQueue;
use byteorder::{BigEndian, ByteOrder};
use std::io::{Read, Write};
use tungstenite::{Error, MaskKeys, Message, WebSocket};
use websocket::error::ProtocolError;

/// What came.
#[derive(Clone, Copy, Debug, PartialEq, Eq)]
pub(crate) enum Came {
    /// A binary message, which was appended as a frame after its length.
    Frame,
    /// A ping or a pong. The socket answers pings itself.
    Control,
    /// Nothing for now.
    Nothing,
    /// The peer closed the WebSocket, or its stream ended.
    End,
    /// What may not come, or the stream failed, or there was not enough memory.
    Failed,
}

// Appends a frame after its length.
fn put_frame(frame: &[u8], frames: &mut ByteQueue) -> Came
    ensures control { result ≢ Came.Control }
    ensures put { result ≡ Came.Frame → (length frame.now < 2 ^ 24) ×
        (frames.new.bytes ≡ frames.old.bytes ++ framed frame.now) }
    ensures only { result ≢ Came.Frame → frames.new.bytes ≡ frames.old.bytes }
    ensures something { result ≢ Came.Nothing }
{
    if frame.len() > MOST_FRAME {
        return Came::Failed;
    }
    let mut length = [0; 3];
    BigEndian::write_u24(&mut length, frame.len() as u32);
    if frames.reserve(3 + frame.len()).is_err() {
        return Came::Failed;
    }
    let put = frames.append(&length).is_ok() && frames.append(frame).is_ok();
    if put { Came::Frame } else { Came::Failed }
}

// What a message is, which is appended where it is a frame.
fn keep(message: &Message, frames: &mut ByteQueue) -> Came
    ensures frame { result ≡ Came.Frame →
        IsFrameOf message.now frames.old.bytes frames.new.bytes }
    ensures control { result ≡ Came.Control → IsPingOrPong message.now }
    ensures something { result ≢ Came.Nothing }
    ensures only { result ≢ Came.Frame → frames.new.bytes ≡ frames.old.bytes }
{
    match message {
        Message::Binary(bytes) => put_frame(bytes.as_slice(), frames),
        Message::Text(_) => Came::Failed,
        Message::Ping(_) | Message::Pong(_) => Came::Control,
        Message::Close(_) => Came::End,
    }
}

// What an error of a read is.
fn came_of(error: &Error) -> Came
    ensures frame { result ≢ Came.Frame }
    ensures control { result ≢ Came.Control }
    ensures nothing { result ≡ Came.Nothing → IsIo error.now }
{
    if is_wait(error) {
        return Came::Nothing;
    }
    match error {
        Error::ConnectionClosed | Error::Protocol(ProtocolError::ResetWithoutClosingHandshake) =>
            Came::End,
        _ => Came::Failed,
    }
}

/// Reads one message, and appends it where it is a frame.
pub(crate) fn next_message<S: Read + Write + Drop, K: MaskKeys + Drop>(
    socket: &mut WebSocket<S, K>,
    frames: &mut ByteQueue,
) -> Came
    ensures frame { result ≡ Came.Frame →
        CameAsFrame S.remaining socket.old socket.new frames.old.bytes frames.new.bytes }
    ensures control { result ≡ Came.Control →
        CameAsControl S.remaining socket.old socket.new }
    ensures nothing { result ≡ Came.Nothing → CameNothing S.remaining socket.old socket.new }
    ensures only { result ≢ Came.Frame → frames.new.bytes ≡ frames.old.bytes }
{
    match socket.read() {
        Ok(message) => keep(&message, frames),
        Err(error) => came_of(&error),
    }
}

/// Moves the first bytes of the frames to the front of the buffer, as many as there are and fit, and
/// says how many.
pub(crate) fn hand_out(frames: &mut ByteQueue, buffer: &mut [u8]) -> usize
    ensures count { result ≡ min (length frames.old.bytes) (length buffer.old) }
    ensures bytes { take result buffer.new ≡ take result frames.old.bytes }
    ensures rest { frames.new.bytes ≡ drop result frames.old.bytes }
    ensures same { length buffer.new ≡ length buffer.old }
{
    let came = frames.as_slice();
    let count = came.len().min(buffer.len());
    buffer[..count].copy_from_slice(&came[..count]);
    frames.drop_front(count);
    count
}
