//! Frames that go out.

ghost use Rattle.std.specs.Prelude.{◌≡◌, ◌≢◌, IsTrue};
ghost use Rattle.tungstenite.specs.Connection.{write_step};
ghost use Rattle.tungstenite.specs.Content.{binary};
ghost use Rattle.tungstenite.specs.Failure.{IsIo};
ghost use Rattle.tungstenite.specs.Socket.{Flushed as IsFlushed, Writes};
ghost use Rattle.ws_end.specs.Messages.{SendsAll};

use rs_chunk::{Front, Reader};
use std::alloc::Global;
use std::io::{ErrorKind, Read, Write};
use tungstenite::{Error, MaskKeys, Message, WebSocket};

/// What became of bytes that wait to be sent.
#[derive(Clone, Copy, Debug, PartialEq, Eq)]
pub(crate) enum Flushed {
    /// None is left.
    All,
    /// Some wait until the stream has room for them.
    Waits,
    /// The stream failed.
    Failed,
}

/// Whether the stream would have to wait.
pub(crate) fn is_wait(error: &Error) -> bool
    ensures { IsTrue result → IsIo error.now }
{
    match error {
        Error::Io(cause) => matches!(cause.kind(), ErrorKind::WouldBlock | ErrorKind::Interrupted),
        _ => false,
    }
}

// Sends a frame as one binary message. Whether it is on its way: its bytes may wait for room.
fn send_frame<S: Read + Write + Drop, K: MaskKeys + Drop>(
    socket: &mut WebSocket<S, K>,
    alloc: Global,
    frame: &[u8],
) -> bool
    ensures sent { IsTrue result → Writes S.contents socket.old socket.new
        (write_step socket.old.conn (binary frame.now)) }
{
    let Ok(message) = Message::binary(alloc, frame) else {
        return false;
    };
    match socket.write(message) {
        Ok(()) => true,
        Err(error) => is_wait(&error),
    }
}

/// Sends the frames that are whole, each as one binary message, of which there are at most so many.
/// Whether all went well.
pub(crate) fn send_whole<S: Read + Write + Drop, K: MaskKeys + Drop>(
    socket: &mut WebSocket<S, K>,
    alloc: Global,
    part: &mut Reader,
    most: usize,
) -> bool
    ensures sent { IsTrue result → SendsAll S.contents socket.old socket.new
        part.old.bytes part.new.bytes }
{
    for _ in 0..most {
        let Front::Whole(frame) = part.front() else {
            break;
        };
        if !send_frame(socket, alloc, frame) {
            return false;
        }
        part.pass();
    }
    true
}

/// Sends what waits, as much as the stream has room for.
pub(crate) fn flush<S: Read + Write + Drop, K: MaskKeys + Drop>(
    socket: &mut WebSocket<S, K>,
) -> Flushed
    ensures { IsFlushed S.contents socket.old socket.new }
{
    match socket.flush() {
        Ok(()) => Flushed::All,
        Err(error) => {
            if is_wait(&error) {
                Flushed::Waits
            } else {
                Flushed::Failed
            }
        }
    }
}
