//! How long a message may be, and how much may wait.

ghost use Rattle.std.specs.Prelude.{◌≡◌, Some, false};
ghost use Rattle.ws_end.specs.declared.sizes.TheConstants.{MOST_FRAME};

use tungstenite::WebSocketConfig;

/// The most bytes of a frame, which a length of 24 bits can say.
pub const MOST_FRAME: usize = 16_777_215;

/// How many bytes wait in a socket at most while its stream has no room, headers not counted in:
/// the longest frame, and as many again of pongs and of shorter frames.
const MOST_WAITING: usize = 2 * MOST_FRAME;

/// The limits of a socket that carries frames: a message may be as long as a frame, a client masks
/// what it sends, and a peer that sends pings and reads nothing does not make the socket grow for
/// ever.
pub fn limits() -> WebSocketConfig
    ensures message { result.max_message_size ≡ Some MOST_FRAME }
    ensures part { result.max_frame_size ≡ Some MOST_FRAME }
    ensures masked { result.accept_unmasked_frames ≡ false }
{
    WebSocketConfig::default()
        .max_write_buffer_size(MOST_WAITING)
        .max_message_size(Some(MOST_FRAME))
        .max_frame_size(Some(MOST_FRAME))
}
