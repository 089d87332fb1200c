//! When nothing is left to cross.

ghost use Rattle.std.specs.Prelude.{◌≡◌, ◌≢◌, ◌⊎◌, List, true, length, Option, Some};
ghost use Rattle.rs_wire.specs.declared.settings.Settings.{Settings};
ghost use Rattle.rs_chunk.specs.Stream.{IsTooLong};
ghost use Rattle.tape.specs.declared.entry.Entry.{Entry};
ghost use Rattle.session_model.specs.Life.{live};
ghost use Rattle.session_model.specs.Frames.{queued};
ghost use Rattle.link_model.specs.Carrying.{Between};
ghost use Rattle.pump.specs.Turns.{IsEmptied};
ghost use Rattle.threaded_server.specs.Carrying.{IsEmptiedOn};
ghost use Rattle.threaded_drain.specs.Resting.{IsDoneThere};

use conn::Looked;
use rs_chunk::{Front, Reader};
use threaded_server::Knows;

// Whether a length that is too long stands in front.
fn is_too_long(reader: &Reader) -> bool
    ensures { result ≡ true → IsTooLong reader.now.bytes reader.now.max_in }
{
    matches!(reader.front(), Front::TooLong(_))
}

/// Whether all is done at the server on the connection that joins the ends, where the server looks so,
/// and nothing that can come stands in front at the client, or at the server.
pub(crate) fn is_done(knows: &Knows, far: &Looked, near_heard: bool, far_heard: bool) -> bool
    ensures { (h : Settings) (S : List Entry) (b : Between) → result ≡ true →
        far.now.live ≡ live S → far.now.queued ≡ queued h S →
        (near_heard ≡ true → IsEmptied b) → (far_heard ≡ true → IsEmptiedOn knows.now) →
        IsDoneThere h S b knows.now }
{
    match knows {
        Knows::Nothing(reader) => is_too_long(reader),
        Knows::Accepted { conn, .. } => {
            far.live != *conn || (far.queued == 0 && near_heard && far_heard)
        }
        Knows::Refused { bytes, pushed } => *pushed == bytes.len() && near_heard,
    }
}
