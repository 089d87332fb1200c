//! The verdict on RESUME.

ghost use Rattle.std.specs.Prelude.{◌≡◌, ◌↔◌, IsOk, Some, None, MatchResult};
ghost use Rattle.resume_core.specs.Resumption.{IsResumable, resume_fault};

use rs_frame::Resume;
use rs_wire::{Blob, Gone};

/// Judges a RESUME that came to a server. `token` is that of the session, `first` the position from
/// which frames are held, `end` the position where the frames made end, and `handled` that of the
/// frames handled, all in bytes. `boundary` says whether a held frame begins or ends at the server
/// position that RESUME has. The first of these faults is answered, and each leaves everything as it
/// was:
///
/// 1. [`Gone::Version`], with the major version of RESUME, where that is not 1;
/// 2. [`Gone::Token`], where the tokens differ in any byte;
/// 3. [`Gone::ServerGone`], with `first`, where the server position is below it;
/// 4. [`Gone::Ahead`], with `end`, where the server position is above it;
/// 5. [`Gone::NotBoundary`], where `boundary` is false;
/// 6. [`Gone::ClientGone`], with `handled`, where the client position is above it.
///
/// RSocket 1.0, "Resuming Operation".
pub fn judge_resume(
    frame: &Resume,
    token: &Blob,
    first: u64,
    end: u64,
    boundary: bool,
    handled: u64,
) -> Result<(), Gone>
    ensures accepted { IsOk result
        ↔ IsResumable frame.now token.now first end boundary handled }
    ensures first_fault { MatchResult result
        (λ _. resume_fault frame.now token.now first end boundary handled ≡ None)
        (λ gone. resume_fault frame.now token.now first end boundary handled ≡ Some gone) }
{
    if frame.major != 1 {
        return Err(Gone::Version(frame.major));
    }
    if frame.token != *token {
        return Err(Gone::Token);
    }
    if frame.server_position < first {
        return Err(Gone::ServerGone(first));
    }
    if frame.server_position > end {
        return Err(Gone::Ahead(end));
    }
    if !boundary {
        return Err(Gone::NotBoundary);
    }
    if frame.client_position > handled {
        return Err(Gone::ClientGone(handled));
    }
    Ok(())
}
