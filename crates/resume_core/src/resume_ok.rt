//! The verdict on RESUME_OK.

ghost use Rattle.std.specs.Prelude.{◌≡◌, ◌↔◌, IsOk, Some, None, MatchResult};
ghost use Rattle.resume_core.specs.Resumption.{IsHeld, ok_fault};

use rs_wire::Gone;

/// Judges the position that a RESUME_OK gives a resuming client. `first` is the position from which
/// frames are held and `end` the position where the frames made end, in bytes; `boundary` says
/// whether a held frame begins or ends at `position`. The first of these faults is answered, and
/// each leaves everything as it was:
///
/// 1. [`Gone::ClientGone`], with `first`, where the position is below it;
/// 2. [`Gone::Ahead`], with `end`, where the position is above it;
/// 3. [`Gone::NotBoundary`], where `boundary` is false.
///
/// RSocket 1.0, "Resuming Operation".
pub fn judge_ok(position: u64, first: u64, end: u64, boundary: bool) -> Result<(), Gone>
    ensures accepted { IsOk result ↔ IsHeld position first end boundary }
    ensures first_fault { MatchResult result
        (λ _. ok_fault position first end boundary ≡ None)
        (λ gone. ok_fault position first end boundary ≡ Some gone) }
{
    if position < first {
        return Err(Gone::ClientGone(first));
    }
    if position > end {
        return Err(Gone::Ahead(end));
    }
    if !boundary {
        return Err(Gone::NotBoundary);
    }
    Ok(())
}
