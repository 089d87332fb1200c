//! The verdict on a first frame.

ghost use Rattle.std.specs.Prelude.{◌≡◌, ◌↔◌, IsOk, Some, None, MatchResult};
ghost use Rattle.setup_core.specs.Setup.{IsAcceptable, setup_fault};

use rs_frame::{Frame, Setup};
use rs_wire::{Checked, Settings, SetupFault};

fn judge_setup(setup: &Setup, settings: &Settings, taken: bool) -> Result<(), SetupFault>
    ensures { MatchResult result
        (λ _. setup_fault (Frame.Setup setup.now) settings.now taken ≡ None)
        (λ fault. setup_fault (Frame.Setup setup.now) settings.now taken ≡ Some fault) }
{
    if setup.major != 1 {
        return Err(SetupFault::BadVersion(setup.major, setup.minor));
    }
    if setup.resume.is_some() && !settings.resume {
        return Err(SetupFault::NoResume);
    }
    if setup.lease && !settings.lease {
        return Err(SetupFault::NoLease);
    }
    if taken {
        return Err(SetupFault::TokenTaken);
    }
    Ok(())
}

/// Judges the first frame of a connection, on a server with these settings. `taken` says whether
/// another session has the token that SETUP names. The first of these faults is answered, and each
/// leaves everything as it was:
///
/// 1. [`SetupFault::NotFirst`], where the frame is no SETUP;
/// 2. [`SetupFault::BadVersion`], with the major and the minor version of SETUP, where the major is
///    not 1;
/// 3. [`SetupFault::NoResume`], where SETUP has a token for resumption and the settings have no
///    resumption;
/// 4. [`SetupFault::NoLease`], where SETUP asks for leases and the settings have none;
/// 5. [`SetupFault::TokenTaken`], where `taken` is true.
///
/// RSocket 1.0, "Setup".
pub fn judge(first: &Frame, settings: &Checked, taken: bool) -> Result<(), SetupFault>
    ensures accepted { IsOk result ↔ IsAcceptable first.now settings.now taken }
    ensures first_fault { MatchResult result
        (λ _. setup_fault first.now settings.now taken ≡ None)
        (λ fault. setup_fault first.now settings.now taken ≡ Some fault) }
{
    match first {
        Frame::Setup(setup) => judge_setup(setup, settings.settings(), taken),
        _ => Err(SetupFault::NotFirst),
    }
}
