//! The codes of the ERROR frames that name a fault of the first frame.

ghost use Rattle.std.specs.Prelude.{◌≡◌};
ghost use Rattle.setup_core.specs.Setup.{code_of};

use rs_wire::SetupFault;

const INVALID_SETUP: u32 = 0x001;

const UNSUPPORTED_SETUP: u32 = 0x002;

const REJECTED_SETUP: u32 = 0x003;

/// The code of the ERROR frame on stream 0 that names the fault: INVALID_SETUP (0x001) for
/// [`SetupFault::NotFirst`] and [`SetupFault::BadVersion`], UNSUPPORTED_SETUP (0x002) for
/// [`SetupFault::NoResume`] and [`SetupFault::NoLease`], REJECTED_SETUP (0x003) for
/// [`SetupFault::TokenTaken`]. RSocket 1.0, "Error Codes", which leaves the choice among these to
/// the server.
pub fn code_of(fault: &SetupFault) -> u32
    ensures { result ≡ code_of fault.now }
{
    match fault {
        SetupFault::NotFirst | SetupFault::BadVersion(_, _) => INVALID_SETUP,
        SetupFault::NoResume | SetupFault::NoLease => UNSUPPORTED_SETUP,
        SetupFault::TokenTaken => REJECTED_SETUP,
    }
}
