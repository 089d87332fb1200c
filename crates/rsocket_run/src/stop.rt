//! Why a run stops before its work is done.

ghost use Rattle.std.specs.Prelude.{◌≡◌};
ghost use Rattle.rsocket_run.specs.Stops.{of_capture, of_input, of_script, of_text};
ghost use Rattle.rsocket_run.specs.declared.stop.Stop.TheVariants as stops;

use crate::input::Unread;
use cable_script::ScriptFault;
use capture::{BadFrame, CaptureFault, LineFault};
use rs_wire::OutOfMemory;

/// Why a run stops, in the order of the statuses.
#[derive(Clone, Copy, Debug, PartialEq, Eq)]
pub enum Stop {
    /// Status 2: the words are none of the program's commands.
    Usage,
    /// Status 3: the line of this number, from 1, is the first that is wrong; 0 where a script is
    /// too long.
    WrongLine(u32),
    /// Status 4: the input could not be read.
    ReadFault,
    /// Status 6: there was not enough memory.
    OutOfMemory,
    /// Status 11: the frame whose length field begins at `place`, in bytes from 0, is the first
    /// that can't be read.
    BadFrame { place: u32, bad: BadFrame },
}

impl From<OutOfMemory> for Stop {
    ghost from_gives = { λ _ s. s ≡ stops.OutOfMemory };

    fn from(_error: OutOfMemory) -> Stop {
        Stop::OutOfMemory
    }
}

impl From<Unread> for Stop {
    ghost from_gives = { λ fault s. s ≡ of_input fault };

    fn from(fault: Unread) -> Stop {
        match fault {
            Unread::Fault => Stop::ReadFault,
            Unread::OutOfMemory => Stop::OutOfMemory,
        }
    }
}

impl From<ScriptFault> for Stop {
    ghost from_gives = { λ fault s. s ≡ of_script fault };

    fn from(fault: ScriptFault) -> Stop {
        match fault {
            ScriptFault::Line(number) => Stop::WrongLine(number),
            ScriptFault::OutOfMemory => Stop::OutOfMemory,
        }
    }
}

impl From<CaptureFault> for Stop {
    ghost from_gives = { λ fault s. s ≡ of_capture fault };

    fn from(fault: CaptureFault) -> Stop {
        match fault {
            CaptureFault::Frame { place, bad } => Stop::BadFrame { place, bad },
            CaptureFault::OutOfMemory => Stop::OutOfMemory,
        }
    }
}

impl From<LineFault> for Stop {
    ghost from_gives = { λ fault s. s ≡ of_text fault };

    fn from(fault: LineFault) -> Stop {
        match fault {
            LineFault::Line(number) => Stop::WrongLine(number),
            LineFault::OutOfMemory => Stop::OutOfMemory,
        }
    }
}
