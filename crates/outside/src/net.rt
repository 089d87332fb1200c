//! Where links come from.

ghost use Rattle.std.specs.Prelude.{◌≡◌, ◌-◌, ◌≤◌, ◌<◌, ℕ, List, Option, Err, IfOk, is_ok, if◌then◌else◌};
ghost use Rattle.outside.specs.Causes.{one_more, Rose};
ghost use Rattle.outside.specs.Links.{and_then_one, IsNew, Shown};
ghost use Rattle.outside.specs.Nets.{asked_after, faults_after};
ghost use Rattle.outside.specs.declared.net.Ask.{Ask};

use crate::link::Link;
use rs_wire::{Blob, OutOfMemory};
use std::alloc::{AllocError, AllocFailed};
use thiserror::Error;

/// What a net was asked for.
#[derive(Debug, Drop, PartialEq, Eq)]
pub enum Ask {
    /// A link to this address, over WebSocket or over TCP.
    Dial { address: Blob, ws: bool },
    /// To hear of links that others open to this address.
    Listen { address: Blob },
    /// The next of these links, over WebSocket or over TCP.
    Accept { ws: bool },
}

/// Why a net did not do what it was asked for.
#[derive(Clone, Copy, Debug, PartialEq, Eq, Error)]
pub enum NetFault {
    /// A fault, which is counted.
    #[error("the net failed")]
    Failed,
    /// There was not enough memory. The net is as before, and the call is not in the list of calls.
    #[error("out of memory")]
    OutOfMemory,
}

impl From<OutOfMemory> for NetFault {
    ghost use Rattle.std.specs.Prelude.{◌≡◌};
    ghost use Rattle.outside.specs.declared.net.NetFault.TheVariants as faults;

    ghost from_gives = { λ _ fault. fault ≡ faults.OutOfMemory };

    fn from(_error: OutOfMemory) -> NetFault {
        NetFault::OutOfMemory
    }
}

impl From<AllocError> for NetFault {
    ghost use Rattle.std.specs.Prelude.{◌≡◌};
    ghost use Rattle.outside.specs.declared.net.NetFault.TheVariants as faults;

    ghost from_gives = { λ _ fault. fault ≡ faults.OutOfMemory };

    fn from(_error: AllocError) -> NetFault {
        NetFault::OutOfMemory
    }
}

impl<T: Drop> From<AllocFailed<T>> for NetFault {
    ghost use Rattle.std.specs.Prelude.{◌≡◌};
    ghost use Rattle.outside.specs.declared.net.NetFault.TheVariants as faults;

    ghost from_gives = { λ _ fault. fault ≡ faults.OutOfMemory };

    fn from(_error: AllocFailed<T>) -> NetFault {
        NetFault::OutOfMemory
    }
}

/// Where links come from, and where they are put back.
pub trait Net {
    type Link: Link;

    /// The dials, listens and accepts made, with those that failed. A net that does not show them
    /// has `None`, for ever.
    ghost asked: { Self → Option (List Ask) };

    /// The links put back, in their order, as they were then. A net that does not tell them has
    /// `None`, for ever.
    ghost back: { Self → Option (List Shown) };

    /// How many links were handed out and not put back.
    ghost out: { Self → ℕ };

    /// How many calls failed; where a u64 ends, the count stands still.
    ghost faults: { Self → ℕ };

    /// A new link to the address, over WebSocket where `ws`, and else over TCP.
    fn dial(&mut self, address: &Blob, ws: bool) -> Result<Self::Link, NetFault>
        ensures new { IfOk result (λ link. IsNew (Self.Link.shown link)) }
        ensures asked { asked self.new ≡ asked_after result (asked self.old)
            (Ask.Dial address.now ws) }
        ensures out { out self.new ≡ (if is_ok result then one_more
            (out self.old) else out self.old) }
        ensures back { back self.new ≡ back self.old }
        ensures counted { faults self.old ≤ faults self.new }
        ensures cause { result ≡ Err NetFault.Failed → Rose (faults self.old) (faults self.new) }
        ensures faults { faults self.new ≡ faults_after result (faults self.old) };

    /// Makes the net hear of links that others open to the address.
    fn listen(&mut self, address: &Blob) -> Result<(), NetFault>
        ensures asked { asked self.new ≡ asked_after result (asked self.old)
            (Ask.Listen address.now) }
        ensures out { out self.new ≡ out self.old }
        ensures back { back self.new ≡ back self.old }
        ensures counted { faults self.old ≤ faults self.new }
        ensures cause { result ≡ Err NetFault.Failed → Rose (faults self.old) (faults self.new) }
        ensures faults { faults self.new ≡ faults_after result (faults self.old) };

    /// The next link that another opened, over WebSocket where `ws`, and else over TCP.
    fn accept(&mut self, ws: bool) -> Result<Self::Link, NetFault>
        ensures new { IfOk result (λ link. IsNew (Self.Link.shown link)) }
        ensures asked { asked self.new ≡ asked_after result (asked self.old) (Ask.Accept ws) }
        ensures out { out self.new ≡ (if is_ok result then one_more
            (out self.old) else out self.old) }
        ensures back { back self.new ≡ back self.old }
        ensures counted { faults self.old ≤ faults self.new }
        ensures cause { result ≡ Err NetFault.Failed → Rose (faults self.old) (faults self.new) }
        ensures faults { faults self.new ≡ faults_after result (faults self.old) };

    /// Hears no more of links that others open: the address is free, and who opens a link to it is refused
    /// by the system. It asks for nothing, and can't fail. A net in memory, which no other opens links to,
    /// does nothing.
    fn stop_listening(&mut self)
        ensures asked { asked self.new ≡ asked self.old }
        ensures out { out self.new ≡ out self.old }
        ensures back { back self.new ≡ back self.old }
        ensures faults { faults self.new ≡ faults self.old }
    {}

    /// Takes a link back: more were handed out than put back. Its place was reserved as it was
    /// handed out.
    fn put_back(&mut self, link: Self::Link)
        requires { 0 < out self.old }
        ensures back { back self.new ≡ and_then_one (back self.old) (Self.Link.shown link) }
        ensures out { out self.new ≡ out self.old - 1 }
        ensures asked { asked self.new ≡ asked self.old }
        ensures faults { faults self.new ≡ faults self.old };
}
