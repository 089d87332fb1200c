//! The amounts that an event brings.

ghost use Rattle.session_model.specs.Legal.{AmountsFit, CanBring, IsFair};

use rs_wire::{Call, Checked};
use tape::Event;

/// The amounts that a call brings each have their range. It does nothing.
pub fn call_amounts_fit(call: &Call)
    ensures { AmountsFit call.now }
{
    match call {
        Call::Request {
            initial: Some(n),
            ..
        }
        | Call::Grant { n, .. } => {
            let _granted = n.get();
        }
        Call::Lease { ttl, count, .. } => {
            let _leased = (ttl.get(), count.get());
        }
        _ => {}
    }
}

/// The amounts that an event brings each have their range. It does nothing.
pub fn amounts_fit(settings: &Checked, event: &Event)
    requires brings { CanBring settings.now event.now }
    ensures fair { IsFair settings.now event.now }
{
    if let Event::Asked(call) = event {
        call_amounts_fit(call);
    }
}
