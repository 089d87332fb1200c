//! Leases of both directions, as they go on by an event and its answer (RSocket 1.0, "Lease
//! Semantics").

ghost use Rattle.std.specs.Prelude.{◌≡◌, ◌<◌, ◌^◌};
ghost use Rattle.lease.specs.Lease.{lease_fault};
ghost use Rattle.session_model.specs.Answers.{by_agreement, by_lease, lease_refused, leases_by};
ghost use Rattle.session_core.specs.Fits.{facts_of};
ghost use Rattle.session_core.specs.Leasing.{LetsStart, covers_next, lease_after, sum_after};

use crate::life::agrees_leases;
use crate::state::State;
use lease::{Granted, Lease, LeaseFault};
use rs_frame::Frame;
use rs_wire::{Call, Checked, Refusal};
use tape::{Answer, Event};

/// Whether leases are agreed.
pub fn leases_agreed(settings: &Checked, state: &State) -> bool
    ensures { result ≡ leases_by settings.now (facts_of state.now) }
{
    agrees_leases(settings.settings(), &state.setup)
}

/// Whether the next request of the peer's is covered: no leases are agreed, or fewer were covered
/// than this end let it make, in sum over the session.
pub fn is_covered(settings: &Checked, state: &State) -> bool
    ensures { result ≡ covers_next settings.now state.now }
{
    !leases_agreed(settings, state) || state.granted.would_admit()
}

/// Why a call is refused for what is agreed: a LEASE needs that leases are.
pub fn by_agreement(settings: &Checked, state: &State, call: &Call) -> Option<Refusal>
    ensures { result ≡ by_agreement settings.now (facts_of state.now) call.now }
{
    match call {
        Call::Lease { .. } if state.begun && !leases_agreed(settings, state) => {
            Some(Refusal::WrongKind)
        }
        _ => None,
    }
}

// Why the lease lets no request through now, where it lets none.
fn lease_fault(state: &State) -> Option<LeaseFault>
    ensures { result ≡ lease_fault state.now.lease state.now.timer.moment }
{
    match state.lease.may(state.timer.moment()) {
        Ok(()) => None,
        Err(fault) => Some(fault),
    }
}

fn lease_refused(fault: Option<LeaseFault>) -> Option<Refusal>
    ensures { result ≡ lease_refused fault }
{
    match fault {
        None => None,
        Some(LeaseFault::Used(count)) => Some(Refusal::NoLease(count)),
        Some(LeaseFault::Over(expires)) => Some(Refusal::LeaseOver(expires)),
    }
}

/// Why a call is refused for its lease: where leases are agreed, a request needs one that is
/// neither used up nor over.
pub fn by_lease(settings: &Checked, state: &State, call: &Call) -> Option<Refusal>
    ensures { result ≡ by_lease settings.now (facts_of state.now) call.now }
{
    match call {
        Call::Request { .. } if state.begun && leases_agreed(settings, state) => {
            lease_refused(lease_fault(state))
        }
        _ => None,
    }
}

/// What the peer lets this end ask, after an event and its answer at a moment: it ends with its
/// connection, a LEASE replaces it, and a request uses one of it.
#[tactic(auto, using(crate::proofs::Leases::started))]
pub fn take_lease(lease: &mut Lease, agreed: bool, now: u64, event: &Event, answer: &Answer)
    requires { LetsStart agreed answer.now lease.old }
    ensures { lease.new ≡ lease_after agreed now answer.now event.now lease.old }
{
    match (answer, event) {
        (Answer::Opened(_) | Answer::Parted | Answer::Dead(_), _) => lease.gone(),
        (
            Answer::Handled,
            Event::Came {
                frame: Frame::Lease { ttl, count, .. },
                ..
            },
        ) if agreed => lease.grant(now, *ttl, *count),
        (Answer::Started(_), _) if agreed => lease.use_one(),
        _ => {}
    }
}

/// What this end lets its peer ask, after an event and its answer: a LEASE lets it ask more, and a
/// request that comes is counted where it is covered.
pub fn let_in(granted: &mut Granted, agreed: bool, event: &Event, answer: &Answer)
    requires { granted.old.granted < 2 ^ 100 }
    ensures { granted.new ≡ sum_after agreed answer.now event.now granted.old }
{
    match (answer, event) {
        (Answer::Done, Event::Asked(Call::Lease { count, .. })) => granted.grant(*count),
        (
            Answer::Handled,
            Event::Came {
                frame: Frame::Request(_),
                ..
            },
        ) if agreed => {
            let _covered = granted.admit();
        }
        _ => {}
    }
}
