//! Leases.

use lease::{Granted, Lease, LeaseFault};
use rs_wire::Amount;

/// What happens at a lease. Moments and spans are in milliseconds.
#[derive(Clone, Copy)]
enum Step {
    /// It is granted at a moment, for a span, and for so many requests.
    Grant(u64, u32, u32),
    /// A request may be made at this moment, and is.
    Use(u64),
    /// Its connection is gone, and it is as a new one.
    Gone,
    /// Whether a request may be made at this moment.
    May(u64, Result<(), LeaseFault>),
}

/// What happens at a new lease, in turn.
const ROWS: &[(&str, &[Step])] = &[
    (
        "a lease is used up by its count",
        &[
            Step::May(0, Err(LeaseFault::Used(0))),
            Step::Grant(0, 1_000, 2),
            Step::May(0, Ok(())),
            Step::Use(0),
            Step::May(0, Ok(())),
            Step::Use(0),
            Step::May(0, Err(LeaseFault::Used(2))),
        ],
    ),
    (
        "a lease is over at its end",
        &[
            Step::Grant(100, 50, 10),
            Step::May(149, Ok(())),
            Step::May(150, Err(LeaseFault::Over(150))),
            Step::May(151, Err(LeaseFault::Over(150))),
        ],
    ),
    (
        "a lease that is used up and over in one moment is used up",
        &[
            Step::Grant(100, 50, 1),
            Step::Use(100),
            Step::May(150, Err(LeaseFault::Used(1))),
        ],
    ),
    (
        "a lease of no time or no count lets nothing through",
        &[
            Step::Grant(0, 0, 5),
            Step::May(0, Err(LeaseFault::Over(0))),
            Step::Grant(0, 1_000, 0),
            Step::May(0, Err(LeaseFault::Used(0))),
        ],
    ),
    (
        "a lease replaces the former one and ends with its connection",
        &[
            Step::Grant(0, 1_000, 1),
            Step::Use(0),
            Step::Grant(u64::MAX, u32::MAX, 1),
            Step::May(u64::MAX, Ok(())),
            Step::Gone,
            Step::May(0, Err(LeaseFault::Used(0))),
        ],
    ),
];

// Whether the step comes at the lease as it says.
fn comes(lease: &mut Lease, step: Step) -> bool {
    match step {
        Step::Grant(now, span, count) => {
            lease.grant(now, span, count);
            true
        }
        Step::Use(now) => {
            let may = lease.may(now).is_ok();
            if may {
                lease.use_one();
            }
            may
        }
        Step::Gone => {
            lease.gone();
            *lease == Lease::new()
        }
        Step::May(now, wanted) => lease.may(now) == wanted,
    }
}

// Whether all steps come as they say.
fn plays(steps: &[Step]) -> bool {
    let mut lease = Lease::new();
    let mut right = true;
    for step in steps {
        right = comes(&mut lease, *step) && right;
    }
    right
}

#[test]
fn a_lease_lets_through_what_it_counts_until_its_end(rt: HostRuntime) {
    for (shows, steps) in ROWS {
        assert!(rt; plays(steps), "{shows}");
    }
}

#[test]
fn a_responder_admits_as_many_as_it_granted_in_sum(rt: HostRuntime) {
    let mut granted = Granted::new();
    assert!(rt; !granted.would_admit() && !granted.admit());
    granted.grant(Amount::of(1).expect(&rt, "an amount"));
    assert!(rt; granted.would_admit() && granted.admit() && !granted.admit());
    granted.grant(Amount::of(2).expect(&rt, "an amount"));
    assert!(rt; granted.admit() && granted.admit() && !granted.admit());
}

/// Faults, and what they say.
const SENTENCES: &[(LeaseFault, &str)] = &[
    (
        LeaseFault::Used(2),
        "all 2 requests that were allowed are used",
    ),
    (
        LeaseFault::Over(1_000),
        "the lease is over since the moment 1000 ms",
    ),
];

#[test]
fn a_fault_says_why_in_a_sentence(rt: HostRuntime) {
    for (fault, sentence) in SENTENCES {
        let told = format!(in rt.alloc(); "{fault}").expect(&rt, "there is memory");
        let is_so = told.as_str() == *sentence;
        drop(told);
        assert!(rt; is_so, "{sentence}");
    }
}
