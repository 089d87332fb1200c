//! When a KEEPALIVE is due, and when a peer is dead.

use keepalive::{Due, Timer};
use rs_wire::Amount;

/// What happens at a timer. Moments and spans are in milliseconds.
#[derive(Clone, Copy)]
enum Step {
    /// A moment comes, and this is due.
    Tick(u64, Due),
    /// A KEEPALIVE is sent.
    Sent,
    /// Something comes.
    Came,
    /// This is the next moment at which something is due.
    Next(u128),
}

/// A timer, and what happens at it.
#[derive(Clone, Copy)]
struct Row {
    shows: &'static str,
    interval: u32,
    lifetime: u32,
    now: u64,
    sends: bool,
    steps: &'static [Step],
}

const ROWS: &[Row] = &[
    Row {
        shows: "a KEEPALIVE is due at the interval",
        interval: 20_000,
        lifetime: 90_000,
        now: 5,
        sends: true,
        steps: &[
            Step::Tick(5, Due::Nothing),
            Step::Next(20_005),
            Step::Tick(20_004, Due::Nothing),
            Step::Tick(20_005, Due::Send),
            Step::Tick(20_006, Due::Send),
            Step::Next(20_005),
            Step::Sent,
            Step::Next(40_006),
            Step::Tick(40_005, Due::Nothing),
            Step::Tick(40_006, Due::Send),
        ],
    },
    Row {
        shows: "a peer is dead at the lifetime",
        interval: 20_000,
        lifetime: 90_000,
        now: 0,
        sends: true,
        steps: &[
            Step::Tick(20_000, Due::Send),
            Step::Sent,
            Step::Next(40_000),
            Step::Came,
            Step::Next(40_000),
            Step::Tick(109_999, Due::Send),
            Step::Sent,
            Step::Next(110_000),
            Step::Tick(110_000, Due::Dead(20_000)),
            Step::Next(110_000),
        ],
    },
    Row {
        shows: "a dead peer comes before a sending",
        interval: 1_000,
        lifetime: 1_000,
        now: 0,
        sends: true,
        steps: &[
            Step::Next(1_000),
            Step::Tick(999, Due::Nothing),
            Step::Tick(1_000, Due::Dead(0)),
        ],
    },
    Row {
        shows: "an end that does not send waits for the lifetime",
        interval: 20_000,
        lifetime: 90_000,
        now: 0,
        sends: false,
        steps: &[
            Step::Next(90_000),
            Step::Tick(20_000, Due::Nothing),
            Step::Tick(89_999, Due::Nothing),
            Step::Tick(90_000, Due::Dead(0)),
        ],
    },
    Row {
        shows: "the greatest moments have room for the spans",
        interval: 20_000,
        lifetime: 90_000,
        now: u64::MAX - 20_000,
        sends: true,
        steps: &[
            Step::Tick(u64::MAX - 1, Due::Nothing),
            Step::Next(0xffff_ffff_ffff_ffff),
            Step::Tick(u64::MAX, Due::Send),
            Step::Sent,
            Step::Next(0x1_0000_0000_0000_4e1f),
            Step::Tick(0, Due::Nothing),
        ],
    },
];

// Whether the step comes at the timer as it says.
fn comes(timer: &mut Timer, step: Step) -> bool {
    match step {
        Step::Tick(now, due) => timer.tick(now) == due,
        Step::Sent => {
            timer.sent();
            true
        }
        Step::Came => {
            timer.came();
            true
        }
        Step::Next(moment) => timer.next_due() == moment,
    }
}

// Whether all steps come as they say.
fn plays(row: &Row) -> Option<bool> {
    let interval = Amount::of(row.interval)?;
    let lifetime = Amount::of(row.lifetime)?;
    let mut timer = Timer::new(interval, lifetime, row.now, row.sends);
    let mut right = true;
    for step in row.steps {
        right = comes(&mut timer, *step) && right;
    }
    Some(right)
}

#[test]
fn timers_tell_what_is_due(rt: HostRuntime) {
    for row in ROWS {
        assert!(rt; plays(row) == Some(true), "{}", row.shows);
    }
}
