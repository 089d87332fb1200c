//! Times of steps that are made many times in a row.

use std::time::{Clock, Instant};

/// How often each kind is timed.
pub const ROUNDS: usize = 21;

/// What some steps took.
#[derive(Clone, Copy)]
pub struct Timed {
    /// Nanoseconds a step.
    pub nanos: u64,
    /// How many steps are counted at the end.
    pub count: u64,
}

/// The moment, where the clock can be read.
pub fn now<R: Clock>(rt: &R) -> Option<Instant> {
    Instant::now(rt).ok()
}

// So many parts of a nanosecond since a moment, for each of some steps.
fn parts_since<R: Clock>(rt: &R, start: Option<Instant>, steps: u32, parts: u128) -> u64 {
    let Some(start) = start else {
        return u64::MAX;
    };
    let Ok(elapsed) = start.elapsed(rt) else {
        return u64::MAX;
    };
    let parts = elapsed.as_nanos().saturating_mul(parts);
    u64::try_from(parts / u128::from(steps.max(1))).unwrap_or(u64::MAX)
}

/// Nanoseconds since a moment, for each of some steps. 2^64 - 1, where the clock cannot be read.
pub fn nanos_since<R: Clock>(rt: &R, start: Option<Instant>, steps: u32) -> u64 {
    parts_since(rt, start, steps, 1)
}

/// The same in tenths of a nanosecond.
pub fn tenths_since<R: Clock>(rt: &R, start: Option<Instant>, steps: u32) -> u64 {
    parts_since(rt, start, steps, 10)
}

/// The one in the middle.
pub fn median(mut times: [u64; ROUNDS]) -> u64 {
    times.sort_unstable();
    times[ROUNDS / 2]
}
