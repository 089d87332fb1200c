//! Times a turn of `conn_lock` beside one of std's `Mutex`, by one thread with nobody beside it.
//!
//! Timed, it prints nanoseconds a turn of each kind. Else it takes a few and prints how many there
//! were.

ghost use Rattle.std.specs.Prelude.{◌≡◌};

use crate::times::{ROUNDS, Timed, median, nanos_since, now};
use anyhow::{Result, bail};
use conn_lock::{Lock, Seat, Stands};
use std::alloc::Global;
use std::io::Print;
use std::sync::{Mutex, Wait};
use std::time::Clock;

/// How many turns are taken in a round.
const TURNS: u32 = 50_000;

/// How many turns are taken where nothing is timed.
const FEW: u32 = 100;

/// How many turns were taken, modulo 2^64. It represents the empty list, since a turn adds no entry.
#[derive(Drop)]
struct Count {
    turns: u64,
}

impl Stands for Count {
    ghost use Rattle.std.specs.Prelude.{[]};

    type Entry = u32;

    ghost list = { λ _. [] };

    ghost number = { λ entry. entry };
}

// Takes this many turns with the seat.
fn take_turns<R: Wait>(rt: &R, lock: &Lock<Count>, seat: Seat<Count>, turns: u32) -> Seat<Count>
    requires { seat.lock ≡ lock.now }
    ensures { result.lock ≡ lock.now }
{
    let mut seat = seat;
    for _ in 0..turns {
        let mut turn = lock.enter(rt, seat);
        let count = turn.value();
        count.turns = count.turns.wrapping_add(1);
        seat = lock.leave(turn);
    }
    seat
}

// Takes the mutex this many times.
fn lock_often<R: Wait>(rt: &R, mutex: &Mutex<u64>, turns: u32) {
    for _ in 0..turns {
        let mut count = mutex.lock(rt);
        *count = count.wrapping_add(1);
    }
}

// Turns of a new lock.
fn time_lock<R: Wait + Clock>(rt: &R, alloc: Global, turns: u32) -> Result<Timed> {
    let Ok((lock, seat)) = Lock::new(alloc, Count { turns: 0 }) else {
        bail!("out of memory");
    };
    let start = now(rt);
    let seat = take_turns(rt, &lock, seat, turns);
    let nanos = nanos_since(rt, start, turns);
    match lock.close(seat) {
        Ok(count) => Ok(Timed {
            nanos,
            count: count.turns,
        }),
        Err((lock, seat)) => {
            drop(lock);
            drop(seat);
            bail!("a seat is missing")
        }
    }
}

// Turns of a new mutex.
fn time_mutex<R: Wait + Clock>(rt: &R, turns: u32) -> Timed {
    let mutex = Mutex::new(0);
    let start = now(rt);
    lock_often(rt, &mutex, turns);
    Timed {
        nanos: nanos_since(rt, start, turns),
        count: mutex.into_inner(),
    }
}

// Prints nanoseconds, the median of all rounds of each kind, which are timed in turn.
fn compare<R: Wait + Clock + Print>(rt: &R, alloc: Global) -> Result<()> {
    let mut lock = [0; ROUNDS];
    let mut mutex = [0; ROUNDS];
    for round in 0..ROUNDS {
        lock[round] = time_lock(rt, alloc, TURNS)?.nanos;
        mutex[round] = time_mutex(rt, TURNS).nanos;
    }
    println!(rt; "lock {} mutex {}", median(lock), median(mutex))?;
    Ok(())
}

/// Times turns, or else takes a few.
pub fn run<R: Wait + Clock + Print>(rt: &R, alloc: Global, is_timed: bool) -> Result<()> {
    if is_timed {
        return compare(rt, alloc);
    }
    let lock = time_lock(rt, alloc, FEW)?.count;
    let mutex = time_mutex(rt, FEW).count;
    println!(rt; "lock {lock} mutex {mutex}")?;
    Ok(())
}
