//! Trials of a bell between two threads, and of one that links hear.

use bell::Bell;
use mio::{Events, Poll, Token};
use std::alloc::Global;
use std::net::Net;
use std::process::Abort;
use std::sync::Wait;
use std::sync::atomic::{AtomicU64, Ordering};
use std::thread::{Threads, join};
use std::time::Duration;

/// How often each of two threads waits for the other.
const ROUNDS: u64 = 200;

// Waits until the word is above a number.
fn wait_above<R: Wait>(rt: &R, word: &AtomicU64, bell: &Bell, seen: u64) {
    for _ in rt.forever() {
        let listener = bell.listen();
        if word.load(Ordering::SeqCst) > seen {
            drop(listener);
            return;
        }
        listener.wait(rt);
    }
}

// Counts and rings, and then waits until the other has.
fn ask_all<R: Wait>(rt: &R, mine: &AtomicU64, theirs: &AtomicU64, bell: &Bell) {
    for round in 0..ROUNDS {
        mine.fetch_add(1, Ordering::SeqCst);
        bell.ring();
        wait_above(rt, theirs, bell, round);
    }
}

/// What events of the bell come under.
const BELL: Token = Token(7);

/// No trial waits so many seconds, unless a wake-up is lost.
pub const LONG: u64 = 20;

// The poll hears the bell.
fn hear<R: Abort + Wait>(rt: &R, bell: &Bell, poll: &Poll) {
    bell.heard_by(rt, poll.registry(), BELL)
        .expect(rt, "there is a waker");
}

/// A poll that hears the bell.
pub fn hearing<R: Abort + Net + Wait>(rt: &R, bell: &Bell) -> Poll {
    let poll = Poll::new(rt).expect(rt, "there is a poll");
    hear(rt, bell, &poll);
    poll
}

/// A link watches, and is about to sleep.
pub fn begin_to_sleep<R: Abort>(rt: &R, bell: &Bell) {
    bell.watch();
    assert!(rt; bell.begin_sleep());
}

/// How many events come in the poll within so many seconds.
pub fn events_within<R: Abort>(rt: &R, alloc: Global, poll: &mut Poll, seconds: u64) -> usize {
    let mut events = Events::with_capacity(alloc, 4).expect(rt, "there is memory");
    let polled = poll.poll(&mut events, Some(Duration::from_secs(seconds)));
    let count = events.iter().len();
    drop(events);
    polled.expect(rt, "there are events");
    count
}

// A ring while the link sleeps makes an event.
fn ring_in_sleep<R: Abort>(rt: &R, alloc: Global, bell: &Bell, poll: &mut Poll) {
    begin_to_sleep(rt, bell);
    bell.ring();
    assert!(rt; events_within(rt, alloc, poll, LONG) == 1);
    bell.end_sleep();
}

// One before the link sleeps is seen, and makes no event.
fn ring_before_sleep<R: Abort>(rt: &R, alloc: Global, bell: &Bell, poll: &mut Poll) {
    bell.watch();
    bell.ring();
    assert!(rt; !bell.begin_sleep());
    assert!(rt; events_within(rt, alloc, poll, 0) == 0);
}

fn ring_one<R: Abort + Net + Wait>(rt: &R, alloc: Global) {
    let bell = Bell::new();
    let mut poll = hearing(rt, &bell);
    ring_in_sleep(rt, alloc, &bell, &mut poll);
    ring_before_sleep(rt, alloc, &bell, &mut poll);
    drop(poll);
    drop(bell);
}

#[test]
fn a_ring_ends_the_sleep_of_a_link(rt: HostRuntime) {
    ring_one(&rt, rt.alloc());
}

// Of two links that asked, the second has an event, and the first has none.
fn ring_two<R: Abort + Net + Wait>(rt: &R, alloc: Global) {
    let bell = Bell::new();
    let mut first = hearing(rt, &bell);
    let mut second = hearing(rt, &bell);
    begin_to_sleep(rt, &bell);
    bell.ring();
    let last = events_within(rt, alloc, &mut second, LONG);
    let other = events_within(rt, alloc, &mut first, 0);
    drop(first);
    drop(second);
    drop(bell);
    assert!(rt; last == 1);
    assert!(rt; other == 0);
}

#[test]
fn the_last_link_that_asked_hears(rt: HostRuntime) {
    ring_two(&rt, rt.alloc());
}

// An event ends the sleep of a link.
fn wake_by_event<R: Abort>(rt: &R, alloc: Global, poll: &mut Poll) {
    assert!(rt; events_within(rt, alloc, poll, LONG) > 0);
}

// As `wait_above`, of a link. An event ends each of its sleeps.
fn sleep_until_above<R: Abort + Wait>(
    rt: &R,
    alloc: Global,
    word: &AtomicU64,
    bell: &Bell,
    poll: &mut Poll,
    above: u64,
) {
    for _ in rt.forever() {
        bell.watch();
        if word.load(Ordering::SeqCst) > above {
            return;
        }
        if bell.begin_sleep() {
            wake_by_event(rt, alloc, poll);
        }
        bell.end_sleep();
    }
}

// Counts and rings, each time that the other has, by a poll where there is one.
fn answer_all<R: Abort + Wait>(
    rt: &R,
    alloc: Global,
    mine: &AtomicU64,
    theirs: &AtomicU64,
    bell: &Bell,
    poll: Option<&mut Poll>,
) {
    let mut poll = poll;
    for round in 0..ROUNDS {
        match &mut poll {
            None => wait_above(rt, theirs, bell, round),
            Some(poll) => sleep_until_above(rt, alloc, theirs, bell, poll, round),
        }
        mine.fetch_add(1, Ordering::SeqCst);
        bell.ring();
    }
}

// A thread wakes another one, or a link, and is woken by it.
fn wake_each_other<R: Abort + Threads + Wait + Sync>(
    rt: &R,
    alloc: Global,
    bell: &Bell,
    poll: Option<&mut Poll>,
) {
    let asked = AtomicU64::new(0);
    let answered = AtomicU64::new(0);
    join(
        rt,
        || ask_all(rt, &asked, &answered, bell),
        || answer_all(rt, alloc, &answered, &asked, bell, poll),
    );
    assert!(rt; asked.load(Ordering::SeqCst) == ROUNDS);
    assert!(rt; answered.load(Ordering::SeqCst) == ROUNDS);
}

// Two threads.
fn wake_a_thread<R: Abort + Threads + Wait + Sync>(rt: &R, alloc: Global) {
    let bell = Bell::new();
    wake_each_other(rt, alloc, &bell, None);
    drop(bell);
}

#[test]
fn two_threads_wake_each_other(rt: HostRuntime) {
    wake_a_thread(&rt, rt.alloc());
}

// A thread and a link.
fn wake_a_link<R: Abort + Net + Threads + Wait + Sync>(rt: &R, alloc: Global) {
    let bell = Bell::new();
    let mut poll = hearing(rt, &bell);
    wake_each_other(rt, alloc, &bell, Some(&mut poll));
    drop(poll);
    drop(bell);
}

#[test]
fn a_thread_and_a_link_wake_each_other(rt: HostRuntime) {
    wake_a_link(&rt, rt.alloc());
}
