//! Trials of the lock round a list of notes.

ghost use Rattle.std.specs.Prelude.{◌≡◌, []};
ghost use Rattle.conn_lock.specs.Callers.{Adds};

use super::made::{made, refused};
use conn_lock::{Lock, Seat, SplitFault, Stands};
use std::alloc::Global;
use std::process::Abort;
use std::sync::Wait;
use std::thread::{Threads, join};

/// One note: who wrote it, and how many that caller had written before.
#[derive(Clone, Copy)]
struct Note {
    by: u32,
    place: u32,
}

/// What was written, in order.
#[derive(Drop)]
struct Notes {
    notes: Vec<Note>,
}

impl Stands for Notes {
    type Entry = Note;

    ghost list = { λ n. n.notes.items };

    ghost number = { λ e. e.by };
}

impl Notes {
    fn new(alloc: Global) -> Notes
        ensures { result.notes.items ≡ [] }
    {
        Notes {
            notes: Vec::new(alloc),
        }
    }

    // A note more, or none where there was no memory.
    fn write(&mut self, by: u32, place: u32)
        ensures { Adds (λ e. e.by) by self.old.notes.items self.new.notes.items }
    {
        let _ = self.notes.push(Note { by, place });
    }
}

fn opened<R: Abort>(rt: &R, alloc: Global) -> (Lock<Notes>, Seat<Notes>)
    ensures { result.1.lock ≡ result.0 }
{
    made(rt, Lock::new(alloc, Notes::new(alloc)))
}

// Splits once.
fn parted<R: Abort + Wait, S: Stands>(rt: &R, lock: &Lock<S>, seat: Seat<S>) -> (Seat<S>, Seat<S>)
    requires { seat.lock ≡ lock.now }
    ensures first { result.0.lock ≡ lock.now }
    ensures second { result.1.lock ≡ lock.now }
{
    made(rt, lock.split(rt, seat))
}

// Writes this many notes, each in a turn of its own.
fn write_all<R: Wait>(rt: &R, lock: &Lock<Notes>, seat: Seat<Notes>, count: u32) -> Seat<Notes>
    requires { seat.lock ≡ lock.now }
    ensures { result.lock ≡ lock.now }
{
    let mut seat = seat;
    for place in 0..count {
        seat = write_one(rt, lock, seat, place);
    }
    seat
}

fn write_one<R: Wait>(rt: &R, lock: &Lock<Notes>, seat: Seat<Notes>, place: u32) -> Seat<Notes>
    requires { seat.lock ≡ lock.now }
    ensures { result.lock ≡ lock.now }
{
    let mut turn = lock.enter(rt, seat);
    let by = turn.number();
    turn.value().write(by, place);
    lock.leave(turn)
}

// Two callers write this many notes each, in two threads.
fn write_in_two<R: Threads + Wait + Sync>(
    rt: &R,
    lock: &Lock<Notes>,
    first: Seat<Notes>,
    second: Seat<Notes>,
    count: u32,
) -> Seat<Notes>
    requires first { first.lock ≡ lock.now }
    requires second { second.lock ≡ lock.now }
    ensures { result.lock ≡ lock.now }
{
    let (first, second) = join(
        rt,
        || -> Seat<Notes>
            requires { first.lock ≡ lock.now }
            ensures { result.lock ≡ lock.entry.now }
        { write_all(rt, lock, first, count) },
        || -> Seat<Notes>
            requires { second.lock ≡ lock.now }
            ensures { result.lock ≡ lock.entry.now }
        { write_all(rt, lock, second, count) },
    );
    lock.join(first, second)
}

// A turn in which nothing changes.
fn look<S: Stands, R: Wait>(rt: &R, lock: &Lock<S>, seat: Seat<S>) -> Seat<S>
    requires { seat.lock ≡ lock.now }
    ensures { result.lock ≡ lock.now }
{
    let turn = lock.enter(rt, seat);
    lock.leave(turn)
}

// A turn each of two callers, in two threads, round any value that may cross threads.
fn look_in_two<S: Stands + Send, R: Threads + Wait + Sync>(
    rt: &R,
    lock: &Lock<S>,
    first: Seat<S>,
    second: Seat<S>,
) -> Seat<S>
    requires first { first.lock ≡ lock.now }
    requires second { second.lock ≡ lock.now }
    ensures { result.lock ≡ lock.now }
{
    let (first, second) = join(
        rt,
        || -> Seat<S>
            requires { first.lock ≡ lock.now }
            ensures { result.lock ≡ lock.entry.now }
        { look(rt, lock, first) },
        || -> Seat<S>
            requires { second.lock ≡ lock.now }
            ensures { result.lock ≡ lock.entry.now }
        { look(rt, lock, second) },
    );
    lock.join(first, second)
}

// How many notes are this caller's, which stand in the order in which it wrote them.
fn written<R: Abort>(rt: &R, notes: &[Note], by: u32) -> u32 {
    let mut next = 0u32;
    for note in notes {
        if note.by == by {
            assert!(rt; note.place == next);
            next = next.wrapping_add(1);
        }
    }
    next
}

// Each of these callers, at most 4, has written this many notes, in its order, and nobody else any.
fn check_all<R: Abort>(rt: &R, notes: &[Note], callers: u32, count: u32) {
    for by in 0..4 {
        let expected = if by < callers { count } else { 0 };
        assert!(rt; written(rt, notes, by) == expected);
    }
    assert!(rt; notes.len() as u64 == u64::from(callers) * u64::from(count));
}

// The same of the notes of a lock, which is closed.
fn check_closed<R: Abort>(rt: &R, lock: Lock<Notes>, seat: Seat<Notes>, callers: u32, count: u32)
    requires { seat.lock ≡ lock }
{
    let notes = made(rt, lock.close(seat));
    check_all(rt, notes.notes.as_slice(), callers, count);
    drop(notes);
}

// Whether this caller's first note is the only one.
fn is_only_note(notes: &[Note], by: u32) -> bool {
    match notes.first() {
        Some(note) => notes.len() == 1 && note.by == by && note.place == 0,
        None => false,
    }
}

/// How many parts each split of a chain leaves the seat that is split, and how many the other gets,
/// which is split next.
const CHAIN: &[(u64, u64)] = &[
    ((1 << 62) - (1 << 46), 1 << 46),
    ((1 << 46) - (1 << 30), 1 << 30),
    ((1 << 30) - (1 << 14), 1 << 14),
    ((1 << 14) - 1, 1),
];

fn check_parts<R: Abort, S: Stands>(rt: &R, seat: &Seat<S>, parts: u64) {
    assert!(rt; seat.parts() == parts);
}

// Splits the seat, and then each new one.
fn split_in_chain<R: Abort + Wait, S: Stands + Drop>(
    rt: &R,
    lock: &Lock<S>,
    seat: Seat<S>,
) -> Seat<S>
    requires { seat.lock ≡ lock.now }
    ensures { result.lock ≡ lock.now }
{
    let mut seat = seat;
    for (kept, given) in CHAIN {
        let (first, second) = parted(rt, lock, seat);
        check_parts(rt, &first, *kept);
        check_parts(rt, &second, *given);
        drop(first);
        seat = second;
    }
    seat
}

// The last seat of a chain has one part, and is not split.
fn split_to_one_part<R: Abort + Wait>(rt: &R, alloc: Global) {
    let (lock, seat) = opened(rt, alloc);
    check_parts(rt, &seat, 1 << 62);
    let seat = split_in_chain(rt, &lock, seat);
    let number = seat.number();
    let (seat, fault) = refused(rt, lock.split(rt, seat));
    check_parts(rt, &seat, 1);
    drop(seat);
    drop(lock);
    assert!(rt; number == 4);
    assert!(rt; fault == SplitFault::PartsGone);
}

#[test]
fn a_chain_of_splits_ends_at_one_part(rt: HostRuntime) {
    split_to_one_part(&rt, rt.alloc());
}

// A lock is closed where both callers are joined, and not before.
fn close_with_all_parts<R: Abort + Threads + Wait + Sync>(rt: &R, alloc: Global) {
    let (lock, seat) = opened(rt, alloc);
    let seat = write_one(rt, &lock, seat, 0);
    let (seat, other) = parted(rt, &lock, seat);
    let (lock, seat) = refused(rt, lock.close(seat));
    let other = write_one(rt, &lock, other, 0);
    let seat = look_in_two(rt, &lock, seat, other);
    check_closed(rt, lock, seat, 2, 1);
}

#[test]
fn closes_only_with_all_parts(rt: HostRuntime) {
    close_with_all_parts(&rt, rt.alloc());
}

// Tries for a turn while the first caller has one, and once it has none. The second caller writes
// then, and its number is given back.
fn try_twice<R: Abort + Wait>(
    rt: &R,
    lock: &Lock<Notes>,
    first: Seat<Notes>,
    second: Seat<Notes>,
) -> (Seat<Notes>, u32)
    requires first { first.lock ≡ lock.now }
    requires second { second.lock ≡ lock.now }
    ensures { result.0.lock ≡ lock.now }
{
    let turn = lock.enter(rt, first);
    let second = refused(rt, lock.try_enter(second));
    let first = lock.leave(turn);
    let mut turn = made(rt, lock.try_enter(second));
    let by = turn.number();
    turn.value().write(by, 0);
    (lock.join(first, lock.leave(turn)), by)
}

// The one note is the second caller's, which was refused once.
fn write_by_a_try<R: Abort + Wait>(rt: &R, alloc: Global) {
    let (lock, seat) = opened(rt, alloc);
    let (seat, other) = parted(rt, &lock, seat);
    let (all, by) = try_twice(rt, &lock, seat, other);
    let notes = made(rt, lock.close(all));
    let is_only_note = is_only_note(notes.notes.as_slice(), 1);
    drop(notes);
    assert!(rt; by == 1);
    assert!(rt; is_only_note);
}

#[test]
fn a_try_is_refused_while_another_has_the_turn(rt: HostRuntime) {
    write_by_a_try(&rt, rt.alloc());
}

/// How many notes each of several threads writes.
const MANY: u32 = 10_000;

fn write_by_two<R: Abort + Threads + Wait + Sync>(rt: &R, alloc: Global) {
    let (lock, seat) = opened(rt, alloc);
    let (seat, other) = parted(rt, &lock, seat);
    let all = write_in_two(rt, &lock, seat, other, MANY);
    check_closed(rt, lock, all, 2, MANY);
}

#[test]
fn two_threads_write_each_note_once(rt: HostRuntime) {
    write_by_two(&rt, rt.alloc());
}

// Splits the seat, and writes by both, in two threads.
fn split_and_write<R: Abort + Threads + Wait + Sync>(
    rt: &R,
    lock: &Lock<Notes>,
    seat: Seat<Notes>,
) -> Seat<Notes>
    requires { seat.lock ≡ lock.now }
    ensures { result.lock ≡ lock.now }
{
    let (first, second) = parted(rt, lock, seat);
    write_in_two(rt, lock, first, second, MANY)
}

// Four callers write, in four threads.
fn write_in_four<R: Abort + Threads + Wait + Sync>(
    rt: &R,
    lock: &Lock<Notes>,
    first: Seat<Notes>,
    second: Seat<Notes>,
) -> Seat<Notes>
    requires first { first.lock ≡ lock.now }
    requires second { second.lock ≡ lock.now }
    ensures { result.lock ≡ lock.now }
{
    let (first, second) = join(
        rt,
        || -> Seat<Notes>
            requires { first.lock ≡ lock.now }
            ensures { result.lock ≡ lock.entry.now }
        { split_and_write(rt, lock, first) },
        || -> Seat<Notes>
            requires { second.lock ≡ lock.now }
            ensures { result.lock ≡ lock.entry.now }
        { split_and_write(rt, lock, second) },
    );
    lock.join(first, second)
}

fn write_by_four<R: Abort + Threads + Wait + Sync>(rt: &R, alloc: Global) {
    let (lock, seat) = opened(rt, alloc);
    let (seat, other) = parted(rt, &lock, seat);
    let all = write_in_four(rt, &lock, seat, other);
    check_closed(rt, lock, all, 4, MANY);
}

#[test]
fn four_threads_write_each_note_once(rt: HostRuntime) {
    write_by_four(&rt, rt.alloc());
}
