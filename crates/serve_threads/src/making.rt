//! What is made before any thread begins: the places of the links, and the workers.

ghost use Rattle.std.specs.Prelude.{◌≡◌, ◌+◌, ◌<◌, ◌≤◌, ℕ, true, false, [], ◌++◌, List, IfSome, OnOk, is_some, length, vec_capacity, vec_len};
ghost use Rattle.std.specs.List.{AllByRecursion};
ghost use Rattle.rs_wire.specs.declared.settings.Settings.{Settings};
ghost use Rattle.rs_wire.specs.declared.words.Side.TheVariants.{Server};
ghost use Rattle.serve_slots.specs.Callers.{AreCallersOf, HaveSettings, Placed, all_placed};
ghost use Rattle.serve_threads.specs.Ending.{rows_of};
ghost use Rattle.serve_threads.specs.Making.{AreInOrder, AreMade, HasWorkerAt, HaveWorkers, working};
ghost use Rattle.serve_threads.specs.Threads.{IsNewCaller, IsReady, IsVacant};

use crate::guest::Guest;
use crate::worker::Worker;
use conn::{Caller, Connection};
use rs_wire::OutOfMemory;
use serve_slots::split_row;
use std::alloc::Global;
use std::sync::Wait;
use tape::Tape;
use workers::Work;

// A work without a job, where there is to be one.
fn work_of(alloc: Global, works: bool) -> Option<Work>
    ensures none { is_some result ≡ works }
    ensures empty { IfSome result (λ work. work ≡ []) }
{
    if works { Some(Work::new(alloc)) } else { None }
}

// Makes the place of a slot, for which there is room.
fn make_guest<R: Wait, L: Drop, T: Tape>(
    rt: &R,
    alloc: Global,
    slot: u32,
    connections: &[Connection<T>],
    mains: &mut [Caller<T>],
    works: bool,
    guests: &mut Vec<Guest<L, T>>,
) -> Result<(), OutOfMemory>
    requires slot { slot < length connections.now }
    requires room { vec_len guests.old + 1 ≤ vec_capacity guests.old }
    requires of { AreCallersOf connections.now mains.old }
    ensures of { AreCallersOf connections.now mains.new }
    ensures fronts { AllByRecursion IsNewCaller mains.old
        → AllByRecursion IsNewCaller mains.new }
    ensures made { (others : List Placed)
        → AreMade connections.now mains.old (all_placed (rows_of guests.old.items) ++ others)
        → AreMade connections.now mains.new (all_placed (rows_of guests.new.items) ++ others) }
    ensures vacant { OnOk result ((g : Settings) → g.side ≡ Server → (works ≡ true → g.resume ≡ false)
        → HaveSettings g connections.now → AllByRecursion IsNewCaller mains.old
        → AllByRecursion (IsVacant g connections.now) guests.old.items
        → AllByRecursion (IsVacant g connections.now) guests.new.items) }
    ensures each { OnOk result (vec_len guests.new ≡ vec_len guests.old + 1) }
    ensures order { OnOk result (AreInOrder 0 guests.old.items → slot ≡ vec_len guests.old
        → AreInOrder 0 guests.new.items) }
    ensures capacity { vec_capacity guests.new ≡ vec_capacity guests.old }
{
    let mut row = Vec::with_capacity(alloc, connections.len())?;
    let split = split_row(rt, connections, mains, &mut row);
    let work = work_of(alloc, works);
    guests.push_reserved(Guest {
        slot,
        row,
        work,
        link: None,
        missed: None,
        answer: None,
    });
    split
}

/// Makes a place for each link: each has a caller of every connection, and a work where `works`.
pub(crate) fn make_guests<R: Wait, L: Drop, T: Tape>(
    rt: &R,
    alloc: Global,
    connections: &[Connection<T>],
    mains: &mut [Caller<T>],
    works: bool,
    guests: &mut Vec<Guest<L, T>>,
) -> Result<(), OutOfMemory>
    requires few { length connections.now ≤ 64 }
    requires none { guests.old.items ≡ [] }
    requires of { AreCallersOf connections.now mains.old }
    ensures of { AreCallersOf connections.now mains.new }
    ensures made { (others : List Placed)
        → AreMade connections.now mains.old (all_placed (rows_of guests.old.items) ++ others)
        → AreMade connections.now mains.new (all_placed (rows_of guests.new.items) ++ others) }
    ensures vacant { OnOk result ((g : Settings) → g.side ≡ Server → (works ≡ true → g.resume ≡ false)
        → HaveSettings g connections.now → AllByRecursion IsNewCaller mains.old
        → AllByRecursion (IsVacant g connections.now) guests.new.items) }
    ensures each { OnOk result (length guests.new.items ≡ length connections.now) }
    ensures order { OnOk result (AreInOrder 0 guests.new.items) }
{
    let many = connections.len() as u32;
    guests.reserve(connections.len())?;
    for slot in 0..many {
        make_guest(rt, alloc, slot, connections, mains, works, guests)?;
    }
    Ok(())
}

// Makes a worker of a slot.
fn make_worker<R: Wait, T: Tape>(
    rt: &R,
    slot: usize,
    connections: &[Connection<T>],
    mains: &mut [Caller<T>],
    workers: &mut Vec<Worker<T>>,
) -> Result<(), OutOfMemory>
    requires slot { slot < length connections.now }
    requires of { AreCallersOf connections.now mains.old }
    ensures of { AreCallersOf connections.now mains.new }
    ensures fronts { AllByRecursion IsNewCaller mains.old
        → AllByRecursion IsNewCaller mains.new }
    ensures made { (others : List Placed)
        → AreMade connections.now mains.old (others ++ working workers.old.items)
        → AreMade connections.now mains.new (others ++ working workers.new.items) }
    ensures ready { OnOk result ((g : Settings) → HaveSettings g connections.now
        → AllByRecursion IsNewCaller mains.old → AllByRecursion (IsReady g connections.now) workers.old.items
        → AllByRecursion (IsReady g connections.now) workers.new.items) }
    ensures kept { (at : ℕ) → HasWorkerAt at workers.old.items → HasWorkerAt at workers.new.items }
    ensures there { OnOk result (HasWorkerAt slot workers.new.items) }
{
    workers.reserve(1)?;
    let Ok(caller) = connections[slot].split(rt, &mut mains[slot]) else {
        return Err(OutOfMemory);
    };
    workers.push_reserved(Worker { slot, caller });
    Ok(())
}

// Makes so many workers of a slot.
fn make_crew<R: Wait, T: Tape>(
    rt: &R,
    slot: usize,
    connections: &[Connection<T>],
    mains: &mut [Caller<T>],
    each: u32,
    workers: &mut Vec<Worker<T>>,
) -> Result<(), OutOfMemory>
    requires slot { slot < length connections.now }
    requires of { AreCallersOf connections.now mains.old }
    ensures of { AreCallersOf connections.now mains.new }
    ensures fronts { AllByRecursion IsNewCaller mains.old
        → AllByRecursion IsNewCaller mains.new }
    ensures made { (others : List Placed)
        → AreMade connections.now mains.old (others ++ working workers.old.items)
        → AreMade connections.now mains.new (others ++ working workers.new.items) }
    ensures ready { OnOk result ((g : Settings) → HaveSettings g connections.now
        → AllByRecursion IsNewCaller mains.old → AllByRecursion (IsReady g connections.now) workers.old.items
        → AllByRecursion (IsReady g connections.now) workers.new.items) }
    ensures kept { (at : ℕ) → HasWorkerAt at workers.old.items → HasWorkerAt at workers.new.items }
    ensures there { OnOk result (1 ≤ each → HasWorkerAt slot workers.new.items) }
{
    for _ in 0..each {
        make_worker(rt, slot, connections, mains, workers)?;
    }
    Ok(())
}

/// Makes so many workers of each connection.
pub(crate) fn make_workers<R: Wait, T: Tape>(
    rt: &R,
    connections: &[Connection<T>],
    mains: &mut [Caller<T>],
    each: u32,
    workers: &mut Vec<Worker<T>>,
) -> Result<(), OutOfMemory>
    requires none { workers.old.items ≡ [] }
    requires of { AreCallersOf connections.now mains.old }
    ensures of { AreCallersOf connections.now mains.new }
    ensures made { (others : List Placed)
        → AreMade connections.now mains.old (others ++ working workers.old.items)
        → AreMade connections.now mains.new (others ++ working workers.new.items) }
    ensures ready { OnOk result ((g : Settings) → HaveSettings g connections.now
        → AllByRecursion IsNewCaller mains.old → AllByRecursion (IsReady g connections.now) workers.new.items) }
    ensures workers { OnOk result (1 ≤ each
        → HaveWorkers (length connections.now) workers.new.items) }
{
    for slot in 0..connections.len() {
        make_crew(rt, slot, connections, mains, each, workers)?;
    }
    Ok(())
}
