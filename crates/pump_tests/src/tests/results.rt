//! Each result of a turn once, but for those that take 2^63 entries, a full queue or no memory.

ghost use Rattle.std.specs.Prelude.{◌≡◌};

use super::ends::{End, compare, link};
use outside::After;
use pump::Turned;
use rs_wire::{Cause, Rule};
use std::alloc::Global;
use std::process::Abort;
use std::sync::Wait;
use tape::{Answer, Blank, Entry, Event, Kept, Tape};

/// One trial: a session whose SETUP is due, a pump, and what it comes to after some turns.
#[derive(Clone, Copy)]
struct Row {
    /// The connection that the pump is for; 1 is live.
    conn: u64,
    /// What the peer sends.
    bytes: &'static [u8],
    after: After,
    /// The moment of the second tick, in milliseconds.
    later: u64,
    /// How many turns before the last.
    turns: u32,
    wanted: Turned,
    /// What one more turn comes to.
    then: Turned,
    /// How many bytes the link was given.
    given: usize,
}

const ROW: Row = Row {
    conn: 1,
    bytes: &[],
    after: After::Lulls,
    later: 0,
    turns: 0,
    wanted: Turned::Lull,
    then: Turned::Lull,
    given: 71,
};

/// The most bytes of one call of the link, more than there are.
const MOST: u32 = 100;

/// A frame of 3 bytes, which has no whole header: rule 1 (RSocket 1.0, "Frame Header Format").
const SHORT: &[u8] = &[0, 0, 3, 1, 2, 3];

const ROWS: &[Row] = &[
    // The SETUP is given, and nothing came.
    Row {
        wanted: Turned::Moved {
            given: 71,
            taken: 0,
        },
        ..ROW
    },
    // Then nothing is left to move.
    Row { turns: 1, ..ROW },
    // The peer sends no more.
    Row {
        after: After::Ends,
        wanted: Turned::End,
        then: Turned::End,
        ..ROW
    },
    // Another connection is the live one.
    Row {
        conn: 2,
        wanted: Turned::Displaced(1),
        then: Turned::Displaced(1),
        given: 0,
        ..ROW
    },
    // A frame that is none comes while the SETUP goes ..
    Row {
        bytes: SHORT,
        wanted: Turned::Moved {
            given: 71,
            taken: 6,
        },
        then: Turned::Over(Cause::Broken(Rule::BadFrame(1))),
        ..ROW
    },
    // .. and the session is over once the ERROR that answers it is given: a length of 3 bytes, a
    // header of 6, a code of 4, and the 9 bytes of `bad-frame`.
    Row {
        bytes: SHORT,
        turns: 1,
        wanted: Turned::Over(Cause::Broken(Rule::BadFrame(1))),
        then: Turned::Over(Cause::Broken(Rule::BadFrame(1))),
        given: 93,
        ..ROW
    },
    // Nothing came for the lifetime of 90,000 milliseconds.
    Row {
        later: 90_000,
        turns: 1,
        wanted: Turned::Dead(0),
        then: Turned::Displaced(0),
        ..ROW
    },
];

fn turn_of<R: Abort + Wait, T: Tape>(rt: &R, alloc: Global, tape: T, row: Row) -> T
    requires empty { T.count tape ≡ 0 }
{
    let link = link(rt, alloc, row.bytes, row.after, MOST, 0);
    let mut end = End::new(rt, alloc, row.conn, link, row.later, tape);
    for _ in 0..row.turns {
        end.turn(rt);
    }
    compare(rt, end.turn(rt), row.wanted);
    assert!(rt; end.given().len() == row.given);
    compare(rt, end.turn(rt), row.then);
    end.close(rt)
}

#[test]
fn each_result_has_its_cause(rt: HostRuntime) {
    for row in ROWS {
        turn_of(&rt, rt.alloc(), Blank::new(), *row);
    }
}

fn is_tick(event: &Event, at: u64) -> bool {
    match event {
        Event::Tick { now } => *now == at,
        _ => false,
    }
}

fn is_dead(answer: &Answer) -> bool {
    matches!(answer, Answer::Dead(0))
}

// Whether the entry is that of a tick of the one caller at this moment, which found the peer dead from
// which nothing came since 0.
fn is_deadly_tick(entry: Option<&Entry>, at: u64) -> bool {
    match entry {
        Some(entry) => entry.who == 0 && is_tick(&entry.event, at) && is_dead(&entry.answer),
        None => false,
    }
}

// The tick at the later moment has its entry: after the opening, a tick at 0 and a draw it is the
// fourth.
fn die<R: Abort + Wait, T: Tape>(rt: &R, alloc: Global, tape: T) -> T
    requires empty { T.count tape ≡ 0 }
{
    let link = link(rt, alloc, &[], After::Lulls, MOST, 0);
    let mut end = End::new(rt, alloc, 1, link, 90_000, tape);
    end.turn(rt);
    compare(rt, end.turn(rt), Turned::Dead(0));
    let tape = end.close(rt);
    assert!(rt; is_deadly_tick(tape.entry(3), 90_000));
    tape
}

#[test]
fn a_dead_peer_is_found_by_a_tick_that_has_its_entry(rt: HostRuntime) {
    drop(die(&rt, rt.alloc(), Kept::new(rt.alloc())));
}

// The first turn moves what is due, and each further one lulls and leaves the entry of its tick. The
// opening, the first tick and the draw are three entries more.
fn run_for<R: Abort + Wait, T: Tape>(rt: &R, alloc: Global, tape: T, lulls: u64, turns: u64) -> T
    requires empty { T.count tape ≡ 0 }
{
    let link = link(rt, alloc, &[], After::Lulls, MOST, 0);
    let mut end = End::new(rt, alloc, 1, link, 0, tape);
    compare(rt, end.run(rt, lulls), Turned::Lull);
    let tape = end.close(rt);
    assert!(rt; tape.count() == turns.saturating_add(3));
    tape
}

/// The lull at which a run ends, from 1; 0 is the first too. And how many turns it makes.
const RUNS: &[(u64, u64)] = &[(0, 1), (1, 1), (2, 2), (7, 7)];

#[test]
fn a_run_ends_at_the_lull_of_its_number(rt: HostRuntime) {
    for &(lulls, turns) in RUNS {
        run_for(&rt, rt.alloc(), Blank::new(), lulls, turns);
    }
}
