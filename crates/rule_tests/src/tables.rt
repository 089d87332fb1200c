//! The streams that are open.

ghost use Rattle.std.specs.Prelude.{◌<◌, ◌^◌};

use rs_wire::{Kind, Side, Way};
use std::alloc::Global;
use std::process::Abort;
use stream_model::State;
use stream_table::{Table, TableFault};

// An open stream of the client's.
fn open(kind: Kind, request_over: bool, reply_over: bool) -> State {
    State::Live {
        kind,
        opener: Side::Client,
        request_over,
        reply_over,
    }
}

// What is known where these are over, or the stream is.
fn wanted(kind: Kind, over: Option<(bool, bool)>) -> State {
    match over {
        Some((request_over, reply_over)) => open(kind, request_over, reply_over),
        None => State::Over,
    }
}

// What is known of a stream whose ways were finished in this order.
fn state_after(rt: &impl Abort, alloc: Global, kind: Kind, ways: &[Way]) -> State {
    let mut table = Table::new(alloc, Side::Client, 1, 1).expect(rt, "there is memory");
    table
        .start(1, kind, Side::Client)
        .expect(rt, "there is room");
    for way in ways {
        table.finish(1, *way);
    }
    let state = table.state(1);
    drop(table);
    state
}

// Starts a stream on the next own id, or answers 0 where none is left.
fn start_next(rt: &impl Abort, table: &mut Table, kind: Kind) -> u32 {
    let Some(id) = table.next_id() else {
        return 0;
    };
    let opener = if id % 2 == 1 {
        Side::Client
    } else {
        Side::Server
    };
    table.start(id, kind, opener).expect(rt, "there is room");
    id
}

#[test]
fn one_stream_more_than_may_be_open_is_refused(rt: HostRuntime) {
    let mut table = Table::new(rt.alloc(), Side::Client, 1, 3).expect(&rt, "there is memory");
    let one = table.start(1, Kind::Response, Side::Client);
    let more = table.start(3, Kind::Response, Side::Client);
    let next = table.next_id();
    let live = table.live();
    let state = table.state(3);
    drop(table);
    assert!(rt; one == Ok(()) && more == Err(TableFault::TooMany(1)));
    assert!(rt; next == Some(3) && live == 1 && state == State::Above);
}

/// A kind, the ways that were finished in this order, and whether the request and the reply are over
/// then; none where the stream is over.
const WAYS: &[(Kind, &[Way], Option<(bool, bool)>)] = &[
    (Kind::Fnf, &[], Some((false, false))),
    (Kind::Fnf, &[Way::Request], None),
    (Kind::Fnf, &[Way::Reply], None),
    (Kind::Response, &[Way::Request], Some((true, false))),
    (Kind::Response, &[Way::Reply], None),
    (Kind::Stream, &[Way::Request], Some((true, false))),
    (Kind::Stream, &[Way::Reply], None),
    (Kind::Stream, &[Way::Request, Way::Reply], None),
    (Kind::Channel, &[Way::Request], Some((true, false))),
    (Kind::Channel, &[Way::Reply], Some((false, true))),
    (
        Kind::Channel,
        &[Way::Reply, Way::Reply],
        Some((false, true)),
    ),
    (Kind::Channel, &[Way::Reply, Way::Request], None),
    (Kind::Channel, &[Way::Request, Way::Reply], None),
];

#[test]
fn a_stream_is_over_by_the_ways_of_its_kind(rt: HostRuntime) {
    for (kind, ways, over) in WAYS {
        let state = state_after(&rt, rt.alloc(), *kind, ways);
        assert!(rt; state == wanted(*kind, *over), "{kind:?} {ways:?}");
    }
}

// A client's table in which 2 and 4 are over, and stream 6 of the server's is open.
fn skipped(rt: &impl Abort, alloc: Global) -> Table {
    let mut table = Table::new(alloc, Side::Client, 2, 9).expect(rt, "there is memory");
    table.skip(4);
    table
        .start(6, Kind::Stream, Side::Server)
        .expect(rt, "there is room");
    table.skip(2);
    table
}

const PEERS: State = State::Live {
    kind: Kind::Stream,
    opener: Side::Server,
    request_over: false,
    reply_over: false,
};

const STATES: &[(u32, State)] = &[
    (0, State::Above),
    (1, State::Above),
    (2, State::Over),
    (4, State::Over),
    (6, PEERS),
    (8, State::Above),
];

// That the table tells these states.
fn tells_states(rt: &impl Abort, table: &Table) {
    for (id, state) in STATES {
        assert!(rt; table.state(*id) == *state, "id {id}");
    }
}

#[test]
fn an_id_is_above_open_or_over(rt: HostRuntime) {
    let table = skipped(&rt, rt.alloc());
    tells_states(&rt, &table);
    let highest = [table.highest(Side::Client), table.highest(Side::Server)];
    drop(table);
    assert!(rt; highest == [0, 6]);
}

// The ids of three streams that an end starts, and 0 where none is left.
fn ids(rt: &impl Abort, alloc: Global, side: Side, last_id: u32) -> [u32; 3]
    requires { last_id < 2 ^ 31 }
{
    let mut table = Table::new(alloc, side, 2, last_id).expect(rt, "there is memory");
    let first = start_next(rt, &mut table, Kind::Fnf);
    let second = start_next(rt, &mut table, Kind::Fnf);
    let third = start_next(rt, &mut table, Kind::Fnf);
    [first, second, third]
}

#[test]
fn own_ids_rise_by_two_until_the_last(rt: HostRuntime) {
    assert!(rt; ids(&rt, rt.alloc(), Side::Client, 4) == [1, 3, 0]);
    assert!(rt; ids(&rt, rt.alloc(), Side::Server, 4) == [2, 4, 0]);
}

// So many streams begin and are over, one after another.
fn pass(rt: &impl Abort, table: &mut Table, count: u32) {
    for _ in 0..count {
        let id = start_next(rt, table, Kind::Response);
        table.finish(id, Way::Reply);
    }
}

#[test]
fn a_hundred_thousand_streams_that_are_over_leave_nothing(rt: HostRuntime) {
    let mut table = Table::new(rt.alloc(), Side::Server, 1, 2_147_483_647).expect(
        &rt,
        "there is memory",
    );
    pass(&rt, &mut table, 100_000);
    let live = table.live();
    let highest = table.highest(Side::Server);
    drop(table);
    assert!(rt; live == 0 && highest == 200_000);
}

#[test]
fn a_fault_says_why_in_a_sentence(rt: HostRuntime) {
    let fault = TableFault::TooMany(8);
    let sentence = format!(in rt.alloc(); "{fault}").expect(&rt, "there is memory");
    let is_so = sentence.as_str() == "the limit of 8 open streams is reached";
    drop(sentence);
    assert!(rt; is_so);
}
