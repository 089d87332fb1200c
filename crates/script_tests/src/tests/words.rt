//! Words of the command line, and what they ask for.

use super::asked::{asks_call, asks_load, asks_nothing, asks_server, asks_task, blob};
use command_line::{CallTask, ServeTask, Task};
use rs_wire::{Amount, Kind};
use std::alloc::Global;
use std::process::Abort;

const CABLE: &[u8] = b"cable";

const FRAMES: &[u8] = b"frames";

const BACK: &[u8] = b"--back";

const THREADS: &[u8] = b"--threads";

const LOAD: &[u8] = b"load";

const END: &[u8] = b"--";

fn amount<R: Abort>(rt: &R, number: u32) -> Amount {
    Amount::of(number).expect(rt, "it is an amount")
}

// The words of each row ask for its task.
fn compare_tasks<R: Abort>(rt: &R, alloc: Global, rows: &[(&[&[u8]], Task)]) {
    for &(words, task) in rows {
        assert!(rt; asks_task(rt, alloc, words, task));
    }
}

// The words of each row ask for nothing.
fn refuse<R: Abort>(rt: &R, alloc: Global, rows: &[&[&[u8]]]) {
    for words in rows {
        assert!(rt; asks_nothing(rt, alloc, words));
    }
}

/// Words that play a script, and their task.
const CABLES: &[(&[&[u8]], Task)] = &[
    (&[CABLE], Task::Cable { threads: false }),
    (&[CABLE, END], Task::Cable { threads: false }),
    (&[CABLE, THREADS], Task::Cable { threads: true }),
    (&[CABLE, THREADS, END], Task::Cable { threads: true }),
];

#[test]
fn cable_may_be_played_by_threads(rt: HostRuntime) {
    compare_tasks(&rt, rt.alloc(), CABLES);
}

/// Words for frames, and their task.
const FRAME_WORDS: &[(&[&[u8]], Task)] = &[
    (&[FRAMES], Task::Frames { back: false }),
    (&[FRAMES, END], Task::Frames { back: false }),
    (&[FRAMES, BACK], Task::Frames { back: true }),
    (&[FRAMES, BACK, END], Task::Frames { back: true }),
];

#[test]
fn frames_may_go_back(rt: HostRuntime) {
    compare_tasks(&rt, rt.alloc(), FRAME_WORDS);
}

/// Words that name no command.
const UNKNOWN: &[&[&[u8]]] = &[
    &[],
    &[b""],
    &[b"help"],
    &[END],
    &[BACK, FRAMES],
    &[b"\xff"],
    &[b"Cable"],
];

#[test]
fn an_unknown_command_is_usage(rt: HostRuntime) {
    refuse(&rt, rt.alloc(), UNKNOWN);
}

/// Words of which one is too much.
const TOO_MUCH: &[&[&[u8]]] = &[
    &[CABLE, b"x"],
    &[CABLE, b"--back"],
    &[CABLE, b"--threads=2"],
    &[CABLE, THREADS, THREADS],
    &[CABLE, END, THREADS],
    &[FRAMES, b"--back=x"],
    &[FRAMES, b"--back=true"],
    &[FRAMES, BACK, BACK],
    &[FRAMES, END, BACK],
    &[FRAMES, b"-"],
    &[FRAMES, b""],
    &[FRAMES, b"--bac"],
    &[FRAMES, b"-b"],
    &[FRAMES, b"--help"],
    &[FRAMES, b"-h"],
    &[FRAMES, b"--version"],
    &[FRAMES, b"\xff"],
    &[CABLE, END, END],
];

#[test]
fn a_word_too_much_is_usage(rt: HostRuntime) {
    refuse(&rt, rt.alloc(), TOO_MUCH);
}

const CALL: &[u8] = b"call";

const MOST: u32 = 2_147_483_647;

// A call of `m` by the route `r` with no content, as the words ask for it that say no more.
fn plain<R: Abort>(rt: &R, alloc: Global, kind: Kind) -> CallTask {
    CallTask {
        address: blob(rt, alloc, b"m"),
        kind,
        route: blob(rt, alloc, b"r"),
        content: blob(rt, alloc, b""),
        count: amount(rt, MOST),
        token: None,
        lease: false,
        lulls: 1_000,
        tries: 0,
        ws: false,
    }
}

// Whether a call of this word is one of that kind, with the defaults.
fn asks_plain<R: Abort>(rt: &R, alloc: Global, word: &[u8], kind: Kind) -> bool {
    let task = plain(rt, alloc, kind);
    let asks = asks_call(rt, alloc, &[CALL, b"m", word, b"r", b"."], &task);
    drop(task);
    asks
}

/// The word of each kind of call.
const KINDS: &[(&[u8], Kind)] = &[
    (b"fnf", Kind::Fnf),
    (b"response", Kind::Response),
    (b"stream", Kind::Stream),
    (b"channel", Kind::Channel),
];

#[test]
fn a_call_has_its_defaults(rt: HostRuntime) {
    for &(word, kind) in KINDS {
        assert!(rt; asks_plain(&rt, rt.alloc(), word, kind));
    }
}

// A call that the words say all of.
fn full_call<R: Abort>(rt: &R, alloc: Global) -> CallTask {
    CallTask {
        address: blob(rt, alloc, b"m"),
        kind: Kind::Stream,
        route: blob(rt, alloc, b"r"),
        content: blob(rt, alloc, b"hi"),
        count: amount(rt, 2),
        token: Some(blob(rt, alloc, b"tok")),
        lease: true,
        lulls: 3,
        tries: 16,
        ws: true,
    }
}

/// The words of a call that say all.
const FULL_CALL: &[&[u8]] = &[
    CALL,
    b"--count",
    b"2",
    b"--ws",
    b"m",
    b"stream",
    b"--resume=tok",
    b"r",
    b"--lease",
    b"6869",
    b"--lulls",
    b"3",
    b"--tries=16",
];

#[test]
fn a_call_has_options_before_and_after_its_operands(rt: HostRuntime) {
    let task = full_call(&rt, rt.alloc());
    let asks = asks_call(&rt, rt.alloc(), FULL_CALL, &task);
    drop(task);
    assert!(rt; asks);
}

/// Words of calls that are out of the grammar.
const FAULTY_CALLS: &[&[&[u8]]] = &[
    &[CALL],
    &[CALL, b"m", b"fnf", b"r"],
    &[CALL, b"m", b"fnf", b"r", b".", b"x"],
    &[CALL, b"m", b"push", b"r", b"."],
    &[CALL, b"m", b"fnf", b"r", b"686"],
    &[CALL, b"m", b"fnf", b"r", b"6A"],
    &[CALL, b"m", b"fnf", b"r", b"hi"],
    &[CALL, b"m", b"fnf", b"r", b".", b"--count", b"0"],
    &[CALL, b"m", b"fnf", b"r", b".", b"--count", b"2147483648"],
    &[CALL, b"m", b"fnf", b"r", b".", b"--count=01"],
    &[CALL, b"m", b"fnf", b"r", b".", b"--lulls", b"0"],
    &[CALL, b"m", b"fnf", b"r", b".", b"--tries", b"17"],
    &[CALL, b"m", b"fnf", b"r", b".", b"--resume="],
    &[CALL, b"m", b"fnf", b"r", b".", b"--ws", b"--ws"],
    &[CALL, b"m", b"fnf", b"r", b".", b"--ws=true"],
    &[CALL, b"m", b"fnf", b"r", b".", b"--text", b"x"],
];

#[test]
fn a_faulty_call_is_usage(rt: HostRuntime) {
    refuse(&rt, rt.alloc(), FAULTY_CALLS);
}

/// Words of a load, and its seed.
const LOADS: &[(&[&[u8]], u32)] = &[
    (&[LOAD, b"0"], 0),
    (&[LOAD, b"4294967295"], 4_294_967_295),
    (&[LOAD, b"7", END], 7),
    (&[LOAD, END, b"7"], 7),
];

#[test]
fn a_load_has_its_seed(rt: HostRuntime) {
    for &(words, seed) in LOADS {
        assert!(rt; asks_load(&rt, rt.alloc(), words, seed));
    }
}

/// Words of loads that are out of the grammar.
const FAULTY_LOADS: &[&[&[u8]]] = &[
    &[LOAD],
    &[LOAD, b"4294967296"],
    &[LOAD, b"00"],
    &[LOAD, b"01"],
    &[LOAD, b"-1"],
    &[LOAD, b"+1"],
    &[LOAD, b""],
    &[LOAD, b"1", b"2"],
    &[LOAD, b"1", b"--threads"],
];

#[test]
fn a_faulty_load_is_usage(rt: HostRuntime) {
    refuse(&rt, rt.alloc(), FAULTY_LOADS);
}

const SERVE: &[u8] = b"serve";

// A server at `m` of so many connections, as the words ask for it that say no more.
fn plain_server<R: Abort>(rt: &R, alloc: Global, connections: u32) -> ServeTask {
    ServeTask {
        address: blob(rt, alloc, b"m"),
        connections,
        workers: 1,
        lease: None,
        resume: false,
        ws: false,
    }
}

// Whether this word asks for a server of so many connections, with the defaults.
fn asks_plain_server<R: Abort>(rt: &R, alloc: Global, word: &[u8], connections: u32) -> bool {
    let task = plain_server(rt, alloc, connections);
    let asks = asks_server(rt, alloc, &[SERVE, b"m", b"--connections", word], &task);
    drop(task);
    asks
}

/// A number of connections, as a word says it.
const COUNTS: &[(&[u8], u32)] = &[(b"1", 1), (b"7", 7), (b"64", 64)];

#[test]
fn a_server_has_its_defaults(rt: HostRuntime) {
    for &(word, connections) in COUNTS {
        assert!(rt; asks_plain_server(&rt, rt.alloc(), word, connections));
    }
}

// A server that the words say all of.
fn full_server<R: Abort>(rt: &R, alloc: Global) -> ServeTask {
    ServeTask {
        address: blob(rt, alloc, b"m"),
        connections: 2,
        workers: 16,
        lease: Some(amount(rt, MOST)),
        resume: true,
        ws: true,
    }
}

/// The words of a server that say all.
const FULL_SERVER: &[&[u8]] = &[
    SERVE,
    b"--workers=16",
    b"--resume",
    b"m",
    b"--connections=2",
    b"--lease",
    b"2147483647",
    b"--ws",
];

#[test]
fn a_server_has_options_before_and_after_its_address(rt: HostRuntime) {
    let task = full_server(&rt, rt.alloc());
    let asks = asks_server(&rt, rt.alloc(), FULL_SERVER, &task);
    drop(task);
    assert!(rt; asks);
}

/// Words of servers that are out of the grammar.
const FAULTY_SERVERS: &[&[&[u8]]] = &[
    &[SERVE],
    &[SERVE, b"m"],
    &[SERVE, b"--connections=1"],
    &[SERVE, b"m", b"n", b"--connections=1"],
    &[SERVE, b"m", b"--connections=0"],
    &[SERVE, b"m", b"--connections=65"],
    &[SERVE, b"m", b"--connections=01"],
    &[SERVE, b"m", b"--connections=1", b"--workers=0"],
    &[SERVE, b"m", b"--connections=1", b"--workers=17"],
    &[SERVE, b"m", b"--connections=1", b"--lease=0"],
    &[SERVE, b"m", b"--connections=1", b"--lease=2147483648"],
    &[SERVE, b"m", b"--connections=1", b"--lease"],
    &[SERVE, b"m", b"--connections=1", b"--resume=tok"],
    &[SERVE, b"m", b"--connections=1", b"--ws", b"--ws"],
];

#[test]
fn a_faulty_server_is_usage(rt: HostRuntime) {
    refuse(&rt, rt.alloc(), FAULTY_SERVERS);
}
