//! Rows of the program's handlers.

use handlers::{Law, Produced, Routes};
use rs_wire::{Blob, Kind};
use std::alloc::Global;
use std::process::Abort;
use stored_handlers::stored_routes;

/// What is answered.
#[derive(Clone, Copy)]
enum Given {
    /// There is no such route.
    NoRoute,
    /// There is no item.
    NoItem,
    /// This item.
    Item(&'static [u8]),
}

/// A name, a kind, a content and an index from 0, and what is answered.
type Row = (&'static [u8], Kind, &'static [u8], u64, Given);

const ROWS: &[Row] = &[
    // An echo gives the content, whatever it is, and no more.
    (b"echo", Kind::Response, b"hi", 0, Given::Item(b"hi")),
    (b"echo", Kind::Response, b"", 0, Given::Item(b"")),
    (
        b"echo",
        Kind::Response,
        b"\x00\xff\n",
        0,
        Given::Item(b"\x00\xff\n"),
    ),
    (b"echo", Kind::Response, b"hi", 1, Given::NoItem),
    (b"echo", Kind::Response, b"hi", u64::MAX, Given::NoItem),
    // Only the bytes 0x61 to 0x7a become other ones.
    (b"upper", Kind::Channel, b"az", 0, Given::Item(b"AZ")),
    (
        b"upper",
        Kind::Channel,
        b"\x60\x61\x7a\x7b",
        0,
        Given::Item(b"\x60\x41\x5a\x7b"),
    ),
    (
        b"upper",
        Kind::Channel,
        b"AZ09\xe1",
        0,
        Given::Item(b"AZ09\xe1"),
    ),
    (b"upper", Kind::Channel, b"", 0, Given::Item(b"")),
    (b"upper", Kind::Channel, b"az", 1, Given::NoItem),
    // A count gives the numbers below that of the content.
    (b"count", Kind::Stream, b"3", 0, Given::Item(b"0")),
    (b"count", Kind::Stream, b"3", 2, Given::Item(b"2")),
    (b"count", Kind::Stream, b"3", 3, Given::NoItem),
    (b"count", Kind::Stream, b"33", 32, Given::Item(b"32")),
    (b"count", Kind::Stream, b"0", 0, Given::NoItem),
    (b"count", Kind::Stream, b"000000011", 10, Given::Item(b"10")),
    (b"count", Kind::Stream, b"000000011", 11, Given::NoItem),
    (
        b"count",
        Kind::Stream,
        b"999999999",
        999_999_998,
        Given::Item(b"999999998"),
    ),
    (
        b"count",
        Kind::Stream,
        b"999999999",
        999_999_999,
        Given::NoItem,
    ),
    // A content that is no number of 1 to 9 digits has no items.
    (b"count", Kind::Stream, b"", 0, Given::NoItem),
    (b"count", Kind::Stream, b"1000000000", 0, Given::NoItem),
    (b"count", Kind::Stream, b"+3", 0, Given::NoItem),
    (b"count", Kind::Stream, b"3 ", 0, Given::NoItem),
    (b"count", Kind::Stream, b"3\xff", 0, Given::NoItem),
    (b"drop", Kind::Fnf, b"hi", 0, Given::NoItem),
    (b"drop", Kind::Fnf, b"", 0, Given::NoItem),
    // A route has both the name and the kind.
    (b"echo", Kind::Stream, b"hi", 0, Given::NoRoute),
    (b"count", Kind::Response, b"3", 0, Given::NoRoute),
    (b"upper", Kind::Stream, b"az", 0, Given::NoRoute),
    (b"drop", Kind::Response, b"hi", 0, Given::NoRoute),
    (b"Echo", Kind::Response, b"hi", 0, Given::NoRoute),
    (b"echo ", Kind::Response, b"hi", 0, Given::NoRoute),
    (b"", Kind::Fnf, b"hi", 0, Given::NoRoute),
];

fn blob<R: Abort>(rt: &R, alloc: Global, bytes: &[u8]) -> Blob {
    Blob::from_slice(alloc, bytes).expect(rt, "there is memory")
}

fn is(answer: &Produced, given: Given) -> bool {
    match (answer, given) {
        (Produced::Item(item), Given::Item(bytes)) => item.as_slice() == bytes,
        (Produced::Finish, Given::NoItem) => true,
        _ => false,
    }
}

fn gives<R: Abort>(rt: &R, alloc: Global, routes: &Routes<Law>, row: Row) -> bool {
    let (name, kind, content, index, given) = row;
    let name = blob(rt, alloc, name);
    let found = routes.find(&name, kind);
    drop(name);
    let Some(route) = found else {
        return matches!(given, Given::NoRoute);
    };
    let content = blob(rt, alloc, content);
    let answer = routes.answer(alloc, route, &content, index);
    let is_given = is(&answer, given);
    drop(answer);
    drop(content);
    is_given
}

#[test]
fn each_route_answers_by_its_law(rt: HostRuntime) {
    let routes = stored_routes(rt.alloc()).expect(&rt, "there is memory");
    for (number, row) in ROWS.iter().enumerate() {
        assert!(rt; gives(&rt, rt.alloc(), &routes, *row), "row {number}");
    }
    drop(routes);
}
