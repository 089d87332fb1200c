//! Stored handlers and their routes.

use handlers::{Handler, Law, Produced, RouteFault, Routes, Stored};
use rs_wire::{Blob, Kind};
use std::alloc::Global;
use std::process::Abort;
use std::sync::Arc;
use std::sync::atomic::{AtomicU64, Ordering};

/// What a law gives at an index for a content: an item, or none where it finishes.
#[derive(Clone, Copy)]
struct Row {
    shows: &'static str,
    law: Law,
    content: &'static [u8],
    index: u64,
    item: Option<&'static [u8]>,
}

const ROWS: &[Row] = &[
    Row {
        shows: "an echo gives the content",
        law: Law::Echo,
        content: b"\x00a\xff",
        index: 0,
        item: Some(b"\x00a\xff"),
    },
    Row {
        shows: "an echo of nothing is an item",
        law: Law::Echo,
        content: b"",
        index: 0,
        item: Some(b""),
    },
    Row {
        shows: "an echo is one item",
        law: Law::Echo,
        content: b"a",
        index: 1,
        item: None,
    },
    Row {
        shows: "a to z alone become upper case",
        law: Law::Upper,
        content: b"\x60\x61\x7a\x7b\xe1",
        index: 0,
        item: Some(b"\x60\x41\x5a\x7b\xe1"),
    },
    Row {
        shows: "upper case of nothing is an item",
        law: Law::Upper,
        content: b"",
        index: 0,
        item: Some(b""),
    },
    Row {
        shows: "upper case is one item",
        law: Law::Upper,
        content: b"a",
        index: u64::MAX,
        item: None,
    },
    Row {
        shows: "a count begins at 0",
        law: Law::Count,
        content: b"33",
        index: 0,
        item: Some(b"0"),
    },
    Row {
        shows: "a count's last item is one below the number",
        law: Law::Count,
        content: b"33",
        index: 32,
        item: Some(b"32"),
    },
    Row {
        shows: "a count finishes at its number",
        law: Law::Count,
        content: b"33",
        index: 33,
        item: None,
    },
    Row {
        shows: "a count of 0 has no item",
        law: Law::Count,
        content: b"0",
        index: 0,
        item: None,
    },
    Row {
        shows: "a number may have zeros first",
        law: Law::Count,
        content: b"000000002",
        index: 1,
        item: Some(b"1"),
    },
    Row {
        shows: "nine digits are a number",
        law: Law::Count,
        content: b"999999999",
        index: 999_999_998,
        item: Some(b"999999998"),
    },
    Row {
        shows: "ten digits are no number",
        law: Law::Count,
        content: b"0000000033",
        index: 0,
        item: None,
    },
    Row {
        shows: "a digit and a letter are no number",
        law: Law::Count,
        content: b"3a",
        index: 0,
        item: None,
    },
    Row {
        shows: "a number has no plus",
        law: Law::Count,
        content: b"+3",
        index: 0,
        item: None,
    },
    Row {
        shows: "bytes that are no text are no number",
        law: Law::Count,
        content: b"3\xff",
        index: 0,
        item: None,
    },
    Row {
        shows: "no digits are no number",
        law: Law::Count,
        content: b"",
        index: 0,
        item: None,
    },
    Row {
        shows: "a drop has no item",
        law: Law::Drop,
        content: b"a",
        index: 0,
        item: None,
    },
    Row {
        shows: "a drop of nothing has no item",
        law: Law::Drop,
        content: b"",
        index: 1,
        item: None,
    },
];

fn blob(rt: &impl Abort, alloc: Global, bytes: &[u8]) -> Blob {
    Blob::from_slice(alloc, bytes).expect(rt, "there is memory")
}

// Whether the answer is the item, or that there is none.
fn is_item(answer: &Produced, item: Option<&[u8]>) -> bool {
    match (answer, item) {
        (Produced::Item(given), Some(bytes)) => given.as_slice() == bytes,
        (Produced::Finish, None) => true,
        _ => false,
    }
}

fn gives(rt: &impl Abort, alloc: Global, row: &Row) -> bool {
    let content = blob(rt, alloc, row.content);
    let answer = Stored::of(row.law).answer(alloc, &content, row.index);
    drop(content);
    let is_item = is_item(&answer, row.item);
    drop(answer);
    is_item
}

#[test]
fn each_law_gives_its_items(rt: HostRuntime) {
    for row in ROWS {
        assert!(rt; gives(&rt, rt.alloc(), row), "{}", row.shows);
    }
}

// A route of this name and kind is added.
fn add(
    rt: &impl Abort,
    alloc: Global,
    routes: &mut Routes<Law>,
    name: &[u8],
    kind: Kind,
    law: Law,
) -> Result<(), RouteFault> {
    routes.add(blob(rt, alloc, name), kind, Stored::of(law))
}

// The number of the route of this name and kind.
fn find(
    rt: &impl Abort,
    alloc: Global,
    routes: &Routes<Law>,
    name: &[u8],
    kind: Kind,
) -> Option<u32> {
    routes.find(&blob(rt, alloc, name), kind)
}

/// Routes that are added in turn, and what that comes to.
const ADDED: &[(&[u8], Kind, Law, Result<(), RouteFault>)] = &[
    (b"echo", Kind::Response, Law::Echo, Ok(())),
    (b"echo", Kind::Response, Law::Drop, Err(RouteFault::Twice)),
    (b"echo", Kind::Stream, Law::Count, Ok(())),
    (b"Echo", Kind::Response, Law::Upper, Ok(())),
];

/// The numbers of routes by name and kind, once those are added.
const NUMBERS: &[(&[u8], Kind, Option<u32>)] = &[
    (b"echo", Kind::Response, Some(0)),
    (b"echo", Kind::Stream, Some(1)),
    (b"Echo", Kind::Response, Some(2)),
    (b"echo", Kind::Fnf, None),
    (b"ech", Kind::Response, None),
];

// Whether all are added as their rows say.
fn adds_all(rt: &impl Abort, alloc: Global, routes: &mut Routes<Law>) -> bool {
    let mut right = true;
    for (name, kind, law, added) in ADDED {
        right = add(rt, alloc, routes, name, *kind, *law) == *added && right;
    }
    right
}

// Whether all are found by their numbers.
fn finds_all(rt: &impl Abort, alloc: Global, routes: &Routes<Law>) -> bool {
    let mut right = true;
    for (name, kind, number) in NUMBERS {
        right = find(rt, alloc, routes, name, *kind) == *number && right;
    }
    right
}

#[test]
fn a_route_is_added_once(rt: HostRuntime) {
    let mut routes = Routes::new(rt.alloc());
    let are_added = adds_all(&rt, rt.alloc(), &mut routes);
    let are_found = finds_all(&rt, rt.alloc(), &routes);
    drop(routes);
    assert!(rt; are_added && are_found);
}

// Whether the route of this name and kind gives the item at this index for the content `2b`.
fn answers<F: Handler>(
    rt: &impl Abort,
    alloc: Global,
    routes: &Routes<F>,
    name: &[u8],
    kind: Kind,
    index: u64,
    item: Option<&[u8]>,
) -> bool {
    let name = blob(rt, alloc, name);
    let route = routes.find(&name, kind);
    drop(name);
    let Some(route) = route else {
        return false;
    };
    let content = blob(rt, alloc, b"2b");
    let answer = routes.answer(alloc, route, &content, index);
    drop(content);
    let is_item = is_item(&answer, item);
    drop(answer);
    is_item
}

// The routes of an echo and of upper case.
fn two_routes(rt: &impl Abort, alloc: Global) -> Routes<Law> {
    let mut routes = Routes::new(alloc);
    add(rt, alloc, &mut routes, b"echo", Kind::Stream, Law::Echo).expect(rt, "it is added");
    add(rt, alloc, &mut routes, b"upper", Kind::Channel, Law::Upper).expect(rt, "it is added");
    routes
}

/// A route by name and kind, and the item that it gives at an index.
const GIVEN: &[(&[u8], Kind, u64, Option<&[u8]>)] = &[
    (b"echo", Kind::Stream, 0, Some(b"2b")),
    (b"upper", Kind::Channel, 0, Some(b"2B")),
    (b"upper", Kind::Channel, 1, None),
];

#[test]
fn a_route_answers_by_its_law(rt: HostRuntime) {
    let routes = two_routes(&rt, rt.alloc());
    let mut right = true;
    for (name, kind, index, item) in GIVEN {
        right = answers(&rt, rt.alloc(), &routes, name, *kind, *index, *item) && right;
    }
    drop(routes);
    assert!(rt; right);
}

// A handler of a program's own: it keeps a law, and counts its calls.
#[derive(Drop)]
struct Counted {
    calls: Arc<AtomicU64>,
}

impl Handler for Counted {
    ghost use Rattle.handlers.specs.declared.law.Law.TheVariants as law;
    ghost use Rattle.handlers.specs.Values.{value};

    ghost gives = { λ _ content index. value law.Upper content index };

    fn call(&self, alloc: Global, content: &Blob, index: u64) -> Produced {
        self.calls.fetch_add(1, Ordering::SeqCst);
        Law::Upper.call(alloc, content, index)
    }
}

// The route `own` of such a handler.
fn own_routes(rt: &impl Abort, alloc: Global, calls: &Arc<AtomicU64>) -> Routes<Counted> {
    let own = Counted {
        calls: Arc::try_clone(calls).expect(rt, "there is room"),
    };
    let mut routes = Routes::new(alloc);
    let stored = Stored::new(Law::Upper, own);
    let law = stored.law();
    let added = routes.add(blob(rt, alloc, b"own"), Kind::Response, stored);
    assert!(rt; law == Law::Upper && added == Ok(()));
    routes
}

#[test]
fn a_handler_of_a_programs_own_is_stored(rt: HostRuntime) {
    let alloc = rt.alloc();
    let calls = Arc::new(alloc, AtomicU64::new(0)).expect(&rt, "there is memory");
    let routes = own_routes(&rt, alloc, &calls);
    let is_upper = answers(&rt, alloc, &routes, b"own", Kind::Response, 0, Some(b"2B"));
    let is_over = answers(&rt, alloc, &routes, b"own", Kind::Response, 1, None);
    drop(routes);
    let count = calls.load(Ordering::SeqCst);
    drop(calls);
    assert!(rt; is_upper && is_over && count == 2);
}
