//! Four threads over a pair of connections in one process: one takes the items of a stream, one
//! grants more, one sends them, and one carries the bytes, both ways.

ghost use Rattle.std.specs.Prelude.{◌≡◌};
ghost use Rattle.rs_wire.specs.declared.words.Side.TheVariants.{Client, Server};
ghost use Rattle.rs_wire.specs.Calls.{CanBeAsked};
ghost use Rattle.rs_wire.specs.Settings.{usual};

use super::answers::{Wanted, check, is, let_go};
use super::ends::{ask, blob, close, connected, one_more, open, open_server};
use super::ways::carry;
use conn::{Caller, Connection};
use rs_chunk::Reader;
use rs_wire::{Amount, Blob, Call, Kind, Message, Side};
use std::alloc::Global;
use std::process::Abort;
use std::sync::Wait;
use std::sync::atomic::{AtomicU32, Ordering};
use std::thread::{self, Threads, join};
use tape::{Answer, Blank, Tape};

/// How many items cross.
const ITEMS: u32 = 10_000;

/// How many items are granted at once.
const GRANTED: u32 = 100;

/// How many bytes a client draws first: its SETUP, after the length of 3 bytes.
const FIRST: usize = 71;

// A request of a stream that grants its first items.
fn request(content: Blob) -> Call
    ensures { CanBeAsked result }
{
    Call::Request {
        kind: Kind::Stream,
        initial: Amount::of(GRANTED),
        message: Message {
            metadata: None,
            content,
        },
        complete: false,
    }
}

// Asks for a stream.
fn begin<R: Abort + Wait, T: Tape>(
    rt: &R,
    alloc: Global,
    client: &Connection<T>,
    asker: &mut Caller<T>,
)
    requires of { asker.old.of ≡ client.now }
    ensures of { asker.new.of ≡ client.now }
{
    let call = request(blob(rt, alloc, b"hi"));
    ask(rt, client, asker, call, Wanted::Started(1));
}

// What a client draws first.
fn draw_first<R: Abort + Wait, T: Tape>(
    rt: &R,
    client: &Connection<T>,
    caller: &mut Caller<T>,
) -> [u8; FIRST]
    requires of { caller.old.of ≡ client.now }
    ensures of { caller.new.of ≡ client.now }
{
    let mut first = [0; FIRST];
    check(
        rt,
        client.draw(rt, caller, 1, &mut first),
        Wanted::Drawn(71),
    );
    first
}

// Waits until so many items are taken.
fn wait_until<R: Wait>(rt: &R, taken: &AtomicU32, count: u32) {
    for _ in rt.forever() {
        if taken.load(Ordering::SeqCst) >= count {
            return;
        }
        thread::yield_now();
    }
}

// Grants as many items as were granted before, each time that those are taken.
fn grant_all<R: Abort + Wait, T: Tape>(
    rt: &R,
    client: &Connection<T>,
    granter: Caller<T>,
    taken: &AtomicU32,
) -> Caller<T>
    requires of { granter.of ≡ client.now }
    ensures of { result.of ≡ client.now }
{
    let mut granter = granter;
    let n = Amount::of(GRANTED).expect(rt, "an amount");
    for round in 1..ITEMS / GRANTED {
        wait_until(rt, taken, GRANTED * round);
        let call = Call::Grant { stream: 1, n };
        ask(rt, client, &mut granter, call, Wanted::Done);
    }
    granter
}

// Takes all items, and then the end of the stream, which counts as one more.
fn take_items<R: Abort + Wait, T: Tape>(
    rt: &R,
    client: &Connection<T>,
    asker: Caller<T>,
    taken: &AtomicU32,
) -> Caller<T>
    requires of { asker.of ≡ client.now }
    ensures of { result.of ≡ client.now }
{
    let mut asker = asker;
    for number in 0..ITEMS {
        let answer = client.wait_take(rt, &mut asker, 1);
        check(rt, answer, Wanted::Item(number));
        taken.fetch_add(1, Ordering::SeqCst);
    }
    check(rt, client.wait_take(rt, &mut asker, 1), Wanted::End);
    taken.fetch_add(1, Ordering::SeqCst);
    asker
}

// Whether an item is sent. Where it is not, there is no credit for it yet: no other refusal passes.
fn is_sent<R: Abort>(rt: &R, answer: Answer) -> bool {
    let is_done = is(&answer, Wanted::Done);
    let has_no_credit = is(&answer, Wanted::NoCredit);
    let_go(answer);
    assert!(rt; is_done || has_no_credit);
    is_done
}

// Sends an item, as soon as it is granted.
fn send<R: Abort + Wait, T: Tape>(
    rt: &R,
    server: &Connection<T>,
    answerer: &mut Caller<T>,
    item: &Call,
)
    requires of { answerer.old.of ≡ server.now }
    requires askable { CanBeAsked item.now }
    ensures of { answerer.new.of ≡ server.now }
{
    for _ in rt.forever() {
        if is_sent(rt, server.call(rt, answerer, item)) {
            return;
        }
        thread::yield_now();
    }
    unreachable!()
}

// The item of this number.
fn item<R: Abort>(rt: &R, alloc: Global, number: u32) -> Call
    ensures { CanBeAsked result }
{
    Call::Next {
        stream: 1,
        message: Message {
            metadata: None,
            content: blob(rt, alloc, &number.to_be_bytes()),
        },
        complete: number == ITEMS - 1,
    }
}

// Waits for the request, and sends all items.
fn send_items<R: Abort + Wait, T: Tape>(
    rt: &R,
    alloc: Global,
    server: &Connection<T>,
    answerer: Caller<T>,
) -> Caller<T>
    requires of { answerer.of ≡ server.now }
    ensures of { result.of ≡ server.now }
{
    let mut answerer = answerer;
    check(rt, server.wait_job(rt, &mut answerer), Wanted::Job);
    for number in 0..ITEMS {
        let item = item(rt, alloc, number);
        send(rt, server, &mut answerer, &item);
    }
    answerer
}

// Carries the bytes of both ways, until the end of the stream is taken.
fn carry_all<R: Abort + Wait, T: Tape>(
    rt: &R,
    alloc: Global,
    client: &Connection<T>,
    near: Caller<T>,
    server: &Connection<T>,
    far: Caller<T>,
    taken: &AtomicU32,
) -> (Caller<T>, Caller<T>)
    requires near { near.of ≡ client.now }
    requires far { far.of ≡ server.now }
    ensures near { result.0.of ≡ client.now }
    ensures far { result.1.of ≡ server.now }
{
    let mut near = near;
    let mut far = far;
    let mut there = Reader::new(alloc, server.max_in());
    let mut back = Reader::new(alloc, client.max_in());
    for _ in rt.forever() {
        carry(rt, alloc, client, &mut near, server, &mut far, &mut there);
        carry(rt, alloc, server, &mut far, client, &mut near, &mut back);
        if taken.load(Ordering::SeqCst) > ITEMS {
            return (near, far);
        }
    }
    unreachable!()
}

// Sends the items in one thread more, and carries the bytes in this one.
fn send_and_carry<R: Abort + Threads + Wait + Sync, T: Tape + Send>(
    rt: &R,
    alloc: Global,
    client: &Connection<T>,
    near: Caller<T>,
    server: &Connection<T>,
    answerer: Caller<T>,
    taken: &AtomicU32,
) -> (Caller<T>, Caller<T>)
    requires near { near.of ≡ client.now }
    requires far { answerer.of ≡ server.now }
    ensures near { result.0.of ≡ client.now }
    ensures far { result.1.of ≡ server.now }
{
    let mut answerer = answerer;
    let far = one_more(rt, server, &mut answerer);
    let (mut answerer, carriers) = join(
        rt,
        || -> Caller<T>
            requires { answerer.of ≡ server.now }
            ensures { result.of ≡ server.entry.now }
        { send_items(rt, alloc, server, answerer) },
        || -> (Caller<T>, Caller<T>)
            requires { (near.of ≡ client.now) × (far.of ≡ server.now) }
            ensures { (result.0.of ≡ client.entry.now) × (result.1.of ≡ server.entry.now) }
        { carry_all(rt, alloc, client, near, server, far, taken) },
    );
    let (near, far) = carriers;
    server.join(&mut answerer, far);
    (near, answerer)
}

// Grants more items in one thread more.
fn grant_and_send<R: Abort + Threads + Wait + Sync, T: Tape + Send>(
    rt: &R,
    alloc: Global,
    client: &Connection<T>,
    granter: Caller<T>,
    server: &Connection<T>,
    answerer: Caller<T>,
    taken: &AtomicU32,
) -> (Caller<T>, Caller<T>)
    requires near { granter.of ≡ client.now }
    requires far { answerer.of ≡ server.now }
    ensures near { result.0.of ≡ client.now }
    ensures far { result.1.of ≡ server.now }
{
    let mut granter = granter;
    let near = one_more(rt, client, &mut granter);
    let (mut granter, others) = join(
        rt,
        || -> Caller<T>
            requires { granter.of ≡ client.now }
            ensures { result.of ≡ client.entry.now }
        { grant_all(rt, client, granter, taken) },
        || -> (Caller<T>, Caller<T>)
            requires { (near.of ≡ client.now) × (answerer.of ≡ server.now) }
            ensures { (result.0.of ≡ client.entry.now) × (result.1.of ≡ server.entry.now) }
        { send_and_carry(rt, alloc, client, near, server, answerer, taken) },
    );
    let (near, answerer) = others;
    client.join(&mut granter, near);
    (granter, answerer)
}

// Lets the items cross, by four threads in all.
fn cross<R: Abort + Threads + Wait + Sync, T: Tape + Send>(
    rt: &R,
    alloc: Global,
    client: &Connection<T>,
    asker: Caller<T>,
    server: &Connection<T>,
    answerer: Caller<T>,
) -> (Caller<T>, Caller<T>)
    requires client { asker.of ≡ client.now }
    requires server { answerer.of ≡ server.now }
    ensures client { result.0.of ≡ client.now }
    ensures server { result.1.of ≡ server.now }
{
    let mut asker = asker;
    let granter = one_more(rt, client, &mut asker);
    let taken = AtomicU32::new(0);
    let (mut asker, others) = join(
        rt,
        || -> Caller<T>
            requires { asker.of ≡ client.now }
            ensures { result.of ≡ client.entry.now }
        { take_items(rt, client, asker, &taken) },
        || -> (Caller<T>, Caller<T>)
            requires { (granter.of ≡ client.now) × (answerer.of ≡ server.now) }
            ensures { (result.0.of ≡ client.entry.now) × (result.1.of ≡ server.entry.now) }
        { grant_and_send(rt, alloc, client, granter, server, answerer, &taken) },
    );
    let (granter, answerer) = others;
    client.join(&mut asker, granter);
    (asker, answerer)
}

// Opens both ends, asks for a stream, and lets its items cross.
fn cross_all<R: Abort + Threads + Wait + Sync, T: Tape + Send>(
    rt: &R,
    alloc: Global,
    near: T,
    far: T,
) -> (T, T)
    requires empty { (T.count near ≡ 0) × (T.count far ≡ 0) }
{
    let (client, mut asker) = connected(rt, alloc, Side::Client, false, near);
    let (server, mut answerer) = connected(rt, alloc, Side::Server, false, far);
    open(rt, &client, &mut asker);
    let first = draw_first(rt, &client, &mut asker);
    open_server(rt, alloc, &server, &mut answerer, &first[3..]);
    begin(rt, alloc, &client, &mut asker);
    let (asker, answerer) = cross(rt, alloc, &client, asker, &server, answerer);
    (close(rt, client, asker), close(rt, server, answerer))
}

#[test]
fn every_item_crosses_in_order(rt: HostRuntime) {
    cross_all(&rt, rt.alloc(), Blank::new(), Blank::new());
}
