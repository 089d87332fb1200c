//! Links, nets and clocks in memory.

ghost use Rattle.std.specs.Prelude.{◌<◌};
ghost use Rattle.outside.specs.Links.{IsNew};
ghost use Rattle.outside.specs.MemoryLink.{shown_of};

use outside::{After, Clock, Given, Link, MemClock, MemLink, MemNet, Net, NetFault, Taken};
use rs_wire::Blob;
use std::alloc::Global;
use std::process::Abort;

// A link that gives these bytes, and then lulls or ends.
fn link(
    rt: &impl Abort,
    alloc: Global,
    bytes: &[u8],
    after: After,
    most: u32,
    fails: &[u64],
) -> MemLink
    requires { 0 < most }
    ensures { IsNew (shown_of result) }
{
    let bytes = Blob::from_slice(alloc, bytes).expect(rt, "there is memory");
    let fails = Vec::from_slice(alloc, fails).expect(rt, "there is memory");
    MemLink::new(alloc, bytes, after, most, fails)
}

/// What taking from a link of three bytes comes to, whose second call fails.
const TAKEN: &[Taken] = &[Taken::Took(2), Taken::Failed, Taken::Took(1), Taken::Lull];

// Whether the link gives its bytes so.
fn gives_and_lulls(link: &mut MemLink) -> bool {
    let mut buffer = [0; 4];
    let mut right = true;
    for taken in TAKEN {
        right = link.take(&mut buffer) == *taken && right;
    }
    right && link.taken() == [1, 2, 3].as_slice()
}

// Whether the link takes two bytes of three.
fn takes_two(link: &mut MemLink) -> bool {
    link.give(&[7, 8, 9]) == Given::Took(2) && link.given() == [7, 8].as_slice()
}

#[test]
fn a_link_in_memory_gives_its_bytes_and_then_lulls(rt: HostRuntime) {
    let mut link = link(&rt, rt.alloc(), &[1, 2, 3], After::Lulls, 2, &[2]);
    let right = gives_and_lulls(&mut link) && takes_two(&mut link);
    drop(link);
    assert!(rt; right);
}

#[test]
fn a_link_in_memory_ends(rt: HostRuntime) {
    let mut link = link(&rt, rt.alloc(), &[], After::Ends, 1, &[]);
    let taken = link.take(&mut [0]);
    drop(link);
    assert!(rt; taken == Taken::End);
}

#[test]
fn a_clock_in_memory_repeats_its_last_moment(rt: HostRuntime) {
    let moments = Vec::from_slice(rt.alloc(), &[5, 9, 7]).expect(&rt, "there is memory");
    assert!(rt; moments.len() == 3);
    let clock = MemClock::new(moments);
    let told = [clock.now(), clock.now(), clock.now(), clock.now()];
    drop(clock);
    assert!(rt; told == [5, 9, 7, 7]);
}

// A net of two links that give a byte each and then end. Its second call fails.
fn net(rt: &impl Abort, alloc: Global) -> MemNet {
    let mut links = Vec::new(alloc);
    let first = link(rt, alloc, &[1], After::Ends, 1, &[]);
    links.push(first).expect(rt, "there is memory");
    let second = link(rt, alloc, &[2], After::Ends, 1, &[]);
    links.push(second).expect(rt, "there is memory");
    let fails = Vec::from_slice(alloc, &[2]).expect(rt, "there is memory");
    MemNet::new(alloc, links, fails)
}

// Whether no link is accepted, for the call fails.
fn fails(net: &mut MemNet) -> bool {
    matches!(net.accept(false), Err(NetFault::Failed))
}

fn dialed(rt: &impl Abort, alloc: Global, net: &mut MemNet) -> MemLink
    ensures { 0 < net.new.out }
{
    let address = Blob::from_slice(alloc, b"here").expect(rt, "there is memory");
    assert!(rt; net.listen(&address).is_ok() && fails(net));
    let link = net.dial(&address, true);
    drop(address);
    match link {
        Ok(link) => link,
        Err(_) => panic!(rt; "a link is dialed"),
    }
}

fn accepted(rt: &impl Abort, net: &mut MemNet) -> MemLink {
    match net.accept(false) {
        Ok(link) => link,
        Err(_) => panic!(rt; "a link is accepted"),
    }
}

// Whether a link gives this byte.
fn gives(link: &mut MemLink, byte: u8) -> bool {
    let mut buffer = [0];
    link.take(&mut buffer) == Taken::Took(1) && buffer == [byte]
}

// Whether one link was put back, and it gave this byte.
fn has_back(net: &MemNet, byte: u8) -> bool {
    net.back().len() == 1 && net.back()[0].taken() == [byte].as_slice()
}

#[test]
fn a_net_in_memory_hands_out_its_links_and_takes_them_back(rt: HostRuntime) {
    let mut net = net(&rt, rt.alloc());
    let mut first = dialed(&rt, rt.alloc(), &mut net);
    let is_first = gives(&mut first, 1);
    net.put_back(first);
    let mut second = accepted(&rt, &mut net);
    let is_second = gives(&mut second, 2);
    drop(second);
    let has_failed = fails(&mut net);
    let has_back = has_back(&net, 1);
    drop(net);
    assert!(rt; is_first && is_second && has_failed && has_back);
}
