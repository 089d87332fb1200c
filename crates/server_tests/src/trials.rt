//! Servers whose links, or whose handlers, wait for one another.

ghost use Rattle.std.specs.Prelude.{◌≡◌};
ghost use Rattle.rs_wire.specs.declared.words.Side.TheVariants.{Server};

use crate::meeting::{Meeting, MeetingEcho};
use crate::net::MeetingNet;
use handlers::{Law, Routes, Stored};
use outside::{MemClock, NetFault};
use rs_wire::{Blob, Checked, Kind, Settings, Side, check};
use serve::{ServeFault, ServePlan, ServedList, serve};
use server::Served;
use std::alloc::Global;
use std::process::Abort;
use std::sync::Wait;
use std::thread::Threads;
use tape::{BlankShelf, KeptShelf, Shelf};

/// A SETUP of version 1.0 after its length, with a keepalive of 20,000 and a lifetime of 90,000
/// milliseconds, without a token and without leases, and then two requests of a response by the route
/// `echo`, with the contents `a` and `b`.
const TWO_CALLS: &[u8] = b"\
    \x00\x00\x44\
    \x00\x00\x00\x00\x04\x00\x00\x01\x00\x00\x00\x00\x4e\x20\x00\x01\x5f\x90\
    \x18application/octet-stream\
    \x18application/octet-stream\
    \x00\x00\x0e\x00\x00\x00\x01\x11\x00\x00\x00\x04echoa\
    \x00\x00\x0e\x00\x00\x00\x03\x11\x00\x00\x00\x04echob";

/// A server, and what comes to it.
#[derive(Clone, Copy)]
struct Row {
    /// The server resumes.
    resume: bool,
    connections: u32,
    workers: u32,
    /// How many links come, how many of them wait for one another, and what the net answers after them.
    links: u64,
    meet: u64,
    fault: NetFault,
    bytes: &'static [u8],
    /// How many calls of the handler wait for one another.
    calls: u64,
    /// How each link is served, or why not.
    served: Result<Served, ServeFault>,
}

const ROWS: &[Row] = &[
    // Two links, each of which gives its end when both are there.
    Row {
        resume: false,
        connections: 2,
        workers: 1,
        links: 2,
        meet: 2,
        fault: NetFault::Failed,
        bytes: b"",
        calls: 0,
        served: Ok(Served::End),
    },
    // One link and two workers, each of which answers when both were asked.
    Row {
        resume: true,
        connections: 1,
        workers: 2,
        links: 1,
        meet: 1,
        fault: NetFault::Failed,
        bytes: TWO_CALLS,
        calls: 2,
        served: Ok(Served::End),
    },
    // The same where the link's own thread answers, too.
    Row {
        resume: false,
        connections: 1,
        workers: 2,
        links: 1,
        meet: 1,
        fault: NetFault::Failed,
        bytes: TWO_CALLS,
        calls: 2,
        served: Ok(Served::End),
    },
    // Three links at once, with six calls that all wait for one another: nine threads.
    Row {
        resume: true,
        connections: 3,
        workers: 2,
        links: 3,
        meet: 3,
        fault: NetFault::Failed,
        bytes: TWO_CALLS,
        calls: 6,
        served: Ok(Served::End),
    },
    // Of three links only two come.
    Row {
        resume: false,
        connections: 3,
        workers: 1,
        links: 2,
        meet: 2,
        fault: NetFault::Failed,
        bytes: TWO_CALLS,
        calls: 4,
        served: Err(ServeFault::Net),
    },
    // After the first of two links memory runs out.
    Row {
        resume: true,
        connections: 2,
        workers: 1,
        links: 1,
        meet: 1,
        fault: NetFault::OutOfMemory,
        bytes: TWO_CALLS,
        calls: 0,
        served: Err(ServeFault::OutOfMemory),
    },
];

fn settings_of<R: Abort>(rt: &R, alloc: Global, resume: bool) -> Checked
    ensures { result.side ≡ Server }
{
    let mut settings = Settings::usual(alloc, Side::Server).expect(rt, "there is memory");
    settings.resume = resume;
    match check(settings) {
        Ok(settings) => settings,
        Err(_) => panic!(rt; "the settings are right"),
    }
}

fn routes_of<'a, R: Abort>(rt: &R, alloc: Global, calls: &'a Meeting) -> Routes<MeetingEcho<'a>> {
    let name = Blob::from_slice(alloc, b"echo").expect(rt, "there is memory");
    let mut routes = Routes::new(alloc);
    let stored = Stored::new(Law::Echo, MeetingEcho { calls });
    match routes.add(name, Kind::Response, stored) {
        Ok(()) => routes,
        Err(_) => panic!(rt; "there is memory, and no route is added twice"),
    }
}

// Each link of the row was served as the row says, or none is answered for the same fault.
fn compare<R: Abort>(rt: &R, served: Result<ServedList, ServeFault>, row: &Row) {
    match (served, row.served) {
        (Ok(list), Ok(wanted)) => {
            assert!(rt; list.as_slice().len() as u64 == row.links);
            for served in list.as_slice() {
                assert_eq!(rt; *served, wanted);
            }
        }
        (Err(fault), Err(wanted)) => assert_eq!(rt; fault, wanted),
        _ => panic!(rt; "another outcome"),
    }
}

// Serves the links of the row.
fn play<R: Abort + Threads + Wait + Sync, H: Shelf>(rt: &R, alloc: Global, row: &Row, shelf: &mut H)
where
    H::Tape: Send + Drop,
{
    let links = Meeting::new(row.meet);
    let calls = Meeting::new(row.calls);
    let mut net = MeetingNet {
        to_come: row.links,
        fault: row.fault,
        bytes: row.bytes,
        links: &links,
        calls: &calls,
        out: 0,
        back: 0,
        asked: 0,
        faults: 0,
    };
    let moments = Vec::from_slice(alloc, &[0]).expect(rt, "there is memory");
    assert!(rt; moments.len() == 1);
    let clock = MemClock::new(moments);
    let settings = settings_of(rt, alloc, row.resume);
    let routes = routes_of(rt, alloc, &calls);
    let plan = ServePlan {
        connections: row.connections,
        workers: row.workers,
        ws: false,
        grant: None,
    };
    assert!(rt; row.connections >= 1 && row.connections <= 64);
    assert!(rt; row.workers >= 1 && row.workers <= 16);
    let served = serve(
        rt, alloc, &mut net, &clock, shelf, &routes, &settings, &plan,
    );
    assert!(rt; links.went_well());
    assert!(rt; calls.went_well());
    assert!(rt; net.out == 0 && net.back == row.links);
    compare(rt, served, row);
}

// Serves each row over both shelves. Each tape comes back.
fn play_all<R: Abort + Threads + Wait + Sync>(rt: &R, alloc: Global) {
    for row in ROWS {
        let mut kept = KeptShelf::new(alloc);
        play(rt, alloc, row, &mut kept);
        assert!(rt; kept.tapes().len() as u64 == u64::from(row.connections));
        let mut blank = BlankShelf::new(alloc);
        play(rt, alloc, row, &mut blank);
        assert!(rt; blank.tapes().len() as u64 == u64::from(row.connections));
    }
}

#[test]
fn links_and_workers_cross(rt: HostRuntime) {
    play_all(&rt, rt.alloc());
}
