//! What a server says to a first frame.

use rs_frame::{Frame, Setup};
use rs_wire::{Amount, Blob, Checked, Message, Settings, SetupFault, Side, check};
use setup_core::{code_of, judge};
use std::alloc::Global;
use std::process::Abort;

/// Whether the server takes resumption and leases, or neither; then, of a SETUP of minor version 7,
/// the major version, and whether it asks for resumption and for leases; whether the token is taken;
/// and the verdict.
const VERDICTS: &[(bool, u16, bool, bool, bool, Result<(), SetupFault>)] = &[
    (
        false,
        2,
        true,
        true,
        true,
        Err(SetupFault::BadVersion(2, 7)),
    ),
    (
        false,
        0,
        false,
        false,
        false,
        Err(SetupFault::BadVersion(0, 7)),
    ),
    (false, 1, true, true, true, Err(SetupFault::NoResume)),
    (false, 1, false, true, true, Err(SetupFault::NoLease)),
    (false, 1, false, false, true, Err(SetupFault::TokenTaken)),
    (false, 1, false, false, false, Ok(())),
    (true, 1, true, true, false, Ok(())),
    (true, 1, false, false, false, Ok(())),
];

fn usual(rt: &impl Abort, alloc: Global) -> Settings {
    Settings::usual(alloc, Side::Server).expect(rt, "there is memory")
}

fn server(rt: &impl Abort, alloc: Global, able: bool) -> Checked {
    let mut settings = usual(rt, alloc);
    settings.resume = able;
    settings.lease = able;
    match check(settings) {
        Ok(settings) => settings,
        Err(_) => panic!(rt; "the settings are right"),
    }
}

fn token(rt: &impl Abort, alloc: Global, resume: bool) -> Option<Blob> {
    if resume {
        Some(Blob::from_slice(alloc, b"tok1").expect(rt, "there is memory"))
    } else {
        None
    }
}

fn nothing(alloc: Global) -> Blob {
    Blob::from_vec(Vec::new(alloc))
}

fn setup(rt: &impl Abort, alloc: Global, major: u16, resume: bool, lease: bool) -> Frame {
    let second = Amount::of(1_000).expect(rt, "an amount");
    Frame::Setup(Setup {
        resume: token(rt, alloc, resume),
        lease,
        major,
        minor: 7,
        keepalive: second,
        lifetime: second,
        metadata_mime: nothing(alloc),
        content_mime: nothing(alloc),
        message: Message {
            metadata: None,
            content: nothing(alloc),
        },
    })
}

// What such a server says to the frame.
fn verdict(
    rt: &impl Abort,
    alloc: Global,
    able: bool,
    first: Frame,
    taken: bool,
) -> Result<(), SetupFault> {
    let server = server(rt, alloc, able);
    let verdict = judge(&first, &server, taken);
    drop(server);
    drop(first);
    verdict
}

#[test]
fn the_first_fault_of_a_setup_is_answered(rt: HostRuntime) {
    for (able, major, resume, lease, taken, wanted) in VERDICTS {
        let first = setup(&rt, rt.alloc(), *major, *resume, *lease);
        let verdict = verdict(&rt, rt.alloc(), *able, first, *taken);
        assert!(rt; verdict == *wanted, "{wanted:?}");
    }
}

#[test]
fn another_frame_is_not_first(rt: HostRuntime) {
    let verdict = verdict(&rt, rt.alloc(), false, Frame::Cancel { stream: 1 }, true);
    assert!(rt; verdict == Err(SetupFault::NotFirst));
}

#[test]
fn codes_are_those_of_the_standard(rt: HostRuntime) {
    for (fault, code) in [
        (SetupFault::NotFirst, 0x001),
        (SetupFault::BadVersion(2, 0), 0x001),
        (SetupFault::NoResume, 0x002),
        (SetupFault::NoLease, 0x002),
        (SetupFault::TokenTaken, 0x003),
    ] {
        assert!(rt; code_of(&fault) == code, "{fault:?}");
    }
}
