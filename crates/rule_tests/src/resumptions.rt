//! What an end says to RESUME and RESUME_OK.

use resume_core::{judge_ok, judge_resume};
use rs_frame::Resume;
use rs_wire::{Blob, Gone};
use std::alloc::Global;
use std::process::Abort;

fn blob(rt: &impl Abort, alloc: Global, bytes: &[u8]) -> Blob {
    Blob::from_slice(alloc, bytes).expect(rt, "there is memory")
}

/// A verdict on a RESUME with this major version, token and positions. The session has the token
/// `tok1` and holds its frames from 10 to 20; it has handled 30 bytes.
fn verdict(
    rt: &impl Abort,
    alloc: Global,
    major: u16,
    token: &[u8],
    server_position: u64,
    boundary: bool,
    client_position: u64,
) -> Result<(), Gone> {
    let own = blob(rt, alloc, b"tok1");
    let frame = Resume {
        major,
        minor: 0,
        token: blob(rt, alloc, token),
        server_position,
        client_position,
    };
    let verdict = judge_resume(&frame, &own, 10, 20, boundary, 30);
    drop(frame);
    drop(own);
    verdict
}

/// Of a RESUME its major version, token and positions, with whether the server position is a boundary
/// between them; and its first fault.
const FAULTS: &[(u16, &[u8], u64, bool, u64, Gone)] = &[
    (2, b"tok2", 9, false, 31, Gone::Version(2)),
    (1, b"tok2", 9, false, 31, Gone::Token),
    (1, b"tok", 15, true, 30, Gone::Token),
    (1, b"tok1", 9, false, 31, Gone::ServerGone(10)),
    (1, b"tok1", 21, false, 31, Gone::Ahead(20)),
    (1, b"tok1", 15, false, 31, Gone::NotBoundary),
    (1, b"tok1", 15, true, 31, Gone::ClientGone(30)),
];

#[test]
fn a_session_is_resumed_from_first_to_end(rt: HostRuntime) {
    for server_position in [10, 15, 20] {
        for client_position in [0, 30] {
            let verdict = verdict(
                &rt,
                rt.alloc(),
                1,
                b"tok1",
                server_position,
                true,
                client_position,
            );
            assert!(rt; verdict == Ok(()), "{server_position} {client_position}");
        }
    }
}

#[test]
fn the_first_fault_of_resume_is_answered(rt: HostRuntime) {
    for (major, token, server_position, boundary, client_position, gone) in FAULTS {
        let verdict = verdict(
            &rt,
            rt.alloc(),
            *major,
            token,
            *server_position,
            *boundary,
            *client_position,
        );
        assert!(rt; verdict == Err(*gone), "{gone:?}");
    }
}

#[test]
fn a_position_within_a_frame_is_no_boundary(rt: HostRuntime) {
    let frame = Resume {
        major: 1,
        minor: 0,
        token: blob(&rt, rt.alloc(), b""),
        server_position: 7,
        client_position: 0,
    };
    let own = blob(&rt, rt.alloc(), b"");
    let verdict = judge_resume(&frame, &own, 0, 16, false, 0);
    drop(frame);
    drop(own);
    assert!(rt; verdict == Err(Gone::NotBoundary));
}

/// Of a RESUME_OK its position, the positions from which and to which frames are held, and whether
/// its position is a boundary between them; and the verdict.
const OK_VERDICTS: &[(u64, u64, u64, bool, Result<(), Gone>)] = &[
    (17, 0, 16, false, Err(Gone::Ahead(16))),
    (9, 10, 16, false, Err(Gone::ClientGone(10))),
    (7, 0, 16, false, Err(Gone::NotBoundary)),
    (10, 10, 16, true, Ok(())),
    (16, 10, 16, true, Ok(())),
];

#[test]
fn the_first_fault_of_resume_ok_is_answered(rt: HostRuntime) {
    for (position, first, end, boundary, verdict) in OK_VERDICTS {
        assert!(rt;
            judge_ok(*position, *first, *end, *boundary) == *verdict,
            "{verdict:?}"
        );
    }
}
