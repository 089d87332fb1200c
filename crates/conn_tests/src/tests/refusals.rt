//! The ERROR that a server gives on a connection that it refuses, for a first frame or a RESUME (RSocket
//! 1.0, "Error Codes"). Lists of events with their answers are rows of files, which the program `ends`
//! plays.

use rs_frame::Frame;
use rs_wire::{Blob, Gone, Rule, SetupFault};
use session_core::refusal_frame;
use tape::Answer;

#[test]
fn a_refused_first_frame_has_its_error(rt: HostRuntime) {
    let alloc = rt.alloc();
    for (fault, code, word) in [
        (SetupFault::NotFirst, 0x001, "not-first"),
        (SetupFault::BadVersion(2, 0), 0x001, "bad-version"),
        (SetupFault::NoResume, 0x002, "no-resume"),
        (SetupFault::NoLease, 0x002, "no-lease"),
        (SetupFault::TokenTaken, 0x003, "token-taken"),
    ] {
        let given = refusal_frame(alloc, &Answer::SetupRefused(fault));
        let error = Frame::Error {
            stream: 0,
            code,
            content: Blob::from_slice(alloc, word.as_bytes()).expect(&rt, "there is memory"),
        };
        assert!(rt; given.expect(&rt, "there is memory") == Some(error));
    }
    let none = refusal_frame(alloc, &Answer::Violation(Rule::NotNow));
    assert!(rt; none.expect(&rt, "there is memory").is_none());
}

#[test]
fn a_refused_resume_has_its_error(rt: HostRuntime) {
    let answer = Answer::ResumeRefused(Gone::ClientGone(0));
    let frame = refusal_frame(rt.alloc(), &answer).expect(&rt, "there is memory");
    let content = Blob::from_slice(rt.alloc(), b"client-gone").expect(&rt, "there is memory");
    let expected = Frame::Error {
        stream: 0,
        code: 4,
        content,
    };
    assert_eq!(rt; frame, Some(expected));
}
