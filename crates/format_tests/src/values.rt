//! Plain values and checked settings.

use rs_wire::{
    Amount, Blob, Call, Cause, Checked, Gone, Job, Kind, Limit, Message, Refusal, Rule,
    SettingFault, Settings, SetupFault, Side, check, is_stream_code,
};
use std::alloc::Global;
use std::fmt::Display;
use std::process::Abort;

/// Numbers, and the amounts of them.
const AMOUNTS: &[(u32, Option<u32>)] = &[
    (0, None),
    (1, Some(1)),
    (2_147_483_647, Some(2_147_483_647)),
    (2_147_483_648, None),
];

// The number of an amount.
fn number(amount: Option<Amount>) -> Option<u32> {
    match amount {
        Some(amount) => Some(amount.get()),
        None => None,
    }
}

#[test]
fn amounts_are_above_zero_and_have_31_bits(rt: HostRuntime) {
    for (given, amount) in AMOUNTS {
        assert!(rt; number(Amount::of(*given)) == *amount, "{given}");
    }
}

/// Codes, and whether they are of streams. RSocket 1.0, "Error Codes": 0x101 and 0x102 are of the
/// connection, 0x201 to 0x204 of a stream.
const CODES: &[(u32, bool)] = &[
    (0, false),
    (0x102, false),
    (0x200, false),
    (0x201, true),
    (0x204, true),
    (0x205, false),
    (0x300, false),
    (0x301, true),
    (0xFFFF_FFFE, true),
    (0xFFFF_FFFF, false),
];

#[test]
fn an_error_of_a_stream_has_a_code_of_streams(rt: HostRuntime) {
    for (code, is_of_streams) in CODES {
        assert!(rt; is_stream_code(*code) == *is_of_streams, "{code}");
    }
}

fn blob(rt: &impl Abort, alloc: Global, bytes: &[u8]) -> Blob {
    Blob::from_slice(alloc, bytes).expect(rt, "there is memory")
}

fn message(rt: &impl Abort, alloc: Global, metadata: Option<&[u8]>, content: &[u8]) -> Message {
    let metadata = match metadata {
        Some(bytes) => Some(blob(rt, alloc, bytes)),
        None => None,
    };
    Message {
        metadata,
        content: blob(rt, alloc, content),
    }
}

// Whether the two are the same.
fn are_same(call: Call, other: Call) -> bool {
    let are_same = call == other;
    drop(call);
    drop(other);
    are_same
}

// Whether a copy is the same.
fn is_copied(rt: &impl Abort, alloc: Global, call: Call) -> bool {
    let copy = call.copy(alloc).expect(rt, "there is memory");
    are_same(copy, call)
}

fn request(rt: &impl Abort, alloc: Global, metadata: Option<&[u8]>) -> Call {
    Call::Request {
        kind: Kind::Fnf,
        initial: None,
        message: message(rt, alloc, metadata, b"hi"),
        complete: false,
    }
}

fn fail(rt: &impl Abort, alloc: Global) -> Call {
    Call::Fail {
        stream: 1,
        code: 0x201,
        content: blob(rt, alloc, b"oo"),
    }
}

fn next(rt: &impl Abort, alloc: Global) -> Call {
    Call::Next {
        stream: 1,
        message: message(rt, alloc, None, b"b"),
        complete: true,
    }
}

fn lease(rt: &impl Abort, alloc: Global) -> Call {
    let second = Amount::of(1_000).expect(rt, "an amount");
    Call::Lease {
        ttl: second,
        count: second,
        metadata: Some(blob(rt, alloc, b"a")),
    }
}

fn push(rt: &impl Abort, alloc: Global) -> Call {
    Call::Push {
        metadata: blob(rt, alloc, b"ab"),
    }
}

fn pushed(rt: &impl Abort, alloc: Global) -> Job {
    Job::Pushed {
        metadata: blob(rt, alloc, b"ab"),
    }
}

// Whether a copy of a job is the same.
fn is_job_copied(rt: &impl Abort, alloc: Global, job: Job) -> bool {
    let copy = job.copy(alloc).expect(rt, "there is memory");
    let is_same = copy == job;
    drop(copy);
    drop(job);
    is_same
}

// Whether a fire-and-forget of `hi` is this call.
fn is_plain(rt: &impl Abort, alloc: Global, call: Call) -> bool {
    are_same(Call::fire_and_forget(blob(rt, alloc, b"hi")), call)
}

#[test]
fn calls_are_copied(rt: HostRuntime) {
    let alloc = rt.alloc();
    assert!(rt; is_copied(&rt, alloc, request(&rt, alloc, Some(b"route"))));
    assert!(rt; is_copied(&rt, alloc, fail(&rt, alloc)));
    assert!(rt; is_copied(&rt, alloc, next(&rt, alloc)));
    assert!(rt; is_copied(&rt, alloc, lease(&rt, alloc)));
    assert!(rt; is_copied(&rt, alloc, push(&rt, alloc)));
    assert!(rt; is_copied(&rt, alloc, Call::TakeJob));
    assert!(rt; is_job_copied(&rt, alloc, pushed(&rt, alloc)));
}

#[test]
fn a_call_is_another_than_one_with_metadata(rt: HostRuntime) {
    let alloc = rt.alloc();
    assert!(rt; is_plain(&rt, alloc, request(&rt, alloc, None)));
    assert!(rt; !is_plain(&rt, alloc, request(&rt, alloc, Some(b"route"))));
    assert!(rt; !are_same(Call::TakeJob, Call::Close));
}

#[test]
fn a_message_is_measured(rt: HostRuntime) {
    let message = message(&rt, rt.alloc(), Some(b"route"), b"hi");
    let size = message.size();
    drop(message);
    assert!(rt; size == 7);
}

fn usual(rt: &impl Abort, alloc: Global, side: Side) -> Settings {
    Settings::usual(alloc, side).expect(rt, "there is memory")
}

fn checked(rt: &impl Abort, alloc: Global, side: Side) -> Checked {
    match check(usual(rt, alloc, side)) {
        Ok(settings) => settings,
        Err(_) => panic!(rt; "the settings are right"),
    }
}

#[test]
fn the_usual_settings_are_in_range(rt: HostRuntime) {
    let alloc = rt.alloc();
    let client = checked(&rt, alloc, Side::Client);
    let out_limit = client.out_limit();
    let mime_length = client.settings().content_mime.len();
    let again = client.copy(alloc).expect(&rt, "there is memory");
    drop(client);
    let max_streams = again.settings().max_streams;
    drop(again);
    let server = usual(&rt, alloc, Side::Server);
    let side = server.side;
    drop(server);
    // Twice 1,048,576, one frame of 16,777,215 with 1,024 bytes, and 14,680,064.
    assert!(rt; out_limit == 33_555_455 && mime_length == 24);
    assert!(rt; max_streams == 1_024 && side == Side::Server);
}

// The fault of settings.
fn fault_of(settings: Settings) -> Option<SettingFault> {
    match check(settings) {
        Ok(checked) => {
            drop(checked);
            None
        }
        Err((settings, fault)) => {
            drop(settings);
            Some(fault)
        }
    }
}

// The fault of a client's usual settings with these in place of four of them.
fn fault(
    rt: &impl Abort,
    alloc: Global,
    mtu: u32,
    max_in: u32,
    last_id: u32,
    resume: bool,
) -> Option<SettingFault> {
    let mut settings = usual(rt, alloc, Side::Client);
    settings.mtu = mtu;
    settings.max_in = max_in;
    settings.last_id = last_id;
    settings.resume = resume;
    fault_of(settings)
}

/// Of settings the mtu, the most that a frame may have, the last id and whether they resume; and
/// their first fault.
const FAULTS: &[(u32, u32, u32, bool, SettingFault)] = &[
    (63, 63, 2_147_483_647, false, SettingFault::MtuRange),
    (63, 16_777_215, 2_147_483_647, false, SettingFault::MtuRange),
    (0, 63, 0, false, SettingFault::LimitRange(Limit::MaxIn)),
    (0, 16_777_215, 2_147_483_647, true, SettingFault::TokenRange),
];

#[test]
fn the_first_fault_is_answered(rt: HostRuntime) {
    for (mtu, max_in, last_id, resume, wanted) in FAULTS {
        let fault = fault(&rt, rt.alloc(), *mtu, *max_in, *last_id, *resume);
        assert!(rt; fault == Some(*wanted), "{wanted:?}");
    }
}

/// Rules, and their words.
const RULES: &[(Rule, &str)] = &[
    (Rule::StreamId(3), "stream-id"),
    (Rule::UnknownType(5), "unknown-type"),
    (Rule::Ahead(8), "ahead"),
    (Rule::OverCredit(2), "over-credit"),
];

#[test]
fn a_fault_has_its_word(rt: HostRuntime) {
    for (rule, word) in RULES {
        assert!(rt; rule.word() == *word, "{word}");
    }
    assert!(rt; SetupFault::TokenTaken.word() == "token-taken");
    assert!(rt; Gone::ServerGone(8).word() == "server-gone");
}

// Whether this is what is written.
fn is_told(rt: &impl Abort, alloc: Global, fault: &impl Display, sentence: &str) -> bool {
    let told = format!(in alloc; "{fault}").expect(rt, "there is memory");
    let is_so = told.as_str() == sentence;
    drop(told);
    is_so
}

#[test]
fn a_fault_has_its_sentence(rt: HostRuntime) {
    let alloc = rt.alloc();
    let broken = Refusal::Closed(Cause::Broken(Rule::StreamId(3)));
    let sentence = "the session is closed: the peer broke a rule: \
        a request came on stream 3, which is not the peer's next";
    assert!(rt; is_told(&rt, alloc, &broken, sentence));
    let sentence = "the peer's lease is over since 150 ms";
    assert!(rt; is_told(&rt, alloc, &Refusal::LeaseOver(150), sentence));
    let sentence = "max_in is out of its range";
    assert!(rt;
        is_told(
            &rt,
            alloc,
            &SettingFault::LimitRange(Limit::MaxIn),
            sentence
        )
    );
}
