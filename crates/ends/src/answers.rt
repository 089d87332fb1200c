//! Answers in words: those of the report, with the bytes where it has sizes, and with the numbers that
//! a rule or a fault carries.

use cable_script::kind_word;
use rs_wire::{Amount, Cause, Delivery, Gone, Job, Message, Refusal, Rule, SetupFault};
use std::alloc::{AllocError, Global};
use std::fmt::Write;
use tape::Answer;

// Appends what stands before a word, the word, and the number after it where there is one.
fn put(out: &mut String, before: &str, word: &str, number: Option<u128>) -> Result<(), AllocError> {
    match number {
        Some(number) => write!(out, "{before}{word} {number}"),
        None => write!(out, "{before}{word}"),
    }
}

/// Appends what stands before bytes, and these as digits, two a byte, or `-` for none.
pub fn put_part(
    alloc: Global,
    out: &mut String,
    before: &str,
    bytes: &[u8],
) -> Result<(), AllocError> {
    if bytes.is_empty() {
        return write!(out, "{before}-");
    }
    let digits = hex::encode(alloc, bytes)?;
    write!(out, "{before}{digits}")
}

// The part of the content; or those of the metadata and the content with `:` between.
fn put_message(
    alloc: Global,
    out: &mut String,
    before: &str,
    message: &Message,
) -> Result<(), AllocError> {
    let content = message.content.as_slice();
    match &message.metadata {
        Some(metadata) => {
            put_part(alloc, out, before, metadata.as_slice())?;
            put_part(alloc, out, ":", content)
        }
        None => put_part(alloc, out, before, content),
    }
}

// The number that a rule carries.
fn rule_number(rule: Rule) -> Option<u128> {
    match rule {
        Rule::UnknownType(number) | Rule::BadFrame(number) => Some(u128::from(number)),
        Rule::StreamId(stream) => Some(u128::from(stream)),
        Rule::OverCredit(granted) => Some(granted),
        Rule::TooLarge(n) | Rule::Ahead(n) => Some(u128::from(n)),
        Rule::NotNow | Rule::PositionSpent => None,
    }
}

fn put_rule(out: &mut String, before: &str, rule: Rule) -> Result<(), AllocError> {
    put(out, before, rule.word(), rule_number(rule))
}

fn put_setup(out: &mut String, before: &str, fault: SetupFault) -> Result<(), AllocError> {
    put(out, before, fault.word(), None)?;
    match fault {
        SetupFault::BadVersion(major, minor) => write!(out, " {major} {minor}"),
        _ => Ok(()),
    }
}

// The number that a refusal to resume carries.
fn gone_number(gone: Gone) -> Option<u128> {
    match gone {
        Gone::Version(major) => Some(u128::from(major)),
        Gone::ServerGone(position) | Gone::Ahead(position) | Gone::ClientGone(position) => {
            Some(u128::from(position))
        }
        Gone::Token | Gone::NotBoundary => None,
    }
}

fn put_gone(out: &mut String, before: &str, gone: Gone) -> Result<(), AllocError> {
    put(out, before, gone.word(), gone_number(gone))
}

// The word of a cause, after which comes what it carries.
fn cause_word(cause: Cause) -> &'static str {
    match cause {
        Cause::Local => "local",
        Cause::Peer(_) => "peer",
        Cause::Broken(_) => "broken",
        Cause::Cut => "cut",
        Cause::Dead => "dead",
        Cause::Resume(_) => "resume",
        Cause::Setup(_) => "setup",
    }
}

/// Appends why a session is closed.
pub fn put_cause(out: &mut String, before: &str, cause: Cause) -> Result<(), AllocError> {
    put(out, before, cause_word(cause), None)?;
    match cause {
        Cause::Peer(code) => write!(out, " {code}"),
        Cause::Broken(rule) => put_rule(out, " ", rule),
        Cause::Resume(gone) => put_gone(out, " ", gone),
        Cause::Setup(fault) => put_setup(out, " ", fault),
        Cause::Local | Cause::Cut | Cause::Dead => Ok(()),
    }
}

// The words of a refusal. After `closed` comes the cause.
fn refusal_words(refusal: Refusal) -> &'static str {
    match refusal {
        Refusal::Closed(_) => "closed",
        Refusal::UnknownStream => "unknown stream",
        Refusal::Ended => "ended",
        Refusal::WrongKind => "wrong kind",
        Refusal::TooLarge(_) => "too large",
        Refusal::NoCredit(_) => "no credit",
        Refusal::NoLease(_) => "no lease",
        Refusal::LeaseOver(_) => "lease over",
        Refusal::IdsGone => "ids gone",
        Refusal::TooManyStreams(_) => "too many streams",
        Refusal::NotConnected => "not connected",
        Refusal::OutFull(_) => "out full",
        Refusal::PositionSpent => "position spent",
    }
}

// The number that a refusal carries.
fn refusal_number(refusal: Refusal) -> Option<u128> {
    match refusal {
        Refusal::TooLarge(n) | Refusal::LeaseOver(n) | Refusal::OutFull(n) => {
            Some(u128::from(n))
        }
        Refusal::NoLease(n) | Refusal::TooManyStreams(n) => Some(u128::from(n)),
        Refusal::NoCredit(granted) => Some(granted),
        _ => None,
    }
}

fn put_refusal(out: &mut String, refusal: Refusal) -> Result<(), AllocError> {
    match refusal {
        Refusal::Closed(cause) => put_cause(out, "closed ", cause),
        _ => put(out, "", refusal_words(refusal), refusal_number(refusal)),
    }
}

fn put_delivery(alloc: Global, out: &mut String, delivery: &Delivery) -> Result<(), AllocError> {
    match delivery {
        Delivery::Item(message) => put_message(alloc, out, "item ", message),
        Delivery::Complete => out.push_str("complete"),
        Delivery::Error { code, content } => {
            write!(out, "error {code}")?;
            put_part(alloc, out, " ", content.as_slice())
        }
        Delivery::Canceled => out.push_str("canceled"),
    }
}

// A request: the stream, the kind, and how many items may be sent at first where the kind has items.
fn put_request(
    out: &mut String,
    stream: u32,
    kind: &str,
    initial: Option<Amount>,
) -> Result<(), AllocError> {
    match initial {
        Some(n) => write!(out, "job {stream} {kind} {}", n.get()),
        None => write!(out, "job {stream} {kind}"),
    }
}

// A request with its message, and ` last` where C stood on it; or the metadata that was pushed.
fn put_job(alloc: Global, out: &mut String, job: &Job) -> Result<(), AllocError> {
    match job {
        Job::Asked {
            stream,
            kind,
            initial,
            message,
            complete,
        } => {
            put_request(out, *stream, kind_word(*kind), *initial)?;
            put_message(alloc, out, " ", message)?;
            out.push_str(if *complete { " last" } else { "" })
        }
        Job::Pushed { metadata } => put_part(alloc, out, "pushed ", metadata.as_slice()),
    }
}

// The words of an answer. What is got, a refusal and a fault are shown by words of their own.
fn words(answer: &Answer) -> &'static str {
    match answer {
        Answer::Opened(_) => "opened",
        Answer::Started(_) => "stream",
        Answer::Done => "done",
        Answer::Got(_) => "got",
        Answer::GotJob(_) => "job",
        Answer::Drawn(_) => "drawn",
        Answer::Parted => "cut",
        Answer::Quiet => "quiet",
        Answer::Sent => "keepalive",
        Answer::Dead(_) => "dead",
        Answer::Handled => "handled",
        Answer::PeerError(_) => "peer error",
        Answer::Violation(_) => "violation",
        Answer::SetupRefused(_) => "setup refused",
        Answer::ResumeRefused(_) => "resume refused",
        Answer::Stale(_) => "stale",
        Answer::Refused(_) => "refused",
        Answer::Closed(_) => "closed",
        Answer::NotYet => "not yet",
        Answer::OutBusy(_) => "out busy",
        Answer::TapeFull => "tape full",
        Answer::OutOfMemory => "out of memory",
    }
}

// The number that an answer carries.
fn number(answer: &Answer) -> Option<u128> {
    match answer {
        Answer::Opened(n) | Answer::Dead(n) | Answer::Stale(n) | Answer::OutBusy(n) => {
            Some(u128::from(*n))
        }
        Answer::Started(n) | Answer::Drawn(n) | Answer::PeerError(n) => Some(u128::from(*n)),
        _ => None,
    }
}

/// Appends an answer.
pub fn put_answer(alloc: Global, out: &mut String, answer: &Answer) -> Result<(), AllocError> {
    match answer {
        Answer::Got(delivery) => put_delivery(alloc, out, delivery),
        Answer::GotJob(job) => put_job(alloc, out, job),
        Answer::Violation(rule) => put_rule(out, "violation ", *rule),
        Answer::SetupRefused(fault) => put_setup(out, "setup refused ", *fault),
        Answer::ResumeRefused(gone) => put_gone(out, "resume refused ", *gone),
        Answer::Refused(refusal) => put_refusal(out, *refusal),
        Answer::Closed(cause) => put_cause(out, "closed ", *cause),
        _ => put(out, "", words(answer), number(answer)),
    }
}
