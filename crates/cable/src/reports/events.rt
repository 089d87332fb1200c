//! Events in the report.

ghost use Rattle.std.specs.Prelude.{◌≡◌, ◌++◌, OnOk};
ghost use Rattle.rs_frame.specs.Spelling.{IsSpellable};
ghost use Rattle.cable.specs.Report.{call_text, event_text, frame_text, initial_text};
ghost use Rattle.cable_script.specs.Spoken.{last_text, next_word, numbered};
ghost use Rattle.cable.specs.Lines.{CanBeTold};

use crate::reports::answers::put_numbered;
use cable_script::{kind_word, next_word};
use frame_text::frame_name;
use plain_text::{write_number_word, write_text};
use rs_frame::Frame;
use rs_wire::{Amount, Call, OutOfMemory};
use tape::Event;

fn put_frame(out: &mut Vec<u8>, frame: &Frame) -> Result<(), OutOfMemory>
    requires { IsSpellable frame.now }
    ensures { OnOk result (out.new.items ≡ out.old.items ++ frame_text frame.now) }
{
    write_text(out, frame_name(frame))?;
    write_number_word(out, u64::from(rs_frame::stream(frame)))?;
    write_number_word(out, u64::from(rs_frame::length(frame)))
}

// Appends how many items are granted with a request, where some are.
fn put_initial(out: &mut Vec<u8>, initial: Option<Amount>) -> Result<(), OutOfMemory>
    ensures { OnOk result (out.new.items ≡ out.old.items ++ initial_text initial) }
{
    match initial {
        Some(n) => write_number_word(out, u64::from(n.get())),
        None => Ok(()),
    }
}

// Appends a word where this end sends nothing more.
fn put_last(out: &mut Vec<u8>, complete: bool) -> Result<(), OutOfMemory>
    ensures { OnOk result (out.new.items ≡ out.old.items ++ last_text complete) }
{
    if complete {
        return write_text(out, " last");
    }
    Ok(())
}

// Appends a word and two numbers after it.
fn put_two(out: &mut Vec<u8>, word: &str, first: u32, second: u64) -> Result<(), OutOfMemory>
    ensures { OnOk result (out.new.items ≡ out.old.items ++ numbered (numbered word.now first) second) }
{
    put_numbered(out, word, u64::from(first))?;
    write_number_word(out, second)
}

fn put_call(out: &mut Vec<u8>, call: &Call) -> Result<(), OutOfMemory>
    ensures { OnOk result (out.new.items ≡ out.old.items ++ call_text call.now) }
{
    match call {
        Call::Request {
            kind,
            initial,
            message,
            complete,
        } => {
            write_text(out, kind_word(*kind))?;
            put_initial(out, *initial)?;
            write_number_word(out, message.size())?;
            put_last(out, *complete)
        }
        Call::Next {
            stream,
            message,
            complete,
        } => put_two(out, next_word(*complete), *stream, message.size()),
        Call::Done { stream } => put_numbered(out, "done", u64::from(*stream)),
        Call::Grant { stream, n } => put_two(out, "grant", *stream, u64::from(n.get())),
        Call::Cancel { stream } => put_numbered(out, "cancel", u64::from(*stream)),
        Call::Fail {
            stream,
            code,
            content,
        } => {
            put_two(out, "fail", *stream, u64::from(*code))?;
            write_number_word(out, content.len() as u64)
        }
        Call::Push { metadata } => put_numbered(out, "push", metadata.len() as u64),
        Call::Lease { ttl, count, .. } => put_two(out, "lease", ttl.get(), u64::from(count.get())),
        Call::Take { stream } => put_numbered(out, "take", u64::from(*stream)),
        Call::TakeJob => write_text(out, "job"),
        Call::Close => write_text(out, "close"),
    }
}

/// Appends an event.
pub fn put_event(out: &mut Vec<u8>, event: &Event) -> Result<(), OutOfMemory>
    requires { CanBeTold event.now }
    ensures { OnOk result (out.new.items ≡ out.old.items ++ event_text event.now) }
{
    match event {
        Event::Open { first: None, .. } => write_text(out, "open"),
        Event::Open {
            first: Some(frame),
            ..
        } => {
            write_text(out, "open ")?;
            put_frame(out, frame)
        }
        Event::Cut { conn } => put_numbered(out, "cut", *conn),
        Event::Draw { conn, .. } => put_numbered(out, "draw", *conn),
        Event::Came { frame, .. } => {
            write_text(out, "came ")?;
            put_frame(out, frame)
        }
        Event::Bad { rule, .. } => put_numbered(out, "bad", u64::from(*rule)),
        Event::Tick { now } => put_numbered(out, "tick", *now),
        Event::Asked(call) => put_call(out, call),
    }
}
