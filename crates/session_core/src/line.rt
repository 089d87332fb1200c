//! What an event puts in line, to be drawn.

ghost use Rattle.std.specs.Prelude.{◌≡◌, ◌≤◌, ◌++◌, IfSome, OnErr, OnOk, length};
ghost use Rattle.std.specs.List.{AllByRecursion};
ghost use Rattle.rs_frame.specs.Spelling.{IsSpellable};
ghost use Rattle.rs_frame.specs.Framed.{framed_all};
ghost use Rattle.replay_buffer.specs.Held.{IsHeldBoundary};
ghost use Rattle.outbox.specs.Waiting.{with_queue};
ghost use Rattle.session_model.specs.Frames.{if_carrying};
ghost use Rattle.session_core.specs.Kept.{sent_again};
ghost use Rattle.session_core.specs.Prepared.{left_in_line, lined_on};

use crate::outgoing::Outgoing;
use outbox::Outbox;
use rs_frame::Frame;
use rs_wire::OutOfMemory;
use tape::Answer;

// Appends the held frames from a held boundary on, where there is one.
fn append_again(outbox: &mut Outbox, again: Option<u64>) -> Result<(), OutOfMemory>
    requires { IfSome again (IsHeldBoundary outbox.old.held) }
    ensures ok { OnOk result (outbox.new ≡ with_queue outbox.old
        (outbox.old.queue ++ sent_again outbox.old.held again) outbox.new.room.loose) }
    ensures err { OnErr result (outbox.new ≡ outbox.old) }
{
    match again {
        Some(position) => outbox.send_from(position),
        None => Ok(()),
    }
}

// Appends the frames that are made, where they go out at once.
fn append_made(outbox: &mut Outbox, carrying: bool, made: &[Frame]) -> Result<(), OutOfMemory>
    requires { AllByRecursion IsSpellable made.now }
    ensures ok { OnOk result (outbox.new ≡ with_queue outbox.old
        (outbox.old.queue ++ framed_all (if_carrying carrying made.now)) outbox.new.room.loose) }
    ensures err { OnErr result (outbox.new ≡ outbox.old) }
{
    if !carrying {
        return Ok(());
    }
    outbox.append(made)
}

// Appends the frames that are sent again, and those that are made.
fn append_resumable(outbox: &mut Outbox, carrying: bool, line: &Outgoing) -> Result<(), OutOfMemory>
    requires again { IfSome line.now.again (IsHeldBoundary outbox.old.held) }
    requires made { AllByRecursion IsSpellable line.now.made.items }
    ensures ok { OnOk result (outbox.new ≡ with_queue outbox.old (outbox.old.queue
        ++ (sent_again outbox.old.held line.now.again
        ++ framed_all (if_carrying carrying line.now.made.items))) outbox.new.room.loose) }
    ensures err { OnErr result (outbox.new ≡
        with_queue outbox.old outbox.old.queue outbox.new.room.loose) }
{
    let before = outbox.len();
    append_again(outbox, line.again)?;
    let done = append_made(outbox, carrying, &line.made);
    if done.is_err() {
        outbox.truncate(before);
    }
    done
}

/// Appends what is put in line to what waits, where a connection is live then.
pub fn line_up(
    outbox: &mut Outbox,
    live: u64,
    carrying: bool,
    line: &Outgoing,
) -> Result<(), OutOfMemory>
    requires notices { AllByRecursion IsSpellable line.now.notices.items }
    requires again { IfSome line.now.again (IsHeldBoundary outbox.old.held) }
    requires made { AllByRecursion IsSpellable line.now.made.items }
    ensures ok { OnOk result (outbox.new ≡ with_queue outbox.old (outbox.old.queue
        ++ lined_on live (framed_all line.now.notices.items
        ++ (sent_again outbox.old.held line.now.again
        ++ framed_all (if_carrying carrying line.now.made.items)))) outbox.new.room.loose) }
    ensures err { OnErr result (outbox.new ≡
        with_queue outbox.old outbox.old.queue outbox.new.room.loose) }
{
    if live == 0 {
        return Ok(());
    }
    let before = outbox.len();
    outbox.append(&line.notices)?;
    let done = append_resumable(outbox, carrying, line);
    if done.is_err() {
        outbox.truncate(before);
    }
    done
}

/// Drops what stays no longer in line: what waited before an opening, and all that waits where the
/// connection ends.
pub fn settle(outbox: &mut Outbox, answer: &Answer, before: u64)
    requires { before ≤ length outbox.old.queue }
    ensures { outbox.new ≡ with_queue outbox.old
        (left_in_line answer.now before outbox.old.queue) outbox.new.room.loose }
{
    match answer {
        Answer::Opened(_) => outbox.drop_front(before),
        Answer::Parted | Answer::Dead(_) => outbox.truncate(0),
        _ => {}
    }
}
