//! One end hears what crossed to it.

ghost use Rattle.std.specs.Prelude.{◌≡◌, ◌++◌, ℕ, List, Some, false, IfOk, OnOk};
ghost use Rattle.rs_wire.specs.declared.words.Side.TheVariants.{Server};
ghost use Rattle.rs_frame.specs.declared.frame.Frame.{Frame as Meant};
ghost use Rattle.rs_frame.specs.Spelling.{IsSpellable};
ghost use Rattle.rs_frame.specs.Framed.{framed_all, framed_frame};
ghost use Rattle.session_model.specs.Legal.{CanBring};
ghost use Rattle.session_model.specs.Frames.{refusal};
ghost use Rattle.session_model.specs.Joined.{only};
ghost use Rattle.session_model.specs.Answers.{answer_to};
ghost use Rattle.session_core.specs.Seen.{IsNoDrawEvent};
ghost use Rattle.cable.specs.Played.{adds, event_of as event_meant};
ghost use Rattle.tape.specs.Answers.{leaves};
ghost use Rattle.cable.specs.Hearing.{Crosses, IsCrossing, IsHearer, IsMet, IsNear, IsOpenedBy, Nears, known_of};

use crate::arrival::{Arrival, event_of, is_too_long, next, whole};
use crate::bringing::tell;
use crate::carrying::Left;
use rs_chunk::{Reader, frame_bytes};
use rs_frame::Frame;
use rs_wire::{Blob, OutOfMemory};
use session_core::{Session, refusal_frame};
use std::alloc::Global;
use tape::{Answer, Event, Tape};

/// What crossed to an end on one connection and did not come there yet.
#[derive(Drop)]
pub(crate) struct Crossing {
    pub rest: Reader,
    /// A length came that no frame may have: nothing more comes.
    pub over: bool,
}

/// What an end knows of a connection that the other end opened.
#[derive(Drop)]
pub(crate) enum Known {
    /// Nothing: its first frame did not come yet.
    Nothing,
    /// It accepted it; the number that it has there.
    Accepted(u64),
    /// It refused it; what it gives there in place of all else.
    Refused(Left),
}

// Brings an event to an end: whether its answer leaves an entry.
fn brings<T: Tape>(end: &mut Session<T>, event: Event) -> Result<bool, OutOfMemory>
    requires fair { CanBring end.old.settings event }
    requires no_draw { IsNoDrawEvent event }
    ensures end { end.new ≡ record end.old { entries = end.new.entries; spare = end.new.spare } }
    ensures noted { OnOk result (end.new.entries ≡
        adds end.old.settings end.old.entries event) }
    ensures leaves { IfOk result (λ b. b ≡
        leaves (answer_to end.old.settings end.old.entries event)) }
{
    let answer = tell(end, event)?;
    Ok(answer.leaves_entry())
}

// Brings what stands in front: whether its answer leaves an entry.
fn come<T: Tape>(end: &mut Session<T>, conn: u64, next: Arrival) -> Result<bool, OutOfMemory>
    requires fair { CanBring end.old.settings (event_meant conn next) }
    ensures end { end.new ≡ record end.old { entries = end.new.entries; spare = end.new.spare } }
    ensures noted { OnOk result (end.new.entries ≡
        adds end.old.settings end.old.entries (event_meant conn next)) }
    ensures leaves { IfOk result (λ b. b ≡
        leaves (answer_to end.old.settings end.old.entries (event_meant conn next))) }
{
    brings(end, event_of(conn, next))
}

/// Brings all that crossed and can come: whether something did.
pub(crate) fn hear<T: Tape>(
    alloc: Global,
    end: &mut Session<T>,
    conn: u64,
    crossing: &mut Crossing,
) -> Result<bool, OutOfMemory>
    requires crossing { IsCrossing conn end.old crossing.old }
    ensures end { end.new ≡ record end.old { entries = end.new.entries; spare = end.new.spare } }
    ensures heard { (n : ℕ) (frames : List Meant) → Crosses conn n frames end.old crossing.old →
        IfOk result (IsHearer conn n frames end.old end.new crossing.new) }
{
    let mut came = false;
    if crossing.over {
        return Ok(came);
    }
    while let Some(next) = next(alloc, &crossing.rest)? {
        let last = is_too_long(&next);
        if !come(end, conn, next)? {
            return Ok(came);
        }
        came = true;
        if last {
            crossing.over = true;
            return Ok(came);
        }
        crossing.rest.pass();
    }
    Ok(came)
}

// Appends a frame after its length, and lets it go.
fn append(bytes: &mut Vec<u8>, frame: Frame) -> Result<(), OutOfMemory>
    requires { IsSpellable frame }
    ensures { OnOk result (bytes.new.items ≡ bytes.old.items ++ framed_frame frame) }
{
    frame_bytes(&frame, bytes)
}

// The bytes of what refuses a connection whose opening was answered so.
fn refusal_bytes(alloc: Global, answer: &Answer) -> Result<Blob, OutOfMemory>
    ensures { IfOk result (λ bytes. bytes ≡ framed_all (only (refusal answer.now))) }
{
    let mut bytes = Vec::new(alloc);
    if let Some(frame) = refusal_frame(alloc, answer)? {
        append(&mut bytes, frame)?;
    }
    Ok(Blob::from_vec(bytes))
}

fn known_by(alloc: Global, answer: &Answer) -> Result<Known, OutOfMemory>
    ensures { IfOk result (λ k. k ≡ known_of answer.now) }
{
    match answer {
        Answer::Opened(conn) => Ok(Known::Accepted(*conn)),
        _ => Ok(Known::Refused(Left {
            bytes: refusal_bytes(alloc, answer)?,
            crossed: 0,
        })),
    }
}

// Brings an opening: what the end knows of the connection then.
fn opens<T: Tape>(alloc: Global, end: &mut Session<T>, event: Event) -> Result<Known, OutOfMemory>
    requires fair { CanBring end.old.settings event }
    requires no_draw { IsNoDrawEvent event }
    ensures end { end.new ≡ record end.old { entries = end.new.entries; spare = end.new.spare } }
    ensures noted { OnOk result (end.new.entries ≡
        adds end.old.settings end.old.entries event) }
    ensures known { IfOk result (λ k. k ≡
        known_of (answer_to end.old.settings end.old.entries event)) }
{
    let answer = tell(end, event)?;
    known_by(alloc, &answer)
}

// Brings the first frame of a connection.
fn open_by<T: Tape>(alloc: Global, end: &mut Session<T>, frame: Frame) -> Result<Known, OutOfMemory>
    requires side { end.old.settings.side ≡ Server }
    requires spellable { IsSpellable frame }
    ensures end { end.new ≡ record end.old { entries = end.new.entries; spare = end.new.spare } }
    ensures opened { IfOk result (IsOpenedBy frame end.old end.new) }
{
    opens(alloc, end, Event::opened_by(frame))
}

/// Brings the first frame that crossed, which opens the connection. Where it is longer than the end
/// takes, the end never knows of the connection.
pub(crate) fn meet<T: Tape>(
    alloc: Global,
    end: &mut Session<T>,
    crossing: &mut Crossing,
) -> Result<Known, OutOfMemory>
    requires side { end.old.settings.side ≡ Server }
    requires near { IsNear end.old crossing.old }
    ensures end { end.new ≡ record end.old { entries = end.new.entries; spare = end.new.spare } }
    ensures met { (n : ℕ) (frames : List Meant) → Nears n frames end.old crossing.old →
        IfOk result (IsMet n frames end.old end.new crossing.new) }
{
    let Some(frame) = whole(next(alloc, &crossing.rest)?) else {
        return Ok(Known::Nothing);
    };
    let known = open_by(alloc, end, frame)?;
    crossing.rest.pass();
    Ok(known)
}
