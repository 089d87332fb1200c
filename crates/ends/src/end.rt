//! One session, to which rows are brought in one way.

ghost use Rattle.std.specs.Prelude.{◌≡◌};
ghost use Rattle.rs_wire.specs.Settings.{IsChecked};
ghost use Rattle.session_model.specs.Legal.{CanBring};
ghost use Rattle.session_core.specs.Seen.{IsNoDrawEvent};

use crate::answers::{put_answer, put_cause, put_part};
use crate::events::is_act;
use crate::row::Row;
use anyhow::{Result, bail};
use rs_wire::Checked;
use session_core::{Counts, Session};
use std::alloc::{AllocError, Global};
use std::fmt::Write;
use tape::{Answer, Event, Tape};

/// The number of the caller who brings all events.
const WHO: u32 = 1;

/// How events are brought to a session.
#[derive(Clone, Copy)]
pub enum Way {
    /// By `step`, which copies what it keeps of them.
    Step,
    /// By `bring`, which takes them.
    Bring,
    /// By `step`, but calls by `ask`, which copies nothing where it answers.
    Ask,
}

/// A session, and what was drawn of it.
pub struct End<T: Tape> {
    session: Session<T>,
    /// The bytes that were drawn, and that no row showed yet.
    drawn: Vec<u8>,
}

// The answer to an event, of which a call is not copied where the session answers it so.
fn ask<T: Tape>(session: &mut Session<T>, event: &Event) -> Answer
    requires fair { CanBring session.old.settings event.now }
    requires no_draw { IsNoDrawEvent event.now }
{
    if let Event::Asked(call) = event {
        if let Some(answer) = session.ask(WHO, call) {
            return answer;
        }
    }
    session.step(WHO, event)
}

// The answer to an event.
fn act<T: Tape>(
    alloc: Global,
    session: &mut Session<T>,
    way: Way,
    event: &Event,
) -> Result<Answer> {
    if !is_act(session.settings().settings(), event) {
        bail!("it cannot happen at this end");
    }
    match way {
        Way::Step => Ok(session.step(WHO, event)),
        Way::Bring => Ok(session.bring(WHO, event.copy(alloc)?)),
        Way::Ask => Ok(ask(session, event)),
    }
}

// Whether an answer is one to such an event: a session that is closed refuses a call, and answers
// `Closed` to any other event. In words both are `closed`.
fn is_answer_to(answer: &Answer, event: &Event) -> bool {
    match (answer, event) {
        (Answer::Closed(_), Event::Asked(_)) => false,
        (Answer::Refused(_), Event::Asked(_)) => true,
        (Answer::Refused(_), _) => false,
        _ => true,
    }
}

// The answer to a draw. The bytes drawn are appended to those given.
fn draw<T: Tape>(
    alloc: Global,
    session: &mut Session<T>,
    conn: u64,
    room: u32,
    drawn: &mut Vec<u8>,
) -> Result<Answer> {
    if room == 0 {
        bail!("no room");
    }
    let mut buffer = vec![in alloc; 0; room as usize]?;
    let answer = session.draw(WHO, conn, &mut buffer);
    let count = answer.drawn().unwrap_or(0);
    buffer.truncate(count as usize);
    let kept = drawn.extend_from_slice(&buffer);
    drop(buffer);
    match kept {
        Ok(()) => Ok(answer),
        Err(error) => {
            drop(answer);
            Err(error.into())
        }
    }
}

// Appends an answer to an event.
fn tell(alloc: Global, answer: &Answer, event: &Event, out: &mut String) -> Result<(), AllocError> {
    put_answer(alloc, out, answer)?;
    if is_answer_to(answer, event) {
        return Ok(());
    }
    out.push_str(", which is no answer to it")
}

// Appends why the session is closed, and the keepalive of the SETUP that it accepted.
fn put_life<T: Tape>(out: &mut String, session: &Session<T>) -> Result<(), AllocError> {
    match session.cause() {
        Some(cause) => put_cause(out, " closed ", *cause)?,
        None => out.push_str(" closed -")?,
    }
    match session.setup() {
        Some(setup) => write!(out, " keepalive {}", setup.keepalive.get()),
        None => out.push_str(" keepalive -"),
    }
}

impl<T: Tape + Drop> End<T> {
    /// A session that is not begun.
    pub fn new(alloc: Global, settings: &Checked, tape: T) -> Result<End<T>>
        requires empty { T.count tape ≡ 0 }
    {
        let settings = settings.copy(alloc)?;
        // Its contract says that they are checked, as a session requires.
        settings.settings();
        match Session::new(alloc, settings, tape) {
            Ok(session) => Ok(End {
                session,
                drawn: Vec::new(alloc),
            }),
            Err((_, error)) => Err(error.into()),
        }
    }

    fn answer_to(&mut self, alloc: Global, way: Way, event: &Event) -> Result<Answer> {
        match event {
            Event::Draw { conn, room } => {
                draw(alloc, &mut self.session, *conn, *room, &mut self.drawn)
            }
            _ => act(alloc, &mut self.session, way, event),
        }
    }

    // Appends the answer to an event.
    fn act(&mut self, alloc: Global, way: Way, event: &Event, out: &mut String) -> Result<()> {
        let answer = self.answer_to(alloc, way, event)?;
        let told = tell(alloc, &answer, event, out);
        drop(answer);
        Ok(told?)
    }

    // Appends the first bytes of those that no row showed yet, up to so many.
    fn put_sent(
        &mut self,
        alloc: Global,
        count: usize,
        out: &mut String,
    ) -> Result<(), AllocError> {
        let (shown, left) = self.drawn.split_at(count.min(self.drawn.len()));
        put_part(alloc, out, "", shown)?;
        self.drawn = Vec::from_slice(alloc, left)?;
        Ok(())
    }

    fn reserve(&mut self, out: &mut String) -> Result<()> {
        self.session.reserve()?;
        Ok(out.push_str("reserved")?)
    }

    // Appends the next moment at which a tick does something, `-` where none does.
    fn put_due(&self, out: &mut String) -> Result<(), AllocError> {
        match self.session.next_due() {
            Some(moment) => write!(out, "{moment}"),
            None => out.push_str("-"),
        }
    }

    /// Appends what is answered to a row.
    pub fn answer(&mut self, alloc: Global, way: Way, row: &Row, out: &mut String) -> Result<()> {
        match row {
            Row::Event(event) => self.act(alloc, way, event, out),
            Row::Sent(count) => Ok(self.put_sent(alloc, *count, out)?),
            Row::Reserve => self.reserve(out),
            Row::Due => Ok(self.put_due(out)?),
        }
    }

    // Appends how many entries the tape has, the live connection, and what waits on it.
    fn put_line(&self, out: &mut String) -> Result<(), AllocError> {
        let session = &self.session;
        write!(
            out,
            "entries {} live {} carrying {} queued {}",
            session.tape().count(),
            session.live(),
            if session.carrying() { "yes" } else { "no" },
            session.queued()
        )
    }

    // Appends how many frames were made and handled, their positions, and how many bytes that were
    // drawn no row showed.
    fn put_counts(&self, out: &mut String) -> Result<(), AllocError> {
        let Counts {
            made_frames,
            made,
            handled_frames,
            handled,
        } = self.session.counts();
        let left = self.drawn.len();
        write!(
            out,
            " made {made_frames} {made} handled {handled_frames} {handled} left {left}"
        )
    }

    /// Appends what the session shows of itself, and how many bytes that were drawn no row showed.
    pub fn put_shown(&self, out: &mut String) -> Result<(), AllocError> {
        self.put_line(out)?;
        put_life(out, &self.session)?;
        self.put_counts(out)
    }

    /// The tape of the session.
    pub fn tape(&self) -> &T {
        self.session.tape()
    }

    /// The tape of the session, which is done.
    pub fn into_tape(self) -> T {
        let End {
            session,
            drawn: _drawn,
        } = self;
        session.into_tape()
    }
}
