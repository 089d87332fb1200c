//! An end of a session with the bytes that come on its connection.

ghost use Rattle.std.specs.Prelude.{◌≡◌, ◌≢◌, ◌<◌, ◌≤◌, ◌^◌, ◌++◌, [], None, Some, IfErr, IfOk, IfSome, OnErr, OnOk, drop, false, if◌then◌else◌, is_some, true, length, max, not, take, ℕ, Err, List};
ghost use Rattle.rs_wire.specs.Calls.{CanBeAsked};
ghost use Rattle.rs_wire.specs.Settings.{IsChecked};
ghost use Rattle.rs_wire.specs.declared.words.Side.TheVariants.{Client, Server};
ghost use Rattle.rs_frame.specs.Framed.{framed_all};
ghost use Rattle.rs_frame.specs.Spelling.{IsSpellable, Spells};
ghost use Rattle.rs_chunk.specs.Stream.{IsWhole, after_frame, first_frame};
ghost use Rattle.tape.specs.Answers.{leaves};
ghost use Rattle.tape.specs.declared.answer.Answer.TheVariants as answers;
ghost use Rattle.tape.specs.declared.event.Event.TheVariants as events;
ghost use Rattle.session_model.specs.Answers.{answer_to};
ghost use Rattle.session_model.specs.Frames.{drawn, due};
ghost use Rattle.session_model.specs.Moments.{moment};
ghost use Rattle.session_model.specs.Legal.{CanBring, Fair, Legal};
ghost use Rattle.session_core.specs.Queued.{IfDrawn};
ghost use Rattle.session_core.specs.Seen.{IsNoDrawEvent, told_by};
ghost use Rattle.link_model.specs.Reading.{BeginsBad, IsInFront, IsPart};
ghost use Rattle.rustshuttle.specs.Ends.{Brings, EndSeen, FaultFor, GivesOut, HasAnswered, HasAppended, HasBrought, HasNone, IsAsBefore, IsDrawFault, IsFaultBy, IsFirst, IsFirstFault, IsNextOf, connection_after, is_bad, left_after, rest_after};

use crate::coming::{fault_of, first_event, is_bad, next_event};
use crate::fault::EndFault;
use rs_chunk::Reader;
use rs_wire::{Call, Checked, OutOfMemory, Side};
use session_core::Session;
use std::alloc::Global;
use std::marker::Model;
use tape::{Answer, Event, Tape};

/// The number under which an end notes what it is asked: it has one caller.
pub const CALLER: u32 = 0;

/// One end of a session, and the bytes that came on its connection and were not brought. It is fed
/// bytes in pieces of any size, and keeps the part of a frame.
///
/// ```text
///                  feed                 bring_next             ask, connect, tick
///    connection  -------->  bytes that  ----------->  session  <------------------  program
///                           wait                               ------------------>
///    connection  <--------------------------------------------       answers
///                                  draw
/// ```
///
/// A program has three kinds of calls. *Something happened*: [`connect`](Endpoint::connect) or
/// [`accept`](Endpoint::accept), then [`feed`](Endpoint::feed) and
/// [`bring_next`](Endpoint::bring_next) until that gives `None`; [`tick`](Endpoint::tick) when the
/// moment of [`next_due`](Endpoint::next_due) has come; [`disconnect`](Endpoint::disconnect). *A
/// caller wants something*: [`ask`](Endpoint::ask). *What goes out*: [`draw`](Endpoint::draw), until
/// it answers `NotYet`, after each call of the other two kinds.
///
/// Contracts see the session, the number of the connection, and the bytes that wait.
#[derive(Drop)]
pub struct Endpoint<T: Tape> {
    alloc: Global,
    session: Session<T>,
    /// The number of the connection whose bytes come; none before an opening.
    connection: Option<u64>,
    reader: Reader,
}

impl<T: Tape> Model for Endpoint<T> {
    ghost use Rattle.std.specs.Prelude.{◌≡◌, ◌<◌, ◌^◌};
    ghost use Rattle.rustshuttle.specs.Ends.{EndSeen};

    ghost Value = { EndSeen };

    ghost view = { λ e. record {
      session = e.session;
      connection = e.connection;
      rest = e.reader.bytes;
    } };

    // The reader's limit is that of the settings.
    ghost invariant = { λ e. (e.reader.max_in ≡ e.session.settings.max_in)
        × (e.session.settings.max_in < 2 ^ 24) };
}

impl<T: Tape> Endpoint<T> {
    /// An end at which nothing happened yet. The tape is empty. Where memory runs out, the tape
    /// comes back.
    pub fn new(alloc: Global, settings: Checked, tape: T) -> Result<Endpoint<T>, (T, OutOfMemory)>
        requires empty { T.count tape ≡ 0 }
        requires checked { IsChecked settings }
        ensures ok { IfOk result (λ e. e ≡ record {
          session = record {
            settings = settings;
            entries = [];
            tells = is_some (T.told tape);
            spare = T.spare tape;
          };
          connection = None;
          rest = [];
        }) }
        ensures back { IfErr result (λ e. e.0 ≡ tape) }
    {
        let max_in = settings.settings().max_in;
        let session = Session::new(alloc, settings, tape)?;
        Ok(Endpoint {
            alloc,
            session,
            connection: None,
            reader: Reader::new(alloc, max_in),
        })
    }

    // Answers an event, which is no draw.
    fn tell(&mut self, event: Event) -> Answer
        requires fair { CanBring self.old.session.settings event }
        requires no_draw { IsNoDrawEvent event }
        ensures answered { HasAnswered event result self.old.session self.new.session }
        ensures rest { self.new ≡ record self.old { session = self.new.session } }
    {
        self.session.bring(CALLER, event)
    }

    /// A client opens a connection: `Opened` with its number where it may. What came on the former
    /// one is dropped then. Bring a [`tick`](Endpoint::tick) before it, so that the connection's
    /// times begin at that moment.
    pub fn connect(&mut self) -> Answer
        requires client { self.old.session.settings.side ≡ Client }
        ensures answered { HasAnswered (events.Open None false) result
            self.old.session self.new.session }
        ensures connection { self.new.connection ≡
            connection_after result self.old.connection }
        ensures rest { self.new.rest ≡ rest_after result self.old.rest }
    {
        let answer = self.tell(Event::opening());
        if let Answer::Opened(conn) = &answer {
            self.connection = Some(*conn);
            self.clear();
        }
        answer
    }

    /// Bytes come on a new connection to a server, whose first frame opens or resumes the session.
    /// What came on the former one is dropped.
    pub fn accept(&mut self)
        ensures { self.new ≡ record self.old { connection = None; rest = [] } }
    {
        self.connection = None;
        self.clear();
    }

    // Drops the bytes that wait.
    fn clear(&mut self)
        ensures { self.new ≡ record self.old { rest = [] } }
    {
        self.reader = Reader::new(self.alloc, self.session.settings().settings().max_in);
    }

    /// The connection is gone: `Parted`. Where resumption is agreed the session waits for the next
    /// one, else it is closed. Without a connection there is no answer.
    pub fn disconnect(&mut self) -> Option<Answer>
        ensures none { result ≡ None → self.new ≡ self.old }
        ensures some { IfSome self.old.connection (λ c. IfSome result (λ a.
            HasAnswered (events.Cut c) a self.old.session self.new.session)) }
        ensures which { is_some result ≡ is_some self.old.connection }
        ensures rest { (self.new.connection ≡ self.old.connection)
            × (self.new.rest ≡ self.old.rest) }
    {
        let conn = self.connection?;
        Some(self.tell(Event::Cut { conn }))
    }

    /// Bytes came on the connection, in a piece of any size. Where there is no memory for them none
    /// is taken.
    pub fn feed(&mut self, piece: &[u8]) -> Result<(), OutOfMemory>
        ensures ok { OnOk result (self.new ≡
            record self.old { rest = self.old.rest ++ piece.now }) }
        ensures err { OnErr result (self.new ≡ self.old) }
    {
        self.reader.feed(piece)
    }

    // What stood in front was brought, bytes that are no frame or a frame, and so answered.
    fn pass(&mut self, bad: bool, answer: &Answer)
        requires { bad ≡ false → IsWhole self.old.rest self.old.session.settings.max_in }
        ensures session { self.new.session ≡ self.old.session }
        ensures connection { self.new.connection ≡
            connection_after answer.now self.old.connection }
        ensures rest { self.new.rest ≡
            (if bad then [] else after_frame self.old.rest) }
    {
        if bad {
            self.clear();
        } else {
            self.reader.pass();
        }
        if let Answer::Opened(conn) = answer {
            self.connection = Some(*conn);
        }
    }

    // Brings what stands in front, as this event.
    fn bring(&mut self, event: Event) -> Result<Answer, EndFault>
        requires { IsNextOf self.old event }
        ensures brought { IfOk result (λ a. HasBrought a self.old self.new) }
        ensures fewer { OnOk result (length self.new.rest < length self.old.rest) }
        ensures same { OnErr result (IsAsBefore self.old self.new) }
        ensures cause { IfErr result (FaultFor self.old) }
    {
        let bad = is_bad(&event);
        let answer = self.session.bring(CALLER, event);
        if let Some(fault) = fault_of(&answer) {
            return Err(fault);
        }
        self.pass(bad, &answer);
        Ok(answer)
    }

    // What stands in front, as an event.
    fn next(&self) -> Result<Option<Event>, EndFault>
        ensures some { IfOk result (λ found. IfSome found (IsNextOf self.now)) }
        ensures none { IfOk result (λ found. found ≡ None → HasNone self.now) }
        ensures fault { IfErr result (FaultFor self.now) }
    {
        match (self.connection, self.session.settings().settings().side) {
            (Some(conn), _) => next_event(self.alloc, &self.reader, conn),
            (None, Side::Server) => first_event(self.alloc, &self.reader),
            (None, Side::Client) => Ok(None),
        }
    }

    /// Brings the next frame that came, and gives the answer; `None` where no whole frame waits. At
    /// a server without a connection it is the first frame, which opens one. Bytes that are no frame
    /// are answered `Violation`, and all that came with them is dropped.
    pub fn bring_next(&mut self) -> Result<Option<Answer>, EndFault>
        ensures brought { IfOk result (λ a. Brings a self.old self.new) }
        ensures fewer { IfOk result (λ a. is_some a ≡ true →
            length self.new.rest < length self.old.rest) }
        ensures same { OnErr result (IsAsBefore self.old self.new) }
        ensures cause { IfErr result (FaultFor self.old) }
    {
        match self.next()? {
            Some(event) => Ok(Some(self.bring(event)?)),
            None => Ok(None),
        }
    }

    /// Brings all whole frames that came, and appends the answers, in their order. After a fault
    /// the answers that were given by then are there.
    pub fn bring_all(&mut self, answers: &mut Vec<Answer>) -> Result<(), EndFault>
        ensures brought { (mid : EndSeen) × HasAppended answers.old.items answers.new.items
            self.old mid × IsAsBefore mid self.new }
        ensures settings { self.new.session.settings ≡ self.old.session.settings }
        ensures all { OnOk result (HasNone self.new) }
        ensures cause { IfErr result (FaultFor self.new) }
    {
        loop {
            if answers.reserve(1).is_err() {
                return Err(EndFault::OutOfMemory);
            }
            match self.bring_next()? {
                Some(answer) => answers.push_reserved(answer),
                None => return Ok(()),
            }
        }
    }

    /// A caller asks something: the constructors of this crate make the calls.
    pub fn ask(&mut self, call: Call) -> Answer
        requires can { CanBeAsked call }
        ensures answered { HasAnswered (events.Asked call) result
            self.old.session self.new.session }
        ensures rest { self.new ≡ record self.old { session = self.new.session } }
    {
        self.session.bring(CALLER, Event::Asked(call))
    }

    /// It is this moment, in milliseconds; moments never fall. A client sends a KEEPALIVE where one
    /// is due, and a peer from which nothing came for a lifetime counts as dead (RSocket 1.0,
    /// "KEEPALIVE Frame").
    pub fn tick(&mut self, now: u64) -> Answer
        ensures answered { HasAnswered (events.Tick now) result
            self.old.session self.new.session }
        ensures rest { self.new ≡ record self.old { session = self.new.session } }
    {
        self.tell(Event::Tick { now })
    }

    /// The moment, in milliseconds, at which the next [`tick`](Endpoint::tick) does something; none
    /// where none does. It may be past: then a tick comes at once. Ask again after each other call.
    pub fn next_due(&self) -> Option<u128>
        ensures none { result ≡ None → (now : ℕ) →
            answer_to self.now.session.settings self.now.session.entries (events.Tick now)
            ≡ answers.Quiet }
        ensures before { IfSome result (λ t. (now : ℕ) →
            max (moment self.now.session.entries) now < t →
            answer_to self.now.session.settings self.now.session.entries (events.Tick now)
            ≡ answers.Quiet) }
    {
        self.session.next_due()
    }

    /// Moves the next bytes that go out on the connection into the buffer, of 1 to 4,294,967,295
    /// bytes, and gives them: none where nothing waits, where the connection is not the live one, or
    /// where there is none. After a fault they still wait.
    pub fn draw<'a>(&mut self, buffer: &'a mut [u8]) -> Result<&'a [u8], EndFault>
        requires some { 0 < length buffer.old }
        requires few { length buffer.old < 2 ^ 32 }
        ensures out { IfOk result (λ bytes.
            GivesOut (length buffer.old) bytes.now self.old self.new) }
        ensures same { OnErr result (IsAsBefore self.old self.new) }
        ensures cause { IfErr result (IsDrawFault self.old) }
    {
        let Some(conn) = self.connection else {
            return Ok(&[]);
        };
        match self.session.draw(CALLER, conn, buffer) {
            Answer::Drawn(count) => Ok(&buffer[..count as usize]),
            Answer::TapeFull => Err(EndFault::TapeFull),
            Answer::OutOfMemory => Err(EndFault::OutOfMemory),
            _ => Ok(&[]),
        }
    }

    /// The session, to look at: whether it is closed and why, what is queued, and how many frames
    /// it made and handled.
    pub fn session(&self) -> &Session<T>
        ensures { result.now ≡ self.now.session }
    {
        &self.session
    }

    /// Each answer is the definitions' answer to the entries before it. It does nothing.
    pub fn legal(&self)
        ensures legal { Legal self.now.session.settings self.now.session.entries }
        ensures fair { Fair self.now.session.settings self.now.session.entries }
    {
        self.session.legal();
    }

    /// The tape, of an end that is done.
    pub fn into_tape(self) -> T
        ensures told { T.told result ≡ told_by self.session.tells self.session.entries }
    {
        self.session.into_tape()
    }
}
