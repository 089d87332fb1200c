//! Bytes that a link gave, on their way to the session.

ghost use Rattle.std.specs.Prelude.{◌≡◌, ◌<◌, ◌≤◌, ◌^◌, ◌++◌, ◌∷◌, ℕ, List, [], false, true, IfErr, IfOk, OnErr, OnOk};
ghost use Rattle.rs_chunk.specs.Stream.{IsCut, IsWhole, after_frame, first_frame};
ghost use Rattle.outside.specs.Links.{NoneFell};
ghost use Rattle.link_model.specs.Reading.{IsPart, IsWaiting};
ghost use Rattle.pump.specs.Moves.{CarriesBytes, HasGrown, IsCaused, IsCounted, IsNext, TakesMore, all_of};

use crate::numbers::PIECE;
use outside::{Link, Taken};
use rs_chunk::{Front, FrontView, Reader};
use rs_wire::OutOfMemory;
use session_model::LONG_FRAME;
use std::alloc::Global;
use std::marker::Model;
use tape::Event;

/// What taking from a link did.
#[derive(Clone, Copy, Debug, PartialEq, Eq)]
pub(crate) enum Took {
    /// Nothing was asked for, since a frame waits, or the link has failed.
    Nothing,
    /// So many bytes were taken, at least 1.
    Count(u32),
    /// Nothing came for now.
    Lull,
    /// The peer sends no more.
    End,
    /// The link failed.
    Failed,
    /// There was no memory for the bytes, which wait.
    OutOfMemory,
}

/// The bytes taken that were not passed: those that the reader has, and those that it had no memory
/// for.
#[derive(Drop)]
pub(crate) struct Incoming {
    reader: Reader,
    /// The bytes of the last take, in front of others.
    bytes: Vec<u8>,
    /// So many of them the reader does not have.
    waits: usize,
}

impl Model for Incoming {
    ghost use Rattle.std.specs.Prelude.{◌≡◌, ◌≤◌, ◌<◌, ◌^◌, length, take};
    ghost use Rattle.pump.specs.Moves.{Comes};
    ghost use Rattle.pump.specs.declared.numbers.TheConstants.{PIECE};

    ghost Value = { Comes };

    ghost view = { λ i. record {
      bytes = i.reader.bytes;
      waits = take i.waits i.bytes.items;
      max_in = i.reader.max_in;
    } };

    ghost invariant = { λ i. (i.waits ≤ length i.bytes.items)
        × (length i.bytes.items ≡ PIECE)
        × (i.reader.max_in < 2 ^ 24) };
}

impl Incoming {
    pub(crate) fn new(alloc: Global, reader: Reader) -> Result<Incoming, OutOfMemory>
        requires { reader.max_in < 2 ^ 24 }
        ensures { IfOk result (λ i. i ≡ record {
          bytes = reader.bytes;
          waits = [];
          max_in = reader.max_in;
        }) }
    {
        let bytes = vec![in alloc; 0u8; PIECE]?;
        Ok(Incoming {
            reader,
            bytes,
            waits: 0,
        })
    }

    /// Hands the reader what it does not have.
    pub(crate) fn feed(&mut self) -> Result<(), OutOfMemory>
        ensures all { all_of self.new ≡ all_of self.old }
        ensures fed { OnOk result (self.new.waits ≡ []) }
        ensures max_in { self.new.max_in ≡ self.old.max_in }
    {
        self.reader.feed(&self.bytes[..self.waits])?;
        self.waits = 0;
        Ok(())
    }

    /// Hands over bytes that were taken elsewhere. Where there is no memory for them, they are not.
    pub(crate) fn append(&mut self, piece: &[u8]) -> Result<(), OutOfMemory>
        ensures ok { OnOk result (all_of self.new ≡ all_of self.old ++ piece.now) }
        ensures err { OnErr result (all_of self.new ≡ all_of self.old) }
        ensures max_in { self.new.max_in ≡ self.old.max_in }
    {
        self.feed()?;
        self.reader.feed(piece)
    }

    /// Takes what comes from the link. The reader has all that was taken before.
    pub(crate) fn take<L: Link>(&mut self, link: &mut L) -> Result<Taken, OutOfMemory>
        requires fed { self.old.waits ≡ [] }
        ensures taken { TakesMore (L.shown link.old).taken (L.shown link.new).taken
            (all_of self.old) (all_of self.new) }
        ensures count { IfOk result
            (IsCounted (L.shown link.old).taken (L.shown link.new).taken) }
        ensures cause { IfOk result (IsCaused (L.shown link.old) (L.shown link.new)) }
        ensures given { (L.shown link.new).given ≡ (L.shown link.old).given }
        ensures stalls { (L.shown link.new).counts.stalls ≡ (L.shown link.old).counts.stalls }
        ensures counted { NoneFell (L.shown link.old).counts (L.shown link.new).counts }
        ensures max_in { self.new.max_in ≡ self.old.max_in }
    {
        let taken = link.take(&mut self.bytes);
        if let Taken::Took(n) = taken {
            self.waits = n;
            self.feed()?;
        }
        Ok(taken)
    }

    /// Takes what comes from the link, and drops it.
    pub(crate) fn skip<L: Link>(&mut self, link: &mut L) -> Taken
        ensures taken { HasGrown (L.shown link.old).taken (L.shown link.new).taken }
        ensures count { IsCounted (L.shown link.old).taken (L.shown link.new).taken result }
        ensures cause { IsCaused (L.shown link.old) (L.shown link.new) result }
        ensures given { (L.shown link.new).given ≡ (L.shown link.old).given }
        ensures stalls { (L.shown link.new).counts.stalls ≡ (L.shown link.old).counts.stalls }
        ensures counted { NoneFell (L.shown link.old).counts (L.shown link.new).counts }
        ensures rest { self.new ≡ record self.old { waits = [] } }
        ensures max_in { self.new.max_in ≡ self.old.max_in }
    {
        self.waits = 0;
        link.take(&mut self.bytes)
    }

    /// Whether a frame waits in front, or a length above the limit.
    pub(crate) fn has_next(&self) -> bool
        ensures some { result ≡ true → IsWaiting self.now.bytes self.now.max_in }
        ensures none { result ≡ false → IsPart self.now.bytes self.now.max_in }
    {
        !matches!(self.reader.front(), Front::Part)
    }

    /// What stands in front, as an event of connection `conn`. Only a frame that carries bytes needs
    /// memory.
    pub(crate) fn next(&self, alloc: Global, conn: u64) -> Result<Option<Event>, OutOfMemory>
        ensures next { IfOk result (IsNext conn self.now.bytes self.now.max_in) }
        ensures memory { IfErr result (λ _. CarriesBytes self.now.bytes self.now.max_in) }
    {
        match self.reader.front_view() {
            FrontView::Part => Ok(None),
            FrontView::TooLong(_) => Ok(Some(Event::Bad {
                conn,
                rule: LONG_FRAME,
            })),
            FrontView::Wrong(rule) => Ok(Some(Event::Bad { conn, rule })),
            FrontView::Frame(frame) => Ok(Some(Event::Came {
                conn,
                frame: frame.to_frame(alloc)?,
            })),
        }
    }

    /// Drops the frame in front.
    pub(crate) fn pass(&mut self)
        requires { IsWhole self.old.bytes self.old.max_in }
        ensures rest { self.new ≡ record self.old { bytes = after_frame self.old.bytes } }
        ensures fed { (fed : List ℕ) (passed : List (List ℕ)) →
            IsCut fed passed self.old.bytes →
            IsCut fed (passed ++ first_frame self.old.bytes ∷ []) self.new.bytes }
    {
        self.reader.pass();
    }
}
