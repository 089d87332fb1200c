//! What a row asks of a session.

use crate::bytes::number;
use crate::events::event;
use anyhow::Result;
use std::alloc::Global;
use tape::Event;

/// What a row asks of a session.
pub enum Row {
    /// It is to answer an event.
    Event(Event),
    /// `sent N`: it shows the next N bytes that it was drawn.
    Sent(usize),
    /// `reserve`: it makes spare for an entry.
    Reserve,
    /// `due`: it says the next moment at which a tick does something.
    Due,
}

impl Row {
    /// The row that the words say.
    pub fn read(alloc: Global, words: &[&str]) -> Result<Row> {
        match words {
            ["sent", count] => Ok(Row::Sent(number(count)? as usize)),
            ["reserve"] => Ok(Row::Reserve),
            ["due"] => Ok(Row::Due),
            _ => Ok(Row::Event(event(alloc, words)?)),
        }
    }

    /// Lets a row go that was answered. Where a row falls by itself is dear to prove.
    pub fn let_go(self) {
        match self {
            Row::Event(event) => drop(event),
            Row::Sent(_) | Row::Reserve | Row::Due => {}
        }
    }
}
