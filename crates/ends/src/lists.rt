//! A row in words, brought to the list that is being played.

use crate::ends::Ends;
use crate::row::Row;
use anyhow::Result;
use rs_wire::Side;
use std::alloc::Global;

// Brings a row to the sessions of the list that is being played.
fn bring(alloc: Global, ends: &mut Ends, row: &str, out: &mut String) -> Result<()> {
    let words: Vec<&str> = row.split_whitespace().collect(alloc)?;
    let row = Row::read(alloc, &words)?;
    let answered = ends.answer(alloc, &row, out);
    row.let_go();
    answered
}

/// Does what a row says, and appends what was answered. `client` and `server`, with setting lines
/// after them, begin a list and answer nothing; `end` ends it.
pub fn answer_words(alloc: Global, ends: &mut Ends, row: &str, out: &mut String) -> Result<()> {
    match row.split_once(' ').unwrap_or((row, "")) {
        ("client", lines) => ends.begin(alloc, Side::Client, lines),
        ("server", lines) => ends.begin(alloc, Side::Server, lines),
        ("end", "") => ends.end(alloc, out),
        _ => bring(alloc, ends, row, out),
    }
}
