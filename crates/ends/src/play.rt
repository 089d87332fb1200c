//! A file of rows is played.

use crate::ends::Ends;
use crate::lists::answer_words;
use anyhow::Result;
use std::alloc::Global;
use std::fmt::Write;
use std::io;
use std::io::Print;

/// How many rows that differ are shown of a file.
const SHOWN: u64 = 10;

/// How many rows a file has, and how many of them differ.
#[derive(Clone, Copy)]
struct Counts {
    lists: u64,
    rows: u64,
    wrong: u64,
}

// What a row asks, and the answer that it is to have; none where it begins a list.
fn parts(line: &str) -> (&str, Option<&str>) {
    match line.split_once(" : ") {
        Some((row, answer)) => (row, Some(answer)),
        None => (line, None),
    }
}

// What is answered to a row.
fn given(alloc: Global, ends: &mut Ends, row: &str) -> Result<String> {
    let mut out = String::new(alloc);
    if let Err(error) = answer_words(alloc, ends, row, &mut out) {
        write!(out, "{error}")?;
    }
    Ok(out)
}

// Counts a row that differs. Shows it, where not too many did.
fn show(
    rt: &impl Print,
    place: (&str, usize),
    line: &str,
    given: &str,
    counts: &mut Counts,
) -> io::Result<()> {
    let wrong = counts.wrong;
    counts.wrong = wrong.saturating_add(1);
    if wrong >= SHOWN {
        return Ok(());
    }
    let (file, number) = place;
    println!(rt; "{file}.rows:{number}: {line}\n  gave {given}")
}

// Plays a line that is a row.
fn play_row(
    rt: &impl Print,
    alloc: Global,
    place: (&str, usize),
    line: &str,
    counts: &mut Counts,
    ends: &mut Ends,
) -> Result<()> {
    let (row, wanted) = parts(line);
    match wanted {
        Some(_) => counts.rows = counts.rows.saturating_add(1),
        None => counts.lists = counts.lists.saturating_add(1),
    }
    let given = given(alloc, ends, row)?;
    if given.as_str() != wanted.unwrap_or("") {
        show(rt, place, line, &given, counts)?;
    }
    Ok(())
}

// Whether a line is a row.
fn is_row(line: &str) -> bool {
    !line.is_empty() && !line.starts_with('#')
}

// Plays the rows of a file by these sessions.
fn play_rows(
    rt: &impl Print,
    alloc: Global,
    file: &str,
    text: &str,
    ends: &mut Ends,
) -> Result<Counts> {
    let mut counts = Counts {
        lists: 0,
        rows: 0,
        wrong: 0,
    };
    for (index, line) in text.lines().enumerate() {
        if is_row(line) {
            let place = (file, index.saturating_add(1));
            play_row(rt, alloc, place, line, &mut counts, ends)?;
        }
    }
    Ok(counts)
}

// Says how many lists and rows a file has. Answers whether none differs and the last list ended.
fn tell(rt: &impl Print, file: &str, counts: Counts, is_in_list: bool) -> Result<bool> {
    let Counts { lists, rows, wrong } = counts;
    println!(rt; "{file}: {lists} lists, {rows} rows, {wrong} differ")?;
    if is_in_list {
        println!(rt; "{file}: the last list has no end")?;
    }
    Ok(wrong == 0 && !is_in_list)
}

/// Plays the rows of a file, shows the first that differ, and says how many lists and rows there are.
/// Answers whether none differs and the last list ended.
pub fn play(rt: &impl Print, alloc: Global, file: &str, text: &str) -> Result<bool> {
    let mut ends = Ends::new();
    let counts = play_rows(rt, alloc, file, text, &mut ends);
    let is_in_list = ends.is_in_list();
    ends.close();
    tell(rt, file, counts?, is_in_list)
}
