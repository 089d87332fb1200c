//! Words and lines of plain text, written and read back exactly.
//!
//! A number is decimal, without a sign or a leading zero. Bytes are lower-case hex digits, two a
//! byte, or a mark of one character for no bytes, which each format chooses. A line ends at a line
//! feed, which may be missing after the last line of a text.
//!
//! The promise to the crates above: what is written has one reading and what is read has one
//! writing, so a word that reads as a number or as bytes is the word that is written for it. Where
//! memory runs out while a word is written, a part of it may stand in the buffer.
#![tactic(auto)]

mod decimal;
mod hexadecimal;
mod lines;
mod writing;

pub use decimal::read_number;
pub use hexadecimal::{hex_size, is_hex_word, is_mark, read_hex};
pub use lines::{cut_line, first_line};
pub use writing::{write_hex, write_number, write_number_word, write_text, write_word};
