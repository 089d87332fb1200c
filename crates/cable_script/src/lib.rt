//! The script of the cable: what happens to the two ends of a session, line by line.
//!
//! A script is a text of lines: first those that change settings of the ends, and then those that
//! do something: a call at an end, a carrying of bytes from one end to the other, the end of a
//! connection and the opening of the next, or a moment. The promise to the crates above: [`Script::read`] takes
//! exactly the texts in the grammar, a line of which has exactly one text, and else names the first
//! line that is wrong.
#![tactic(auto)]

mod laws;
mod line;
mod script;
mod setting;
mod setting_words;
mod spoken;
mod words;

/// The most bytes of a script: 16 MiB.
pub const MOST_SCRIPT: usize = 16_777_216;

/// The most bytes of an item of a line `many`: no settings let a message carry more.
pub const MOST_ITEM: u32 = 16_000_000;

/// The most characters of the token of a line `resume`: 64 hex digits spell 256 bits, enough to tell
/// any two sessions apart. A RESUME has room for 65,535.
pub const MOST_TOKEN: usize = 64;

/// The last moment of a line `tick`, in milliseconds: 2^62. A session takes every moment after it as
/// this one.
pub const LAST_TICK: u64 = 4_611_686_018_427_387_904;

/// The byte of which the items of a line `many` are made: `Z`.
pub const ITEM_BYTE: u8 = 0x5a;

pub use laws::{line_laws, script_laws};
pub use line::Line;
pub use script::{Script, ScriptFault};
pub use setting::{Setting, SettingLine};
pub use spoken::{kind_word, next_word, side_word};
