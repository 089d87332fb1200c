//! The text of a large run.

ghost use Rattle.std.specs.Prelude.{◌≡◌, ◌++◌, ℕ, List, OnOk};
ghost use Rattle.plain_text.specs.Lines.{HasNoFeed, ended};
ghost use Rattle.rsocket_load.specs.Load.{summary};

use load_script::CUTS;
use plain_text::{cut_line, write_number, write_text};
use rs_wire::OutOfMemory;

/// The first two lines of a text, each with its line feed.
pub fn two_lines(text: &[u8]) -> &[u8]
    ensures { (one two rest : List ℕ) → HasNoFeed one → HasNoFeed two →
        text.now ≡ ended one ++ (ended two ++ rest) → result.now ≡ ended one ++ ended two }
{
    let Some((_, rest)) = cut_line(text) else {
        return text;
    };
    let Some((_, rest)) = cut_line(rest) else {
        return text;
    };
    text.split_at(text.len() - rest.len()).0
}

/// Appends the last line.
pub fn put_summary(out: &mut Vec<u8>, seed: u32) -> Result<(), OutOfMemory>
    ensures { OnOk result (out.new.items ≡ out.old.items ++ summary seed) }
{
    write_text(out, "load ")?;
    write_number(out, u64::from(seed))?;
    write_text(out, " cuts ")?;
    write_number(out, u64::from(CUTS))?;
    write_text(out, "\n")
}
