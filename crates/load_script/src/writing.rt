//! The lines of the script, as text.

ghost use Rattle.std.specs.Prelude.{◌≡◌, ◌<◌, ◌++◌, [], ◌∷◌, OnOk, decimal, map};
ghost use Rattle.plain_text.specs.Lines.{ended};
ghost use Rattle.cable_script.specs.Setting.{setting_text};
ghost use Rattle.load_script.specs.Generated.{carried, cut_lines, ends_block, first_items, first_lines, generated, item_line, item_lines, last_lines, load_settings, item_size};
ghost use Rattle.load_script.specs.Texts.{ended_all, text_of_lines, text_of_script};

use crate::{BLOCK, ITEMS};
use plain_text::{write_number, write_text};
use rs_wire::OutOfMemory;

// The lines before the items: one setting, then the requests and what the server grants.
const FIRST: &str = "resume load
client stream 1000000 -
client channel 1000000 -
drain
server grant 3 1000000
drain
";

// The lines after the items.
const LAST: &str = "drain
server done 1
client done 3
server done 3
drain
";

// How many bytes item `i` has.
fn item_size(seed: u32, i: u32) -> u64
    ensures { result ≡ item_size seed i }
{
    (u64::from(seed) + u64::from(i)) % 64
}

// How many bytes are carried each way at the end of block `k`.
fn carried(seed: u32, k: u32) -> u64
    ensures { result ≡ carried seed k }
{
    1 + (u64::from(seed) + 4099 * u64::from(k)) % 65_536
}

// Whether a block ends with item `i`, and more items follow.
fn ends_block(i: u32) -> bool
    requires { i < ITEMS }
    ensures { result ≡ ends_block i }
{
    (i + 1) % BLOCK == 0 && i + 1 < ITEMS
}

// Appends a line of these words and a number.
fn put_line(out: &mut Vec<u8>, words: &str, number: u64) -> Result<(), OutOfMemory>
    ensures { OnOk result (out.new.items ≡ out.old.items ++ ended (words.now ++ decimal number)) }
{
    write_text(out, words)?;
    write_number(out, number)?;
    write_text(out, "\n")
}

// Appends the line of item `i`.
fn put_item_line(out: &mut Vec<u8>, seed: u32, i: u32) -> Result<(), OutOfMemory>
    ensures { OnOk result (out.new.items ≡
        out.old.items ++ text_of_lines (item_line seed i ∷ [])) }
{
    if i % 2 == 0 {
        put_line(out, "server many 1 1 ", item_size(seed, i))
    } else {
        put_line(out, "client many 3 1 ", item_size(seed, i))
    }
}

// Appends the cut after block `k`.
fn put_cut(out: &mut Vec<u8>, seed: u32, k: u32) -> Result<(), OutOfMemory>
    ensures { OnOk result (out.new.items ≡ out.old.items ++ text_of_lines (cut_lines seed k)) }
{
    put_line(out, "up ", carried(seed, k))?;
    put_line(out, "down ", carried(seed, k))?;
    write_text(out, "cut\nopen\ndrain\n")
}

// Appends item `i`, and a cut where a block ends with it.
fn put_item(out: &mut Vec<u8>, seed: u32, i: u32) -> Result<(), OutOfMemory>
    requires { i < ITEMS }
    ensures { OnOk result (out.new.items ≡ out.old.items ++ text_of_lines (item_lines seed i)) }
{
    put_item_line(out, seed, i)?;
    if ends_block(i) {
        return put_cut(out, seed, (i + 1) / BLOCK);
    }
    Ok(())
}

// Appends the items.
fn put_items(out: &mut Vec<u8>, seed: u32) -> Result<(), OutOfMemory>
    ensures { OnOk result (out.new.items ≡
        out.old.items ++ text_of_lines (first_items seed ITEMS)) }
{
    for i in 0..ITEMS {
        put_item(out, seed, i)?;
    }
    Ok(())
}

// Appends the lines before the items.
fn put_first(out: &mut Vec<u8>) -> Result<(), OutOfMemory>
    ensures { OnOk result (out.new.items ≡
        out.old.items ++
        (ended_all (map setting_text load_settings) ++ text_of_lines first_lines)) }
{
    write_text(out, FIRST)
}

// Appends the lines after the items.
fn put_last(out: &mut Vec<u8>) -> Result<(), OutOfMemory>
    ensures { OnOk result (out.new.items ≡ out.old.items ++ text_of_lines last_lines) }
{
    write_text(out, LAST)
}

/// Appends the text of the script of this seed.
pub fn put_script(out: &mut Vec<u8>, seed: u32) -> Result<(), OutOfMemory>
    ensures { OnOk result (out.new.items ≡ out.old.items ++ text_of_script (generated seed)) }
{
    put_first(out)?;
    put_items(out, seed)?;
    put_last(out)
}
