//! Writing words.

ghost use Rattle.std.specs.Prelude.{◌≡◌, ◌++◌, ◌∷◌, OnOk, decimal};
ghost use Rattle.plain_text.specs.Words.{hex_word};

use itoa::Buffer;
use rs_wire::OutOfMemory;

/// Appends a text.
pub fn write_text(out: &mut Vec<u8>, text: &str) -> Result<(), OutOfMemory>
    ensures { OnOk result (out.new.items ≡ out.old.items ++ text.now) }
{
    out.extend_from_slice(text.as_bytes())?;
    Ok(())
}

/// Appends a space and a text.
pub fn write_word(out: &mut Vec<u8>, text: &str) -> Result<(), OutOfMemory>
    ensures { OnOk result (out.new.items ≡ out.old.items ++ (32 ∷ text.now)) }
{
    out.push(b' ')?;
    write_text(out, text)
}

/// Appends a number.
pub fn write_number(out: &mut Vec<u8>, n: u64) -> Result<(), OutOfMemory>
    ensures { OnOk result (out.new.items ≡ out.old.items ++ decimal n) }
{
    let mut buffer = Buffer::new();
    write_text(out, buffer.format(n))
}

/// Appends a space and a number.
pub fn write_number_word(out: &mut Vec<u8>, n: u64) -> Result<(), OutOfMemory>
    ensures { OnOk result (out.new.items ≡ out.old.items ++ (32 ∷ decimal n)) }
{
    out.push(b' ')?;
    write_number(out, n)
}

/// Appends bytes as hex digits, or the mark where there are none.
pub fn write_hex(out: &mut Vec<u8>, bytes: &[u8], mark: u8) -> Result<(), OutOfMemory>
    ensures { OnOk result (out.new.items ≡ out.old.items ++ hex_word mark bytes.now) }
{
    if bytes.is_empty() {
        out.push(mark)?;
        return Ok(());
    }
    let text = hex::encode(*out.allocator(), bytes)?;
    write_text(out, text.as_str())
}
