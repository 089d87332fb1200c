//! Words as text.

ghost use Rattle.std.specs.Prelude.{◌≡◌, IfOk, OnOk, Err, map};
ghost use Rattle.std.specs.List.{All};
ghost use Rattle.std.specs.Str.{IsUtf8};

use crate::fault::WordsFault;
use rs_wire::Blob;
use std::alloc::Global;

/// The words as text, which lives as long as they do. `Usage` where one is not UTF-8.
pub fn texts<'a>(alloc: Global, words: &'a [Blob]) -> Result<Vec<&'a str>, WordsFault>
    ensures same { IfOk result (λ texts. map (λ t. t.now) texts.items ≡ words.now) }
    ensures text { OnOk result (All IsUtf8 words.now) }
    ensures usage { result ≡ Err WordsFault.Usage → ¬ (All IsUtf8 words.now) }
{
    let mut texts = Vec::new(alloc);
    for word in words {
        match std::str::from_utf8(word.as_slice()) {
            Ok(text) => texts.push(text)?,
            Err(_) => return Err(WordsFault::Usage),
        }
    }
    Ok(texts)
}
