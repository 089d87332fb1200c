//! Reading numbers.

ghost use Rattle.std.specs.Prelude.{◌≡◌, ◌≤◌, ◌<◌, ◌^◌, ℕ, IfNone, IfSome, decimal};
ghost use Rattle.plain_text.specs.Words.{number_in};

use itoa::Buffer;

// The number that the word is the decimal text of, where it is at most `most`. A word is right
// where the number that it is parsed as is written as this word.
fn number_up_to(word: &[u8], most: u64) -> Option<u64>
    ensures found { IfSome result (λ n. (word.now ≡ decimal n) × (n ≤ most)) }
    ensures none { IfNone result ((n : ℕ) → n ≤ most → n < 2 ^ 64 → ¬ (word.now ≡ decimal n)) }
{
    let Ok(text) = std::str::from_utf8(word) else {
        return None;
    };
    let Ok(n) = text.parse::<u64>() else {
        return None;
    };
    if n > most {
        return None;
    }
    let mut buffer = Buffer::new();
    if buffer.format(n).as_bytes() == word {
        return Some(n);
    }
    None
}

/// The number that the word is the decimal text of, where it is in the range.
pub fn read_number(word: &[u8], low: u64, high: u64) -> Option<u64>
    ensures value { result ≡ number_in low high word.now }
    ensures some { IfSome result (λ n. (word.now ≡ decimal n) × (low ≤ n) × (n ≤ high)) }
    ensures none { IfNone result ((n : ℕ) → low ≤ n → n ≤ high → ¬ (word.now ≡ decimal n)) }
{
    match number_up_to(word, high) {
        Some(n) if low <= n => Some(n),
        _ => None,
    }
}
