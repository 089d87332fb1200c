//! Words taken from the left of a line, each at its place. What is left of a line is what stands
//! after the next space, or `None` at the end.

ghost use Rattle.std.specs.Prelude.{◌≡◌, ◌≤◌, ◌<◌, ◌^◌, ◌++◌, ◌∷◌, [], ◌==◌, nat_le, ◌&&◌, ◌||◌, IfOk, IfSome, IsTrue, Some, false, is_some, codes, decimal, length, not};
ghost use Rattle.std.specs.Option.{option_map};
ghost use Rattle.std.specs.Result.{result_map_both};
ghost use Rattle.rs_frame.specs.Table.{row_of};
ghost use Rattle.rs_frame.specs.declared.row.Row.TheVariants as rows;
ghost use Rattle.frame_text.specs.Fields.{IsOption};
ghost use Rattle.frame_text.specs.Reading.{asks_in, blob_at, end_at, flags_at, is_short, is_unnamed, next_at, decimal_at, option_at, short_at, short_option_at, token_at, unnamed_at, zero_at};
ghost use Rattle.frame_text.specs.Spelled.{after_word, bytes_of, channel_words, follows_words, is_blob, is_dash, option_of, payload_words, respond_words, setup_words};
ghost use Rattle.frame_text.specs.Words.{blob_word, letters_word, letter_if, option_word};

use crate::fault::Wrong;
use crate::spelled;
use plain_text::read_number;

// The next word.
fn take(place: u32, line: Option<&[u8]>) -> Result<(&[u8], Option<&[u8]>), Wrong>
    ensures told { result_map_both (λ x. (x.0.now, option_map (λ y. y.now) x.1)) (λ e. e) result ≡
        next_at place (option_map (λ y. y.now) line.entry) }
    ensures word { IfOk result (λ x. after_word (option_map (λ y. y.now) line.entry) ≡ (32 ∷
        x.0.now) ++ after_word (option_map (λ y. y.now) x.1)) }
{
    match line {
        None => Err(Wrong::Word(place)),
        Some(line) => Ok(spelled::next_word(line)),
    }
}

/// A number in a range.
#[tactic(auto, unfolding(crate::specs::Reading::decimal_at))]
pub fn number(
    place: u32,
    low: u64,
    high: u64,
    line: Option<&[u8]>,
) -> Result<(u64, Option<&[u8]>), Wrong>
    ensures told { result_map_both (λ x. option_map (λ y. y.now) x.1) (λ e. e) result ≡
        decimal_at place low high (option_map (λ y. y.now) line.entry) }
    ensures word { IfOk result (λ x. after_word (option_map (λ y. y.now) line.entry) ≡ (32 ∷
        decimal x.0) ++ after_word (option_map (λ y. y.now) x.1)) }
    ensures fits { IfOk result (λ x. (low ≤ x.0) × (x.0 ≤ high)) }
{
    let (word, rest) = take(place, line)?;
    match read_number(word, low, high) {
        Some(n) => Ok((n, rest)),
        None => Err(Wrong::Number(place)),
    }
}

/// A number in a range of 32 bits.
pub fn number_32(
    place: u32,
    low: u32,
    high: u32,
    line: Option<&[u8]>,
) -> Result<(u32, Option<&[u8]>), Wrong>
    ensures told { result_map_both (λ x. option_map (λ y. y.now) x.1) (λ e. e) result ≡
        decimal_at place low high (option_map (λ y. y.now) line.entry) }
    ensures word { IfOk result (λ x. after_word (option_map (λ y. y.now) line.entry) ≡ (32 ∷
        decimal x.0) ++ after_word (option_map (λ y. y.now) x.1)) }
    ensures fits { IfOk result (λ x. (low ≤ x.0) × (x.0 ≤ high)) }
{
    let (n, rest) = number(place, u64::from(low), u64::from(high), line)?;
    Ok((n as u32, rest))
}

/// A number of at most `high`, in 16 bits.
pub fn number_16(place: u32, high: u16, line: Option<&[u8]>) -> Result<(u16, Option<&[u8]>), Wrong>
    ensures told { result_map_both (λ x. option_map (λ y. y.now) x.1) (λ e. e) result ≡
        decimal_at place 0 high (option_map (λ y. y.now) line.entry) }
    ensures word { IfOk result (λ x. after_word (option_map (λ y. y.now) line.entry) ≡ (32 ∷
        decimal x.0) ++ after_word (option_map (λ y. y.now) x.1)) }
    ensures fits { IfOk result (λ x. x.0 ≤ high) }
{
    let (n, rest) = number(place, 0, u64::from(high), line)?;
    Ok((n as u16, rest))
}

/// The stream 0 of a connection's frame.
#[tactic(auto, unfolding(crate::specs::Reading::zero_at))]
pub fn no_stream(line: Option<&[u8]>) -> Result<Option<&[u8]>, Wrong>
    ensures told { result_map_both (λ x. option_map (λ y. y.now) x) (λ e. e) result ≡
        zero_at (option_map (λ y. y.now) line.entry) }
    ensures word { IfOk result (λ x. after_word (option_map (λ y. y.now) line.entry) ≡ (32 ∷
        codes "0") ++ after_word (option_map (λ y. y.now) x)) }
{
    let (word, rest) = take(1, line)?;
    if !spelled::is(word, "0") {
        return Err(Wrong::Number(1));
    }
    Ok(rest)
}

/// A type number below 64 that the standard does not name.
#[tactic(auto, unfolding(crate::specs::Reading::unnamed_at))]
pub fn unnamed(place: u32, line: Option<&[u8]>) -> Result<(u8, Option<&[u8]>), Wrong>
    ensures told { result_map_both (λ x. option_map (λ y. y.now) x.1) (λ e. e) result ≡
        unnamed_at place (option_map (λ y. y.now) line.entry) }
    ensures word { IfOk result (λ x. after_word (option_map (λ y. y.now) line.entry) ≡ (32 ∷
        decimal x.0) ++ after_word (option_map (λ y. y.now) x.1)) }
    ensures fits { IfOk result (λ x. (x.0 < 64) × (row_of x.0 ≡ rows.Unknown)) }
{
    let (word, rest) = take(place, line)?;
    match read_number(word, 0, 63) {
        Some(n) if is_unnamed(n) => Ok((n as u8, rest)),
        _ => Err(Wrong::Number(place)),
    }
}

// Whether the standard names no type of this number below 64.
fn is_unnamed(n: u64) -> bool
    requires { n < 64 }
    ensures value { result ≡ is_unnamed (Some n) }
    ensures row { IsTrue result → row_of n ≡ rows.Unknown }
{
    n == 0 || (15 <= n && n <= 62)
}

/// The flag R.
#[tactic(auto, unfolding(crate::specs::Reading::flags_at))]
pub fn respond(line: Option<&[u8]>) -> Result<(bool, Option<&[u8]>), Wrong>
    ensures told { result_map_both (λ x. option_map (λ y. y.now) x.1) (λ e. e) result ≡
        flags_at 2 respond_words (option_map (λ y. y.now) line.entry) }
    ensures word { IfOk result (λ x. after_word (option_map (λ y. y.now) line.entry) ≡ (32 ∷
        letters_word (letter_if x.0 (codes "R"))) ++ after_word (option_map (λ y. y.now) x.1)) }
{
    let (word, rest) = take(2, line)?;
    match spelled::respond(word) {
        Some(flags) => Ok((flags, rest)),
        None => Err(Wrong::Word(2)),
    }
}

/// The flag F.
#[tactic(auto, unfolding(crate::specs::Reading::flags_at))]
pub fn follows(line: Option<&[u8]>) -> Result<(bool, Option<&[u8]>), Wrong>
    ensures told { result_map_both (λ x. option_map (λ y. y.now) x.1) (λ e. e) result ≡
        flags_at 2 follows_words (option_map (λ y. y.now) line.entry) }
    ensures word { IfOk result (λ x. after_word (option_map (λ y. y.now) line.entry) ≡ (32 ∷
        letters_word (letter_if x.0 (codes "F") ++ letter_if false (codes "C"))) ++
        after_word (option_map (λ y. y.now) x.1)) }
{
    let (word, rest) = take(2, line)?;
    match spelled::follows(word) {
        Some(flags) => Ok((flags, rest)),
        None => Err(Wrong::Word(2)),
    }
}

/// The flags R and L.
#[tactic(auto, unfolding(crate::specs::Reading::flags_at, crate::specs::Reading::asks_in))]
pub fn resume_lease(line: Option<&[u8]>) -> Result<((bool, bool), Option<&[u8]>), Wrong>
    ensures told { result_map_both (λ x. option_map (λ y. y.now) x.1) (λ e. e) result ≡
        flags_at 2 setup_words (option_map (λ y. y.now) line.entry) }
    ensures word { IfOk result (λ x. after_word (option_map (λ y. y.now) line.entry) ≡ (32 ∷
        letters_word (letter_if x.0.0 (codes "R") ++ letter_if x.0.1 (codes "L"))) ++
        after_word (option_map (λ y. y.now) x.1)) }
    ensures asks { IfOk result (λ x. x.0.0 ≡ asks_in (option_map (λ y. y.now) line.entry)) }
{
    let (word, rest) = take(2, line)?;
    match spelled::resume_lease(word) {
        Some(flags) => Ok((flags, rest)),
        None => Err(Wrong::Word(2)),
    }
}

/// The flags F and C.
#[tactic(auto, unfolding(crate::specs::Reading::flags_at))]
pub fn follows_complete(line: Option<&[u8]>) -> Result<((bool, bool), Option<&[u8]>), Wrong>
    ensures told { result_map_both (λ x. option_map (λ y. y.now) x.1) (λ e. e) result ≡
        flags_at 2 channel_words (option_map (λ y. y.now) line.entry) }
    ensures word { IfOk result (λ x. after_word (option_map (λ y. y.now) line.entry) ≡ (32 ∷
        letters_word (letter_if x.0.0 (codes "F") ++ letter_if x.0.1 (codes "C"))) ++
        after_word (option_map (λ y. y.now) x.1)) }
{
    let (word, rest) = take(2, line)?;
    match spelled::follows_complete(word) {
        Some(flags) => Ok((flags, rest)),
        None => Err(Wrong::Word(2)),
    }
}

/// The flags F, C and N.
#[tactic(auto, unfolding(crate::specs::Reading::flags_at))]
pub fn follows_complete_next(
    line: Option<&[u8]>,
) -> Result<((bool, bool, bool), Option<&[u8]>), Wrong>
    ensures told { result_map_both (λ x. option_map (λ y. y.now) x.1) (λ e. e) result ≡
        flags_at 2 payload_words (option_map (λ y. y.now) line.entry) }
    ensures word { IfOk result (λ x. after_word (option_map (λ y. y.now) line.entry) ≡ (32 ∷
        letters_word (letter_if x.0.0 (codes "F") ++ (letter_if x.0.1 (codes "C") ++
        letter_if x.0.2 (codes "N")))) ++ after_word (option_map (λ y. y.now) x.1)) }
{
    let (word, rest) = take(2, line)?;
    match spelled::follows_complete_next(word) {
        Some(flags) => Ok((flags, rest)),
        None => Err(Wrong::Word(2)),
    }
}

/// The text of bytes.
#[tactic(auto, unfolding(crate::specs::Reading::blob_at))]
pub fn blob(place: u32, line: Option<&[u8]>) -> Result<(&[u8], Option<&[u8]>), Wrong>
    ensures told { result_map_both (λ x. option_map (λ y. y.now) x.1) (λ e. e) result ≡
        blob_at place (option_map (λ y. y.now) line.entry) }
    ensures word { IfOk result (λ x. after_word (option_map (λ y. y.now) line.entry) ≡ (32 ∷
        blob_word (bytes_of x.0.now)) ++ after_word (option_map (λ y. y.now) x.1)) }
    ensures fits { IfOk result (λ x. IsTrue (is_blob x.0.now)) }
{
    let (word, rest) = take(place, line)?;
    if !spelled::is_blob_word(word) {
        return Err(Wrong::Hex(place));
    }
    Ok((word, rest))
}

// Whether the word is the text of at most `most` bytes.
fn is_short(word: &[u8], most: u64) -> bool
    ensures value { result ≡ is_short most word.now }
    ensures spelled { IsTrue result → word.now ≡ blob_word (bytes_of word.now) }
    ensures blob { IsTrue result → IsTrue (is_blob word.now) × (length (bytes_of word.now) ≤ most) }
{
    spelled::is_blob_word(word) && spelled::size(word) <= most
}

/// The text of at most `most` bytes.
#[tactic(auto, unfolding(crate::specs::Reading::short_at))]
pub fn short(place: u32, most: u64, line: Option<&[u8]>) -> Result<(&[u8], Option<&[u8]>), Wrong>
    ensures told { result_map_both (λ x. option_map (λ y. y.now) x.1) (λ e. e) result ≡
        short_at place most (option_map (λ y. y.now) line.entry) }
    ensures word { IfOk result (λ x. after_word (option_map (λ y. y.now) line.entry) ≡ (32 ∷
        blob_word (bytes_of x.0.now)) ++ after_word (option_map (λ y. y.now) x.1)) }
    ensures fits { IfOk result (λ x. IsTrue (is_blob x.0.now) ×
        (length (bytes_of x.0.now) ≤ most)) }
{
    let (word, rest) = take(place, line)?;
    if !is_short(word, most) {
        return Err(Wrong::Hex(place));
    }
    Ok((word, rest))
}

/// The text of bytes that may be absent.
#[tactic(auto, unfolding(crate::specs::Reading::option_at))]
pub fn option(place: u32, line: Option<&[u8]>) -> Result<(&[u8], Option<&[u8]>), Wrong>
    ensures told { result_map_both (λ x. option_map (λ y. y.now) x.1) (λ e. e) result ≡
        option_at place (option_map (λ y. y.now) line.entry) }
    ensures word { IfOk result (λ x. after_word (option_map (λ y. y.now) line.entry) ≡ (32 ∷
        option_word (option_of x.0.now)) ++ after_word (option_map (λ y. y.now) x.1)) }
    ensures fits { IfOk result (λ x. IsOption x.0.now) }
{
    let (word, rest) = take(place, line)?;
    if !spelled::is_dash(word) && !spelled::is_blob_word(word) {
        return Err(Wrong::Hex(place));
    }
    Ok((word, rest))
}

/// The text of at most `most` bytes, which may be absent.
#[tactic(auto, unfolding(crate::specs::Reading::short_option_at))]
pub fn short_option(
    place: u32,
    most: u64,
    line: Option<&[u8]>,
) -> Result<(&[u8], Option<&[u8]>), Wrong>
    ensures told { result_map_both (λ x. option_map (λ y. y.now) x.1) (λ e. e) result ≡
        short_option_at place most (option_map (λ y. y.now) line.entry) }
    ensures word { IfOk result (λ x. after_word (option_map (λ y. y.now) line.entry) ≡ (32 ∷
        option_word (option_of x.0.now)) ++ after_word (option_map (λ y. y.now) x.1)) }
    ensures fits { IfOk result (λ x. IsOption x.0.now ×
        IfSome (option_of x.0.now) (λ bytes. length bytes ≤ most)) }
{
    let (word, rest) = take(place, line)?;
    if !spelled::is_dash(word) && !is_short(word, most) {
        return Err(Wrong::Hex(place));
    }
    Ok((word, rest))
}

/// The token of a SETUP: a dash exactly where resumption is not asked for.
#[tactic(auto, unfolding(crate::specs::Reading::token_at))]
pub fn token(place: u32, asked: bool, line: Option<&[u8]>) -> Result<(&[u8], Option<&[u8]>), Wrong>
    ensures told { result_map_both (λ x. option_map (λ y. y.now) x.1) (λ e. e) result ≡
        token_at place asked (option_map (λ y. y.now) line.entry) }
    ensures word { IfOk result (λ x. after_word (option_map (λ y. y.now) line.entry) ≡ (32 ∷
        option_word (option_of x.0.now)) ++ after_word (option_map (λ y. y.now) x.1)) }
    ensures fits { IfOk result (λ x. IsOption x.0.now ×
        IfSome (option_of x.0.now) (λ bytes. length bytes ≤ 65535) ×
        (is_some (option_of x.0.now) ≡ asked)) }
{
    let (word, rest) = take(place, line)?;
    let is_absent = spelled::is_dash(word);
    if !is_absent && !is_short(word, 65_535) {
        return Err(Wrong::Hex(place));
    }
    if is_absent == asked {
        return Err(Wrong::Word(place));
    }
    Ok((word, rest))
}

/// The end of the line.
#[tactic(auto, unfolding(crate::specs::Reading::end_at))]
pub fn end(place: u32, line: Option<&[u8]>) -> Result<(), Wrong>
    ensures told { result ≡ end_at place (option_map (λ y. y.now) line.entry) }
    ensures nothing { IfOk result (λ x. after_word (option_map (λ y. y.now) line.entry) ≡ []) }
{
    match line {
        None => Ok(()),
        Some(_) => Err(Wrong::Word(place)),
    }
}
