//! Lines of a text.

ghost use Rattle.std.specs.Prelude.{◌≡◌, ◌<◌, ◌==◌, ◌++◌, [], ◌∷◌, IfNone, IfSome, length, position};
ghost use Rattle.plain_text.specs.Lines.{HasNoFeed, ended, lines_of};

fn first_line_feed(text: &[u8]) -> Option<usize>
    ensures value { result ≡ position (λ b. b == 10) text.now }
    ensures within { IfSome result (λ i. i < length text.now) }
{
    text.iter().position(|b| *b == b'\n')
}

/// The first line, without its line feed, and what follows; nothing where there is no line feed.
pub fn cut_line(text: &[u8]) -> Option<(&[u8], &[u8])>
    ensures line { IfSome result (λ r. (text.now ≡ ended r.0.now ++ r.1.now) × HasNoFeed r.0.now) }
    ensures lines { IfSome result (λ r. lines_of text.now ≡ r.0.now ∷ lines_of r.1.now) }
    ensures last { IfNone result (HasNoFeed text.now) }
{
    match first_line_feed(text) {
        None => None,
        Some(i) => {
            let (line, rest) = text.split_at(i);
            Some((line, rest.split_at(1).1))
        }
    }
}

/// The first line, without its line feed, and what follows.
pub fn first_line(text: &[u8]) -> (&[u8], &[u8])
    requires { 0 < length text.now }
    ensures lines { lines_of text.now ≡ result.0.now ∷ lines_of result.1.now }
    ensures shorter { length result.1.now < length text.now }
{
    match cut_line(text) {
        None => text.split_at(text.len()),
        Some(cut) => cut,
    }
}
