//! The lines of the frames of streams, of extensions, and of types that the standard does not name.

ghost use Rattle.std.specs.Prelude.{◌≡◌, ◌<◌, ◌++◌, ◌∷◌, IfOk, codes};
ghost use Rattle.std.specs.Option.{option_map};
ghost use Rattle.std.specs.Result.{result_map_both};
ghost use Rattle.rs_frame.specs.Spelling.{FieldsFit, MessageFits};
ghost use Rattle.frame_text.specs.Fields.{AreBlobs, IsMessage, frame_of, message_from};
ghost use Rattle.frame_text.specs.Lines.{line_of};
ghost use Rattle.frame_text.specs.Reading.{cancel_row, counted_row, error_row, ext_row, message_at, payload_row, plain_row, request_n_row, unknown_row};
ghost use Rattle.frame_text.specs.Spelled.{after_word, bytes_of, channel_words, follows_words, option_of};
ghost use Rattle.frame_text.specs.Words.{blob_word, option_word};

use crate::fault::Wrong;
use crate::fields::{Fields, MessageWords, RequestWords};
use crate::taken;
use rs_wire::{Amount, Kind};

/// The words of a message, of which the first is at this place.
#[tactic(auto, unfolding(crate::specs::Reading::message_at))]
pub fn message(place: u32, line: Option<&[u8]>) -> Result<(MessageWords<'_>, Option<&[u8]>), Wrong>
    requires { place < 100 }
    ensures told { result_map_both (λ x. option_map (λ y. y.now) x.1) (λ e. e) result ≡
        message_at place (option_map (λ y. y.now) line.entry) }
    ensures words { IfOk result (λ x. after_word (option_map (λ y. y.now) line.entry) ≡ (32 ∷
        option_word (option_of x.0.metadata.now)) ++ ((32 ∷
        blob_word (bytes_of x.0.content.now)) ++ after_word (option_map (λ y. y.now) x.1))) }
    ensures fits { IfOk result (λ x. MessageFits (message_from x.0) × IsMessage x.0) }
{
    let (metadata, line) = taken::short_option(place, 16_777_215, line)?;
    let (content, line) = taken::blob(place + 1, line)?;
    Ok((MessageWords { metadata, content }, line))
}

/// The fields of a REQUEST_N line.
pub fn request_n(line: Option<&[u8]>) -> Result<Fields<'_>, Wrong>
    ensures told { result_map_both (λ w. tt) (λ e. e) result ≡
        request_n_row (option_map (λ y. y.now) line.entry) }
    ensures line { IfOk result (λ w. codes "REQUEST_N" ++
        after_word (option_map (λ y. y.now) line.entry) ≡ line_of (frame_of w)) }
    ensures fits { IfOk result (λ w. FieldsFit (frame_of w) × AreBlobs w) }
{
    let (stream, line) = taken::number_32(1, 1, 2_147_483_647, line)?;
    let (n, line) = taken::number_32(2, 1, 2_147_483_647, line)?;
    taken::end(3, line)?;
    let Some(n) = Amount::of(n) else {
        return Err(Wrong::Number(2));
    };
    Ok(Fields::RequestN { stream, n })
}

/// The fields of a CANCEL line.
pub fn cancel(line: Option<&[u8]>) -> Result<Fields<'_>, Wrong>
    ensures told { result_map_both (λ w. tt) (λ e. e) result ≡
        cancel_row (option_map (λ y. y.now) line.entry) }
    ensures line { IfOk result (λ w. codes "CANCEL" ++
        after_word (option_map (λ y. y.now) line.entry) ≡ line_of (frame_of w)) }
    ensures fits { IfOk result (λ w. FieldsFit (frame_of w) × AreBlobs w) }
{
    let (stream, line) = taken::number_32(1, 1, 2_147_483_647, line)?;
    taken::end(2, line)?;
    Ok(Fields::Cancel { stream })
}

/// The fields of an ERROR line.
pub fn error(line: Option<&[u8]>) -> Result<Fields<'_>, Wrong>
    ensures told { result_map_both (λ w. tt) (λ e. e) result ≡
        error_row (option_map (λ y. y.now) line.entry) }
    ensures line { IfOk result (λ w. codes "ERROR" ++
        after_word (option_map (λ y. y.now) line.entry) ≡ line_of (frame_of w)) }
    ensures fits { IfOk result (λ w. FieldsFit (frame_of w) × AreBlobs w) }
{
    let (stream, line) = taken::number_32(1, 0, 2_147_483_647, line)?;
    let (code, line) = taken::number_32(2, 0, 4_294_967_295, line)?;
    let (content, line) = taken::blob(3, line)?;
    taken::end(4, line)?;
    Ok(Fields::Error {
        stream,
        code,
        content,
    })
}

/// The fields of a PAYLOAD line.
pub fn payload(line: Option<&[u8]>) -> Result<Fields<'_>, Wrong>
    ensures told { result_map_both (λ w. tt) (λ e. e) result ≡
        payload_row (option_map (λ y. y.now) line.entry) }
    ensures line { IfOk result (λ w. codes "PAYLOAD" ++
        after_word (option_map (λ y. y.now) line.entry) ≡ line_of (frame_of w)) }
    ensures fits { IfOk result (λ w. FieldsFit (frame_of w) × AreBlobs w) }
{
    let (stream, line) = taken::number_32(1, 1, 2_147_483_647, line)?;
    let ((follows, complete, next), line) = taken::follows_complete_next(line)?;
    let (message, line) = message(3, line)?;
    taken::end(5, line)?;
    Ok(Fields::Payload {
        stream,
        follows,
        complete,
        next,
        message,
    })
}

/// The fields of a REQUEST_RESPONSE line.
pub fn response(line: Option<&[u8]>) -> Result<Fields<'_>, Wrong>
    ensures told { result_map_both (λ w. tt) (λ e. e) result ≡
        plain_row (option_map (λ y. y.now) line.entry) }
    ensures line { IfOk result (λ w. codes "REQUEST_RESPONSE" ++
        after_word (option_map (λ y. y.now) line.entry) ≡ line_of (frame_of w)) }
    ensures fits { IfOk result (λ w. FieldsFit (frame_of w) × AreBlobs w) }
{
    let (stream, line) = taken::number_32(1, 1, 2_147_483_647, line)?;
    let (follows, line) = taken::follows(line)?;
    let (message, line) = message(3, line)?;
    taken::end(5, line)?;
    Ok(Fields::Request(RequestWords {
        stream,
        kind: Kind::Response,
        follows,
        complete: false,
        initial: None,
        message,
    }))
}

/// The fields of a REQUEST_FNF line.
pub fn fnf(line: Option<&[u8]>) -> Result<Fields<'_>, Wrong>
    ensures told { result_map_both (λ w. tt) (λ e. e) result ≡
        plain_row (option_map (λ y. y.now) line.entry) }
    ensures line { IfOk result (λ w. codes "REQUEST_FNF" ++
        after_word (option_map (λ y. y.now) line.entry) ≡ line_of (frame_of w)) }
    ensures fits { IfOk result (λ w. FieldsFit (frame_of w) × AreBlobs w) }
{
    let (stream, line) = taken::number_32(1, 1, 2_147_483_647, line)?;
    let (follows, line) = taken::follows(line)?;
    let (message, line) = message(3, line)?;
    taken::end(5, line)?;
    Ok(Fields::Request(RequestWords {
        stream,
        kind: Kind::Fnf,
        follows,
        complete: false,
        initial: None,
        message,
    }))
}

/// The fields of a REQUEST_STREAM line.
pub fn stream(line: Option<&[u8]>) -> Result<Fields<'_>, Wrong>
    ensures told { result_map_both (λ w. tt) (λ e. e) result ≡
        counted_row follows_words (option_map (λ y. y.now) line.entry) }
    ensures line { IfOk result (λ w. codes "REQUEST_STREAM" ++
        after_word (option_map (λ y. y.now) line.entry) ≡ line_of (frame_of w)) }
    ensures fits { IfOk result (λ w. FieldsFit (frame_of w) × AreBlobs w) }
{
    let (stream, line) = taken::number_32(1, 1, 2_147_483_647, line)?;
    let (follows, line) = taken::follows(line)?;
    let (n, line) = taken::number_32(3, 1, 2_147_483_647, line)?;
    let (message, line) = message(4, line)?;
    taken::end(6, line)?;
    let Some(n) = Amount::of(n) else {
        return Err(Wrong::Number(3));
    };
    Ok(Fields::Request(RequestWords {
        stream,
        kind: Kind::Stream,
        follows,
        complete: false,
        initial: Some(n),
        message,
    }))
}

/// The fields of a REQUEST_CHANNEL line.
pub fn channel(line: Option<&[u8]>) -> Result<Fields<'_>, Wrong>
    ensures told { result_map_both (λ w. tt) (λ e. e) result ≡
        counted_row channel_words (option_map (λ y. y.now) line.entry) }
    ensures line { IfOk result (λ w. codes "REQUEST_CHANNEL" ++
        after_word (option_map (λ y. y.now) line.entry) ≡ line_of (frame_of w)) }
    ensures fits { IfOk result (λ w. FieldsFit (frame_of w) × AreBlobs w) }
{
    let (stream, line) = taken::number_32(1, 1, 2_147_483_647, line)?;
    let ((follows, complete), line) = taken::follows_complete(line)?;
    let (n, line) = taken::number_32(3, 1, 2_147_483_647, line)?;
    let (message, line) = message(4, line)?;
    taken::end(6, line)?;
    let Some(n) = Amount::of(n) else {
        return Err(Wrong::Number(3));
    };
    Ok(Fields::Request(RequestWords {
        stream,
        kind: Kind::Channel,
        follows,
        complete,
        initial: Some(n),
        message,
    }))
}

/// The fields of an EXT line.
pub fn ext(line: Option<&[u8]>) -> Result<Fields<'_>, Wrong>
    ensures told { result_map_both (λ w. tt) (λ e. e) result ≡
        ext_row (option_map (λ y. y.now) line.entry) }
    ensures line { IfOk result (λ w. codes "EXT" ++
        after_word (option_map (λ y. y.now) line.entry) ≡ line_of (frame_of w)) }
    ensures fits { IfOk result (λ w. FieldsFit (frame_of w) × AreBlobs w) }
{
    let (stream, line) = taken::number_32(1, 0, 2_147_483_647, line)?;
    let (flags, line) = taken::number_16(2, 1023, line)?;
    let (extended, line) = taken::number_32(3, 0, 2_147_483_647, line)?;
    let (rest, line) = taken::blob(4, line)?;
    taken::end(5, line)?;
    Ok(Fields::Ext {
        stream,
        flags,
        extended,
        rest,
    })
}

/// The fields of an UNKNOWN line.
pub fn unknown(line: Option<&[u8]>) -> Result<Fields<'_>, Wrong>
    ensures told { result_map_both (λ w. tt) (λ e. e) result ≡
        unknown_row (option_map (λ y. y.now) line.entry) }
    ensures line { IfOk result (λ w. codes "UNKNOWN" ++
        after_word (option_map (λ y. y.now) line.entry) ≡ line_of (frame_of w)) }
    ensures fits { IfOk result (λ w. FieldsFit (frame_of w) × AreBlobs w) }
{
    let (stream, line) = taken::number_32(1, 0, 2_147_483_647, line)?;
    let (number, line) = taken::unnamed(2, line)?;
    let (flags, line) = taken::number_16(3, 1023, line)?;
    let (rest, line) = taken::blob(4, line)?;
    taken::end(5, line)?;
    Ok(Fields::Unknown {
        stream,
        number,
        flags,
        rest,
    })
}
