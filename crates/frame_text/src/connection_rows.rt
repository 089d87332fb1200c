//! The lines of the connection's frames: SETUP, LEASE, KEEPALIVE, METADATA_PUSH, RESUME and RESUME_OK.

ghost use Rattle.std.specs.Prelude.{◌≡◌, ◌<◌, ◌^◌, ◌++◌, ◌∷◌, IfOk, IfSome, IsTrue, is_some, codes, decimal, length};
ghost use Rattle.std.specs.Option.{option_map};
ghost use Rattle.std.specs.Result.{result_map_both};
ghost use Rattle.rs_frame.specs.Spelling.{FieldsFit, IsStream};
ghost use Rattle.frame_text.specs.Fields.{AreBlobs, IsOption, frame_of};
ghost use Rattle.frame_text.specs.Lines.{line_of};
ghost use Rattle.frame_text.specs.Reading.{keepalive_row, lease_row, metadata_push_row, resume_ok_row, resume_row, setup_names_at, setup_numbers_at, setup_row};
ghost use Rattle.frame_text.specs.Spelled.{after_word, bytes_of, is_blob, option_of};
ghost use Rattle.frame_text.specs.Words.{blob_word, option_word};

use crate::fault::Wrong;
use crate::fields::{Fields, ResumeWords, SetupWords};
use crate::stream_rows::message;
use crate::taken;
use rs_wire::Amount;

// The versions and intervals of a SETUP.
#[derive(Clone, Copy)]
struct SetupNumbers {
    major: u16,
    minor: u16,
    keepalive: u32,
    lifetime: u32,
}

#[tactic(auto, unfolding(crate::specs::Reading::setup_numbers_at))]
fn setup_numbers(line: Option<&[u8]>) -> Result<(SetupNumbers, Option<&[u8]>), Wrong>
    ensures told { result_map_both (λ x. option_map (λ y. y.now) x.1) (λ e. e) result ≡
        setup_numbers_at (option_map (λ y. y.now) line.entry) }
    ensures words { IfOk result (λ x. after_word (option_map (λ y. y.now) line.entry) ≡ (32 ∷
        decimal x.0.major) ++ ((32 ∷ decimal x.0.minor) ++ ((32 ∷ decimal x.0.keepalive) ++ ((32 ∷
        decimal x.0.lifetime) ++ after_word (option_map (λ y. y.now) x.1))))) }
    ensures fits { IfOk result (λ x. (x.0.major < 2 ^ 16) × (x.0.minor < 2 ^ 16) ×
        IsStream x.0.keepalive × IsStream x.0.lifetime) }
{
    let (major, line) = taken::number_16(3, 65_535, line)?;
    let (minor, line) = taken::number_16(4, 65_535, line)?;
    let (keepalive, line) = taken::number_32(5, 1, 2_147_483_647, line)?;
    let (lifetime, line) = taken::number_32(6, 1, 2_147_483_647, line)?;
    Ok((
        SetupNumbers {
            major,
            minor,
            keepalive,
            lifetime,
        },
        line,
    ))
}

// The token of a SETUP and the names of its types.
#[derive(Clone, Copy)]
struct SetupNames<'a> {
    token: &'a [u8],
    metadata_mime: &'a [u8],
    content_mime: &'a [u8],
}

#[tactic(auto, unfolding(crate::specs::Reading::setup_names_at))]
fn setup_names(asked: bool, line: Option<&[u8]>) -> Result<(SetupNames<'_>, Option<&[u8]>), Wrong>
    ensures told { result_map_both (λ x. option_map (λ y. y.now) x.1) (λ e. e) result ≡
        setup_names_at asked (option_map (λ y. y.now) line.entry) }
    ensures words { IfOk result (λ x. after_word (option_map (λ y. y.now) line.entry) ≡ (32 ∷
        option_word (option_of x.0.token.now)) ++ ((32 ∷
        blob_word (bytes_of x.0.metadata_mime.now)) ++ ((32 ∷
        blob_word (bytes_of x.0.content_mime.now)) ++ after_word (option_map (λ y. y.now) x.1)))) }
    ensures token { IfOk result (λ x. IsOption x.0.token.now ×
        IfSome (option_of x.0.token.now) (λ bytes. length bytes < 2 ^ 16) ×
        (is_some (option_of x.0.token.now) ≡ asked)) }
    ensures names { IfOk result (λ x. IsTrue (is_blob x.0.metadata_mime.now) ×
        (length (bytes_of x.0.metadata_mime.now) < 2 ^ 8) ×
        IsTrue (is_blob x.0.content_mime.now) × (length (bytes_of x.0.content_mime.now) < 2 ^ 8)) }
{
    let (token, line) = taken::token(7, asked, line)?;
    let (metadata_mime, line) = taken::short(8, 255, line)?;
    let (content_mime, line) = taken::short(9, 255, line)?;
    Ok((
        SetupNames {
            token,
            metadata_mime,
            content_mime,
        },
        line,
    ))
}

/// The fields of a SETUP line.
pub fn setup(line: Option<&[u8]>) -> Result<Fields<'_>, Wrong>
    ensures told { result_map_both (λ w. tt) (λ e. e) result ≡
        setup_row (option_map (λ y. y.now) line.entry) }
    ensures line { IfOk result (λ w. codes "SETUP" ++
        after_word (option_map (λ y. y.now) line.entry) ≡ line_of (frame_of w)) }
    ensures fits { IfOk result (λ w. FieldsFit (frame_of w) × AreBlobs w) }
{
    let line = taken::no_stream(line)?;
    let ((asked, lease), line) = taken::resume_lease(line)?;
    let (numbers, line) = setup_numbers(line)?;
    let (names, line) = setup_names(asked, line)?;
    let (message, line) = message(10, line)?;
    taken::end(12, line)?;
    let Some(keepalive) = Amount::of(numbers.keepalive) else {
        return Err(Wrong::Number(5));
    };
    let Some(lifetime) = Amount::of(numbers.lifetime) else {
        return Err(Wrong::Number(6));
    };
    Ok(Fields::Setup(SetupWords {
        token: names.token,
        lease,
        major: numbers.major,
        minor: numbers.minor,
        keepalive,
        lifetime,
        metadata_mime: names.metadata_mime,
        content_mime: names.content_mime,
        message,
    }))
}

/// The fields of a LEASE line.
pub fn lease(line: Option<&[u8]>) -> Result<Fields<'_>, Wrong>
    ensures told { result_map_both (λ w. tt) (λ e. e) result ≡
        lease_row (option_map (λ y. y.now) line.entry) }
    ensures line { IfOk result (λ w. codes "LEASE" ++
        after_word (option_map (λ y. y.now) line.entry) ≡ line_of (frame_of w)) }
    ensures fits { IfOk result (λ w. FieldsFit (frame_of w) × AreBlobs w) }
{
    let line = taken::no_stream(line)?;
    let (ttl, line) = taken::number_32(2, 0, 2_147_483_647, line)?;
    let (count, line) = taken::number_32(3, 0, 2_147_483_647, line)?;
    let (metadata, line) = taken::option(4, line)?;
    taken::end(5, line)?;
    Ok(Fields::Lease {
        ttl,
        count,
        metadata,
    })
}

/// The fields of a KEEPALIVE line.
pub fn keepalive(line: Option<&[u8]>) -> Result<Fields<'_>, Wrong>
    ensures told { result_map_both (λ w. tt) (λ e. e) result ≡
        keepalive_row (option_map (λ y. y.now) line.entry) }
    ensures line { IfOk result (λ w. codes "KEEPALIVE" ++
        after_word (option_map (λ y. y.now) line.entry) ≡ line_of (frame_of w)) }
    ensures fits { IfOk result (λ w. FieldsFit (frame_of w) × AreBlobs w) }
{
    let line = taken::no_stream(line)?;
    let (respond, line) = taken::respond(line)?;
    let (position, line) = taken::number(3, 0, 9_223_372_036_854_775_807, line)?;
    let (content, line) = taken::blob(4, line)?;
    taken::end(5, line)?;
    Ok(Fields::Keepalive {
        respond,
        position,
        content,
    })
}

/// The fields of a METADATA_PUSH line.
pub fn metadata_push(line: Option<&[u8]>) -> Result<Fields<'_>, Wrong>
    ensures told { result_map_both (λ w. tt) (λ e. e) result ≡
        metadata_push_row (option_map (λ y. y.now) line.entry) }
    ensures line { IfOk result (λ w. codes "METADATA_PUSH" ++
        after_word (option_map (λ y. y.now) line.entry) ≡ line_of (frame_of w)) }
    ensures fits { IfOk result (λ w. FieldsFit (frame_of w) × AreBlobs w) }
{
    let line = taken::no_stream(line)?;
    let (metadata, line) = taken::blob(2, line)?;
    taken::end(3, line)?;
    Ok(Fields::MetadataPush { metadata })
}

/// The fields of a RESUME line.
pub fn resume(line: Option<&[u8]>) -> Result<Fields<'_>, Wrong>
    ensures told { result_map_both (λ w. tt) (λ e. e) result ≡
        resume_row (option_map (λ y. y.now) line.entry) }
    ensures line { IfOk result (λ w. codes "RESUME" ++
        after_word (option_map (λ y. y.now) line.entry) ≡ line_of (frame_of w)) }
    ensures fits { IfOk result (λ w. FieldsFit (frame_of w) × AreBlobs w) }
{
    let line = taken::no_stream(line)?;
    let (major, line) = taken::number_16(2, 65_535, line)?;
    let (minor, line) = taken::number_16(3, 65_535, line)?;
    let (token, line) = taken::short(4, 65_535, line)?;
    let (server_position, line) = taken::number(5, 0, 9_223_372_036_854_775_807, line)?;
    let (client_position, line) = taken::number(6, 0, 9_223_372_036_854_775_807, line)?;
    taken::end(7, line)?;
    Ok(Fields::Resume(ResumeWords {
        major,
        minor,
        token,
        server_position,
        client_position,
    }))
}

/// The fields of a RESUME_OK line.
pub fn resume_ok(line: Option<&[u8]>) -> Result<Fields<'_>, Wrong>
    ensures told { result_map_both (λ w. tt) (λ e. e) result ≡
        resume_ok_row (option_map (λ y. y.now) line.entry) }
    ensures line { IfOk result (λ w. codes "RESUME_OK" ++
        after_word (option_map (λ y. y.now) line.entry) ≡ line_of (frame_of w)) }
    ensures fits { IfOk result (λ w. FieldsFit (frame_of w) × AreBlobs w) }
{
    let line = taken::no_stream(line)?;
    let (position, line) = taken::number(2, 0, 9_223_372_036_854_775_807, line)?;
    taken::end(3, line)?;
    Ok(Fields::ResumeOk { position })
}
