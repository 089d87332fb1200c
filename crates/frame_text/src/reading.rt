//! Frames from lines.

ghost use Rattle.std.specs.Prelude.{◌≡◌, ◌++◌, IfErr, IfOk};
ghost use Rattle.std.specs.Option.{option_map};
ghost use Rattle.std.specs.Result.{result_map_both};
ghost use Rattle.rs_frame.specs.Spelling.{FieldsFit, IsSpellable};
ghost use Rattle.frame_text.specs.Fields.{AreBlobs, frame_of};
ghost use Rattle.frame_text.specs.Lines.{HasBytes, line_of};
ghost use Rattle.frame_text.specs.Reading.{IsFaultOfFrame, Tells, other_row, named_row};
ghost use Rattle.frame_text.specs.Spelled.{after_word};

use crate::connection_rows::{keepalive, lease, metadata_push, resume, resume_ok, setup};
use crate::fault::{TextFault, Wrong};
use crate::fields::{self, Fields};
use crate::spelled::{is, next_word};
use crate::stream_rows::{
    cancel, channel, error, ext, fnf, payload, request_n, response, stream, unknown,
};
use rs_frame::Frame;
use std::alloc::Global;

// The fields of a line that starts with this name.
#[tactic(auto, unfolding(crate::specs::Reading::other_row))]
fn other_fields<'a>(name: &[u8], line: Option<&'a [u8]>) -> Result<Fields<'a>, Wrong>
    ensures told { result_map_both (λ w. tt) (λ e. e) result ≡
        other_row name.now (option_map (λ y. y.now) line.entry) }
    ensures line { IfOk result (λ w. name.now ++ after_word (option_map (λ y. y.now) line.entry) ≡
        line_of (frame_of w)) }
    ensures fits { IfOk result (λ w. FieldsFit (frame_of w) × AreBlobs w) }
{
    if is(name, "REQUEST_N") {
        return request_n(line);
    }
    if is(name, "CANCEL") {
        return cancel(line);
    }
    if is(name, "PAYLOAD") {
        return payload(line);
    }
    if is(name, "ERROR") {
        return error(line);
    }
    if is(name, "METADATA_PUSH") {
        return metadata_push(line);
    }
    if is(name, "RESUME") {
        return resume(line);
    }
    if is(name, "RESUME_OK") {
        return resume_ok(line);
    }
    if is(name, "EXT") {
        return ext(line);
    }
    if is(name, "UNKNOWN") {
        return unknown(line);
    }
    Err(Wrong::Word(0))
}

// The fields of a line that starts with this name.
#[tactic(auto, unfolding(crate::specs::Reading::named_row))]
fn fields_of<'a>(name: &[u8], line: Option<&'a [u8]>) -> Result<Fields<'a>, Wrong>
    ensures told { result_map_both (λ w. tt) (λ e. e) result ≡
        named_row name.now (option_map (λ y. y.now) line.entry) }
    ensures line { IfOk result (λ w. name.now ++ after_word (option_map (λ y. y.now) line.entry) ≡
        line_of (frame_of w)) }
    ensures fits { IfOk result (λ w. FieldsFit (frame_of w) × AreBlobs w) }
{
    if is(name, "SETUP") {
        return setup(line);
    }
    if is(name, "LEASE") {
        return lease(line);
    }
    if is(name, "KEEPALIVE") {
        return keepalive(line);
    }
    if is(name, "REQUEST_RESPONSE") {
        return response(line);
    }
    if is(name, "REQUEST_FNF") {
        return fnf(line);
    }
    if is(name, "REQUEST_STREAM") {
        return stream(line);
    }
    if is(name, "REQUEST_CHANNEL") {
        return channel(line);
    }
    other_fields(name, line)
}

// The frame of these fields, where it is not too long.
fn whole(alloc: Global, fields: &Fields<'_>) -> Result<Frame, TextFault>
    requires fits { FieldsFit (frame_of fields.now) }
    requires blobs { AreBlobs fields.now }
    ensures found { IfOk result (λ f. (f ≡ frame_of fields.now) × IsSpellable f) }
    ensures fault { IfErr result (IsFaultOfFrame (frame_of fields.now)) }
{
    let length = fields::length(fields);
    if length > 16_777_215 {
        return Err(TextFault::TooLong(length));
    }
    Ok(fields::frame(alloc, fields)?)
}

/// The frame of the line, which has no line feed.
///
/// The words are tested from the left, then the length of the frame, then memory: see
/// [`TextFault`].
pub fn read_line(alloc: Global, line: &[u8]) -> Result<Frame, TextFault>
    ensures found { IfOk result (λ f. (line.now ≡ line_of f) × IsSpellable f) }
    ensures bytes { IfOk result (λ f. HasBytes f) }
    ensures fault { Tells line.now result }
{
    let (name, rest) = next_word(line);
    match fields_of(name, rest) {
        Ok(fields) => whole(alloc, &fields),
        Err(Wrong::Word(place)) => Err(TextFault::BadWord(place)),
        Err(Wrong::Number(place)) => Err(TextFault::BadNumber(place)),
        Err(Wrong::Hex(place)) => Err(TextFault::BadHex(place)),
    }
}
