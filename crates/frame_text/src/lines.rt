//! The line of a frame.

ghost use Rattle.std.specs.Prelude.{◌≡◌, ◌++◌, [], ◌∷◌, OnOk, OnErr, codes, decimal};
ghost use Rattle.rs_frame.specs.Spelling.{IsSpellable};
ghost use Rattle.frame_text.specs.Lines.{fields_of, line_of, number_words, setup_flags, spaced};
ghost use Rattle.frame_text.specs.Words.{blob_word, option_word};

use crate::names::frame_name;
use crate::words::{
    follows_complete, follows_complete_next, respond, resume_lease, write_blob, write_option,
};
use plain_text::{write_number_word, write_word};
use rs_frame::{Frame, Request, Resume, Setup};
use rs_wire::{Blob, Message, OutOfMemory};

fn write_message(out: &mut Vec<u8>, message: &Message) -> Result<(), OutOfMemory>
    ensures { OnOk result (out.new.items ≡ out.old.items ++
        spaced (option_word message.now.metadata ∷ blob_word message.now.content ∷ [])) }
{
    write_option(out, &message.metadata)?;
    write_blob(out, &message.content)
}

fn write_numbers(out: &mut Vec<u8>, first: u64, second: u64) -> Result<(), OutOfMemory>
    ensures { OnOk result (out.new.items ≡ out.old.items ++ spaced (decimal first ∷
        decimal second ∷ [])) }
{
    write_number_word(out, first)?;
    write_number_word(out, second)
}

fn write_setup_numbers(out: &mut Vec<u8>, fields: &Setup) -> Result<(), OutOfMemory>
    ensures { OnOk result (out.new.items ≡ out.old.items ++ spaced (codes "0" ∷
        setup_flags fields.now ∷ decimal fields.now.major ∷ decimal fields.now.minor ∷
        decimal fields.now.keepalive ∷ decimal fields.now.lifetime ∷ [])) }
{
    write_word(out, "0")?;
    write_word(out, resume_lease(fields.resume.is_some(), fields.lease))?;
    write_numbers(out, u64::from(fields.major), u64::from(fields.minor))?;
    write_numbers(
        out,
        u64::from(fields.keepalive.get()),
        u64::from(fields.lifetime.get()),
    )
}

fn write_setup_names(out: &mut Vec<u8>, fields: &Setup) -> Result<(), OutOfMemory>
    ensures { OnOk result (out.new.items ≡ out.old.items ++
        spaced (option_word fields.now.resume ∷ blob_word fields.now.metadata_mime ∷
        blob_word fields.now.content_mime ∷ [])) }
{
    write_option(out, &fields.resume)?;
    write_blob(out, &fields.metadata_mime)?;
    write_blob(out, &fields.content_mime)
}

fn write_setup(out: &mut Vec<u8>, fields: &Setup) -> Result<(), OutOfMemory>
    ensures { OnOk result (out.new.items ≡ out.old.items ++
        spaced (fields_of (Frame.Setup fields.now))) }
{
    write_setup_numbers(out, fields)?;
    write_setup_names(out, fields)?;
    write_message(out, &fields.message)
}

fn write_lease(
    out: &mut Vec<u8>,
    ttl: u32,
    count: u32,
    metadata: &Option<Blob>,
) -> Result<(), OutOfMemory>
    ensures { OnOk result (out.new.items ≡ out.old.items ++
        spaced (fields_of (Frame.Lease ttl count metadata.now))) }
{
    write_word(out, "0")?;
    write_numbers(out, u64::from(ttl), u64::from(count))?;
    write_option(out, metadata)
}

fn write_keepalive(
    out: &mut Vec<u8>,
    is_wanted: bool,
    position: u64,
    content: &Blob,
) -> Result<(), OutOfMemory>
    ensures { OnOk result (out.new.items ≡ out.old.items ++
        spaced (fields_of (Frame.Keepalive is_wanted position content.now))) }
{
    write_word(out, "0")?;
    write_word(out, respond(is_wanted))?;
    write_number_word(out, position)?;
    write_blob(out, content)
}

fn write_push(out: &mut Vec<u8>, metadata: &Blob) -> Result<(), OutOfMemory>
    ensures { OnOk result (out.new.items ≡ out.old.items ++
        spaced (fields_of (Frame.MetadataPush metadata.now))) }
{
    write_word(out, "0")?;
    write_blob(out, metadata)
}

fn write_initial(out: &mut Vec<u8>, fields: &Request) -> Result<(), OutOfMemory>
    ensures { OnOk result (out.new.items ≡ out.old.items ++
        spaced (number_words fields.now.initial)) }
{
    match fields.initial {
        None => Ok(()),
        Some(n) => write_number_word(out, u64::from(n.get())),
    }
}

fn write_request(out: &mut Vec<u8>, fields: &Request) -> Result<(), OutOfMemory>
    ensures { OnOk result (out.new.items ≡ out.old.items ++
        spaced (fields_of (Frame.Request fields.now))) }
{
    write_number_word(out, u64::from(fields.stream))?;
    write_word(out, follows_complete(fields.follows, fields.complete))?;
    write_initial(out, fields)?;
    write_message(out, &fields.message)
}

fn write_payload(
    out: &mut Vec<u8>,
    stream: u32,
    letters: &str,
    message: &Message,
) -> Result<(), OutOfMemory>
    ensures { OnOk result (out.new.items ≡ out.old.items ++ spaced (decimal stream ∷ letters.now ∷
        option_word message.now.metadata ∷ blob_word message.now.content ∷ [])) }
{
    write_number_word(out, u64::from(stream))?;
    write_word(out, letters)?;
    write_message(out, message)
}

fn write_error(out: &mut Vec<u8>, stream: u32, code: u32, content: &Blob) -> Result<(), OutOfMemory>
    ensures { OnOk result (out.new.items ≡ out.old.items ++
        spaced (fields_of (Frame.Error stream code content.now))) }
{
    write_numbers(out, u64::from(stream), u64::from(code))?;
    write_blob(out, content)
}

fn write_resume(out: &mut Vec<u8>, fields: &Resume) -> Result<(), OutOfMemory>
    ensures { OnOk result (out.new.items ≡ out.old.items ++
        spaced (fields_of (Frame.Resume fields.now))) }
{
    write_word(out, "0")?;
    write_numbers(out, u64::from(fields.major), u64::from(fields.minor))?;
    write_blob(out, &fields.token)?;
    write_numbers(out, fields.server_position, fields.client_position)
}

fn write_resume_ok(out: &mut Vec<u8>, position: u64) -> Result<(), OutOfMemory>
    ensures { OnOk result (out.new.items ≡ out.old.items ++
        spaced (fields_of (Frame.ResumeOk position))) }
{
    write_word(out, "0")?;
    write_number_word(out, position)
}

fn write_kept(
    out: &mut Vec<u8>,
    stream: u32,
    second: u64,
    third: u64,
    rest: &Blob,
) -> Result<(), OutOfMemory>
    ensures { OnOk result (out.new.items ≡ out.old.items ++ spaced (decimal stream ∷
        decimal second ∷ decimal third ∷ blob_word rest.now ∷ [])) }
{
    write_number_word(out, u64::from(stream))?;
    write_numbers(out, second, third)?;
    write_blob(out, rest)
}

fn write_fields(out: &mut Vec<u8>, frame: &Frame) -> Result<(), OutOfMemory>
    ensures { OnOk result (out.new.items ≡ out.old.items ++ spaced (fields_of frame.now)) }
{
    match frame {
        Frame::Setup(fields) => write_setup(out, fields),
        Frame::Lease {
            ttl,
            count,
            metadata,
        } => write_lease(out, *ttl, *count, metadata),
        Frame::Keepalive {
            respond,
            position,
            content,
        } => write_keepalive(out, *respond, *position, content),
        Frame::Request(fields) => write_request(out, fields),
        Frame::RequestN { stream, n } => {
            write_numbers(out, u64::from(*stream), u64::from(n.get()))
        }
        Frame::Cancel { stream } => write_number_word(out, u64::from(*stream)),
        Frame::Payload {
            stream,
            follows,
            complete,
            next,
            message,
        } => {
            let letters = follows_complete_next(*follows, *complete, *next);
            write_payload(out, *stream, letters, message)
        }
        Frame::Error {
            stream,
            code,
            content,
        } => write_error(out, *stream, *code, content),
        Frame::MetadataPush { metadata } => write_push(out, metadata),
        Frame::Resume(fields) => write_resume(out, fields),
        Frame::ResumeOk { position } => write_resume_ok(out, *position),
        Frame::Ext {
            stream,
            flags,
            extended,
            rest,
        } => write_kept(out, *stream, u64::from(*flags), u64::from(*extended), rest),
        Frame::Unknown {
            stream,
            number,
            flags,
            rest,
        } => write_kept(out, *stream, u64::from(*number), u64::from(*flags), rest),
    }
}

/// Appends the line of the frame, without a line feed. On `OutOfMemory` nothing is appended.
pub fn line_of(frame: &Frame, out: &mut Vec<u8>) -> Result<(), OutOfMemory>
    requires { IsSpellable frame.now }
    ensures ok { OnOk result (out.new.items ≡ out.old.items ++ line_of frame.now) }
    ensures err { OnErr result (out.new.items ≡ out.old.items) }
{
    let mut line = Vec::from_slice(*out.allocator(), frame_name(frame).as_bytes())?;
    write_fields(&mut line, frame)?;
    out.extend_from_slice(line.as_slice())?;
    Ok(())
}
