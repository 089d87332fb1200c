//! Parts of composite metadata.

ghost use Rattle.std.specs.Prelude.{◌≡◌, ◌++◌, ◌<◌, ◌^◌, ◌+◌, ◌-◌, ℕ, List, [], ◌∷◌, length, take, IfErr, IfOk, OnErr, OnOk};
ghost use Rattle.rs_frame.specs.Spelling.{counted_bytes};
ghost use Rattle.routing.specs.Metadata.{HasRead, IsCompositeFault, IsPartFault, NameFits, PartFits, PartsFit, SpellsComposite, composite_bytes, name_bytes, name_length, part_bytes};

use crate::cutting::{counted_u24, cut};
use crate::fault::MetaFault;
use byteorder::{BigEndian, ByteOrder};
use rs_wire::{Blob, OutOfMemory};
use std::alloc::Global;
use std::marker::Model;

/// The name of what the content of a part is.
#[derive(Debug, Drop, PartialEq, Eq)]
pub enum MimeName {
    /// A well-known MIME type, by its number of seven bits.
    Known(u8),
    /// The text of a MIME type, of 1 to 128 bytes.
    Named(Blob),
}

/// A part of composite metadata.
#[derive(Debug, Drop, PartialEq, Eq)]
pub struct Part {
    /// What the content is.
    pub mime: MimeName,
    /// The content, of at most 16,777,215 bytes.
    pub content: Blob,
}

/// Parts in their order. Contracts see the list of them.
#[derive(Debug, Drop)]
pub struct Parts {
    parts: Vec<Part>,
}

impl Model for Parts {
    ghost use Rattle.std.specs.Prelude.{List};
    ghost use Rattle.routing.specs.declared.composite.Part.{Part};

    ghost Value = { List Part };

    ghost view = { λ p. p.parts.items };
}

impl Parts {
    /// These parts.
    pub fn from_vec(parts: Vec<Part>) -> Parts
        ensures { result ≡ parts.items }
    {
        Parts { parts }
    }

    /// The parts.
    pub fn as_slice(&self) -> &[Part]
        ensures { result.now ≡ self.now }
    {
        self.parts.as_slice()
    }

    /// The parts, which are given back.
    pub fn into_vec(self) -> Vec<Part>
        ensures { result.items ≡ self }
    {
        self.parts
    }
}

// A part at the front of bytes: its name, its content, and what follows it.
#[derive(Clone, Copy)]
struct PartRef<'a> {
    name: &'a [u8],
    content: &'a [u8],
    after: &'a [u8],
}

/// Reads the parts of composite metadata.
pub fn read_composite(alloc: Global, bytes: &[u8]) -> Result<Parts, MetaFault>
    ensures found { IfOk result (λ parts. SpellsComposite parts bytes.now) }
    ensures fault { IfErr result (IsCompositeFault bytes.now) }
{
    let mut parts = Vec::new(alloc);
    let mut rest = bytes;
    while !rest.is_empty() {
        let place = (bytes.len() - rest.len()) as u64;
        rest = read_part(alloc, rest, place, &mut parts)?;
    }
    Ok(Parts { parts })
}

// Reads the part at the front of the bytes, which stands at this place, and gives what follows it.
fn read_part<'a>(
    alloc: Global,
    bytes: &'a [u8],
    place: u64,
    parts: &mut Vec<Part>,
) -> Result<&'a [u8], MetaFault>
    requires { 0 < length bytes.now }
    ensures read { IfOk result (λ after. (all : List ℕ) →
        HasRead all bytes.now parts.old.items → HasRead all after.now parts.new.items) }
    ensures shorter { IfOk result (λ after. length after.now < length bytes.now) }
    ensures fault { IfErr result (IsPartFault bytes.now place) }
    ensures err { OnErr result (parts.new.items ≡ parts.old.items) }
{
    let found = first_part(bytes, place)?;
    let part = part_of(alloc, found.name, found.content)?;
    parts.push(part)?;
    Ok(found.after)
}

// The part at the front of the bytes, which stands at this place.
fn first_part(bytes: &[u8], place: u64) -> Result<PartRef<'_>, MetaFault>
    requires { 0 < length bytes.now }
    ensures found { IfOk result (λ p. (length p.name.now ≡ name_length bytes.now) ×
        (name_length p.name.now ≡ name_length bytes.now) × (length p.content.now < 2 ^ 24) ×
        (bytes.now ≡ p.name.now ++ (counted_bytes 3 p.content.now ++ p.after.now))) }
    ensures fault { IfErr result (IsPartFault bytes.now place) }
{
    let Some((name, rest)) = cut(name_len(bytes[0]), bytes) else {
        return Err(MetaFault::ShortEntry(place));
    };
    if rest.len() < 3 {
        return Err(MetaFault::ShortEntry(place));
    }
    let Some((content, after)) = counted_u24(rest) else {
        return Err(MetaFault::ShortContent(place));
    };
    Ok(PartRef {
        name,
        content,
        after,
    })
}

// How many bytes a name with this first byte has.
fn name_len(first: u8) -> usize
    ensures { result ≡ name_length (first ∷ []) }
{
    if first < 128 { first as usize + 2 } else { 1 }
}

// The part of this name and this content.
fn part_of(alloc: Global, name: &[u8], content: &[u8]) -> Result<Part, OutOfMemory>
    requires named { length name.now ≡ name_length name.now }
    requires fits { length content.now < 2 ^ 24 }
    ensures { IfOk result (λ p. PartFits p ×
        (part_bytes p ≡ name.now ++ counted_bytes 3 content.now)) }
{
    let mime = name_of(alloc, name)?;
    let content = Blob::from_slice(alloc, content)?;
    Ok(Part { mime, content })
}

// The name that these bytes spell.
fn name_of(alloc: Global, name: &[u8]) -> Result<MimeName, OutOfMemory>
    requires { length name.now ≡ name_length name.now }
    ensures { IfOk result (λ n. NameFits n × (name_bytes n ≡ name.now)) }
{
    match name {
        [first, text @ ..] if *first < 128 => Ok(MimeName::Named(Blob::from_slice(alloc, text)?)),
        [first, ..] => Ok(MimeName::Known(*first - 128)),
        [] => Err(OutOfMemory),
    }
}

/// Appends the bytes of parts: each known number is below 128, each text has 1 to 128 bytes and each
/// content at most 16,777,215. Where memory runs out nothing is appended.
pub fn write_composite(parts: &Parts, out: &mut Vec<u8>) -> Result<(), OutOfMemory>
    requires { PartsFit parts.now }
    ensures ok { OnOk result (out.new.items ≡ out.old.items ++ composite_bytes parts.now) }
    ensures err { OnErr result (out.new.items ≡ out.old.items) }
{
    let start = out.len();
    let done = write_parts(&parts.parts, out);
    if done.is_err() {
        out.truncate(start);
    }
    done
}

// Appends the bytes of the parts. Where memory runs out those of some may stand.
#[tactic(auto, using(std::proofs::lemmas::List::take_at))]
fn write_parts(parts: &[Part], out: &mut Vec<u8>) -> Result<(), OutOfMemory>
    requires { PartsFit parts.now }
    ensures ok { OnOk result (out.new.items ≡ out.old.items ++ composite_bytes parts.now) }
    ensures err { OnErr result (take (length out.old.items) out.new.items ≡ out.old.items) }
{
    for part in parts {
        write_part(part, out)?;
    }
    Ok(())
}

fn write_part(part: &Part, out: &mut Vec<u8>) -> Result<(), OutOfMemory>
    requires { PartFits part.now }
    ensures ok { OnOk result (out.new.items ≡ out.old.items ++ part_bytes part.now) }
    ensures err { OnErr result (take (length out.old.items) out.new.items ≡ out.old.items) }
{
    write_name(&part.mime, out)?;
    let mut length = [0u8; 3];
    BigEndian::write_u24(&mut length, part.content.len() as u32);
    out.extend_from_slice(&length)?;
    out.extend_from_slice(part.content.as_slice())?;
    Ok(())
}

fn write_name(name: &MimeName, out: &mut Vec<u8>) -> Result<(), OutOfMemory>
    requires { NameFits name.now }
    ensures ok { OnOk result (out.new.items ≡ out.old.items ++ name_bytes name.now) }
    ensures err { OnErr result (take (length out.old.items) out.new.items ≡ out.old.items) }
{
    match name {
        MimeName::Known(id) => out.push(128 + *id)?,
        MimeName::Named(text) => {
            out.push((text.len() - 1) as u8)?;
            out.extend_from_slice(text.as_slice())?;
        }
    }
    Ok(())
}
