//! The laws as handlers.

ghost use Rattle.std.specs.Prelude.{◌≡◌};
ghost use Rattle.std.specs.Char.{is_ascii_digit};
ghost use Rattle.std.specs.List.{list_all};
ghost use Rattle.handlers.specs.Values.{Shows, count_in, is_number, value};
ghost use Rattle.handlers.specs.declared.law.Law.TheVariants as law;

use crate::handler::Handler;
use crate::law::{Law, Produced};
use crate::stored::Stored;
use rs_wire::Blob;
use std::alloc::Global;

// Whether each byte is an ASCII digit.
fn is_all_digits(content: &[u8]) -> bool
    ensures { result ≡ list_all is_ascii_digit content.now }
{
    content.iter().all(|b| b.is_ascii_digit())
}

// Whether the content is 1 to 9 ASCII digits.
fn is_number(content: &[u8]) -> bool
    ensures { result ≡ is_number content.now }
{
    1 <= content.len() && content.len() <= 9 && is_all_digits(content)
}

// How many items the content asks for.
#[tactic(auto, using(crate::proofs::Numbers::numbers), unfolding(crate::specs::Values::count_in))]
fn count_in(content: &[u8]) -> u64
    ensures { result ≡ count_in content.now }
{
    if !is_number(content) {
        return 0;
    }
    match std::str::from_utf8(content) {
        Ok(text) => text.parse::<u64>().unwrap_or(0),
        Err(_) => 0,
    }
}

fn echo(alloc: Global, content: &Blob, index: u64) -> Produced
    ensures { Shows (value law.Echo content.now index) result }
{
    if index != 0 {
        return Produced::Finish;
    }
    match content.copy(alloc) {
        Ok(item) => Produced::Item(item),
        Err(_) => Produced::OutOfMemory,
    }
}

fn upper(alloc: Global, content: &Blob, index: u64) -> Produced
    ensures { Shows (value law.Upper content.now index) result }
{
    if index != 0 {
        return Produced::Finish;
    }
    match content.as_slice().to_ascii_uppercase(alloc) {
        Ok(bytes) => Produced::Item(Blob::from_vec(bytes)),
        Err(_) => Produced::OutOfMemory,
    }
}

fn count(alloc: Global, content: &Blob, index: u64) -> Produced
    ensures { Shows (value law.Count content.now index) result }
{
    if index >= count_in(content.as_slice()) {
        return Produced::Finish;
    }
    match index.to_string(alloc) {
        Ok(text) => Produced::Item(Blob::from_vec(text.into_bytes())),
        Err(_) => Produced::OutOfMemory,
    }
}

/// A law is a handler that keeps it.
impl Handler for Law {
    ghost use Rattle.handlers.specs.Values.{value};

    ghost gives = { value };

    fn call(&self, alloc: Global, content: &Blob, index: u64) -> Produced {
        match self {
            Law::Echo => echo(alloc, content, index),
            Law::Upper => upper(alloc, content, index),
            Law::Count => count(alloc, content, index),
            Law::Drop => Produced::Finish,
        }
    }
}

impl Stored<Law> {
    /// The crate's own handler of this law.
    pub fn of(law: Law) -> Stored<Law>
        ensures { result ≡ law }
    {
        Stored::new(law, law)
    }
}
