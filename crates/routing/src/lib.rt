//! Composite metadata and routing tags (RSocket extensions, "Composite Metadata" and "Routing").
//!
//! Composite metadata is a list of parts, each with the name of what its content is: a well-known
//! number or a text. Routing metadata is a list of tags. [`read_composite`] and [`read_tags`] answer
//! exactly the list that the bytes spell, or name the first part or tag that is not whole, by its
//! place; [`write_composite`] and [`write_tags`] append that spelling ([`metadata_laws`]).
//!
//! It knows no frame, no session and no table of well-known names but that of routing.
#![tactic(auto)]

mod composite;
mod cutting;
mod fault;
mod laws;
mod tags;

pub use composite::{MimeName, Part, Parts, read_composite, write_composite};
pub use fault::MetaFault;
pub use laws::metadata_laws;
pub use tags::{Tags, read_tags, write_tags};
