//! The plain values that an RSocket endpoint speaks of: bytes, amounts, messages, and settings.
//!
//! Every other crate stands on it. It promises two things to the crates above: a value that it hands
//! out is in the range that its type says, and settings that passed [`check`] have every field in
//! its range. It knows no frame and no session.
#![tactic(auto)]

mod amount;
mod blob;
mod call;
mod delivery;
mod fault;
mod memory;
mod message;
mod settings;
mod words;

pub use amount::Amount;
pub use blob::Blob;
pub use call::{Call, is_stream_code};
pub use delivery::{Delivery, Job};
pub use fault::{Cause, Gone, Refusal, Rule, SetupFault};
pub use memory::OutOfMemory;
pub use message::Message;
pub use settings::{Checked, Limit, SettingFault, Settings, check};
pub use words::{Kind, Role, Side, Way};
