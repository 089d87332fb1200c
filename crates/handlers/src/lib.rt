//! How a program answers requests: handlers, each of which keeps a law, and routes, which say by
//! name and kind which handler a request asks for (RSocket 1.0, "Request"; the standard leaves
//! names to programs).
//!
//! A [`Law`] says which item there is at each index, from 0, for a request's content. A [`Handler`]
//! is whatever can be called for it, a [`Stored`] handler one that is known to keep a law, and
//! [`Routes`] the stored handlers of a program. The promise to the layer above: a route is found
//! exactly by the name and the kind under which it was added, and what it answers is its law's
//! item, or that there is none, or that memory ran out.
//!
//! It leaves out how a request carries a name, who asks at which index, and how many items a
//! requester granted.
//!
//! A handler of a program's own is a type with two members: what it gives, for contracts, and the
//! call.
//!
//! ```text
//! /// Answers as `Law::Upper` does, and counts its calls.
//! #[derive(Drop)]
//! struct Counted {
//!     calls: Arc<AtomicU64>,
//! }
//!
//! impl Handler for Counted {
//!     ghost gives = { λ _ content index. value law.Upper content index };
//!
//!     fn call(&self, alloc: Global, content: &Blob, index: u64) -> Produced {
//!         self.calls.fetch_add(1, Ordering::SeqCst);
//!         Law::Upper.call(alloc, content, index)
//!     }
//! }
//! ```
//!
//! `Stored::new(Law::Upper, Counted { calls })` is then proved to keep its law where it is made.
#![tactic(auto)]

mod builtin;
mod fault;
mod handler;
mod law;
mod laws;
mod routes;
mod stored;

pub use fault::RouteFault;
pub use handler::Handler;
pub use law::{Law, Produced};
pub use laws::{a_finish_is_final, routes_are_found_by_name_and_kind};
pub use routes::Routes;
pub use stored::Stored;
