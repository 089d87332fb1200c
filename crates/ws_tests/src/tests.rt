//! Links over streams in memory.

mod coming;
mod large;
mod pumps;
mod sending;
mod stream;
mod two_ends;
