//! Links in memory that a server serves.

mod races;
mod rows;
mod served;
mod slots;
mod tokens;
