//! Trials of what threads share: a bell, a lock, and a session. Those of a session are written for
//! any tape, since a proof is dearer the more types a function knows.

mod answers;
mod bells;
mod calls;
mod ends;
mod joins;
mod locks;
mod made;
mod refusals;
mod ringing;
mod streams;
mod threads;
mod tokens;
mod ways;
