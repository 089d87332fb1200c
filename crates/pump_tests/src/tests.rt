//! What a turn of a pump comes to.

mod ends;
mod gives;
mod halves;
mod hostile;
mod results;
