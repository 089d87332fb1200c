//! Texts of scripts of the cable and what they are read as, and words of the command line. They stand
//! above `cable_script` and `command_line`, since a crate with tests is proved once more with them.
#![tactic(auto)]

#[cfg(test)]
mod tests;
