//! What stands in the list under the lock.

use rs_wire::Settings;
use tape::Entry;

/// What stands in the list under the lock, of which contracts speak alone: no value of it is made.
/// The first line has what never changes, so that whoever comes to a turn knows that it is still so.
pub enum Line {
    /// The first line: how the session began.
    Began {
        /// What the session is set to.
        settings: Settings,
        /// Whether its tape shows its entries.
        tells: bool,
    },
    /// One entry of the session.
    Noted(Entry),
}
