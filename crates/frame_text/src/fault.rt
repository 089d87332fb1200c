//! What is wrong with a line.

ghost use Rattle.std.specs.Prelude.{◌≡◌};
ghost use Rattle.frame_text.specs.declared.fault.TextFault.TheVariants as faults;

use rs_wire::OutOfMemory;
use thiserror::Error;

/// Why a line was not read as a frame: the first wrong word, tested from the left; then its length;
/// and then memory. A place counts the words of the line from 0, the name of the type.
#[derive(Clone, Copy, Debug, PartialEq, Eq, Error)]
pub enum TextFault {
    /// The word at this place is missing, or stands there though the line ends before it, or is
    /// none of the names or flags that may stand there, or is a token of SETUP that does not fit
    /// its flag R.
    #[error("word {0} is none that may stand there")]
    BadWord(u32),
    /// The word at this place is not the decimal text of a number, or of none in the field's range;
    /// a stream that does not fit the type is one of these.
    #[error("word {0} is no number in the range of its field")]
    BadNumber(u32),
    /// The word at this place is not the text of bytes, or of more than the field allows.
    #[error("word {0} is not the text of bytes that fit its field")]
    BadHex(u32),
    /// Every word is right, and the frame has this many bytes, above 16,777,215.
    #[error("the frame would have {0} bytes, more than 16,777,215")]
    TooLong(u64),
    /// There was no memory for the frame: nothing is wrong with the line.
    #[error("out of memory")]
    OutOfMemory,
}

impl From<OutOfMemory> for TextFault {
    ghost from_gives = { λ _ e. e ≡ faults.OutOfMemory };

    fn from(_error: OutOfMemory) -> TextFault {
        TextFault::OutOfMemory
    }
}

/// The first wrong word of a line, at its place.
#[derive(Clone, Copy, Debug, PartialEq, Eq)]
pub(crate) enum Wrong {
    Word(u32),
    Number(u32),
    Hex(u32),
}
