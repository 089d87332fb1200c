//! Frames of a type that the standard does not name, kept as they are (RSocket 1.0, "Frame Types").
//!
//! | type | flags | stream | fields after the header |
//! |---|---|---|---|
//! | other | all ten are kept | any | bytes to the end |

ghost use Rattle.std.specs.Prelude.{◌≡◌, ◌<◌, ◌^◌, ◌↔◌, Ok, IsTrue};
ghost use Rattle.rs_frame.specs.Views.{Shows};
ghost use Rattle.rs_frame.specs.Table.{row_of};
ghost use Rattle.rs_frame.specs.declared.row.Row.TheVariants as rows;
ghost use Rattle.rs_frame.specs.declared.frame.Frame.{Frame};

use crate::cursor::is_31;
use crate::fault::FrameFault;
use crate::frame_ref::FrameRef;
use crate::header::Header;
use crate::row::Row;

/// The frame with this header and these bytes.
pub fn find(header: Header, body: &[u8]) -> Result<FrameRef<'_>, FrameFault>
    requires { header.number < 64 }
    ensures { Shows result (Ok (Frame.Unknown header.stream header.number header.flags body.now)) }
{
    Ok(FrameRef::Unknown {
        stream: header.stream,
        number: header.number as u8,
        flags: header.flags,
        rest: body,
    })
}

/// Whether each field is in its range, and the number is none of the standard's.
pub fn fits(stream: u32, number: u8, flags: u16) -> bool
    ensures { IsTrue result ↔ (stream < 2 ^ 31) × (number < 64) ×
        (row_of number ≡ rows.Unknown) × (flags < 1024) }
{
    is_31(stream) && number < 64 && Row::of(u16::from(number)) == Row::Unknown && flags < 1024
}
