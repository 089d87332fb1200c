//! RESUME: the client goes on with a session (RSocket 1.0, "RESUME Frame (0x0D)").
//!
//! | type | flags | stream | fields after the header |
//! |---|---|---|---|
//! | 0x0d | | 0 | major and minor of 16 bits; a token after its length of 16 bits; last received server position and first available client position of 63 bits |

ghost use Rattle.std.specs.Prelude.{◌≡◌, ◌+◌, ◌<◌, ◌≤◌, ◌^◌, ◌++◌, ◌↔◌, IsTrue, length, vec_len, vec_capacity};
ghost use Rattle.std.specs.Result.{result_map_both};
ghost use Rattle.rs_frame.specs.Reading.{as_resume, resume_at};
ghost use Rattle.rs_frame.specs.Spelling.{FieldsFit, body_of};
ghost use Rattle.rs_frame.specs.Views.{Shows, resume_view};
ghost use Rattle.rs_frame.specs.declared.frame.Frame.{Frame};

use crate::cursor::{is_63, put_counted, put_u16, put_u64, u64_at};
use crate::fault::FrameFault;
use crate::frame::Resume;
use crate::frame_ref::{FrameRef, ResumeRef};
use crate::header::Header;
use byteorder::{BigEndian, ByteOrder};

/// Bytes of the numbers of a RESUME: two versions and the length of the token, of 2 each, and two
/// positions of 8.
pub const RESUME_NUMBERS: usize = 22;

#[tactic(auto, unfolding(crate::specs::Reading::resume_at))]
fn fields_at(header: Header, body: &[u8]) -> Result<ResumeRef<'_>, FrameFault>
    ensures { result_map_both resume_view (λ fault. fault) result ≡
        resume_at header.stream body.now }
{
    if header.stream != 0 {
        return Err(FrameFault::WrongStream);
    }
    if body.len() < RESUME_NUMBERS {
        return Err(FrameFault::ShortBody);
    }
    let len = BigEndian::read_u16(&body[4..]) as usize;
    if body.len() > RESUME_NUMBERS + len {
        return Err(FrameFault::LongBody);
    }
    if body.len() < RESUME_NUMBERS + len {
        return Err(FrameFault::NameLength);
    }
    let server_position = u64_at(body, 6 + len);
    let client_position = u64_at(body, 14 + len);
    if server_position >= 0x8000_0000_0000_0000 || client_position >= 0x8000_0000_0000_0000 {
        return Err(FrameFault::HighBit);
    }
    let (_, rest) = body.split_at(6);
    let (token, _) = rest.split_at(len);
    Ok(ResumeRef {
        major: BigEndian::read_u16(body),
        minor: BigEndian::read_u16(&body[2..]),
        token,
        server_position,
        client_position,
    })
}

/// The RESUME with this header and these fields, or the least rule that is broken.
pub fn find(header: Header, body: &[u8]) -> Result<FrameRef<'_>, FrameFault>
    ensures { Shows result (as_resume (resume_at header.stream body.now)) }
{
    Ok(FrameRef::Resume(fields_at(header, body)?))
}

/// Whether each field is in its range.
pub fn fits(fields: &Resume) -> bool
    ensures { IsTrue result ↔ FieldsFit (Frame.Resume fields.now) }
{
    // The ranges of numbers are known where they are read.
    let _major = fields.major;
    let _minor = fields.minor;
    fields.token.len() < 0x1_0000 && is_63(fields.server_position) && is_63(fields.client_position)
}

/// Appends the fields, for which there is room.
pub fn write(out: &mut Vec<u8>, fields: &Resume)
    requires fits { FieldsFit (Frame.Resume fields.now) }
    requires has_room { vec_len out.old + length (body_of (Frame.Resume fields.now)) ≤
        vec_capacity out.old }
    ensures { out.new.items ≡ out.old.items ++ body_of (Frame.Resume fields.now) }
{
    put_u16(out, fields.major);
    put_u16(out, fields.minor);
    put_counted(out, &fields.token);
    put_u64(out, fields.server_position);
    put_u64(out, fields.client_position);
}
