//! How the end of a run is told.

ghost use Rattle.std.specs.Prelude.{◌≡◌, ◌⊎◌, ◌++◌, OnOk};
ghost use Rattle.rsocket_output.specs.Written.{CutOff, Writes};
ghost use Rattle.rsocket_run.specs.Run.{bad_frame_line, number_of_bad, wrong_line};
ghost use Rattle.rsocket_run.specs.Stops.{TellsStop};

use crate::stop::Stop;
use capture::BadFrame;
use outside::Sink;
use plain_text::write_number;
use rs_frame::rule_number;
use rs_wire::OutOfMemory;
use rsocket_output::{insist, say, tell_out_of_memory};

fn put_wrong_line(text: &mut Vec<u8>, number: u32) -> Result<(), OutOfMemory>
    ensures { OnOk result (text.new.items ≡ text.old.items ++ wrong_line number) }
{
    text.extend_from_slice(b"rsocket: script line ")?;
    write_number(text, number.into())?;
    text.push(b'\n')?;
    Ok(())
}

// The number in the line of a frame that can't be read.
fn number_of_bad(bad: BadFrame) -> u8
    ensures { result ≡ number_of_bad bad }
{
    match bad {
        BadFrame::Breaks(fault) => rule_number(fault).unwrap_or(0),
        BadFrame::NotWhole => 0,
    }
}

fn put_bad_frame(text: &mut Vec<u8>, place: u32, bad: BadFrame) -> Result<(), OutOfMemory>
    ensures { OnOk result (text.new.items ≡ text.old.items ++ bad_frame_line place bad) }
{
    text.extend_from_slice(b"rsocket: frame at ")?;
    write_number(text, place.into())?;
    text.extend_from_slice(b" rule ")?;
    write_number(text, number_of_bad(bad).into())?;
    text.push(b'\n')?;
    Ok(())
}

/// Ends a run whose work is done: writes its output. The status.
pub fn tell_done<O: Sink>(output: &mut O, text: &[u8]) -> u8
    ensures { ((result ≡ 0) × Writes text.now (O.shown output.old) (O.shown output.new)) ⊎
        ((result ≡ 5) × CutOff text.now (O.shown output.old) (O.shown output.new)) }
{
    say(output, text, 0)
}

/// Ends a run that stopped: writes the text that it has by then, and the line that tells why. The
/// status is that of the stop, or 5 where a write failed, but 2 and 6 stay; or 6 where memory runs
/// out.
pub fn tell_stop<O: Sink>(output: &mut O, text: &mut Vec<u8>, stop: Stop) -> u8
    ensures { TellsStop stop text.old.items (O.shown output.old) (O.shown output.new) result }
{
    match stop {
        Stop::Usage => insist(output, b"rsocket: usage\n", 2),
        Stop::WrongLine(number) => match put_wrong_line(text, number) {
            Ok(()) => say(output, text, 3),
            Err(OutOfMemory) => tell_out_of_memory(output),
        },
        Stop::ReadFault => say(output, b"rsocket: read fault\n", 4),
        Stop::OutOfMemory => tell_out_of_memory(output),
        Stop::BadFrame { place, bad } => match put_bad_frame(text, place, bad) {
            Ok(()) => say(output, text, 11),
            Err(OutOfMemory) => tell_out_of_memory(output),
        },
    }
}
