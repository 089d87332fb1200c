//! What the words ask for.

ghost use Rattle.std.specs.Prelude.{◌≡◌, Err, IfNone, IfOk, IfSome, Some, map, slice_get};
ghost use Rattle.std.specs.List.{All};
ghost use Rattle.std.specs.Str.{IsUtf8};
ghost use Rattle.command_line.specs.Asked.{AsksFor, name_word};
ghost use Rattle.command_line.specs.declared.task.Asked.{Asked};
ghost use Rattle.command_line.specs.declared.task.Name.{Name};

use crate::call::call;
use crate::call_task::CallTask;
use crate::fault::WordsFault;
use crate::flagged::flagged;
use crate::load::load;
use crate::serve::serve;
use crate::serve_task::ServeTask;
use crate::texts::texts;
use rs_wire::Blob;
use std::alloc::Global;

/// A task that reads the input.
#[derive(Clone, Copy, Debug, PartialEq, Eq)]
pub enum Task {
    /// `cable`: a script is played between a client and a server.
    Cable {
        /// `--threads`: by threads, and else line by line.
        threads: bool,
    },
    /// `frames`: a capture of frames is written as lines.
    Frames {
        /// `--back`: the other way round, lines are written as a capture.
        back: bool,
    },
}

/// What the words ask for.
#[derive(Debug, Drop)]
pub enum Asked {
    /// A task that reads the input.
    Task(Task),
    /// `call`: one call of a server.
    Call(CallTask),
    /// `load`: a large run of the cable.
    Load {
        /// The seed of its script.
        seed: u32,
    },
    /// `serve`: a server.
    Serve(ServeTask),
}

// The commands, by their names.
#[derive(Clone, Copy)]
enum Name {
    Cable,
    Frames,
    Call,
    Load,
    Serve,
}

// The command that the first word names.
fn named<'a>(words: &'a [&'a str]) -> Option<Name>
    ensures is { IfSome result (λ n. slice_get (map (λ w. w.now) words.now) 0 ≡ Some (name_word n)) }
    ensures none { IfNone result ((n : Name) →
        ¬ (slice_get (map (λ w. w.now) words.now) 0 ≡ Some (name_word n))) }
{
    match words.first() {
        Some(&"cable") => Some(Name::Cable),
        Some(&"frames") => Some(Name::Frames),
        Some(&"call") => Some(Name::Call),
        Some(&"load") => Some(Name::Load),
        Some(&"serve") => Some(Name::Serve),
        _ => None,
    }
}

fn read_texts<'a>(alloc: Global, words: &'a [&'a str]) -> Result<Asked, WordsFault>
    requires { All IsUtf8 (map (λ w. w.now) words.now) }
    ensures asked { IfOk result (AsksFor (map (λ w. w.now) words.entry.now)) }
    ensures usage { result ≡ Err WordsFault.Usage → (asked : Asked) →
        ¬ (AsksFor (map (λ w. w.now) words.entry.now) asked) }
{
    match named(words) {
        Some(Name::Cable) => {
            let threads = flagged(alloc, "cable", "threads", words)?;
            Ok(Asked::Task(Task::Cable { threads }))
        }
        Some(Name::Frames) => {
            let back = flagged(alloc, "frames", "back", words)?;
            Ok(Asked::Task(Task::Frames { back }))
        }
        Some(Name::Call) => {
            let task = call(alloc, words)?;
            Ok(Asked::Call(task))
        }
        Some(Name::Load) => {
            let seed = load(alloc, words)?;
            Ok(Asked::Load { seed })
        }
        Some(Name::Serve) => {
            let task = serve(alloc, words)?;
            Ok(Asked::Serve(task))
        }
        None => Err(WordsFault::Usage),
    }
}

/// Reads the words after the program's name. [`WordsFault::Usage`] comes only where they ask for
/// nothing, and each other answer only where they ask for it.
pub fn read_words(alloc: Global, words: &[Blob]) -> Result<Asked, WordsFault>
    ensures asked { IfOk result (AsksFor words.now) }
    ensures usage { result ≡ Err WordsFault.Usage → (asked : Asked) → ¬ (AsksFor words.now asked) }
{
    let texts = texts(alloc, words)?;
    read_texts(alloc, texts.as_slice())
}
