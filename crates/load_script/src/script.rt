//! The script and its text.

ghost use Rattle.std.specs.Prelude.{◌≡◌, IfOk};
ghost use Rattle.cable_script.specs.Script.{IsScript};
ghost use Rattle.load_script.specs.Generated.{generated};

use crate::writing::put_script;
use cable_script::{Script, ScriptFault, script_laws};
use rs_wire::OutOfMemory;
use std::alloc::Global;

/// The text of the script of a seed.
pub fn generated_text(alloc: Global, seed: u32) -> Result<Vec<u8>, OutOfMemory>
    ensures { IfOk result (λ text. IsScript text.items (generated seed)) }
{
    let mut text = Vec::new(alloc);
    put_script(&mut text, seed)?;
    Ok(text)
}

/// The script of a seed.
pub fn generated(alloc: Global, seed: u32) -> Result<Script, OutOfMemory>
    ensures { IfOk result (λ script. script ≡ generated seed) }
{
    let text = generated_text(alloc, seed)?;
    script_laws();
    match Script::read(alloc, &text) {
        Ok(script) => Ok(script),
        Err(ScriptFault::OutOfMemory) => Err(OutOfMemory),
        Err(ScriptFault::Line(_)) => unreachable!(),
    }
}
