//! Reading a script.

ghost use Rattle.std.specs.Prelude.{◌≡◌, ◌≤◌, ◌∷◌, ◌++◌, [], List, length, IfErr, IfNone, IfOk, IfSome, IsOkAnd, ℕ, false};
ghost use Rattle.std.specs.List.{AllByRecursion};
ghost use Rattle.rs_wire.specs.Settings.{IsChecked};
ghost use Rattle.cable_script.specs.declared.line.Line.{Line as Spoken};
ghost use Rattle.cable_script.specs.Line.{IsLine, text_of};
ghost use Rattle.cable_script.specs.Script.{AreRight as AreScripted, IsFault, IsScript, WereRead, is_passed};
ghost use Rattle.cable_script.specs.Scripted.{and_line, and_setting};
ghost use Rattle.cable_script.specs.Setting.{IsSettingLine, settings_by};
ghost use Rattle.cable_script.specs.Words.{AreRight, setting_line_of, text_of_words};

use crate::MOST_SCRIPT;
use crate::line::Line;
use crate::setting::SettingLine;
use crate::setting_words::{SettingWords, setting_words_of};
use crate::words::{Words, words_of};
use plain_text::first_line;
use rs_wire::{Checked, OutOfMemory, Settings, Side, check};
use std::alloc::Global;
use std::marker::Model;
use thiserror::Error;

/// A script. Contracts see its settings and its lines.
#[derive(Debug, Drop)]
pub struct Script {
    settings: Vec<SettingLine>,
    lines: Vec<Line>,
}

impl Model for Script {
    ghost use Rattle.std.specs.List.{AllByRecursion};
    ghost use Rattle.cable_script.specs.Line.{IsLine};
    ghost use Rattle.cable_script.specs.Setting.{IsSettingLine};
    ghost use Rattle.cable_script.specs.Scripted.{Scripted};

    ghost Value = { Scripted };

    ghost view = { λ s. record { settings = s.settings.items; lines = s.lines.items } };

    ghost invariant = { λ s. AllByRecursion IsSettingLine s.settings.items ×
        AllByRecursion IsLine s.lines.items };
}

/// Why a text is no script.
#[derive(Clone, Copy, Debug, PartialEq, Eq, Error)]
pub enum ScriptFault {
    /// The number, from 1, of the first line that is outside of the grammar; or 0, where the text
    /// has more than 16,777,216 bytes.
    #[error("line {0} is not of the script's grammar, or 0: the script is too long")]
    Line(u32),
    /// There was not enough memory. Nothing else is wrong.
    #[error("out of memory")]
    OutOfMemory,
}

// What was read: a script, where there was memory for it.
#[derive(Drop)]
struct Reading {
    script: Result<Script, OutOfMemory>,
    // Whether there is an action line in it.
    acted: bool,
}

// Whether the line is empty, or a comment.
fn is_passed(line: &[u8]) -> bool
    ensures { result ≡ is_passed line.now }
{
    match line.first() {
        None => true,
        Some(byte) => *byte == b'#',
    }
}

// The script and one more action line, where there is memory for all.
fn with_line(
    alloc: Global,
    script: Result<Script, OutOfMemory>,
    words: &Words<'_>,
) -> Result<Script, OutOfMemory>
    requires { AreRight words.now }
    ensures { IfOk result (λ new. IsOkAnd script (λ old. (line : Spoken) × IsLine line ×
        (text_of_words words.now ≡ text_of line) × (new ≡ and_line line old))) }
{
    let mut script = script?;
    let line = words.line(alloc)?;
    script.lines.push(line)?;
    Ok(script)
}

// The script and one more setting line, where there is memory for all.
fn with_setting(
    alloc: Global,
    script: Result<Script, OutOfMemory>,
    words: &SettingWords<'_>,
) -> Result<Script, OutOfMemory>
    requires { IsSettingLine (setting_line_of words.now) }
    ensures { IfOk result (λ new. IsOkAnd script (λ old.
        new ≡ and_setting (setting_line_of words.now) old)) }
{
    let mut script = script?;
    let setting = words.line(alloc)?;
    script.settings.push(setting)?;
    Ok(script)
}

// What was read, and this text after it. `None` exactly where the text is wrong there.
fn with_text(alloc: Global, reading: Reading, text: &[u8]) -> Option<Reading>
    ensures read { IfSome result (λ more. (texts : List (List ℕ)) →
        WereRead texts reading.acted reading.script →
        WereRead (texts ++ text.now ∷ []) more.acted more.script) }
    ensures wrong { IfNone result ((texts : List (List ℕ)) →
        WereRead texts reading.acted reading.script → ¬ (AreScripted (texts ++ text.now ∷ []))) }
{
    if is_passed(text) {
        return Some(reading);
    }
    if let Some(words) = words_of(text) {
        return Some(Reading {
            script: with_line(alloc, reading.script, &words),
            acted: true,
        });
    }
    if reading.acted {
        return None;
    }
    let words = setting_words_of(text)?;
    Some(Reading {
        script: with_setting(alloc, reading.script, &words),
        acted: false,
    })
}

// Reads all lines, so that a wrong one is found also where there is no memory for those before it.
fn read_lines(alloc: Global, text: &[u8]) -> Result<Script, ScriptFault>
    requires { length text.now ≤ MOST_SCRIPT }
    ensures ok { IfOk result (IsScript text.now) }
    ensures err { IfErr result (IsFault text.now) }
{
    let mut reading = Reading {
        script: Ok(Script {
            settings: Vec::new(alloc),
            lines: Vec::new(alloc),
        }),
        acted: false,
    };
    let mut number = 0;
    let mut rest = text;
    while !rest.is_empty() {
        let (line, after) = first_line(rest);
        number += 1;
        let Some(more) = with_text(alloc, reading, line) else {
            return Err(ScriptFault::Line(number));
        };
        reading = more;
        rest = after;
    }
    let Reading { script, .. } = reading;
    match script {
        Ok(script) => Ok(script),
        Err(OutOfMemory) => Err(ScriptFault::OutOfMemory),
    }
}

impl Script {
    /// Reads a script: lines that are ended by a line feed, which may be missing after the last. Empty
    /// lines, and lines that begin with `#`, are passed over. No setting line stands after an action
    /// line.
    pub fn read(alloc: Global, text: &[u8]) -> Result<Script, ScriptFault>
        ensures ok { IfOk result (IsScript text.now) }
        ensures err { IfErr result (IsFault text.now) }
    {
        if text.len() > MOST_SCRIPT {
            return Err(ScriptFault::Line(0));
        }
        read_lines(alloc, text)
    }

    /// The setting lines, in their order.
    pub fn setting_lines(&self) -> &[SettingLine]
        ensures value { result.now ≡ self.now.settings }
        ensures right { AllByRecursion IsSettingLine self.now.settings }
    {
        self.settings.as_slice()
    }

    /// The settings of this end: the usual ones of its side, changed by the setting lines.
    pub fn settings(&self, alloc: Global, side: Side) -> Result<Checked, OutOfMemory>
        ensures settings { IfOk result (λ c. c ≡ settings_by side self.now.settings) }
        ensures checked { IfOk result IsChecked }
    {
        let mut settings = Settings::usual(alloc, side)?;
        for line in self.setting_lines() {
            line.apply(alloc, side, &mut settings)?;
        }
        match check(settings) {
            Ok(settings) => Ok(settings),
            Err(_) => unreachable!(),
        }
    }

    /// The action lines, in their order.
    pub fn lines(&self) -> &[Line]
        ensures value { result.now ≡ self.now.lines }
        ensures right { AllByRecursion IsLine self.now.lines }
    {
        self.lines.as_slice()
    }
}
