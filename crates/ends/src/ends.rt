//! A list that is played in three ways at once.

ghost use Rattle.std.specs.Prelude.{◌≡◌};

use crate::end::{End, Way};
use crate::row::Row;
use anyhow::{Result, bail};
use cable_script::Script;
use rs_wire::{Checked, Settings, Side, check};
use std::alloc::{AllocError, Global};
use std::fmt::Write;
use tape::{Blank, Kept, Tape};

/// One end as three sessions, whose answers have to be the same; none of them between two lists. It
/// is closed at its end, since a function that drops a session is dear to prove.
pub struct Ends {
    /// Events come by `step`, and the tape keeps them.
    stepped: Option<End<Kept>>,
    /// They come by `bring`, and the tape keeps them.
    brought: Option<End<Kept>>,
    /// Calls come by `ask`, and the tape keeps nothing.
    asked: Option<End<Blank>>,
}

// Appends these lines, which have `, ` between two.
fn put_lines(text: &mut String, lines: &str) -> Result<(), AllocError> {
    for line in lines.split(", ") {
        writeln!(text, "{line}")?;
    }
    Ok(())
}

// The script of these lines.
fn script(alloc: Global, lines: &str) -> Result<Script> {
    let mut text = String::new(alloc);
    put_lines(&mut text, lines)?;
    Ok(Script::read(alloc, text.as_bytes())?)
}

// Changes settings by a script that has setting lines alone.
fn apply_all(alloc: Global, side: Side, script: &Script, settings: &mut Settings) -> Result<()> {
    if !script.lines().is_empty() {
        bail!("no setting");
    }
    for line in script.setting_lines() {
        line.apply(alloc, side, settings)?;
    }
    Ok(())
}

// Changes settings by these lines.
fn change(alloc: Global, side: Side, lines: &str, settings: &mut Settings) -> Result<()> {
    let script = script(alloc, lines)?;
    let applied = apply_all(alloc, side, &script, settings);
    drop(script);
    applied
}

// What an end is set to: the defaults, changed by the setting lines of a script with `, ` between two.
fn settings(alloc: Global, side: Side, lines: &str) -> Result<Settings> {
    let mut settings = Settings::usual(alloc, side)?;
    match change(alloc, side, lines, &mut settings) {
        Ok(()) => Ok(settings),
        Err(error) => {
            drop(settings);
            Err(error)
        }
    }
}

fn checked(alloc: Global, side: Side, lines: &str) -> Result<Checked> {
    match check(settings(alloc, side, lines)?) {
        Ok(checked) => Ok(checked),
        Err((settings, fault)) => {
            drop(settings);
            Err(fault.into())
        }
    }
}

// What the three gave.
struct Texts {
    stepped: String,
    brought: String,
    asked: String,
}

impl Texts {
    fn new(alloc: Global) -> Texts {
        Texts {
            stepped: String::new(alloc),
            brought: String::new(alloc),
            asked: String::new(alloc),
        }
    }

    fn let_go(self) {
        let Texts {
            stepped,
            brought,
            asked,
        } = self;
        drop(stepped);
        drop(brought);
        drop(asked);
    }
}

// Appends what the three gave: once, where it is the same.
fn put_agreed(out: &mut String, texts: &Texts) -> Result<(), AllocError> {
    out.push_str(&texts.stepped)?;
    if texts.brought != texts.stepped {
        write!(out, ", brought {}", texts.brought)?;
    }
    if texts.asked != texts.stepped {
        write!(out, ", asked {}", texts.asked)?;
    }
    Ok(())
}

// How many entries the tape of a session has that is done, where there is one.
fn count_at_end<T: Tape + Drop>(end: Option<End<T>>) -> u64 {
    match end {
        Some(end) => end.into_tape().count(),
        None => 0,
    }
}

// Sets up a session that is not begun, in the place of what there was.
fn set_up<T: Tape + Drop>(
    alloc: Global,
    end: &mut Option<End<T>>,
    settings: &Checked,
    tape: T,
) -> Result<()>
    requires empty { T.count tape ≡ 0 }
{
    let begun = End::new(alloc, settings, tape)?;
    count_at_end(end.replace(begun));
    Ok(())
}

impl Ends {
    /// No list is being played.
    pub fn new() -> Ends {
        Ends {
            stepped: None,
            brought: None,
            asked: None,
        }
    }

    /// Whether a list began and did not end.
    pub fn is_in_list(&self) -> bool {
        self.stepped.is_some() || self.brought.is_some() || self.asked.is_some()
    }

    // Sets up three sessions that are not begun.
    fn set_up_all(&mut self, alloc: Global, settings: &Checked) -> Result<()> {
        set_up(alloc, &mut self.stepped, settings, Kept::new(alloc))?;
        set_up(alloc, &mut self.brought, settings, Kept::new(alloc))?;
        set_up(alloc, &mut self.asked, settings, Blank::new())
    }

    /// Begins a list by sessions that are not begun, whose settings are changed by these lines.
    pub fn begin(&mut self, alloc: Global, side: Side, lines: &str) -> Result<()> {
        if self.is_in_list() {
            bail!("the list before has no end");
        }
        let settings = checked(alloc, side, lines)?;
        let begun = self.set_up_all(alloc, &settings);
        drop(settings);
        begun
    }

    // Appends what the three answer to a row.
    fn put_answers(
        &mut self,
        alloc: Global,
        row: &Row,
        texts: &mut Texts,
        out: &mut String,
    ) -> Result<()> {
        let (Some(stepped), Some(brought), Some(asked)) = (
            &mut self.stepped,
            &mut self.brought,
            &mut self.asked,
        ) else {
            bail!("no list");
        };
        stepped.answer(alloc, Way::Step, row, &mut texts.stepped)?;
        brought.answer(alloc, Way::Bring, row, &mut texts.brought)?;
        asked.answer(alloc, Way::Ask, row, &mut texts.asked)?;
        Ok(put_agreed(out, texts)?)
    }

    /// Appends what is answered to a row.
    pub fn answer(&mut self, alloc: Global, row: &Row, out: &mut String) -> Result<()> {
        let mut texts = Texts::new(alloc);
        let put = self.put_answers(alloc, row, &mut texts, out);
        texts.let_go();
        put
    }

    // Appends what the sessions show of themselves, and what is wrong where the two tapes that keep
    // their entries differ.
    fn put_shown(&self, texts: &mut Texts, out: &mut String) -> Result<()> {
        let (Some(stepped), Some(brought), Some(asked)) = (
            &self.stepped,
            &self.brought,
            &self.asked,
        ) else {
            bail!("no list");
        };
        stepped.put_shown(&mut texts.stepped)?;
        brought.put_shown(&mut texts.brought)?;
        asked.put_shown(&mut texts.asked)?;
        put_agreed(out, texts)?;
        if stepped.tape().entries() != brought.tape().entries() {
            out.push_str(", the tapes differ")?;
        }
        Ok(())
    }

    // Does so with three new texts.
    fn put_end(&self, alloc: Global, out: &mut String) -> Result<()> {
        let mut texts = Texts::new(alloc);
        let put = self.put_shown(&mut texts, out);
        texts.let_go();
        put
    }

    /// Ends a list: appends what the sessions show of themselves, and what is wrong with their tapes.
    pub fn end(&mut self, alloc: Global, out: &mut String) -> Result<()> {
        self.put_end(alloc, out)?;
        let stepped = count_at_end(self.stepped.take());
        let brought = count_at_end(self.brought.take());
        let asked = count_at_end(self.asked.take());
        if brought != stepped || asked != stepped {
            out.push_str(", the counts differ")?;
        }
        Ok(())
    }

    /// Ends what is being played.
    pub fn close(self) {
        let Ends {
            stepped,
            brought,
            asked,
        } = self;
        count_at_end(stepped);
        count_at_end(brought);
        count_at_end(asked);
    }
}
