//! The words of a setting line.

ghost use Rattle.std.specs.Prelude.{◌≡◌, ◌++◌, ◌∷◌, ℕ, Bool, List, Option, codes, IfNone, IfOk, IfSome, IsTrue, decimal};
ghost use Rattle.std.specs.Char.{is_ascii_graphic};
ghost use Rattle.std.specs.List.{list_all};
ghost use Rattle.rs_wire.specs.Settings.{IsIn};
ghost use Rattle.cable_script.specs.declared.setting.Setting.{Setting as Meant};
ghost use Rattle.cable_script.specs.declared.setting.SettingLine.{SettingLine as Written};
ghost use Rattle.cable_script.specs.Setting.{IsMtu, IsSetting, IsSettingLine, IsToken, end_words, setting_text, setting_words};
ghost use Rattle.cable_script.specs.Words.{setting_line_of};

use crate::MOST_TOKEN;
use crate::setting::{Setting, SettingLine};
use plain_text::read_number;
use rs_wire::{Blob, OutOfMemory, Side};
use std::alloc::Global;

/// The words of a setting line, where they are those of one.
#[derive(Clone, Copy)]
pub(crate) enum SettingWords<'a> {
    Set {
        side: Option<Side>,
        setting: Setting,
    },
    Resume(&'a [u8]),
    Lease {
        both: bool,
    },
}

impl SettingWords<'_> {
    /// The setting line of these words.
    pub(crate) fn line(&self, alloc: Global) -> Result<SettingLine, OutOfMemory>
        ensures { IfOk result (λ line. line ≡ setting_line_of self.now) }
    {
        match self {
            SettingWords::Set { side, setting } => Ok(SettingLine::Set {
                side: *side,
                setting: *setting,
            }),
            SettingWords::Resume(token) => Ok(SettingLine::Resume {
                token: Blob::from_slice(alloc, token)?,
            }),
            SettingWords::Lease { both } => Ok(SettingLine::Lease { both: *both }),
        }
    }
}

// The value after this name and its space, where it is in the range.
fn valued(words: &[u8], name: &[u8], low: u64, high: u64) -> Option<u64>
    ensures some { IfSome result (λ n. (words.now ≡ name.now ++ decimal n) × IsIn low n high) }
    ensures none { IfNone result ((n : ℕ) → IsIn low n high → ¬ (words.now ≡ name.now ++ decimal n)) }
{
    let value = words.strip_prefix(name)?;
    read_number(value, low, high)
}

// The mtu of these words: none at all, or one that a frame fits.
fn mtu_of(words: &[u8]) -> Option<u64>
    ensures some { IfSome result (λ n. (words.now ≡ codes "mtu " ++ decimal n) × IsMtu n) }
    ensures none { IfNone result ((n : ℕ) → IsMtu n → ¬ (words.now ≡ codes "mtu " ++ decimal n)) }
{
    if let Some(none) = valued(words, b"mtu ", 0, 0) {
        return Some(none);
    }
    valued(words, b"mtu ", 64, 16_777_215)
}

// The setting of these words. `None` exactly where they are those of none.
fn setting_of(words: &[u8]) -> Option<Setting>
    ensures some { IfSome result (λ s. (words.now ≡ setting_words s) × IsSetting s) }
    ensures none { IfNone result ((s : Meant) → IsSetting s → ¬ (words.now ≡ setting_words s)) }
{
    if let Some(ms) = valued(words, b"keepalive ", 1, 2_147_483_647) {
        return Some(Setting::Keepalive(ms as u32));
    }
    if let Some(ms) = valued(words, b"lifetime ", 1, 2_147_483_647) {
        return Some(Setting::Lifetime(ms as u32));
    }
    if let Some(bytes) = mtu_of(words) {
        return Some(Setting::Mtu(bytes as u32));
    }
    if let Some(bytes) = valued(words, b"hold ", 0, 1_073_741_824) {
        return Some(Setting::Hold(bytes));
    }
    if let Some(bytes) = valued(words, b"slack ", 0, 2_147_483_647) {
        return Some(Setting::Slack(bytes));
    }
    if let Some(bytes) = valued(words, b"maxin ", 64, 16_777_215) {
        return Some(Setting::MaxIn(bytes as u32));
    }
    if let Some(bytes) = valued(words, b"maxpayload ", 1, 16_000_000) {
        return Some(Setting::MaxPayload(bytes as u32));
    }
    if let Some(count) = valued(words, b"streams ", 1, 65_536) {
        return Some(Setting::MaxStreams(count as u32));
    }
    if let Some(id) = valued(words, b"lastid ", 1, 2_147_483_647) {
        return Some(Setting::LastId(id as u32));
    }
    let position = valued(words, b"top ", 0, 9_223_372_036_854_775_807)?;
    Some(Setting::Top(position))
}

// What follows `set `, and the word of an end where there is one.
fn for_side(side: Option<Side>, words: &[u8]) -> Option<SettingWords<'_>>
    ensures some { IfSome result (λ w.
        (codes "set " ++ (end_words side ++ words.now) ≡ setting_text (setting_line_of w)) ×
        IsSettingLine (setting_line_of w)) }
    ensures none { IfNone result ((s : Meant) → IsSetting s → ¬ (words.now ≡ setting_words s)) }
{
    let setting = setting_of(words)?;
    Some(SettingWords::Set { side, setting })
}

// `set NAME V`, `set client NAME V` or `set server NAME V`.
fn set_words(text: &[u8]) -> Option<SettingWords<'_>>
    ensures some { IfSome result (λ w. (text.now ≡ setting_text (setting_line_of w)) ×
        IsSettingLine (setting_line_of w)) }
    ensures none { IfNone result ((end : Option Side) (s : Meant) → IsSetting s →
        ¬ (text.now ≡ setting_text (SettingLine.Set end s))) }
{
    let rest = text.strip_prefix(b"set ")?;
    if let Some(words) = rest.strip_prefix(b"client ") {
        return for_side(Some(Side::Client), words);
    }
    if let Some(words) = rest.strip_prefix(b"server ") {
        return for_side(Some(Side::Server), words);
    }
    for_side(None, rest)
}

fn is_graphic(word: &[u8]) -> bool
    ensures { result ≡ list_all is_ascii_graphic word.now }
{
    word.iter().all(|byte| byte.is_ascii_graphic())
}

fn is_token(word: &[u8]) -> bool
    ensures right { IsTrue result → IsToken word.now }
    ensures only { IsToken word.now → IsTrue result }
{
    !word.is_empty() && word.len() <= MOST_TOKEN && is_graphic(word)
}

// `resume TOKEN`.
fn resume_words(text: &[u8]) -> Option<SettingWords<'_>>
    ensures some { IfSome result (λ w. (text.now ≡ setting_text (setting_line_of w)) ×
        IsSettingLine (setting_line_of w)) }
    ensures none { IfNone result ((token : List ℕ) → IsToken token →
        ¬ (text.now ≡ setting_text (SettingLine.Resume token))) }
{
    let token = text.strip_prefix(b"resume ")?;
    if is_token(token) {
        return Some(SettingWords::Resume(token));
    }
    None
}

// `lease` or `lease client`.
fn lease_words(text: &[u8]) -> Option<SettingWords<'_>>
    ensures some { IfSome result (λ w. (text.now ≡ setting_text (setting_line_of w)) ×
        IsSettingLine (setting_line_of w)) }
    ensures none { IfNone result ((both : Bool) →
        ¬ (text.now ≡ setting_text (SettingLine.Lease both))) }
{
    if text == b"lease".as_slice() {
        return Some(SettingWords::Lease { both: true });
    }
    if text == b"lease client".as_slice() {
        return Some(SettingWords::Lease { both: false });
    }
    None
}

/// The words of a setting line. `None` exactly where the text is that of none.
pub(crate) fn setting_words_of(text: &[u8]) -> Option<SettingWords<'_>>
    ensures some { IfSome result (λ w. (text.now ≡ setting_text (setting_line_of w)) ×
        IsSettingLine (setting_line_of w)) }
    ensures none { IfNone result ((l : Written) → IsSettingLine l → ¬ (text.now ≡ setting_text l)) }
{
    if let Some(words) = set_words(text) {
        return Some(words);
    }
    if let Some(words) = resume_words(text) {
        return Some(words);
    }
    lease_words(text)
}
