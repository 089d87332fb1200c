//! The setting lines of a script.

ghost use Rattle.std.specs.Prelude.{◌≡◌, OnErr, OnOk, true};
ghost use Rattle.cable_script.specs.Setting.{is_for, leases, put, set_by};

use rs_wire::{Blob, OutOfMemory, Settings, Side};
use std::alloc::Global;

/// A setting of an end that a script may change. What stands in it is in its range.
#[derive(Clone, Copy, Debug)]
pub enum Setting {
    /// `keepalive V`: milliseconds between two KEEPALIVEs, 1 to 2,147,483,647.
    Keepalive(u32),
    /// `lifetime V`: milliseconds without a frame after which the peer counts as dead, 1 to
    /// 2,147,483,647.
    Lifetime(u32),
    /// `mtu V`: bytes of the largest frame that a request or a payload goes out in, 64 to 16,777,215; 0
    /// sets no limit.
    Mtu(u32),
    /// `hold V`: bytes of sent frames that are held for resumption, 0 to 1,073,741,824.
    Hold(u64),
    /// `slack V`: bytes that may be queued beyond twice `hold` and one largest frame, 0 to
    /// 2,147,483,647.
    Slack(u64),
    /// `maxin V`: bytes of the largest frame that is taken, 64 to 16,777,215.
    MaxIn(u32),
    /// `maxpayload V`: bytes of the largest message, 1 to 16,000,000.
    MaxPayload(u32),
    /// `streams V`: how many streams may be open at a time, 1 to 65,536.
    MaxStreams(u32),
    /// `lastid V`: the last stream id that the end uses, 1 to 2,147,483,647.
    LastId(u32),
    /// `top V`: the last position, in bytes, 0 to 9,223,372,036,854,775,807.
    Top(u64),
}

/// A line that changes settings. It stands before all action lines, and a later one replaces an
/// earlier one.
#[derive(Debug, Drop)]
pub enum SettingLine {
    /// `set NAME V`, `set client NAME V` or `set server NAME V`.
    Set {
        /// The end that it sets; `None` for both.
        side: Option<Side>,
        /// What it sets.
        setting: Setting,
    },
    /// `resume TOKEN`: both ends take part in resumption, and the client's token is TOKEN.
    Resume {
        /// TOKEN: 1 to [`MOST_TOKEN`](crate::MOST_TOKEN) bytes, each from `!` (0x21) to `~` (0x7e).
        token: Blob,
    },
    /// `lease`: both ends take part in leases; or `lease client`: the client alone does.
    Lease {
        /// Whether the server does, too.
        both: bool,
    },
}

impl Setting {
    fn put(self, settings: &mut Settings)
        ensures { settings.new ≡ put self settings.old }
    {
        match self {
            Setting::Keepalive(ms) => settings.keepalive_ms = ms,
            Setting::Lifetime(ms) => settings.lifetime_ms = ms,
            Setting::Mtu(bytes) => settings.mtu = bytes,
            Setting::Hold(bytes) => settings.hold = bytes,
            Setting::Slack(bytes) => settings.slack = bytes,
            Setting::MaxIn(bytes) => settings.max_in = bytes,
            Setting::MaxPayload(bytes) => settings.max_payload = bytes,
            Setting::MaxStreams(count) => settings.max_streams = count,
            Setting::LastId(id) => settings.last_id = id,
            Setting::Top(position) => settings.top_position = position,
        }
    }
}

// Whether a line for this end, or for both where it names none, is for that side.
fn is_for(end: Option<Side>, side: Side) -> bool
    ensures { result ≡ is_for end side }
{
    match end {
        Some(one) => one == side,
        None => true,
    }
}

// Whether this end takes part in leases, where both ends do or the client alone.
fn leases(both: bool, side: Side) -> bool
    ensures { result ≡ leases both side }
{
    match side {
        Side::Client => true,
        Side::Server => both,
    }
}

// Resumption at this end, with the token where it is the client.
fn resume(
    alloc: Global,
    token: &Blob,
    side: Side,
    settings: &mut Settings,
) -> Result<(), OutOfMemory>
    ensures ok { OnOk result
        (settings.new ≡ set_by side (SettingLine.Resume token.now) settings.old) }
    ensures err { OnErr result (settings.new ≡ settings.old) }
{
    if side == Side::Client {
        settings.token = token.copy(alloc)?;
    }
    settings.resume = true;
    Ok(())
}

impl SettingLine {
    /// Changes the settings of this end as the line says. Where memory runs out, they are as before.
    pub fn apply(
        &self,
        alloc: Global,
        side: Side,
        settings: &mut Settings,
    ) -> Result<(), OutOfMemory>
        ensures ok { OnOk result (settings.new ≡ set_by side self.now settings.old) }
        ensures err { OnErr result (settings.new ≡ settings.old) }
    {
        match self {
            SettingLine::Set { side: end, setting } => {
                if is_for(*end, side) {
                    setting.put(settings);
                }
                Ok(())
            }
            SettingLine::Resume { token } => resume(alloc, token, side, settings),
            SettingLine::Lease { both } => {
                settings.lease = leases(*both, side);
                Ok(())
            }
        }
    }
}
