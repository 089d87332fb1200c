use super::{Row, fault, is_read_so, script_of};
use cable_script::ScriptFault;
use rs_wire::{Checked, Settings, Side};
use std::alloc::Global;
use std::process::Abort;

const READ: &[Row] = &[
    Row {
        shows: "setting lines are read in their order",
        text: b"set hold 0\n\n# up 1\nset client maxin 64\nset server streams 65536\nup 1",
        read: "\
Set { side: None, setting: Hold(0) }
Set { side: Some(Client), setting: MaxIn(64) }
Set { side: Some(Server), setting: MaxStreams(65536) }
Up { most: Amount { number: 1 } }
",
    },
    Row {
        shows: "a token is its bytes, and stands among other settings",
        text: b"resume !~\nset hold 0\nresume #\nopen",
        read: "\
Resume { token: Blob { bytes: [33, 126] } }
Set { side: None, setting: Hold(0) }
Resume { token: Blob { bytes: [35] } }
Open
",
    },
    Row {
        shows: "leases are of both ends, or of the client",
        text: b"lease\nlease client\ntick 0",
        read: "\
Lease { both: true }
Lease { both: false }
Tick { now: 0 }
",
    },
];

#[test]
fn setting_lines_are_read_in_their_order(rt: HostRuntime) {
    for row in READ {
        assert!(rt; is_read_so(&rt, rt.alloc(), row), "{}", row.shows);
    }
}

/// Setting lines, and what they make of four settings of an end.
#[derive(Clone, Copy)]
struct Made {
    /// What the row shows.
    shows: &'static str,
    text: &'static [u8],
    side: Side,
    resume: bool,
    lease: bool,
    token: &'static [u8],
    hold: u64,
}

const MADE: &[Made] = &[
    Made {
        shows: "without a line an end does not resume",
        text: b"",
        side: Side::Client,
        resume: false,
        lease: false,
        token: b"",
        hold: 1_048_576,
    },
    Made {
        shows: "a client resumes with the token",
        text: b"set hold 10\nresume tok1",
        side: Side::Client,
        resume: true,
        lease: false,
        token: b"tok1",
        hold: 10,
    },
    Made {
        shows: "a server resumes without a token",
        text: b"resume tok1\nset hold 10",
        side: Side::Server,
        resume: true,
        lease: false,
        token: b"",
        hold: 10,
    },
    Made {
        shows: "a later token replaces an earlier one",
        text: b"resume tok1\nresume t2",
        side: Side::Client,
        resume: true,
        lease: false,
        token: b"t2",
        hold: 1_048_576,
    },
    Made {
        shows: "a setting of the other end changes nothing",
        text: b"set server hold 1",
        side: Side::Client,
        resume: false,
        lease: false,
        token: b"",
        hold: 1_048_576,
    },
    Made {
        shows: "a client takes part in leases",
        text: b"lease\nset hold 10",
        side: Side::Client,
        resume: false,
        lease: true,
        token: b"",
        hold: 10,
    },
    Made {
        shows: "a server takes part in leases",
        text: b"lease",
        side: Side::Server,
        resume: false,
        lease: true,
        token: b"",
        hold: 1_048_576,
    },
    Made {
        shows: "a client takes part in leases alone",
        text: b"lease client",
        side: Side::Client,
        resume: false,
        lease: true,
        token: b"",
        hold: 1_048_576,
    },
    Made {
        shows: "a server takes no part where the client does alone, after a line for both",
        text: b"lease\nlease client",
        side: Side::Server,
        resume: false,
        lease: false,
        token: b"",
        hold: 1_048_576,
    },
    Made {
        shows: "a server takes part after a later line for both",
        text: b"lease client\nresume tok1\nlease",
        side: Side::Server,
        resume: true,
        lease: true,
        token: b"",
        hold: 1_048_576,
    },
];

// The settings that the lines of a text make for a side.
fn settings_of<R: Abort>(rt: &R, alloc: Global, text: &[u8], side: Side) -> Checked {
    let script = script_of(rt, alloc, text);
    let settings = script.settings(alloc, side).expect(rt, "there is memory");
    drop(script);
    settings
}

// Whether the settings are what the row says.
fn are_so(settings: &Settings, row: &Made) -> bool {
    settings.resume == row.resume
        && settings.lease == row.lease
        && settings.token.as_slice() == row.token
        && settings.hold == row.hold
}

/// Whether the lines make of the settings what the row says.
fn is_made_so<R: Abort>(rt: &R, alloc: Global, row: &Made) -> bool {
    let checked = settings_of(rt, alloc, row.text, row.side);
    let is_so = are_so(checked.settings(), row);
    drop(checked);
    is_so
}

#[test]
fn setting_lines_make_such_settings(rt: HostRuntime) {
    for row in MADE {
        assert!(rt; is_made_so(&rt, rt.alloc(), row), "{}", row.shows);
    }
}

/// Texts, and the wrong line of each, where there is one.
const FAULTS: &[(&[u8], Option<ScriptFault>)] = &[
    // The edges of ranges.
    (b"set keepalive 1", None),
    (b"set keepalive 2147483647", None),
    (b"set lifetime 2147483647", None),
    (b"set mtu 0", None),
    (b"set mtu 64", None),
    (b"set mtu 16777215", None),
    (b"set hold 1073741824", None),
    (b"set slack 2147483647", None),
    (b"set maxin 16777215", None),
    (b"set maxpayload 16000000", None),
    (b"set streams 1", None),
    (b"set lastid 2147483647", None),
    (b"set top 9223372036854775807", None),
    // Wrong setting lines.
    (b"set keepalive 0", Some(ScriptFault::Line(1))),
    (b"set lifetime 2147483648", Some(ScriptFault::Line(1))),
    (b"set hold 1073741825", Some(ScriptFault::Line(1))),
    (b"set slack 2147483648", Some(ScriptFault::Line(1))),
    (b"set maxin 63", Some(ScriptFault::Line(1))),
    (b"set maxin 16777216", Some(ScriptFault::Line(1))),
    (b"set maxpayload 16000001", Some(ScriptFault::Line(1))),
    (b"set streams 0", Some(ScriptFault::Line(1))),
    (b"set streams 65537", Some(ScriptFault::Line(1))),
    (b"set lastid 0", Some(ScriptFault::Line(1))),
    (b"set top 9223372036854775808", Some(ScriptFault::Line(1))),
    (b"set hold 01", Some(ScriptFault::Line(1))),
    (b"set hold +1", Some(ScriptFault::Line(1))),
    (b"set hold", Some(ScriptFault::Line(1))),
    (b"set hold ", Some(ScriptFault::Line(1))),
    (b"set  hold 1", Some(ScriptFault::Line(1))),
    (b"set hold 1 ", Some(ScriptFault::Line(1))),
    (b"set mtu 1", Some(ScriptFault::Line(1))),
    (b"set mtu 63", Some(ScriptFault::Line(1))),
    (b"set mtu 16777216", Some(ScriptFault::Line(1))),
    (b"set peer hold 1", Some(ScriptFault::Line(1))),
    (b"set client", Some(ScriptFault::Line(1))),
    (b"set client server hold 1", Some(ScriptFault::Line(1))),
    (b"set", Some(ScriptFault::Line(1))),
    // The edges of tokens.
    (b"resume !", None),
    (b"resume ~", None),
    (b"resume #~!-:", None),
    (
        b"resume 0123456789abcdef0123456789abcdef0123456789abcdef0123456789abcdef",
        None,
    ),
    (
        b"resume 0123456789abcdef0123456789abcdef0123456789abcdef0123456789abcdef0",
        Some(ScriptFault::Line(1)),
    ),
    (b"resume", Some(ScriptFault::Line(1))),
    (b"resume ", Some(ScriptFault::Line(1))),
    (b"resume  t", Some(ScriptFault::Line(1))),
    (b"resume t ", Some(ScriptFault::Line(1))),
    (b"resume a b", Some(ScriptFault::Line(1))),
    (b"resume a\x7f", Some(ScriptFault::Line(1))),
    (b"resume a\tb", Some(ScriptFault::Line(1))),
    (b"resume t\r\n", Some(ScriptFault::Line(1))),
    (b"resume \x80", Some(ScriptFault::Line(1))),
    (b"resume t\0", Some(ScriptFault::Line(1))),
    (b"resumet", Some(ScriptFault::Line(1))),
    (b"set resume t", Some(ScriptFault::Line(1))),
    (b"client resume t", Some(ScriptFault::Line(1))),
    (b"resume t\nresume", Some(ScriptFault::Line(2))),
    // Leases.
    (b"lease ", Some(ScriptFault::Line(1))),
    (b"lease  client", Some(ScriptFault::Line(1))),
    (b"lease client ", Some(ScriptFault::Line(1))),
    (b"lease server", Some(ScriptFault::Line(1))),
    (b"lease clients", Some(ScriptFault::Line(1))),
    (b"lease client server", Some(ScriptFault::Line(1))),
    (b"leases", Some(ScriptFault::Line(1))),
    (b" lease", Some(ScriptFault::Line(1))),
    (b"set lease 1", Some(ScriptFault::Line(1))),
    (b"lease\r\n", Some(ScriptFault::Line(1))),
    (b"lease\nlease 1", Some(ScriptFault::Line(2))),
    // Setting lines after an action line.
    (b"tick 0\nlease", Some(ScriptFault::Line(2))),
    (b"client push -\nlease client", Some(ScriptFault::Line(2))),
    (b"up 1\nresume t", Some(ScriptFault::Line(2))),
    (b"open\nresume t", Some(ScriptFault::Line(2))),
    (b"up 1\nset hold 1", Some(ScriptFault::Line(2))),
    (b"cut\nset hold 1\nset hold 2", Some(ScriptFault::Line(2))),
    (b"set hold 1\nup", Some(ScriptFault::Line(2))),
];

#[test]
fn each_wrong_setting_line_is_told(rt: HostRuntime) {
    for &(text, wanted) in FAULTS {
        assert!(rt; fault(rt.alloc(), text) == wanted, "{text:?}");
    }
}
