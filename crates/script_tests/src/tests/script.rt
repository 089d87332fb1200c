use super::{Row, fault, is_read_so};
use cable_script::ScriptFault;
use std::alloc::Global;
use std::process::Abort;

const READ: &[Row] = &[
    Row {
        shows: "each line has one text",
        text: b"client fnf 68ff\nserver fnf -:00\nserver close\nup 2147483647\ndown 1\ndrain\ncut",
        read: "\
Ask { side: Client, call: Request { kind: Fnf, initial: None, message: Message { metadata: None, content: Blob { bytes: [104, 255] } }, complete: false } }
Ask { side: Server, call: Request { kind: Fnf, initial: None, message: Message { metadata: Some(Blob { bytes: [] }), content: Blob { bytes: [0] } }, complete: false } }
Ask { side: Server, call: Close }
Up { most: Amount { number: 2147483647 } }
Down { most: Amount { number: 1 } }
Drain
Cut
",
    },
    Row {
        shows: "each request has one text",
        text: b"client response 61\nserver stream 1 -\nclient channel 2 61:62\nclient channel 3 61 last",
        read: "\
Ask { side: Client, call: Request { kind: Response, initial: None, message: Message { metadata: None, content: Blob { bytes: [97] } }, complete: false } }
Ask { side: Server, call: Request { kind: Stream, initial: Some(Amount { number: 1 }), message: Message { metadata: None, content: Blob { bytes: [] } }, complete: false } }
Ask { side: Client, call: Request { kind: Channel, initial: Some(Amount { number: 2 }), message: Message { metadata: Some(Blob { bytes: [97] }), content: Blob { bytes: [98] } }, complete: false } }
Ask { side: Client, call: Request { kind: Channel, initial: Some(Amount { number: 3 }), message: Message { metadata: None, content: Blob { bytes: [97] } }, complete: true } }
",
    },
    Row {
        shows: "a payload and an error have one text",
        text: b"client next 1 61\nserver last 2 -\nclient fail 7 4294967294 6f",
        read: "\
Ask { side: Client, call: Next { stream: 1, message: Message { metadata: None, content: Blob { bytes: [97] } }, complete: false } }
Ask { side: Server, call: Next { stream: 2, message: Message { metadata: None, content: Blob { bytes: [] } }, complete: true } }
Ask { side: Client, call: Fail { stream: 7, code: 4294967294, content: Blob { bytes: [111] } } }
",
    },
    Row {
        shows: "calls that carry nothing have one text",
        text: b"client done 3\nclient grant 4 5\nclient cancel 6\nclient take 8",
        read: "\
Ask { side: Client, call: Done { stream: 3 } }
Ask { side: Client, call: Grant { stream: 4, n: Amount { number: 5 } } }
Ask { side: Client, call: Cancel { stream: 6 } }
Ask { side: Client, call: Take { stream: 8 } }
",
    },
    Row {
        shows: "a job and many items have one text",
        text: b"server job\nserver many 2147483647 9 16000000",
        read: "\
Ask { side: Server, call: TakeJob }
Many { side: Server, stream: 2147483647, count: Amount { number: 9 }, size: 16000000 }
",
    },
    Row {
        shows: "lines of a second connection have one text",
        text: b"drop\nopen\nlate 1\nlate 2147483647",
        read: "\
Drop
Open
Late { most: Amount { number: 1 } }
Late { most: Amount { number: 2147483647 } }
",
    },
    Row {
        shows: "moments, metadata and leases have one text",
        text: b"tick 0\ntick 4611686018427387904\nclient push -\nserver push 61ff\nserver lease 1000 1\nclient lease 2147483647 2147483647",
        read: "\
Tick { now: 0 }
Tick { now: 4611686018427387904 }
Ask { side: Client, call: Push { metadata: Blob { bytes: [] } } }
Ask { side: Server, call: Push { metadata: Blob { bytes: [97, 255] } } }
Ask { side: Server, call: Lease { ttl: Amount { number: 1000 }, count: Amount { number: 1 }, metadata: None } }
Ask { side: Client, call: Lease { ttl: Amount { number: 2147483647 }, count: Amount { number: 2147483647 }, metadata: None } }
",
    },
    Row {
        shows: "no text has no lines",
        text: b"",
        read: "",
    },
    Row {
        shows: "an empty line is passed over",
        text: b"\n",
        read: "",
    },
    Row {
        shows: "two empty lines are passed over",
        text: b"\n\n",
        read: "",
    },
    Row {
        shows: "comments are passed over",
        text: b"# up 0\n#",
        read: "",
    },
    Row {
        shows: "a comment need not be text",
        text: b"#\xff",
        read: "",
    },
];

#[test]
fn each_script_is_read_so(rt: HostRuntime) {
    for row in READ {
        assert!(rt; is_read_so(&rt, rt.alloc(), row), "{}", row.shows);
    }
}

// Whether the first wrong line of a text is this one, from 1; 0 is the whole text.
fn is_wrong(alloc: Global, text: &[u8], line: u32) -> bool {
    fault(alloc, text) == Some(ScriptFault::Line(line))
}

/// Texts of which the first line is wrong.
const WRONG: &[&[u8]] = &[
    b"up 0",
    b"up 01",
    b"up +1",
    b"up 2147483648",
    b"up",
    b"up  1",
    b"up 1 ",
    b"up 1\r\n",
    b"client fnf 686",
    b"client fnf 6F",
    b"client fnf",
    b"client fnf ",
    b"client fnf 61:",
    b"client fnf :61",
    b"client fnf 61:62:63",
    b"client close ",
    b"client  close",
    b"peer close",
    b"down 0",
    b"down",
    b"drain 1",
    b"cut 1",
    b" # up 1",
    b"open ",
    b"open 1",
    b"client open",
    b"drop ",
    b"drop 1",
    b"late",
    b"late 0",
    b"late 01",
    b"late 2147483648",
    b"late 1 ",
    // Calls that are out of the grammar.
    b"client",
    b"client response",
    b"client stream 61",
    b"client stream 0 61",
    b"client stream 1 61 last",
    b"client stream  1 61",
    b"client channel 1 61 first",
    b"client channel 1 61  last",
    b"client channel 1 last",
    b"client fnf 1 61",
    b"client next 0 61",
    b"client next 1",
    b"client last 1 61 last",
    b"client done",
    b"client take",
    b"client take 01",
    b"client job 1",
    b"client jobs",
    b"client grant 1",
    b"client grant 1 2147483648",
    b"client cancel 2147483648",
    b"client fail 1 0 -",
    b"client fail 1 512 -",
    b"client fail 1 517 -",
    b"client fail 1 768 -",
    b"client fail 1 4294967295 -",
    b"client fail 1 4294967809 -",
    b"client fail 1 513",
    b"client fail 1 513 61:62",
    b"client many 1 0 1",
    b"client many 1 1 16000001",
    b"client many 1 1",
    b"client many 1 1 1 61",
    b"many 1 1 1",
    b"job",
    // Moments.
    b"tick",
    b"tick ",
    b"tick -1",
    b"tick +1",
    b"tick 00",
    b"tick 01",
    b"tick 1 ",
    b"tick  1",
    b"tick 1 2",
    b"tick 4611686018427387905",
    b"tick 18446744073709551616",
    b"ticks 1",
    b"tick1",
    b"client tick 1",
    // Metadata for the connection.
    b"client push",
    b"client push ",
    b"client push 6",
    b"client push 6F",
    b"client push 61:62",
    b"client push 61 ",
    b"client push 1 61",
    b"push 61",
    // Leases.
    b"server lease",
    b"server lease 1",
    b"server lease 1 ",
    b"server lease 0 1",
    b"server lease 1 0",
    b"server lease 2147483648 1",
    b"server lease 1 1 -",
    b"lease 1 1",
];

#[test]
fn the_first_wrong_line_is_told(rt: HostRuntime) {
    for &text in WRONG {
        assert!(rt; is_wrong(rt.alloc(), text, 1), "{text:?}");
    }
    let fifth = b"up 1\nup 2\n\n# up 3\nup 0\nup 0";
    assert!(rt; is_wrong(rt.alloc(), fifth, 5));
}

/// Texts with the last numbers that are right.
const RIGHT: &[&[u8]] = &[
    b"client fail 1 513 -",
    b"client fail 1 516 -",
    b"client fail 1 769 -",
    b"client many 1 2147483647 0",
    b"client grant 2147483647 2147483647",
    b"client fail 2147483647 4294967294 -",
    b"server lease 2147483647 1",
    b"tick 4611686018427387904",
];

#[test]
fn the_last_numbers_are_right(rt: HostRuntime) {
    for &text in RIGHT {
        assert!(rt; fault(rt.alloc(), text).is_none(), "{text:?}");
    }
}

// So many bytes of a comment.
fn comment<R: Abort>(rt: &R, alloc: Global, length: usize) -> Vec<u8> {
    vec![in alloc; b'#'; length].expect(rt, "there is memory")
}

#[test]
fn a_text_above_the_limit_is_line_0(rt: HostRuntime) {
    let text = comment(&rt, rt.alloc(), 16_777_217);
    assert!(rt; is_wrong(rt.alloc(), &text, 0));
    let text = comment(&rt, rt.alloc(), 16_777_216);
    assert!(rt; fault(rt.alloc(), &text).is_none());
}
