//! Sessions that are cut at every place.

use crate::ended::{CABLE, ran, writes};
use std::alloc::Global;
use std::sync::Wait;
use std::test::Fail;
use std::thread::Threads;

/// The report where the SETUP was lost, which has 77 bytes with its length: the server knows
/// nothing of the session.
const NO_SETUP_CAME: &str = "\
client made 1 8 handled 0 0
server made 0 0 handled 0 0
client open: opened 1
client fnf 2: stream 1
client cut 1: cut
client open: opened 2
client came ERROR 0 15: peer error 4
server open RESUME 0 32: resume refused token
";

/// The report where the request was lost, which has 11 bytes with its length.
const NO_REQUEST_CAME: &str = "\
client made 1 8 handled 0 0
server made 0 0 handled 1 8
client open: opened 1
client fnf 2: stream 1
client cut 1: cut
client open: opened 2
client came RESUME_OK 0 14: handled
server open SETUP 0 74: opened 1
server cut 1: cut
server open RESUME 0 32: opened 2
server came REQUEST_FNF 1 8: handled
";

/// The report where nothing was lost.
const ALL_CAME: &str = "\
client made 1 8 handled 0 0
server made 0 0 handled 1 8
client open: opened 1
client fnf 2: stream 1
client cut 1: cut
client open: opened 2
client came RESUME_OK 0 14: handled
server open SETUP 0 74: opened 1
server came REQUEST_FNF 1 8: handled
server cut 1: cut
server open RESUME 0 32: opened 2
";

/// The report of a run that is cut once so many bytes went up.
fn report_of_cut(crossed: u32) -> &'static str {
    if crossed < 77 {
        return NO_SETUP_CAME;
    }
    if crossed < 88 {
        return NO_REQUEST_CAME;
    }
    ALL_CAME
}

/// Whether the run that is cut once so many bytes went up has its report.
fn resumes_after<R: Threads + Wait + Sync>(
    rt: &R,
    alloc: Global,
    crossed: u32,
) -> Result<bool, Fail> {
    let script = format!(in alloc;
        "resume tok1\nclient fnf 6869\nup {crossed}\ncut\nopen\ndrain\n"
    )?;
    let report = report_of_cut(crossed);
    writes(rt, alloc, CABLE, script.as_bytes(), report.as_bytes())
}

#[test]
fn a_cut_at_any_byte_on_the_way_up_loses_nothing_but_a_setup(rt: HostRuntime) -> Result<(), Fail> {
    for crossed in 1..=88 {
        assert!(rt; resumes_after(&rt, rt.alloc(), crossed)?, "{crossed}");
    }
    Ok(())
}

/// Appends a line so often.
fn put_often(script: &mut Vec<u8>, line: &[u8], count: u32) -> Result<(), Fail> {
    for _ in 0..count {
        script.extend_from_slice(line)?;
    }
    Ok(())
}

#[test]
fn what_crosses_byte_by_byte_is_the_same(rt: HostRuntime) -> Result<(), Fail> {
    let mut script = Vec::from_slice(rt.alloc(), b"resume tok1\nclient fnf 6869\n")?;
    put_often(&mut script, b"up 1\n", 80)?;
    script.extend_from_slice(b"cut\nopen\n")?;
    put_often(&mut script, b"up 1\n", 35)?;
    put_often(&mut script, b"down 1\n", 17)?;
    put_often(&mut script, b"up 1\n", 11)?;
    assert!(rt; writes(&rt, rt.alloc(), CABLE, &script, NO_REQUEST_CAME.as_bytes())?);
    Ok(())
}

/// Whether the run of a script ends with status 0, and its report begins so.
fn begins<R: Threads + Wait + Sync>(
    rt: &R,
    alloc: Global,
    script: &str,
    wanted: &str,
) -> Result<bool, Fail> {
    let (status, report) = ran(rt, alloc, CABLE, script.as_bytes())?;
    Ok(status == 0 && report.starts_with(wanted.as_bytes()))
}

/// The counts where three items of ten bytes came.
const THREE_ITEMS: &str = "\
client made 1 11 handled 3 48
server made 3 48 handled 1 11
";

#[test]
fn a_cut_at_any_byte_on_the_way_down_loses_nothing(rt: HostRuntime) -> Result<(), Fail> {
    for crossed in 1..=57 {
        let script = format!(in rt.alloc();
            "\
resume tok1
client stream 9 61
up 1000
server many 1 3 10
down {crossed}
cut
open
drain
"
        )?;
        assert!(rt;
            begins(&rt, rt.alloc(), script.as_str(), THREE_ITEMS)?,
            "{crossed}"
        );
    }
    Ok(())
}

/// The counts of a session with a response, a stream of 200 items, and a fire-and-forget.
const ALL_KINDS: &str = "\
client made 3 25 handled 202 301213
server made 202 301213 handled 3 25
";

/// Whether all comes where the connection is lost twice: within the first requests, and once so
/// many bytes of the answers came.
fn comes_whole<R: Threads + Wait + Sync>(
    rt: &R,
    alloc: Global,
    crossed: u32,
) -> Result<bool, Fail> {
    let script = format!(in alloc;
        "\
resume tok1
client response 61
client stream 200 61
client fnf 61
up 100
cut
open
drain
server last 1 62
server many 3 200 1500
server done 3
down {crossed}
cut
open
drain
"
    )?;
    begins(rt, alloc, script.as_str(), ALL_KINDS)
}

#[test]
fn a_session_of_all_kinds_outlives_two_cuts(rt: HostRuntime) -> Result<(), Fail> {
    for place in 0..40 {
        let crossed = 1 + 7_545 * place;
        assert!(rt; comes_whole(&rt, rt.alloc(), crossed)?, "{crossed}");
    }
    assert!(rt; comes_whole(&rt, rt.alloc(), 100_000)?);
    Ok(())
}
