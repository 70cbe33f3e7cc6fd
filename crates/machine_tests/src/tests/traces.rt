//! Traces with answers computed by hand.

use orc_fault::NoMemory;
use orc_trace::*;
use std::alloc::{AllocError, Global};
use std::process::Abort;
use std::test::Fail;

mod examples;

// Row 0 is linked from root 0 by agent 0 (9 steps), held by agent 1, unlinked and retired by agent 0 (7 steps), which lets it
// go and begins a scan (5 steps).
const SCANNED: &str =
    "shape 2 1 2 8\n0 enroll\n1 enroll\n0 look 0\n0 count 0\n0 take 0\n0 publish 1 0\n0 count 0\n0 cas r0 - 0\n0 inc 0\n1 load r0\n1 publish 2 0\n1 load r0 2\n0 cas r0 0 -\n0 arm 0\n0 dec 0\n0 set 0 2\n0 clear 0\n0 takein 0\n0 clear 1\n0 takein 1\n0 start 0\n";

// Agent 1 ends a scan that found nothing, and frees the row: 4 steps.
const FREED: &str = "1 end 0\n1 store 0 -\n1 unretire 0\n1 free 0\n";

// Agent 1 links row 0, agent 2 holds it, agent 1 unlinks it and begins a scan: 22 steps.
const THREE_AGENTS: &str =
    "shape 2 1 3 8\n0 enroll\n1 enroll\n2 enroll\n1 look 0\n1 count 0\n1 take 0\n1 publish 1 0\n1 count 0\n1 cas r0 - 0\n1 inc 0\n2 load r0\n2 publish 1 0\n2 load r0 1\n1 cas r0 0 -\n1 arm 0\n1 dec 0\n1 set 0 2\n1 clear 0\n1 takein 0\n1 clear 1\n1 takein 1\n1 start 0\n";

// Agent 2 links it again, agent 0 holds it behind the scan, and agent 2 lets it go: 8 steps.
const LINKED_AGAIN: &str =
    "2 count 0\n2 cas r0 - 0\n0 load r0\n0 publish 1 0\n0 load r0 1\n2 inc 0\n2 clear 1\n2 takein 1\n";

// Agent 0 links row 0 from root 0, and both links of its fresh row 1 to row 0: 18 steps.
const TWO_LINKS: &str =
    "0 enroll\n0 look 0\n0 count 0\n0 take 0\n0 publish 1 0\n0 count 0\n0 cas r0 - 0\n0 inc 0\n0 look 1\n0 count 1\n0 take 1\n0 publish 2 1\n0 count 0\n0 store 1 0\n0 inc 0\n0 count 0\n0 side 1 0\n0 inc 0\n";

// Agent 0 links row 0 from root 0, and from its own next word: 11 steps.
const CYCLE: &str =
    "shape 2 1 1 8\n0 enroll\n0 look 0\n0 count 0\n0 take 0\n0 publish 1 0\n0 count 0\n0 cas r0 - 0\n0 inc 0\n0 count 0\n0 cas n0 - 0\n0 inc 0\n";

// It takes the root's link out, and lets the row go: 7 steps.
const CUT_OFF: &str =
    "0 cas r0 0 -\n0 arm 0\n0 dec 0\n0 clear 0\n0 takein 0\n0 clear 1\n0 takein 1\n";

// Agent 0 links row 0 from root 0, and row 1 from the second link of row 0, and lets both go: 18 steps.
const SECOND_LINK: &str =
    "shape 2 1 1 8 2\n0 enroll\n0 look 0\n0 count 0\n0 take 0\n0 publish 1 0\n0 count 0\n0 cas r0 - 0\n0 inc 0\n0 look 1\n0 count 1\n0 take 1\n0 publish 2 1\n0 count 1\n0 cas s0 - 1\n0 inc 1\n0 clear 1\n0 clear 2\n0 takein 1\n";

// The line that a replay of these bytes writes.
fn line_of(alloc: Global, bytes: &[u8]) -> Result<String, NoMemory> {
    match replay(alloc, bytes) {
        Ok(replayed) => replay_text(alloc, &replayed),
        Err(fault) => fault_text(alloc, fault),
    }
}

fn check(rt: &impl Abort, alloc: Global, text: &str, want: &str) -> Result<(), Fail> {
    let line = line_of(alloc, text.as_bytes())?;
    assert_eq!(rt; line.as_str(), want);
    Ok(())
}

// The lines that an audit of these bytes writes.
fn audit_of(alloc: Global, bytes: &[u8]) -> Result<String, NoMemory> {
    match audit(alloc, bytes) {
        Ok(audit) => audit_text(alloc, &audit),
        Err(fault) => fault_text(alloc, fault),
    }
}

fn check_audit(rt: &impl Abort, alloc: Global, text: &str, want: &str) -> Result<(), Fail> {
    let lines = audit_of(alloc, text.as_bytes())?;
    assert_eq!(rt; lines.as_str(), want);
    Ok(())
}

// The looks of an agent at the slots of these scan places.
fn push_slots(text: &mut String, agent: u32, from: u32, end: u32) -> Result<(), AllocError> {
    for k in from..end {
        writeln!(text, "{agent} slot {k}")?;
    }
    Ok(())
}

// The scan finds row 0 held, and these lines follow: 32 steps and these.
fn found_held(alloc: Global, after: &str) -> Result<String, AllocError> {
    let mut text = String::from_str(alloc, SCANNED)?;
    push_slots(&mut text, 0, 0, 11)?;
    text.push_str(after)?;
    Ok(text)
}

// Agent 1 scans all slots for row 0 and frees it: 21 steps.
fn push_freed(text: &mut String) -> Result<(), AllocError> {
    text.push_str("1 start 0\n")?;
    push_slots(text, 1, 0, 16)?;
    text.push_str(FREED)
}

#[test]
fn a_row_is_handed_over_taken_in_and_freed(rt: HostRuntime) -> Result<(), Fail> {
    let alloc = rt.alloc();
    let mut text = found_held(alloc, "0 hand 10\n1 clear 2\n1 takein 2\n")?;
    push_freed(&mut text)?;
    check(
        &rt,
        alloc,
        text.as_str(),
        "steps 56 out 0 retired 0 handed 0 listed 0 linked 0\n",
    )?;
    check_audit(
        &rt,
        alloc,
        text.as_str(),
        "steps 56\nretired most 1 after 21\nrow 0 lives 1\nleak none\n",
    )
}

#[test]
fn a_row_is_handed_over_after_the_clear(rt: HostRuntime) -> Result<(), Fail> {
    let alloc = rt.alloc();
    let mut text = found_held(alloc, "1 clear 2\n1 takein 2\n0 hand 10\n")?;
    check(
        &rt,
        alloc,
        text.as_str(),
        "steps 35 out 1 retired 1 handed 1 listed 0 linked 0\n",
    )?;
    text.push_str("1 takein 2\n")?;
    push_freed(&mut text)?;
    check(
        &rt,
        alloc,
        text.as_str(),
        "steps 57 out 0 retired 0 handed 0 listed 0 linked 0\n",
    )
}

#[test]
fn a_hold_behind_the_scan_is_not_freed(rt: HostRuntime) -> Result<(), Fail> {
    let alloc = rt.alloc();
    let mut text = String::from_str(alloc, THREE_AGENTS)?;
    push_slots(&mut text, 1, 0, 8)?;
    text.push_str(LINKED_AGAIN)?;
    push_slots(&mut text, 1, 8, 24)?;
    text.push_str("1 end 0\n")?;
    let mut freed = String::from_str(alloc, text.as_str())?;
    freed.push_str("1 free 0\n1 enroll\n")?;
    check(&rt, alloc, freed.as_str(), "step 55: not allowed\n")?;
    text.push_str("1 arm 0\n1 unretire 0\n1 clear 0\n1 takein 0\n")?;
    check(
        &rt,
        alloc,
        text.as_str(),
        "steps 59 out 1 retired 0 handed 0 listed 0 linked 1\n",
    )
}

// Agent 0 links and unlinks a row that agent 1 holds: each piece of the lines, and whether the number of the slot stands behind it,
// or that of the row.
static HANDED: [(&str, bool); 19] = [
    ("0 look ", false),
    ("\n0 count ", false),
    ("\n0 take ", false),
    ("\n0 publish 1 ", false),
    ("\n0 count ", false),
    ("\n0 cas r", false),
    (" - ", false),
    ("\n0 inc ", false),
    ("\n1 load r", false),
    ("\n1 publish ", true),
    (" ", false),
    ("\n1 load r", false),
    (" ", true),
    ("\n0 cas r", false),
    (" ", false),
    (" -\n0 arm ", false),
    ("\n0 dec ", false),
    ("\n0 set ", false),
    (
        " 2\n0 clear 0\n0 takein 0\n0 clear 1\n0 takein 1\n0 start ",
        false,
    ),
];

// Agent 0 links and unlinks a row that agent 1 holds, and hands it over to it.
fn push_handed(text: &mut String, row: u32) -> Result<(), AllocError> {
    let number = u64::from(row);
    for (before, of_slot) in HANDED.as_slice() {
        let name = if *of_slot { number + 1 } else { number };
        write!(text, "{before}{name}")?;
    }
    text.push_str("\n")?;
    push_slots(text, 0, 0, row.saturating_add(10))?;
    let found = number + 9;
    writeln!(text, "0 hand {found}")
}

#[test]
fn a_stopped_agent_keeps_seven_rows(rt: HostRuntime) -> Result<(), Fail> {
    let alloc = rt.alloc();
    let mut text = String::from_str(alloc, "shape 8 7 2 8\n0 enroll\n1 enroll\n")?;
    for row in 0..7 {
        push_handed(&mut text, row)?;
    }
    check(
        &rt,
        alloc,
        text.as_str(),
        "steps 233 out 7 retired 7 handed 7 listed 0 linked 0\n",
    )?;
    for slot in 1..8 {
        writeln!(text, "1 clear {slot}\n1 takein {slot}")?;
    }
    check(
        &rt,
        alloc,
        text.as_str(),
        "steps 247 out 7 retired 7 handed 0 listed 7 linked 0\n",
    )
}

#[test]
fn links_of_two_numbers_are_stored(rt: HostRuntime) -> Result<(), Fail> {
    let alloc = rt.alloc();
    for (first, want) in [
        (
            "shape 2 1 1 8 2\n",
            "steps 18 out 2 retired 0 handed 0 listed 0 linked 1\n",
        ),
        ("shape 2 1 1 8\n", "step 16: unreadable\n"),
        ("shape 2 1 1 8 1\n", "step 16: unreadable\n"),
        ("shape 2 1 1 8 3\n", "shape: links\n"),
    ] {
        let text = format!(in alloc; "{first}{TWO_LINKS}")?;
        check(&rt, alloc, text.as_str(), want)?;
    }
    Ok(())
}

#[test]
fn a_row_that_links_itself_leaks(rt: HostRuntime) -> Result<(), Fail> {
    let alloc = rt.alloc();
    let text = format!(in alloc; "{CYCLE}{CUT_OFF}")?;
    check_audit(
        &rt,
        alloc,
        text.as_str(),
        "steps 18\nretired most 0 after 0\nrow 0 lives 1\nleak after 17 row 0\n",
    )
}

#[test]
fn a_row_reached_by_a_second_link_alone_does_not_leak(rt: HostRuntime) -> Result<(), Fail> {
    let alloc = rt.alloc();
    check_audit(
        &rt,
        alloc,
        SECOND_LINK,
        "steps 18\nretired most 0 after 0\nrow 0 lives 1\nrow 1 lives 1\nleak none\n",
    )
}

#[test]
fn a_trace_is_refused_for_its_first_fault(rt: HostRuntime) -> Result<(), Fail> {
    let alloc = rt.alloc();
    for (text, want) in [
        ("", "shape: unreadable\n"),
        ("shape 1 1 1 1\n", "shape: rows\n"),
        ("shape 2 1 1 0 3\n0 nothing", "shape: limit\n"),
        (
            "shape 2 1 2 8\n0 enroll\n1 enroll\n0 look 0\n0 count 0\n0 tak",
            "step 4: unreadable\n",
        ),
        (
            "shape 2 1 1 8\n0 enroll\n0 load s0\n",
            "step 1: unreadable\n",
        ),
        ("shape 2 1 1 8\n0 look 0\n0 look", "step 0: not allowed\n"),
    ] {
        check(&rt, alloc, text, want)?;
        check_audit(&rt, alloc, text, want)?;
    }
    Ok(())
}
