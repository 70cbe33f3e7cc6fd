//! Which bytes are a watch file, and how others are refused.

use super::super::between;
use orc_fault::NoMemory;
use orc_job_files::FileRefused;
use orc_watch::{WatchCause, WatchLine, read_watch};
use std::alloc::Global;
use std::process::Abort;
use std::test::Fail;

// Reads a file, and asks for its lines.
fn is_read<R: Abort>(rt: &R, alloc: Global, bytes: &[u8], wanted: &[WatchLine]) {
    match read_watch(alloc, bytes) {
        Ok(lines) => {
            assert!(rt; lines.len() == wanted.len());
            for place in 0..wanted.len() {
                assert!(rt; *lines.get(place) == wanted[place], "line {place}");
            }
        }
        Err(fault) => assert!(rt; false, "{fault:?}"),
    }
}

// Reads a file whose record of this number is the first that is no line, and asks for its cause.
fn is_malformed<R: Abort>(rt: &R, alloc: Global, bytes: &[u8], line: u32, why: WatchCause) {
    match read_watch(alloc, bytes) {
        Ok(_) => assert!(rt; false, "{bytes:?} is read"),
        Err(fault) => {
            assert!(rt;
                fault == FileRefused::Malformed { line, cause: why },
                "{bytes:?}"
            );
        }
    }
}

// Reads a record as the first and as the second of a file, and asks for its cause.
fn is_refused<R: Abort>(
    rt: &R,
    alloc: Global,
    record: &[u8],
    why: WatchCause,
) -> Result<(), NoMemory> {
    is_malformed(rt, alloc, record, 0, why);
    let second = between(alloc, b"left,1\n", record, b"\ntop")?;
    is_malformed(rt, alloc, second.as_slice(), 1, why);
    Ok(())
}

// Files and their lines.
const FILES: [(&[u8], &[WatchLine]); 5] = [
    (b"", &[]),
    (
        b"left,5\nsee\nboth,1,2\nright,9\nsee\n",
        &[
            WatchLine::Left(5),
            WatchLine::See,
            WatchLine::Both(1, 2),
            WatchLine::Right(9),
            WatchLine::See,
        ],
    ),
    (
        b"left,4294967295\r\n\nboth,0,4294967295",
        &[WatchLine::Left(4294967295), WatchLine::Both(0, 4294967295)],
    ),
    (
        b"\"see\"\n\"right\",\"7\"",
        &[WatchLine::See, WatchLine::Right(7)],
    ),
    (b"\xef\xbb\xbfsee\n", &[WatchLine::See]),
];

#[test]
fn reads_lines(rt: HostRuntime) {
    for (bytes, wanted) in FILES {
        is_read(&rt, rt.alloc(), bytes, wanted);
    }
}

// Records that are no lines, and why.
const RECORDS: [(&[u8], WatchCause); 15] = [
    (b"both,1", WatchCause::Fields),
    (b"both,1,2,3", WatchCause::Fields),
    (b"see,", WatchCause::Fields),
    (b"left", WatchCause::Fields),
    (b"right,1,2", WatchCause::Fields),
    (b"left,\xff", WatchCause::Utf8),
    (b"top,\xff", WatchCause::Utf8),
    (b"top,x", WatchCause::Verb),
    (b"See,1", WatchCause::Verb),
    (b"left,4294967296", WatchCause::Value),
    (b"left,007", WatchCause::Value),
    (b"right,", WatchCause::Value),
    (b"right,-1", WatchCause::Value),
    (b"both,x,1", WatchCause::Value),
    (b"both,1,+2", WatchCause::Value),
];

#[test]
fn refuses_records(rt: HostRuntime) -> Result<(), Fail> {
    for (record, why) in RECORDS {
        is_refused(&rt, rt.alloc(), record, why)?;
    }
    Ok(())
}

// A file of so many reads, and then this record.
fn reads(alloc: Global, count: usize, last: &[u8]) -> Result<Vec<u8>, NoMemory> {
    let mut bytes = Vec::new(alloc);
    for _ in 0..count {
        bytes.extend_from_slice(b"see\n")?;
    }
    bytes.extend_from_slice(last)?;
    Ok(bytes)
}

// How many lines a file of 65,535 reads and then this record has.
fn line_count(alloc: Global, last: &[u8]) -> Result<usize, FileRefused<WatchCause>> {
    let Ok(bytes) = reads(alloc, 65535, last) else {
        return Err(FileRefused::NoMemory);
    };
    Ok(read_watch(alloc, bytes.as_slice())?.len())
}

#[test]
fn the_last_record_is_the_65535th(rt: HostRuntime) {
    assert!(rt; line_count(rt.alloc(), b"") == Ok(65535));
    for last in [b"see\n".as_slice(), b"both,1\n".as_slice()] {
        assert!(rt; line_count(rt.alloc(), last) == Err(FileRefused::TooMany));
    }
}
