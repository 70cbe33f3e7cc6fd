ghost use Rattle.std.specs.Prelude.{◌≡◌, ◌^◌, ◌∷◌, [], codes};
ghost use Rattle.orc_job_files.specs.JobGrammar.{HasCause, IsFileOf, Refuses, record_of, records_of};
ghost use Rattle.orc_jobs.specs.{
  Generated.{drawn},
  GoodLines.{AreGood},
  JobValue.{IsJobValue, word_count},
  Line.{IsLine, PostsJob, line_id, jobs_in, text_size},
  Numbers.{IsNumber, SpellsNumbers},
};

use super::between;
use orc_fault::NoMemory;
use orc_job_files::{Cause, FileRefused, lines_text, make_lines, read_jobs};
use orc_jobs::{Job, Line, Lines, MOST_BYTES, Text, job_value};
use std::alloc::Global;
use std::process::Abort;
use std::test::Fail;

// A post, a rush, a drop, and lists of them.
fn lines_by_hand()
    ensures post { PostsJob (Line.Post 7 Job.Bytes (codes "hello")) }
    ensures rush { PostsJob (Line.Rush 7 Job.Bytes (codes "hello")) }
    ensures not_post { ¬ PostsJob (Line.Drop 7) }
    ensures id { line_id (Line.Drop 7) ≡ 7 }
    ensures size { text_size (Line.Post 7 Job.Bytes (codes "hello")) ≡ 5 }
    ensures none { text_size (Line.Drop 7) ≡ 0 }
    ensures jobs { jobs_in (Line.Drop 7 ∷ Line.Post 7 Job.Sum (codes "1") ∷ Line.Rush 8 Job.Sum (codes "2") ∷ []) ≡ 2 }
{}

fn numbers_by_hand()
    ensures number { IsNumber (codes "22") }
    ensures zero_first { ¬ IsNumber (codes "07") }
    ensures two { SpellsNumbers (1 ∷ 22 ∷ []) (codes "1 22") }
    ensures sum { IsJobValue (Line.Post 7 Job.Sum (codes "1 22")) 23 }
    ensures none { SpellsNumbers [] [] }
    ensures twice { ¬ SpellsNumbers (1 ∷ 22 ∷ []) (codes "1  22") }
    ensures large { ¬ SpellsNumbers (2 ^ 32 ∷ []) (codes "4294967296") }
{}

fn records_by_hand()
    ensures records { records_of (codes "post,7,sum,1 2\n\ndrop,7") ≡ (codes "post" ∷ codes "7" ∷ codes "sum" ∷ codes "1 2" ∷ []) ∷ (codes "drop" ∷ codes "7" ∷ []) ∷ [] }
    ensures post { record_of (Line.Post 7 Job.Words (codes "a")) ≡ codes "post" ∷ codes "7" ∷ codes "words" ∷ codes "a" ∷ [] }
    ensures rush { record_of (Line.Rush 7 Job.Bytes (codes "bb")) ≡ codes "rush" ∷ codes "7" ∷ codes "bytes" ∷ codes "bb" ∷ [] }
    ensures drop { record_of (Line.Drop 7) ≡ codes "drop" ∷ codes "7" ∷ [] }
    ensures file { IsFileOf (Line.Drop 7 ∷ []) (codes "drop,7\n") }
    ensures other { ¬ IsFileOf (Line.Drop 8 ∷ []) (codes "drop,7\n") }
    ensures large { ¬ IsLine (Line.Drop (2 ^ 32)) }
{}

fn causes_by_hand()
    ensures fields { HasCause (codes "drop" ∷ []) Cause.Fields }
    ensures verb { HasCause (codes "put" ∷ codes "x" ∷ codes "y" ∷ codes "z" ∷ []) Cause.Verb }
    ensures first { ¬ HasCause (codes "put" ∷ codes "x" ∷ codes "y" ∷ codes "z" ∷ []) Cause.Id }
    ensures refused { Refuses (codes "drop\n") (FileRefused.Malformed 0 Cause.Fields) }
    ensures place { ¬ Refuses (codes "drop\n") (FileRefused.Malformed 1 Cause.Fields) }
    ensures many { ¬ Refuses (codes "drop\n") FileRefused.TooMany }
{}

fn values_by_hand()
    ensures words { word_count (codes "  a bc ") ≡ 2 }
    ensures none { word_count (codes "  ") ≡ 0 }
    ensures bytes { IsJobValue (Line.Post 7 Job.Bytes (codes "hello")) 5 }
    ensures rush { IsJobValue (Line.Rush 2 Job.Bytes (codes "bb")) 2 }
    ensures other { ¬ IsJobValue (Line.Post 7 Job.Bytes (codes "hello")) 4 }
    ensures drop { IsJobValue (Line.Drop 7) 0 }
    ensures empty { AreGood [] }
    ensures good { AreGood (Line.Post 7 Job.Bytes (codes "hello") ∷ Line.Drop 7 ∷ []) }
    ensures bad { ¬ AreGood (Line.Drop (2 ^ 32) ∷ []) }
{}

// Asks for the values of some lines.
fn have_values<R: Abort>(rt: &R, lines: &Lines, wanted: &[u64])
    requires { AreGood lines.now }
{
    assert!(rt; lines.len() == wanted.len());
    for place in 0..wanted.len() {
        assert!(rt;
            job_value(lines.get(place)) == wanted[place],
            "line {place}"
        );
    }
}

// Reads a file, and asks for the values of its lines.
fn is_read<R: Abort>(rt: &R, alloc: Global, bytes: &[u8], wanted: &[u64]) {
    assert!(rt; bytes.len() <= MOST_BYTES);
    match read_jobs(alloc, bytes) {
        Ok(lines) => have_values(rt, &lines, wanted),
        Err(fault) => assert!(rt; false, "{fault:?}"),
    }
}

// Reads a file whose record of this number is the first that is no line, and asks for its cause.
fn is_malformed<R: Abort>(rt: &R, alloc: Global, bytes: &[u8], line: u32, why: Cause) {
    assert!(rt; bytes.len() <= MOST_BYTES);
    match read_jobs(alloc, bytes) {
        Ok(_) => assert!(rt; false, "{bytes:?} is read"),
        Err(fault) => {
            assert!(rt;
                fault == FileRefused::Malformed { line, cause: why },
                "{bytes:?}"
            );
        }
    }
}

// Reads a record as the first and as the second of a file, and asks for its cause.
fn is_refused<R: Abort>(rt: &R, alloc: Global, record: &[u8], why: Cause) -> Result<(), NoMemory> {
    is_malformed(rt, alloc, record, 0, why);
    let second = between(alloc, b"drop,1\n", record, b"\nput")?;
    is_malformed(rt, alloc, second.as_slice(), 1, why);
    Ok(())
}

// Files, and the values of their lines.
const FILES: [(&[u8], &[u64]); 15] = [
    (b"", &[]),
    (
        b"post,7,bytes,hello\npost,9,sum,1 2 3\ndrop,9\npost,7,words,a b\ndrop,8\n",
        &[5, 6, 0, 2, 0],
    ),
    (
        b"post,1,bytes,a\nrush,2,bytes,bb\ndrop,1\nrush,1,sum,3 4\n",
        &[1, 2, 0, 7],
    ),
    (b"post,4294967295,bytes,x", &[1]),
    (b"post,1,bytes,\npost,1,words,\npost,1,sum,", &[0, 0, 0]),
    (b"post,1,words,  a  bc ", &[2]),
    (b"post,1,words,a\tb", &[1]),
    (
        b"post,1,sum,4294967295\npost,1,sum,4294967295 4294967295 0",
        &[4294967295, 8589934590],
    ),
    // A carriage return ends a record, alone and before a line feed, and empty lines give none.
    (
        b"post,1,bytes,a\r\n\r\n\n\rpost,1,bytes,bc\rdrop,1",
        &[1, 2, 0],
    ),
    (b"post,1,bytes,\"a\nb\"\n", &[3]),
    (b"post,1,bytes,\"a,\"\"b\"\n", &[4]),
    (b"post,1,bytes,\"a\n", &[2]),
    (b"\"drop\",\"1\"", &[0]),
    (b"\xef\xbb\xbfdrop,1\n", &[0]),
    (b"post,1,bytes,\xc3\xa9\n", &[2]),
];

#[test]
fn reads_lines(rt: HostRuntime) {
    for (bytes, wanted) in FILES {
        is_read(&rt, rt.alloc(), bytes, wanted);
    }
}

// Records that are no lines, and why.
const RECORDS: [(&[u8], Cause); 38] = [
    (b"drop", Cause::Fields),
    (b"drop,1,2", Cause::Fields),
    (b"post,1,bytes", Cause::Fields),
    (b"post,1,bytes,x,y", Cause::Fields),
    (b"put,x", Cause::Fields),
    (b"\"\"", Cause::Fields),
    (b"\xff", Cause::Fields),
    (b"\xff,1,bytes,x", Cause::Utf8),
    (b"post,\xff,bytes,x", Cause::Utf8),
    (b"post,1,\xff,x", Cause::Utf8),
    (b"post,1,bytes,\xc3", Cause::Utf8),
    (b"drop,\xff", Cause::Utf8),
    (b"put,x,y,\xff", Cause::Utf8),
    (b"put,x,y,z", Cause::Verb),
    (b"Post,1,bytes,x", Cause::Verb),
    (b"post,4294967296,bytes,x", Cause::Id),
    (b"post,007,bytes,x", Cause::Id),
    (b"post,+7,bytes,x", Cause::Id),
    (b"post,,y,z", Cause::Id),
    (b"drop,01", Cause::Id),
    (b"post,1,bytes ,x", Cause::Op),
    (b"post,1,count,x", Cause::Op),
    (b"post,1,sum,1  2", Cause::Sum),
    (b"post,1,sum, 1", Cause::Sum),
    (b"post,1,sum,1 ", Cause::Sum),
    (b"post,1,sum, ", Cause::Sum),
    (b"post,1,sum,01", Cause::Sum),
    (b"post,1,sum,1,2", Cause::Fields),
    (b"post,1,sum,4294967296", Cause::Sum),
    (b"post,1,sum,1\t2", Cause::Sum),
    (b"rush,2", Cause::Fields),
    (b"rush,1,bytes,x,y", Cause::Fields),
    (b"rush,1,bytes,\xff", Cause::Utf8),
    (b"Rush,1,bytes,x", Cause::Verb),
    (b"rush,01,bytes,x", Cause::Id),
    (b"rush,1,count,x", Cause::Op),
    (b"rush,1,sum,1  2", Cause::Sum),
    (b"rush,1,drop,", Cause::Op),
];

#[test]
fn tells_the_first_cause(rt: HostRuntime) -> Result<(), Fail> {
    for (record, why) in RECORDS {
        is_refused(&rt, rt.alloc(), record, why)?;
    }
    Ok(())
}

// A file of so many drops, of which this one is spelled wrongly.
fn drops(alloc: Global, lines: usize, wrong: Option<usize>) -> Result<Vec<u8>, Fail> {
    let mut bytes = Vec::new(alloc);
    for line in 0..lines {
        let text: &[u8] = if wrong == Some(line) {
            b"drop,01\n"
        } else {
            b"drop,1\n"
        };
        bytes.extend_from_slice(text)?;
    }
    Ok(bytes)
}

// Asks whether a file of so many drops is refused for this, or else has so many lines.
fn is_counted<R: Abort>(
    rt: &R,
    alloc: Global,
    lines: usize,
    wrong: Option<usize>,
    wanted: Option<FileRefused<Cause>>,
) -> Result<(), Fail> {
    let bytes = drops(alloc, lines, wrong)?;
    assert!(rt; bytes.len() <= MOST_BYTES);
    match read_jobs(alloc, &bytes) {
        Ok(found) => assert!(rt; wanted.is_none() && found.len() == lines),
        Err(fault) => assert!(rt; wanted == Some(fault)),
    }
    Ok(())
}

// The third field is what is refused, where something is.
const COUNTS: [(usize, Option<usize>, Option<FileRefused<Cause>>); 5] = [
    (65535, None, None),
    (65536, None, Some(FileRefused::TooMany)),
    (
        65536,
        Some(3),
        Some(FileRefused::Malformed {
            line: 3,
            cause: Cause::Id,
        }),
    ),
    (
        65536,
        Some(65534),
        Some(FileRefused::Malformed {
            line: 65534,
            cause: Cause::Id,
        }),
    ),
    (65536, Some(65535), Some(FileRefused::TooMany)),
];

#[test]
fn counts_records(rt: HostRuntime) -> Result<(), Fail> {
    for (lines, wrong, wanted) in COUNTS {
        is_counted(&rt, rt.alloc(), lines, wrong, wanted)?;
    }
    Ok(())
}

// A drop, and a post of this text.
fn two_lines(alloc: Global, text: &Text) -> Result<Lines, NoMemory> {
    let mut lines = Lines::new(alloc);
    lines.push(Line::Drop { id: 4 })?;
    lines.push(Line::Post {
        id: 7,
        op: Job::Words,
        text: Text::from_slice(alloc, text.bytes())?,
    })?;
    Ok(lines)
}

// Whether this is the post of these two lines.
fn is_the_post(line: &Line, bytes: &[u8]) -> bool {
    match line {
        Line::Post { id, op, text } => *id == 7 && *op == Job::Words && text.bytes() == bytes,
        Line::Rush { .. } | Line::Drop { .. } => false,
    }
}

#[test]
fn keeps_lists(rt: HostRuntime) -> Result<(), Fail> {
    let text = Text::from_slice(rt.alloc(), b"hi")?;
    assert!(rt; text.len() == 2 && text.get(1) == b'i');
    let lines = two_lines(rt.alloc(), &text)?;
    assert!(rt; lines.len() == 2);
    assert!(rt; is_the_post(lines.get(1), b"hi"));
    Ok(())
}

// The first two draws from 1.
fn draws_by_hand()
    ensures first { drawn 1 ≡ 1082269761 }
    ensures second { drawn 1082269761 ≡ 1152992998833853505 }
{}

#[test]
fn generates_two_lines(rt: HostRuntime) -> Result<(), Fail> {
    let lines = make_lines(rt.alloc(), 1, 2)?;
    let text = lines_text(rt.alloc(), &lines)?;
    let wanted = b"post,0,bytes,x\npost,1,bytes,xxxxx\n";
    assert!(rt; text.bytes() == wanted.as_slice());
    Ok(())
}

// How many lines a file has.
fn line_count<R: Abort>(rt: &R, alloc: Global, bytes: &[u8]) -> Result<usize, FileRefused<Cause>> {
    assert!(rt; bytes.len() <= MOST_BYTES);
    Ok(read_jobs(alloc, bytes)?.len())
}

#[test]
fn the_most_generated_lines_are_read(rt: HostRuntime) -> Result<(), Fail> {
    let lines = make_lines(rt.alloc(), u32::MAX, 60_000)?;
    let text = lines_text(rt.alloc(), &lines)?;
    assert!(rt; line_count(&rt, rt.alloc(), text.bytes()) == Ok(60_000));
    Ok(())
}
