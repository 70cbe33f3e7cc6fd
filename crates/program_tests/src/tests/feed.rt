ghost use Rattle.std.specs.Prelude.{ℕ, ◌≡◌, ◌-◌, ◌^◌, ◌<◌, ◌≤◌, ◌∷◌, [], Ok, Some};
ghost use Rattle.orc_fault.specs.declared.Failed.{Failed as Fault};
ghost use Rattle.orc_feed.specs.{
  Faults.{CountsFaults, CountsWriteFaults, Rose, one_more},
  InMemory.{moved_count, new_plan, next_plan},
  Whole.{AppendsPrefix, TakesAtMost, TakesWhole},
};

use orc_fault::{Failed, NoMemory};
use orc_feed::{MemorySink, MemorySource, ReadAllError, Sink, Source, read_all, write_all};
use std::alloc::Global;
use std::process::Abort;
use std::test::Fail;

mod streams;

// A count rises by one, but for its last value, where it stays.
fn counts_by_hand()
    ensures more { one_more 3 ≡ 4 }
    ensures full { one_more (2 ^ 64 - 1) ≡ 2 ^ 64 - 1 }
    ensures rose { Rose 3 4 }
    ensures stood { ¬ Rose 3 3 }
    ensures twice { ¬ Rose 3 5 }
    ensures last { Rose (2 ^ 64 - 1) (2 ^ 64 - 1) }
{}

// A write of two bytes that takes one leaves the count, and one that takes none of them counts one fault.
fn writes_by_hand()
    ensures took { CountsWriteFaults {E = Fault} (7 ∷ 8 ∷ []) 3 3 (Ok 1) }
    ensures stuck { CountsWriteFaults {E = Fault} (7 ∷ 8 ∷ []) 3 4 (Ok 0) }
    ensures unseen { ¬ CountsWriteFaults {E = Fault} (7 ∷ 8 ∷ []) 3 3 (Ok 0) }
    ensures nothing_to_take { ¬ CountsWriteFaults {E = Fault} [] 3 4 (Ok 0) }
    ensures read { ¬ CountsFaults {T = ℕ} {E = Fault} 3 4 (Ok 1) }
{}

// A call moves what is wanted, what is there and what a piece holds, whichever is least.
fn calls_by_hand()
    ensures wanted { moved_count (new_plan 4 []) 3 7 ≡ 3 }
    ensures there { moved_count (new_plan 4 []) 10 2 ≡ 2 }
    ensures piece { moved_count (new_plan 4 []) 10 7 ≡ 4 }
    ensures next { (next_plan (new_plan 4 (1 ∷ []))).call ≡ 1 }
    ensures last { (next_plan (record { piece = 4; fails = []; call = 2 ^ 64 - 1 })).call ≡ 2 ^ 64 - 1 }
{}

// Two bytes within a limit of two, and then three of them.
fn whole_by_hand()
    ensures all { TakesWhole 2 (7 ∷ 8 ∷ []) (Some []) (7 ∷ 8 ∷ []) }
    ensures part { ¬ TakesWhole 2 (7 ∷ 8 ∷ []) (Some (8 ∷ [])) (7 ∷ []) }
    ensures more { TakesWhole 2 (7 ∷ 8 ∷ 9 ∷ []) (Some []) (7 ∷ 8 ∷ 9 ∷ []) }
    ensures front { TakesAtMost 1 (Some (7 ∷ 8 ∷ [])) (Some (8 ∷ [])) }
    ensures too_many { ¬ TakesAtMost 1 (Some (7 ∷ 8 ∷ [])) (Some []) }
    ensures grown { ¬ TakesAtMost 1 (Some (8 ∷ [])) (Some (7 ∷ 8 ∷ [])) }
    ensures prefix { AppendsPrefix (Some (1 ∷ [])) (Some (1 ∷ 7 ∷ [])) (7 ∷ 8 ∷ []) }
    ensures other { ¬ AppendsPrefix (Some (1 ∷ [])) (Some (1 ∷ 8 ∷ [])) (7 ∷ 8 ∷ []) }
{}

const FILE: &[u8] = b"post,7,bytes,hello\n";

// Asks whether `read_all` answers so where calls of `piece` bytes, of which these fail, read `FILE`.
fn is_taken<R: Abort>(
    rt: &R,
    alloc: Global,
    piece: u64,
    fails: &[u64],
    limit: u64,
    wanted: Result<&[u8], ReadAllError>,
) -> Result<(), Fail> {
    assert!(rt; piece >= 1 && limit < 1 << 32);
    let mut source = MemorySource::new(alloc, FILE, piece, fails)?;
    match read_all(alloc, &mut source, limit) {
        Ok(all) => assert!(rt; wanted == Ok(all.as_slice())),
        Err(fault) => assert!(rt; wanted == Err(fault)),
    }
    Ok(())
}

// How many bytes a call moves, which calls fail, the limit, and the answer that is wanted.
type ReadCase = (
    u64,
    &'static [u64],
    u64,
    Result<&'static [u8], ReadAllError>,
);

const READS: [ReadCase; 6] = [
    (1, &[], 19, Ok(FILE)),
    (1000, &[], 100, Ok(FILE)),
    (4, &[], 5, Ok(b"post,7")),
    // The sixth call sees the end, and no seventh is made.
    (4, &[6], 19, Ok(FILE)),
    (4, &[5], 19, Err(ReadAllError::Failed)),
    (4, &[1], 19, Err(ReadAllError::Failed)),
];

#[test]
fn reads_in_pieces(rt: HostRuntime) -> Result<(), Fail> {
    for (piece, fails, limit, wanted) in READS {
        is_taken(&rt, rt.alloc(), piece, fails, limit, wanted)?;
    }
    Ok(())
}

// Asks whether `write_all` answers so, and leaves this of a text of two lines, in a room where calls of `piece` bytes, of which these fail,
// write.
fn is_left<R: Abort>(
    rt: &R,
    alloc: Global,
    room: u64,
    piece: u64,
    fails: &[u64],
    wanted: Result<(), Failed>,
    left: &[u8],
) -> Result<(), Fail> {
    assert!(rt; piece >= 1);
    let mut sink = MemorySink::new(alloc, room, piece, fails)?;
    let outcome = write_all(&mut sink, b"board\nreplies\n");
    assert!(rt; outcome == wanted);
    assert!(rt; sink.bytes() == left);
    Ok(())
}

// The room, how many bytes a call moves, which calls fail, the answer that is wanted, and what is left.
type WriteCase = (u64, u64, &'static [u64], Result<(), Failed>, &'static [u8]);

const WRITES: [WriteCase; 5] = [
    (64, 5, &[], Ok(()), b"board\nreplies\n"),
    (14, 1000, &[], Ok(()), b"board\nreplies\n"),
    (64, 5, &[1], Err(Failed), b"board"),
    (10, 3, &[], Err(Failed), b"board\nrepl"),
    (0, 3, &[], Err(Failed), b""),
];

#[test]
fn writes_in_pieces(rt: HostRuntime) -> Result<(), Fail> {
    for (room, piece, fails, wanted, left) in WRITES {
        is_left(&rt, rt.alloc(), room, piece, fails, wanted, left)?;
    }
    Ok(())
}

// Two of five reads fail, and lose nothing.
fn reads_around_faults<R: Abort>(rt: &R, source: &mut MemorySource) {
    let mut to = [0u8; 3];
    assert!(rt; source.read(&mut to) == Err(Failed));
    assert!(rt; source.read(&mut to) == Ok(2));
    assert!(rt; source.read(&mut to) == Err(Failed));
    assert!(rt; source.read(&mut to[2..]) == Ok(1));
    assert!(rt; to.as_slice() == b"abc".as_slice());
    assert!(rt; source.read(&mut to) == Ok(0));
}

// One of four writes fails, and takes nothing; the last finds no room.
fn writes_around_a_fault<R: Abort>(rt: &R, sink: &mut MemorySink) {
    assert!(rt; sink.write(b"abc") == Ok(2));
    assert!(rt; sink.write(b"c") == Err(Failed));
    assert!(rt; sink.write(b"cd") == Ok(1));
    assert!(rt; sink.write(b"d") == Ok(0));
    assert!(rt; sink.bytes() == b"abc".as_slice());
}

#[test]
fn goes_on_after_a_fault(rt: HostRuntime) -> Result<(), Fail> {
    let mut source = MemorySource::new(rt.alloc(), b"abc", 2, &[0, 2])?;
    reads_around_faults(&rt, &mut source);
    let mut sink = MemorySink::new(rt.alloc(), 3, 2, &[1])?;
    writes_around_a_fault(&rt, &mut sink);
    let refused = MemorySink::new(rt.alloc(), u64::MAX, 1, &[]);
    assert!(rt; matches!(refused, Err(NoMemory)));
    Ok(())
}
