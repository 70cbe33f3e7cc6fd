//! What a step leaves of the record that a pass keeps.

ghost use Rattle.std.specs.Option.{ForSome};
ghost use Rattle.std.specs.Prelude.{◌≡◌, ◌<◌, ◌≤◌, ◌==◌, ◌%◌, ◌/◌, ◌^◌, None, Some, cond, length};
ghost use Rattle.orc_core.specs.{
  Actions.{IsPackable},
  After.{IsRecordable, after, due_after, scan_by, scan_on},
  RecordParts.{same_target},
  declared.ops.CounterUse.{CounterUse},
};
ghost use Rattle.orc_machine_board.specs.Kept.{IsInUse, kept_of};
ghost use Rattle.orc_words.specs.Packed.{link_word};

use orc_core::{Agent, CounterUse, Op, Reading, SEQUENCE, Scan, SlotUse, advance};
use orc_words::{NEW_COUNTER, RETIRED, RowLink, pack_link};

// A slot that names a row is kept as this: not which row it names, nor whether the row is protected.
const IN_USE: SlotUse = SlotUse::Held(0);

/// The kept parts of the record after a step of this kind that read this word. The other parts are left as they come.
#[inline(always)]
pub(crate) fn keep_parts(own: &mut Agent, op: &Op, read: u64)
    requires packable { IsPackable op.now own.old }
    requires recordable { IsRecordable op.now own.old }
    requires in_use { IsInUse op.now own.old }
    requires room { length (after op.now own.old read).list.items ≤ own.old.list.room }
    ensures { kept_of own.new ≡ kept_of (after op.now own.old read) }
{
    match op {
        Op::LinkLoad { place: _, slot: _ } => {}
        Op::MoveOn { slot: _, row: _ } => {}
        Op::Enroll
        | Op::Fill { .. }
        | Op::Read { .. }
        | Op::LinkStore { .. }
        | Op::Inc { .. }
        | Op::Dec { .. }
        | Op::DecHeld { .. }
        | Op::HandoverLook { .. }
        | Op::CounterLoad {
            row: _,
            how: CounterUse::Check,
        }
        | Op::Free { .. } => {}
        Op::GateLook { row } => own.looked = life_of(*row, read),
        Op::GateTake { row } => {
            if read == 2 * own.life_seen() {
                own.fresh = Some(*row);
            }
            own.looked = None;
        }
        Op::Publish { slot, row: _ } => own.slots[*slot as usize] = IN_USE,
        Op::Arm { row: _ } => own.slots[0] = IN_USE,
        Op::LinkCas { place: _, from, to } => own.fresh = fresh_after(own.fresh, *from, *to, read),
        Op::CounterLoad {
            row,
            how: CounterUse::End,
        } => own.scan = scan_after(own.scan, *row, read),
        Op::SlotLook { k: _ } => look_on(&mut own.scan, read),
        Op::Unretire { row: _ } => own.scan = None,
        _ => advance(own, op, read),
    }
}

// The row, and the life that this gate word of it tells, where the row is free.
#[inline(always)]
fn life_of(row: u32, gate: u64) -> Option<Reading>
    ensures { result ≡ cond (gate % 2 == 0) (Some (record { row = row; number = gate / 2 })) None }
{
    if gate % 2 == 0 {
        Some(Reading {
            row,
            number: gate / 2,
        })
    } else {
        None
    }
}

// What of the fresh row is left by the change of a link that read this word: none, where the row is linked now.
#[inline(always)]
fn fresh_after(fresh: Option<u32>, from: RowLink, to: RowLink, read: u64) -> Option<u32>
    requires { ForSome from.to (λ r. r < 65535) }
    ensures { result ≡ cond (read == link_word from)
        (cond (same_target from.to to.to) fresh (cond (same_target fresh to.to) None fresh)) fresh }
{
    match (fresh, to_count(from.to, to.to).0) {
        (Some(row), Some(linked)) if row == linked && read == pack_link(from) => None,
        _ => fresh,
    }
}

// A scan looks at this slot word: it has found its row there, or goes on at the next place.
#[inline(always)]
fn look_on(scan: &mut Option<Scan>, word: u64)
    requires { ForSome scan.old (λ s. s.place < 2 ^ 31) }
    ensures { scan.new ≡ scan_on scan.old word }
{
    if let Some(scan) = scan {
        scan.found = word == u64::from(scan.row) + 1;
        if !scan.found {
            scan.place += 1;
        }
    }
}

// What of a scan is left by its end, where the row's counter word is this: none, or a new one where that isn't the kept word.
#[inline(always)]
fn scan_after(scan: Option<Scan>, row: u32, counter: u64) -> Option<Scan>
    ensures { result ≡ scan_by CounterUse.End row counter scan }
{
    let kept = match scan {
        Some(scan) => scan.word,
        None => 0,
    };
    if counter == kept {
        None
    } else {
        Some(Scan {
            row,
            word: counter,
            place: 0,
            found: false,
        })
    }
}

/// The row, and the sequence of this counter word of it, where that has count 0 and no retired bit: the row is due.
#[inline(always)]
pub fn due_by(row: u32, word: u64) -> Option<Reading>
    ensures { result ≡ due_after row word None }
{
    // the part of the word that holds its count lies below the retired bit
    if word % RETIRED == NEW_COUNTER && word / RETIRED % 2 == 0 {
        Some(Reading {
            row,
            number: word / SEQUENCE,
        })
    } else {
        None
    }
}

/// What the change of a link's target leaves to be counted: the new target and the old one, unless both are the same.
#[inline(always)]
pub fn to_count(old: Option<u32>, new: Option<u32>) -> (Option<u32>, Option<u32>)
    ensures up { result.0 ≡ cond (same_target old new) None new }
    ensures down { result.1 ≡ cond (same_target old new) None old }
{
    match (old, new) {
        (None, None) => (None, None),
        (Some(before), Some(after)) if before == after => (None, None),
        _ => (new, old),
    }
}
