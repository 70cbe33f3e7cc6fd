//! What one part of a record says.

ghost use Rattle.std.specs.Prelude.{◌≡◌, length};
ghost use Rattle.orc_core.specs.RecordParts.{any_holds, checked_below, doom_bare, doom_cut, doom_at, holds, holds_fresh, is_clear, is_due, is_empty, is_published, kept, names, number_of, same_target, saw, scan_at, scan_empty, scan_found, scanned, scans, slot_of};

use crate::records::{Agent, Doom, Reading, Scan, SlotUse};
use orc_words::{NEW_COUNTER, RETIRED};

// The part of a counter word that holds its count.
const COUNT_RANGE: u64 = RETIRED;

/// The first bit of a counter word's sequence.
pub const SEQUENCE: u64 = 16_777_216;

impl SlotUse {
    /// Whether the slot holds the row.
    pub fn holds(self, row: u32) -> bool
        ensures { result ≡ holds self row }
    {
        match self {
            SlotUse::Held(held) => held == row,
            _ => false,
        }
    }

    /// Whether the slot names no row.
    pub fn is_empty(self) -> bool
        ensures { result ≡ is_empty self }
    {
        match self {
            SlotUse::Empty => true,
            _ => false,
        }
    }

    /// Whether the slot names a row that isn't known to be linked.
    pub fn is_published(self) -> bool
        ensures { result ≡ is_published self }
    {
        match self {
            SlotUse::Published(_) => true,
            _ => false,
        }
    }

    // Whether the slot holds the fresh row.
    pub(crate) fn holds_fresh(self, fresh: Option<u32>) -> bool
        ensures { result ≡ holds_fresh fresh self }
    {
        match fresh {
            None => false,
            Some(row) => self.holds(row),
        }
    }
}

impl Agent {
    /// The agent's slot; Empty where it has none of this number.
    pub fn slot(&self, slot: u32) -> SlotUse
        ensures { result ≡ slot_of self.now slot }
    {
        if slot < 8 {
            self.slots[slot as usize]
        } else {
            SlotUse::Empty
        }
    }

    /// Whether some slot holds the row.
    pub fn holds(&self, row: u32) -> bool
        ensures { result ≡ any_holds self.now.slots row }
    {
        self.slots.iter().any(|slot| slot.holds(row))
    }

    /// Whether the row is the fresh one.
    pub fn is_fresh(&self, row: u32) -> bool
        ensures { result ≡ names self.now.fresh row }
    {
        names(self.fresh, row)
    }

    /// Whether an increment of the row is pending.
    pub fn has_increment(&self, row: u32) -> bool
        ensures { result ≡ names self.now.inc row }
    {
        names(self.inc, row)
    }

    /// Whether a decrement of the row is pending.
    pub fn has_decrement(&self, row: u32) -> bool
        ensures { result ≡ names self.now.dec row }
    {
        names(self.dec, row)
    }

    /// Whether the row came out of a handover word and waits for its scan.
    pub fn has_in_hand(&self, row: u32) -> bool
        ensures { result ≡ names self.now.hand row }
    {
        names(self.hand, row)
    }

    /// Whether the row is due, at any sequence.
    pub fn has_due(&self, row: u32) -> bool
        ensures { result ≡ saw self.now.due row }
    {
        saw(self.due, row)
    }

    /// Whether the row is due, at this sequence.
    pub fn has_due_at(&self, row: u32, sequence: u64) -> bool
        ensures { result ≡ is_due self.now.due row sequence }
    {
        match self.due {
            None => false,
            Some(due) => due.row == row && due.number == sequence,
        }
    }

    /// Whether the row was seen free.
    pub fn has_looked_at(&self, row: u32) -> bool
        ensures { result ≡ saw self.now.looked row }
    {
        saw(self.looked, row)
    }

    /// The life in which a row was seen free; 0 where none was.
    pub fn life_seen(&self) -> u64
        ensures { result ≡ number_of self.now.looked }
    {
        number_of(self.looked)
    }

    /// Whether the row's sequence was read.
    pub fn has_checked(&self, row: u32) -> bool
        ensures { result ≡ saw self.now.checked row }
    {
        saw(self.checked, row)
    }

    /// The sequence that was read of a row; 0 where none was.
    pub fn sequence_seen(&self) -> u64
        ensures { result ≡ number_of self.now.checked }
    {
        number_of(self.checked)
    }

    /// Whether the row's sequence was read, and is below the limit.
    pub fn has_checked_below(&self, row: u32, limit: u64) -> bool
        ensures { result ≡ checked_below self.now.checked row limit }
    {
        match self.checked {
            None => false,
            Some(checked) => checked.row == row && checked.number < limit,
        }
    }

    /// Whether the row is being scanned.
    pub fn scans(&self, row: u32) -> bool
        ensures { result ≡ scans self.now.scan row }
    {
        match self.scan {
            None => false,
            Some(scan) => scan.row == row,
        }
    }

    /// Whether the row is to be freed, and nothing is left to do before.
    pub fn has_bare_doom(&self, row: u32) -> bool
        ensures { result ≡ doom_bare self.now.doom row }
    {
        match self.doom {
            None => false,
            Some(doom) => doom.row == row && doom.bare,
        }
    }
}

// Whether this row is named.
pub(crate) fn names(name: Option<u32>, row: u32) -> bool
    ensures { result ≡ names name row }
{
    match name {
        None => false,
        Some(named) => named == row,
    }
}

// Whether both name the same row, or neither names one.
pub(crate) fn same_target(a: Option<u32>, b: Option<u32>) -> bool
    ensures { result ≡ same_target a b }
{
    match (a, b) {
        (None, None) => true,
        (Some(a), Some(b)) => a == b,
        _ => false,
    }
}

// The life or sequence that was seen; 0 where none was.
fn number_of(seen: Option<Reading>) -> u64
    ensures { result ≡ number_of seen }
{
    match seen {
        None => 0,
        Some(seen) => seen.number,
    }
}

// Whether the row was seen.
fn saw(seen: Option<Reading>, row: u32) -> bool
    ensures { result ≡ saw seen row }
{
    match seen {
        None => false,
        Some(seen) => seen.row == row,
    }
}

// Whether a counter word has count 0 and no retired bit.
pub(crate) fn is_clear(word: u64) -> bool
    ensures { result ≡ is_clear word }
{
    word % COUNT_RANGE == NEW_COUNTER && word / RETIRED % 2 == 0
}

// The row that is scanned; 0 where none is.
pub(crate) fn scanned(scan: Option<Scan>) -> u32
    ensures { result ≡ scanned scan }
{
    match scan {
        None => 0,
        Some(scan) => scan.row,
    }
}

// The counter word that the scan keeps.
pub(crate) fn kept(scan: Option<Scan>) -> u64
    ensures { result ≡ kept scan }
{
    match scan {
        None => 0,
        Some(scan) => scan.word,
    }
}

// Whether the scan's kept word has count 0.
pub(crate) fn scan_empty(scan: Option<Scan>) -> bool
    ensures { result ≡ scan_empty scan }
{
    match scan {
        None => false,
        Some(scan) => scan.word % COUNT_RANGE == NEW_COUNTER,
    }
}

// Whether the scan found its row.
pub(crate) fn scan_found(scan: Option<Scan>) -> bool
    ensures { result ≡ scan_found scan }
{
    match scan {
        None => false,
        Some(scan) => scan.found,
    }
}

// Whether the scan has come to this place.
pub(crate) fn scan_at(scan: Option<Scan>, place: u32) -> bool
    ensures { result ≡ scan_at scan place }
{
    match scan {
        None => false,
        Some(scan) => scan.place == place,
    }
}

// Whether the row is to be freed, and the link of this number is the next one to be taken out.
pub(crate) fn doom_at(doom: Option<Doom>, row: u32, number: u32) -> bool
    ensures { result ≡ doom_at doom row number }
{
    match doom {
        None => false,
        Some(doom) => doom.row == row && doom.cuts == number,
    }
}

// Whether the row is to be freed, with all its links out and its bit still set.
pub(crate) fn doom_cut(links: u32, doom: Option<Doom>, row: u32) -> bool
    ensures { result ≡ doom_cut links doom row }
{
    match doom {
        None => false,
        Some(doom) => doom.row == row && doom.cuts == links && !doom.bare,
    }
}
