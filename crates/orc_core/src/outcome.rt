//! The second part of a step: what the agent's record becomes.

ghost use Rattle.std.specs.Prelude.{◌≡◌, ◌<◌, ◌≤◌, ◌^◌, ◌%◌, length};
ghost use Rattle.std.specs.Option.{ForSome};
ghost use Rattle.orc_words.specs.declared.place.Word.{Word};
ghost use Rattle.orc_core.specs.{Actions.{IsPackable}, After.{IsRecordable, after, bared, cut_of, due_after, promoted, scan_on}};

use crate::actions::clear_word;
use crate::ops::{CounterUse, Op};
use crate::parts::{SEQUENCE, is_clear, kept, same_target};
use crate::records::{Agent, Doom, Reading, Scan, SlotUse};
use orc_words::{DECREMENT, INCREMENT, RETIRED, RowLink, named, pack_link};

fn promoted(slot: SlotUse, word: u64) -> SlotUse
    ensures { result ≡ promoted slot word }
{
    match slot {
        SlotUse::Published(row) if word / 2 == u64::from(row) + 1 => SlotUse::Held(row),
        _ => slot,
    }
}

fn due_after(row: u32, word: u64, due: Option<Reading>) -> Option<Reading>
    ensures { result ≡ due_after row word due }
{
    if is_clear(word) {
        Some(Reading {
            row,
            number: word / SEQUENCE,
        })
    } else {
        due
    }
}

fn cut_of(doom: Option<Doom>, row: u32, number: u32) -> Option<Doom>
    requires { number < 2 }
    ensures { result ≡ cut_of doom row number }
{
    match doom {
        None => None,
        Some(doom) => Some(Doom {
            row: doom.row,
            cuts: if doom.row == row && doom.cuts == number {
                number + 1
            } else {
                doom.cuts
            },
            bare: doom.bare,
        }),
    }
}

fn bared(doom: Option<Doom>) -> Option<Doom>
    ensures { result ≡ bared doom }
{
    match doom {
        None => None,
        Some(doom) => Some(Doom {
            row: doom.row,
            cuts: doom.cuts,
            bare: true,
        }),
    }
}

fn scan_on(scan: Option<Scan>, word: u64) -> Option<Scan>
    requires { ForSome scan (λ s. s.place < 2 ^ 31) }
    ensures { result ≡ scan_on scan word }
{
    match scan {
        None => None,
        Some(scan) => {
            let found = word == u64::from(scan.row) + 1;
            Some(Scan {
                row: scan.row,
                word: scan.word,
                place: if found { scan.place } else { scan.place + 1 },
                found,
            })
        }
    }
}

/// The record after a step of this kind that read this word.
#[inline(always)]
pub fn advance(agent: &mut Agent, op: &Op, read: u64)
    requires packable { IsPackable op.now agent.old }
    requires recordable { IsRecordable op.now agent.old }
    requires room { length (after op.now agent.old read).list.items ≤ agent.old.list.room }
    ensures { agent.new ≡ after op.now agent.old read }
{
    match op {
        Op::Enroll => agent.enrolled = true,
        Op::GateLook { row } => gate_seen(agent, *row, read),
        Op::GateTake { row } => gate_taken(agent, *row, read),
        Op::Fill { .. } | Op::Read { .. } | Op::HandoverLook { .. } => {}
        Op::LinkLoad { slot, .. } => {
            if let Some(slot) = slot {
                let at = *slot as usize;
                agent.slots[at] = promoted(agent.slots[at], read);
            }
        }
        Op::Publish { slot, row } | Op::MoveOn { slot, row } => {
            agent.slots[*slot as usize] = if agent.is_fresh(*row) {
                SlotUse::Held(*row)
            } else {
                SlotUse::Published(*row)
            };
        }
        Op::Clear { slot } => agent.slots[*slot as usize] = SlotUse::Empty,
        Op::Arm { row } => agent.slots[0] = SlotUse::Held(*row),
        Op::LinkCas { from, to, .. } => link_swung(agent, *from, *to, read),
        Op::LinkStore { row, number, link } => link_stored(agent, *row, *number, *link, read),
        Op::Inc { row } => {
            agent.inc = None;
            agent.due = due_after(*row, read.wrapping_add(INCREMENT), agent.due);
        }
        Op::Dec { row } | Op::DecHeld { row } => {
            agent.dec = None;
            agent.due = due_after(*row, read.wrapping_add(DECREMENT), agent.due);
        }
        Op::SetRetired { row, sequence } => bit_tried(agent, *row, *sequence, read),
        Op::CounterLoad { row, how } => counter_read(agent, *row, *how, read),
        Op::Unretire { row } => bit_cleared(agent, *row, read),
        Op::SlotLook { .. } => agent.scan = scan_on(agent.scan, read),
        Op::Hand { .. } => {
            agent.scan = None;
            agent.hand = named(read);
        }
        Op::TakeIn { .. } => {
            if let Some(row) = named(read) {
                agent.list.push(row);
            }
        }
        Op::Free { .. } => agent.doom = None,
    }
}

// A gate was read: a free row is kept with its life.
fn gate_seen(agent: &mut Agent, row: u32, read: u64)
    ensures { agent.new ≡ after (Op.GateLook row) agent.old read }
{
    agent.looked = if read % 2 == 0 {
        Some(Reading {
            row,
            number: read / 2,
        })
    } else {
        None
    };
    agent.checked = None;
}

// A gate was tried: a row whose gate was as it was seen is out, and fresh.
fn gate_taken(agent: &mut Agent, row: u32, read: u64)
    requires { IsPackable (Op.GateTake row) agent.old }
    ensures { agent.new ≡ after (Op.GateTake row) agent.old read }
{
    if read == 2 * agent.life_seen() {
        agent.fresh = Some(row);
    }
    agent.looked = None;
    agent.checked = None;
}

// A link was tried. Where it held `from` and the targets differ, their counts have to follow.
fn link_swung(agent: &mut Agent, from: RowLink, to: RowLink, read: u64)
    requires { ForSome from.to (λ r. r < 65535) }
    ensures { (place : Word) → agent.new ≡ after (Op.LinkCas place from to) agent.old read }
{
    if read == pack_link(from) && !same_target(from.to, to.to) {
        agent.inc = to.to;
        agent.dec = from.to;
        if same_target(agent.fresh, to.to) {
            agent.fresh = None;
        }
    }
    agent.checked = None;
}

// A link was stored. Where the targets differ, their counts have to follow.
fn link_stored(agent: &mut Agent, row: u32, number: u32, link: RowLink, read: u64)
    requires { number < 2 }
    ensures { agent.new ≡ after (Op.LinkStore row link number) agent.old read }
{
    let old = named(read / 2);
    if !same_target(old, link.to) {
        agent.inc = link.to;
        agent.dec = old;
    }
    agent.checked = None;
    agent.doom = cut_of(agent.doom, row, number);
}

// The retired bit was tried. Who sets it puts the row at the end of its list.
fn bit_tried(agent: &mut Agent, row: u32, sequence: u64, read: u64)
    requires sequence { sequence < 2 ^ 40 }
    requires room { length (after (Op.SetRetired row sequence) agent.old read).list.items ≤ agent.old.list.room }
    ensures { agent.new ≡ after (Op.SetRetired row sequence) agent.old read }
{
    agent.due = None;
    if read == clear_word(sequence) {
        if agent.is_fresh(row) {
            agent.fresh = None;
        }
        agent.list.push(row);
    }
}

// The retired bit was cleared. After a scan the row may be due again.
fn bit_cleared(agent: &mut Agent, row: u32, read: u64)
    ensures { agent.new ≡ after (Op.Unretire row) agent.old read }
{
    if agent.scan.is_some() {
        agent.due = due_after(row, read.wrapping_sub(RETIRED), agent.due);
    }
    agent.scan = None;
    agent.doom = bared(agent.doom);
}

// A counter word was read.
fn counter_read(agent: &mut Agent, row: u32, how: CounterUse, read: u64)
    ensures { agent.new ≡ after (Op.CounterLoad row how) agent.old read }
{
    let anew = Some(Scan {
        row,
        word: read,
        place: 0,
        found: false,
    });
    match how {
        CounterUse::Check => agent.checked = Some(Reading {
            row,
            number: read / SEQUENCE,
        }),
        CounterUse::Start => {
            if !agent.has_in_hand(row) {
                agent.list.leave_first();
            }
            agent.hand = None;
            agent.scan = anew;
        }
        CounterUse::End => {
            if read == kept(agent.scan) {
                agent.scan = None;
                agent.doom = Some(Doom {
                    row,
                    cuts: 0,
                    bare: false,
                });
            } else {
                agent.scan = anew;
            }
        }
    }
}
