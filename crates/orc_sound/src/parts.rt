//! What one part of a record or one word says of a row.

ghost use Rattle.std.specs.Prelude.{◌≡◌, ◌<◌};
ghost use Rattle.orc_core.specs.Counts.{links_to};
ghost use Rattle.orc_sound.specs.{
  Doomed.{dooms},
  Linked.{changes, uses},
  NoLeak.{keeps_out},
  SoundParts.{slot_word},
  RetirementToken.{dooming},
};

use orc_core::{Agent, Doom, SlotUse};

// Whether the doom is the row, with its bit still set.
pub(crate) fn dooming(doom: Option<Doom>, row: u32) -> bool
    ensures { result ≡ dooming doom row }
{
    match doom {
        None => false,
        Some(doom) => doom.row == row && !doom.bare,
    }
}

// Whether the target of a link word is the row.
pub(crate) fn links_to(word: u64, row: u32) -> bool
    ensures { result ≡ links_to word row }
{
    word / 2 == u64::from(row) + 1
}

// Whether the doom is the row.
pub(crate) fn dooms(doom: Option<Doom>, row: u32) -> bool
    ensures { result ≡ dooms doom row }
{
    match doom {
        None => false,
        Some(doom) => doom.row == row,
    }
}

// Whether the agent has a change of the row pending, or has it due.
pub(crate) fn changes(agent: &Agent, row: u32) -> bool
    ensures { result ≡ changes agent.now row }
{
    agent.has_increment(row) || agent.has_decrement(row) || agent.has_due(row)
}

// Whether the agent holds the row, has it fresh, or has a change of it pending.
pub(crate) fn uses(agent: &Agent, row: u32) -> bool
    ensures { result ≡ uses agent.now row }
{
    agent.holds(row)
        || agent.is_fresh(row)
        || agent.has_increment(row)
        || agent.has_decrement(row)
        || agent.has_due(row)
}

// Whether the agent is a reason for the row to be out.
pub(crate) fn keeps_out(agent: &Agent, row: u32, sequence: u64) -> bool
    ensures { result ≡ keeps_out agent.now row sequence }
{
    agent.is_fresh(row)
        || agent.has_increment(row)
        || agent.has_due_at(row, sequence)
        || agent.has_bare_doom(row)
}

// What the word of a slot that is used so must be.
pub(crate) fn slot_word(slot: SlotUse) -> u64
    ensures { result ≡ slot_word slot }
{
    match slot {
        SlotUse::Empty => 0,
        SlotUse::Published(row) | SlotUse::Held(row) => u64::from(row) + 1,
    }
}
