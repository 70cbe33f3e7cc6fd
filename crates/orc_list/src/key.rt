//! Keys as ranks.

ghost use Rattle.orc_chain_rule.specs.declared.chain.ChainNote.{ChainNote};
ghost use Rattle.orc_list.specs.{
  Laws.{Entries.{list_allows_absence, list_allows_add, list_allows_aim, list_allows_mark, list_allows_presence, list_allows_unlink, list_enters, list_enters_none}, Ordered.{list_ordered}},
  Searches.{list_manner},
};
ghost use Rattle.std.specs.Prelude.{false};

use orc_chain_rule::{Chain, ChainNote};
use orc_heap::{Held, Links};
use orc_history::SetEntry;
use orc_ordered_search::{Rank, SetRank};

/// A key, by which the nodes of a list stand in order.
#[derive(Clone, Copy)]
pub struct Key(pub u64);

impl Rank for Key {
    type Rule = Chain;

    ghost manner = { list_manner };

    ghost number = { λ key. key.0 };

    ghost counted = { λ key. false };

    #[inline(always)]
    fn read<L: Links<Rule = Chain>>(links: &L, p: &mut L::Pass, node: &Held) -> Key {
        Key(links.value(p, node, 0))
    }

    #[inline(always)]
    fn is_before(self, other: Key) -> bool {
        self.0 < other.0
    }

    #[inline(always)]
    fn is_counted(self) -> bool {
        false
    }

    ghost ordered = { list_ordered };
}

impl SetRank for Key {
    ghost key_rank = { λ key. key };

    ghost noted = { λ entry. ChainNote.Entry entry };

    ghost unlinking = { ChainNote.Unlink };

    ghost key_kind = { 0 };

    #[inline(always)]
    fn note(entry: SetEntry) -> ChainNote {
        ChainNote::Entry(entry)
    }

    #[inline(always)]
    fn unlink_note() -> ChainNote {
        ChainNote::Unlink
    }

    #[inline(always)]
    fn kind_of_keys() -> u64 {
        0
    }

    ghost enters = { list_enters };

    ghost enters_none = { list_enters_none };

    ghost allows_aim = { list_allows_aim };

    ghost allows_absence = { list_allows_absence };

    ghost allows_presence = { list_allows_presence };

    ghost allows_mark = { list_allows_mark };

    ghost allows_add = { list_allows_add };

    ghost allows_unlink = { list_allows_unlink };
}
