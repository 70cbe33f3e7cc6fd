//! Split order.

ghost use Rattle.std.specs.Prelude.{◌≡◌, ◌≢◌, ◌<◌, true, false};
ghost use Rattle.orc_split_rule.specs.{SplitOrder.{key_place, reversed}, declared.split.SplitNote.{SplitNote}};
ghost use Rattle.orc_split_set.specs.{
  Laws.{Entries.{split_allows_absence, split_allows_add, split_allows_aim, split_allows_mark, split_allows_presence, split_allows_unlink, split_enters, split_enters_none}, Ordered.{split_ordered}},
  SplitSearches.{rank_of_place, split_manner},
};

use orc_heap::{Held, Links};
use orc_history::SetEntry;
use orc_ordered_search::{Rank, SetRank};
use orc_split_rule::{Split, SplitNote};

/// A place in split order: that of this key, or of the dummy of this bucket.
#[derive(Clone, Copy)]
pub struct SplitPlace {
    pub value: u64,
    pub has_key: bool,
}

// Whether a number comes before another one with their bits reversed: the lowest bit decides in which they differ.
fn is_lower(number: u64, other: u64) -> bool
    requires { number ≢ other }
    ensures yes { result ≡ true → reversed number < reversed other }
    ensures no { result ≡ false → reversed other < reversed number }
{
    let differing = number ^ other;
    (number >> differing.trailing_zeros()) % 2 == 0
}

impl Rank for SplitPlace {
    type Rule = Split;

    ghost manner = { split_manner };

    ghost number = { rank_of_place };

    ghost counted = { λ place. place.has_key };

    #[inline(always)]
    fn read<L: Links<Rule = Split>>(links: &L, p: &mut L::Pass, node: &Held) -> SplitPlace {
        let value = links.value(p, node, 0);
        let kind = links.value(p, node, 1);
        let has_key = kind == 1;
        SplitPlace { value, has_key }
    }

    // The dummy of a number comes right before its key.
    fn is_before(self, other: SplitPlace) -> bool {
        if self.value == other.value {
            return !self.has_key && other.has_key;
        }
        is_lower(self.value, other.value)
    }

    #[inline(always)]
    fn is_counted(self) -> bool {
        self.has_key
    }

    ghost ordered = { split_ordered };
}

impl SetRank for SplitPlace {
    ghost key_rank = { key_place };

    ghost noted = { λ entry. SplitNote.Entry entry };

    ghost unlinking = { SplitNote.Unlink };

    ghost key_kind = { 1 };

    #[inline(always)]
    fn note(entry: SetEntry) -> SplitNote {
        SplitNote::Entry(entry)
    }

    #[inline(always)]
    fn unlink_note() -> SplitNote {
        SplitNote::Unlink
    }

    #[inline(always)]
    fn kind_of_keys() -> u64 {
        1
    }

    ghost enters = { split_enters };

    ghost enters_none = { split_enters_none };

    ghost allows_aim = { split_allows_aim };

    ghost allows_absence = { split_allows_absence };

    ghost allows_presence = { split_allows_presence };

    ghost allows_mark = { split_allows_mark };

    ghost allows_add = { split_allows_add };

    ghost allows_unlink = { split_allows_unlink };
}
