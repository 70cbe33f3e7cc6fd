//! How many buckets there are.

ghost use Rattle.std.specs.Prelude.{◌≡◌, ◌*◌, ◌≤◌};
ghost use mathlib.Core.List.{IsPrefix};
ghost use Rattle.orc_heap.specs.Domains.{MakesAtMost};
ghost use Rattle.orc_ordered_search.specs.Searches.{HasRoom};
ghost use Rattle.orc_split_rule.specs.SplitDiscipline.{greatest};
ghost use Rattle.orc_split_set.specs.SplitSearches.{ReadsSize, ReadsSizeIn};

use orc_fault::Again;
use orc_heap::{At, Links, Looked};
use orc_split_rule::Split;

// The number of buckets, or None where the link to its node moved meanwhile.
pub(crate) fn read_size<L: Links<Rule = Split>>(
    links: &L,
    p: &mut L::Pass,
    most: u32,
) -> Option<u32>
    requires pass { L.belongs links.now p.old }
    requires most { (most ≡ greatest (L.numbers links.now)) × (1 ≤ most) }
    requires room { HasRoom (L.seat links.now p.old).slots }
    ensures pass { L.belongs links.now p.new }
    ensures later { IsPrefix (L.journal p.old) (L.journal p.new) }
    ensures read { ReadsSize (L.numbers links.now) (L.seat links.now p.old) result (L.seat links.now p.new) }
    ensures tries { MakesAtMost L.Links links.now 2 p.old p.new }
{
    match links.look(p, &At::Root(most), 2) {
        Looked::Stable(_, None) => Some(1),
        Looked::Stable(_, Some(node)) => {
            let size = links.value(p, &node, 0);
            links.release(p, node);
            Some(size as u32)
        }
        Looked::Moved => None,
    }
}

// The number of buckets, in at most so many turns.
pub(crate) fn size_turns<L: Links<Rule = Split>>(
    links: &L,
    p: &mut L::Pass,
    most: u32,
    turns: u64,
) -> Result<u32, Again>
    requires pass { L.belongs links.now p.old }
    requires most { (most ≡ greatest (L.numbers links.now)) × (1 ≤ most) }
    requires room { HasRoom (L.seat links.now p.old).slots }
    ensures pass { L.belongs links.now p.new }
    ensures later { IsPrefix (L.journal p.old) (L.journal p.new) }
    ensures read { ReadsSizeIn (L.numbers links.now) turns (L.seat links.now p.old) result (L.seat links.now p.new) }
    ensures tries { MakesAtMost L.Links links.now (2 * turns) p.old p.new }
{
    for _ in 0..turns {
        if let Some(size) = read_size(links, p, most) {
            return Ok(size);
        }
    }
    Err(Again)
}
