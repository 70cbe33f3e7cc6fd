//! Reading both parts of the pair, turn by turn.

ghost use Rattle.std.specs.Prelude.{◌≡◌, ◌<◌, ◌*◌, ℕ, [], IsErr, Some};
ghost use mathlib.Core.List.{IsPrefix};
ghost use Rattle.orc_heap.specs.{
  Domains.{MakesAtMost},
  OwnEvents.{Only},
  Seats.{HoldsPlace, HoldsWant, heap_of, link_in, place_in},
  Slots.{Hold, Holds, IsFree, id_in},
};
ghost use Rattle.orc_cell.specs.{
  Answers.{ReadAnswers},
  Turns.{Confirms, HoldsPart, IsCellDomain, IsPairOf, LeadsToPart, MaySee, ReadsPair, ReadsPart, ReadsTurns},
};

use orc_fault::Again;
use orc_heap::{At, Held, Links, Looked, Want};
use orc_pairs_rule::{CellEntry, Pairs, PairsNote};

// The root that names the pair.
pub(crate) const PAIR: u32 = 0;

// Holds the part to which a link of a pair leads.
pub(crate) fn hold_part<L: Links<Rule = Pairs>>(
    links: &L,
    p: &mut L::Pass,
    place: &At,
    slot: u32,
) -> Held
    requires pass { L.belongs links.now p.old }
    requires place { HoldsPlace (L.numbers links.now) (L.seat links.now p.old).slots place.now }
    requires slot { IsFree (L.seat links.now p.old).slots slot }
    requires leads { LeadsToPart (heap_of (L.numbers links.now) (L.seat links.now p.old)) (place_in (L.seat links.now p.old).slots place.now) }
    ensures pass { L.belongs links.now p.new }
    ensures later { IsPrefix (L.journal p.old) (L.journal p.new) }
    ensures tries { MakesAtMost L.Links links.now 2 p.old p.new }
    ensures held { HoldsPart (L.numbers links.now) (place_in (L.seat links.now p.old).slots place.now) slot (L.seat links.now p.old) result
        (L.seat links.now p.new) }
    ensures holds { Holds (L.seat links.now p.new).slots result }
{
    match links.look(p, place, slot) {
        Looked::Stable(_, Some(part)) => part,
        Looked::Stable(_, None) => unreachable!(),
        Looked::Moved => unreachable!(),
    }
}

// Reads the value of the part to which a link of a pair leads.
fn read_part<L: Links<Rule = Pairs>>(links: &L, p: &mut L::Pass, place: &At) -> u64
    requires pass { L.belongs links.now p.old }
    requires place { HoldsPlace (L.numbers links.now) (L.seat links.now p.old).slots place.now }
    requires slot { IsFree (L.seat links.now p.old).slots 2 }
    requires leads { LeadsToPart (heap_of (L.numbers links.now) (L.seat links.now p.old)) (place_in (L.seat links.now p.old).slots place.now) }
    ensures pass { L.belongs links.now p.new }
    ensures later { IsPrefix (L.journal p.old) (L.journal p.new) }
    ensures tries { MakesAtMost L.Links links.now 2 p.old p.new }
    ensures read { ReadsPart (L.numbers links.now) (place_in (L.seat links.now p.old).slots place.now) (L.seat links.now p.old) result
        (L.seat links.now p.new) }
{
    let part = hold_part(links, p, place, 2);
    let value = links.value(p, &part, 0);
    links.release(p, part);
    value
}

// Enters a Seen of these parts, if root 0 still shows the link.
fn confirm<L: Links<Rule = Pairs>>(
    links: &L,
    p: &mut L::Pass,
    link: &Want,
    left: u64,
    right: u64,
) -> bool
    requires pass { L.belongs links.now p.old }
    requires made { IsCellDomain (L.numbers links.now) (L.agents links.now) (L.opening links.now) }
    requires link { HoldsWant (L.seat links.now p.old).slots link.now }
    requires allowed { MaySee (L.numbers links.now) (L.seat links.now p.old) (link_in (L.seat links.now p.old).slots link.now) left right }
    ensures pass { L.belongs links.now p.new }
    ensures later { IsPrefix (L.journal p.old) (L.journal p.new) }
    ensures tries { MakesAtMost L.Links links.now 1 p.old p.new }
    ensures confirmed { Confirms (link_in (L.seat links.now p.old).slots link.now) left right (L.seat links.now p.old) result (L.seat links.now p.new) }
{
    let agent = links.agent(p);
    let seen = PairsNote::Entry(CellEntry::Seen { agent, left, right });
    links.same(p, &At::Root(PAIR), link, Some(seen))
}

// Reads the parts of a pair that root 0 named.
fn read_pair<L: Links<Rule = Pairs>>(links: &L, p: &mut L::Pass, pair: &Held) -> Option<(u64, u64)>
    requires pass { L.belongs links.now p.old }
    requires made { IsCellDomain (L.numbers links.now) (L.agents links.now) (L.opening links.now) }
    requires held { Holds (L.seat links.now p.old).slots pair.now }
    requires slot { IsFree (L.seat links.now p.old).slots 2 }
    requires pair { IsPairOf (heap_of (L.numbers links.now) (L.seat links.now p.old)) (id_in (L.seat links.now p.old).slots pair.now) }
    ensures pass { L.belongs links.now p.new }
    ensures later { IsPrefix (L.journal p.old) (L.journal p.new) }
    ensures tries { MakesAtMost L.Links links.now 5 p.old p.new }
    ensures read { ReadsPair (L.numbers links.now) (id_in (L.seat links.now p.old).slots pair.now) (L.seat links.now p.old) result (L.seat links.now p.new) }
{
    let left = read_part(links, p, &At::Node(pair));
    let right = read_part(links, p, &At::Side(pair));
    if confirm(links, p, &Want::Node(pair, false), left, right) {
        Some((left, right))
    } else {
        None
    }
}

// Makes one turn of a read.
fn read_turn<L: Links<Rule = Pairs>>(links: &L, p: &mut L::Pass) -> Option<(u64, u64)>
    requires pass { L.belongs links.now p.old }
    requires made { IsCellDomain (L.numbers links.now) (L.agents links.now) (L.opening links.now) }
    requires slots { IsFree (L.seat links.now p.old).slots 1 × IsFree (L.seat links.now p.old).slots 2 }
    ensures pass { L.belongs links.now p.new }
    ensures later { IsPrefix (L.journal p.old) (L.journal p.new) }
    ensures tries { MakesAtMost L.Links links.now 7 p.old p.new }
    ensures read { ReadsTurns 1 (L.seat links.now p.old) result (L.seat links.now p.new) }
{
    match links.look(p, &At::Root(PAIR), 1) {
        Looked::Stable(_, Some(pair)) => {
            let parts = read_pair(links, p, &pair);
            links.release(p, pair);
            parts
        }
        Looked::Stable(_, None) => {
            if confirm(links, p, &Want::Null(false), 0, 0) {
                Some((0, 0))
            } else {
                None
            }
        }
        Looked::Moved => None,
    }
}

// Reads both parts, in at most so many turns.
pub(crate) fn read_turns<L: Links<Rule = Pairs>>(
    links: &L,
    p: &mut L::Pass,
    turns: u64,
) -> Result<(u64, u64), Again>
    requires pass { L.belongs links.now p.old }
    requires made { IsCellDomain (L.numbers links.now) (L.agents links.now) (L.opening links.now) }
    requires slots { IsFree (L.seat links.now p.old).slots 1 × IsFree (L.seat links.now p.old).slots 2 }
    ensures pass { L.belongs links.now p.new }
    ensures later { IsPrefix (L.journal p.old) (L.journal p.new) }
    ensures tries { MakesAtMost L.Links links.now (7 * turns) p.old p.new }
    ensures read { ReadAnswers turns (L.seat links.now p.old) result (L.seat links.now p.new) }
    ensures no_turns { turns ≡ 0 → IsErr result }
    ensures nothing { turns ≡ 0 → Only [] (L.seat links.now p.old) (L.seat links.now p.new) }
{
    for _ in 0..turns {
        match read_turn(links, p) {
            Some(parts) => return Ok(parts),
            None => {}
        }
    }
    Err(Again)
}
