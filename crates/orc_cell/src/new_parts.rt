//! New parts, each named by a staging root of its agent until a pair leads to it.

ghost use Rattle.std.specs.Prelude.{◌≡◌, ◌<◌, ℕ, [], ◌∷◌, Some, None, IfOk, IfErr, length};
ghost use mathlib.Core.List.{IsPrefix};
ghost use Rattle.orc_heap.specs.{
  Domains.{MakesAtMost},
  Calls.{move_of},
  Allowed.{AllowedLater},
  Heap.{link_to, null, shown},
  OwnEvents.{Only},
  Seats.{HoldsWant, heap_of, link_in},
  Slots.{Holds, IsFree, id_in},
  declared.events.Place.{Place},
  declared.holds.At.{At},
};
ghost use Rattle.orc_history.specs.Journals.{Within};
ghost use Rattle.orc_pairs_rule.specs.PairsDiscipline.{IsStaging, PairsMay};
ghost use Rattle.std.specs.Prelude.{false};
ghost use Rattle.orc_cell.specs.{
  Publishes.{IsPublished, LetsGo, MovesFreely, MovesStaging, Readies, SideHeld, Stages, Unstages, given_of, nodes_for, nodes_of},
  Turns.{IsCellDomain},
};

use crate::publish::New;
use orc_fault::NoNode;
use orc_heap::{At, Held, Links, Want};
use orc_pairs_rule::{Pairs, PairsNote};

/// Where a new part is staged: in a slot that holds it, by a root that names it.
#[derive(Clone, Copy)]
pub struct Staging {
    pub slot: u32,
    pub root: u32,
}

// Moves a staging root, which its own agent alone moves.
fn move_root<L: Links<Rule = Pairs>>(
    links: &L,
    p: &mut L::Pass,
    root: u32,
    from: &Want,
    to: &Want,
    note: PairsNote,
)
    requires pass { L.belongs links.now p.old }
    requires there { root < (L.numbers links.now).roots }
    requires staging { IsStaging (L.seat links.now p.old).agent root }
    requires links { HoldsWant (L.seat links.now p.old).slots from.now × HoldsWant (L.seat links.now p.old).slots to.now }
    requires shows { shown (heap_of (L.numbers links.now) (L.seat links.now p.old)) (Place.Root root) ≡ Some (link_in (L.seat links.now p.old).slots from.now) }
    requires target { MovesFreely (L.seat links.now p.old) to.now }
    requires allowed { AllowedLater (PairsMay (L.numbers links.now)) (L.numbers links.now) (L.seat links.now p.old).agent (L.seat links.now p.old).seen
        (Place.Root root) (link_in (L.seat links.now p.old).slots from.now)
        (move_of (L.seat links.now p.old) (At.Root root) from.now to.now (Some note)) }
    ensures pass { L.belongs links.now p.new }
    ensures later { IsPrefix (L.journal p.old) (L.journal p.new) }
    ensures tries { MakesAtMost L.Links links.now 1 p.old p.new }
    ensures moved { MovesStaging root (link_in (L.seat links.now p.old).slots from.now) (link_in (L.seat links.now p.old).slots to.now) note
        (L.seat links.now p.old) (L.seat links.now p.new) }
{
    match links.swing(p, &At::Root(root), from, to, Some(note)) {
        Ok(done) => {
            if !done {
                unreachable!()
            }
        }
        Err(_) => unreachable!(),
    }
}

// Gives a node for a new part, and names it by a staging root.
pub(crate) fn stage<L: Links<Rule = Pairs>>(
    links: &L,
    p: &mut L::Pass,
    at: Staging,
    value: u64,
) -> Result<Held, NoNode>
    requires pass { L.belongs links.now p.old }
    requires there { at.root < (L.numbers links.now).roots }
    requires staging { IsStaging (L.seat links.now p.old).agent at.root }
    requires empty { shown (heap_of (L.numbers links.now) (L.seat links.now p.old)) (Place.Root at.root) ≡ Some null }
    requires slot { IsFree (L.seat links.now p.old).slots at.slot }
    requires no_fresh { (L.seat links.now p.old).fresh ≡ None }
    ensures pass { L.belongs links.now p.new }
    ensures later { IsPrefix (L.journal p.old) (L.journal p.new) }
    ensures tries { MakesAtMost L.Links links.now 4 p.old p.new }
    ensures staged { IfOk result (λ h. Stages (L.numbers links.now) at.slot at.root value (L.seat links.now p.old) h (L.seat links.now p.new)) }
    ensures none { IfErr result (λ e. Only [] (L.seat links.now p.old) (L.seat links.now p.new)) }
    ensures lacking { IfErr result (λ e. Within (length (L.journal p.old)) (length (L.journal p.new))
        (L.lacking links.now (L.seat links.now p.old).agent (L.journal p.new))) }
{
    match links.give(p, at.slot, value, 0) {
        Ok(part) => {
            move_root(
                links,
                p,
                at.root,
                &Want::Null(false),
                &Want::Node(&part, false),
                PairsNote::Stage,
            );
            Ok(part)
        }
        Err(none) => Err(none),
    }
}

// Sets a staging root back to null, and lets its part go.
pub(crate) fn unstage<L: Links<Rule = Pairs>>(links: &L, p: &mut L::Pass, root: u32, part: Held)
    requires pass { L.belongs links.now p.old }
    requires there { root < (L.numbers links.now).roots }
    requires staging { IsStaging (L.seat links.now p.old).agent root }
    requires held { Holds (L.seat links.now p.old).slots part }
    requires shows { shown (heap_of (L.numbers links.now) (L.seat links.now p.old)) (Place.Root root) ≡ Some (link_to (id_in (L.seat links.now p.old).slots part)) }
    requires no_fresh { (L.seat links.now p.old).fresh ≡ None }
    ensures pass { L.belongs links.now p.new }
    ensures later { IsPrefix (L.journal p.old) (L.journal p.new) }
    ensures tries { MakesAtMost L.Links links.now 1 p.old p.new }
    ensures unstaged { Unstages (L.numbers links.now) root part (L.seat links.now p.old) (L.seat links.now p.new) }
{
    move_root(
        links,
        p,
        root,
        &Want::Node(&part, false),
        &Want::Null(false),
        PairsNote::Unstage,
    );
    links.release(p, part);
}

// Makes a part of the new pair ready: a staged node, or that of the pair before.
pub(crate) fn ready<L: Links<Rule = Pairs>>(
    links: &L,
    p: &mut L::Pass,
    at: Staging,
    given: Option<u64>,
    empty: bool,
) -> Result<New, NoNode>
    requires pass { L.belongs links.now p.old }
    requires there { at.root < (L.numbers links.now).roots }
    requires staging { IsStaging (L.seat links.now p.old).agent at.root }
    requires null { shown (heap_of (L.numbers links.now) (L.seat links.now p.old)) (Place.Root at.root) ≡ Some null }
    requires slot { IsFree (L.seat links.now p.old).slots at.slot }
    requires no_fresh { (L.seat links.now p.old).fresh ≡ None }
    requires published { given ≡ None → empty ≡ false → IsPublished (heap_of (L.numbers links.now) (L.seat links.now p.old)) }
    ensures pass { L.belongs links.now p.new }
    ensures later { IsPrefix (L.journal p.old) (L.journal p.new) }
    ensures tries { MakesAtMost L.Links links.now 4 p.old p.new }
    ensures ready { IfOk result (λ new. Readies (L.numbers links.now) at.slot at.root (L.seat links.now p.old) new (L.seat links.now p.new)) }
    ensures given { IfOk result (λ new. given_of new ≡ given) }
    ensures count { IfOk result (λ new. nodes_of new ≡ nodes_for given empty) }
    ensures none { IfErr result (λ e. Only [] (L.seat links.now p.old) (L.seat links.now p.new)) }
    ensures lacking { IfErr result (λ e. Within (length (L.journal p.old)) (length (L.journal p.new))
        (L.lacking links.now (L.seat links.now p.old).agent (L.journal p.new))) }
{
    match given {
        Some(value) => match stage(links, p, at, value) {
            Ok(part) => Ok(New::Given(value, part)),
            Err(none) => Err(none),
        },
        None => {
            if empty {
                match stage(links, p, at, 0) {
                    Ok(part) => Ok(New::Zero(part)),
                    Err(none) => Err(none),
                }
            } else {
                Ok(New::Kept)
            }
        }
    }
}

// Lets a part of the new pair go.
pub(crate) fn let_go<L: Links<Rule = Pairs>>(links: &L, p: &mut L::Pass, root: u32, new: New)
    requires pass { L.belongs links.now p.old }
    requires there { root < (L.numbers links.now).roots }
    requires staging { IsStaging (L.seat links.now p.old).agent root }
    requires held { SideHeld (L.numbers links.now) root new (L.seat links.now p.old) }
    requires no_fresh { (L.seat links.now p.old).fresh ≡ None }
    ensures pass { L.belongs links.now p.new }
    ensures later { IsPrefix (L.journal p.old) (L.journal p.new) }
    ensures tries { MakesAtMost L.Links links.now 1 p.old p.new }
    ensures gone { LetsGo (L.numbers links.now) root new (L.seat links.now p.old) (L.seat links.now p.new) }
{
    match new {
        New::Given(_, part) => unstage(links, p, root, part),
        New::Zero(part) => unstage(links, p, root, part),
        New::Kept => {}
    }
}
