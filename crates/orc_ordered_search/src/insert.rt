//! Adding a key: a new node is aimed at the right node and linked at the left place, past the marked nodes between.

ghost use Rattle.std.specs.Prelude.{◌≡◌, ◌<◌, ◌+◌, ◌*◌, ℕ, Err, IfErr, Ok, Some, length, true};
ghost use mathlib.Core.List.{IsPrefix};
ghost use Rattle.orc_fault.specs.declared.Spent.{Spent};
ghost use Rattle.orc_heap.specs.Moves.{gives_in};
ghost use Rattle.orc_history.specs.{Journals.{Within}, declared.set.SetEntry.{SetEntry}};
ghost use Rattle.orc_ordered_search.specs.{
  Inserts.{AddsFound, AddsNode, Borrows, Inserts, LinksAndGoes, LinksTo, NodeToAdd, SeesAbsent, Sought, answer_by, turn_by},
  Reading.{reading_by},
  Searches.{left_place, node_of},
  Turns.{made_from},
  Ways.{IsFew},
  declared.turn.InsertTurn.{InsertTurn},
  declared.walk.Searched.{Searched},
};

use crate::answer::enter_present;
use crate::in_hand::{let_all_go, link_of, place_of};
use crate::set_rank::SetRank;
use crate::turn::InsertTurn;
use crate::walk::Searched;
use orc_fault::Spent;
use orc_heap::{Discipline, Held, Links, Want};
use orc_history::{ListRefused, SetEntry};

// The node, if there is one.
fn node_in<'a>(node: &'a Option<Held>) -> Option<&'a Held>
    ensures { Borrows node.now result }
{
    match node {
        Some(node) => Some(node),
        None => None,
    }
}

/// How a turn ends that linked a node, by what came of it, where its search went past so many nodes.
pub fn turn_of(passed: u32, linked: Result<bool, Spent>) -> InsertTurn
    ensures { result ≡ turn_by passed linked }
{
    match linked {
        Ok(true) => InsertTurn::Answered(true, passed),
        Ok(false) => InsertTurn::Over,
        Err(spent) => InsertTurn::Spent(spent),
    }
}

// Aims the new node at the right one, and links it at the left place.
fn link_node<K: SetRank, L: Links<Rule = K::Rule>>(
    links: &L,
    p: &mut L::Pass,
    root: u32,
    note: <K::Rule as Discipline>::Note,
    left: &Option<Held>,
    first: &Option<Held>,
    right: &Option<Held>,
    node: &Held,
) -> Result<bool, Spent>
    requires pass { L.belongs links.now p.old }
    requires root { root < (L.numbers links.now).roots }
    requires adds { NodeToAdd (reading_by (L.numbers links.now) K.manner) (K.Rule.holds (L.numbers links.now))
        (K.Rule.may (L.numbers links.now)) root note left.now first.now right.now node.now (L.seat links.now p.old) }
    ensures pass { L.belongs links.now p.new }
    ensures later { IsPrefix (L.journal p.old) (L.journal p.new) }
    ensures linked { (a : NodeToAdd (reading_by (L.numbers links.now) K.manner) (K.Rule.holds (L.numbers links.now))
        (K.Rule.may (L.numbers links.now)) root note left.now first.now right.now node.now (L.seat links.now p.old))
        → LinksTo (reading_by (L.numbers links.now) K.manner) a.value a.kind note node.now a.at.id
        (left_place ((reading_by (L.numbers links.now) K.manner).order.root a.wanted) left.now a.at.left_id) a.at.leads.from (node_of right.now a.at.right_id)
        (L.seat links.now p.old) result (L.seat links.now p.new) }
    ensures worn { IfErr result (λ e. Within (length (L.journal p.old)) (length (L.journal p.new)) (L.worn links.now (L.seat links.now p.old).agent e
        (L.journal p.new))) }
{
    links.aim(p, node, node_in(right))?;
    links.swing(
        p,
        &place_of(root, left),
        &link_of(first, right),
        &Want::Node(node, false),
        Some(note),
    )
}

/// Links the node where it belongs, and lets go what the search found.
pub fn add_node<K: SetRank, L: Links<Rule = K::Rule>>(
    links: &L,
    p: &mut L::Pass,
    root: u32,
    note: <K::Rule as Discipline>::Note,
    left: Option<Held>,
    first: Option<Held>,
    right: Option<Held>,
    node: &Held,
) -> Result<bool, Spent>
    requires pass { L.belongs links.now p.old }
    requires root { root < (L.numbers links.now).roots }
    requires adds { NodeToAdd (reading_by (L.numbers links.now) K.manner) (K.Rule.holds (L.numbers links.now))
        (K.Rule.may (L.numbers links.now)) root note left first right node.now (L.seat links.now p.old) }
    ensures pass { L.belongs links.now p.new }
    ensures later { IsPrefix (L.journal p.old) (L.journal p.new) }
    ensures added { (a : NodeToAdd (reading_by (L.numbers links.now) K.manner) (K.Rule.holds (L.numbers links.now))
        (K.Rule.may (L.numbers links.now)) root note left first right node.now (L.seat links.now p.old))
        → AddsNode (reading_by (L.numbers links.now) K.manner) a.value a.kind ((reading_by (L.numbers links.now) K.manner).entries_in (Some note))
        node.now a.at.id a.given a.slots a.begun result (L.seat links.now p.new) }
    ensures few { (a : NodeToAdd (reading_by (L.numbers links.now) K.manner) (K.Rule.holds (L.numbers links.now))
        (K.Rule.may (L.numbers links.now)) root note left first right node.now (L.seat links.now p.old))
        → IsFew (4 + 3 * a.given) (made_from a.begun (L.seat links.now p.new)) }
    ensures linked { (a : NodeToAdd (reading_by (L.numbers links.now) K.manner) (K.Rule.holds (L.numbers links.now))
        (K.Rule.may (L.numbers links.now)) root note left first right node.now (L.seat links.now p.old))
        → result ≡ Ok true → LinksAndGoes (reading_by (L.numbers links.now) K.manner) a.value a.kind note a.at.id
        (left_place ((reading_by (L.numbers links.now) K.manner).order.root a.wanted) left a.at.left_id) a.at.leads.from (node_of right a.at.right_id)
        a.slots (L.seat links.now p.old) (L.seat links.now p.new) }
    ensures worn { (why : Spent) → result ≡ Err why → Within (length (L.journal p.old)) (length (L.journal p.new)) (L.worn links.now
        (L.seat links.now p.old).agent why (L.journal p.new)) }
{
    let linked = link_node::<K, L>(links, p, root, note, &left, &first, &right, node);
    let_all_go::<K, L>(links, p, left, first, right, None);
    linked
}

// The key is absent there: has a node by now, and links it.
fn add_at<K: SetRank, L: Links<Rule = K::Rule>>(
    links: &L,
    p: &mut L::Pass,
    root: u32,
    key: u64,
    left: Option<Held>,
    first: Option<Held>,
    right: Option<Held>,
    node: Option<Held>,
    passed: u32,
) -> (InsertTurn, Option<Held>)
    requires pass { L.belongs links.now p.old }
    requires root { (root < (L.numbers links.now).roots) × (root ≡ (reading_by (L.numbers links.now) K.manner).order.root (K.key_rank key)) }
    requires sought { Sought (reading_by (L.numbers links.now) K.manner) (K.key_rank key) key K.key_kind node (Searched.Absent left first right passed)
        (L.seat links.now p.old) }
    ensures pass { L.belongs links.now p.new }
    ensures later { IsPrefix (L.journal p.old) (L.journal p.new) }
    ensures inserted { (a : Sought (reading_by (L.numbers links.now) K.manner) (K.key_rank key) key K.key_kind node
        (Searched.Absent left first right passed) (L.seat links.now p.old))
        → Inserts (reading_by (L.numbers links.now) K.manner) key K.key_kind (λ yes. SetEntry.Added a.begun.agent key yes) 1 a.slots node a.begun result.0
        result.1 (L.seat links.now p.new) }
    ensures few { (a : Sought (reading_by (L.numbers links.now) K.manner) (K.key_rank key) key K.key_kind node (Searched.Absent left first right passed)
        (L.seat links.now p.old))
        → IsFew (4 + 3 * gives_in (made_from a.begun (L.seat links.now p.new))) (made_from a.begun (L.seat links.now p.new)) }
    ensures added { (a : Sought (reading_by (L.numbers links.now) K.manner) (K.key_rank key) key K.key_kind node (Searched.Absent left first right passed)
        (L.seat links.now p.old)) (many : ℕ)
        → result.0 ≡ InsertTurn.Answered true many
        → AddsFound (reading_by (L.numbers links.now) K.manner) a.start (K.key_rank key) key K.key_kind
        (K.noted (SetEntry.Added (L.seat links.now p.old).agent key true))
        (Searched.Absent left first right passed) many a.begun (L.seat links.now p.new) }
    ensures absent { (a : Sought (reading_by (L.numbers links.now) K.manner) (K.key_rank key) key K.key_kind node (Searched.Absent left first right passed)
        (L.seat links.now p.old))
        → result.0 ≡ InsertTurn.NoNode → SeesAbsent (reading_by (L.numbers links.now) K.manner) (K.key_rank key)
        (made_from a.begun (L.seat links.now p.new)) (L.seat links.now p.new) }
    ensures lacking { result.0 ≡ InsertTurn.NoNode → Within (length (L.journal p.old)) (length (L.journal p.new)) (L.lacking links.now
        (L.seat links.now p.old).agent (L.journal p.new)) }
    ensures worn { (why : Spent) → result.0 ≡ InsertTurn.Spent why
        → Within (length (L.journal p.old)) (length (L.journal p.new)) (L.worn links.now (L.seat links.now p.old).agent why (L.journal p.new)) }
{
    let agent = links.agent(p);
    let yes = true;
    let note = K::note(SetEntry::Added { agent, key, yes });
    if let Some(node) = node {
        let linked = add_node::<K, L>(links, p, root, note, left, first, right, &node);
        return (turn_of(passed, linked), Some(node));
    }
    let kind = K::kind_of_keys();
    match links.give(p, 1, key, kind) {
        Ok(node) => {
            let linked = add_node::<K, L>(links, p, root, note, left, first, right, &node);
            (turn_of(passed, linked), Some(node))
        }
        Err(_) => {
            let_all_go::<K, L>(links, p, left, first, right, None);
            (InsertTurn::NoNode, None)
        }
    }
}

/// One turn of an insert, by what a search found: with the node that an earlier turn was given, if one was.
pub fn insert_found<K: SetRank, L: Links<Rule = K::Rule>>(
    links: &L,
    p: &mut L::Pass,
    root: u32,
    key: u64,
    found: Searched,
    node: Option<Held>,
) -> (InsertTurn, Option<Held>)
    requires pass { L.belongs links.now p.old }
    requires root { (root < (L.numbers links.now).roots) × (root ≡ (reading_by (L.numbers links.now) K.manner).order.root (K.key_rank key)) }
    requires sought { Sought (reading_by (L.numbers links.now) K.manner) (K.key_rank key) key K.key_kind node found (L.seat links.now p.old) }
    ensures pass { L.belongs links.now p.new }
    ensures later { IsPrefix (L.journal p.old) (L.journal p.new) }
    ensures inserted { (a : Sought (reading_by (L.numbers links.now) K.manner) (K.key_rank key) key K.key_kind node found (L.seat links.now p.old))
        → Inserts (reading_by (L.numbers links.now) K.manner) key K.key_kind (λ yes. SetEntry.Added a.begun.agent key yes) 1 a.slots node a.begun result.0
        result.1 (L.seat links.now p.new) }
    ensures few { (a : Sought (reading_by (L.numbers links.now) K.manner) (K.key_rank key) key K.key_kind node found (L.seat links.now p.old))
        → IsFew (4 + 3 * gives_in (made_from a.begun (L.seat links.now p.new))) (made_from a.begun (L.seat links.now p.new)) }
    ensures added { (a : Sought (reading_by (L.numbers links.now) K.manner) (K.key_rank key) key K.key_kind node found (L.seat links.now p.old)) (many : ℕ)
        → result.0 ≡ InsertTurn.Answered true many
        → AddsFound (reading_by (L.numbers links.now) K.manner) a.start (K.key_rank key) key K.key_kind
        (K.noted (SetEntry.Added (L.seat links.now p.old).agent key true)) found many a.begun
        (L.seat links.now p.new) }
    ensures absent { (a : Sought (reading_by (L.numbers links.now) K.manner) (K.key_rank key) key K.key_kind node found (L.seat links.now p.old))
        → result.0 ≡ InsertTurn.NoNode → SeesAbsent (reading_by (L.numbers links.now) K.manner) (K.key_rank key)
        (made_from a.begun (L.seat links.now p.new)) (L.seat links.now p.new) }
    ensures lacking { result.0 ≡ InsertTurn.NoNode → Within (length (L.journal p.old)) (length (L.journal p.new)) (L.lacking links.now
        (L.seat links.now p.old).agent (L.journal p.new)) }
    ensures worn { (why : Spent) → result.0 ≡ InsertTurn.Spent why
        → Within (length (L.journal p.old)) (length (L.journal p.new)) (L.worn links.now (L.seat links.now p.old).agent why (L.journal p.new)) }
{
    match found {
        Searched::Over => (InsertTurn::Over, node),
        Searched::Absent {
            left,
            first,
            right,
            passed,
        } => add_at::<K, L>(links, p, root, key, left, first, right, node, passed),
        Searched::Present {
            left,
            first,
            node: found,
            next,
            passed,
        } => {
            let agent = links.agent(p);
            let yes = false;
            let entry = SetEntry::Added { agent, key, yes };
            if enter_present::<K, L>(links, p, key, left, first, found, next, entry) {
                (InsertTurn::Answered(false, passed), node)
            } else {
                (InsertTurn::Over, node)
            }
        }
    }
}

/// What an insert answers whose turns ended so.
pub fn answer_of(turn: InsertTurn) -> Result<bool, ListRefused>
    ensures { result ≡ answer_by turn }
{
    match turn {
        InsertTurn::Over => Err(ListRefused::Again),
        InsertTurn::Answered(answer, _) => Ok(answer),
        InsertTurn::NoNode => Err(ListRefused::NoNode),
        InsertTurn::Spent(spent) => Err(ListRefused::Spent(spent)),
    }
}
