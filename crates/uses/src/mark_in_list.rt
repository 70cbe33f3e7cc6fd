//! A list of which one agent holds a node that another takes out; and that one then stops, once it has marked a node.

ghost use Rattle.std.specs.Prelude.{◌≡◌, ◌+◌, ◌<◌, All, IfOk, IfSome, length};
ghost use Rattle.std.specs.List.{AllByRecursion};

use crate::asking::{SetCase, set_answers};
use crate::crew::{are_in_order, backlog_of_all};
use orc_chain_rule::Chain;
use orc_containers::{Domain, RowCounts, Unmade, new_list, set_at_rest};
use orc_heap::{At, Links, Looked};
use orc_history::SharedSet;
use orc_set::Set;
use std::alloc::Global;

/// How many keys were added and taken out beside a hold, how many retired rows were left for the passes once it had been let go, and
/// what the domain tells at rest.
#[derive(Clone, Copy, PartialEq, Eq, Drop)]
pub struct HeldList {
    pub added: u64,
    pub taken_out: u64,
    pub waiting: u32,
    pub counts: RowCounts,
}

// 1,000 calls: one agent adds 400 keys; the other takes three of four out, and the first asks for these. Answers how many
// keys were added, and how many taken out.
fn add_and_take_out<S: SharedSet>(set: &S, one: &mut S::Pass, two: &mut S::Pass) -> (u64, u64)
    requires one { S.usable set.now one.old }
    requires two { S.usable set.now two.old }
    ensures one { S.usable set.now one.new }
    ensures two { S.usable set.now two.new }
{
    let mut added: u64 = 0;
    let mut taken_out: u64 = 0;
    for key in 0..400 {
        let insert = SetCase::Insert(key, Ok(true));
        added = added.wrapping_add(u64::from(set_answers(set, one, 64, &insert)));
        if key % 4 != 0 {
            let remove = SetCase::Remove(key, Ok(true));
            taken_out = taken_out.wrapping_add(u64::from(set_answers(set, two, 64, &remove)));
            let _absent = set_answers(set, one, 64, &SetCase::Contains(key, Ok(false)));
        }
    }
    (added, taken_out)
}

// Takes 400 and 401 out, in this order.
fn take_out_the_last<S: SharedSet>(set: &S, p: &mut S::Pass) -> bool
    requires { S.usable set.now p.old }
    ensures { S.usable set.now p.new }
{
    let before = set_answers(set, p, 64, &SetCase::Remove(400, Ok(true)));
    let last = set_answers(set, p, 64, &SetCase::Remove(401, Ok(true)));
    before && last
}

// They do so while an agent holds the node of 400, whose link leads to that of 401. It lets go late, without settling; and
// then one of the others stops once it has marked 8.
fn beside_a_hold<L: Links<Rule = Chain>>(
    list: &Set<L>,
    holder: &mut L::Pass,
    one: &mut L::Pass,
    two: &mut L::Pass,
) -> Option<(u64, u64)>
    requires root { 0 < (L.numbers list.now.list.links).roots }
    requires holder { ⟦<Set<L> as SharedSet>⟧.usable list.now holder.old }
    requires one { ⟦<Set<L> as SharedSet>⟧.usable list.now one.old }
    requires two { ⟦<Set<L> as SharedSet>⟧.usable list.now two.old }
    ensures holder { ⟦<Set<L> as SharedSet>⟧.usable list.now holder.new }
    ensures one { ⟦<Set<L> as SharedSet>⟧.usable list.now one.new }
    ensures two { ⟦<Set<L> as SharedSet>⟧.usable list.now two.new }
{
    let _before = list.insert(holder, 400, 1);
    let _last = list.insert(holder, 401, 1);
    let links = list.links();
    match links.look(holder, &At::Root(0), 1) {
        Looked::Stable(_, Some(held)) => {
            let counts = add_and_take_out(list, one, two);
            let both = take_out_the_last(list, two);
            links.release(holder, held);
            let marked = list.mark_and_stop(two, 8);
            if both && marked { Some(counts) } else { None }
        }
        Looked::Stable(_, None) | Looked::Moved => None,
    }
}

// The first three of a list's passes do so.
fn by_the_first_three<L: Links<Rule = Chain>>(
    list: &Set<L>,
    passes: &mut [L::Pass],
) -> Option<(u64, u64)>
    requires root { 0 < (L.numbers list.now.list.links).roots }
    requires usable { AllByRecursion (λ p. ⟦<Set<L> as SharedSet>⟧.usable list.now p) passes.old }
    ensures usable { AllByRecursion (λ p. ⟦<Set<L> as SharedSet>⟧.usable list.now p) passes.new }
{
    let (holder, others) = passes.split_first_mut()?;
    let (one, others) = others.split_first_mut()?;
    let (two, _) = others.split_first_mut()?;
    beside_a_hold(list, holder, one, two)
}

// The passes of a list do so.
fn by_three<L: Links<Rule = Chain>>(list: &Set<L>, passes: &mut Vec<L::Pass>) -> Option<(u64, u64)>
    requires root { 0 < (L.numbers list.now.list.links).roots }
    requires usable { All (λ p. ⟦<Set<L> as SharedSet>⟧.usable list.now p) passes.old.items }
    ensures usable { All (λ p. ⟦<Set<L> as SharedSet>⟧.usable list.now p) passes.new.items }
    ensures many { length passes.new.items ≡ length passes.old.items }
{
    by_the_first_three(list, passes.as_mut_slice())
}

/// 1,000 calls of a new list by two agents, while a third one holds a node that is taken out meanwhile, and lets it go late, without
/// settling; then one of the two stops once it has marked a node, and the list is brought to rest. None where there was nothing to
/// hold or to mark, or the passes aren't in order of agent afterwards.
///
/// # Errors
///
/// `NoMemory` where memory is refused.
pub fn calls_beside_a_held_node<L: Domain<Rule = Chain> + Drop>(
    alloc: Global,
) -> Result<Option<HeldList>, Unmade>
    ensures balance { IfOk result (λ told. IfSome told (λ work. work.counts.given ≡ work.counts.reused + work.counts.linked)) }
{
    let (list, mut passes) = new_list::<L>(alloc, 1_024, 3)?;
    let Some((added, taken_out)) = by_three(&list, &mut passes) else {
        return Ok(None);
    };
    let waiting = backlog_of_all(list.links(), passes.as_slice());
    if !are_in_order(list.links(), passes.as_slice()) {
        return Ok(None);
    }
    let rest = set_at_rest(list, passes);
    Ok(Some(HeldList {
        added,
        taken_out,
        waiting,
        counts: L::counts(&rest),
    }))
}
