//! Rows that are given again until no position is left, and until one of them can take no further link.

ghost use Rattle.std.specs.Prelude.{◌≡◌, ◌<◌, ℕ, All, length, slice_index_or};

use crate::asking::{QueueCase, SetCase, queue_answers, set_answers};
use crate::passes::{next_list_pass, next_pass};
use orc_chain_rule::Chain;
use orc_containers::{Domain, Unmade, queue_over, set_over};
use orc_fault::Spent;
use orc_fifo_rule::Fifo;
use orc_history::{ListRefused, QueueRefused, SharedQueue, SharedSet};
use orc_words::{HIGHEST_LIMIT, Shape};
use std::alloc::Global;

// The first of the last twenty positions.
const FIRST: u64 = (1 << 62) - 20;

// A job is put and taken at this position. Beside the dummy there is one row more: a second put finds none until then.
fn goes_through<Q: SharedQueue>(queue: &Q, p: &mut Q::Pass, at: u64) -> bool
    requires { Q.usable queue.now p.old }
    ensures { Q.usable queue.now p.new }
{
    let put = queue_answers(queue, p, 2, &QueueCase::Put(5, Ok(at)));
    let second = QueueCase::Put(6, Err(QueueRefused::NoNode));
    let refused = queue_answers(queue, p, 2, &second);
    let taken = queue_answers(queue, p, 2, &QueueCase::Take(Ok(Some((5, at)))));
    put && refused && taken
}

// Two rows serve twenty jobs, up to the last position.
fn use_up_and_reuse<Q: SharedQueue>(queue: &Q, mut passes: Vec<Q::Pass>) -> bool
    requires usable { All (λ p. Q.usable queue.now p) passes.items }
    requires agents { (i : ℕ) (p : Q.Pass) → i < length passes.items → Q.agent_of queue.now (slice_index_or passes.items i p) ≡ i }
{
    let Some(mut p) = next_pass(queue, &mut passes) else {
        return false;
    };
    let mut all = true;
    for round in 0..20 {
        all &= goes_through(queue, &mut p, FIRST.wrapping_add(round));
    }
    let last = QueueCase::Put(7, Err(QueueRefused::Positions));
    let refused = queue_answers(queue, &mut p, 2, &last);
    let empty = queue_answers(queue, &mut p, 2, &QueueCase::Take(Ok(None)));
    all && refused && empty
}

/// Whether, in a queue of two rows that have so many links, these served the jobs of the last twenty positions, one after another,
/// and the next put was refused.
///
/// # Errors
///
/// * `Shape` where rows can't have so many links.
/// * `NoMemory` where memory is refused.
pub fn serves_to_the_last_position<L: Domain<Rule = Fifo> + Drop>(
    alloc: Global,
    links: u32,
) -> Result<bool, Unmade> {
    let shape = Shape::with_links(2, 2, 1, HIGHEST_LIMIT, links)?;
    let (queue, passes) = queue_over::<L>(alloc, &shape, FIRST)?;
    Ok(use_up_and_reuse(&queue, passes))
}

// A key is added before key 5 and taken out.
fn comes_and_goes<S: SharedSet>(set: &S, p: &mut S::Pass) -> bool
    requires { S.usable set.now p.old }
    ensures { S.usable set.now p.new }
{
    let added = set_answers(set, p, 1, &SetCase::Insert(4, Ok(true)));
    let taken_out = set_answers(set, p, 1, &SetCase::Remove(4, Ok(true)));
    added && taken_out
}

// What is answered once key 5's row can take no further link.
const WORN: [SetCase; 3] = [
    SetCase::Insert(
        4,
        Err(ListRefused::Spent(Spent {
            row: 0,
            sequence: 67,
        })),
    ),
    SetCase::Contains(5, Ok(true)),
    SetCase::Contains(4, Ok(false)),
];

// Key 5's row starts at sequence 1, and rises by 4 in each of the first sixteen rounds to 65. In the seventeenth it rises
// by 2, and the unlink is refused: the limit for links is 3 + 64.
fn wear_out<S: SharedSet>(set: &S, mut passes: Vec<S::Pass>) -> bool
    requires usable { All (λ p. S.usable set.now p) passes.items }
    requires agents { (i : ℕ) (p : S.Pass) → i < length passes.items → S.agent_of set.now (slice_index_or passes.items i p) ≡ i }
{
    let Some(mut p) = next_list_pass(set, &mut passes) else {
        return false;
    };
    let mut all = set_answers(set, &mut p, 1, &SetCase::Insert(5, Ok(true)));
    for _round in 0..17 {
        all &= comes_and_goes(set, &mut p);
    }
    for case in WORN {
        all &= set_answers(set, &mut p, 1, &case);
    }
    all
}

/// Whether, in a list whose rows have so many links, and the limit 3, a row was refused to a link after as many as the limit for
/// links lets through, and its key stayed.
///
/// # Errors
///
/// * `Shape` where rows can't have so many links.
/// * `NoMemory` where memory is refused.
pub fn wears_a_row_out<L: Domain<Rule = Chain> + Drop>(
    alloc: Global,
    links: u32,
) -> Result<bool, Unmade> {
    let shape = Shape::with_links(16, 1, 1, 3, links)?;
    let (list, passes) = set_over::<L>(alloc, &shape)?;
    Ok(wear_out(&list, passes))
}
