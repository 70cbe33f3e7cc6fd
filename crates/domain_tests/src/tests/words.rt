//! A small machine whose words are shared, on two threads.

ghost use Rattle.std.specs.Prelude.{◌≡◌, IfOk};

use orc_fault::NoMemory;
use orc_heap::{AnyFit, Discipline};
use orc_shared_words::{Machine, SharedPass, SharedWords};
use std::alloc::Global;
use std::test::Fail;
use std::thread::{Threads, join_mut};

mod examples;
mod ticks;

use ticks::Ticks;

type Words = SharedWords<Ticks, AnyFit>;

type Pass = SharedPass<Ticks, AnyFit>;

fn is_shared<T: Sync>() {}

fn is_sent<T: Send>() {}

// Compiles for each machine whose shape and records may cross threads.
fn words_and_passes_cross_threads<M: Machine<D::Note>, D: Discipline>()
where
    M::Shape: Send + Sync,
    M::Own: Send,
{
    is_shared::<SharedWords<M, D>>();
    is_sent::<SharedWords<M, D>>();
    is_sent::<SharedPass<M, D>>();
}

fn two_agents(alloc: Global) -> Result<(Words, Pass, Pass), NoMemory>
    ensures table { IfOk result (λ t. (t.1.seat.table_id ≡ t.0.table.shared.table_id) × (t.2.seat.table_id ≡ t.0.table.shared.table_id)) }
    ensures size { IfOk result (λ t. (t.0.shape ≡ 2) × (t.0.table.shared.table_id.words ≡ 1)) }
    ensures agents { IfOk result (λ t. (t.1.agent ≡ 0) × (t.2.agent ≡ 1)) }
{
    let mut owns = Vec::with_capacity(alloc, 2)?;
    owns.push(0)?;
    owns.push(0)?;
    let (words, mut passes) = Words::make(alloc, 2, &[0], owns)?;
    let (Some(second), Some(first)) = (passes.pop(), passes.pop()) else {
        unreachable!()
    };
    Ok((words, first, second))
}

// Lets each agent count up in a thread of its own, and answers what they found.
fn count_on_two_threads<R: Threads + Sync>(
    rt: &R,
    words: &Words,
    first: &mut Pass,
    second: &mut Pass,
) -> (u64, u64)
    requires table { (first.old.seat.table_id ≡ words.now.table.shared.table_id) × (second.old.seat.table_id ≡ words.now.table.shared.table_id) }
    requires words { words.now.table.shared.table_id.words ≡ 1 }
    ensures table { (first.new.seat.table_id ≡ words.now.table.shared.table_id) × (second.new.seat.table_id ≡ words.now.table.shared.table_id) }
{
    join_mut(
        rt,
        &mut || words.step(first, &true, &Some(7)),
        &mut || words.step(second, &true, &None),
    )
}

#[test]
fn two_threads_count_and_learn_from_each_other(rt: HostRuntime) -> Result<(), Fail> {
    words_and_passes_cross_threads::<Ticks, AnyFit>();
    let Ok((words, mut first, mut second)) = two_agents(rt.alloc()) else {
        panic!(rt; "memory")
    };
    let found = count_on_two_threads(&rt, &words, &mut first, &mut second);
    assert!(rt; found == (0, 1) || found == (1, 0));
    assert!(rt; first.agent() == 0 && second.agent() == 1);
    words.learn(&mut first, &mut second);
    words.absorb(&mut first, second);
    assert_eq!(rt; words.step(&mut first, &false, &None), 2);
    let last = words.close(first);
    assert_eq!(rt; last.word(0), 2);
    Ok(())
}
