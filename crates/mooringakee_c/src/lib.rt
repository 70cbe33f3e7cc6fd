//! The queue and the sets whose rows are reclaimed, for C. What C holds is a pass: 16 bytes, all zero where there is none.
#![tactic(auto)]

ghost use Rattle.std.specs.Prelude.{◌≡◌, ◌⊎◌, pos};
ghost use Rattle.mooringakee_c.specs.Closing.{ClosesPass};
ghost use Rattle.mooringakee_c_passes.specs.{
  Codes.{Says},
  Making.{AreNewQueuePasses, AreNewSetPasses, AreNewSplitPasses, CanBeMade, CanBeSplit, MakesContainer},
  QueueCalls.{AnswersPut, AnswersTake},
  Seats.{AtQueue, AtSet, AtSplit, Through},
  SetCalls.{AnswersQuestion, AnswersInsert, AnswersRemove},
  Settling.{CountsBacklog, GivesPassUp, SettlesPass},
  SplitCalls.{CountsBuckets},
};

use given_back::Unfinished;
use mooringakee_c_passes::{
    Answer, Pass, are_free, hand_out, queue_seats, set_seats, shape_of, split_seats, split_shape_of,
};
use std::alloc::Global;

/// How many rows a container gave and freed, each as often as it did, and how many are out.
#[repr(C)]
#[derive(Clone, Copy, Drop)]
pub struct Counts {
    pub given: u64,
    pub reused: u64,
    pub linked: u32,
}

/// Makes a queue over so many rows, whose calls try so many turns, and puts a pass for each agent at these places, in order.
#[unsafe(no_mangle)]
pub extern "C" fn mooringakee_proved_queue_make(
    alloc: Global,
    rows: u32,
    turns: u64,
    passes: &mut [Pass],
) -> i32
    ensures { Says result (λ answer. MakesContainer (CanBeMade rows 2 turns) (AreNewQueuePasses rows turns) passes.old answer passes.new) }
{
    let Some(shape) = shape_of(rows, 2, turns, passes.len()) else {
        return Answer::Shape.code();
    };
    if !are_free(passes) {
        return Answer::Live.code();
    }
    let Ok(seats) = queue_seats(alloc, &shape, turns) else {
        return Answer::NoMemory.code();
    };
    hand_out(passes, seats);
    Answer::Done.code()
}

/// Makes a set over so many rows, with so many buckets, whose calls try so many turns, and puts a pass for each agent at these
/// places, in order.
#[unsafe(no_mangle)]
pub extern "C" fn mooringakee_proved_set_make(
    alloc: Global,
    rows: u32,
    buckets: u32,
    turns: u64,
    passes: &mut [Pass],
) -> i32
    ensures { Says result (λ answer. MakesContainer (CanBeMade rows buckets turns) (AreNewSetPasses rows buckets turns) passes.old answer
        passes.new) }
{
    let Some(shape) = shape_of(rows, buckets, turns, passes.len()) else {
        return Answer::Shape.code();
    };
    if !are_free(passes) {
        return Answer::Live.code();
    }
    let Ok(seats) = set_seats(alloc, &shape, turns) else {
        return Answer::NoMemory.code();
    };
    hand_out(passes, seats);
    Answer::Done.code()
}

/// Makes a split-ordered set over so many rows, which grows to so many buckets at most, whose calls try so many turns, and puts a
/// pass for each agent at these places, in order.
#[unsafe(no_mangle)]
pub extern "C" fn mooringakee_proved_split_set_make(
    alloc: Global,
    rows: u32,
    buckets: u32,
    turns: u64,
    passes: &mut [Pass],
) -> i32
    ensures { Says result (λ answer. MakesContainer (CanBeSplit rows buckets turns) (AreNewSplitPasses rows buckets turns) passes.old answer
        passes.new) }
{
    let Some(shape) = split_shape_of(rows, buckets, turns, passes.len()) else {
        return Answer::Shape.code();
    };
    if !are_free(passes) {
        return Answer::Live.code();
    }
    let Ok(seats) = split_seats(alloc, &shape, buckets, turns) else {
        return Answer::NoMemory.code();
    };
    hand_out(passes, seats);
    Answer::Done.code()
}

/// Puts a value at the back of the pass's queue.
#[unsafe(no_mangle)]
pub extern "C" fn mooringakee_proved_enqueue(alloc: Global, pass: &mut Pass, value: u64) -> i32
    ensures { Says result (λ answer. Through (AtQueue (AnswersPut value)) pass.old.pointer.seat answer pass.new.pointer.seat) }
{
    let Some(mut seat) = pass.take(alloc) else {
        return Answer::NoPass.code();
    };
    let answer = seat.put(value);
    *pass = Pass::of(seat);
    answer.code()
}

/// Takes the value at the front of the pass's queue. Where the answer is not 0, the caller's variable stays as it was.
#[unsafe(no_mangle)]
pub extern "C" fn mooringakee_proved_dequeue(alloc: Global, pass: &mut Pass, value: &mut u64) -> i32
    ensures answer { Says result (λ answer. Through (AtQueue (AnswersTake value.new)) pass.old.pointer.seat answer pass.new.pointer.seat) }
    ensures kept { (result ≡ pos 0) ⊎ (value.new ≡ value.old) }
{
    let Some(mut seat) = pass.take(alloc) else {
        return Answer::NoPass.code();
    };
    let answer = seat.take(value);
    *pass = Pass::of(seat);
    answer.code()
}

/// Adds a key to the pass's set, and tells whether it was absent.
#[unsafe(no_mangle)]
pub extern "C" fn mooringakee_proved_insert(
    alloc: Global,
    pass: &mut Pass,
    key: u64,
    absent: &mut bool,
) -> i32
    ensures answer { Says result (λ answer. Through (AtSet (AnswersInsert key absent.new)) pass.old.pointer.seat answer pass.new.pointer.seat) }
    ensures kept { (result ≡ pos 0) ⊎ (absent.new ≡ absent.old) }
{
    let Some(mut seat) = pass.take(alloc) else {
        return Answer::NoPass.code();
    };
    let answer = seat.insert(key, absent);
    *pass = Pass::of(seat);
    answer.code()
}

/// Takes a key out of the pass's set, and tells whether it was present.
#[unsafe(no_mangle)]
pub extern "C" fn mooringakee_proved_remove(
    alloc: Global,
    pass: &mut Pass,
    key: u64,
    present: &mut bool,
) -> i32
    ensures answer { Says result (λ answer. Through (AtSet (AnswersRemove key present.new)) pass.old.pointer.seat answer pass.new.pointer.seat) }
    ensures kept { (result ≡ pos 0) ⊎ (present.new ≡ present.old) }
{
    let Some(mut seat) = pass.take(alloc) else {
        return Answer::NoPass.code();
    };
    let answer = seat.remove(key, present);
    *pass = Pass::of(seat);
    answer.code()
}

/// Tells whether a key is present in the pass's set.
#[unsafe(no_mangle)]
pub extern "C" fn mooringakee_proved_contains(
    alloc: Global,
    pass: &mut Pass,
    key: u64,
    present: &mut bool,
) -> i32
    ensures answer { Says result (λ answer. Through (AtSet (AnswersQuestion key present.new)) pass.old.pointer.seat answer pass.new.pointer.seat) }
    ensures kept { (result ≡ pos 0) ⊎ (present.new ≡ present.old) }
{
    let Some(mut seat) = pass.take(alloc) else {
        return Answer::NoPass.code();
    };
    let answer = seat.contains(key, present);
    *pass = Pass::of(seat);
    answer.code()
}

/// Tells how many buckets the pass's split-ordered set has.
#[unsafe(no_mangle)]
pub extern "C" fn mooringakee_proved_buckets(
    alloc: Global,
    pass: &mut Pass,
    buckets: &mut u32,
) -> i32
    ensures answer { Says result (λ answer. Through (AtSplit (CountsBuckets buckets.new)) pass.old.pointer.seat answer pass.new.pointer.seat) }
    ensures kept { (result ≡ pos 0) ⊎ (buckets.new ≡ buckets.old) }
{
    let Some(mut seat) = pass.take(alloc) else {
        return Answer::NoPass.code();
    };
    let answer = seat.buckets(buckets);
    *pass = Pass::of(seat);
    answer.code()
}

/// Works through the retired rows that the pass has taken out or was handed over. Answers 0 where none is left, and 13 where
/// some are, which is so only where other agents made steps meanwhile.
#[unsafe(no_mangle)]
pub extern "C" fn mooringakee_proved_settle(alloc: Global, pass: &mut Pass) -> i32
    ensures { Says result (λ answer. Through SettlesPass pass.old.pointer.seat answer pass.new.pointer.seat) }
{
    let Some(mut seat) = pass.take(alloc) else {
        return Answer::NoPass.code();
    };
    let answer = seat.settle();
    *pass = Pass::of(seat);
    answer.code()
}

/// Tells how many retired rows the pass has to work through.
#[unsafe(no_mangle)]
pub extern "C" fn mooringakee_proved_backlog(alloc: Global, pass: &mut Pass, rows: &mut u32) -> i32
    ensures answer { Says result (λ answer. Through (CountsBacklog rows.new) pass.old.pointer.seat answer pass.new.pointer.seat) }
    ensures kept { (result ≡ pos 0) ⊎ (rows.new ≡ rows.old) }
{
    let Some(seat) = pass.take(alloc) else {
        return Answer::NoPass.code();
    };
    *rows = seat.backlog();
    *pass = Pass::of(seat);
    Answer::Done.code()
}

/// Gives the pass up, once it has settled, with the answer of that. The last pass of a container frees it.
#[unsafe(no_mangle)]
pub extern "C" fn mooringakee_proved_drop(alloc: Global, pass: &mut Pass) -> i32
    ensures { Says result (λ answer. GivesPassUp pass.old.pointer.seat answer pass.new.pointer.seat) }
{
    let Some(mut seat) = pass.take(alloc) else {
        return Answer::NoPass.code();
    };
    let answer = seat.settle();
    Box::into_inner(seat).leave();
    answer.code()
}

/// Gives the pass up. Where it was the last one of its container, the container comes to rest, tells of its rows, and is freed.
/// Answers 0 then, and 12 where other passes are live. Where the answer is not 0, the caller's variable stays as it was.
#[unsafe(no_mangle)]
pub extern "C" fn mooringakee_proved_close(
    alloc: Global,
    pass: &mut Pass,
    counts: &mut Counts,
) -> i32
    ensures answer { Says result (λ answer. ClosesPass counts.new pass.old.pointer.seat answer pass.new.pointer.seat) }
    ensures kept { (result ≡ pos 0) ⊎ (counts.new ≡ counts.old) }
{
    let Some(seat) = pass.take(alloc) else {
        return Answer::NoPass.code();
    };
    match Box::into_inner(seat).close(alloc) {
        Ok(Some(told)) => {
            *counts = Counts {
                given: told.given,
                reused: told.reused,
                linked: told.linked,
            };
            Answer::Done.code()
        }
        Ok(None) => Answer::Others.code(),
        Err(Unfinished::Missing) => Answer::Kept.code(),
        Err(Unfinished::NoMemory) => Answer::NoMemory.code(),
    }
}
