//! Workers are seated at desks, and desks and replies are handed back.
ghost use Rattle.std.specs.Prelude.{◌≡◌, ◌+◌, ◌≤◌, [], ◌++◌, ℕ, length, map, vec_len, vec_capacity};
ghost use Rattle.orc_team.specs.Seats.{EachNumbered, all_of, seated};

use crate::{Gather, Worker, Workplace};

/// Seats a worker at each of these desks with the room of its place. Its number is that of its desk. It takes no memory.
pub fn seat<C: Workplace, T: Drop>(
    here: &C,
    desks: &mut Vec<C::Desk>,
    mut rooms: Vec<T>,
    waiting: Vec<Worker<C::Desk, T>>,
) -> Vec<Worker<C::Desk, T>>
    requires agents { EachNumbered (C.site here.now).usable 1 desks.old.items }
    requires rooms { vec_len rooms ≡ vec_len desks.old }
    requires nobody { waiting.items ≡ [] }
    requires capacity { vec_len desks.old ≤ vec_capacity waiting }
    ensures seated { result.items ≡ seated 1 desks.old.items rooms.items }
    ensures capacity { vec_capacity waiting ≤ vec_capacity result }
    ensures none { desks.new.items ≡ [] }
    ensures desks { vec_capacity desks.new ≡ vec_capacity desks.old }
{
    let Some(desk) = desks.pop() else {
        return waiting;
    };
    let Some(replies) = rooms.pop() else {
        unreachable!()
    };
    let agent = here.agent(&desk);
    let mut waiting = seat(here, desks, rooms, waiting);
    let Ok(()) = waiting.push(Worker {
        agent,
        desk,
        replies,
    }) else {
        unreachable!()
    };
    waiting
}

/// Hands back the desks and the replies of the workers, behind those that are there. It takes no memory.
pub fn hand_back<D: Drop, T: Gather>(
    mut workers: Vec<Worker<D, T>>,
    desks: &mut Vec<D>,
    replies: &mut T,
)
    requires desks { vec_len desks.old + vec_len workers ≤ vec_capacity desks.old }
    requires replies { (kind : T.Kind) → length (all_of (λ w. T.items kind w.replies) workers.items) ≤ T.spare kind replies.old }
    ensures desks { desks.new.items ≡ desks.old.items ++ map (λ w. w.desk) workers.items }
    ensures replies { (kind : T.Kind) → T.items kind replies.new ≡ T.items kind replies.old ++ all_of (λ w. T.items kind w.replies) workers.items }
    ensures len { vec_len desks.new ≡ vec_len desks.old + vec_len workers }
    ensures capacity { vec_capacity desks.old ≤ vec_capacity desks.new }
    ensures room { (kind : T.Kind) → T.spare kind replies.new + length (all_of (λ w. T.items kind w.replies) workers.items) ≡ T.spare kind replies.old }
{
    let Some(worker) = workers.pop() else {
        return;
    };
    hand_back(workers, desks, replies);
    let Worker {
        agent: _,
        desk,
        replies: more,
    } = worker;
    replies.gather(more);
    let Ok(()) = desks.push(desk) else {
        unreachable!()
    };
}
