//! Passes from desks.

ghost use Rattle.std.specs.Prelude.{◌≡◌, ◌+◌, ◌++◌, ◌≤◌, [], IfOk, map, vec_len, vec_capacity};

use orc_board::Desk;
use orc_fault::NoMemory;
use std::alloc::Global;

/// The passes of a run, apart.
#[derive(Drop)]
pub(crate) struct Passes<A, B> {
    pub(crate) queue: Vec<A>,
    pub(crate) rush: Vec<A>,
    pub(crate) set: Vec<B>,
}

// Room for so many passes of each container.
pub(crate) fn room_for_passes<A: Drop, B: Drop>(
    alloc: Global,
    agents: usize,
) -> Result<Passes<A, B>, NoMemory>
    ensures none { IfOk result (λ room. (room.queue.items ≡ []) × (room.rush.items ≡ []) × (room.set.items ≡ [])) }
    ensures room { IfOk result (λ room. (agents ≤ vec_capacity room.queue) × (agents ≤ vec_capacity room.rush)
        × (agents ≤ vec_capacity room.set)) }
{
    Ok(Passes {
        queue: Vec::with_capacity(alloc, agents)?,
        rush: Vec::with_capacity(alloc, agents)?,
        set: Vec::with_capacity(alloc, agents)?,
    })
}

// Puts the passes of these desks behind those that are there, in order. It takes no memory.
pub(crate) fn passes_apart<A: Drop, B: Drop>(mut desks: Vec<Desk<A, B>>, passes: &mut Passes<A, B>)
    requires queue_room { vec_len passes.old.queue + vec_len desks ≤ vec_capacity passes.old.queue }
    requires rush_room { vec_len passes.old.rush + vec_len desks ≤ vec_capacity passes.old.rush }
    requires set_room { vec_len passes.old.set + vec_len desks ≤ vec_capacity passes.old.set }
    ensures queue { passes.new.queue.items ≡ passes.old.queue.items ++ map (λ desk. desk.queue) desks.items }
    ensures rush { passes.new.rush.items ≡ passes.old.rush.items ++ map (λ desk. desk.rush) desks.items }
    ensures set { passes.new.set.items ≡ passes.old.set.items ++ map (λ desk. desk.set) desks.items }
    ensures queue_len { vec_len passes.new.queue ≡ vec_len passes.old.queue + vec_len desks }
    ensures rush_len { vec_len passes.new.rush ≡ vec_len passes.old.rush + vec_len desks }
    ensures set_len { vec_len passes.new.set ≡ vec_len passes.old.set + vec_len desks }
    ensures queue_capacity { vec_capacity passes.old.queue ≤ vec_capacity passes.new.queue }
    ensures rush_capacity { vec_capacity passes.old.rush ≤ vec_capacity passes.new.rush }
    ensures set_capacity { vec_capacity passes.old.set ≤ vec_capacity passes.new.set }
{
    let Some(desk) = desks.pop() else {
        return;
    };
    passes_apart(desks, passes);
    let Desk { queue, rush, set } = desk;
    let Ok(()) = passes.queue.push(queue) else {
        unreachable!()
    };
    let Ok(()) = passes.rush.push(rush) else {
        unreachable!()
    };
    let Ok(()) = passes.set.push(set) else {
        unreachable!()
    };
}
