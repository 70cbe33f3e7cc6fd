//! A queue on one thread, which stores its history.
ghost use Rattle.std.specs.Prelude.{◌≡◌, ℕ, ◌+◌, ◌<◌, ◌≤◌, ◌^◌, ◌↔◌, List, [], ◌∷◌, ◌++◌, length, slice_get, true, false, refl, IfOk, IsErr, OnErr};
ghost use Rattle.orc_history.specs.{
  QueueHistory.{entry_of_dequeue, puts_in, waiting_after},
  StoredHistory.{LacksTurn, RefusedAt, RefusedAt-append},
  PlainQueue.{IsQueuePass, QueuePassView, RefusesEnqueue, enough_puts},
  declared.queue.{QueueEntry.{QueueEntry}, QueueRefused.{QueueRefused}},
};

use crate::stored_history::{has_turn, new_history};
use crate::{QueueEntry, QueueRefused, SharedQueue};
use orc_fault::{Again, NoMemory};
use std::alloc::Global;
use std::collections::VecDeque;
use std::marker::Model;

// Every position is below this.
const POSITIONS: u64 = 1 << 62;

/// A queue for one thread. Until `pass` is called it has its state, which takes no memory later.
#[derive(Drop)]
pub struct PlainQueue {
    room: u32,
    first: u64,
    state: Option<PlainQueuePass>,
}

impl Model for PlainQueue {
    ghost use Rattle.std.specs.Prelude.{◌≡◌, ⊤, MatchOption, [], is_some};
    ghost use Rattle.orc_history.specs.PlainQueue.{QueueView, QueuePassView};

    ghost Value = { QueueView };

    ghost view = { λ q. record { room = q.room; first = q.first; whole = is_some q.state } };

    ghost invariant = { λ q. MatchOption q.state ⊤
        (λ p. p ≡ record { agent = 0; room = q.room; first = q.first; history = [] }) };
}

impl PlainQueue {
    /// An empty queue for at most `room` items, whose first Put has the position `first`, at most 2^62. It stores the entries of
    /// 4 × `room` + 4 calls, after which it refuses each call with `Again`.
    ///
    /// # Errors
    ///
    /// `NoMemory` where memory is refused.
    pub fn new(alloc: Global, room: u32, first: u64) -> Result<PlainQueue, NoMemory>
        requires { first ≤ 2 ^ 62 }
        ensures { IfOk result (λ q. q ≡ record { room = room; first = first; whole = true }) }
    {
        let items = VecDeque::with_capacity(alloc, room as usize)?;
        let history = new_history(alloc, room)?;
        let state = PlainQueuePass {
            agent: 0,
            room,
            first,
            next: first,
            items,
            history,
        };
        Ok(PlainQueue {
            room,
            first,
            state: Some(state),
        })
    }

    /// The queue without its state, and the state as a pass of agent 0.
    pub fn pass(self) -> (PlainQueue, PlainQueuePass)
        requires { self.whole ≡ true }
        ensures queue { result.0 ≡ record self { whole = false } }
        ensures pass { result.1 ≡ record { agent = 0; room = self.room; first = self.first; history = [] } }
    {
        let PlainQueue { room, first, state } = self;
        let queue = PlainQueue {
            room,
            first,
            state: None,
        };
        match state {
            Some(pass) => (queue, pass),
            None => unreachable!(),
        }
    }
}

/// The state of a plain queue: its items, and the history of all calls.
#[derive(Drop)]
pub struct PlainQueuePass {
    agent: u32,
    room: u32,
    first: u64,
    next: u64,
    items: VecDeque<(u64, u64)>,
    history: Vec<QueueEntry>,
}

impl Model for PlainQueuePass {
    ghost use Rattle.std.specs.Prelude.{◌≤◌, vec_capacity};
    ghost use Rattle.std.specs.VecDeque.{deque_capacity};
    ghost use Rattle.orc_history.specs.{StoredHistory.{history_room}, PlainQueue.{QueuePassView, HoldsQueue}};

    ghost Value = { QueuePassView };

    ghost view = { λ p. record { agent = p.agent; room = p.room; first = p.first; history = p.history.items } };

    ghost invariant = { λ p. HoldsQueue p.room p.first p.next p.items.items p.history.items
        × (p.room ≤ deque_capacity p.items) × (history_room p.room ≤ vec_capacity p.history) };
}

impl PlainQueuePass {
    /// Later entries are of this agent.
    pub fn act_as(&mut self, agent: u32)
        ensures { self.new ≡ record self.old { agent = agent } }
    {
        self.agent = agent;
    }
}

impl PlainQueue {
    /// What the members of `SharedQueue` mean here: no other agent's entries come in between, and each refusal has the cause
    /// that `enqueue` tells.
    pub fn members(&self)
        ensures agent_of { (p : QueuePassView) → ⟦<PlainQueue as SharedQueue>⟧.agent_of self.now p ≡ p.agent }
        ensures journal { (p : QueuePassView) → ⟦<PlainQueue as SharedQueue>⟧.journal p ≡ p.history }
        ensures history { (journal : List QueueEntry) → ⟦<PlainQueue as SharedQueue>⟧.history self.now journal ≡ journal }
        ensures first { ⟦<PlainQueue as SharedQueue>⟧.first self.now ≡ self.now.first }
        ensures usable { (p : QueuePassView) → ⟦<PlainQueue as SharedQueue>⟧.usable self.now p ↔ IsQueuePass self.now p }
        ensures no_crowd { (agent : ℕ) → ¬ ⟦<PlainQueue as SharedQueue>⟧.crowd self.now agent }
        ensures licence { (agent turns : ℕ) (why : QueueRefused) (journal : List QueueEntry) (from to : ℕ)
            → ⟦<PlainQueue as SharedQueue>⟧.licence self.now agent turns why journal from to
            → RefusedAt (RefusesEnqueue self.now turns) why journal from }
    {}
}

impl SharedQueue for PlainQueue {
    type Pass = PlainQueuePass;

    type Step = QueueEntry;

    ghost agent_of = { λ q p. p.agent };

    ghost journal = { λ p. p.history };

    ghost history = { λ q journal. journal };

    ghost first = { λ q. q.first };

    ghost usable = { λ q p. IsQueuePass q p };

    ghost crowd = { λ q agent. ⊥ };

    ghost licence = { λ q agent turns why journal from to.
        RefusedAt (RefusesEnqueue q turns) why journal from };

    ghost legal = { λ q p h. h.legal };

    ghost licence_stays = { λ q agent turns why seen more from to h.
        RefusedAt-append (RefusesEnqueue q turns) why seen more from h };

    ghost grows = { λ q seen more. (more, refl) };

    ghost many_puts = { λ q agent turns seen from to h. enough_puts q turns seen from h };

    fn agent(&self, p: &PlainQueuePass) -> u32 {
        p.agent
    }

    fn enqueue(&self, p: &mut PlainQueuePass, job: u64, turns: u64) -> Result<u64, QueueRefused>
        requires { IsQueuePass self.now p.old }
        ensures usable { IsQueuePass self.now p.new }

        // An Ok call enters one entry, and a refused one changes nothing.
        ensures entered { IfOk result (λ at. p.new ≡ record p.old {
          history = p.old.history ++ QueueEntry.Put p.old.agent job at ∷ [];
        }) }
        ensures unchanged { OnErr result (p.new ≡ p.old) }

        // Exactly when each refusal comes, and the position otherwise.
        ensures again { (result ≡ Err QueueRefused.Again)
            ↔ RefusesEnqueue self.now turns p.old.history QueueRefused.Again }
        ensures no_node { (result ≡ Err QueueRefused.NoNode)
            ↔ RefusesEnqueue self.now turns p.old.history QueueRefused.NoNode }
        ensures positions { (result ≡ Err QueueRefused.Positions)
            ↔ RefusesEnqueue self.now turns p.old.history QueueRefused.Positions }
        ensures position { IfOk result (λ at. at ≡ self.now.first + puts_in p.old.history) }
        ensures in_range { IfOk result (λ at. at < 2 ^ 62) }
    {
        if !has_turn(self.room, turns, p.history.len()) {
            return Err(QueueRefused::Again);
        }
        if p.items.len() >= self.room as usize {
            return Err(QueueRefused::NoNode);
        }
        if p.next >= POSITIONS {
            return Err(QueueRefused::Positions);
        }
        let at = p.next;
        p.items.push_back_reserved((job, at));
        p.history.push_reserved(QueueEntry::Put {
            agent: p.agent,
            job,
            at,
        });
        p.next = at + 1;
        Ok(at)
    }

    fn dequeue(&self, p: &mut PlainQueuePass, turns: u64) -> Result<Option<(u64, u64)>, Again>
        requires { IsQueuePass self.now p.old }
        ensures usable { IsQueuePass self.now p.new }

        // An Ok call enters one entry, and a refused one changes nothing.
        ensures entered { IfOk result (λ got. p.new ≡ record p.old {
          history = p.old.history ++ entry_of_dequeue p.old.agent got ∷ [];
        }) }
        ensures unchanged { OnErr result (p.new ≡ p.old) }

        // Exactly when the refusal comes, and the front otherwise.
        ensures again { IsErr result ↔ LacksTurn self.now.room turns (length p.old.history) }
        ensures front { IfOk result (λ got. got ≡ slice_get (waiting_after [] p.old.history) 0) }
    {
        if !has_turn(self.room, turns, p.history.len()) {
            return Err(Again);
        }
        let got = p.items.pop_front();
        p.history.push_reserved(match got {
            Some((job, at)) => QueueEntry::Took {
                agent: p.agent,
                job,
                at,
            },
            None => QueueEntry::Empty { agent: p.agent },
        });
        Ok(got)
    }
}
