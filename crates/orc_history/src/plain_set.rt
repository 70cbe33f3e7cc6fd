//! A set on one thread, which stores its history.
ghost use Rattle.std.specs.Prelude.{◌≡◌, ℕ, ◌≢◌, ◌≤◌, ◌↔◌, List, [], ◌∷◌, ◌++◌, length, true, false, not, refl, IfOk, IsErr, OnErr};
ghost use Rattle.orc_history.specs.{
  SetHistory.{has, keys_after},
  StoredHistory.{LacksTurn, RefusedAt, RefusedAt-append},
  PlainSet.{IsSetPass, RefusesInsert, SetPassView},
  declared.set.{SetEntry.{SetEntry}, ListRefused.{ListRefused}},
};

use crate::sorted_keys::{add_key, has_key, take_key};
use crate::stored_history::{has_turn, new_history};
use crate::{ListRefused, SetEntry, SharedSet};
use orc_fault::{Again, NoMemory, Spent};
use std::alloc::Global;
use std::collections::VecDeque;
use std::marker::Model;

/// A set for one thread. Until `pass` is called it has its state, which takes no memory later.
#[derive(Drop)]
pub struct PlainSet {
    room: u32,
    state: Option<PlainSetPass>,
}

impl Model for PlainSet {
    ghost use Rattle.std.specs.Prelude.{◌≡◌, ⊤, MatchOption, [], is_some};
    ghost use Rattle.orc_history.specs.PlainSet.{SetView, SetPassView};

    ghost Value = { SetView };

    ghost view = { λ s. record { room = s.room; whole = is_some s.state } };

    ghost invariant = { λ s. MatchOption s.state ⊤
        (λ p. p ≡ record { agent = 0; room = s.room; history = [] }) };
}

impl PlainSet {
    /// An empty set for at most `room` keys. It stores the entries of 4 × `room` + 4 calls, after which it refuses each call with `Again`.
    ///
    /// # Errors
    ///
    /// `NoMemory` where memory is refused.
    pub fn new(alloc: Global, room: u32) -> Result<PlainSet, NoMemory>
        ensures { IfOk result (λ s. s ≡ record { room = room; whole = true }) }
    {
        let keys = VecDeque::with_capacity(alloc, room as usize)?;
        let history = new_history(alloc, room)?;
        let state = PlainSetPass {
            agent: 0,
            room,
            keys,
            history,
        };
        Ok(PlainSet {
            room,
            state: Some(state),
        })
    }

    /// The set without its state, and the state as a pass of agent 0.
    pub fn pass(self) -> (PlainSet, PlainSetPass)
        requires { self.whole ≡ true }
        ensures set { result.0 ≡ record self { whole = false } }
        ensures pass { result.1 ≡ record { agent = 0; room = self.room; history = [] } }
    {
        let PlainSet { room, state } = self;
        let set = PlainSet { room, state: None };
        match state {
            Some(pass) => (set, pass),
            None => unreachable!(),
        }
    }
}

/// The state of a plain set: its keys, and the history of all calls.
#[derive(Drop)]
pub struct PlainSetPass {
    agent: u32,
    room: u32,
    // In rising order. A `VecDeque` moves the shorter side, so that runs in key order stay fast at both ends.
    keys: VecDeque<u64>,
    history: Vec<SetEntry>,
}

impl Model for PlainSetPass {
    ghost use Rattle.std.specs.Prelude.{◌≤◌, vec_capacity};
    ghost use Rattle.std.specs.VecDeque.{deque_capacity};
    ghost use Rattle.orc_history.specs.{StoredHistory.{history_room}, PlainSet.{SetPassView, HoldsSet}};

    ghost Value = { SetPassView };

    ghost view = { λ p. record { agent = p.agent; room = p.room; history = p.history.items } };

    ghost invariant = { λ p. HoldsSet p.room p.keys.items p.history.items
        × (p.room ≤ deque_capacity p.keys) × (history_room p.room ≤ vec_capacity p.history) };
}

impl PlainSetPass {
    /// Later entries are of this agent.
    pub fn act_as(&mut self, agent: u32)
        ensures { self.new ≡ record self.old { agent = agent } }
    {
        self.agent = agent;
    }
}

impl PlainSet {
    /// What the members of `SharedSet` mean here: no other agent's entries come in between, and each refusal has the cause
    /// that `insert` tells.
    pub fn members(&self)
        ensures agent_of { (p : SetPassView) → ⟦<PlainSet as SharedSet>⟧.agent_of self.now p ≡ p.agent }
        ensures journal { (p : SetPassView) → ⟦<PlainSet as SharedSet>⟧.journal p ≡ p.history }
        ensures history { (journal : List SetEntry) → ⟦<PlainSet as SharedSet>⟧.history self.now journal ≡ journal }
        ensures usable { (p : SetPassView) → ⟦<PlainSet as SharedSet>⟧.usable self.now p ↔ IsSetPass self.now p }
        ensures no_crowd { (agent : ℕ) → ¬ ⟦<PlainSet as SharedSet>⟧.crowd self.now agent }
        ensures licence { (agent turns : ℕ) (why : ListRefused) (journal : List SetEntry) (from to : ℕ)
            → ⟦<PlainSet as SharedSet>⟧.licence self.now agent turns why journal from to
            → RefusedAt (RefusesInsert self.now turns) why journal from }
    {}
}

impl SharedSet for PlainSet {
    type Pass = PlainSetPass;

    type Step = SetEntry;

    ghost agent_of = { λ s p. p.agent };

    ghost journal = { λ p. p.history };

    ghost history = { λ s journal. journal };

    ghost usable = { λ s p. IsSetPass s p };

    ghost crowd = { λ s agent. ⊥ };

    ghost licence = { λ s agent turns why journal from to.
        RefusedAt (RefusesInsert s turns) why journal from };

    ghost legal = { λ s p h. h.legal };

    ghost licence_stays = { λ s agent turns why seen more from to h.
        RefusedAt-append (RefusesInsert s turns) why seen more from h };

    ghost grows = { λ s seen more. (more, refl) };

    fn agent(&self, p: &PlainSetPass) -> u32 {
        p.agent
    }

    fn insert(&self, p: &mut PlainSetPass, key: u64, turns: u64) -> Result<bool, ListRefused>
        requires { IsSetPass self.now p.old }
        ensures usable { IsSetPass self.now p.new }

        // An Ok call enters one entry, and a refused one changes nothing.
        ensures entered { IfOk result (λ yes. p.new ≡ record p.old {
          history = p.old.history ++ SetEntry.Added p.old.agent key yes ∷ [];
        }) }
        ensures unchanged { OnErr result (p.new ≡ p.old) }

        // Exactly when each refusal comes, and the answer otherwise.
        ensures again { (result ≡ Err ListRefused.Again)
            ↔ RefusesInsert self.now turns p.old.history ListRefused.Again }
        ensures no_node { (result ≡ Err ListRefused.NoNode)
            ↔ RefusesInsert self.now turns p.old.history ListRefused.NoNode }
        ensures never_spent { (spent : Spent) → result ≢ Err (ListRefused.Spent spent) }
        ensures answer { IfOk result (λ yes. yes ≡ not (has key (keys_after [] p.old.history))) }
    {
        if !has_turn(self.room, turns, p.history.len()) {
            return Err(ListRefused::Again);
        }
        if p.keys.len() >= self.room as usize {
            return Err(ListRefused::NoNode);
        }
        let yes = add_key(&mut p.keys, key);
        p.history.push_reserved(SetEntry::Added {
            agent: p.agent,
            key,
            yes,
        });
        Ok(yes)
    }

    fn remove(&self, p: &mut PlainSetPass, key: u64, turns: u64) -> Result<bool, Again>
        requires { IsSetPass self.now p.old }
        ensures usable { IsSetPass self.now p.new }

        // An Ok call enters one entry, and a refused one changes nothing.
        ensures entered { IfOk result (λ yes. p.new ≡ record p.old {
          history = p.old.history ++ SetEntry.Removed p.old.agent key yes ∷ [];
        }) }
        ensures unchanged { OnErr result (p.new ≡ p.old) }

        // Exactly when the refusal comes, and the answer otherwise.
        ensures again { IsErr result ↔ LacksTurn self.now.room turns (length p.old.history) }
        ensures answer { IfOk result (λ yes. yes ≡ has key (keys_after [] p.old.history)) }
    {
        if !has_turn(self.room, turns, p.history.len()) {
            return Err(Again);
        }
        let yes = take_key(&mut p.keys, key);
        p.history.push_reserved(SetEntry::Removed {
            agent: p.agent,
            key,
            yes,
        });
        Ok(yes)
    }

    fn contains(&self, p: &mut PlainSetPass, key: u64, turns: u64) -> Result<bool, Again>
        requires { IsSetPass self.now p.old }
        ensures usable { IsSetPass self.now p.new }

        // An Ok call enters one entry, and a refused one changes nothing.
        ensures entered { IfOk result (λ yes. p.new ≡ record p.old {
          history = p.old.history ++ SetEntry.Asked p.old.agent key yes ∷ [];
        }) }
        ensures unchanged { OnErr result (p.new ≡ p.old) }

        // Exactly when the refusal comes, and the answer otherwise.
        ensures again { IsErr result ↔ LacksTurn self.now.room turns (length p.old.history) }
        ensures answer { IfOk result (λ yes. yes ≡ has key (keys_after [] p.old.history)) }
    {
        if !has_turn(self.room, turns, p.history.len()) {
            return Err(Again);
        }
        let yes = has_key(&p.keys, key);
        p.history.push_reserved(SetEntry::Asked {
            agent: p.agent,
            key,
            yes,
        });
        Ok(yes)
    }
}
