//! The state of the machine, and one step of it.

ghost use Rattle.std.specs.Prelude.{◌≡◌, ◌+◌, ◌*◌, ◌<◌, ◌≤◌, true, false, IfOk, IsTrue, OnErr, OnOk, length, replicate, slice_index, slice_set};
ghost use Rattle.orc_words.specs.{Bounds.{bounds_of}, Places.{IsWithin, places}, Operations.{answer_of, word_after}};
ghost use Rattle.orc_core.specs.{
  declared.ops.Op.{Op},
  Actions.{action_of},
  After.{after},
  Allowed.{may},
  Counts.{is_out, is_retired},
  Machine.{IsWhole, LeavesRoom, answer, has_room, is_allowed, new_machine, nobody, place_acted_on, record_at, step, word_in},
};

use crate::actions::action_of;
use crate::ops::Op;
use crate::outcome::advance;
use crate::permission::may_step;
use crate::records::Agent;
use orc_fault::NoMemory;
use orc_words::{RETIRED, Shape, Word, new_words, place_of};
use std::alloc::Global;
use std::marker::Model;

/// The words of a table and the records of its agents.
#[derive(Drop)]
pub struct State {
    shape: Shape,
    words: Vec<u64>,
    agents: Vec<Agent>,
}

impl Model for State {
    ghost use Rattle.std.specs.Prelude.{◌≡◌, length};
    ghost use Rattle.orc_words.specs.{Bounds.{bounds_of}, Places.{places}};
    ghost use Rattle.orc_core.specs.Machine.{EachWithRoom, Machine};

    ghost Value = { Machine };

    ghost view = { λ s. record { bounds = bounds_of s.shape; words = s.words.items; agents = s.agents.items } };

    ghost invariant = { λ s. (length s.words.items ≡ places (bounds_of s.shape))
        × (length s.agents.items ≡ (bounds_of s.shape).agents)
        × EachWithRoom (bounds_of s.shape).rows s.agents.items };
}

/// The step isn't allowed, and nothing was changed.
#[derive(Clone, Copy, Debug, PartialEq, Eq)]
pub struct NotAllowed;

// The records of a new table.
fn new_agents(alloc: Global, shape: &Shape) -> Result<Vec<Agent>, NoMemory>
    ensures { let bounds = bounds_of shape.now in
        IfOk result (λ agents. agents.items ≡ replicate bounds.agents (nobody bounds.rows)) }
{
    let mut agents = Vec::with_capacity(alloc, shape.agents() as usize)?;
    for _number in 0..shape.agents() {
        let agent = Agent::new(alloc, shape.rows())?;
        agents.push(agent)?;
    }
    Ok(agents)
}

impl State {
    /// The new words and empty records, with a work list of `rows` places for each agent.
    pub fn new(alloc: Global, shape: &Shape) -> Result<State, NoMemory>
        ensures { IfOk result (λ state. state ≡ new_machine (bounds_of shape.now)) }
    {
        let words = new_words(alloc, shape)?;
        let agents = new_agents(alloc, shape)?;
        Ok(State {
            shape: *shape,
            words,
            agents,
        })
    }

    /// The shape that the state was made with.
    pub fn shape(&self) -> Shape
        ensures bounds { bounds_of result ≡ self.now.bounds }
        ensures whole { IsWhole self.now }
    {
        self.shape
    }

    /// The words, and the records of the agents.
    pub fn into_parts(self) -> (Vec<u64>, Vec<Agent>)
        ensures words { result.0.items ≡ self.words }
        ensures agents { result.1.items ≡ self.agents }
    {
        let State {
            shape: _,
            words,
            agents,
        } = self;
        (words, agents)
    }

    /// What a word holds.
    pub fn word(&self, word: Word) -> u64
        requires { IsWithin self.now.bounds word }
        ensures { result ≡ word_in self.now word }
    {
        self.words[place_of(&self.shape, word)]
    }

    /// The record of an agent.
    pub fn agent(&self, number: u32) -> &Agent
        requires { number < self.now.bounds.agents }
        ensures { result.now ≡ record_at self.now number }
    {
        &self.agents[number as usize]
    }

    /// Whether the row is out: taken, and not given back.
    pub fn is_out(&self, row: u32) -> bool
        requires { row < self.now.bounds.rows }
        ensures { result ≡ is_out self.now row }
    {
        self.word(Word::Gate(row)) % 2 == 1
    }

    /// Whether the row has the retired bit.
    pub fn is_retired(&self, row: u32) -> bool
        requires { row < self.now.bounds.rows }
        ensures { result ≡ is_retired self.now row }
    {
        self.word(Word::Counter(row)) / RETIRED % 2 == 1
    }

    /// Whether the agent's work list has a free place. Then any step of the agent leaves it room.
    #[tactic(auto, using(crate::proofs::Within::leaves_room, crate::proofs::Within::outside_has_room))]
    pub fn has_room(&self, agent: u32) -> bool
        ensures place { result ≡ has_room self.now agent }
        ensures room { IsTrue result → (op : Op) → LeavesRoom self.now agent op }
    {
        let shape = self.shape();
        agent >= shape.agents() || self.agent(agent).list.len() < shape.rows() as usize
    }
}

/// Whether the agent may make this step. But for Enroll it looks at that agent's record alone.
pub fn allowed(state: &State, agent: u32, op: &Op) -> bool
    ensures { result ≡ is_allowed state.now agent op.now }
{
    if agent >= state.shape.agents() {
        return false;
    }
    may_step(
        &state.shape,
        state.words[0],
        agent,
        op,
        &state.agents[agent as usize],
    )
}

// The step that is allowed, on the words and the agent's record.
fn make_step(shape: &Shape, words: &mut [u64], number: u32, op: &Op, agent: &mut Agent) -> u64
    requires allowed { may (bounds_of shape.now) (slice_index words.old 0) number op.now agent.old ≡ true }
    requires long { length words.old ≡ places (bounds_of shape.now) }
    requires room { let read = slice_index words.old (place_acted_on (bounds_of shape.now) number op.now agent.old) in
        length (after op.now agent.old read).list.items ≤ agent.old.list.room }
    ensures words { let at = place_acted_on (bounds_of shape.now) number op.now agent.old in
        let operation = (action_of number op.now agent.old).operation in
        words.new ≡ slice_set words.old at (word_after operation (slice_index words.old at)) }
    ensures agent { let read = slice_index words.old (place_acted_on (bounds_of shape.now) number op.now agent.old) in
        agent.new ≡ after op.now agent.old read }
    ensures answer { let read = slice_index words.old (place_acted_on (bounds_of shape.now) number op.now agent.old) in
        result ≡ answer_of (action_of number op.now agent.old).operation read }
{
    let action = action_of(number, op, agent);
    let place = place_of(shape, action.word);
    let read = words[place];
    words[place] = action.operation.word_after(read);
    advance(agent, op, read);
    action.operation.answer(read)
}

/// Makes one step of the agent, if it is allowed, and takes no memory. It answers the word that a load, a
/// swap, a fetch_add or a fetch_sub read, the word that a store wrote, and for a compare_exchange 1 where it
/// succeeded and 0 where it failed.
pub fn apply(state: &mut State, agent: u32, op: &Op) -> Result<u64, NotAllowed>
    requires { LeavesRoom state.old agent op.now }
    ensures allowed { OnOk result (is_allowed state.old agent op.now ≡ true) }
    ensures refused { OnErr result (is_allowed state.old agent op.now ≡ false) }
    ensures step { OnOk result (state.new ≡ step state.old agent op.now) }
    ensures answer { IfOk result (λ number. number ≡ answer state.old agent op.now) }
    ensures unchanged { OnErr result (state.new ≡ state.old) }
{
    if !allowed(state, agent, op) {
        return Err(NotAllowed);
    }
    let record = &mut state.agents[agent as usize];
    Ok(make_step(&state.shape, &mut state.words, agent, op, record))
}
