//! Shared words, and the passes with which agents step on them.

ghost use Rattle.std.specs.Prelude.{◌≡◌, ◌<◌, ℕ, Some, [], All, IfOk, length};
ghost use Rattle.orc_layout.specs.Layout.{lay};
ghost use Rattle.orc_shared_words.specs.{
  Ends.{OpensLawfully, OwnsAll, Whole},
  Learning.{Confirmed, LearnedBoth},
  Lists.{EachAt},
  Steps.{Extends, LaterJournal, IsAllowedLater},
  Views.{Covers, absorbing, first_view, keeping, next_pass, one_handed},
};
ghost use Rattle.orc_history.specs.Journals.{own_of};

use crate::journal::View;
use crate::last_words::LastWords;
use crate::machine::Machine;
use crate::moves::{Absorb, Confirm, Does, NextAgent, Note, Picks, Tries};
use crate::operation::{PlacedOperation, operate};
use crate::rule::Shown;
use atomic_table::{Seat, Table};
use orc_fault::NoMemory;
use orc_heap::Discipline;
use orc_words::Operation;
use std::alloc::Global;
use std::marker::Brand;

/// Words that agents share, with one journal of all their steps.
#[derive(Drop)]
pub struct SharedWords<M: Machine<D::Note>, D: Discipline> {
    pub table: Table<(), View<M::Step, M::Record>, M::Shape, Shown<M, D>, Global>,
    pub shape: M::Shape,
    ghost shaped: { table.shared.key ≡ shape },
    ghost some: { 0 < table.shared.table_id.words },
    ghost no_slots: { table.shared.table_id.slots ≡ 0 },
}

/// An agent's right to step, with its record. It may cross threads.
#[derive(Drop)]
pub struct SharedPass<M: Machine<D::Note>, D: Discipline> {
    pub seat: Seat<(), View<M::Step, M::Record>>,
    pub agent: u32,
    pub own: M::Own,
    ghost named: { seat.me.0.agent ≡ Some agent },
    ghost mine: { M.tied seat.me.0.own own } by { M.one_tie _ _ },
    ghost holds_none: { seat.me.1 ≡ [] },
}

impl<M: Machine<D::Note>, D: Discipline> SharedPass<M, D> {
    /// The agent's number.
    pub fn agent(&self) -> u32
        ensures { result ≡ self.now.agent }
    {
        self.agent
    }
}

impl<M: Machine<D::Note>, D: Discipline> SharedWords<M, D> {
    /// The words after the opening, each at the index of its place, and one pass for each agent, in order. `owns` are the records of
    /// the agents.
    ///
    /// # Errors
    ///
    /// `NoMemory` where memory is refused.
    pub fn make(
        alloc: Global,
        shape: M::Shape,
        words: &[u64],
        owns: Vec<M::Own>,
    ) -> Result<(SharedWords<M, D>, Vec<SharedPass<M, D>>), NoMemory>
        requires words { words.now ≡ lay (M.rules.index shape) (M.rules.words shape (M.rules.opening shape)) }
        requires some { 0 < length words.now }
        requires agents { (length owns.items ≡ M.rules.agents shape) × (length owns.items < 4294967296) }
        requires owns { EachAt (λ i own. M.tied (M.rules.own shape (M.rules.opening shape) i) own) owns.items }
        requires opening { OpensLawfully M.rules shape (D.holds (M.numbers shape)) (D.may (M.numbers shape)) }
        ensures shape { IfOk result (λ b. b.0.shape ≡ shape) }
        ensures words { IfOk result (λ b. b.0.table.shared.table_id.words ≡ length words.now) }
        ensures passes { IfOk result (λ b. length b.1.items ≡ M.rules.agents shape) }
        ensures table { IfOk result (λ b. All (λ p. p.seat.table_id ≡ b.0.table.shared.table_id) b.1.items) }
        ensures agents { IfOk result (λ b. EachAt (λ i p. p.agent ≡ i) b.1.items) }
        ensures seen { IfOk result (λ b. All (λ p. (p.seat.me.0.seen ≡ M.rules.opening shape) × (p.seat.me.0.also ≡ [])) b.1.items) }
        ensures owns { IfOk result (λ b. EachAt (λ i p. p.seat.me.0.own ≡ M.rules.own shape (M.rules.opening shape) i) b.1.items) }
    {
        let mut others = Vec::with_capacity(alloc, owns.len())?;
        let mut owns = owns.into_iter();
        let Some(own) = owns.next() else {
            unreachable!()
        };
        let (shared, mut first) = SharedWords::start(alloc, shape, words, own)?;
        for own in owns {
            let number = others.len() as u32 + 1;
            let next = shared.hand_out(&mut first, number, own);
            others.push(next)?;
        }
        others.insert(0, first)?;
        Ok((shared, others))
    }

    // Makes the words, and the pass of agent 0.
    fn start(
        alloc: Global,
        shape: M::Shape,
        words: &[u64],
        own: M::Own,
    ) -> Result<(SharedWords<M, D>, SharedPass<M, D>), NoMemory>
        requires words { words.now ≡ lay (M.rules.index shape) (M.rules.words shape (M.rules.opening shape)) }
        requires some { 0 < length words.now }
        requires own { M.tied (M.rules.own shape (M.rules.opening shape) 0) own }
        requires opening { OpensLawfully M.rules shape (D.holds (M.numbers shape)) (D.may (M.numbers shape)) }
        ensures { IfOk result (λ b. (b.1.seat.table_id ≡ b.0.table.shared.table_id) × (b.0.table.shared.table_id.words ≡ length words.now)
            × (b.0.shape ≡ shape) × (b.1.agent ≡ 0) × (b.1.seat.me.0 ≡ first_view M.rules shape)) }
    {
        let (table, seat) = Table::of_words(alloc, words, &shape)?;
        let pass = SharedPass {
            seat,
            agent: 0,
            own,
        };
        Ok((SharedWords { table, shape }, pass))
    }

    // Makes the pass of the next agent.
    fn hand_out(&self, first: &mut SharedPass<M, D>, number: u32, own: M::Own) -> SharedPass<M, D>
        requires table { first.old.seat.table_id ≡ self.now.table.shared.table_id }
        requires own { M.tied first.old.seat.me.0.born own }
        requires free { (first.old.seat.me.0.free ≡ Some number) × (number < M.rules.agents self.now.shape) }
        ensures table { (first.new.seat.table_id ≡ first.old.seat.table_id) × (result.seat.table_id ≡ first.old.seat.table_id) }
        ensures agents { (first.new.agent ≡ first.old.agent) × (result.agent ≡ number) }
        ensures views { (first.new.seat.me.0 ≡ one_handed first.old.seat.me.0) × (result.seat.me.0 ≡ next_pass M.rules first.old.seat.me.0) }
    {
        let seat = self
            .table
            .shared
            .split_seat::<NextAgent<M, D::Note>>(&mut first.seat);
        SharedPass {
            seat,
            agent: number,
            own,
        }
    }

    /// Makes one step with this note, and answers what its operation on the word answers.
    #[inline(always)]
    pub fn step(&self, p: &mut SharedPass<M, D>, op: &M::Op, note: &Option<D::Note>) -> u64
        requires table { p.old.seat.table_id ≡ self.now.table.shared.table_id }
        requires inside { M.rules.index self.now.shape (M.rules.place self.now.shape p.old.agent op.now p.old.seat.me.0.own)
            < self.now.table.shared.table_id.words }
        requires allowed { M.rules.allowed self.now.shape p.old.agent op.now p.old.seat.me.0.own }
        requires licensed { IsAllowedLater M.rules self.now.shape (D.holds (M.numbers self.now.shape)) (D.may (M.numbers self.now.shape))
            p.old.seat.me.0 p.old.agent op.now note.now }
        ensures table { p.new.seat.table_id ≡ p.old.seat.table_id }
        ensures agent { p.new.agent ≡ p.old.agent }
        ensures step { Extends M.rules self.now.shape (D.holds (M.numbers self.now.shape)) (D.may (M.numbers self.now.shape))
            op.now note.now p.old.seat.me.0 result p.new.seat.me.0 }
    {
        let n = self.make_step::<Brand>(&mut p.seat, p.agent, &p.own, op, note);
        M::keep(&self.shape, p.agent, op, &mut p.own, n);
        n
    }

    // Makes the step on the table, which the call picks from the arguments.
    #[inline(always)]
    fn make_step<J: Picks<M::Shape, M::Op, D::Note>>(
        &self,
        seat: &mut Seat<(), View<M::Step, M::Record>>,
        agent: u32,
        own: &M::Own,
        op: &M::Op,
        note: &Option<D::Note>,
    ) -> u64
        requires picked { J.step ≡ Some (self.now.shape, op.now, note.now) }
        requires table { seat.old.table_id ≡ self.now.table.shared.table_id }
        requires agent { seat.old.me.0.agent ≡ Some agent }
        requires tied { M.tied seat.old.me.0.own own.now }
        requires inside { M.rules.index self.now.shape (M.rules.place self.now.shape agent op.now seat.old.me.0.own)
            < self.now.table.shared.table_id.words }
        requires allowed { M.rules.allowed self.now.shape agent op.now seat.old.me.0.own }
        requires licensed { IsAllowedLater M.rules self.now.shape (D.holds (M.numbers self.now.shape)) (D.may (M.numbers self.now.shape))
            seat.old.me.0 agent op.now note.now }
        ensures table { seat.new.table_id ≡ seat.old.table_id }
        ensures step { Extends M.rules self.now.shape (D.holds (M.numbers self.now.shape)) (D.may (M.numbers self.now.shape))
            op.now note.now seat.old.me.0 result seat.new.me.0 }
        ensures slots { seat.new.me.1 ≡ seat.old.me.1 }
    {
        let shared = &self.table.shared;
        let PlacedOperation { index, operation } = M::operation(&self.shape, agent, op, own);
        match operation {
            Operation::Swap(0) => {
                // where the word holds 0 already, a load does as much
                let found = shared.load::<Tries<M, D, J>>(seat, index);
                if found == 0 {
                    return 0;
                }
                shared.swap::<Does<M, D, J>>(seat, index, 0)
            }
            _ => operate::<_, _, _, Does<M, D, J>>(shared, seat, index, operation),
        }
    }

    /// Lets each of two passes see what the other has seen. It works on no word.
    pub fn learn(&self, into: &mut SharedPass<M, D>, from: &mut SharedPass<M, D>)
        requires table { (into.old.seat.table_id ≡ self.now.table.shared.table_id) × (from.old.seat.table_id ≡ self.now.table.shared.table_id) }
        ensures table { (into.new.seat.table_id ≡ into.old.seat.table_id) × (from.new.seat.table_id ≡ from.old.seat.table_id) }
        ensures agents { (into.new.agent ≡ into.old.agent) × (from.new.agent ≡ from.old.agent) }
        ensures owns { (into.new.own ≡ into.old.own) × (from.new.own ≡ from.old.own) }
        ensures learned { LearnedBoth M.rules.by into.old.seat.me.0 from.old.seat.me.0 into.new.seat.me.0 from.new.seat.me.0 }
    {
        self.take_note(into, from);
        self.take_note(from, into);
    }

    // Lets `into` take the list of `from` where that is longer: by a split, a join and a confirm.
    fn take_note(&self, into: &mut SharedPass<M, D>, from: &mut SharedPass<M, D>)
        requires table { (into.old.seat.table_id ≡ self.now.table.shared.table_id) × (from.old.seat.table_id ≡ self.now.table.shared.table_id) }
        ensures table { (into.new.seat.table_id ≡ into.old.seat.table_id) × (from.new.seat.table_id ≡ from.old.seat.table_id) }
        ensures agents { (into.new.agent ≡ into.old.agent) × (from.new.agent ≡ from.old.agent) }
        ensures owns { (into.new.own ≡ into.old.own) × (from.new.own ≡ from.old.own) }
        ensures views { Confirmed M.rules.by (keeping into.old.seat.me.0 from.old.seat.me.0) into.new.seat.me.0 × (from.new.seat.me.0 ≡ from.old.seat.me.0) }
    {
        let shared = &self.table.shared;
        let noted = shared.split_seat::<Note<M, D::Note>>(&mut from.seat);
        shared.join_seat::<Note<M, D::Note>>(&mut into.seat, noted);
        shared.load::<Confirm<M, D::Note>>(&mut into.seat, 0);
    }

    /// Takes in a pass for good. What its agents did, `into` has to have seen: `learn` gives that.
    pub fn absorb(&self, into: &mut SharedPass<M, D>, from: SharedPass<M, D>)
        requires table { (into.old.seat.table_id ≡ self.now.table.shared.table_id) × (from.seat.table_id ≡ self.now.table.shared.table_id) }
        requires same { (b : ℕ) → Covers from.seat.me.0 b → own_of M.rules.by b into.old.seat.me.0.seen ≡ own_of M.rules.by b from.seat.me.0.seen }
        ensures table { into.new.seat.table_id ≡ into.old.seat.table_id }
        ensures agent { into.new.agent ≡ into.old.agent }
        ensures own { into.new.own ≡ into.old.own }
        ensures view { into.new.seat.me.0 ≡ absorbing into.old.seat.me.0 from.seat.me.0 }
    {
        let SharedPass {
            seat,
            agent: _,
            own,
        } = from;
        drop(own);
        self.table
            .shared
            .join_seat::<Absorb<M, D::Note>>(&mut into.seat, seat);
    }

    /// Ends the sharing: a pass that took in all others has seen the whole journal, which the words show.
    pub fn close(self, pass: SharedPass<M, D>) -> LastWords
        requires table { pass.seat.table_id ≡ self.table.shared.table_id }
        requires all { OwnsAll M.rules self.shape pass.seat.me.0 }
        ensures count { length result ≡ self.table.shared.table_id.words }
        ensures whole { Whole M.rules self.shape (D.holds (M.numbers self.shape)) (D.may (M.numbers self.shape)) pass.seat.me.0.seen result }
    {
        let SharedWords { table, shape: _ } = self;
        let SharedPass {
            seat,
            agent: _,
            own,
        } = pass;
        drop(own);
        LastWords::new(table.close_with(seat))
    }
}
