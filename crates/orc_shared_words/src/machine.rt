//! Machines: how a journal runs, and what a pass does for a step.

ghost use Rattle.std.specs.Prelude.{◌≡◌, List, ℕ};
ghost use Rattle.orc_heap.specs.Heap.{HeapNumbers};
ghost use Rattle.orc_words.specs.Operations.{word_after};
ghost use Rattle.orc_shared_words.specs.{Operations.{returned_by}, Runs.{Rules, Obeys, found_by}};

use crate::operation::PlacedOperation;

/// A machine over shared words, for notes of type N.
pub trait Machine<N> {
    /// The machine's fixed numbers.
    type Shape: Copy;

    /// An operation of the machine, of one agent.
    type Op: Copy;

    /// A step of a journal. No value of it is made.
    type Step;

    /// What an agent keeps, as plain data. No value of it is made.
    type Record;

    /// What a pass has for its agent's record.
    type Own: Drop;

    // what a pass has for its agent's record is enough for that record
    ghost tied: { Self.Record → Self.Own → Type 0 };

    // that is a fact, of which there is one proof
    ghost one_tie: { (d : Self.Record) (o : Self.Own) → IsProp (tied d o) };

    // there is room in the record for what a step puts there that found this number
    ghost has_room: { Self.Shape → Self.Op → Self.Record → ℕ → Type 0 };

    // the numbers of the heap
    ghost numbers: { Self.Shape → HeapNumbers };

    // how a journal runs
    ghost rules: { Rules Self.Shape Self.Step Self.Op Self.Record N };

    // the run follows the steps
    ghost obeys: { (k : Self.Shape) → Obeys rules k };

    // after each lawful journal there is room for the next step
    ghost leaves_room: { (k : Self.Shape) (j : List Self.Step) (a : ℕ) (op : Self.Op) → rules.lawful k j
        → rules.allowed k a op (rules.own k j a)
        → has_room k op (rules.own k j a) (found_by rules k j a op) };

    /// The step's operation on the words.
    fn operation(shape: &Self::Shape, agent: u32, op: &Self::Op, own: &Self::Own) -> PlacedOperation
        requires allowed { (d : Self.Record) × tied d own.now × rules.allowed shape.now agent op.now d }
        ensures index { (d : Self.Record) → tied d own.now → rules.allowed shape.now agent op.now d
            → result.index ≡ rules.index shape.now (rules.place shape.now agent op.now d) }
        ensures written { (d : Self.Record) → tied d own.now → rules.allowed shape.now agent op.now d
            → word_after result.operation ≡ rules.written shape.now agent op.now d }
        ensures answer { (d : Self.Record) → tied d own.now → rules.allowed shape.now agent op.now d
            → returned_by result.operation ≡ rules.answer shape.now agent op.now d };

    /// Changes the record as a step that answered `n` does.
    fn keep(shape: &Self::Shape, agent: u32, op: &Self::Op, own: &mut Self::Own, n: u64)
        requires room { (d : Self.Record) × (found : ℕ) × tied d own.old × rules.allowed shape.now agent op.now d
            × (n ≡ rules.answer shape.now agent op.now d found) × has_room shape.now op.now d found }
        ensures after { (d : Self.Record) (found : ℕ) → tied d own.old → rules.allowed shape.now agent op.now d
            → n ≡ rules.answer shape.now agent op.now d found → has_room shape.now op.now d found
            → tied (rules.after shape.now agent op.now d found) own.new };
}
