//! What passes tell, what they learn from each other, and how a board ends.

ghost use Rattle.std.specs.Prelude.{◌≡◌, ◌<◌, [], ℕ};
ghost use Rattle.orc_core.specs.{Machine.{new_machine, record_at}, RecordParts.{is_empty, slot_of}};
ghost use Rattle.orc_heap.specs.Allowed.{AllAllowed};
ghost use Rattle.orc_machine_board.specs.{
  Passes.{AbsorbsSteps, LearnsSteps, TookInAll, backlog_in},
  Rules.{machine_opening, run_of},
  Views.{Belongs, board_bounds, board_numbers, board_seed, shows},
};
ghost use Rattle.orc_projection.specs.Projection.{StoresUnmarked, project};
ghost use mathlib.Core.List.{IsPrefix};
ghost use Rattle.orc_layout.specs.Layout.{index, lay};
ghost use Rattle.orc_shared_words.specs.Runs.{AgentsBelow};
ghost use Rattle.orc_sound.specs.Journals.{IsLawfulJournal};
ghost use Rattle.orc_words.specs.Bounds.{bounds_of};

use crate::board::{MachineBoard, MachineBoardPass};
use orc_core::Agent;
use orc_heap::Discipline;
use orc_shared_words::LastWords;
use orc_words::Shape;

impl<D: Discipline> MachineBoardPass<D> {
    /// The number of the pass's agent.
    pub fn agent(&self) -> u32
        ensures { result ≡ (shows self.now).agent }
    {
        self.pass.agent
    }

    /// What the pass keeps of its agent's record. In its other parts anything may stand.
    pub fn kept(&self) -> &Agent
        ensures fresh { result.now.fresh ≡ (shows self.now).record_is.fresh }
        ensures hand { result.now.hand ≡ (shows self.now).record_is.hand }
        ensures scan { result.now.scan ≡ (shows self.now).record_is.scan }
        ensures list { result.now.list ≡ (shows self.now).record_is.list }
        ensures empty { (slot : ℕ) → is_empty (slot_of result.now slot) ≡ is_empty (slot_of (shows self.now).record_is slot) }
    {
        &self.pass.own
    }

    /// How many rows the agent has still to work through: the entries of its work list, and one more where it keeps a
    /// hand or a scan. A doomed row that it has still to free isn't counted.
    pub fn backlog(&self) -> u32
        requires belongs { (board : MachineBoard D D.Note) × Belongs board self.now }
        ensures { result ≡ backlog_in (shows self.now).record_is }
    {
        let own = &self.pass.own;
        let listed = own.list.len() as u32;
        if own.hand.is_some() || own.scan.is_some() {
            listed + 1
        } else {
            listed
        }
    }
}

impl<D: Discipline> MachineBoard<D> {
    /// The sizes that the board was made with.
    pub fn shape(&self) -> Shape
        ensures { bounds_of result ≡ board_bounds self.now }
    {
        self.words.shape.shape
    }

    /// What is true of all that a pass of the board has seen.
    pub fn seen_by(&self, p: &MachineBoardPass<D>)
        requires belongs { Belongs self.now p.now }
        ensures agent { (shows p.now).agent < (board_bounds self.now).agents }
        ensures lawful { IsLawfulJournal (new_machine (board_bounds self.now)) (shows p.now).journal }
        ensures unmarked { StoresUnmarked (shows p.now).journal }
        ensures opened { IsPrefix (machine_opening (board_bounds self.now).agents (board_seed self.now)) (shows p.now).journal }
        ensures each { AllAllowed (D.may (board_numbers self.now)) [] (project (board_bounds self.now) (shows p.now).journal) }
        ensures kept { D.holds (board_numbers self.now) (project (board_bounds self.now) (shows p.now).journal) }
        ensures below { AgentsBelow (λ s. s.agent) (board_bounds self.now).agents (shows p.now).journal }
        ensures record { record_at (run_of (board_bounds self.now) (shows p.now).journal) (shows p.now).agent ≡ (shows p.now).record_is }
    {}

    /// Lets each of two passes see what the other has seen. It works on no word.
    pub fn learn(&self, into: &mut MachineBoardPass<D>, from: &mut MachineBoardPass<D>)
        requires into { Belongs self.now into.old }
        requires from { Belongs self.now from.old }
        ensures into { Belongs self.now into.new }
        ensures from { Belongs self.now from.new }
        ensures learns { LearnsSteps (shows into.old) (shows from.old) (shows into.new) (shows from.new) }
    {
        self.words.learn(&mut into.pass, &mut from.pass);
    }

    /// Takes in another pass for good: its agent does nothing more.
    pub fn absorb(&self, into: &mut MachineBoardPass<D>, from: MachineBoardPass<D>)
        requires into { Belongs self.now into.old }
        requires from { Belongs self.now from }
        ensures into { Belongs self.now into.new }
        ensures absorbs { AbsorbsSteps (shows into.old) (shows from) (shows into.new) }
    {
        let MachineBoardPass { mut pass } = from;
        self.words.learn(&mut into.pass, &mut pass);
        self.words.absorb(&mut into.pass, pass);
    }

    /// Ends the sharing. A pass that took in all others has seen the whole journal: the words are those that it leaves,
    /// each at its index.
    pub fn close(self, p: MachineBoardPass<D>) -> LastWords
        requires belongs { Belongs self p }
        requires all { TookInAll (board_bounds self) (shows p) }
        ensures words { result ≡ lay (index (board_bounds self)) (run_of (board_bounds self) (shows p).journal).words }
    {
        let MachineBoard { words } = self;
        let MachineBoardPass { pass } = p;
        words.close(pass)
    }
}
