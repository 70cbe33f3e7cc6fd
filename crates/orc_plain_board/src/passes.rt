//! What passes tell, learn from each other and give up.

ghost use Rattle.std.specs.Prelude.{◌≡◌};
ghost use Rattle.orc_words.specs.Bounds.{Bounds, bounds_of};
ghost use Rattle.orc_plain_board.specs.{BoardCalls.{GivesUp, IsFresh, Learn, TakesIn}, Views.{Belongs, board_bounds, shows_by}};

use crate::pass::{PlainBoard, PlainBoardPass};
use orc_heap::Discipline;
use orc_words::Shape;

impl<D: Discipline> PlainBoardPass<D> {
    /// The number of the pass's agent.
    pub fn agent(&self) -> u32
        ensures { (b : Bounds) → result ≡ (shows_by b self.now).agent }
    {
        self.pass.agent
    }

    /// The row that the pass was given last, unless it was linked or given up.
    pub fn fresh(&self) -> Option<u32>
        ensures { (b : Bounds) → result ≡ (shows_by b self.now).fresh }
    {
        self.fresh
    }
}

impl<D: Discipline> PlainBoard<D> {
    /// The sizes that the board was made with.
    pub fn shape(&self) -> Shape
        ensures { bounds_of result ≡ board_bounds self.now }
    {
        self.words.shape.shape
    }

    /// The row is the pass's fresh row no more. It is never given again.
    pub fn give_up(&self, p: &mut PlainBoardPass<D>, row: u32)
        requires belongs { Belongs self.now p.old }
        requires fresh { IsFresh self.now p.old row }
        ensures belongs { Belongs self.now p.new }
        ensures given_up { GivesUp self.now p.old p.new }
    {
        p.fresh = None;
    }

    /// Lets each of two passes see what the other has seen. It works on no word.
    pub fn learn(&self, into: &mut PlainBoardPass<D>, from: &mut PlainBoardPass<D>)
        requires into { Belongs self.now into.old }
        requires from { Belongs self.now from.old }
        ensures into { Belongs self.now into.new }
        ensures from { Belongs self.now from.new }
        ensures learns { Learn self.now into.old from.old into.new from.new }
    {
        self.words.learn(&mut into.pass, &mut from.pass);
    }

    /// Takes in another pass for good: its agent does nothing more.
    pub fn absorb(&self, into: &mut PlainBoardPass<D>, from: PlainBoardPass<D>)
        requires into { Belongs self.now into.old }
        requires from { Belongs self.now from }
        ensures into { Belongs self.now into.new }
        ensures absorbs { TakesIn self.now into.old from into.new }
    {
        let PlainBoardPass {
            mut pass,
            fresh: _,
            looked: _,
        } = from;
        self.words.learn(&mut into.pass, &mut pass);
        self.words.absorb(&mut into.pass, pass);
    }
}
