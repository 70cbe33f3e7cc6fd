//! What a change of a link leaves pending is counted.

ghost use Rattle.std.specs.Prelude.{◌≡◌, None, Some, true};
ghost use Rattle.std.specs.Option.{ForSome};
ghost use Rattle.orc_core.specs.RecordParts.{any_holds};
ghost use Rattle.orc_machine_board.specs.Views.{Belongs, shows};
ghost use Rattle.orc_domain.specs.{Changes.{Becomes, IsCountable, MayTryDue}, Passes.{domain_bounds}};

use crate::domain::OrcDomain;
use orc_core::Reading;
use orc_heap::Discipline;
use orc_machine_board::{MachineBoardPass, due_by};
use orc_words::{DECREMENT, INCREMENT};

impl<D: Discipline> OrcDomain<D> {
    // Tries the retired bit of the row that is due, if one is.
    pub(crate) fn try_due(&self, p: &mut MachineBoardPass<D>, due: Option<Reading>)
        requires pending { (shows p.old).record_is.due ≡ due }
        requires belongs { Belongs self.now.board p.old }
        requires enrolled { (shows p.old).record_is.enrolled ≡ true }
        requires due { MayTryDue (shows p.old).record_is }
        ensures belongs { Belongs self.now.board p.new }
        ensures becomes { Becomes (domain_bounds self.now) (record (shows p.old).record_is { due = None }) (shows p.old) (shows p.new) }
    {
        if let Some(seen) = due {
            self.board.set_retired(p, seen.row, seen.number);
        }
    }

    // Makes the pending increment.
    pub(crate) fn count_up(&self, p: &mut MachineBoardPass<D>, row: u32)
        requires belongs { Belongs self.now.board p.old }
        requires countable { IsCountable (shows p.old).record_is }
        requires inc { (shows p.old).record_is.inc ≡ Some row }
        ensures belongs { Belongs self.now.board p.new }
        ensures becomes { Becomes (domain_bounds self.now) (record (shows p.old).record_is { inc = None }) (shows p.old) (shows p.new) }
    {
        let word = self.board.inc(p, row);
        self.try_due(p, due_by(row, word.wrapping_add(INCREMENT)));
    }

    // Makes the pending decrement, with its row in slot 0.
    pub(crate) fn count_down(&self, p: &mut MachineBoardPass<D>, row: u32)
        requires belongs { Belongs self.now.board p.old }
        requires countable { IsCountable (shows p.old).record_is }
        requires inc { (shows p.old).record_is.inc ≡ None }
        requires dec { (shows p.old).record_is.dec ≡ Some row }
        ensures belongs { Belongs self.now.board p.new }
        ensures becomes { Becomes (domain_bounds self.now) (record (shows p.old).record_is { dec = None }) (shows p.old) (shows p.new) }
    {
        self.board.arm(p, row);
        let word = self.board.dec(p, row);
        self.try_due(p, due_by(row, word.wrapping_add(DECREMENT)));
        self.unlock(p, 0);
    }

    // Makes the pending decrement of a row that some slot holds, under that hold.
    pub(crate) fn count_down_held(&self, p: &mut MachineBoardPass<D>, row: u32)
        requires belongs { Belongs self.now.board p.old }
        requires countable { IsCountable (shows p.old).record_is }
        requires inc { (shows p.old).record_is.inc ≡ None }
        requires dec { (shows p.old).record_is.dec ≡ Some row }
        requires held { any_holds (shows p.old).record_is.slots row ≡ true }
        ensures belongs { Belongs self.now.board p.new }
        ensures becomes { Becomes (domain_bounds self.now) (record (shows p.old).record_is { dec = None }) (shows p.old) (shows p.new) }
    {
        let word = self.board.dec_held(p, row);
        self.try_due(p, due_by(row, word.wrapping_add(DECREMENT)));
    }

    // Counts the new target up, if a change of a link left one pending.
    #[inline(always)]
    fn count_new(&self, p: &mut MachineBoardPass<D>, up: Option<u32>)
        requires up { (shows p.old).record_is.inc ≡ up }
        requires belongs { Belongs self.now.board p.old }
        requires countable { IsCountable (shows p.old).record_is }
        ensures belongs { Belongs self.now.board p.new }
        ensures becomes { Becomes (domain_bounds self.now) (record (shows p.old).record_is { inc = None }) (shows p.old) (shows p.new) }
    {
        if let Some(row) = up {
            self.count_up(p, row);
        }
    }

    // Counts what a change of a link left pending: the new target up, and then the old one down.
    pub(crate) fn complete(&self, p: &mut MachineBoardPass<D>, up: Option<u32>, down: Option<u32>)
        requires up { (shows p.old).record_is.inc ≡ up }
        requires down { (shows p.old).record_is.dec ≡ down }
        requires belongs { Belongs self.now.board p.old }
        requires countable { IsCountable (shows p.old).record_is }
        ensures belongs { Belongs self.now.board p.new }
        ensures becomes { Becomes (domain_bounds self.now) (record (shows p.old).record_is { inc = None; dec = None }) (shows p.old) (shows p.new) }
    {
        self.count_new(p, up);
        if let Some(row) = down {
            self.count_down(p, row);
        }
    }

    // The same where some slot holds the old target.
    #[inline(always)]
    pub(crate) fn complete_held(
        &self,
        p: &mut MachineBoardPass<D>,
        up: Option<u32>,
        down: Option<u32>,
    )
        requires up { (shows p.old).record_is.inc ≡ up }
        requires down { (shows p.old).record_is.dec ≡ down }
        requires belongs { Belongs self.now.board p.old }
        requires countable { IsCountable (shows p.old).record_is }
        requires held { ForSome down (λ r. any_holds (shows p.old).record_is.slots r ≡ true) }
        ensures belongs { Belongs self.now.board p.new }
        ensures becomes { Becomes (domain_bounds self.now) (record (shows p.old).record_is { inc = None; dec = None }) (shows p.old) (shows p.new) }
    {
        self.count_new(p, up);
        if let Some(row) = down {
            self.count_down_held(p, row);
        }
    }
}
