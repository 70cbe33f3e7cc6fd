//! The search for a row that may be given, and what is done where there is none.

ghost use Rattle.std.specs.Prelude.{◌≡◌, ◌<◌, None, false, true, ℕ};
ghost use Rattle.std.specs.Option.{ForSome};
ghost use Rattle.orc_core.specs.RecordParts.{is_empty, slot_of};
ghost use Rattle.orc_machine_rest.specs.OwnSteps.{HasTakenIn};
ghost use Rattle.orc_any_domain.specs.Turns.{IsNext};
ghost use Rattle.orc_machine_board.specs.Views.{Belongs, shows};
ghost use Rattle.orc_domain.specs.{Passes.{domain_bounds}, Searches.{Fails, Found, Gets, Idles, TriesAll}, Seats.{IsCalm, IsBetweenCalls}};

use crate::domain::OrcDomain;
use orc_any_domain::around;
use orc_core::{CounterUse, SEQUENCE};
use orc_heap::Discipline;
use orc_machine_board::MachineBoardPass;

impl<D: Discipline> OrcDomain<D> {
    // Goes through all rows once, from this one on, until one is taken.
    pub(crate) fn search(&self, p: &mut MachineBoardPass<D>, begin: u32) -> Option<u32>
        requires belongs { Belongs self.now.board p.old }
        requires ready { IsBetweenCalls (shows p.old).record_is }
        requires no_other { (shows p.old).record_is.fresh ≡ None }
        requires begin { begin < (domain_bounds self.now).rows }
        ensures belongs { Belongs self.now.board p.new }
        ensures found { ForSome result (λ row. (row < (domain_bounds self.now).rows) × Gets (domain_bounds self.now) row (shows p.old) (shows p.new)) }
        ensures in_turn { ForSome result (λ row. IsNext (domain_bounds self.now).rows begin
            (Found (domain_bounds self.now) (shows p.old).agent (shows p.old).journal (shows p.new).journal) row) }
        ensures tried { result ≡ None → TriesAll (domain_bounds self.now) begin (shows p.old) (shows p.new) }
    {
        let rows = self.board.shape().rows();
        for offset in 0..rows {
            let row = around(begin + offset, rows);
            if self.try_take(p, row) {
                return Some(row);
            }
        }
        None
    }

    // Tries one row: it is taken if it is free, and neither its life nor its sequence is at the limit.
    pub(crate) fn try_take(&self, p: &mut MachineBoardPass<D>, row: u32) -> bool
        requires belongs { Belongs self.now.board p.old }
        requires ready { IsBetweenCalls (shows p.old).record_is }
        requires no_other { (shows p.old).record_is.fresh ≡ None }
        requires row { row < (domain_bounds self.now).rows }
        ensures belongs { Belongs self.now.board p.new }
        ensures lost { result ≡ false → Fails (domain_bounds self.now) row (shows p.old) (shows p.new) }
        ensures took { result ≡ true → Gets (domain_bounds self.now) row (shows p.old) (shows p.new) }
    {
        let limit = self.board.shape().limit();
        let gate = self.board.gate_look(p, row);
        if gate % 2 == 1 {
            return false;
        }
        if gate / 2 >= limit {
            return false;
        }
        let counter = self.board.counter_load(p, row, CounterUse::Check);
        if counter / SEQUENCE >= limit {
            return false;
        }
        let taken = self.board.gate_take(p, row);
        taken == 1
    }

    // Takes in what was handed over beside each empty slot.
    pub(crate) fn take_in_free(&self, p: &mut MachineBoardPass<D>)
        requires belongs { Belongs self.now.board p.old }
        requires calm { IsCalm (shows p.old).record_is }
        ensures belongs { Belongs self.now.board p.new }
        ensures idle { Idles (domain_bounds self.now) (shows p.old) (shows p.new) }
        ensures taken_in { (slot : ℕ) → slot < 8 → is_empty (slot_of (shows p.old).record_is slot) ≡ true
            → HasTakenIn (shows p.old).agent slot (shows p.old).journal (shows p.new).journal }
    {
        for slot in 0..8 {
            if p.kept().slot(slot).is_empty() {
                self.board.take_in(p, slot);
            }
        }
    }
}
