//! The parts of which the calls are made.

ghost use Rattle.std.specs.Prelude.{◌≡◌, None, Some, false, true};
ghost use Rattle.orc_core.specs.{RecordParts.{names}, declared.ops.Op.{Op}};
ghost use Rattle.orc_machine_board.specs.{Kinds.{MakesPlain, MayDo}, Views.{Belongs, shows}};
ghost use Rattle.orc_any_domain.specs.Names.{word_at};
ghost use Rattle.orc_words.specs.Packed.{link_of, link_word};
ghost use Rattle.orc_domain.specs.{
  Calls.{Retires, Unlocks},
  Passes.{IsFreshUntouched, domain_bounds, domain_numbers},
  Protections.{MayProtect, Protects, ReadsAgain, word_by},
  Seats.{IsCalm, IsBetweenCalls, seat_by},
};

use crate::domain::OrcDomain;
use orc_core::{CounterUse, SEQUENCE};
use orc_heap::{At, Discipline};
use orc_machine_board::MachineBoardPass;
use orc_words::{RowLink, Word, pack_link, read_link};

// The two numbers by which a place is told: its kind, and its root or its row.
#[inline(always)]
pub(crate) fn numbers_of(place: &At) -> (u32, u32)
    ensures { word_by result.0 result.1 ≡ word_at place.now }
{
    match *place {
        At::Root(root) => (0, root),
        At::Node(h) => (1, h.row()),
        At::Side(h) => (2, h.row()),
    }
}

// The link word of a place by its two numbers.
fn word_by(kind: u32, number: u32) -> Word
    ensures { result ≡ word_by kind number }
{
    match kind {
        0 => Word::Root(number),
        1 => Word::Next(number),
        _ => Word::Side(number),
    }
}

impl<D: Discipline> OrcDomain<D> {
    // Reads a link.
    // A load is small once it is compiled. With `always`, a look would count as very large before that, and lose its own mark.
    #[inline]
    pub(crate) fn load(&self, p: &mut MachineBoardPass<D>, at: Word) -> RowLink
        requires belongs { Belongs self.now.board p.old }
        requires allowed { MayDo (domain_bounds self.now) (shows p.old) (Op.LinkLoad at None) }
        ensures belongs { Belongs self.now.board p.new }
        ensures made { MakesPlain (domain_bounds self.now) (Op.LinkLoad at None) (shows p.old) (link_word result) (shows p.new) }
        ensures link { link_of (link_word result) ≡ result }
    {
        let word = self.board.link_load(p, at, None, None, None);
        let Some(link) = read_link(word) else {
            unreachable!()
        };
        link
    }

    // Reads a link again, with the slot in which its target was published. True where it is the link that was read before, so
    // that the slot holds the target. It compares the words of both links, and unpacks none.
    #[inline]
    pub(crate) fn read_again(
        &self,
        p: &mut MachineBoardPass<D>,
        at: Word,
        slot: u32,
        one: RowLink,
    ) -> bool
        requires belongs { Belongs self.now.board p.old }
        requires allowed { MayDo (domain_bounds self.now) (shows p.old) (Op.LinkLoad at (Some slot)) }
        requires known { link_of (link_word one) ≡ one }
        ensures belongs { Belongs self.now.board p.new }
        ensures again { ReadsAgain self.now.board at slot one result p.old p.new }
    {
        let word = self.board.link_load(p, at, Some(slot), None, None);
        word == pack_link(one)
    }

    // Clears a slot, and takes in what was handed over beside it.
    pub(crate) fn unlock(&self, p: &mut MachineBoardPass<D>, slot: u32)
        requires belongs { Belongs self.now.board p.old }
        requires calm { IsCalm (shows p.old).record_is }
        requires allowed { MayDo (domain_bounds self.now) (shows p.old) (Op.Clear slot) }
        ensures belongs { Belongs self.now.board p.new }
        ensures unlocks { Unlocks (domain_bounds self.now) slot (shows p.old) (shows p.new) }
    {
        self.board.clear(p, slot);
        self.board.take_in(p, slot);
    }

    // Clears a slot whose link moved before it was held, and takes in what was handed over beside it. It is seldom run, and
    // stands apart so that a look can stand in line.
    #[cold]
    #[inline(never)]
    pub(crate) fn unlock_moved(&self, p: &mut MachineBoardPass<D>, slot: u32)
        requires belongs { Belongs self.now.board p.old }
        requires calm { IsCalm (shows p.old).record_is }
        requires allowed { MayDo (domain_bounds self.now) (shows p.old) (Op.Clear slot) }
        ensures belongs { Belongs self.now.board p.new }
        ensures unlocks { Unlocks (domain_bounds self.now) slot (shows p.old) (shows p.new) }
    {
        self.unlock(p, slot);
    }

    // Publishes the target of a link that was read in this slot, and reads the link again. True where it is the same, so that
    // the slot holds the target. Where the link moved, the slot is cleared, and what was handed over beside it is taken in.
    #[inline(always)]
    pub(crate) fn protect(
        &self,
        p: &mut MachineBoardPass<D>,
        at: Word,
        slot: u32,
        row: u32,
        one: RowLink,
    ) -> bool
        requires belongs { Belongs self.now.board p.old }
        requires allowed { MayProtect self.now.board at slot row p.old }
        requires known { link_of (link_word one) ≡ one }
        ensures belongs { Belongs self.now.board p.new }
        ensures protects { Protects self.now.board at slot row one result p.old p.new }
    {
        self.board.publish(p, slot, row);
        let same = self.read_again(p, at, slot, one);
        if same {
            return true;
        }
        self.unlock_moved(p, slot);
        false
    }

    // The same for a marked link, which a search seldom meets: it stands apart so that a look by which a hold moves on can
    // stand in line. It takes the link's word by numbers, so that the look can keep the word that it has in registers.
    #[cold]
    #[inline(never)]
    pub(crate) fn protect_marked(
        &self,
        p: &mut MachineBoardPass<D>,
        kind: u32,
        number: u32,
        slot: u32,
        row: u32,
    ) -> bool
        requires belongs { Belongs self.now.board p.old }
        requires allowed { MayProtect self.now.board (word_by kind number) slot row p.old }
        requires known { link_of (link_word (record { to = Some row; mark = true })) ≡ record { to = Some row; mark = true } }
        ensures belongs { Belongs self.now.board p.new }
        ensures protects { Protects self.now.board (word_by kind number) slot row (record { to = Some row; mark = true }) result p.old p.new }
    {
        let at = word_by(kind, number);
        let one = RowLink {
            to: Some(row),
            mark: true,
        };
        self.protect(p, at, slot, row, one)
    }

    // Retires the row, if it is the fresh one. Its bit is set at the first try, since nobody else counts it.
    pub(crate) fn give_up(&self, p: &mut MachineBoardPass<D>, row: u32)
        requires belongs { Belongs self.now.board p.old }
        requires ready { IsBetweenCalls (shows p.old).record_is }
        requires untouched { IsFreshUntouched (domain_numbers self.now) (seat_by (domain_bounds self.now) (shows p.old)) }
        ensures belongs { Belongs self.now.board p.new }
        ensures retired { names (shows p.old).record_is.fresh row ≡ true → Retires (domain_bounds self.now) row (shows p.old) (shows p.new) }
        ensures kept { names (shows p.old).record_is.fresh row ≡ false → p.new ≡ p.old }
    {
        if !p.kept().is_fresh(row) {
            return;
        }
        let counter = self.board.counter_load(p, row, CounterUse::Check);
        self.board.set_retired(p, row, counter / SEQUENCE);
    }
}
