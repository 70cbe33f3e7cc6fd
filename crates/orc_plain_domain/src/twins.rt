//! A small discipline for tests of domains whose nodes have two links.

ghost use Rattle.orc_plain_domain.specs.{
  Twins.{TwinsHold, TwinsMay},
  Laws.Twins.{twins_allow_plain, twins_fit, twins_keep, twins_move_linked},
};

use orc_heap::Discipline;

/// Allows what fits and has no note, of the Moves only those of roots. So the links of a once linked node, the first and
/// the second alike, never change.
pub struct Twins;

impl Discipline for Twins {
    type Note = ();

    ghost holds = { TwinsHold };

    ghost may = { TwinsMay };

    ghost keeps = { twins_keep };

    ghost fits = { twins_fit };

    ghost allows_plain = { twins_allow_plain };

    ghost moves_linked = { twins_move_linked };
}
