//! The machine of twenty kinds over shared words.

ghost use Rattle.std.specs.Prelude.{◌≡◌};
ghost use Rattle.orc_layout.specs.Layout.{layout_of};
ghost use Rattle.orc_words.specs.Bounds.{bounds_of};

use crate::kept::keep_parts;
use orc_core::{Agent, Op, action_of};
use orc_heap::Seed;
use orc_layout::Layout;
use orc_shared_words::{Machine, PlacedOperation};
use orc_sound::Step;
use orc_words::{RowLink, Shape};
use std::alloc::AllocError;

/// The sizes of a board, what it begins with, and where its words lie.
pub struct MachineShape<N> {
    pub shape: Shape,
    pub seed: Seed<N>,
    pub layout: Layout,
    pub ghost laid: { layout ≡ layout_of (bounds_of shape) },
}

impl<N: Copy> Clone for MachineShape<N> {
    ghost use Rattle.std.specs.Prelude.{◌≡◌, ⊤};

    ghost is_clone = { λ x y. y ≡ x };

    ghost is_infallible = { λ _. ⊤ };

    fn clone(&self) -> Result<MachineShape<N>, AllocError> {
        Ok(*self)
    }
}

impl<N: Copy> Copy for MachineShape<N> {}

/// An op, and the link that its caller wants a load to find.
#[derive(Clone, Copy)]
pub struct Request {
    pub op: Op,
    pub want: Option<RowLink>,
}

/// Rows that are counted, retired, scanned for and freed, over shared words. No value of it is made.
pub struct Reclaiming;

impl<N: Copy> Machine<N> for Reclaiming {
    ghost use Rattle.orc_machine_board.specs.{
      Kept.{kept_of},
      Rules.{ListHasRoom, counted_rules, heap_numbers},
      Laws.{Kept.{kept_once}, Steps.{counted_leaves_room, counted_obeys}},
    };

    type Shape = MachineShape<N>;

    type Op = Request;

    type Step = Step<N>;

    type Record = Agent;

    type Own = Agent;

    ghost tied = { λ d own. kept_of d ≡ kept_of own };

    ghost one_tie = { kept_once };

    ghost has_room = { λ k op own found. ListHasRoom op own found };

    ghost numbers = { heap_numbers };

    ghost rules = { counted_rules };

    ghost obeys = { counted_obeys };

    ghost leaves_room = { counted_leaves_room };

    #[inline(always)]
    fn operation(
        shape: &MachineShape<N>,
        agent: u32,
        op: &Request,
        own: &Agent,
    ) -> PlacedOperation {
        let action = action_of(agent, &op.op, own);
        PlacedOperation {
            index: shape.layout.word_index(&shape.shape, action.word),
            operation: action.operation,
        }
    }

    #[inline(always)]
    fn keep(shape: &MachineShape<N>, agent: u32, op: &Request, own: &mut Agent, n: u64) {
        keep_parts(own, &op.op, n);
    }
}
