//! The fixed numbers of a board.

ghost use Rattle.std.specs.Prelude.{◌≡◌};
ghost use Rattle.orc_layout.specs.Layout.{layout_of};
ghost use Rattle.orc_words.specs.Bounds.{bounds_of};

use orc_heap::Seed;
use orc_layout::Layout;
use orc_words::Shape;
use std::alloc::AllocError;

/// The sizes of a board, what it begins with, and where its words lie.
pub struct PlainShape<N> {
    pub shape: Shape,
    pub seed: Seed<N>,
    pub layout: Layout,
    pub ghost laid: { layout ≡ layout_of (bounds_of shape) },
}

impl<N: Copy> Clone for PlainShape<N> {
    ghost use Rattle.std.specs.Prelude.{◌≡◌, ⊤};

    ghost is_clone = { λ x y. y ≡ x };

    ghost is_infallible = { λ _. ⊤ };

    fn clone(&self) -> Result<PlainShape<N>, AllocError> {
        Ok(*self)
    }
}

impl<N: Copy> Copy for PlainShape<N> {}
