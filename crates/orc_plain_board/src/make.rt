//! New boards.

ghost use Rattle.std.specs.Prelude.{◌≡◌, ◌<◌, [], All, IfOk, None, length};
ghost use Rattle.orc_words.specs.{Bounds.{bounds_of}, Places.{places}};
ghost use Rattle.orc_layout.specs.Layout.{index, lay, table_length};
ghost use Rattle.orc_shared_words.specs.Lists.{EachAt, EachFrom};
ghost use Rattle.orc_plain_board.specs.{Machine.{numbers, run}, Rules.{opening_steps}, Views.{Belongs, board_bounds, board_seed, shows}};
ghost use Rattle.orc_heap.specs.Seeds.{HasRoots, SeedAllowed, opening_events};

use crate::machine::{OUT, Plain};
use crate::pass::{PlainBoard, PlainBoardPass};
use crate::shape::PlainShape;
use orc_fault::NoMemory;
use orc_heap::{Discipline, Seed};
use orc_layout::{Layout, laid_words};
use orc_shared_words::{SharedPass, SharedWords, each_made};
use orc_words::{RowLink, Shape, Word, new_words, pack_link, place_of};
use std::alloc::Global;

impl<D: Discipline> PlainBoard<D> {
    /// A board, and one pass an agent, in order. Its journal begins with the seed's events, of agent 0.
    ///
    /// # Errors
    ///
    /// `NoMemory` where memory is refused.
    pub fn make(
        alloc: Global,
        shape: &Shape,
        seed: Seed<D::Note>,
    ) -> Result<(PlainBoard<D>, Vec<PlainBoardPass<D>>), NoMemory>
        requires holds { D.holds (numbers (bounds_of shape.now)) [] }
        requires seed { SeedAllowed D.may (numbers (bounds_of shape.now)) seed }
        ensures bounds { IfOk result (λ made. board_bounds made.0 ≡ bounds_of shape.now) }
        ensures seed { IfOk result (λ made. board_seed made.0 ≡ seed) }
        ensures passes { IfOk result (λ made. length made.1.items ≡ (bounds_of shape.now).agents) }
        ensures belongs { IfOk result (λ made. All (λ p. Belongs made.0 p) made.1.items) }
        ensures agents { IfOk result (λ made. EachAt (λ i p. (shows made.0 p).agent ≡ i) made.1.items) }
        ensures events { IfOk result (λ made. All (λ p. (shows made.0 p).events ≡ opening_events seed) made.1.items) }
        ensures fresh { IfOk result (λ made. All (λ p. (shows made.0 p).fresh ≡ None) made.1.items) }
        ensures absorbed { IfOk result (λ made. All (λ p. (shows made.0 p).absorbed ≡ []) made.1.items) }
    {
        let words = opening_words(alloc, shape, &seed)?;
        let owns = nothings(alloc, shape.agents())?;
        let plain = PlainShape {
            shape: *shape,
            seed,
            layout: Layout::new(shape),
        };
        let (words, passes) = SharedWords::<Plain, D>::make(alloc, plain, words.as_slice(), owns)?;
        let passes = plain_passes(alloc, passes)?;
        Ok((PlainBoard { words }, passes))
    }
}

// Makes the board's passes of these, with no fresh row.
fn plain_passes<D: Discipline>(
    alloc: Global,
    passes: Vec<SharedPass<Plain, D>>,
) -> Result<Vec<PlainBoardPass<D>>, NoMemory>
    ensures long { IfOk result (λ made. length made.items ≡ length passes.items) }
    ensures same { IfOk result (λ made. EachFrom (λ p. p.pass) made.items passes.items) }
    ensures fresh { IfOk result (λ made. All (λ p. p.fresh ≡ None) made.items) }
{
    each_made(
        alloc,
        passes,
        |pass| PlainBoardPass {
            pass,
            fresh: None,
            looked: None,
        },
    )
}

// Makes the words that the seed's steps leave, each at its index.
fn opening_words<N>(alloc: Global, shape: &Shape, seed: &Seed<N>) -> Result<Vec<u64>, NoMemory>
    requires roots { HasRoots (numbers (bounds_of shape.now)) seed.now }
    ensures words { IfOk result (λ words. words.items ≡ lay (index (bounds_of shape.now)) (run (bounds_of shape.now) (opening_steps seed.now)).words) }
    ensures long { IfOk result (λ words. length words.items ≡ table_length (bounds_of shape.now)) }
{
    let words = words_by_place(alloc, shape, seed)?;
    laid_words(alloc, shape, words.as_slice())
}

// Makes the words that the seed's steps leave, in the order of their places.
fn words_by_place<N>(alloc: Global, shape: &Shape, seed: &Seed<N>) -> Result<Vec<u64>, NoMemory>
    requires roots { HasRoots (numbers (bounds_of shape.now)) seed.now }
    ensures words { IfOk result (λ words. words.items ≡ (run (bounds_of shape.now) (opening_steps seed.now)).words) }
    ensures long { IfOk result (λ words. length words.items ≡ places (bounds_of shape.now)) }
{
    let mut words = new_words(alloc, shape)?;
    if let Seed::Dummy { first, begin: _ } = seed {
        let link = pack_link(RowLink {
            to: Some(0),
            mark: false,
        });
        words[place_of(shape, Word::Gate(0))] = OUT;
        words[place_of(shape, Word::First(0))] = 0;
        words[place_of(shape, Word::Second(0))] = *first;
        words[place_of(shape, Word::Root(0))] = link;
        words[place_of(shape, Word::Root(1))] = link;
    }
    Ok(words)
}

// Makes the records of so many agents, each of which is nothing.
fn nothings(alloc: Global, count: u32) -> Result<Vec<()>, NoMemory>
    ensures { IfOk result (λ owns. length owns.items ≡ count) }
{
    Ok(vec![in alloc; (); count as usize]?)
}
