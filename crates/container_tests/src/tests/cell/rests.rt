//! Cells over any domain that are made, called and brought to rest, and what they tell.

ghost use Rattle.std.specs.Prelude.{◌≡◌, ◌+◌, ◌*◌, IfOk, length};
ghost use Rattle.container_tests.specs.CellPasses.{AreUsable};
ghost use Rattle.orc_words.specs.Bounds.{bounds_of};

use super::calls::{Answers, Around, one_publishes, two_publish};
use super::threads::{call_by_all, left_over};
use orc_cell::Cell;
use orc_containers::{Domain, RowCounts, cell_at_rest, cell_over};
use orc_fault::NoMemory;
use orc_pairs_rule::Pairs;
use orc_stress::PairLog;
use orc_words::Shape;
use std::alloc::Global;
use std::thread::Threads;

// A new cell, and one pass an agent, in order.
fn new_cell<L: Domain<Rule = Pairs>>(
    alloc: Global,
    shape: &Shape,
) -> Result<(Cell<L>, Vec<L::Pass>), NoMemory>
    requires two { (bounds_of shape.now).links ≡ 2 }
    requires roots { (bounds_of shape.now).roots ≡ 1 + 2 * (bounds_of shape.now).agents }
    ensures usable { IfOk result (λ made. AreUsable L.Links made.0.links made.1.items) }
    ensures many { IfOk result (λ made. length made.1.items ≡ (bounds_of shape.now).agents) }
    ensures all { IfOk result (λ made. L.agents made.0.links ≡ (bounds_of shape.now).agents) }
{
    cell_over(alloc, shape)
}

// The counts of the cell's domain at rest.
fn counts_at_rest<L: Domain<Rule = Pairs>>(cell: Cell<L>, passes: Vec<L::Pass>) -> RowCounts
    requires usable { AreUsable L.Links cell.links passes.items }
    requires all { length passes.items ≡ L.agents cell.links }
{
    let rest = cell_at_rest(cell, passes);
    L::counts(&rest)
}

// What the one agent of a cell of so many rows was answered, and the counts at rest.
fn by_one<L: Domain<Rule = Pairs> + Drop>(
    alloc: Global,
    rows: u32,
) -> Option<(Answers, RowCounts)> {
    let Ok(shape) = Shape::with_links(rows, 3, 1, 64, 2) else {
        return None;
    };
    let Ok((cell, passes)) = new_cell::<L>(alloc, &shape) else {
        return None;
    };
    let (answers, passes) = one_publishes(&cell, passes)?;
    Some((answers, counts_at_rest(cell, passes)))
}

// What two agents were answered around a part that one of them had staged, and the counts at rest.
fn by_two<L: Domain<Rule = Pairs> + Drop>(alloc: Global, rows: u32) -> Option<(Around, RowCounts)> {
    let Ok(shape) = Shape::with_links(rows, 5, 2, 64, 2) else {
        return None;
    };
    let Ok((cell, passes)) = new_cell::<L>(alloc, &shape) else {
        return None;
    };
    let (answers, passes) = two_publish(&cell, passes)?;
    Some((answers, counts_at_rest(cell, passes)))
}

/// What six agents at once did: how many answers they noted, whether each pair that was read or is left was published, and the counts
/// at rest.
#[derive(Drop)]
pub struct Crowd {
    pub noted: u64,
    pub all_published: bool,
    pub left: Option<(u64, u64)>,
    pub may_be_left: bool,
    pub counts: RowCounts,
}

// Lets six agents make so many calls each: four publish, and two read, who may read no parts while none are published.
fn by_six<R: Threads + Sync, L: Domain<Rule = Pairs> + Sync + Drop>(
    rt: &R,
    alloc: Global,
    rows: u32,
    calls: u32,
) -> Option<Crowd>
where
    L::Pass: Send,
{
    let Ok(shape) = Shape::with_links(rows, 13, 6, 1 << 39, 2) else {
        return None;
    };
    let Ok((cell, mut passes)) = new_cell::<L>(alloc, &shape) else {
        return None;
    };
    let log = PairLog::new(alloc, 6, calls).ok()?;
    call_by_all(rt, &cell, passes.as_mut_slice(), calls, &log);
    let left = left_over(&cell, &mut passes);
    let noted = log.noted();
    let all_published = log.all_published();
    let may_be_left = left.is_some_and(|pair| log.may_be_left(pair));
    Some(Crowd {
        noted,
        all_published,
        left,
        may_be_left,
        counts: counts_at_rest(cell, passes),
    })
}

/// How many rows a cell has for one agent, for two and for six, and how many calls each of the six makes.
#[derive(Clone, Copy)]
pub struct Sizes {
    pub for_one: u32,
    pub for_two: u32,
    pub for_six: u32,
    pub calls: u32,
}

/// What is told over a domain: by one agent, by two, and by six.
#[derive(Drop)]
pub struct Told {
    pub one: Option<(Answers, RowCounts)>,
    pub two: Option<(Around, RowCounts)>,
    pub six: Option<Crowd>,
}

/// Lets one agent, two and six call a cell of these sizes.
pub fn told_over<R: Threads + Sync, L: Domain<Rule = Pairs> + Sync + Drop>(
    rt: &R,
    alloc: Global,
    sizes: Sizes,
) -> Told
where
    L::Pass: Send,
{
    Told {
        one: by_one::<L>(alloc, sizes.for_one),
        two: by_two::<L>(alloc, sizes.for_two),
        six: by_six::<R, L>(rt, alloc, sizes.for_six, sizes.calls),
    }
}
