//! What a worker does with one line.

ghost use Rattle.std.specs.Prelude.{◌≡◌, ◌≢◌, ◌⊎◌, [], ◌∷◌, IfErr, IfOk, None};
ghost use Rattle.orc_cell.specs.{CellCalls.{IsUsable}, declared.refused.CellRefused.{CellRefused}};
ghost use Rattle.orc_pairs_rule.specs.declared.entry.CellEntry.{CellEntry};
ghost use Rattle.orc_watch_run.specs.{Follows.{AsksToPublish}, WatchCalls.{AnswersLine, CellCall, CellRefuses, KeepsAgent}};

use orc_board::TURNS;
use orc_cell::{Cell, CellRefused};
use orc_heap::Links;
use orc_pairs_rule::Pairs;
use orc_watch::{WatchLine, WatchWord};
use std::sync::Wait;

/// Publishes the parts that are given, at least one, and answers both as they are then. A call that answers Again is made
/// once more until it is answered.
///
/// # Errors
///
/// `NoNode` or `Spent`, as `Cell::publish` says.
pub fn publish_parts<R: Wait, L: Links<Rule = Pairs>>(
    rt: &R,
    cell: &Cell<L>,
    p: &mut L::Pass,
    left: Option<u64>,
    right: Option<u64>,
) -> Result<(u64, u64), CellRefused>
    requires usable { IsUsable L.Links cell.now.links p.old }
    requires given { (left ≢ None) ⊎ (right ≢ None) }
    ensures usable { IsUsable L.Links cell.now.links p.new }
    ensures agent { KeepsAgent L.Links cell.now.links p.old p.new }
    ensures published { IfOk result (λ now. CellCall L.Links cell.now.links p.old p.new
        (λ agent. CellEntry.Published agent left right now.0 now.1 ∷ [])) }
    ensures refused { IfErr result (λ e. CellRefuses L.Links cell.now.links p.old p.new e) }
    ensures answered { IfErr result (λ e. e ≢ CellRefused.Again) }
{
    for _ in rt.forever() {
        match cell.publish(p, left, right, TURNS) {
            Ok(now) => return Ok(now),
            Err(CellRefused::NoNode) => return Err(CellRefused::NoNode),
            Err(CellRefused::Spent(spent)) => return Err(CellRefused::Spent(spent)),
            Err(CellRefused::Again) => {}
        }
    }
    unreachable!()
}

/// Reads both parts of one version. A call that answers Again is made once more until it is answered.
pub fn read_parts<R: Wait, L: Links<Rule = Pairs>>(
    rt: &R,
    cell: &Cell<L>,
    p: &mut L::Pass,
) -> (u64, u64)
    requires usable { IsUsable L.Links cell.now.links p.old }
    ensures usable { IsUsable L.Links cell.now.links p.new }
    ensures agent { KeepsAgent L.Links cell.now.links p.old p.new }
    ensures seen { CellCall L.Links cell.now.links p.old p.new (λ agent. CellEntry.Seen agent result.0 result.1 ∷ []) }
{
    for _ in rt.forever() {
        match cell.read(p, TURNS) {
            Ok(now) => return now,
            Err(_) => {}
        }
    }
    unreachable!()
}

// Publishes, and tells what came of it.
fn publish_word<R: Wait, L: Links<Rule = Pairs>>(
    rt: &R,
    cell: &Cell<L>,
    p: &mut L::Pass,
    line: &WatchLine,
    left: Option<u64>,
    right: Option<u64>,
) -> WatchWord
    requires usable { IsUsable L.Links cell.now.links p.old }
    requires line { AsksToPublish line.now left right }
    ensures usable { IsUsable L.Links cell.now.links p.new }
    ensures agent { KeepsAgent L.Links cell.now.links p.old p.new }
    ensures answered { AnswersLine L.Links cell.now.links p.old p.new line.now result }
{
    let _ = line;
    match publish_parts(rt, cell, p, left, right) {
        Ok((left, right)) => WatchWord::Set(left, right),
        Err(CellRefused::Spent(_)) => WatchWord::Spent,
        Err(_) => WatchWord::NoNode,
    }
}

// Does what the line asks.
pub(crate) fn answer_line<R: Wait, L: Links<Rule = Pairs>>(
    rt: &R,
    cell: &Cell<L>,
    p: &mut L::Pass,
    line: &WatchLine,
) -> WatchWord
    requires usable { IsUsable L.Links cell.now.links p.old }
    ensures usable { IsUsable L.Links cell.now.links p.new }
    ensures agent { KeepsAgent L.Links cell.now.links p.old p.new }
    ensures answered { AnswersLine L.Links cell.now.links p.old p.new line.now result }
{
    match *line {
        WatchLine::Left(value) => publish_word(rt, cell, p, line, Some(u64::from(value)), None),
        WatchLine::Right(value) => publish_word(rt, cell, p, line, None, Some(u64::from(value))),
        WatchLine::Both(left, right) => {
            let (left, right) = (u64::from(left), u64::from(right));
            publish_word(rt, cell, p, line, Some(left), Some(right))
        }
        WatchLine::See => {
            let (left, right) = read_parts(rt, cell, p);
            WatchWord::Saw(left, right)
        }
    }
}
