//! The work of one worker.

ghost use Rattle.std.specs.Prelude.{◌≡◌, ◌+◌, ◌≤◌, [], length, map};
ghost use Rattle.orc_board.specs.Follows.{own_records};
ghost use Rattle.orc_watch_run.specs.{Passes.{IsUsablePassOf}, WatchCalls.{Watches}};

use crate::answer::answer_line;
use orc_board::Gate;
use orc_cell::Cell;
use orc_heap::Links;
use orc_pairs_rule::Pairs;
use orc_watch::{WatchLines, WatchList, WatchReply};
use std::sync::Wait;

/// Works through the records of a worker in file order: record i belongs to worker 1 + (i mod `workers`).
pub fn watch_lines<R: Wait, L: Links<Rule = Pairs>, G: Gate>(
    rt: &R,
    cell: &Cell<L>,
    pass: &mut L::Pass,
    worker: u32,
    workers: u32,
    lines: &WatchLines,
    gate: &G,
    replies: &mut WatchList,
)
    requires pass { IsUsablePassOf L.Links cell.now.links worker pass.old }
    requires few { length lines.now ≤ 65535 }
    requires worker { (1 ≤ worker) × (worker ≤ workers) }
    requires none { replies.old.items ≡ [] }
    requires room { length (own_records workers worker (length lines.now)) ≤ replies.old.spare }
    ensures pass { IsUsablePassOf L.Links cell.now.links worker pass.new }
    ensures watched { Watches L.Links cell.now.links pass.old pass.new lines.now worker replies.new.items }
    ensures in_file_order { map (λ r. r.line) replies.new.items ≡ own_records workers worker (length lines.now) }
    ensures spare { length replies.new.items + replies.new.spare ≡ replies.old.spare }
{
    for index in 0..lines.len() {
        if index as u32 % workers == worker - 1 {
            gate.before(worker, replies.len() as u64);
            replies.push(WatchReply {
                worker,
                line: index as u32,
                what: answer_line(rt, cell, pass, lines.get(index)),
            });
        }
    }
}
