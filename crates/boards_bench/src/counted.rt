//! Loads of a root's link through a board of counted rows, again and again, on one thread.

ghost use Rattle.orc_machine_board.specs.Passes.{HasNothing};
ghost use Rattle.orc_machine_board.specs.Views.{Belongs, shows};

use crate::loads::compare;
use orc_heap::{AnyFit, Seed};
use orc_machine_board::{MachineBoard, MachineBoardPass};
use orc_words::{Shape, Word};
use std::alloc::Global;
use std::io;
use std::io::{Eprint, Print};
use std::time::{Clock, Instant};

// How many loads are timed.
const LOADS: u32 = 20_000_000;

type Board = MachineBoard<AnyFit>;

type Pass = MachineBoardPass<AnyFit>;

// Reads root 0.
#[inline(always)]
fn load_link(board: &Board, p: &mut Pass) -> u64
    requires belongs { Belongs board.now p.old }
    requires idle { HasNothing (shows p.old).record_is }
    ensures belongs { Belongs board.now p.new }
    ensures idle { HasNothing (shows p.new).record_is }
{
    board.link_load(p, Word::Root(0), None, None, None)
}

// Sums what so many loads of root 0 find.
#[inline(never)]
fn load_links(board: &Board, p: &mut Pass) -> u64
    requires belongs { Belongs board.now p.old }
    requires idle { HasNothing (shows p.old).record_is }
    ensures belongs { Belongs board.now p.new }
{
    let mut sum: u64 = 0;
    for _load in 0..LOADS {
        sum = sum.wrapping_add(load_link(board, p));
    }
    sum
}

// Times the loads through the board, and then those of a bare word.
fn time_loads<R: Clock + Print + Eprint>(rt: &R, board: &Board, p: &mut Pass) -> io::Result<()>
    requires belongs { Belongs board.now p.old }
    requires idle { HasNothing (shows p.old).record_is }
{
    let start = Instant::now(rt)?;
    let links = load_links(board, p);
    let through = start.elapsed(rt)?.as_micros();
    compare(rt, LOADS, links, through)
}

// Times the loads through a new board.
pub(crate) fn time<R: Clock + Print + Eprint>(rt: &R, alloc: Global) -> io::Result<()> {
    let Ok(shape) = Shape::new(2, 1, 1, 8) else {
        return println!(rt; "no shape");
    };
    let Ok((board, mut passes)) = Board::make(alloc, &shape, Seed::Empty) else {
        return println!(rt; "no memory");
    };
    let Some(mut pass) = passes.pop() else {
        return println!(rt; "no pass");
    };
    time_loads(rt, &board, &mut pass)
}
