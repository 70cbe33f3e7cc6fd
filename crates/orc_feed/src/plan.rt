ghost use Rattle.std.specs.Prelude.{Contains, IfOk, IsTrue, ◌≡◌, ◌<◌, ◌≤◌, ◌↔◌};
ghost use Rattle.orc_feed.specs.InMemory.{moved_count, new_plan, next_plan};

use orc_fault::NoMemory;
use std::alloc::Global;
use std::marker::Model;

/// Which calls of a stream in memory fail, and how many bytes the others move at most.
#[derive(Drop)]
pub struct Plan {
    piece: u64,
    fails: Vec<u64>,
    call: u64,
}

impl Model for Plan {
    ghost use Rattle.std.specs.Prelude.{◌≤◌};
    ghost use Rattle.orc_feed.specs.InMemory as in_memory;

    ghost Value = { in_memory.Plan };

    ghost view = { λ p. record { piece = p.piece; fails = p.fails.items; call = p.call } };

    ghost invariant = { λ p. 1 ≤ p.piece };
}

impl Plan {
    /// Calls move at most `piece` bytes; they are numbered from 0, and those in `fails` fail.
    pub fn new(alloc: Global, piece: u64, fails: &[u64]) -> Result<Plan, NoMemory>
        requires { 1 ≤ piece }
        ensures { IfOk result (λ plan. plan ≡ new_plan piece fails.now) }
    {
        let fails = Vec::from_slice(alloc, fails)?;
        Ok(Plan {
            piece,
            fails,
            call: 0,
        })
    }

    /// Counts a call, and says whether it is one of those that fail.
    pub fn call_fails(&mut self) -> bool
        ensures fails { IsTrue result ↔ Contains self.old.fails self.old.call }
        ensures next { self.new ≡ next_plan self.old }
    {
        let call = self.call;
        self.call = call.saturating_add(1);
        self.fails.contains(&call)
    }

    /// How many bytes a call moves, of `wanted` ones where so many are `there`.
    pub fn count(&self, wanted: usize, there: usize) -> usize
        ensures count { result ≡ moved_count self.now wanted there }
        ensures some { result ≡ 0 → 0 < wanted → there ≡ 0 }
    {
        let most = wanted.min(there);
        if self.piece < most as u64 {
            self.piece as usize
        } else {
            most
        }
    }
}
