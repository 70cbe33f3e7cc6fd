ghost use Rattle.std.specs.Prelude.{Contains, IfOk, IsErr, ◌≡◌, ◌^◌, ◌<◌, ◌≤◌, ◌↔◌, length, Some};
ghost use Rattle.std.specs.Io.{ReadsAtMost};
ghost use Rattle.std.specs.Io.KnownBytes.{ReadConsumes};
ghost use Rattle.orc_feed.specs.{Faults.{CountsFaults}, InMemory.{moved_count, new_plan, next_plan}};

use crate::Source;
use crate::plan::Plan;
use orc_fault::{Failed, NoMemory};
use std::alloc::Global;
use std::marker::Model;

/// Bytes in memory that are read in pieces, with faults at given calls.
#[derive(Drop)]
pub struct MemorySource {
    bytes: Vec<u8>,
    at: usize,
    plan: Plan,
    faults: u64,
}

impl Model for MemorySource {
    ghost use Rattle.std.specs.Prelude.{◌≤◌, drop, length};
    ghost use Rattle.orc_feed.specs.InMemory.{InSource};

    ghost Value = { InSource };

    ghost view = { λ s. record { left = drop s.at s.bytes.items; plan = s.plan; faults = s.faults } };

    ghost invariant = { λ s. s.at ≤ length s.bytes.items };
}

impl MemorySource {
    /// A source of these bytes. A call moves `piece` of them at most; calls are numbered from 0, and
    /// those in `fails` fail.
    pub fn new(
        alloc: Global,
        bytes: &[u8],
        piece: u64,
        fails: &[u64],
    ) -> Result<MemorySource, NoMemory>
        requires { 1 ≤ piece }
        ensures { IfOk result (λ source. source
            ≡ record { left = bytes.now; plan = new_plan piece fails.now; faults = 0 }) }
    {
        let plan = Plan::new(alloc, piece, fails)?;
        let bytes = Vec::from_slice(alloc, bytes)?;
        Ok(MemorySource {
            bytes,
            at: 0,
            plan,
            faults: 0,
        })
    }
}

impl Source for MemorySource {
    ghost left = { λ s. Some s.left };

    ghost faults = { λ s. s.faults };

    fn read(&mut self, to: &mut [u8]) -> Result<usize, Failed>
        ensures bound { ReadsAtMost result to.new }
        ensures bytes { ReadConsumes (Some self.old.left) (Some self.new.left) result to.new }
        ensures counted { CountsFaults self.old.faults self.new.faults result }
        ensures limit { self.new.faults < 2 ^ 64 }

        // Just the planned calls fail, and each other call moves as much as it may.
        ensures failing { IsErr result ↔ Contains self.old.plan.fails self.old.plan.call }
        ensures count { IfOk result (λ n. n
            ≡ moved_count self.old.plan (length to.new) (length self.old.left)) }
        ensures plan { self.new.plan ≡ next_plan self.old.plan }
    {
        let faults = self.faults;
        if self.plan.call_fails() {
            self.faults = faults.saturating_add(1);
            return Err(Failed);
        }
        let at = self.at;
        let count = self.plan.count(to.len(), self.bytes.len() - at);
        to[..count].copy_from_slice(&self.bytes[at..at + count]);
        self.at = at + count;
        Ok(count)
    }
}
