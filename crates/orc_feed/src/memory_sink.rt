ghost use Rattle.std.specs.Prelude.{Contains, IfOk, IsErr, ◌≡◌, ◌-◌, ◌^◌, ◌<◌, ◌≤◌, ◌↔◌, [], length, Some};
ghost use Rattle.std.specs.Io.{WritesAtMost};
ghost use Rattle.std.specs.Io.KnownBytes.{WriteAppends};
ghost use Rattle.orc_feed.specs.{Faults.{CountsWriteFaults}, InMemory.{moved_count, new_plan, next_plan}};

use crate::Sink;
use crate::plan::Plan;
use orc_fault::{Failed, NoMemory};
use std::alloc::Global;
use std::marker::Model;

/// Room in memory that is written in pieces, with faults at given calls.
#[derive(Drop)]
pub struct MemorySink {
    bytes: Vec<u8>,
    at: usize,
    plan: Plan,
    faults: u64,
}

impl Model for MemorySink {
    ghost use Rattle.std.specs.Prelude.{◌≤◌, length, take};
    ghost use Rattle.orc_feed.specs.InMemory.{InSink};

    ghost Value = { InSink };

    ghost view = { λ s. record { written = take s.at s.bytes.items; room = length s.bytes.items; plan = s.plan; faults = s.faults } };

    ghost invariant = { λ s. s.at ≤ length s.bytes.items };
}

impl MemorySink {
    /// A sink with room for so many bytes, which it takes at once. A call moves `piece` bytes at
    /// most; calls are numbered from 0, and those in `fails` fail.
    pub fn new(alloc: Global, room: u64, piece: u64, fails: &[u64]) -> Result<MemorySink, NoMemory>
        requires { 1 ≤ piece }
        ensures { IfOk result (λ sink. sink
            ≡ record { written = []; room = room; plan = new_plan piece fails.now; faults = 0 }) }
    {
        let plan = Plan::new(alloc, piece, fails)?;
        let bytes = vec![in alloc; 0u8; room as usize]?;
        Ok(MemorySink {
            bytes,
            at: 0,
            plan,
            faults: 0,
        })
    }

    /// The bytes that were written.
    pub fn bytes(&self) -> &[u8]
        ensures { result.now ≡ self.now.written }
    {
        &self.bytes[..self.at]
    }
}

impl Sink for MemorySink {
    ghost written = { λ s. Some s.written };

    ghost faults = { λ s. s.faults };

    fn write(&mut self, from: &[u8]) -> Result<usize, Failed>
        ensures bound { WritesAtMost result from.now }
        ensures bytes { WriteAppends (Some self.old.written) (Some self.new.written) result from.now }
        ensures counted { CountsWriteFaults from.now self.old.faults self.new.faults result }
        ensures limit { self.new.faults < 2 ^ 64 }

        // Just the planned calls fail, and each other call moves as much as it may.
        ensures failing { IsErr result ↔ Contains self.old.plan.fails self.old.plan.call }
        ensures count { IfOk result (λ n. n ≡ moved_count self.old.plan (length from.now)
            (self.old.room - length self.old.written)) }
        ensures plan { self.new.plan ≡ next_plan self.old.plan }
        ensures room { self.new.room ≡ self.old.room }
    {
        let faults = self.faults;
        if self.plan.call_fails() {
            self.faults = faults.saturating_add(1);
            return Err(Failed);
        }
        let at = self.at;
        let count = self.plan.count(from.len(), self.bytes.len() - at);
        self.bytes[at..at + count].copy_from_slice(&from[..count]);
        self.at = at + count;
        if count == 0 && !from.is_empty() {
            self.faults = faults.saturating_add(1);
        }
        Ok(count)
    }
}
