ghost use Rattle.std.specs.Prelude.{◌≡◌, ◌↔◌, ℕ, ◌+◌, ◌-◌, ◌<◌, ◌≤◌, ◌==◌, if◌then◌else◌, [], ◌++◌, min, length, take, vec_len, vec_capacity, Some, IsTrue, IsOk, IfOk, OnOk, OnErr};
ghost use Rattle.std.specs.Option.{option_map};
ghost use Rattle.std.specs.List.{list_any};
ghost use Rattle.ports.specs.Counts.{Rose, count_after, greatest};
ghost use Rattle.ports.specs.Writing.{FailsToPut, Puts};

use crate::sink::{Failed, Sink};
use ev_types::Memory;
use std::alloc::Global;

/// A sink in memory, which holds at most `room` bytes. A put with too little room writes the bytes that fit, and fails.
/// A put allocates no memory. No count rises above 2^64 - 1.
#[derive(Drop)]
pub struct MemSink {
    /// All the bytes that it got.
    pub text: Vec<u8>,
    /// The numbers, from 0, of the puts that fail. They write nothing.
    pub failing: Vec<u64>,
    /// How many bytes it holds at most.
    pub room: u64,
    /// How many puts there were.
    pub calls: u64,
    /// How many of them failed.
    pub faults: u64,
    /// How many of them succeeded.
    pub puts: u64,
    ghost reserved: { room ≤ vec_capacity text },
}

impl MemSink {
    /// An empty sink, with memory for `room` bytes. The puts with the numbers in `failing`, from 0, fail.
    pub fn fresh(alloc: Global, room: u64, failing: Vec<u64>) -> Result<MemSink, Memory>
        ensures text { IfOk result (λ sink. sink.text.items ≡ []) }
        ensures failing { IfOk result (λ sink. sink.failing ≡ failing) }
        ensures room { IfOk result (λ sink. sink.room ≡ room) }
        ensures counts { IfOk result (λ sink. (sink.calls ≡ 0) × (sink.faults ≡ 0) ×
            (sink.puts ≡ 0)) }
    {
        let text = Vec::with_capacity(alloc, room as usize)?;
        Ok(MemSink {
            text,
            failing,
            room,
            calls: 0,
            faults: 0,
            puts: 0,
        })
    }

    /// The number of bytes that a put of `count` bytes takes.
    fn count_taken(&self, count: usize) -> usize
        ensures { result ≡ (if list_any (λ number.
            number == self.now.calls) self.now.failing.items then 0
            else min count (self.now.room - vec_len self.now.text)) }
    {
        if self.failing.contains(&self.calls) {
            return 0;
        }
        count.min((self.room as usize).saturating_sub(self.text.len()))
    }
}

impl Sink for MemSink {
    ghost use Rattle.ports.specs.MemSink.{mem_report, part_taken};

    ghost report = { λ sink. mem_report sink };

    fn put(&mut self, bytes: &[u8]) -> Result<(), Failed>
        requires { 0 < length bytes.now }
        ensures puts { OnOk result (Puts (mem_report self.old) bytes.now (mem_report self.new)) }
        ensures fails { OnErr result (FailsToPut (mem_report self.old) bytes.now
            (mem_report self.new)) }

        // More than a sink must report: exactly what was written and counted.
        ensures part { self.new.text.items ≡ self.old.text.items
            ++ part_taken self.old bytes.now }
        ensures succeeds { IsOk result ↔ (part_taken self.old bytes.now ≡ bytes.now) }
        ensures one_fault { OnErr result (self.new.faults ≡ count_after self.old.faults 1) }
        ensures calls { self.new.calls ≡ count_after self.old.calls 1 }
        ensures room { self.new.room ≡ self.old.room }
        ensures failing { self.new.failing ≡ self.old.failing }
    {
        let count = self.count_taken(bytes.len());
        append_reserved(&mut self.text, &bytes[..count]);
        self.calls = self.calls.saturating_add(1);
        if count < bytes.len() {
            self.faults = self.faults.saturating_add(1);
            return Err(Failed);
        }
        self.puts = self.puts.saturating_add(1);
        Ok(())
    }
}

/// Adds the bytes at the end, in the room that is there.
fn append_reserved(text: &mut Vec<u8>, bytes: &[u8])
    requires { vec_len text.old + length bytes.now ≤ vec_capacity text.old }
    ensures items { text.new.items ≡ text.old.items ++ bytes.now }
    ensures len { vec_len text.new ≡ vec_len text.old + length bytes.now }
    ensures capacity { vec_capacity text.old ≤ vec_capacity text.new }
{
    let result = text.extend_from_slice(bytes);
    prove!(result.is_ok());
}
