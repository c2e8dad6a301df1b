//! Ends in memory, for tests and for programs that keep what they serve.
//!
//! Each call of one has a number, from 0. Calls that are listed fail, and a failure takes and gives nothing.
ghost use Rattle.std.specs.Prelude.{◌≡◌, ◌+◌, ◌^◌, ◌-◌, ◌<◌, ◌↔◌, min, [], length, take, Contains, IsTrue, IsOk, IfOk, Some, None};
ghost use Rattle.line_session.specs.Ends.{HandsOut, Accepts, Counts};
ghost use Rattle.line_session.specs.Memory.{HandsOutSteps, ReadsByScript, TakesByScript};

use crate::{Ends, Gave, Sink, SinkFailed, Source, Took};
use std::alloc::{AllocError, Global};
use std::marker::Model;

/// Hands out bytes, at most `step` of them at a time, and never fails.
#[derive(Debug, Drop)]
pub struct SureSource {
    bytes: Vec<u8>,
    next: usize,
    step: usize,
}

impl Model for SureSource {
    ghost use Rattle.std.specs.Prelude.{◌≤◌, length, drop};
    ghost use Rattle.line_session.specs.Memory.{Supply};

    ghost Value = { Supply };

    ghost view = { λ s. record { left = drop s.next s.bytes.items; step = s.step } };

    ghost invariant = { λ s. record { within : s.next ≤ length s.bytes.items; some : 1 ≤ s.step } };
}

impl SureSource {
    /// A source of a copy of these bytes. A step is at least one byte.
    pub fn new(alloc: Global, bytes: &[u8], step: usize) -> Result<Self, AllocError>
        requires { 0 < step }
        ensures { IfOk result (λ s. s ≡ record { left = bytes.now; step = step }) }
    {
        Ok(SureSource {
            bytes: Vec::from_slice(alloc, bytes)?,
            next: 0,
            step,
        })
    }
}

impl Ends for SureSource {
    ghost use Rattle.std.specs.Prelude.{Some, None};

    ghost state = { λ s. record {
      left = Some s.left;
      read_faults = 0;
      written = None;
      held = 0;
      write_faults = 0;
    } };
}

impl Source for SureSource {
    fn read(&mut self, into: &mut [u8]) -> Took
        requires { 0 < length into.old }
        ensures steps { HandsOutSteps self.old result (length into.old) self.new }
        ensures bytes { HandsOut result into.new (Some self.old.left) (Some self.new.left) }
        ensures faults { Counts (result ≡ Took.Failed) 0 0 }
    {
        let (_, rest) = self.bytes.split_at(self.next);
        if rest.is_empty() {
            return Took::End;
        }
        let count = copy_front(rest, into, self.step);
        self.next += count;
        Took::Bytes(count)
    }

    fn faults(&self) -> u64 {
        0
    }
}

/// Hands out bytes, at most `step` of them at a time, and fails at the calls that are listed.
#[derive(Debug, Drop)]
pub struct BytesSource {
    supply: SureSource,
    fails: Vec<u64>,
    calls: u64,
    faults: u64,
}

impl Model for BytesSource {
    ghost use Rattle.line_session.specs.Memory.{Script};

    ghost Value = { Script };

    ghost view = { λ s. record {
      supply = s.supply;
      fails = s.fails.items;
      calls = s.calls;
      faults = s.faults;
    } };
}

impl BytesSource {
    /// A source of a copy of these bytes. A step is at least one byte.
    pub fn new(alloc: Global, bytes: &[u8], step: usize, fails: &[u64]) -> Result<Self, AllocError>
        requires { 0 < step }
        ensures supply { IfOk result (λ s. s.supply ≡ record { left = bytes.now; step = step }) }
        ensures fails { IfOk result (λ s. s.fails ≡ fails.now) }
        ensures fresh { IfOk result (λ s. (s.calls ≡ 0) × (s.faults ≡ 0)) }
    {
        Ok(BytesSource {
            supply: SureSource::new(alloc, bytes, step)?,
            fails: Vec::from_slice(alloc, fails)?,
            calls: 0,
            faults: 0,
        })
    }
}

impl Ends for BytesSource {
    ghost use Rattle.std.specs.Prelude.{Some, None};

    ghost state = { λ s. record {
      left = Some s.supply.left;
      read_faults = s.faults;
      written = None;
      held = 0;
      write_faults = 0;
    } };
}

impl Source for BytesSource {
    fn read(&mut self, into: &mut [u8]) -> Took
        requires { 0 < length into.old }
        ensures script { ReadsByScript self.old result (length into.old) self.new }
        ensures bytes { HandsOut result into.new
            (Some self.old.supply.left) (Some self.new.supply.left) }
        ensures faults { Counts (result ≡ Took.Failed) self.old.faults self.new.faults }
    {
        let fails = is_listed(&self.fails, self.calls);
        self.calls = self.calls.saturating_add(1);
        if fails {
            self.faults = self.faults.saturating_add(1);
            return Took::Failed;
        }
        self.supply.read(into)
    }

    fn faults(&self) -> u64 {
        self.faults
    }
}

/// Keeps what is written, as far as it has room, and fails at the calls that are listed.
#[derive(Debug, Drop)]
pub struct BytesSink {
    bytes: Vec<u8>,
    room: usize,
    fails: Vec<u64>,
    calls: u64,
    faults: u64,
}

impl Model for BytesSink {
    ghost use Rattle.std.specs.Prelude.{◌≤◌, vec_len, vec_capacity};
    ghost use Rattle.line_session.specs.Memory.{Store};

    ghost Value = { Store };

    ghost view = { λ s. record {
      bytes = s.bytes.items;
      room = s.room;
      fails = s.fails.items;
      calls = s.calls;
      faults = s.faults;
    } };

    ghost invariant = { λ s. record {
      within : vec_len s.bytes ≤ s.room;
      reserved : s.room ≤ vec_capacity s.bytes;
    } };
}

impl BytesSink {
    /// An empty sink with room for so many bytes.
    pub fn new(alloc: Global, room: usize, fails: &[u64]) -> Result<Self, AllocError>
        ensures empty { IfOk result (λ s. s.bytes ≡ []) }
        ensures room { IfOk result (λ s. s.room ≡ room) }
        ensures fails { IfOk result (λ s. s.fails ≡ fails.now) }
        ensures fresh { IfOk result (λ s. (s.calls ≡ 0) × (s.faults ≡ 0)) }
    {
        Ok(BytesSink {
            bytes: Vec::with_capacity(alloc, room)?,
            room,
            fails: Vec::from_slice(alloc, fails)?,
            calls: 0,
            faults: 0,
        })
    }

    /// What was written.
    pub fn bytes(&self) -> &[u8]
        ensures { result.now ≡ self.now.bytes }
    {
        &self.bytes
    }
}

impl Ends for BytesSink {
    ghost use Rattle.std.specs.Prelude.{Some, None};

    ghost state = { λ s. record {
      left = None;
      read_faults = 0;
      written = Some s.bytes;
      held = 0;
      write_faults = s.faults;
    } };
}

impl Sink for BytesSink {
    fn take(&mut self, piece: &[u8]) -> Gave
        requires { 0 < length piece.now }
        ensures script { TakesByScript self.old piece.now result self.new }
        ensures bytes { Accepts result piece.now (Some self.old.bytes) (Some self.new.bytes) }
        ensures faults { Counts (result ≡ Gave.Failed) self.old.faults self.new.faults }
    {
        let fails = is_listed(&self.fails, self.calls);
        self.calls = self.calls.saturating_add(1);
        if fails || piece.len() > self.room - self.bytes.len() {
            self.faults = self.faults.saturating_add(1);
            return Gave::Failed;
        }
        // The room was reserved when the sink was made.
        self.bytes.extend_from_slice(piece).unwrap();
        Gave::Bytes(piece.len())
    }

    /// Nothing is held back, so this is no call that may be listed.
    fn flush(&mut self) -> Result<(), SinkFailed>
        ensures ok { IsOk result }
        ensures same { self.new ≡ self.old }
    {
        Ok(())
    }

    fn faults(&self) -> u64 {
        self.faults
    }
}

/// Counts the bytes that are written and keeps none. It never fails.
#[derive(Debug, Drop)]
pub struct CountSink {
    count: u64,
}

impl Model for CountSink {
    ghost use Rattle.std.specs.Prelude.{ℕ};

    ghost Value = { ℕ };

    ghost view = { λ s. s.count };
}

impl CountSink {
    /// A sink that has counted nothing.
    pub fn new() -> Self
        ensures { result ≡ 0 }
    {
        CountSink { count: 0 }
    }

    /// How many bytes were written. The count stands at its greatest number.
    pub fn count(&self) -> u64
        ensures { result ≡ self.now }
    {
        self.count
    }
}

impl Default for CountSink {
    ghost is_default = { λ sink. sink ≡ 0 };

    fn default() -> Self {
        CountSink::new()
    }
}

impl Ends for CountSink {
    ghost use Rattle.std.specs.Prelude.{None};

    ghost state = { λ _. record {
      left = None;
      read_faults = 0;
      written = None;
      held = 0;
      write_faults = 0;
    } };
}

impl Sink for CountSink {
    fn take(&mut self, piece: &[u8]) -> Gave
        requires { 0 < length piece.now }
        ensures whole { result ≡ Gave.Bytes (length piece.now) }
        ensures count { self.new ≡ min (self.old + length piece.now) (2 ^ 64 - 1) }
        ensures bytes { Accepts result piece.now None None }
        ensures faults { Counts (result ≡ Gave.Failed) 0 0 }
    {
        self.count = self.count.saturating_add(piece.len() as u64);
        Gave::Bytes(piece.len())
    }

    /// Nothing is held back.
    fn flush(&mut self) -> Result<(), SinkFailed>
        ensures ok { IsOk result }
        ensures same { self.new ≡ self.old }
    {
        Ok(())
    }

    fn faults(&self) -> u64 {
        0
    }
}

// Whether the call with this number is among those that fail.
fn is_listed(fails: &[u64], call: u64) -> bool
    ensures { IsTrue result ↔ Contains fails.now call }
{
    fails.contains(&call)
}

// Copies the front of `from` to the front of `into`, at most so many bytes, and tells how many.
fn copy_front(from: &[u8], into: &mut [u8], most: usize) -> usize
    ensures count { result ≡ min (min most (length from.now)) (length into.old) }
    ensures copied { take result into.new ≡ take result from.now }
{
    let count = most.min(from.len()).min(into.len());
    into[..count].copy_from_slice(&from[..count]);
    count
}
