// A source and a sink in memory, which fail at chosen calls.
ghost use Rattle.std.specs.Prelude.{◌≡◌, ◌≤◌, ◌<◌, ◌+◌, ◌-◌, ◌⊎◌, ◌++◌, ◌↔◌, ◌^◌, [], length, min, take, drop, Option, Some, None, false, IfOk, OnOk, OnErr, IsErr, IsTrue};
ghost use Rattle.cp_base.specs.InMemory.{IsNamed, IsFull, call_after, one_more};
ghost use Rattle.cp_base.specs.Outside.{Rose, Takes, Puts};

use crate::sink::Sink;
use crate::source::Source;
use crate::status::Failed;
use std::alloc::{AllocError, Global};
use std::marker::Model;

// The calls to an object: which of them fail, the number of the next one, and how many have failed.
#[derive(Drop)]
struct Calls {
    failing: Vec<u64>,
    next: Option<u64>,
    faults: u64,
}

impl Calls {
    fn new(failing: Vec<u64>) -> Calls
        ensures { result ≡ record { failing = failing; next = Some 0; faults = 0 } }
    {
        Calls {
            failing,
            next: Some(0),
            faults: 0,
        }
    }

    // Goes on to the next call. Fails, and counts the fault, if that call was chosen to fail.
    fn begin(&mut self) -> Result<(), Failed>
        ensures named { IsErr result ↔ IsNamed self.old.next self.old.failing.items }
        ensures next { OnOk result (self.new ≡ record self.old { next = call_after self.old.next }) }
        ensures counted { OnErr result (self.new
            ≡ record self.old { next = call_after self.old.next; faults = one_more self.old.faults }) }
        ensures rose { OnErr result (Rose self.old.faults self.new.faults) }
        ensures never_falls { self.old.faults ≤ self.new.faults }
    {
        let named = is_named(&self.failing, self.next);
        self.next = number_after(self.next);
        if named {
            return Err(self.fail());
        }
        Ok(())
    }

    // Counts a fault.
    fn fail(&mut self) -> Failed
        ensures counted { self.new ≡ record self.old { faults = one_more self.old.faults } }
        ensures rose { Rose self.old.faults self.new.faults }
        ensures never_falls { self.old.faults ≤ self.new.faults }
    {
        self.faults = self.faults.saturating_add(1);
        Failed
    }
}

fn is_named(failing: &[u64], call: Option<u64>) -> bool
    ensures { IsTrue result ↔ IsNamed call failing.now }
{
    match call {
        Some(number) => failing.contains(&number),
        None => false,
    }
}

fn number_after(call: Option<u64>) -> Option<u64>
    ensures { result ≡ call_after call }
{
    match call {
        Some(number) => number.checked_add(1),
        None => None,
    }
}

// Copies as many bytes from the start of `from` to the start of `to` as both have, but at most so many.
fn copy_front(from: &[u8], to: &mut [u8], most: usize) -> usize
    ensures count { result ≡ min most (min (length from.now) (length to.old)) }
    ensures copied { to.new ≡ take result from.now ++ drop result to.old }
{
    let count = most.min(from.len().min(to.len()));
    to[..count].copy_from_slice(&from[..count]);
    count
}

/// A source over bytes in memory. It fails at the calls of [`Source::take`] with the given numbers, from 0. Every other call
/// gives as many bytes as are left and fit, but at most as many as its size says.
#[derive(Drop)]
pub struct MemSource {
    bytes: Vec<u8>,
    at: usize,
    size: usize,
    calls: Calls,
}

impl Model for MemSource {
    ghost use Rattle.std.specs.Prelude.{◌≤◌, ◌<◌, drop, vec_len};
    ghost use Rattle.cp_base.specs.InMemory.{MemSourceState};

    ghost Value = { MemSourceState };

    ghost view = { λ s. record {
      left = drop s.at s.bytes.items;
      size = s.size;
      failing = s.calls.failing.items;
      next = s.calls.next;
      faults = s.calls.faults;
    } };

    ghost invariant = { λ s. (s.at ≤ vec_len s.bytes) × (0 < s.size) };
}

impl MemSource {
    /// A source with these bytes left, which fails at the calls with these numbers and gives all that fits at the others.
    pub fn new(bytes: Vec<u8>, failing: Vec<u64>) -> MemSource
        ensures { result ≡ record {
          left = bytes.items;
          size = 2 ^ 64 - 1;
          failing = failing.items;
          next = Some 0;
          faults = 0;
        } }
    {
        MemSource::chunked(bytes, usize::MAX, failing)
    }

    /// A source with these bytes left, which gives at most `size` bytes a call, and fails at the calls with these numbers.
    pub fn chunked(bytes: Vec<u8>, size: usize, failing: Vec<u64>) -> MemSource
        requires { 0 < size }
        ensures { result ≡ record {
          left = bytes.items;
          size = size;
          failing = failing.items;
          next = Some 0;
          faults = 0;
        } }
    {
        MemSource {
            bytes,
            at: 0,
            size,
            calls: Calls::new(failing),
        }
    }
}

impl Source for MemSource {
    ghost left = { λ source. Some source.left };

    ghost faults = { λ source. source.faults };

    ghost has_ended = { λ _. false };

    ghost needless = { λ _. 0 };

    fn take(&mut self, buf: &mut [u8]) -> Result<usize, Failed>
        ensures count { IfOk result (λ n. n ≤ length buf.old) }
        ensures failed { OnErr result (Rose self.old.faults self.new.faults) }
        ensures never_falls { self.old.faults ≤ self.new.faults }
        ensures moved { Takes (Some self.old.left) (Some self.new.left) buf.old buf.new result }

        // It fails exactly at the chosen calls; every other call gives all that fits, up to the size.
        ensures fails { IsErr result ↔ IsNamed self.old.next self.old.failing }
        ensures all { IfOk result (λ n. n ≡ min self.old.size (min (length self.old.left) (length buf.old))) }
        ensures buffer { OnErr result (buf.new ≡ buf.old) }

        // The size and the chosen numbers stay, each call has the next number, and each fault is counted.
        ensures size { self.new.size ≡ self.old.size }
        ensures failing { self.new.failing ≡ self.old.failing }
        ensures next { self.new.next ≡ call_after self.old.next }
        ensures no_fault { OnOk result (self.new.faults ≡ self.old.faults) }
        ensures fault { OnErr result (self.new.faults ≡ one_more self.old.faults) }
    {
        self.calls.begin()?;
        let count = copy_front(&self.bytes[self.at..], buf, self.size);
        self.at += count;
        Ok(count)
    }
}

/// A sink that keeps bytes in memory, up to its room. It fails at the calls of [`Sink::put`] with the given numbers, from 0, and
/// at a call with a nonempty piece when its room is full. Every other call takes as many bytes as fit, but at most as many as its
/// size says.
#[derive(Drop)]
pub struct MemSink {
    room: usize,
    size: usize,
    calls: Calls,
    bytes: Vec<u8>,
}

impl Model for MemSink {
    ghost use Rattle.std.specs.Prelude.{◌≤◌, ◌<◌, vec_len, vec_capacity};
    ghost use Rattle.cp_base.specs.InMemory.{MemSinkState};

    ghost Value = { MemSinkState };

    ghost view = { λ s. record {
      held = s.bytes.items;
      room = s.room;
      size = s.size;
      failing = s.calls.failing.items;
      next = s.calls.next;
      faults = s.calls.faults;
    } };

    ghost invariant = { λ s. (vec_len s.bytes ≤ s.room) × (s.room ≤ vec_capacity s.bytes) × (0 < s.size) };
}

impl MemSink {
    /// An empty sink with room for `room` bytes, which fails at the calls with these numbers and takes all that fits at the
    /// others. The room is reserved here; on failure the error is returned. The sink takes no memory later.
    pub fn new(alloc: Global, room: usize, failing: Vec<u64>) -> Result<MemSink, AllocError>
        ensures { IfOk result (λ sink. sink ≡ record {
          held = [];
          room = room;
          size = 2 ^ 64 - 1;
          failing = failing.items;
          next = Some 0;
          faults = 0;
        }) }
    {
        MemSink::chunked(alloc, room, usize::MAX, failing)
    }

    /// An empty sink with room for `room` bytes, which takes at most `size` bytes a call, and fails at the calls with these
    /// numbers. The room is reserved as by [`MemSink::new`].
    pub fn chunked(
        alloc: Global,
        room: usize,
        size: usize,
        failing: Vec<u64>,
    ) -> Result<MemSink, AllocError>
        requires { 0 < size }
        ensures { IfOk result (λ sink. sink ≡ record {
          held = [];
          room = room;
          size = size;
          failing = failing.items;
          next = Some 0;
          faults = 0;
        }) }
    {
        let bytes = Vec::with_capacity(alloc, room)?;
        Ok(MemSink {
            room,
            size,
            calls: Calls::new(failing),
            bytes,
        })
    }

    /// The bytes that the sink holds.
    pub fn bytes(&self) -> &[u8]
        ensures { result.now ≡ self.now.held }
    {
        &self.bytes
    }
}

impl Sink for MemSink {
    ghost held = { λ sink. Some sink.held };

    ghost faults = { λ sink. sink.faults };

    ghost needless = { λ _. 0 };

    fn put(&mut self, bytes: &[u8]) -> Result<usize, Failed>
        ensures count { IfOk result (λ n. n ≤ length bytes.now) }
        ensures progress { IfOk result (λ n. 0 < length bytes.now → 0 < n) }
        ensures failed { OnErr result (Rose self.old.faults self.new.faults) }
        ensures never_falls { self.old.faults ≤ self.new.faults }
        ensures moved { Puts (Some self.old.held) (Some self.new.held) bytes.now result }

        // It fails exactly at the chosen calls and when its room is full; every other call takes all that fits, up to the size.
        ensures fails { IsErr result ↔
            (IsNamed self.old.next self.old.failing ⊎ IsFull self.old bytes.now) }
        ensures all { IfOk result (λ n. n ≡ min self.old.size (min (length bytes.now) (self.old.room - length self.old.held))) }
        ensures fits { length self.new.held ≤ self.new.room }

        // The room, the size and the chosen numbers stay, each call has the next number, and each fault is counted.
        ensures room { self.new.room ≡ self.old.room }
        ensures size { self.new.size ≡ self.old.size }
        ensures failing { self.new.failing ≡ self.old.failing }
        ensures next { self.new.next ≡ call_after self.old.next }
        ensures no_fault { OnOk result (self.new.faults ≡ self.old.faults) }
        ensures fault { OnErr result (self.new.faults ≡ one_more self.old.faults) }
    {
        self.calls.begin()?;
        let count = self.size.min(bytes.len().min(self.room - self.bytes.len()));
        if count == 0 && !bytes.is_empty() {
            return Err(self.calls.fail());
        }
        self.bytes.extend_from_slice(&bytes[..count]).unwrap();
        Ok(count)
    }
}
