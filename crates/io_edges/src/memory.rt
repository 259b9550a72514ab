//! A source and a sink in memory, for tests: which of their calls fail, and how much a call takes,
//! is said beforehand.
ghost use Rattle.std.specs.Prelude.{◌≡◌, ◌<◌, ◌≤◌, ◌+◌, Some, vec_len, vec_capacity, length};
ghost use Rattle.std.specs.Prelude.{IfOk, IfSome, min};
ghost use Rattle.std.specs.Io.{ReadsAtMost};
ghost use Rattle.std.specs.Io.KnownBytes.{ReadConsumes};
ghost use Rattle.io_edges.specs.Causes.{HasCause, Counts};
ghost use Rattle.io_edges.specs.TakenBytes.{WriteTakes, WritesSome, FlushTells, nothing_taken};

use crate::calls::Calls;
use crate::empty::EmptyReads;
use crate::{Failed, Sink, Source};
use std::alloc::{AllocError, Global};

/// A source over bytes in memory. A call takes at most so many bytes, and the calls that are listed
/// fail.
#[derive(Drop)]
pub struct MemSource {
    bytes: Vec<u8>,
    at: usize,
    calls: Calls,
    faults: u64,
    empty: EmptyReads,
    ghost at_within: { at ≤ vec_len bytes },
}

impl MemSource {
    ghost use Rattle.io_edges.specs.Sources.{mem_left, mem_source_course, mem_source_faults};
    ghost use Rattle.io_edges.specs.Sources.{mem_empty_reads};

    /// A source that has these bytes, and no fault so far. The calls that fail are named by number,
    /// from 0; every other call takes at most `per_call` bytes.
    pub fn new(bytes: Vec<u8>, failing: Vec<u64>, per_call: usize) -> Self
        requires { 0 < per_call }
        ensures left { mem_left result ≡ Some bytes.items }
        ensures course { mem_source_course result ≡ record {
          failing = failing.items;
          per_call =
              per_call;
          calls = 0;
        } }
        ensures faults { mem_source_faults result ≡ 0 }
        ensures empty { mem_empty_reads result ≡ 0 }
    {
        MemSource {
            bytes,
            at: 0,
            calls: Calls::new(failing, per_call),
            faults: 0,
            empty: EmptyReads::new(),
        }
    }

    /// How often it has failed.
    pub fn faults(&self) -> u64
        ensures { result ≡ mem_source_faults self.now }
    {
        self.faults
    }
}

impl Source for MemSource {
    ghost use Rattle.io_edges.specs.Course.{TakesBy, one_later};
    ghost use Rattle.io_edges.specs.EmptyReads.{empty_by};
    ghost use Rattle.io_edges.specs.Sources.{mem_left, mem_bytes_left, mem_source_course};
    ghost use Rattle.io_edges.specs.Sources.{mem_source_faults, mem_empty_reads};

    ghost left = { mem_left };

    ghost faults = { mem_source_faults };

    ghost empty_reads = { mem_empty_reads };

    fn read(&mut self, buf: &mut [u8]) -> Result<usize, Failed>
        ensures bound { ReadsAtMost result buf.new }
        ensures bytes { ReadConsumes (mem_left self.old) (mem_left self.new) result buf.new }
        ensures cause { HasCause (mem_source_faults self.old) (mem_source_faults self.new) result }
        ensures counts { Counts (mem_source_faults self.old) (mem_source_faults self.new) result }
        ensures empty { mem_empty_reads self.new ≡ mem_empty_reads self.old + empty_by result }
        ensures takes { TakesBy (mem_source_course self.old)
            (min (length (mem_bytes_left self.old)) (length buf.old)) result }
        ensures course { mem_source_course self.new ≡ one_later (mem_source_course self.old) }
    {
        if self.calls.fails_now() {
            self.empty.count(0);
            return Err(Failed::counted(&mut self.faults));
        }
        let count = (self.bytes.len() - self.at)
            .min(buf.len())
            .min(self.calls.per_call());
        buf[..count].copy_from_slice(&self.bytes[self.at..self.at + count]);
        self.at += count;
        self.empty.count(count);
        Ok(count)
    }
}

/// A sink in memory. A call takes at most so many bytes, the calls that are listed fail, and there
/// is room for so many bytes in all, which was made before the first call.
#[derive(Drop)]
pub struct MemSink {
    bytes: Vec<u8>,
    room: usize,
    flushed: usize,
    calls: Calls,
    faults: u64,
    ghost flushed_within: { flushed ≤ length bytes.items },
    ghost bytes_within: { length bytes.items ≤ room },
    ghost room_made: { room ≤ vec_capacity bytes },
}

impl MemSink {
    ghost use Rattle.io_edges.specs.Sinks.{mem_told, mem_sink_course, mem_sink_faults};
    ghost use Rattle.io_edges.specs.Sinks.{mem_sink_room};

    /// A sink that has taken nothing, with no fault so far. The calls that fail, writes and flushes
    /// alike, are named by number, from 0; every other write takes at most `per_call` bytes. It
    /// takes `room` bytes in all, as a disk of that size does. The room is made here: that memory
    /// for it is refused is want of memory of the caller, and no call of the sink lacks any.
    pub fn new(
        alloc: Global,
        failing: Vec<u64>,
        per_call: usize,
        room: usize,
    ) -> Result<Self, AllocError>
        requires { 0 < per_call }
        ensures told { IfOk result (λ s. mem_told s ≡ Some nothing_taken) }
        ensures course { IfOk result (λ s. mem_sink_course s ≡ record {
          failing = failing.items;
          per_call =
              per_call;
          calls = 0;
        }) }
        ensures room { IfOk result (λ s. mem_sink_room s ≡ room) }
        ensures faults { IfOk result (λ s. mem_sink_faults s ≡ 0) }
    {
        let bytes = Vec::with_capacity(alloc, room)?;
        Ok(MemSink {
            bytes,
            room,
            flushed: 0,
            calls: Calls::new(failing, per_call),
            faults: 0,
        })
    }

    /// What was taken.
    pub fn bytes(&self) -> &[u8]
        ensures { IfSome (mem_told self.now) (λ t. result.now ≡ t.bytes) }
    {
        &self.bytes
    }

    /// How many bytes of what was taken are flushed.
    pub fn flushed(&self) -> usize
        ensures { IfSome (mem_told self.now) (λ t. result ≡ t.flushed) }
    {
        self.flushed
    }

    /// How often it has failed.
    pub fn faults(&self) -> u64
        ensures { result ≡ mem_sink_faults self.now }
    {
        self.faults
    }
}

impl Sink for MemSink {
    ghost use Rattle.io_edges.specs.Course.{one_later};
    ghost use Rattle.io_edges.specs.Sinks.{mem_told, mem_within, mem_sink_course, mem_sink_faults};
    ghost use Rattle.io_edges.specs.Sinks.{mem_sink_room, mem_room_left, MemWrites, MemFlushes};

    ghost told = { mem_told };

    ghost faults = { mem_sink_faults };

    ghost within = { mem_within };

    // A call that is not listed fails where it has bytes and there is room for none.
    fn write(&mut self, piece: &[u8]) -> Result<usize, Failed>
        ensures some { WritesSome result piece.now }
        ensures bytes { WriteTakes (mem_told self.old) (mem_told self.new) result piece.now }
        ensures cause { HasCause (mem_sink_faults self.old) (mem_sink_faults self.new) result }
        ensures counts { Counts (mem_sink_faults self.old) (mem_sink_faults self.new) result }
        ensures takes { MemWrites (mem_sink_course self.old) (mem_room_left self.old)
            (length piece.now) result }
        ensures course { mem_sink_course self.new ≡ one_later (mem_sink_course self.old) }
        ensures room { mem_sink_room self.new ≡ mem_sink_room self.old }
    {
        let left = self.room - self.bytes.len();
        let is_full = left == 0 && !piece.is_empty();
        if self.calls.fails_now() || is_full {
            return Err(Failed::counted(&mut self.faults));
        }
        let count = piece.len().min(left).min(self.calls.per_call());
        self.bytes.extend_from_slice(&piece[..count]).unwrap();
        Ok(count)
    }

    fn flush(&mut self) -> Result<(), Failed>
        ensures bytes { FlushTells (mem_told self.old) (mem_told self.new) result }
        ensures cause { HasCause (mem_sink_faults self.old) (mem_sink_faults self.new) result }
        ensures counts { Counts (mem_sink_faults self.old) (mem_sink_faults self.new) result }
        ensures flushes { MemFlushes (mem_sink_course self.old) result }
        ensures course { mem_sink_course self.new ≡ one_later (mem_sink_course self.old) }
        ensures room { mem_sink_room self.new ≡ mem_sink_room self.old }
    {
        if self.calls.fails_now() {
            return Err(Failed::counted(&mut self.faults));
        }
        self.flushed = self.bytes.len();
        Ok(())
    }
}
