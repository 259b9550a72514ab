//! A source and a sink that never fail.
ghost use Rattle.std.specs.Prelude.{◌≡◌, ◌≤◌, ◌+◌, ◌∷◌, [], Some, length, min, take};
ghost use Rattle.std.specs.Io.{ReadsAtMost};
ghost use Rattle.std.specs.Io.KnownBytes.{ReadConsumes};
ghost use Rattle.io_edges.specs.Causes.{HasCause};
ghost use Rattle.io_edges.specs.TakenBytes.{WriteTakes, WritesSome, FlushTells, Takes};
ghost use Rattle.io_edges.specs.TakenBytes.{nothing_taken};

use crate::empty::EmptyReads;
use crate::log::Log;
use crate::{Failed, Sink, Source};

/// A source over bytes in memory that never fails: its count of faults is 0 for good.
#[derive(Drop)]
pub struct SureSource {
    bytes: Vec<u8>,
    at: usize,
    empty: EmptyReads,
    ghost at_within: { at ≤ length bytes.items },
}

impl SureSource {
    ghost use Rattle.io_edges.specs.Sources.{sure_left, sure_empty_reads};

    /// A source that has these bytes.
    pub fn new(bytes: Vec<u8>) -> Self
        ensures left { sure_left result ≡ Some bytes.items }
        ensures empty { sure_empty_reads result ≡ 0 }
    {
        SureSource {
            bytes,
            at: 0,
            empty: EmptyReads::new(),
        }
    }
}

impl Source for SureSource {
    ghost use Rattle.io_edges.specs.EmptyReads.{empty_by};
    ghost use Rattle.io_edges.specs.Sources.{sure_left, sure_bytes_left, sure_empty_reads};

    ghost left = { sure_left };

    ghost faults = { λ _. 0 };

    ghost empty_reads = { sure_empty_reads };

    fn read(&mut self, buf: &mut [u8]) -> Result<usize, Failed>
        ensures bound { ReadsAtMost result buf.new }
        ensures bytes { ReadConsumes (sure_left self.old) (sure_left self.new) result buf.new }
        ensures cause { HasCause 0 0 result }
        ensures empty { sure_empty_reads self.new ≡ sure_empty_reads self.old + empty_by result }
        ensures sure { result ≡ Ok (min (length (sure_bytes_left self.old)) (length buf.old)) }
    {
        let count = (self.bytes.len() - self.at).min(buf.len());
        buf[..count].copy_from_slice(&self.bytes[self.at..self.at + count]);
        self.at += count;
        self.empty.count(count);
        Ok(count)
    }
}

/// A sink that never fails: its count of faults is 0 for good. What it tells of its bytes takes no
/// memory, so that no room for them can be refused.
#[derive(Drop)]
pub struct SureSink {
    events: Log<Option<u8>>,
}

impl SureSink {
    ghost use Rattle.io_edges.specs.Events.{sure_told};

    /// A sink that has taken nothing.
    pub fn new() -> Self
        ensures { sure_told result ≡ Some nothing_taken }
    {
        SureSink { events: Log::new() }
    }

    // Takes a byte.
    fn take(&mut self, byte: u8)
        ensures { Takes (sure_told self.old) (sure_told self.new) (byte ∷ []) }
    {
        self.events = self.events.and(&Some(byte));
    }
}

impl Sink for SureSink {
    ghost use Rattle.io_edges.specs.Events.{sure_told, sure_within};

    ghost told = { sure_told };

    ghost faults = { λ _. 0 };

    ghost within = { sure_within };

    fn write(&mut self, piece: &[u8]) -> Result<usize, Failed>
        ensures some { WritesSome result piece.now }
        ensures bytes { WriteTakes (sure_told self.old) (sure_told self.new) result piece.now }
        ensures cause { HasCause 0 0 result }
        ensures all { result ≡ Ok (length piece.now) }
    {
        for byte in piece {
            self.take(*byte);
        }
        Ok(piece.len())
    }

    fn flush(&mut self) -> Result<(), Failed>
        ensures bytes { FlushTells (sure_told self.old) (sure_told self.new) result }
        ensures cause { HasCause 0 0 result }
        ensures sure { result ≡ Ok tt }
    {
        self.events = self.events.and(&None);
        Ok(())
    }
}
