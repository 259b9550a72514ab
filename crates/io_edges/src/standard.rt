//! A source over a reader of std and a sink over a writer of std: the trusted edge. They count each
//! error, but for interruptions after which the call was made again, and tell nothing of bytes.
ghost use Rattle.std.specs.Prelude.{◌≡◌, ◌+◌, None};
ghost use Rattle.std.specs.Io.{ReadsAtMost};
ghost use Rattle.std.specs.Io.KnownBytes.{ReadConsumes, WriteAppends, Keeps};
ghost use Rattle.io_edges.specs.Causes.{HasCause, Counts};
ghost use Rattle.io_edges.specs.TakenBytes.{WritesSome};

use crate::empty::EmptyReads;
use crate::tries::{flush_again, read_again, write_again};
use crate::{Failed, Sink, Source};
use std::io::{Read, Write};

/// A source over a reader of std. It tells nothing of bytes.
#[derive(Drop)]
pub struct StdSource<R: Read + Drop> {
    inner: R,
    faults: u64,
    empty: EmptyReads,
}

impl<R: Read + Drop> StdSource<R> {
    ghost use Rattle.io_edges.specs.Sources.{std_source_faults, std_empty_reads, reader_of};

    /// A source over this reader, with no fault so far.
    pub fn new(inner: R) -> Self
        ensures reader { reader_of result ≡ inner }
        ensures faults { std_source_faults result ≡ 0 }
        ensures empty { std_empty_reads result ≡ 0 }
    {
        StdSource {
            inner,
            faults: 0,
            empty: EmptyReads::new(),
        }
    }

    /// How often it has failed.
    pub fn faults(&self) -> u64
        ensures { result ≡ std_source_faults self.now }
    {
        self.faults
    }
}

impl<R: Read + Drop> Source for StdSource<R> {
    ghost use Rattle.io_edges.specs.EmptyReads.{empty_by};
    ghost use Rattle.io_edges.specs.Sources.{std_source_faults, std_empty_reads, reader_of};

    ghost left = { λ _. None };

    ghost faults = { std_source_faults };

    ghost empty_reads = { std_empty_reads };

    // Each error of the reader is a fault; an interrupted read is made again first.
    fn read(&mut self, buf: &mut [u8]) -> Result<usize, Failed>
        ensures bound { ReadsAtMost result buf.new }
        ensures bytes { ReadConsumes None None result buf.new }
        ensures cause { HasCause (std_source_faults self.old) (std_source_faults self.new) result }
        ensures counts { Counts (std_source_faults self.old) (std_source_faults self.new) result }
        ensures empty { std_empty_reads self.new ≡ std_empty_reads self.old + empty_by result }
        ensures reader { ReadConsumes (R.remaining (reader_of self.old))
            (R.remaining (reader_of self.new)) result buf.new }
    {
        match read_again(&mut self.inner, buf) {
            Ok(count) => {
                self.empty.count(count);
                Ok(count)
            }
            Err(_) => {
                self.empty.count(0);
                Err(Failed::counted(&mut self.faults))
            }
        }
    }
}

/// A sink over a writer of std. It tells nothing of bytes.
#[derive(Drop)]
pub struct StdSink<W: Write + Drop> {
    inner: W,
    faults: u64,
}

impl<W: Write + Drop> StdSink<W> {
    ghost use Rattle.io_edges.specs.Sinks.{std_sink_faults, writer_of};

    /// A sink over this writer, with no fault so far.
    pub fn new(inner: W) -> Self
        ensures writer { writer_of result ≡ inner }
        ensures faults { std_sink_faults result ≡ 0 }
    {
        StdSink { inner, faults: 0 }
    }

    /// How often it has failed.
    pub fn faults(&self) -> u64
        ensures { result ≡ std_sink_faults self.now }
    {
        self.faults
    }

    /// The writer, with what it has taken.
    pub fn into_inner(self) -> W
        ensures { result ≡ writer_of self }
    {
        self.inner
    }
}

impl<W: Write + Drop> Sink for StdSink<W> {
    ghost use Rattle.io_edges.specs.Sinks.{std_sink_faults, writer_of};
    ghost use Rattle.io_edges.specs.TakenBytes.{nothing_told, WriteTakes, FlushTells};

    ghost told = { λ _. None };

    ghost faults = { std_sink_faults };

    ghost within = { λ s. nothing_told };

    // Each error of the writer is a fault, and so is a write that takes nothing of a piece that has
    // a byte; an interrupted write is made again first.
    fn write(&mut self, piece: &[u8]) -> Result<usize, Failed>
        ensures some { WritesSome result piece.now }
        ensures bytes { WriteTakes None None result piece.now }
        ensures cause { HasCause (std_sink_faults self.old) (std_sink_faults self.new) result }
        ensures counts { Counts (std_sink_faults self.old) (std_sink_faults self.new) result }
        ensures writer { WriteAppends (W.contents (writer_of self.old))
            (W.contents (writer_of self.new)) result piece.now }
    {
        match write_again(&mut self.inner, piece) {
            Ok(count) if count > 0 || piece.is_empty() => Ok(count),
            _ => Err(Failed::counted(&mut self.faults)),
        }
    }

    // Each error of the writer is a fault; an interrupted flush is made again first.
    fn flush(&mut self) -> Result<(), Failed>
        ensures bytes { FlushTells None None result }
        ensures cause { HasCause (std_sink_faults self.old) (std_sink_faults self.new) result }
        ensures counts { Counts (std_sink_faults self.old) (std_sink_faults self.new) result }
        ensures writer { Keeps (W.contents (writer_of self.old)) (W.contents (writer_of self.new)) }
    {
        match flush_again(&mut self.inner) {
            Ok(()) => Ok(()),
            Err(_) => Err(Failed::counted(&mut self.faults)),
        }
    }
}
