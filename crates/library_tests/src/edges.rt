//! What no clause can say: that the edges over std pass bytes on, and what they answer where std
//! fails.

use io_edges::{Failed, Sink, Source, StdSink, StdSource, SureSink, SureSource, TRIES_AGAIN};
use std::io::{Error, ErrorKind, Read, Write};
use std::test::Fail;

// Gives its bytes, then an error for good.
#[derive(Drop)]
struct Broken(&'static [u8]);

impl Read for Broken {
    fn read(&mut self, buf: &mut [u8]) -> std::io::Result<usize> {
        match (self.0.first(), buf.first_mut()) {
            (Some(byte), Some(place)) => {
                *place = *byte;
                self.0 = &self.0[1..];
                Ok(1)
            }
            _ => Err(Error::from(ErrorKind::BrokenPipe)),
        }
    }
}

// Has room for so many bytes, takes none beyond, and cannot be flushed once it is full.
#[derive(Drop)]
struct Narrow(Vec<u8>, usize);

impl Write for Narrow {
    fn write(&mut self, piece: &[u8]) -> std::io::Result<usize> {
        let count = piece.len().min(self.1);
        self.0.extend_from_slice(&piece[..count])?;
        self.1 -= count;
        Ok(count)
    }

    fn flush(&mut self) -> std::io::Result<()> {
        match self.1 {
            0 => Err(Error::from(ErrorKind::BrokenPipe)),
            _ => Ok(()),
        }
    }
}

// Is interrupted so often, and then gives and takes one byte a call.
#[derive(Drop)]
struct Interrupted(u32);

impl Interrupted {
    fn call(&mut self) -> std::io::Result<()> {
        if self.0 == 0 {
            return Ok(());
        }
        self.0 -= 1;
        Err(Error::from(ErrorKind::Interrupted))
    }
}

impl Read for Interrupted {
    fn read(&mut self, buf: &mut [u8]) -> std::io::Result<usize> {
        self.call()?;
        Ok(buf.len().min(1))
    }
}

impl Write for Interrupted {
    fn write(&mut self, piece: &[u8]) -> std::io::Result<usize> {
        self.call()?;
        Ok(piece.len().min(1))
    }

    fn flush(&mut self) -> std::io::Result<()> {
        self.call()
    }
}

#[test]
fn a_reader_of_std(rt: HostRuntime) {
    let mut source = StdSource::new(Broken(b"ab"));
    let mut buf = [0; 4];
    assert_eq!(rt; source.read(&mut buf), Ok(1));
    assert_eq!(rt; source.read(&mut buf[1..]), Ok(1));
    assert_eq!(rt; source.faults(), 0);
    assert_eq!(rt; source.read(&mut buf[2..]), Err(Failed));
    assert_eq!(rt; source.faults(), 1);
    assert_eq!(rt; buf, *b"ab\0\0");
}

#[test]
fn a_writer_of_std(rt: HostRuntime) {
    let mut sink = StdSink::new(Narrow(Vec::new(rt.alloc()), 3));
    assert_eq!(rt; sink.write(b"ab"), Ok(2));
    assert_eq!(rt; sink.flush(), Ok(()));
    assert_eq!(rt; sink.write(b"cd"), Ok(1));
    assert_eq!(rt; sink.write(b""), Ok(0));
    assert_eq!(rt; sink.faults(), 0);
    assert_eq!(rt; sink.write(b"d"), Err(Failed));
    assert_eq!(rt; sink.flush(), Err(Failed));
    assert_eq!(rt; sink.faults(), 2);
    assert_eq!(rt; sink.into_inner().0.as_slice(), b"abc".as_slice());
}

// A call that is interrupted is made again, and fails where that is so once more than it may.
#[test]
fn interrupted_calls_of_std(rt: HostRuntime) {
    let mut source = StdSource::new(Interrupted(TRIES_AGAIN));
    assert_eq!(rt; source.read(&mut [0; 4]), Ok(1));
    assert_eq!(rt; source.faults(), 0);
    let mut source = StdSource::new(Interrupted(TRIES_AGAIN + 1));
    assert_eq!(rt; source.read(&mut [0; 4]), Err(Failed));
    assert_eq!(rt; source.read(&mut [0; 4]), Ok(1));
    assert_eq!(rt; source.faults(), 1);
    let mut sink = StdSink::new(Interrupted(TRIES_AGAIN));
    assert_eq!(rt; sink.write(b"ab"), Ok(1));
    assert_eq!(rt; sink.flush(), Ok(()));
    assert_eq!(rt; sink.faults(), 0);
    let mut sink = StdSink::new(Interrupted(2 * TRIES_AGAIN + 2));
    assert_eq!(rt; sink.write(b"ab"), Err(Failed));
    assert_eq!(rt; sink.flush(), Err(Failed));
    assert_eq!(rt; sink.flush(), Ok(()));
    assert_eq!(rt; sink.faults(), 2);
}

// They never fail, and take and give all that fits.
#[test]
fn sure_edges(rt: HostRuntime) -> Result<(), Fail> {
    let mut source = SureSource::new(b"abc".to_vec(rt.alloc())?);
    let mut sink = SureSink::new();
    let mut buf = [0; 2];
    assert_eq!(rt; source.read(&mut buf), Ok(2));
    assert_eq!(rt; sink.write(&buf), Ok(2));
    assert_eq!(rt; source.read(&mut buf), Ok(1));
    assert_eq!(rt; buf, *b"cb");
    assert_eq!(rt; source.read(&mut buf), Ok(0));
    assert_eq!(rt; sink.flush(), Ok(()));
    Ok(())
}
