//! Sources and sinks over readers and writers of std: what fails is counted. Those over memory are called by the tests of the program.

use std::io;
use std::io::{ErrorKind, Read, Write};
use std::test::Fail;
use zw_base::{Failed, PlainSink, PlainSource, Sink, Source, StdSink, StdSource};

/// A reader and writer that fails at every second call.
#[derive(Drop)]
struct Flaky {
    calls: u8,
}

impl Flaky {
    fn next(&mut self) -> io::Result<usize> {
        self.calls = self.calls.saturating_add(1);
        if self.calls % 2 == 0 {
            return Err(ErrorKind::Other.into());
        }
        Ok(1)
    }
}

impl Read for Flaky {
    fn read(&mut self, buf: &mut [u8]) -> io::Result<usize> {
        let count = self.next()?;
        match buf.first_mut() {
            Some(first) => {
                *first = 9;
                Ok(count.min(1))
            }
            None => Ok(0),
        }
    }
}

impl Write for Flaky {
    fn write(&mut self, buf: &[u8]) -> io::Result<usize> {
        Ok(self.next()?.min(buf.len()))
    }

    fn flush(&mut self) -> io::Result<()> {
        Ok(())
    }
}

/// Whether a read answers so.
fn reads<S: Source>(source: &mut S, into: &mut [u8], want: Result<usize, Failed>) -> bool {
    source.read(into) == want
}

/// Whether the second read of three fails, and the others give a byte.
fn reads_flakily<S: Source>(source: &mut S) -> bool {
    let mut into = [0; 4];
    reads(source, &mut into, Ok(1))
        && into == [9, 0, 0, 0]
        && reads(source, &mut into, Err(Failed))
        && reads(source, &mut into, Ok(1))
}

#[test]
fn std_source_counts_failed_reads(rt: HostRuntime) {
    let mut source = StdSource::new(Flaky { calls: 0 });
    assert!(rt; reads_flakily(&mut source));
}

/// Whether a write answers so.
fn writes<S: Sink>(sink: &mut S, bytes: &[u8], want: Result<usize, Failed>) -> bool {
    sink.write(bytes) == want
}

/// Whether the second write of three fails, and the first takes a byte.
fn writes_flakily<S: Sink>(sink: &mut S) -> bool {
    writes(sink, b"ab", Ok(1)) && writes(sink, b"ab", Err(Failed)) && writes(sink, b"", Ok(0))
}

#[test]
fn std_sink_counts_failed_writes(rt: HostRuntime) {
    let mut sink = StdSink::new(Flaky { calls: 0 });
    assert!(rt; writes_flakily(&mut sink));
}

/// Whether the two bytes of a source are read at once.
fn reads_both<S: Source>(source: &mut S) -> bool {
    let mut into = [0; 2];
    reads(source, &mut into, Ok(2)) && into == *b"xy"
}

#[test]
fn plain_ones_never_fail(rt: HostRuntime) -> Result<(), Fail> {
    let mut plain = PlainSource::new(rt.alloc(), b"xy")?;
    assert!(rt; reads_both(&mut plain));
    assert!(rt; writes(&mut PlainSink::new(), b"abc", Ok(3)));
    Ok(())
}
