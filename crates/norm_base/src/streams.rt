// A source over std's readers, and a sink over its writers.
ghost use Rattle.std.specs.Prelude.{◌≡◌, ◌<◌, ◌^◌, List, ℕ};

use crate::{Failed, Sink, SinkFault, Source};
use std::io::{ErrorKind, Read, Write};

/// A source over a reader. Each error of the reader is a counted fault.
#[derive(Drop)]
pub struct ReaderSource<R> {
    reader: R,
    faults: u64,
    ghost counted: { faults < 2 ^ 64 },
}

impl<R: Read> ReaderSource<R> {
    /// A source of what the reader gives from now on.
    pub fn new(reader: R) -> ReaderSource<R>
        ensures left { ⟦<ReaderSource<R> as Source>⟧.left result ≡ R.remaining reader }
        ensures faults { ⟦<ReaderSource<R> as Source>⟧.faults result ≡ 0 }
    {
        ReaderSource { reader, faults: 0 }
    }
}

impl<R: Read> Source for ReaderSource<R> {
    ghost left = { λ s. R.remaining s.reader };

    ghost faults = { λ s. s.faults };

    ghost counted = { λ s. s.counted };

    fn read(&mut self, into: &mut [u8]) -> Result<usize, Failed> {
        match self.reader.read(into) {
            Ok(count) => Ok(count),
            Err(_) => {
                self.faults = self.faults.saturating_add(1);
                Err(Failed)
            }
        }
    }
}

/// A sink over a writer. Each error of the writer but want of memory is a counted fault, and so
/// is a write that takes nothing.
#[derive(Drop)]
pub struct WriterSink<W> {
    writer: W,
    faults: u64,
    ghost counted: { faults < 2 ^ 64 },
}

impl<W: Write> WriterSink<W> {
    /// A sink that hands each piece to the writer.
    pub fn new(writer: W) -> WriterSink<W>
        ensures held { ⟦<WriterSink<W> as Sink>⟧.held result ≡ W.contents writer }
        ensures faults { ⟦<WriterSink<W> as Sink>⟧.faults result ≡ 0 }
    {
        WriterSink { writer, faults: 0 }
    }
}

impl<W: Write> Sink for WriterSink<W> {
    ghost held = { λ s. W.contents s.writer };

    ghost faults = { λ s. s.faults };

    ghost counted = { λ s. s.counted };

    fn write(&mut self, from: &[u8]) -> Result<usize, SinkFault> {
        match self.writer.write(from) {
            Ok(count) if 0 < count => Ok(count),
            Err(error) if error.kind() == ErrorKind::OutOfMemory => Err(SinkFault::Memory),
            _ => {
                self.faults = self.faults.saturating_add(1);
                Err(SinkFault::Failed)
            }
        }
    }
}
