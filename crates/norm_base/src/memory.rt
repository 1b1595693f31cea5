// Devices in memory that fail at the calls that they are told.
ghost use Rattle.std.specs.Prelude.{◌≡◌, ◌↔◌, ◌^◌, ◌<◌, ◌≤◌, [], length, min, Some, IfOk, IsErr, IsErrOf, IsTrue};
ghost use Rattle.std.specs.Io.{ReadsAtMost, WritesAtMost};
ghost use Rattle.std.specs.Io.KnownBytes.{ReadConsumes, WriteAppends};
ghost use Rattle.norm_base.specs.Calls.{no_calls, next_fails, after_call};
ghost use Rattle.norm_base.specs.Causes.{ReadCause, WriteCause, FetchCause};
ghost use Rattle.norm_base.specs.Counts.{capped};
ghost use Rattle.norm_base.specs.Files.{Fetches, files_of};

use crate::calls::Calls;
use crate::{
    Failed, FetchFault, Name, Shelf, Sink, SinkFault, Source, SureShelf, SureSink, SureSource,
};
use std::alloc::Global;
use std::marker::Model;

/// A source of the given bytes. The reads whose numbers, counted from 1, stand in `fails` answer
/// `Failed`. Each other read gives as many bytes as the least of the piece, the room that there
/// is, and the number of bytes left.
#[derive(Drop)]
pub struct MemSource {
    source: SureSource,
    calls: Calls,
}

impl Model for MemSource {
    ghost use Rattle.norm_base.specs.Devices.{FailingSource};

    ghost Value = { FailingSource };

    ghost view = { λ s. record { left = s.source.left; piece = s.source.piece; calls = s.calls } };
}

impl MemSource {
    pub fn new(bytes: Vec<u8>, piece: usize, fails: Vec<u64>) -> MemSource
        requires { 1 ≤ piece }
        ensures left { result.left ≡ bytes.items }
        ensures piece { result.piece ≡ piece }
        ensures calls { result.calls ≡ no_calls fails.items }
    {
        MemSource {
            source: SureSource::new(bytes, piece),
            calls: Calls::new(fails),
        }
    }
}

impl Source for MemSource {
    ghost use Rattle.std.proofs.Common.{arith};

    ghost left = { λ s. Some s.left };

    ghost faults = { λ s. capped s.calls.failed };

    ghost counted = { λ s. omega arith };

    fn read(&mut self, into: &mut [u8]) -> Result<usize, Failed>
        requires { 0 < length into.old }
        ensures bound { ReadsAtMost result into.new }
        ensures bytes { ReadConsumes (Some self.old.left) (Some self.new.left) result into.new }
        ensures cause { ReadCause (capped self.old.calls.failed) (capped self.new.calls.failed) result }
        ensures calls { self.new.calls ≡ after_call self.old.calls }
        ensures failed { IsErr result ↔ IsTrue (next_fails self.old.calls) }
        ensures count { IfOk result (λ n. n ≡ min self.old.piece (min (length into.old) (length self.old.left))) }
        ensures piece { self.new.piece ≡ self.old.piece }
    {
        self.calls.turn()?;
        self.source.read(into)
    }
}

/// A sink. The writes whose numbers, counted from 1, stand in `fails` answer `Failed`. Each other
/// write that finds memory takes as many bytes as the lesser of the piece and the number of bytes
/// that it is given.
#[derive(Drop)]
pub struct MemSink {
    sink: SureSink,
    calls: Calls,
}

impl Model for MemSink {
    ghost use Rattle.norm_base.specs.Devices.{FailingSink};

    ghost Value = { FailingSink };

    ghost view = { λ s. record { held = s.sink.held; piece = s.sink.piece; calls = s.calls } };
}

impl MemSink {
    pub fn new(alloc: Global, piece: usize, fails: Vec<u64>) -> MemSink
        requires { 1 ≤ piece }
        ensures held { result.held ≡ [] }
        ensures piece { result.piece ≡ piece }
        ensures calls { result.calls ≡ no_calls fails.items }
    {
        MemSink {
            sink: SureSink::new(alloc, piece),
            calls: Calls::new(fails),
        }
    }

    /// All bytes that the sink has taken.
    pub fn bytes(&self) -> &[u8]
        ensures { result.now ≡ self.now.held }
    {
        self.sink.bytes()
    }
}

impl Sink for MemSink {
    ghost use Rattle.std.proofs.Common.{arith};

    ghost held = { λ s. Some s.held };

    ghost faults = { λ s. capped s.calls.failed };

    ghost counted = { λ s. omega arith };

    fn write(&mut self, from: &[u8]) -> Result<usize, SinkFault>
        requires { 0 < length from.now }
        ensures bound { WritesAtMost result from.now }
        ensures some { IfOk result (λ n. 0 < n) }
        ensures bytes { WriteAppends (Some self.old.held) (Some self.new.held) result from.now }
        ensures cause { WriteCause (capped self.old.calls.failed) (capped self.new.calls.failed) result }
        ensures calls { self.new.calls ≡ after_call self.old.calls }
        ensures failed { IsErrOf result SinkFault.Failed ↔ IsTrue (next_fails self.old.calls) }
        ensures count { IfOk result (λ n. n ≡ min self.old.piece (length from.now)) }
        ensures piece { self.new.piece ≡ self.old.piece }
    {
        if self.calls.turn().is_err() {
            return Err(SinkFault::Failed);
        }
        self.sink.write(from)
    }
}

/// A shelf of the given files. The calls whose numbers, counted from 1, stand in `fails` answer
/// `Failed`. Of two files of one name the first counts.
#[derive(Drop)]
pub struct MemShelf {
    shelf: SureShelf,
    calls: Calls,
}

impl Model for MemShelf {
    ghost use Rattle.norm_base.specs.Devices.{FailingShelf};

    ghost Value = { FailingShelf };

    ghost view = { λ s. record { files = s.shelf; calls = s.calls } };
}

impl MemShelf {
    pub fn new(alloc: Global, files: Vec<(Name, Vec<u8>)>, fails: Vec<u64>) -> MemShelf
        ensures files { result.files ≡ files_of files.items }
        ensures calls { result.calls ≡ no_calls fails.items }
    {
        MemShelf {
            shelf: SureShelf::new(alloc, files),
            calls: Calls::new(fails),
        }
    }
}

impl Shelf for MemShelf {
    ghost use Rattle.std.proofs.Common.{arith};

    ghost files = { λ s. Some s.files };

    ghost faults = { λ s. capped s.calls.failed };

    ghost counted = { λ s. omega arith };

    fn fetch(&mut self, name: &str) -> Result<Option<Vec<u8>>, FetchFault>
        ensures files { self.new.files ≡ self.old.files }
        ensures found { Fetches (Some self.old.files) name.now result }
        ensures cause { FetchCause (capped self.old.calls.failed) (capped self.new.calls.failed) result }
        ensures calls { self.new.calls ≡ after_call self.old.calls }
        ensures failed { IsErrOf result FetchFault.Failed ↔ IsTrue (next_fails self.old.calls) }
    {
        if self.calls.turn().is_err() {
            return Err(FetchFault::Failed);
        }
        self.shelf.fetch(name)
    }
}
