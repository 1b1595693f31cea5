// Devices in memory that never fail.
ghost use Rattle.std.specs.Prelude.{◌≡◌, ◌+◌, ◌-◌, ◌^◌, ◌<◌, ◌≤◌, [], length, take, drop, ◌++◌, min, Some, IsOk, IfOk, IsOkUnless, OnErr};
ghost use Rattle.std.specs.Io.{ReadsAtMost, WritesAtMost};
ghost use Rattle.std.specs.Io.KnownBytes.{ReadConsumes, WriteAppends};
ghost use Rattle.std.specs.Option.{option_copied};
ghost use Rattle.norm_base.specs.Causes.{ReadCause, WriteCause, FetchCause};
ghost use Rattle.norm_base.specs.Files.{Fetches, files_of, file_of};

use crate::{Failed, FetchFault, Name, Shelf, Sink, SinkFault, Source};
use std::alloc::Global;
use std::marker::Model;

/// A source of the given bytes that never fails. Each read gives as many bytes as the least of
/// the piece, the room that there is, and the number of bytes left. Its count of faults is 0.
#[derive(Drop)]
pub struct SureSource {
    bytes: Vec<u8>,
    at: usize,
    piece: usize,
}

impl Model for SureSource {
    ghost use Rattle.std.specs.Prelude.{◌≤◌, drop, length};
    ghost use Rattle.norm_base.specs.Devices.{PieceSource};

    ghost Value = { PieceSource };

    ghost view = { λ s. record { left = drop s.at s.bytes.items; piece = s.piece } };

    ghost invariant = { λ s. (s.at ≤ length s.bytes.items) × (1 ≤ s.piece) };
}

impl SureSource {
    pub fn new(bytes: Vec<u8>, piece: usize) -> SureSource
        requires { 1 ≤ piece }
        ensures left { result.left ≡ bytes.items }
        ensures piece { result.piece ≡ piece }
    {
        SureSource {
            bytes,
            at: 0,
            piece,
        }
    }
}

impl Source for SureSource {
    ghost use Rattle.std.proofs.Common.{rules};

    ghost left = { λ s. Some s.left };

    ghost faults = { λ s. 0 };

    ghost counted = { λ s. Prim.search rules };

    fn read(&mut self, into: &mut [u8]) -> Result<usize, Failed>
        requires { 0 < length into.old }
        ensures bound { ReadsAtMost result into.new }
        ensures bytes { ReadConsumes (Some self.old.left) (Some self.new.left) result into.new }
        ensures cause { ReadCause 0 0 result }
        ensures sure { IsOk result }
        ensures count { IfOk result (λ n. n ≡ min self.old.piece (min (length into.old) (length self.old.left))) }
        ensures piece { self.new.piece ≡ self.old.piece }
    {
        let count = copy_next(&self.bytes, self.at, into, self.piece);
        self.at += count;
        Ok(count)
    }
}

// Copies the bytes from `at` on, as much as there is room for and at most so many, and answers
// how much.
fn copy_next(bytes: &[u8], at: usize, into: &mut [u8], most: usize) -> usize
    requires within { at ≤ length bytes.now }
    requires some { 1 ≤ most }
    ensures count { result ≡ min most (min (length into.old) (length bytes.now - at)) }
    ensures moved { drop at bytes.now ≡ take result into.new ++ drop (at + result) bytes.now }
    ensures end { result ≡ 0 → 0 < length into.new → drop (at + result) bytes.now ≡ [] }
{
    let count = most.min(into.len().min(bytes.len() - at));
    into[..count].copy_from_slice(&bytes[at..at + count]);
    count
}

/// A sink that never fails. Each write that finds memory takes as many bytes as the lesser of the
/// piece and the number of bytes that it is given. Its count of faults is 0.
#[derive(Drop)]
pub struct SureSink {
    held: Vec<u8>,
    piece: usize,
}

impl Model for SureSink {
    ghost use Rattle.std.specs.Prelude.{◌≤◌};
    ghost use Rattle.norm_base.specs.Devices.{PieceSink};

    ghost Value = { PieceSink };

    ghost view = { λ s. record { held = s.held.items; piece = s.piece } };

    ghost invariant = { λ s. 1 ≤ s.piece };
}

impl SureSink {
    pub fn new(alloc: Global, piece: usize) -> SureSink
        requires { 1 ≤ piece }
        ensures held { result.held ≡ [] }
        ensures piece { result.piece ≡ piece }
    {
        SureSink {
            held: Vec::new(alloc),
            piece,
        }
    }

    /// All bytes that the sink has taken.
    pub fn bytes(&self) -> &[u8]
        ensures { result.now ≡ self.now.held }
    {
        &self.held
    }
}

impl Sink for SureSink {
    ghost use Rattle.std.proofs.Common.{rules};

    ghost held = { λ s. Some s.held };

    ghost faults = { λ s. 0 };

    ghost counted = { λ s. Prim.search rules };

    fn write(&mut self, from: &[u8]) -> Result<usize, SinkFault>
        requires { 0 < length from.now }
        ensures bound { WritesAtMost result from.now }
        ensures some { IfOk result (λ n. 0 < n) }
        ensures bytes { WriteAppends (Some self.old.held) (Some self.new.held) result from.now }
        ensures cause { WriteCause 0 0 result }
        ensures sure { IsOkUnless result SinkFault.Memory }
        ensures count { IfOk result (λ n. n ≡ min self.old.piece (length from.now)) }
        ensures piece { self.new.piece ≡ self.old.piece }
    {
        let count = self.piece.min(from.len());
        if self.held.extend_from_slice(&from[..count]).is_err() {
            return Err(SinkFault::Memory);
        }
        Ok(count)
    }
}

/// A shelf of the given files that never fails. Of two files of one name the first counts. Its
/// count of faults is 0.
#[derive(Drop)]
pub struct SureShelf {
    alloc: Global,
    files: Vec<(Name, Vec<u8>)>,
}

impl Model for SureShelf {
    ghost use Rattle.norm_base.specs.Files.{Files, files_of};

    ghost Value = { Files };

    ghost view = { λ s. files_of s.files.items };
}

impl SureShelf {
    pub fn new(alloc: Global, files: Vec<(Name, Vec<u8>)>) -> SureShelf
        ensures { result ≡ files_of files.items }
    {
        SureShelf { alloc, files }
    }
}

impl Shelf for SureShelf {
    ghost use Rattle.std.proofs.Common.{rules};

    ghost files = { λ s. Some s };

    ghost faults = { λ s. 0 };

    ghost counted = { λ s. Prim.search rules };

    fn fetch(&mut self, name: &str) -> Result<Option<Vec<u8>>, FetchFault>
        ensures files { self.new ≡ self.old }
        ensures found { Fetches (Some self.old) name.now result }
        ensures cause { FetchCause 0 0 result }
        ensures sure { IsOkUnless result FetchFault.Memory }
    {
        match find_file(&self.files, name.as_bytes()) {
            None => Ok(None),
            Some(bytes) => match Vec::from_slice(self.alloc, bytes) {
                Ok(copy) => Ok(Some(copy)),
                Err(_) => Err(FetchFault::Memory),
            },
        }
    }
}

// The content of the first file of this name.
fn find_file<'a>(files: &'a [(Name, Vec<u8>)], name: &[u8]) -> Option<&'a [u8]>
    ensures { option_copied result ≡ file_of (files_of files.now) name.now }
{
    let mut rest = files;
    while let [file, after @ ..] = rest {
        if file.0.bytes() == name {
            return Some(file.1.as_slice());
        }
        rest = after;
    }
    None
}
