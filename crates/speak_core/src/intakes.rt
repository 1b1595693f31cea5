// The input, read as far as its lines are wanted.

ghost use Rattle.std.specs.Prelude.{◌≡◌, ◌<◌, ◌≤◌, ◌+◌, ◌*◌, ◌++◌, ℕ, List, Option, IfErr, IfOk, IsErrOf, OnOk, [], length, true, false};
ghost use Rattle.std.specs.Io.KnownBytes.{IsAtEnd};
ghost use Rattle.speak_core.specs.Inputs.{GaveTooMuch, IfGaveTooMuch};
ghost use Rattle.speak_core.specs.Intakes.{AreWhole, GaveOnly, GaveWithin, Holds, IsIntake, line_feeds};
ghost use Rattle.speak_core.specs.Stops.{Counts, IsReadingStop};

use crate::batches::MOST_LINES;
use crate::stop::Stop;
use bstr::ByteSlice;
use norm_base::Source;
use std::alloc::{AllocError, Global};
use std::mem::replace;

/// How many bytes an input may have.
const LONGEST_INPUT: usize = 268_435_456;

/// How many bytes are read at a time.
const LONGEST_READ: usize = 65_536;

/// What was read of an input and isn't handled yet: whole lines, and what came of the next one.
#[derive(Drop)]
pub(crate) struct Intake {
    bytes: Vec<u8>,
    /// How many whole lines were found, at most those of a batch.
    lines: usize,
    /// Where the last of them ends.
    end: usize,
    /// From their end up to here there is no line feed.
    seen: usize,
    /// How many bytes the source has given.
    given: usize,
}

impl Intake {
    /// Nothing was read.
    pub(crate) fn new(alloc: Global) -> Intake
        ensures is { IsIntake result }
        ensures none { result.bytes.items ≡ [] }
        ensures given { result.given ≡ 0 }
    {
        Intake {
            bytes: Vec::new(alloc),
            lines: 0,
            end: 0,
            seen: 0,
            given: 0,
        }
    }

    /// Reads on until there are the whole lines of a batch, or up to the end of the input, and answers whether there are. Nothing is read while
    /// they are there.
    pub(crate) fn fill<S: Source>(&mut self, source: &mut S) -> Result<bool, Stop>
        requires is { IsIntake self.old }
        ensures is { OnOk result (IsIntake self.new) }
        ensures holds { (start : Option (List ℕ)) (handled : List ℕ) → Holds start (S.left source.old) handled self.old → OnOk result (Holds start (S.left source.new) handled self.new) }
        ensures within { (start : Option (List ℕ)) (handled : List ℕ) (batches : ℕ) → Holds start (S.left source.old) handled self.old → line_feeds handled ≡ 1024 * batches
            → GaveWithin (1024 * (batches + 1)) start (S.left source.old) → GaveWithin (1024 * (batches + 1)) start (S.left source.new) }
        ensures full { IfOk result (λ is_full. is_full ≡ true → self.new.lines ≡ 1024) }
        ensures few { IfOk result (λ is_full. is_full ≡ false → line_feeds self.new.bytes.items < 1024) }
        ensures end { IfOk result (λ is_full. is_full ≡ false → IsAtEnd (S.left source.new)) }
        ensures too_long { (start : Option (List ℕ)) (handled : List ℕ) → Holds start (S.left source.old) handled self.old → IsErrOf result Stop.TooLong → GaveTooMuch start (S.left source.new) }
        ensures only_too_long { (start : Option (List ℕ)) (handled : List ℕ) → Holds start (S.left source.old) handled self.old → IfGaveTooMuch start (S.left source.new) (IsErrOf result Stop.TooLong) }
        ensures counts { Counts (S.faults source.old) (S.faults source.new) result }
        ensures stops { IfErr result IsReadingStop }
    {
        let mut piece = [0u8; LONGEST_READ];
        loop {
            self.find_ends();
            if self.lines == MOST_LINES {
                return Ok(true);
            }
            let is_more = self.read_more(source, &mut piece)?;
            if !is_more {
                return Ok(false);
            }
        }
    }

    /// Finds the whole lines, as many as a batch may have.
    fn find_ends(&mut self)
        requires { IsIntake self.old }
        ensures is { IsIntake self.new }
        ensures bytes { self.new.bytes ≡ self.old.bytes }
        ensures given { self.new.given ≡ self.old.given }
        ensures all { self.new.lines < 1024 → line_feeds self.new.bytes.items ≡ self.new.lines }
    {
        while self.lines < MOST_LINES {
            let Some(at) = (&self.bytes[self.seen..]).find_byte(b'\n') else {
                self.seen = self.bytes.len();
                return;
            };
            self.end = self.seen + at + 1;
            self.seen = self.end;
            self.lines += 1;
        }
    }

    /// Reads once into this piece, and answers whether the input goes on.
    fn read_more<S: Source>(&mut self, source: &mut S, piece: &mut [u8]) -> Result<bool, Stop>
        requires is { IsIntake self.old }
        requires some { 0 < length piece.old }
        requires few { length piece.old ≤ 65536 }
        ensures piece { length piece.new ≡ length piece.old }
        ensures is { OnOk result (IsIntake self.new) }
        ensures lines { OnOk result (self.new.lines ≡ self.old.lines) }
        ensures holds { (start : Option (List ℕ)) (handled : List ℕ) → Holds start (S.left source.old) handled self.old → OnOk result (Holds start (S.left source.new) handled self.new) }
        ensures once { GaveOnly 65536 (S.left source.old) (S.left source.new) }
        ensures more { IfOk result (λ is_more. is_more ≡ true → self.old.given < self.new.given) }
        ensures end { IfOk result (λ is_more. is_more ≡ false → IsAtEnd (S.left source.new)) }
        ensures kept { IfOk result (λ is_more. is_more ≡ false → self.new.bytes.items ≡ self.old.bytes.items) }
        ensures too_long { (start : Option (List ℕ)) (handled : List ℕ) → Holds start (S.left source.old) handled self.old → IsErrOf result Stop.TooLong → GaveTooMuch start (S.left source.new) }
        ensures only_too_long { (start : Option (List ℕ)) (handled : List ℕ) → Holds start (S.left source.old) handled self.old → IfGaveTooMuch start (S.left source.new) (IsErrOf result Stop.TooLong) }
        ensures counts { Counts (S.faults source.old) (S.faults source.new) result }
        ensures stops { IfErr result IsReadingStop }
    {
        let Ok(count) = source.read(piece) else {
            return Err(Stop::Outside);
        };
        if count > LONGEST_INPUT - self.given {
            return Err(Stop::TooLong);
        }
        self.given += count;
        self.bytes.extend_from_slice(&piece[..count])?;
        Ok(count > 0)
    }

    /// Hands out the text of the lines that were found, or all that is there, and lets it go.
    pub(crate) fn take_text(&mut self, is_full: bool) -> Result<Vec<u8>, AllocError>
        requires { IsIntake self.old }
        ensures is { OnOk result (IsIntake self.new) }
        ensures given { OnOk result (self.new.given ≡ self.old.given) }
        ensures parts { IfOk result (λ text. self.old.bytes.items ≡ text.items ++ self.new.bytes.items) }
        ensures whole { is_full ≡ true → IfOk result (λ text. AreWhole self.old.lines text.items) }
        ensures all { is_full ≡ false → OnOk result (self.new.bytes.items ≡ []) }
    {
        let end = if is_full { self.end } else { self.bytes.len() };
        let rest = self.bytes.split_off(end)?;
        self.lines = 0;
        self.end = 0;
        self.seen = 0;
        Ok(replace(&mut self.bytes, rest))
    }
}
