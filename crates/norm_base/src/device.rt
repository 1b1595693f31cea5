ghost use Rattle.std.specs.Prelude.{◌≡◌, ◌<◌, ◌^◌, ℕ, List, length, IfOk, OnOk, OnErr};
ghost use Rattle.std.specs.declared.option.Option.{Option};
ghost use Rattle.std.specs.Io.{ReadsAtMost, WritesAtMost};
ghost use Rattle.std.specs.Io.KnownBytes.{Appends, ReadConsumes, WriteAppends};
ghost use Rattle.norm_base.specs.Causes.{ReadCause, WriteCause, FetchCause};
ghost use Rattle.norm_base.specs.Bytes.{AppendsPrefix};
ghost use Rattle.norm_base.specs.Files.{Files, Fetches};

/// The source failed, and its count of faults rose (at 2^64 - 1 it stays).
#[derive(Clone, Copy, Debug, PartialEq, Eq)]
pub struct Failed;

/// Why a shelf gave no answer.
#[derive(Clone, Copy, Debug, PartialEq, Eq)]
pub enum FetchFault {
    /// The shelf failed, and its count of faults rose (at 2^64 - 1 it stays).
    Failed,
    /// There was no memory for the file.
    Memory,
}

/// Why a sink took nothing.
#[derive(Clone, Copy, Debug, PartialEq, Eq)]
pub enum SinkFault {
    /// The sink failed, and its count of faults rose (at 2^64 - 1 it stays).
    Failed,
    /// There was no memory for the bytes.
    Memory,
}

/// Where the input comes from.
pub trait Source {
    /// The bytes that are left, where they are known.
    ghost left: { Self → Option (List ℕ) };

    /// How often the source has failed.
    ghost faults: { Self → ℕ };

    /// Gives the next bytes at the front of `into`, and answers how many. 0 is the end of the
    /// input. After a fault the bytes that are left are as before.
    fn read(&mut self, into: &mut [u8]) -> Result<usize, Failed>
        requires { 0 < length into.old }
        ensures bound { ReadsAtMost result into.new }
        ensures bytes { ReadConsumes (left self.old) (left self.new) result into.new }
        ensures cause { ReadCause (faults self.old) (faults self.new) result };

    /// The count has a greatest value, at which it stays.
    ghost counted: { (source : Self) → faults source < 2 ^ 64 };
}

/// Where the output goes.
pub trait Sink {
    /// The bytes that it holds, where they are known.
    ghost held: { Self → Option (List ℕ) };

    /// How often the sink has failed.
    ghost faults: { Self → ℕ };

    /// Takes some bytes of the front of `from`, one at least, and answers how many. After a fault
    /// the sink holds what it held.
    fn write(&mut self, from: &[u8]) -> Result<usize, SinkFault>
        requires { 0 < length from.now }
        ensures bound { WritesAtMost result from.now }
        ensures some { IfOk result (λ n. 0 < n) }
        ensures bytes { WriteAppends (held self.old) (held self.new) result from.now }
        ensures cause { WriteCause (faults self.old) (faults self.new) result };

    /// The count has a greatest value, at which it stays.
    ghost counted: { (sink : Self) → faults sink < 2 ^ 64 };
}

/// Files by their names.
pub trait Shelf {
    /// The names and bytes of the files, where they are known. The first of a name counts.
    ghost files: { Self → Option Files };

    /// How often the shelf has failed.
    ghost faults: { Self → ℕ };

    /// The bytes of the file of this name, or `None` where there is none. No call changes the
    /// files.
    fn fetch(&mut self, name: &str) -> Result<Option<Vec<u8>>, FetchFault>
        ensures files { files self.new ≡ files self.old }
        ensures found { Fetches (files self.old) name.now result }
        ensures cause { FetchCause (faults self.old) (faults self.new) result };

    /// The count has a greatest value, at which it stays.
    ghost counted: { (shelf : Self) → faults shelf < 2 ^ 64 };
}

/// Writes all of the bytes, in as many calls as the sink wants. After a fault the sink has taken
/// a prefix of them.
pub fn put_all<O: Sink>(sink: &mut O, from: &[u8]) -> Result<(), SinkFault>
    ensures ok { OnOk result (Appends (O.held sink.old) (O.held sink.new) from.now) }
    ensures prefix { AppendsPrefix (O.held sink.old) (O.held sink.new) from.now }
    ensures cause { WriteCause (O.faults sink.old) (O.faults sink.new) result }
{
    let mut rest = from;
    while !rest.is_empty() {
        let count = sink.write(rest)?;
        rest = &rest[count..];
    }
    Ok(())
}
