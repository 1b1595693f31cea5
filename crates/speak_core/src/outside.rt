// The devices, with the stops of a run in place of their own faults.

ghost use Rattle.std.specs.Prelude.{◌≡◌, ◌≤◌, OnOk, IfErr};
ghost use Rattle.std.specs.Io.KnownBytes.{Appends};
ghost use Rattle.norm_base.specs.Bytes.{AppendsPrefix};
ghost use Rattle.norm_base.specs.Files.{Fetches};
ghost use Rattle.speak_core.specs.Stops.{Counts, IsDeviceStop};

use crate::stop::Stop;
use norm_base::{FetchFault, Shelf, Sink, SinkFault, put_all};

/// Writes all of the bytes.
pub(crate) fn put<O: Sink>(sink: &mut O, bytes: &[u8]) -> Result<(), Stop>
    ensures all { OnOk result (Appends (O.held sink.old) (O.held sink.new) bytes.now) }
    ensures front { AppendsPrefix (O.held sink.old) (O.held sink.new) bytes.now }
    ensures counts { Counts (O.faults sink.old) (O.faults sink.new) result }
    ensures later { O.faults sink.old ≤ O.faults sink.new }
    ensures stops { IfErr result IsDeviceStop }
{
    match put_all(sink, bytes) {
        Ok(()) => Ok(()),
        Err(SinkFault::Failed) => Err(Stop::Outside),
        Err(SinkFault::Memory) => Err(Stop::Memory),
    }
}

/// The file of this name, where there is one.
pub(crate) fn fetch<H: Shelf>(shelf: &mut H, name: &str) -> Result<Option<Vec<u8>>, Stop>
    ensures files { H.files shelf.new ≡ H.files shelf.old }
    ensures found { Fetches (H.files shelf.old) name.now result }
    ensures counts { Counts (H.faults shelf.old) (H.faults shelf.new) result }
    ensures stops { IfErr result IsDeviceStop }
{
    match shelf.fetch(name) {
        Ok(file) => Ok(file),
        Err(FetchFault::Failed) => Err(Stop::Outside),
        Err(FetchFault::Memory) => Err(Stop::Memory),
    }
}
