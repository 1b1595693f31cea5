//! The outside as the normaliser sees it: where bytes come from, where they go, and files by
//! their names.
//!
//! - `Source`, `Sink` and `Shelf` are the three ways to the outside. Each counts its faults, and
//!   answers `Failed` only in a call in which the count rose; every other answer leaves the count
//!   (`specs/Causes.antt`, `specs/Counts.antt`).
//! - `put_all` writes all bytes of a slice, or a prefix of them where the sink fails
//!   (`specs/Bytes.antt`).
//! - `SureSource`, `SureSink`, `SureShelf` are in memory and never fail; `MemSource`, `MemSink`,
//!   `MemShelf` fail at the calls that they are told. Their contracts say each byte that they
//!   give or take (`specs/Devices.antt`, `specs/Calls.antt`).
//! - `ReaderSource`, `WriterSink` and `FolderShelf` stand over std's readers, writers and files.
//! - `Name` is the name of a file or of a rule.
#![tactic(auto)]

mod calls;
mod device;
mod folder;
mod memory;
mod name;
mod streams;
mod sure;

pub use device::{Failed, FetchFault, Shelf, Sink, SinkFault, Source, put_all};
pub use folder::FolderShelf;
pub use memory::{MemShelf, MemSink, MemSource};
pub use name::Name;
pub use streams::{ReaderSource, WriterSink};
pub use sure::{SureShelf, SureSink, SureSource};
