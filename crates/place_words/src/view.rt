//! What a seat knows. Clauses alone see it: no value of these types is made at run time.

/// A word that was read, and where it stands in its place.
pub struct Read {
    pub index: u64,
    pub word: u64,
}

/// What a seat is at: a place, and what it has read or stored there so far, in order.
pub enum Mode {
    Idle,
    /// The place was not shown when the seat came.
    Knocked(u64),
    Reading(u64, [Read; 0]),
    Writing(u64, [u64; 0]),
}

/// One step: its place, then the word that it found there. Of `Leave` the last says whether what was sought was
/// found; of `Read` and `Write` the second is the index of the word, and the last of `Write` is what was stored.
pub enum Entry {
    Knock(u64, u64),
    Leave(u64, u64, bool),
    Read(u64, u64, u64),
    TakeEmpty(u64, u64),
    TakeShown(u64, u64),
    Write(u64, u64, u64),
    Show(u64, u64),
    Empty(u64, u64),
}

/// The seats from `from` up to `to`, which is one seat once they are dealt, the tag of the fact, how many seats were
/// opened, and what the seat is at and has done. A clause reads an array here as a list of any length.
pub struct View<T> {
    pub from: u64,
    pub to: u64,
    pub tag: T,
    pub seats: u64,
    pub mode: Mode,
    pub log: [Entry; 0],
}
