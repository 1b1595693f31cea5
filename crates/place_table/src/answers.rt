//! What the calls of a table answer.

/// What a look found on a way that it passed: a code with another key, the seat that claims the place, or nothing.
#[derive(Clone, Copy, Debug, PartialEq, Eq)]
pub enum Found {
    /// The key of the code that is shown there.
    Other([u64; 6]),
    /// The number of the seat.
    Claimed(u32),
    Empty,
}

/// The length of the code in words, or what was found on each way, and how many ways there are. Past them there is
/// [`Found::Empty`].
#[derive(Clone, Copy, Debug, PartialEq, Eq)]
pub enum Look {
    Shown(usize),
    Absent([Found; 4], u32),
}

/// The place that the seat reads now, or what was found on each way, as in [`Look`].
#[derive(Clone, Copy, Debug, PartialEq, Eq)]
pub enum Find {
    Holding(u32),
    Absent([Found; 4], u32),
}

/// Why a way was refused, by the last word that was found there.
#[derive(Clone, Copy, Debug, PartialEq, Eq)]
pub enum Refusal {
    /// The number of the seat that claims the place.
    Claimed(u32),
    /// How many seats are at the place, at least one.
    Held(u32),
    /// Nobody is at the place, but it became another between the two tries: the two state words that were found.
    Changed(u64, u64),
}

/// The place where the code is shown now, or why each way was refused, and how many ways there are. Past them there is
/// `Held(0)`.
#[derive(Clone, Copy, Debug, PartialEq, Eq)]
pub enum Publish {
    Published(u32),
    NoPlace([Refusal; 4], u32),
}

/// The place is empty now, or the state word that was found there.
#[derive(Clone, Copy, Debug, PartialEq, Eq)]
pub enum Emptied {
    Done,
    Was(u64),
}
