// The filter between two transducers, and their moves.

/// Whether the first of two transducers may move alone.
#[derive(Clone, Copy, Debug, PartialEq, Eq, Hash)]
pub enum Filter {
    /// It may.
    Open,
    /// It may not, since the second has moved alone.
    Closed,
}

/// Which of two transducers moves.
#[derive(Clone, Copy, Debug, PartialEq, Eq)]
pub enum Taken {
    /// Both, the second by the label that the first writes.
    Both,
    /// The first alone, which writes nothing.
    First,
    /// The second alone, which reads nothing.
    Second,
}

/// A move of two transducers together.
///
/// Label 0 is the empty label. The weight is in ten-thousandths. `qa` and `qb` are the states after the move, and
/// `filter` is the filter after it.
#[derive(Clone, Copy, Debug, PartialEq, Eq)]
pub struct Move {
    pub input: u16,
    pub output: u16,
    pub weight: u64,
    pub qa: usize,
    pub qb: usize,
    pub filter: Filter,
    pub taken: Taken,
}
