// The states of a cascade, and their moves.

/// The greatest number of parts of a cascade.
pub const MOST_PARTS: usize = 4;

/// A state of each part of a cascade, from the first to the last, and 0 past the last one.
pub type States = [usize; MOST_PARTS];

/// A state of a cascade: its number, a state of each part, 0 past the last one, and the filters. Bit `i` of these is 1 where the
/// filter before part `i + 2` is closed, counted from part 1.
#[derive(Clone, Copy, Debug, PartialEq, Eq)]
pub struct Tuple {
    pub cascade: u32,
    pub states: States,
    pub filters: u32,
}

/// A move of a tuple to the tuple of these filters and states. Label 0 is the empty label. The weight is in ten-thousandths.
///
/// Arcs are ordered by input, output, weight, filters and then states.
#[derive(Clone, Copy, Debug, PartialEq, Eq, PartialOrd, Ord)]
pub struct TupleArc {
    pub input: u16,
    pub output: u16,
    pub weight: u64,
    pub filters: u32,
    pub states: States,
}

/// All that a search asks of a tuple: its final weight, and its moves in order.
#[derive(Debug, Drop)]
pub struct Expansion {
    pub finality: Option<u64>,
    pub arcs: Vec<TupleArc>,
}
