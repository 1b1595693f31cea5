// The entries of a lexicon.

/// A string that is read, a string that is written for it, and a weight.
///
/// A label is a byte from 1 to 255, the mark of the beginning (256) or that of the end (257). The weight is in
/// ten-thousandths, and below 2^54.
#[derive(Drop)]
pub struct Entry {
    pub input: Vec<u16>,
    pub output: Vec<u16>,
    pub weight: u64,
}
