// What codes are made of. Their words are told in `specs/Codes`.

use crate::tuples::MOST_PARTS;

/// The greatest number of words of a code.
pub const MOST_WORDS: usize = 2048;

/// The number of words that name a tuple: its cascade, a state of each part, and the filters.
pub const KEY_WORDS: usize = MOST_PARTS + 2;

/// The number of words before those of the first arc: the length, the key, and two of the final weight.
pub(crate) const HEAD_WORDS: usize = MOST_PARTS + 5;

/// The number of words of an arc: its labels with its filters, its weight, and a state of each part.
pub(crate) const ARC_WORDS: usize = MOST_PARTS + 2;

/// The words that name a tuple. They are the words of its code from word 1 on.
pub type Key = [u64; KEY_WORDS];

/// Room for a code.
pub type CodeRoom = [u64; MOST_WORDS];

/// The number of words of a code: those that were written, or more than there is room for.
#[derive(Clone, Copy, Debug, PartialEq, Eq)]
pub enum Encoded {
    Fits(usize),
    Wide(usize),
}
