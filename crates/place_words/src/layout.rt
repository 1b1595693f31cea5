//! How the words of the places lie, and what a state word says.

/// The most words of a code, and so the words of a place beside its state word.
pub const CODE_WORDS: usize = 2048;

/// The words of a place: its state word, and those of a code behind it.
pub const PLACE_WORDS: usize = 2049;

/// A state word is a state times this, and a count of readers. The state is 0 for an empty place, 1 for a shown one,
/// and 2 and a seat's number for one that the seat claims. So this is the word of a shown place without readers.
pub const STATE: u64 = 4_294_967_296;
