//! String files: a line is an entry, of one field that is read and written, of one that is read and one that is written, or of
//! these with a weight.
//!
//! [`lexicon`] makes the union of the entries of a file's bytes, or answers its first line that isn't an entry, or that the union
//! is too large. `specs/Fields.antt` says what the fields of a line are, `specs/StringFiles.antt` what a line and a file mean.
#![tactic(auto)]

mod entries;
mod fault;
mod fields;

pub use entries::lexicon;
pub use fault::LexiconFault;
