//! The words of the command, read by `clap` as one simple command of options.
//!
//! `specs/Options.antt` is the command, and `specs/Asked.antt` what words ask for: a function of the words by `clap`'s own
//! definitions of which words it takes and what it finds in them. [`read_words`] answers exactly that.
#![tactic(auto)]

mod asked;
mod numbers;
mod options;
mod reading;

pub use asked::{Asked, Mode, Settings};
pub use reading::read_words;
