//! The setup of a run: which grammars it takes, and which of their rules.
//!
//! [`read_setup`] reads the text of a setup. Its contract says exactly which setup a text is, or which fault it has first:
//! `specs/Forms.antt` defines what a line may be, and `specs/Setups.antt` what the lines come to. `specs/Parts.antt` speaks of the
//! private calls alone.
#![tactic(auto)]

mod entries;
mod found;
mod key;
mod line;
mod setup;

pub use setup::{MOST_RULES, Need, Setup, SetupFault, read_setup};
