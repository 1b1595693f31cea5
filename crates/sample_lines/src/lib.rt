//! The sample: lines that a stated generator makes, the same at each run, the setup and grammars that they are spoken by, and the
//! summary of what they said.
//!
//! `specs/Draws.antt` says what a draw is, and `specs/Lines.antt` what a line is made of, and what lines come one after another;
//! [`sample_line`] and [`sample_batch`] make exactly these.
//! [`toy_shelf`] holds the files of `specs/Toy.antt` and no others. A [`Summary`] is told line by line what was said, in a size that doesn't grow
//! with their number; `specs/Summary.antt` says what it is of all lines, and its text.
#![tactic(auto)]

mod batch;
mod draws;
mod lines;
mod summing;
mod toy;

pub use batch::sample_batch;
pub use lines::sample_line;
pub use summing::Summary;
pub use toy::{TOY_CLASSIFY, TOY_SETUP, TOY_VERBALIZE, toy_shelf};
