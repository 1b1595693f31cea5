//! Expressions that are checked when they are made: each meets the rules on kinds, its texts hold labels from 1 to 257, and
//! its size is below 2^22.
//!
//! A [`Value`] is such an expression with its size and kinds. The functions make one node each of values, or answer which rule the
//! node breaks. `specs/Sound.antt` says the rules as a test, `specs/Nodes.antt` what each node is and when it is refused.
#![tactic(auto)]

mod fault;
mod lists;
mod nodes;
mod value;

pub use fault::{CheckFault, KindFault};
pub use lists::{concat, maybe, plus, times, union};
pub use nodes::{LIMIT, compose, cross, invert, minus, project, rewrite, star, text, weighted};
pub use value::Value;
