//! The lines of a text.
//!
//! A line ends with a line feed. One carriage return just before that is taken off, and a last line without a line feed counts and
//! keeps its bytes. `specs/Lines.antt` defines the list of a text's lines; [`first_line`] cuts off the first of them.
#![tactic(auto)]

mod cuts;

pub use cuts::first_line;
