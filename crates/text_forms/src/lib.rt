//! What grammars of texts are made of: bytes at the front, runs of a class of bytes, digits and decimals, and one thing after another.
//!
//! `specs/Bytes.antt` says what a run is, `specs/Numbers.antt` what digits and decimals mean, `specs/Steps.antt` what a list of
//! steps is and which is the longest, and `specs/Answers.antt` what a reader answers that finds one thing at the front of a text.
//! Their laws (a text has one run, one longest list, one decimal) are in `proofs/`.
#![tactic(auto)]

mod bytes;
mod numbers;

pub use bytes::{ByteClass, ByteKind, after_byte, front_byte, span};
pub use numbers::{decimal, value_below};
