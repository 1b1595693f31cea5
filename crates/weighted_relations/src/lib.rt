//! Readings, relations on them, and transducers as contracts see them.
#![tactic(auto)]

/// One arc of a transducer. Label 0 is the empty label.
#[derive(Clone, Copy, Debug, PartialEq, Eq)]
pub struct Arc {
    pub input: u16,
    pub output: u16,
    pub weight: u64,
    pub next: usize,
}
