//! What a line of text says: its tokens by a classifier, and their words by a verbaliser.
//!
//! [`load`] builds the rules of both cascades over one table ([`shared_cascade`]), whose callers it hands out. By one of them
//! [`Normaliser::classify_line`] gives the classifier's output for a line, and [`Normaliser::speak_line`] its words, whatever other callers do
//! at the same time. Each leaves its caller ready for the next line. Lines one after the other may use one [`Room`] for their searches.
//!
//! The contracts speak of relations alone. `specs/Loads.antt` says which rules are refused, `specs/Lines.antt` what a line is
//! classified as, and `specs/Words.antt` which words its tokens have: each record's are the output of the least reading of the
//! verbaliser's relation over all of the record's texts. `specs/Searches.antt` says what comes into a caller's log.
//! `specs/Parts.antt` speaks of the private calls alone.
#![tactic(auto)]

mod classifying;
mod faults;
mod lines;
mod loading;
mod normalisers;
mod preparing;
mod searching;
mod sharing;
mod stalling;
mod verbalising;

pub use faults::{LineFault, LoadFault};
pub use least_path::Room;
pub use loading::load;
pub use normalisers::{Normaliser, Spoken};
pub use shared_cascade::{Caller, How, Stalled, Swept, Tally};
