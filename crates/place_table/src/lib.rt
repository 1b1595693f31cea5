//! A table of codes that seats share, by the keys of the codes.
//!
//! A code may stand at the ways of its key: at most four places, which the key tells. [`Table::look`] copies the code of a key
//! from the first way that shows it, [`Table::find`] stays at that way so that its caller reads there what it wants, [`Table::publish`] puts a code on a way, and [`Table::empty_place`] makes a place empty. None
//! takes memory or waits, whatever other seats do at the same time.
//!
//! A contract says what a call adds to the log of its seat, and how its answer follows from that: `specs/Ways`, `Looks`,
//! `Publishings` and `Emptyings`. What the answers are where there is one seat alone is `specs/Alone`.
#![tactic(auto)]

mod answers;
mod looks;
mod publishing;
mod reads;
mod table;
mod ways;

pub use answers::{Emptied, Find, Found, Look, Publish, Refusal};
pub use table::Table;
