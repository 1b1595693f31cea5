//! Places that seats in several threads fill, read and use again by single atomic steps, without a lock or a wait.
//!
//! [`open`] makes the places, all empty, and the seats, one for each thread. A seat is at most at one place at a time.
//! It reads a code that is shown there between [`Words::knock`] and [`Words::leave`]. It claims a place by
//! [`Words::take_empty`] or [`Words::take_shown`], stores the words of a right code in order, and shows them.
//! [`Words::empty`] gives a place back that nobody reads. Each of these calls is one step of `atomic_table`, in one
//! order with the steps of all other seats.
//!
//! Contracts see the view of a seat: what it is at, and the log of its own steps with the word that each found
//! (`specs/Modes` and `Steps`). The rule over the words and all views, which holds between any two steps, is
//! `specs/Rule`; what holds of every step is `specs/Laws`, and what one seat alone knows is `specs/Alone`.
#![tactic(auto)]

mod fact;
mod laws;
mod layout;
mod plays;
mod view;
mod words;

pub use fact::Fact;
pub use laws::{places_within, readers_keep, starts_lawful, steps_keep, writers_claim};
pub use layout::{CODE_WORDS, PLACE_WORDS, STATE};
pub use view::{Entry, Mode, Read, View};
pub use words::{Seat, Words, open};
