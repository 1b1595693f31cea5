//! All orders of a record's fields.
//!
//! `specs/Orders.antt` defines the texts of a record. [`OrderSource`] makes them state by state, as they are asked for: a state is
//! what is left to write (`specs/Remainders.antt`), so it knows which fields are to come, and not the order of those before.
//! [`orders`] asks for all of them, and gives them as one acceptor.
#![tactic(auto)]

mod acceptors;
mod numbered;
mod sources;
mod states;
mod tables;

pub use acceptors::orders;
pub use sources::OrderSource;
