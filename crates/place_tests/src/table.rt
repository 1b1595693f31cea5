//! The table of places.

mod alone;
mod calls;
mod codes;
mod finding;
mod hammers;
mod rows;
mod ways;
