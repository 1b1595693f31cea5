//! The steps of seats on the words of a place.

mod board;
mod model;
mod orders;
mod player;
mod rows;
mod threads;
