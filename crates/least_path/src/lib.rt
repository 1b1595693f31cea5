//! The least reading of a cascade at the inputs of a source: by weight, then by the length of the output, then by its bytes.
//!
//! [`least`] searches over the states of the source and the tuples of an `Expander`. Nodes have numbers, and outputs are back references into
//! one list (`outputs`). Searches one after the other may use one [`Room`] ([`least_in`]). Two searches are there:
//!
//! - By lists (`listing`): nodes are taken in the order in which they came, first those at this place of the source and then those after the next
//!   label. Each keeps the best way so far (`marks`, `nodes`), and one that gets a lesser way waits again (`relaxing`). Nodes from which the
//!   next label of the source can't be read are left out (`ending`), and those from which one edge alone leads on are passed over
//!   (`forcing`). It is right whatever the order: where nothing waits, each way has one that is kept and no greater. Where it takes nodes too
//!   often, it gives up.
//! - By an ordered queue (`searching`): the first entry that waits is the least way to its node, so each node is taken once; of the ways to a
//!   node the best one so far is kept, so that most wait once (`standings`, `reaching`).
//!
//! The contract says the whole result. What a reading is, and which is the least, is defined in `weighted_relations` (`Machines`,
//! `Least`), and so is why such searches are right (`Searches`, `SearchRuns`); what a cascade reads is defined in `state_tuples`. Of this
//! crate's own `specs`, `Starting` says what `least` is owed, `Counting` how many calls it makes at least, `Products` has the edges that both
//! follow, `Passing` says what it is to pass over nodes, `Paying` that each node is met after its calls, and the others speak of their lists.
//!
//! Its tests lie in `search_tests`, beside the plain program over one transducer and one line that it is held against.
#![tactic(auto)]

mod answers;
mod ending;
mod expanding;
mod forcing;
mod hashing;
mod listing;
mod lists;
mod marks;
mod node;
mod nodes;
mod outputs;
mod queue;
mod reaching;
mod relaxing;
mod rooms;
mod searching;
mod spreading;
mod standings;

pub use answers::Least;
pub use rooms::Room;
pub use searching::{least, least_by_queue, least_in};
