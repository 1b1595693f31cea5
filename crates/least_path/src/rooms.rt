// The memory of searches.

use crate::relaxing::Relaxed;
use state_tuples::TupleArc;
use std::alloc::Global;

/// Memory for searches, which one after the other may use. Nothing of a search is known to the next.
#[derive(Drop)]
pub struct Room {
    pub(crate) search: Relaxed,
    pub(crate) buffer: Vec<TupleArc>,
}

impl Room {
    /// It takes no memory yet.
    pub fn new(alloc: Global) -> Room {
        Room {
            search: Relaxed::new(alloc),
            buffer: Vec::new(alloc),
        }
    }
}
