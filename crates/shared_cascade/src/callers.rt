// Callers.

use crate::facts::Grammars;
use crate::tallies::Tally;
use place_words::Seat;
use state_tuples::{CodeRoom, MOST_WORDS, TupleArc};
use std::alloc::{AllocError, Global};
use std::snapshot::Snapshot;

/// One who uses the table of a [`Shared`]. It has a seat there, room for a code and for the moves of one tuple, and a tally.
#[derive(Drop)]
pub struct Caller {
    pub(crate) seat: Seat<Grammars>,
    pub(crate) room: Box<CodeRoom>,
    pub(crate) arcs: Vec<TupleArc>,
    pub(crate) spare: Vec<TupleArc>,
    pub(crate) tally: Tally,
    // The seat as it was when the tally began, for contracts alone.
    pub(crate) before: Snapshot<Seat<Grammars>>,
}

impl Caller {
    ghost use Rattle.std.specs.Prelude.{◌≡◌, ◌<◌, ◌++◌, List, IfOk, []};
    ghost use Rattle.place_words.specs.declared.view.Entry.{Entry};
    ghost use Rattle.shared_cascade.specs.declared.shared.Shared.{Shared};
    ghost use Rattle.shared_cascade.specs.Callers.{IsReady, cascades_in, log_before, log_of, places_in, seats_of};
    ghost use Rattle.shared_cascade.specs.Since.{IsTally};
    ghost use Rattle.shared_cascade.specs.Tallies.{no_tally};

    /// The caller of this seat, with nothing counted.
    pub(crate) fn new(alloc: Global, seat: Seat<Grammars>) -> Result<Caller, AllocError>
        ensures seat { IfOk result (λ c. c.seat ≡ seat) }
        ensures tally { IfOk result (λ c. c.tally ≡ no_tally) }
        ensures before { IfOk result (λ c. c.before.value ≡ seat) }
    {
        let before = Snapshot::of(&seat);
        Ok(Caller {
            seat,
            room: Box::new(alloc, [0; MOST_WORDS])?,
            arcs: Vec::new(alloc),
            spare: Vec::new(alloc),
            tally: Tally::none(),
            before,
        })
    }

    /// What came of its looks since this was last asked, or since it was opened. It begins anew. It takes no memory.
    pub fn take_tally(&mut self) -> Tally
        ensures tally { result ≡ self.old.tally }
        ensures since { (s : Shared) → IsReady s self.old → (es : List Entry) × (log_of self.old ≡ log_before self.old ++ es) × IsTally (cascades_in s) (places_in s) es result }
        ensures alone { (s : Shared) → IsReady s self.old → seats_of self.old ≡ 1 → result.no_place ≡ 0 }
        ensures first { (s : Shared) → IsReady s self.old → seats_of self.old ≡ 1 → log_before self.old ≡ [] → 0 < result.looks → 0 < result.absent }
        ensures anew { self.new.tally ≡ no_tally }
        ensures seat { self.new.seat ≡ self.old.seat }
        ensures begun { log_before self.new ≡ log_of self.old }
        ensures ready { (s : Shared) → IsReady s self.old → IsReady s self.new }
    {
        let tally = self.tally;
        self.tally = Tally::none();
        self.before = Snapshot::of(&self.seat);
        tally
    }
}
