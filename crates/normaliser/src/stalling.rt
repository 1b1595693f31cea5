//! Callers that stop in the middle.

ghost use Rattle.std.specs.Prelude.{◌<◌, List};
ghost use Rattle.place_words.specs.declared.view.Entry.{Entry};
ghost use Rattle.shared_cascade.specs.Stalls.{HasStalled, IsStall};
ghost use Rattle.normaliser.specs.Searches.{IsCallerOf, places_of};

use crate::normalisers::Normaliser;
use shared_cascade::{Caller, Stalled};

impl Normaliser {
    /// Lets a caller stop at a place of the table: it claims the place if that is empty, or else if a code is shown there that nobody reads.
    /// Where both fail it knocks. It takes the caller for good, and no memory.
    pub fn stall(&self, caller: Caller, place: u32) -> Stalled
        requires ready { IsCallerOf self.now caller }
        requires place { place < places_of self.now }
        ensures stalled { (es : List Entry) × IsStall place result.how es × HasStalled self.now.shared caller place es result }
    {
        self.shared.stall(caller, place)
    }
}
