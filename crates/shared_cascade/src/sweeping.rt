// Sweeps of the table.

ghost use Rattle.std.specs.Prelude.{◌≡◌, ◌∷◌, ◌<◌, ◌+◌, ◌^◌, ℕ, List, []};
ghost use Rattle.place_words.specs.declared.view.Entry.{Entry};
ghost use Rattle.place_words.specs.declared.view.Entry.TheVariants.{Empty};
ghost use Rattle.shared_cascade.specs.Callers.{IsReady, places_in};
ghost use Rattle.shared_cascade.specs.Sweeps.{AreRounds, IsRound, SweptBy, nothing_swept};

use crate::callers::Caller;
use crate::shared::Shared;
use place_table::Emptied;

/// How many times a sweep made a place empty, and how many times it found no code there that it could take away.
#[derive(Clone, Copy, Debug, PartialEq, Eq)]
pub struct Swept {
    pub done: u64,
    pub was: u64,
}

impl Shared {
    /// Empties each place in order, so many times over. It takes no memory, and the caller's tally has nothing of it.
    pub fn sweep(&self, caller: &mut Caller, rounds: u32) -> Swept
        requires ready { IsReady self.now caller.old }
        ensures ready { IsReady self.now caller.new }
        ensures swept { (es : List Entry) × AreRounds (places_in self.now) rounds es × SweptBy self.now caller.old caller.new es nothing_swept result }
    {
        let mut swept = Swept { done: 0, was: 0 };
        for _round in 0..rounds {
            self.sweep_once(caller, &mut swept);
        }
        swept
    }

    /// Empties each place once, in order.
    fn sweep_once(&self, caller: &mut Caller, swept: &mut Swept)
        requires ready { IsReady self.now caller.old }
        requires room { swept.old.done + swept.old.was + places_in self.now < 2 ^ 64 }
        ensures swept { (es : List Entry) × IsRound (places_in self.now) es × SweptBy self.now caller.old caller.new es swept.old swept.new }
        ensures all { swept.new.done + swept.new.was ≡ swept.old.done + swept.old.was + places_in self.now }
    {
        for place in 0..self.table.words().places() {
            self.sweep_one(caller, place, swept);
        }
    }

    /// Empties a place.
    fn sweep_one(&self, caller: &mut Caller, place: u32, swept: &mut Swept)
        requires ready { IsReady self.now caller.old }
        requires place { place < places_in self.now }
        requires room { swept.old.done + swept.old.was + 1 < 2 ^ 64 }
        ensures swept { (w : ℕ) × SweptBy self.now caller.old caller.new (Empty place w ∷ []) swept.old swept.new }
        ensures all { swept.new.done + swept.new.was ≡ swept.old.done + swept.old.was + 1 }
    {
        match self.table.empty_place(&mut caller.seat, place) {
            Emptied::Done => swept.done += 1,
            Emptied::Was(_) => swept.was += 1,
        }
    }
}
