// What a caller does for one tuple.

ghost use Rattle.std.specs.Prelude.{◌≡◌, ◌<◌, ◌≤◌, ◌+◌, ◌*◌, ℕ, IfOk, List, OnErr, OnOk, [], length, nat_eq, true};
ghost use Rattle.std.specs.List.{filter};
ghost use Rattle.std.specs.Vec.{vec_capacity};
ghost use Rattle.place_words.specs.declared.view.Entry.{Entry};
ghost use Rattle.place_words.specs.Modes.{place_or, seen_of};
ghost use Rattle.place_words.specs.Seats.{IsSeatOf, mode_of, view_of};
ghost use Rattle.place_words.specs.Steps.{left};
ghost use Rattle.place_table.specs.Entries.{logged};
ghost use Rattle.place_table.specs.Tables.{words_of};
ghost use Rattle.state_tuples.specs.Calls.{IsKnown};
ghost use Rattle.state_tuples.specs.Codes.{key};
ghost use Rattle.shared_cascade.specs.Callers.{Adds, FindsPlace, HasMade, IsAtRest, Missing, Visited, cascades_in, grammars_of, log_before, looks_of, places_in};
ghost use Rattle.shared_cascade.specs.Episodes.{Made};
ghost use Rattle.shared_cascade.specs.Held.{IsHeld, LeavesSo, OfOne};
ghost use Rattle.shared_cascade.specs.Tallies.{with_outcome};
ghost use Rattle.shared_cascade.specs.declared.tallies.Outcome.TheVariants.{Shown, Wide};

use crate::callers::Caller;
use crate::holding::{read_end, read_readers};
use crate::shared::Shared;
use crate::tallies::Outcome;
use place_table::{Find, Publish};
use state_tuples::{Encoded, Tuple, TupleArc, encode_arcs, key_of};
use std::alloc::AllocError;

/// What a visit found: the code, at the place where the caller stays; or no code, so that it has made the moves, and this is the final weight.
pub(crate) enum Visit {
    Held,
    Made(Option<u64>),
}

impl Shared {
    /// Looks for the expansion of a tuple. Where the table has it, the caller stays at its place. Where it has none it is made, and published
    /// if there is room for it.
    #[inline(always)]
    pub(crate) fn visit(&self, caller: &mut Caller, t: &Tuple) -> Result<Visit, AllocError>
        requires rest { IsAtRest self.now caller.old }
        requires known { IsKnown (cascades_in self.now) t.now }
        ensures visited { IfOk result (Visited self.now caller.old caller.new t.now) }
        ensures missing { OnErr result (Missing self.now caller.old caller.new t.now) }
    {
        let key = key_of(t);
        match self.table.find(&mut caller.seat, &key) {
            Find::Holding(_) => Ok(Visit::Held),
            Find::Absent(_, _) => Ok(Visit::Made(self.make(caller, t)?)),
        }
    }

    /// Takes the arcs that read the label from the place where the caller stays, and leaves it. Where memory is wanting it has left before
    /// `into` is emptied.
    pub(crate) fn take_arcs(
        &self,
        caller: &mut Caller,
        label: u16,
        into: &mut Vec<TupleArc>,
    ) -> Result<(), AllocError>
        requires held { IsHeld (words_of self.now.table) caller.old.seat }
        ensures own { IsSeatOf (words_of self.now.table) caller.new.seat }
        ensures left { LeavesSo (view_of caller.old.seat) (view_of caller.new.seat) (λ rs. OnOk result (length rs ≤ 10 + 6 * length into.new.items)) }
        ensures tally { caller.new.tally ≡ with_outcome Shown caller.old.tally }
        ensures before { log_before caller.new ≡ log_before caller.old }
        ensures arcs { OnOk result (OfOne (grammars_of self.now) (seen_of (mode_of caller.old.seat)) (λ end arcs. into.new.items ≡ filter (λ a. nat_eq a.input label) arcs)) }
        ensures none { OnErr result (into.new.items ≡ []) }
        ensures full { OnErr result (OfOne (grammars_of self.now) (seen_of (mode_of caller.old.seat)) (λ end arcs. vec_capacity into.old < length (filter (λ a. nat_eq a.input label) arcs))) }
    {
        match read_readers(self.table.words(), &mut caller.seat, label, into) {
            Ok(()) => {
                self.leave(caller);
                Ok(())
            }
            Err(e) => {
                self.leave(caller);
                into.clear();
                Err(e)
            }
        }
    }

    /// Takes the final weight from the place where the caller stays, and leaves it. It takes no memory.
    pub(crate) fn take_end(&self, caller: &mut Caller) -> Option<u64>
        requires held { IsHeld (words_of self.now.table) caller.old.seat }
        ensures own { IsSeatOf (words_of self.now.table) caller.new.seat }
        ensures left { LeavesSo (view_of caller.old.seat) (view_of caller.new.seat) (λ rs. length rs ≤ 2) }
        ensures tally { caller.new.tally ≡ with_outcome Shown caller.old.tally }
        ensures before { log_before caller.new ≡ log_before caller.old }
        ensures end { OfOne (grammars_of self.now) (seen_of (mode_of caller.old.seat)) (λ end arcs. result ≡ end) }
    {
        let end = read_end(self.table.words(), &mut caller.seat);
        self.leave(caller);
        end
    }

    /// Leaves the place where the caller has read what it sought.
    fn leave(&self, caller: &mut Caller)
        requires held { IsHeld (words_of self.now.table) caller.old.seat }
        ensures own { IsSeatOf (words_of self.now.table) caller.new.seat }
        ensures left { (w : ℕ) × (view_of caller.new.seat ≡ left (view_of caller.old.seat) (place_or 0 (mode_of caller.old.seat)) w true) }
        ensures tally { caller.new.tally ≡ with_outcome Shown caller.old.tally }
        ensures before { log_before caller.new ≡ log_before caller.old }
    {
        let _ = self.table.words().leave(&mut caller.seat, true);
        caller.tally.count(Outcome::Shown);
    }

    /// Makes the expansion of a tuple, and publishes it if there is room for it. Its final weight is the answer. It is seldom called.
    #[cold]
    fn make(&self, caller: &mut Caller, t: &Tuple) -> Result<Option<u64>, AllocError>
        requires rest { IsAtRest self.now caller.old }
        requires known { IsKnown (cascades_in self.now) t.now }
        ensures rest { IsAtRest self.now caller.new }
        ensures found { IfOk result (HasMade self.now caller.new t.now) }
        ensures looks { looks_of self.now caller.new ≡ looks_of self.now caller.old }
        ensures made { OnOk result (Adds caller.old caller.new (λ o es. Made (cascades_in self.now) (places_in self.now) (key t.now) o es × FindsPlace caller.old o)) }
        ensures before { log_before caller.new ≡ log_before caller.old }
        ensures nothing { OnErr result ((view_of caller.new.seat ≡ view_of caller.old.seat) × (caller.new.tally ≡ with_outcome Wide caller.old.tally)) }
    {
        let cascade = self.cascade_of(t);
        match cascade.expand_into(t, &mut caller.arcs, &mut caller.spare) {
            Ok(finality) => {
                let outcome = self.publish(caller, t, finality);
                caller.tally.count(outcome);
                Ok(finality)
            }
            Err(e) => {
                caller.tally.count(Outcome::Wide);
                Err(e)
            }
        }
    }

    /// Publishes the expansion that the caller has made of a tuple.
    fn publish(&self, caller: &mut Caller, t: &Tuple, finality: Option<u64>) -> Outcome
        requires rest { IsAtRest self.now caller.old }
        requires made { HasMade self.now caller.old t.now finality }
        ensures rest { IsAtRest self.now caller.new }
        ensures kept { caller.new.arcs.items ≡ caller.old.arcs.items }
        ensures looks { looks_of self.now caller.new ≡ looks_of self.now caller.old }
        ensures tally { caller.new.tally ≡ caller.old.tally }
        ensures before { log_before caller.new ≡ log_before caller.old }
        ensures alone { FindsPlace caller.old result }
        ensures published { (es : List Entry) × Made (cascades_in self.now) (places_in self.now) (key t.now) result es × (view_of caller.new.seat ≡ logged (view_of caller.old.seat) es) }
    {
        match encode_arcs(t, finality, &caller.arcs, &mut caller.room) {
            Encoded::Wide(_) => Outcome::Wide,
            Encoded::Fits(length) => {
                match self.table.publish(&mut caller.seat, &caller.room[..length]) {
                    Publish::Published(_) => Outcome::Published,
                    Publish::NoPlace(_, _) => Outcome::NoPlace,
                }
            }
        }
    }
}
