// What gives a search the moves of tuples.

ghost use Rattle.std.specs.Prelude.{◌≡◌, ◌≤◌, All, IfOk, OnErr, OnOk, false, []};
ghost use Rattle.state_tuples.specs.Cascades.{Cascaded, IsSound};
ghost use Rattle.state_tuples.specs.Calls.{AreArcsOn, CannotRead, GoesOnward, HaveOwnNumbers, IsCounted, IsEndOf, IsKnown};

use crate::onward::Onward;
use crate::tuples::{Tuple, TupleArc};
use std::alloc::AllocError;

/// Gives the moves and the final weights of the tuples of some cascades.
pub trait Expander {
    ghost use Rattle.std.specs.Prelude.{List, Option, ℕ};
    ghost use Rattle.state_tuples.specs.Cascades.{Cascaded};

    /// Its cascades. No call changes them.
    ghost cascades: { Self → List Cascaded };

    /// Whether it may be called.
    ghost is_ready: { Self → Type 0 };

    /// An earlier and a later value of it: calls that answer leave it so.
    ghost goes_on: { Self → Self → Type 0 };

    /// An earlier and a later value of it: a call that is refused memory leaves it so.
    ghost gives_up: { Self → Self → Type 0 };

    /// How many calls were made, where it tells.
    ghost calls: { Self → Option ℕ };

    /// Puts the moves of the tuple that read the label into `into`, in order, in place of what is there. Label 0 asks for those that
    /// read nothing.
    fn arcs_on(&mut self, t: &Tuple, label: u16, into: &mut Vec<TupleArc>) -> Result<(), AllocError>
        requires ready { is_ready self.old }
        requires known { IsKnown (cascades self.old) t.now }
        requires label { label ≤ 257 }
        ensures arcs { OnOk result (AreArcsOn (cascades self.old) t.now label into.new.items) }
        ensures none { OnErr result (into.new.items ≡ []) }
        ensures ready { is_ready self.new }
        ensures on { OnOk result (goes_on self.old self.new) }
        ensures up { OnErr result (gives_up self.old self.new) }
        ensures counted { IsCounted (calls self.old) (calls self.new) };

    /// The final weight of the tuple.
    fn finality(&mut self, t: &Tuple) -> Result<Option<u64>, AllocError>
        requires ready { is_ready self.old }
        requires known { IsKnown (cascades self.old) t.now }
        ensures end { IfOk result (IsEndOf (cascades self.old) t.now) }
        ensures ready { is_ready self.new }
        ensures on { OnOk result (goes_on self.old self.new) }
        ensures up { OnErr result (gives_up self.old self.new) }
        ensures counted { IsCounted (calls self.old) (calls self.new) };

    /// Whether some path from the tuple may read this label next; with label 0, whether some path that reads nothing may end. It is no call
    /// that is counted, and takes no memory.
    fn may_read(&self, t: &Tuple, label: u16) -> bool
        ensures none { result ≡ false → CannotRead (cascades self.now) t.now label };

    /// What is known of how the tuple goes on. It is no call that is counted, and takes no memory.
    fn onward(&self, t: &Tuple) -> Onward
        ensures told { GoesOnward (cascades self.now) t.now result };

    ghost sound: { (x : Self) → is_ready x → All IsSound (cascades x) };

    ghost own_numbers: { (x : Self) → HaveOwnNumbers (cascades x) };

    ghost on_stays: { (x y : Self) → goes_on x y → cascades y ≡ cascades x };

    ghost up_stays: { (x y : Self) → gives_up x y → cascades y ≡ cascades x };

    ghost on_self: { (x : Self) → goes_on x x };

    ghost on_again: { (x y z : Self) → goes_on x y → goes_on y z → goes_on x z };
}
