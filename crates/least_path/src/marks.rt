// What a search by lists knows of its nodes.

ghost use Rattle.std.specs.Prelude.{◌≡◌, ◌↔◌, IsTrue, Some};
ghost use Rattle.least_path.specs.Marks.{IsWaiting, IsShorter, best_of};
ghost use Rattle.least_path.specs.Waiting.{Before, Fits};

use crate::outputs::Outputs;
use crate::queue::{Entry, is_before};

/// What is known of a node: nothing; the best way to it so far, from which nothing was followed; or the best way so far, whose
/// moves were followed.
#[derive(Clone, Copy)]
pub(crate) enum Mark {
    Unmet,
    Waiting(Entry),
    Done(Entry),
}

/// The best way to a node so far.
pub(crate) fn best(mark: &Mark) -> Option<Entry>
    ensures { result ≡ best_of mark.now }
{
    match mark {
        Mark::Unmet => None,
        Mark::Waiting(way) => Some(*way),
        Mark::Done(way) => Some(*way),
    }
}

/// Whether a node waits.
pub(crate) fn is_waiting(mark: &Mark) -> bool
    ensures { IsTrue result ↔ IsWaiting mark.now }
{
    match mark {
        Mark::Waiting(_) => true,
        _ => false,
    }
}

/// Whether the best way so far is less than one of this weight and length, whatever its output.
pub(crate) fn is_shorter(mark: &Mark, weight: u128, length: usize) -> bool
    ensures { IsTrue result → (b : Entry) × (best_of mark.now ≡ Some b) × IsShorter b weight length }
{
    match best(mark) {
        Some(best) => best.weight < weight || (best.weight == weight && best.length < length),
        None => false,
    }
}

/// Whether the best way so far is no greater.
pub(crate) fn is_no_greater(mark: &Mark, outputs: &Outputs, way: &Entry) -> bool
    requires best { (b : Entry) → best_of mark.now ≡ Some b → Fits outputs.now b }
    requires way { Fits outputs.now way.now }
    ensures { IsTrue result ↔ ((b : Entry) × (best_of mark.now ≡ Some b) × Before outputs.now b way.now) }
{
    match best(mark) {
        Some(best) => is_before(outputs, &best, way),
        None => false,
    }
}
