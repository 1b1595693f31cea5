// Arcs in the order of their inputs.

ghost use Rattle.std.specs.Prelude.{◌≡◌, ◌↔◌, ◌==◌, IsTrue};
ghost use Rattle.std.specs.List.{filter};
ghost use Rattle.std.specs.List.Sorted.{IsNonDecreasingBy};
ghost use Rattle.fst_core.specs.Sorted.{HasSortedRows};

use crate::fst::Fst;
use weighted_relations::Arc;

/// Whether the arcs stand in the order of their inputs.
pub fn is_sorted_row(row: &[Arc]) -> bool
    ensures sorted { IsTrue result ↔ IsNonDecreasingBy (λ y. y.input) row.now }
{
    row.is_sorted_by(|y, z| y.input <= z.input)
}

/// The arcs that read a label, of arcs in the order of their inputs. It takes time in the logarithm of their number.
pub fn reading(row: &[Arc], label: u16) -> &[Arc]
    requires sorted { IsNonDecreasingBy (λ y. y.input) row.now }
    ensures exact { result.now ≡ filter (λ y. y.input == label) row.now }
{
    let start = row.partition_point(|y| y.input < label);
    let rest = &row[start..];
    let count = rest.partition_point(|y| y.input <= label);
    &rest[..count]
}

impl Fst {
    /// Whether the arcs of each state stand in the order of their inputs.
    pub fn is_sorted(&self) -> bool
        ensures sorted { IsTrue result ↔ HasSortedRows self.now }
    {
        for s in 0..self.len() {
            if !is_sorted_row(self.arcs_of(s)) {
                return false;
            }
        }
        true
    }
}
