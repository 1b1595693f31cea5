// The arcs of a state, in the order of their labels.

ghost use Rattle.std.specs.Prelude.{◌≡◌, ◌↔◌, IsTrue, MatchResult};
ghost use Rattle.lexicon_trees.specs.Shapes.{Before, IsOrdered};
ghost use Rattle.lexicon_trees.specs.Growing.{Splits, LeadsTo, FitsAt};

use weighted_relations::Arc;

/// The state that the arc with these labels leads to, or the place of such an arc among the others.
pub(crate) fn find(row: &[Arc], input: u16, output: u16) -> Result<usize, usize>
    requires ordered { IsOrdered row.now }
    ensures found { MatchResult result (LeadsTo row.now input output) (FitsAt row.now input output) }
{
    let place = split(row, input, output);
    let Some(arc) = row.get(place) else {
        return Err(place);
    };
    if has(arc, input, output) {
        Ok(arc.next)
    } else {
        Err(place)
    }
}

/// How many of the arcs stand before these labels.
fn split(row: &[Arc], input: u16, output: u16) -> usize
    requires ordered { IsOrdered row.now }
    ensures place { Splits row.now input output result }
{
    let mut low = 0;
    let mut high = row.len();
    while low < high {
        let middle = low + (high - low) / 2;
        if is_before(&row[middle], input, output) {
            low = middle + 1;
        } else {
            high = middle;
        }
    }
    low
}

/// Whether an arc stands before these labels.
fn is_before(arc: &Arc, input: u16, output: u16) -> bool
    ensures { IsTrue result ↔ Before arc.now.input arc.now.output input output }
{
    arc.input < input || arc.input == input && arc.output < output
}

/// Whether an arc has these labels.
fn has(arc: &Arc, input: u16, output: u16) -> bool
    ensures { IsTrue result ↔ ((arc.now.input ≡ input) × (arc.now.output ≡ output)) }
{
    arc.input == input && arc.output == output
}
