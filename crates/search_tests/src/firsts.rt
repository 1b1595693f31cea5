// The order of entries, and the first of them.

ghost use Rattle.std.specs.Prelude.{◌≡◌, ◌<◌, ◌↔◌, IsTrue, MatchOption, All, [], ◌∷◌, length, slice_index_or};
ghost use Rattle.std.specs.List.Sorted.{IsPermutation};
ghost use Rattle.weighted_relations.specs.Least.{BytesBelow};
ghost use Rattle.search_tests.specs.Entries.{Before};

use crate::entries::Entry;

/// Takes out the first entry.
pub(crate) fn take_first(waiting: &mut Vec<Entry>) -> Option<Entry>
    ensures { MatchOption result (waiting.old.items ≡ []) (λ e. IsPermutation waiting.old.items (e ∷ waiting.new.items) × All (Before e) waiting.old.items) }
{
    if waiting.is_empty() {
        return None;
    }
    let first = first_index(waiting);
    Some(waiting.swap_remove(first))
}

/// The index of an entry that no other comes before.
fn first_index(waiting: &[Entry]) -> usize
    requires { 0 < length waiting.now }
    ensures within { result < length waiting.now }
    ensures first { (d : _) → All (Before (slice_index_or waiting.now result d)) waiting.now }
{
    let mut first = 0;
    for i in 1..waiting.len() {
        if !is_before(&waiting[first], &waiting[i]) {
            first = i;
        }
    }
    first
}

/// Whether the first entry is no greater: by weight, then by length, then by labels.
fn is_before(a: &Entry, b: &Entry) -> bool
    ensures { IsTrue result ↔ Before a.now b.now }
{
    if a.weight != b.weight {
        return a.weight < b.weight;
    }
    if a.output.len() != b.output.len() {
        return a.output.len() < b.output.len();
    }
    is_below(&a.output, &b.output)
}

/// Whether a list of labels is no greater than another, label by label.
fn is_below(a: &[u16], b: &[u16]) -> bool
    ensures { IsTrue result ↔ BytesBelow a.now b.now }
{
    for (i, x) in a.iter().enumerate() {
        if i >= b.len() {
            return false;
        }
        if *x != b[i] {
            return *x < b[i];
        }
    }
    true
}
