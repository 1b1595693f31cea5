// The entries that wait, of which the first can be taken.

ghost use Rattle.std.specs.Prelude.{◌≡◌, ◌<◌, ◌+◌, ◌*◌, ◌∷◌, ◌↔◌, ℕ, [], IsTrue, MatchOption, OnOk, All, length};
ghost use Rattle.std.specs.List.Sorted.{IsPermutation};
ghost use Rattle.least_path.specs.Waiting.{Before, Fits, IsHeap, IsHeapButUp, IsHeapButDown, IsChild, at_place};

use crate::outputs::Outputs;
use std::alloc::AllocError;

/// A way that is still to be looked at, to a node by its number.
#[derive(Clone, Copy)]
pub(crate) struct Entry {
    pub(crate) weight: u128,
    pub(crate) length: usize,
    pub(crate) output: usize,
    pub(crate) node: usize,
}

/// Adds an entry to a heap.
pub(crate) fn push(
    entries: &mut Vec<Entry>,
    outputs: &Outputs,
    entry: Entry,
) -> Result<(), AllocError>
    requires heap { IsHeap outputs.now entries.old.items }
    requires fits { All (Fits outputs.now) entries.old.items }
    requires entry { Fits outputs.now entry }
    ensures added { OnOk result (IsPermutation (entry ∷ entries.old.items) entries.new.items) }
    ensures heap { OnOk result (IsHeap outputs.now entries.new.items) }
{
    let last = entries.len();
    entries.push(entry)?;
    sift_up(entries, outputs, last);
    Ok(())
}

/// Takes out the first entry of a heap.
pub(crate) fn pop(entries: &mut Vec<Entry>, outputs: &Outputs) -> Option<Entry>
    requires heap { IsHeap outputs.now entries.old.items }
    requires fits { All (Fits outputs.now) entries.old.items }
    ensures first { MatchOption result (entries.old.items ≡ []) (λ e. IsPermutation entries.old.items (e ∷ entries.new.items) × All (Before outputs.now e) entries.old.items) }
    ensures heap { IsHeap outputs.now entries.new.items }
{
    if entries.is_empty() {
        return None;
    }
    let first = entries.swap_remove(0);
    if !entries.is_empty() {
        sift_down(entries, outputs);
    }
    Some(first)
}

/// Lifts an entry that may come before the one above it.
fn sift_up(entries: &mut [Entry], outputs: &Outputs, from: usize)
    requires from { from < length entries.old }
    requires heap { IsHeapButUp outputs.now (at_place entries.old) (length entries.old) from }
    requires fits { All (Fits outputs.now) entries.old }
    ensures moved { IsPermutation entries.old entries.new }
    ensures heap { IsHeap outputs.now entries.new }
{
    let mut at = from;
    while at > 0 {
        let above = (at - 1) / 2;
        let upper = entries[above];
        let lower = entries[at];
        if is_before(outputs, &upper, &lower) {
            return;
        }
        entries.swap(above, at);
        at = above;
    }
}

/// Lowers the top, which may come after one below it.
fn sift_down(entries: &mut [Entry], outputs: &Outputs)
    requires some { 0 < length entries.old }
    requires heap { IsHeapButDown outputs.now (at_place entries.old) (length entries.old) 0 }
    requires fits { All (Fits outputs.now) entries.old }
    ensures moved { IsPermutation entries.old entries.new }
    ensures heap { IsHeap outputs.now entries.new }
{
    let mut at = 0;
    while at < entries.len() / 2 {
        let below = first_below(entries, outputs, at);
        let upper = entries[at];
        let lower = entries[below];
        if is_before(outputs, &upper, &lower) {
            return;
        }
        entries.swap(at, below);
        at = below;
    }
}

/// The place below this one that comes first.
fn first_below(entries: &[Entry], outputs: &Outputs, at: usize) -> usize
    requires some { at * 2 + 1 < length entries.now }
    requires fits { All (Fits outputs.now) entries.now }
    ensures within { result < length entries.now }
    ensures child { IsChild at result }
    ensures first { (k : ℕ) → IsChild at k → k < length entries.now → Before outputs.now (at_place entries.now result) (at_place entries.now k) }
{
    let left = 2 * at + 1;
    if left + 1 >= entries.len() {
        return left;
    }
    let a = entries[left];
    let b = entries[left + 1];
    if is_before(outputs, &a, &b) {
        left
    } else {
        left + 1
    }
}

/// Whether the first entry is no greater: by weight, then by length, then by labels.
pub(crate) fn is_before(outputs: &Outputs, a: &Entry, b: &Entry) -> bool
    requires first { Fits outputs.now a.now }
    requires second { Fits outputs.now b.now }
    ensures { IsTrue result ↔ Before outputs.now a.now b.now }
{
    if a.weight != b.weight {
        return a.weight < b.weight;
    }
    if a.length != b.length {
        return a.length < b.length;
    }
    outputs.is_below(a.output, b.output)
}
