// The entries of a search, and where they lie.

ghost use Rattle.std.specs.Prelude.{◌≡◌, ◌<◌, ◌+◌, ◌^◌, ◌++◌, ◌↔◌, [], IfOk, IsTrue, Contains};
ghost use Rattle.weighted_relations.specs.Graphs.{label};
ghost use Rattle.search_tests.specs.declared.entries.Place.TheVariants.{At};

use std::alloc::{AllocError, Global};

/// A position of the line and a state.
#[derive(Clone, Copy)]
pub(crate) struct Pair {
    pub(crate) position: usize,
    pub(crate) state: usize,
}

/// Where a way has come: to a pair, or to its end.
#[derive(Clone, Copy)]
pub(crate) enum Place {
    At(Pair),
    End,
}

/// A way that is still to be looked at: its weight, the labels that it writes, and where it has come.
#[derive(Drop)]
pub(crate) struct Entry {
    pub(crate) weight: u128,
    pub(crate) output: Vec<u16>,
    pub(crate) place: Place,
}

impl Entry {
    /// The way that stands at the start of the line, in this state.
    pub(crate) fn at_start(alloc: Global, state: usize) -> Entry
        ensures weight { result.weight ≡ 0 }
        ensures output { result.output.items ≡ [] }
        ensures place { result.place ≡ At (record { position = 0; state = state }) }
    {
        Entry {
            weight: 0,
            output: Vec::new(alloc),
            place: Place::At(Pair { position: 0, state }),
        }
    }

    /// The way that goes on by this label and weight. The label 0 writes nothing.
    pub(crate) fn then(
        &self,
        alloc: Global,
        more: u16,
        weight: u64,
        place: Place,
    ) -> Result<Entry, AllocError>
        requires { self.now.weight + weight < 2 ^ 128 }
        ensures weight { IfOk result (λ e. e.weight ≡ self.now.weight + weight) }
        ensures output { IfOk result (λ e. e.output.items ≡ self.now.output.items ++ label more []) }
        ensures place { IfOk result (λ e. e.place ≡ place) }
    {
        let mut output = Vec::with_capacity(alloc, self.output.len())?;
        output.extend_from_slice(&self.output)?;
        if more != 0 {
            output.push(more)?;
        }
        Ok(Entry {
            weight: self.weight + weight as u128,
            output,
            place,
        })
    }
}

/// Whether a pair is among the settled ones.
pub(crate) fn is_settled(settled: &[Pair], pair: Pair) -> bool
    ensures { IsTrue result ↔ Contains settled.now pair }
{
    for p in settled {
        if p.position == pair.position && p.state == pair.state {
            return true;
        }
    }
    false
}
