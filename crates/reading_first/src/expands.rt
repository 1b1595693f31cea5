// The moves of a state.

ghost use Rattle.std.specs.Prelude.{◌≡◌, ◌<◌, ◌≤◌, ◌^◌, ◌+◌, ◌++◌, ◌∷◌, ℕ, List, [], length, get_or, slice_get, Some, IsTrue, IfOk, OnOk};
ghost use Rattle.weighted_relations.specs.Graphs.{label};
ghost use Rattle.weighted_relations.specs.Machines.{Machine, WellFormed};
ghost use Rattle.reading_first.specs.declared.parts.Part.{Part};
ghost use Rattle.reading_first.specs.declared.expands.Way.{Way};
ghost use Rattle.state_table.specs.Numbers.{Keeps};
ghost use Rattle.reading_first.specs.Shapes.{Before, Fit, PartFits};
ghost use Rattle.reading_first.specs.Expanding.{Backwards, Expanding, TextOf, Written, standing};

use crate::parts::Part;
use fst_core::{Arc, Fst};
use state_table::StateTable;
use std::alloc::{AllocError, Global};
use std::marker::Model;

/// A transducer's weights are below this, which is 2^54.
const TOO_HEAVY: u64 = 1 << 54;

/// A way by arcs that read nothing: where it leads, its weight, and the last label that it writes (0: none) behind
/// what the way before it writes. The first way is that of no arcs.
#[derive(Clone, Copy, Debug, PartialEq, Eq)]
pub(crate) struct Way {
    pub state: usize,
    pub weight: u64,
    pub written: u16,
    pub before: usize,
}

/// The ways by arcs that read nothing from a state, and arcs for the moves that end them.
#[derive(Drop)]
pub(crate) struct Expansion {
    from: usize,
    ways: Vec<Way>,
    row: Vec<Arc>,
}

impl Model for Expansion {
    ghost use Rattle.reading_first.specs.Expanding.{Growing};

    ghost Value = { Growing };

    ghost view = { λ a. record { from = a.from; ways = a.ways.items; row = a.row.items } };
}

impl Expansion {
    /// The way of no arcs from a state.
    pub fn new(alloc: Global, from: usize) -> Result<Expansion, AllocError>
        ensures value { IfOk result (λ e. e ≡ record { from = from; ways = standing from ∷ []; row = [] }) }
    {
        let mut ways = Vec::new(alloc);
        ways.push(Way {
            state: from,
            weight: 0,
            written: 0,
            before: 0,
        })?;
        Ok(Expansion {
            from,
            ways,
            row: Vec::new(alloc),
        })
    }

    /// Follows an arc behind a way. False where the weight gets too great.
    fn follow(
        &mut self,
        a: &Fst,
        at: usize,
        j: usize,
        parts: &mut StateTable<Part>,
    ) -> Result<bool, AllocError>
        requires within { at < length self.old.ways }
        requires arc { (w : Way) → slice_get self.old.ways at ≡ Some w → j < length (get_or a.now.arcs w.state []) }
        requires expanding { Expanding a.now self.old parts.old at j }
        ensures expanding { IfOk result (λ ok. IsTrue ok → Expanding a.now self.new parts.new at (j + 1)) }
        ensures kept { OnOk result ((k : ℕ) (w : Way) → slice_get self.old.ways k ≡ Some w → slice_get self.new.ways k ≡ Some w) }
        ensures more { OnOk result (length self.old.ways ≤ length self.new.ways) }
        ensures from { OnOk result (self.new.from ≡ self.old.from) }
        ensures keeps { OnOk result (Keeps parts.old parts.new) }
    {
        let way = self.ways[at];
        let row = a.arcs_of(way.state);
        let arc = row[j];
        let weight = way.weight + arc.weight;
        if weight >= TOO_HEAVY {
            return Ok(false);
        }
        if arc.input == 0 {
            self.ways.push(Way {
                state: arc.next,
                weight,
                written: arc.output,
                before: at,
            })?;
            return Ok(true);
        }
        let (first, next) = chained(&self.ways, at, arc.output, Part::At(arc.next), parts)?;
        self.row.push(Arc {
            input: arc.input,
            output: first,
            weight,
            next,
        })?;
        Ok(true)
    }

    /// Adds the end of a way that some arcs make, if it is one, when these arcs are followed. False where its weight
    /// gets too great.
    fn end(&mut self, a: &Fst, at: usize, parts: &mut StateTable<Part>) -> Result<bool, AllocError>
        requires sound { WellFormed a.now }
        requires within { at < length self.old.ways }
        requires expanding { ((w : Way) → slice_get self.old.ways at ≡ Some w → Expanding a.now self.old parts.old at (length (get_or a.now.arcs w.state []))) }
        ensures expanding { IfOk result (λ ok. IsTrue ok → Expanding a.now self.new parts.new (at + 1) 0) }
        ensures kept { OnOk result (self.new.ways ≡ self.old.ways) }
        ensures from { OnOk result (self.new.from ≡ self.old.from) }
        ensures keeps { OnOk result (Keeps parts.old parts.new) }
    {
        if at == 0 {
            return Ok(true);
        }
        let way = self.ways[at];
        let last = match a.final_of(way.state) {
            Some(last) => last,
            None => return Ok(true),
        };
        let weight = way.weight + last;
        if weight >= TOO_HEAVY {
            return Ok(false);
        }
        let (first, next) = chained(&self.ways, at, 0, Part::Ended, parts)?;
        self.row.push(Arc {
            input: 0,
            output: first,
            weight,
            next,
        })?;
        Ok(true)
    }

    /// Follows a way. False where a weight gets too great.
    fn follow_all(
        &mut self,
        a: &Fst,
        at: usize,
        parts: &mut StateTable<Part>,
    ) -> Result<bool, AllocError>
        requires within { at < length self.old.ways }
        requires expanding { Expanding a.now self.old parts.old at 0 }
        ensures expanding { IfOk result (λ ok. IsTrue ok → Expanding a.now self.new parts.new (at + 1) 0) }
        ensures more { OnOk result (length self.old.ways ≤ length self.new.ways) }
        ensures from { OnOk result (self.new.from ≡ self.old.from) }
        ensures keeps { OnOk result (Keeps parts.old parts.new) }
    {
        let state = self.ways[at].state;
        for j in 0..a.arcs_of(state).len() {
            if !self.follow(a, at, j, parts)? {
                return Ok(false);
            }
        }
        let ok = self.end(a, at, parts)?;
        Ok(ok)
    }

    /// Follows all ways, of which there are to be no more than `room`. False where there are more, or where a weight
    /// gets too great.
    pub fn run(
        &mut self,
        a: &Fst,
        room: usize,
        parts: &mut StateTable<Part>,
    ) -> Result<bool, AllocError>
        requires expanding { Expanding a.now self.old parts.old 0 0 }
        ensures expanding { IfOk result (λ ok. IsTrue ok → Expanding a.now self.new parts.new (length self.new.ways) 0) }
        ensures room { IfOk result (λ ok. IsTrue ok → length self.new.ways ≤ room) }
        ensures from { OnOk result (self.new.from ≡ self.old.from) }
        ensures keeps { OnOk result (Keeps parts.old parts.new) }
    {
        let mut at = 0;
        while at < self.ways.len() {
            if self.ways.len() > room || !self.follow_all(a, at, parts)? {
                return Ok(false);
            }
            at += 1;
        }
        Ok(self.ways.len() <= room)
    }

    /// How many ways there are.
    pub fn len(&self) -> usize
        ensures count { result ≡ length self.now.ways }
    {
        self.ways.len()
    }

    /// The arcs that were found.
    pub fn into_row(self) -> Vec<Arc>
        ensures value { result.items ≡ self.row }
    {
        self.row
    }
}

/// The label that is written first, or 0, and the number of the part that writes the others: of the text of a way
/// and a last label, before a part.
fn chained(
    ways: &[Way],
    from: usize,
    last: u16,
    to: Part,
    parts: &mut StateTable<Part>,
) -> Result<(u16, usize), AllocError>
    requires within { from < length ways.now }
    requires backwards { Backwards ways.now }
    requires label { last ≤ 257 }
    ensures written { IfOk result (λ r. (u : List ℕ) → TextOf ways.now from u → Written parts.new r.0 r.1 (u ++ label last []) to) }
    ensures label { IfOk result (λ r. r.0 ≤ 257) }
    ensures keeps { OnOk result (Keeps parts.old parts.new) }
    ensures fit { OnOk result ((m : Machine) → Fit m parts.old → ((n : ℕ) → PartFits m n to) → Fit m parts.new) }
{
    let mut next = parts.number(to)?;
    let mut first = last;
    let mut at = from;
    while at != 0 {
        let way = ways[at];
        if way.written != 0 {
            next = put_off(first, next, parts)?;
            first = way.written;
        }
        at = way.before;
    }
    Ok((first, next))
}

/// The number of the part that writes a label, if it is none, before another.
fn put_off(first: u16, next: usize, parts: &mut StateTable<Part>) -> Result<usize, AllocError>
    requires label { first ≤ 257 }
    requires within { next < length parts.old }
    ensures text { IfOk result (λ k. (t : List ℕ) (p : Part) → Before parts.old next t p → Before parts.new k (label first t) p) }
    ensures within { IfOk result (λ k. k < length parts.new) }
    ensures keeps { OnOk result (Keeps parts.old parts.new) }
    ensures fit { OnOk result ((m : Machine) → Fit m parts.old → Fit m parts.new) }
{
    if first == 0 {
        return Ok(next);
    }
    let number = parts.number(Part::Writes(first, next))?;
    Ok(number)
}
