// The states of a transducer that is being built.

ghost use Rattle.std.specs.Prelude.{◌≡◌, ℕ, ◌+◌, ◌<◌, ◌^◌, length, OnOk, IfOk, Some, slice_get};
ghost use Rattle.weighted_relations.specs.declared.Arc.{Arc};
ghost use Rattle.weighted_relations.specs.Machines.{WellFormed};
ghost use Rattle.fst_core.specs.States.{no_states, as_machine, with_state, with_arc, Adds};
ghost use Rattle.fst_core.specs.Placed.{placed_row, placed_final, empty_arc, taken};

use crate::fst::Fst;
use std::alloc::{AllocError, Global};
use std::marker::Model;
use weighted_relations::Arc;

/// Which label of an arc is taken.
#[derive(Clone, Copy)]
pub(crate) enum Kept {
    Input,
    Output,
    Neither,
}

/// The states of a transducer that is being built, numbered from 0 as they come.
///
/// It takes any states and arcs. What they have to be is asked for once, at the end. A builder that was refused
/// memory is to be let go.
#[derive(Drop)]
pub struct Builder {
    pub(crate) arcs: Vec<Vec<Arc>>,
    pub(crate) finals: Vec<Option<u64>>,
}

impl Model for Builder {
    ghost use Rattle.std.specs.Prelude.{map};
    ghost use Rattle.fst_core.specs.States.{States};

    ghost Value = { States };

    ghost view = { λ a. record { arcs = map (λ row. row.items) a.arcs.items; finals = a.finals.items } };
}

impl Builder {
    /// No states.
    pub fn new(alloc: Global) -> Builder
        ensures value { result ≡ no_states }
    {
        Builder {
            arcs: Vec::new(alloc),
            finals: Vec::new(alloc),
        }
    }

    /// The number of states so far.
    pub fn len(&self) -> usize
        ensures count { result ≡ length self.now.arcs }
        ensures small { result < 2 ^ 63 }
    {
        self.arcs.len()
    }

    /// Adds a state with these arcs, and with this final weight where it is final.
    pub fn push(&mut self, row: Vec<Arc>, last: Option<u64>) -> Result<(), AllocError>
        ensures value { OnOk result (self.new ≡ with_state self.old row.items last) }
    {
        self.arcs.push(row)?;
        self.finals.push(last)?;
        Ok(())
    }

    /// Adds an arc to a state.
    pub fn add_arc(&mut self, state: usize, arc: Arc) -> Result<(), AllocError>
        requires state { state < length self.old.arcs }
        ensures value { OnOk result (self.new ≡ with_arc self.old state arc) }
    {
        self.arcs[state].push(arc)?;
        Ok(())
    }

    /// The transducer of these states.
    pub fn finish(self, start: usize) -> Fst
        requires sound { WellFormed (as_machine start self) }
        ensures value { result ≡ as_machine start self }
    {
        let Builder { arcs, finals } = self;
        Fst {
            start,
            arcs,
            finals,
        }
    }

    /// Adds the states of a transducer after those that are there. Where there is an exit, its final
    /// states go on there, and are final no more.
    pub(crate) fn place(
        &mut self,
        alloc: Global,
        p: &Fst,
        input: Kept,
        output: Kept,
        exit: Option<usize>,
    ) -> Result<(), AllocError>
        requires { length self.old.finals ≡ length self.old.arcs }
        ensures { OnOk result (Adds self.old self.new p.now (length p.now.arcs) input output exit) }
    {
        let off = self.len();
        for s in 0..p.len() {
            let last = p.final_of(s);
            let row = placed(alloc, p.arcs_of(s), off, input, output, exit, last)?;
            self.push(row, placed_end(exit, last))?;
        }
        Ok(())
    }
}

/// An arc that reads and writes nothing.
pub(crate) fn empty(weight: u64, next: usize) -> Arc
    ensures { result ≡ empty_arc weight next }
{
    Arc {
        input: 0,
        output: 0,
        weight,
        next,
    }
}

/// The label that is taken.
fn label_of(which: Kept, input: u16, output: u16) -> u16
    ensures { result ≡ taken which input output }
{
    match which {
        Kept::Input => input,
        Kept::Output => output,
        Kept::Neither => 0,
    }
}

/// The final weight of a state that is placed among others.
fn placed_end(exit: Option<usize>, last: Option<u64>) -> Option<u64>
    ensures { result ≡ placed_final exit last }
{
    match exit {
        Some(_) => None,
        None => last,
    }
}

/// The arcs of a state that is placed among others.
fn placed(
    alloc: Global,
    row: &[Arc],
    off: usize,
    input: Kept,
    output: Kept,
    exit: Option<usize>,
    last: Option<u64>,
) -> Result<Vec<Arc>, AllocError>
    requires { (k : ℕ) (a : Arc) → slice_get row.now k ≡ Some a → off + a.next < 2 ^ 64 }
    ensures { IfOk result (λ v. v.items ≡ placed_row off input output exit row.now last) }
{
    let mut arcs = Vec::new(alloc);
    for a in row {
        let arc = Arc {
            input: label_of(input, a.input, a.output),
            output: label_of(output, a.input, a.output),
            weight: a.weight,
            next: off + a.next,
        };
        arcs.push(arc)?;
    }
    if let (Some(t), Some(w)) = (exit, last) {
        arcs.push(empty(w, t))?;
    }
    Ok(arcs)
}
