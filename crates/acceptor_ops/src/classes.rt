// Classes of labels that no state of a transducer tells apart.

ghost use Rattle.std.specs.Prelude.{◌≡◌, ◌<◌, [], ℕ, length, slice_get, Some, OnOk, IfOk};
ghost use Rattle.weighted_relations.specs.declared.Arc.{Arc};
ghost use Rattle.acceptor_ops.specs.Tables.{class_of};
ghost use Rattle.acceptor_ops.specs.Alike.{AreClasses, AreSteps, RowNoted, AreNumbered};

use crate::buckets::Buckets;
use fst_core::{Arc, Fst};
use state_table::{StateSet, StateTable};
use std::alloc::{AllocError, Global};
use std::marker::Model;

/// A class for each label, so that a state's row needs no place for each of 257 labels.
///
/// Labels that lead from the same states to the same ones share a class.
#[derive(Drop)]
pub(crate) struct Classes {
    of: Vec<usize>,
    count: usize,
}

impl Model for Classes {
    ghost use Rattle.acceptor_ops.specs.Alike.{Classing};

    ghost Value = { Classing };

    ghost view = { λ a. record { classes = a.of.items; count = a.count } };
}

impl Classes {
    /// The classes of the labels that a transducer reads.
    pub fn new(alloc: Global, a: &Fst) -> Result<Classes, AllocError>
        ensures classes { IfOk result (AreClasses a.now) }
    {
        let steps = steps_of(alloc, a)?;
        let classes = classed(alloc, &steps)?;
        Ok(classes)
    }

    /// How many classes there are.
    pub fn count(&self) -> usize
        ensures value { result ≡ self.now.count }
    {
        self.count
    }

    /// The class of a label.
    pub fn of(&self, label: u16) -> usize
        requires label { label < length self.now.classes }
        ensures value { result ≡ class_of self.now.classes label }
    {
        self.of[label as usize]
    }

    /// The classes alone, in the order of the labels.
    pub fn into_list(self) -> Vec<usize>
        ensures value { result.items ≡ self.classes }
    {
        let Classes { of, count: _ } = self;
        of
    }
}

/// The classes of labels with these steps: a class for each list.
fn classed(alloc: Global, steps: &Buckets) -> Result<Classes, AllocError>
    ensures classes { IfOk result (λ c. AreNumbered steps.now (length steps.now) c) }
{
    let mut lists = StateTable::new(alloc);
    let mut of = Vec::new(alloc);
    for label in 0..steps.len() {
        let list = Vec::from_slice(alloc, steps.get(label))?;
        of.push(lists.number(StateSet::new(list))?)?;
    }
    Ok(Classes {
        of,
        count: lists.len(),
    })
}

/// For each label its steps, by their numbers: a step is a state beside one that an arc leads to from it.
fn steps_of(alloc: Global, a: &Fst) -> Result<Buckets, AllocError>
    ensures steps { IfOk result (AreSteps a.now) }
{
    let mut pairs = StateTable::new(alloc);
    let mut steps = Buckets::empty(alloc, 258)?;
    for s in 0..a.len() {
        note(s, a.arcs_of(s), &mut pairs, &mut steps)?;
    }
    Ok(steps)
}

/// The steps of the arcs of a state, too.
fn note(
    s: usize,
    row: &[Arc],
    pairs: &mut StateTable<(usize, usize)>,
    steps: &mut Buckets,
) -> Result<(), AllocError>
    requires within { (j : ℕ) (a : Arc) → slice_get row.now j ≡ Some a → a.input < length steps.old }
    ensures noted { OnOk result (RowNoted s row.now (length row.now) pairs.old steps.old pairs.new steps.new) }
{
    for arc in row {
        let step = pairs.number((s, arc.next))?;
        steps.put(arc.input as usize, step)?;
    }
    Ok(())
}
