// The arcs of a place of the machine of a rewrite.

ghost use Rattle.std.specs.Prelude.{◌≡◌, ◌<◌, ◌≤◌, ◌++◌, [], length, get_or, map, IfOk, OnOk};
ghost use Rattle.acceptor_ops.specs.Tables.{step_of};
ghost use Rattle.rewrite_rules.specs.Moves.{moved};
ghost use Rattle.rewrite_rules.specs.Bimachine.{held_after, gap_left};
ghost use Rattle.rewrite_rules.specs.PartsOf.{parts, InRange};
ghost use Rattle.rewrite_rules.specs.Tables.{Ready};
ghost use Rattle.rewrite_rules.specs.Steps.{Below, CopyTo, CopyOf, CopyOn, Pass, Enter, WalkFrom, WalkOn, WalkBy, Walk, Leave, IsMove, copy_arc};
ghost use Rattle.rewrite_rules.specs.Drawn.{Draws};

use crate::automata::Automata;
use crate::befores::Befores;
use crate::classes::Classes;
use crate::spots::{Gap, Held, Spot};
use acceptor_ops::Dfa;
use fst_core::{Arc, Fst};
use state_table::StateTable;
use std::alloc::{AllocError, Global};

/// The automata of a rewrite, and what is worked out of them once.
#[derive(Drop)]
pub(crate) struct Tables {
    pub automata: Automata,
    pub classes: Classes,
    pub befores: Befores,
}

/// One move: what it reads and writes, its weight, and where it goes.
#[derive(Clone, Copy)]
pub(crate) struct Step {
    pub input: u16,
    pub output: u16,
    pub weight: u64,
    pub to: Spot,
}

/// The states of the three automata.
#[derive(Clone, Copy)]
pub(crate) struct Place {
    pub sigma: usize,
    pub left: usize,
    pub back: usize,
}

/// The arcs of a place. Places that are new get the next numbers.
pub(crate) fn row_of(
    alloc: Global,
    tau: &Fst,
    t: &Tables,
    spot: Spot,
    spots: &mut StateTable<Spot>,
) -> Result<Vec<Arc>, AllocError>
    requires ready { Ready tau.now t.now }
    requires spot { InRange tau.now t.now.automata spot }
    ensures drawn { IfOk result (λ v. Draws (IsMove (parts tau.now t.now.automata) spot) spots.old spots.new [] v.items) }
{
    let mut row = Vec::new(alloc);
    fill(tau, t, spot, spots, &mut row)?;
    Ok(row)
}

/// The arcs of a place, after those that the row has.
fn fill(
    tau: &Fst,
    t: &Tables,
    spot: Spot,
    spots: &mut StateTable<Spot>,
    row: &mut Vec<Arc>,
) -> Result<(), AllocError>
    requires ready { Ready tau.now t.now }
    requires spot { InRange tau.now t.now.automata spot }
    ensures drawn { OnOk result (Draws (IsMove (parts tau.now t.now.automata) spot) spots.old spots.new row.old.items row.new.items) }
{
    match spot {
        Spot::Hub => guesses(tau, t, spots, row),
        Spot::Outside {
            sigma,
            left,
            back,
            gap,
        } => outside(tau, t, Place { sigma, left, back }, gap, spots, row),
        Spot::Inside {
            sigma,
            left,
            back,
            tau: state,
            held,
        } => inside(tau, t, Place { sigma, left, back }, state, held, spots, row),
    }
}

/// The arc of a move, whose place gets a number.
fn draw(step: Step, spots: &mut StateTable<Spot>, row: &mut Vec<Arc>) -> Result<(), AllocError>
    ensures drawn { OnOk result (Draws (λ x. x ≡ step) spots.old spots.new row.old.items row.new.items) }
{
    let next = spots.number(step.to)?;
    row.push(Arc {
        input: step.input,
        output: step.output,
        weight: step.weight,
        next,
    })?;
    Ok(())
}

/// The guesses of the backward automaton's state before the whole input.
fn guesses(
    tau: &Fst,
    t: &Tables,
    spots: &mut StateTable<Spot>,
    row: &mut Vec<Arc>,
) -> Result<(), AllocError>
    ensures drawn { OnOk result (Draws (IsMove (parts tau.now t.now.automata) Spot.Hub) spots.old spots.new row.old.items row.new.items) }
{
    for back in 0..t.automata.back.len() {
        let to = Spot::Outside {
            sigma: t.automata.sigma.start(),
            left: t.automata.left_start,
            back,
            gap: Gap::Open,
        };
        draw(
            Step {
                input: 0,
                output: 0,
                weight: 0,
                to,
            },
            spots,
            row,
        )?;
    }
    Ok(())
}

/// The arcs from outside of a rewrite.
fn outside(
    tau: &Fst,
    t: &Tables,
    at: Place,
    gap: Gap,
    spots: &mut StateTable<Spot>,
    row: &mut Vec<Arc>,
) -> Result<(), AllocError>
    requires ready { Ready tau.now t.now }
    requires sigma { at.sigma < length t.now.automata.sigma.next }
    requires left { at.left < length t.now.automata.left.next }
    requires back { at.back < length t.now.automata.back.next }
    ensures drawn { OnOk result (Draws (IsMove (parts tau.now t.now.automata) (Spot.Outside at.sigma at.left at.back gap)) spots.old spots.new row.old.items row.new.items) }
{
    enter(tau, t, at, gap, spots, row)?;
    pass(tau, t, at, gap, spots, row)?;
    Ok(())
}

/// The arc into a rewrite.
fn enter(
    tau: &Fst,
    t: &Tables,
    at: Place,
    gap: Gap,
    spots: &mut StateTable<Spot>,
    row: &mut Vec<Arc>,
) -> Result<(), AllocError>
    requires left { at.left < length t.now.automata.left.next }
    requires back { at.back < length t.now.automata.back.next }
    ensures drawn { OnOk result (Draws (Enter (parts tau.now t.now.automata) at gap) spots.old spots.new row.old.items row.new.items) }
{
    if t.automata.enters(at.left, gap, at.back) {
        let to = Spot::Inside {
            sigma: at.sigma,
            left: at.left,
            back: at.back,
            tau: tau.start(),
            held: Held::Fresh(gap),
        };
        draw(
            Step {
                input: 0,
                output: 0,
                weight: 0,
                to,
            },
            spots,
            row,
        )?;
    }
    Ok(())
}

/// The copies, where they may be.
fn pass(
    tau: &Fst,
    t: &Tables,
    at: Place,
    gap: Gap,
    spots: &mut StateTable<Spot>,
    row: &mut Vec<Arc>,
) -> Result<(), AllocError>
    requires ready { Ready tau.now t.now }
    requires sigma { at.sigma < length t.now.automata.sigma.next }
    requires left { at.left < length t.now.automata.left.next }
    requires back { at.back < length t.now.automata.back.next }
    ensures drawn { OnOk result (Draws (Pass (parts tau.now t.now.automata) t.now at gap) spots.old spots.new row.old.items row.new.items) }
{
    if t.automata.may_pass(at.left, gap, at.back) {
        copies(tau, t, at, spots, row)?;
    }
    Ok(())
}

/// The copies of all bytes.
fn copies(
    tau: &Fst,
    t: &Tables,
    at: Place,
    spots: &mut StateTable<Spot>,
    row: &mut Vec<Arc>,
) -> Result<(), AllocError>
    requires ready { Ready tau.now t.now }
    requires sigma { at.sigma < length t.now.automata.sigma.next }
    requires left { at.left < length t.now.automata.left.next }
    requires back { at.back < length t.now.automata.back.next }
    ensures drawn { OnOk result (Draws (Below (CopyOf t.now at) (length t.now.classes.members)) spots.old spots.new row.old.items row.new.items) }
{
    for class in 0..t.classes.len() {
        copies_of(tau, t, at, class, spots, row)?;
    }
    Ok(())
}

/// The copies of the bytes of a class, where sigma goes on.
fn copies_of(
    tau: &Fst,
    t: &Tables,
    at: Place,
    class: usize,
    spots: &mut StateTable<Spot>,
    row: &mut Vec<Arc>,
) -> Result<(), AllocError>
    requires ready { Ready tau.now t.now }
    requires sigma { at.sigma < length t.now.automata.sigma.next }
    requires left { at.left < length t.now.automata.left.next }
    requires back { at.back < length t.now.automata.back.next }
    requires class { class < length t.now.classes.members }
    ensures drawn { OnOk result (Draws (CopyOf t.now at class) spots.old spots.new row.old.items row.new.items) }
{
    let byte = t.classes.first(class);
    let sigma = t.automata.sigma.step(at.sigma, byte);
    if t.automata.goes_on(sigma) {
        copies_on(tau, t, at, class, spots, row)?;
    }
    Ok(())
}

/// The copies of the bytes of a class, which go to the same places.
fn copies_on(
    tau: &Fst,
    t: &Tables,
    at: Place,
    class: usize,
    spots: &mut StateTable<Spot>,
    row: &mut Vec<Arc>,
) -> Result<(), AllocError>
    requires ready { Ready tau.now t.now }
    requires sigma { at.sigma < length t.now.automata.sigma.next }
    requires left { at.left < length t.now.automata.left.next }
    requires back { at.back < length t.now.automata.back.next }
    requires class { class < length t.now.classes.members }
    ensures drawn { OnOk result (Draws (CopyOn t.now at class) spots.old spots.new row.old.items row.new.items) }
{
    let byte = t.classes.first(class);
    let sigma = t.automata.sigma.step(at.sigma, byte);
    let left = t.automata.left.step(at.left, byte);
    let bytes = t.classes.members(class);
    let sources = t.befores.get(class, at.back);
    for back in sources {
        let to = Spot::Outside {
            sigma,
            left,
            back: *back,
            gap: Gap::Open,
        };
        copies_to(bytes, to, spots, row)?;
    }
    Ok(())
}

/// The copies of these bytes to one place.
fn copies_to(
    bytes: &[u16],
    to: Spot,
    spots: &mut StateTable<Spot>,
    row: &mut Vec<Arc>,
) -> Result<(), AllocError>
    requires some { 0 < length bytes.now }
    ensures drawn { OnOk result (Draws (CopyTo bytes.now to) spots.old spots.new row.old.items row.new.items) }
{
    let next = spots.number(to)?;
    copy_arcs(bytes, next, row)?;
    Ok(())
}

/// An arc for each of these bytes, which writes what it reads.
fn copy_arcs(bytes: &[u16], next: usize, row: &mut Vec<Arc>) -> Result<(), AllocError>
    ensures arcs { OnOk result (row.new.items ≡ row.old.items ++ map (copy_arc next) bytes.now) }
{
    for byte in bytes {
        row.push(Arc {
            input: *byte,
            output: *byte,
            weight: 0,
            next,
        })?;
    }
    Ok(())
}

/// The arcs from inside of a rewrite.
fn inside(
    tau: &Fst,
    t: &Tables,
    at: Place,
    state: usize,
    held: Held,
    spots: &mut StateTable<Spot>,
    row: &mut Vec<Arc>,
) -> Result<(), AllocError>
    requires ready { Ready tau.now t.now }
    requires sigma { at.sigma < length t.now.automata.sigma.next }
    requires left { at.left < length t.now.automata.left.next }
    requires back { at.back < length t.now.automata.back.next }
    requires state { state < length tau.now.arcs }
    ensures drawn { OnOk result (Draws (IsMove (parts tau.now t.now.automata) (Spot.Inside at.sigma at.left at.back state held)) spots.old spots.new row.old.items row.new.items) }
{
    leave(tau, t, at, state, held, spots, row)?;
    walks(tau, t, at, state, held, spots, row)?;
    Ok(())
}

/// The arc out of a rewrite.
fn leave(
    tau: &Fst,
    t: &Tables,
    at: Place,
    state: usize,
    held: Held,
    spots: &mut StateTable<Spot>,
    row: &mut Vec<Arc>,
) -> Result<(), AllocError>
    requires back { at.back < length t.now.automata.back.next }
    requires state { state < length tau.now.arcs }
    ensures drawn { OnOk result (Draws (Leave (parts tau.now t.now.automata) at state held) spots.old spots.new row.old.items row.new.items) }
{
    let right = t.automata.right(at.back);
    if let (Some(weight), Some(gap), true) = (tau.final_of(state), gap_after(held), right) {
        let to = Spot::Outside {
            sigma: at.sigma,
            left: at.left,
            back: at.back,
            gap,
        };
        draw(
            Step {
                input: 0,
                output: 0,
                weight,
                to,
            },
            spots,
            row,
        )?;
    }
    Ok(())
}

/// The moves by the arcs of a state of tau.
fn walks(
    tau: &Fst,
    t: &Tables,
    at: Place,
    state: usize,
    held: Held,
    spots: &mut StateTable<Spot>,
    row: &mut Vec<Arc>,
) -> Result<(), AllocError>
    requires ready { Ready tau.now t.now }
    requires sigma { at.sigma < length t.now.automata.sigma.next }
    requires left { at.left < length t.now.automata.left.next }
    requires back { at.back < length t.now.automata.back.next }
    requires state { state < length tau.now.arcs }
    ensures drawn { OnOk result (Draws (Walk (parts tau.now t.now.automata) at (get_or tau.now.arcs state []) held (length (get_or tau.now.arcs state []))) spots.old spots.new row.old.items row.new.items) }
{
    let arcs = tau.arcs_of(state);
    for arc in arcs {
        walks_by(tau, t, at, held, *arc, spots, row)?;
    }
    Ok(())
}

/// The moves by one arc of tau. One that reads a mark is of no reading.
fn walks_by(
    tau: &Fst,
    t: &Tables,
    at: Place,
    held: Held,
    arc: Arc,
    spots: &mut StateTable<Spot>,
    row: &mut Vec<Arc>,
) -> Result<(), AllocError>
    requires ready { Ready tau.now t.now }
    requires sigma { at.sigma < length t.now.automata.sigma.next }
    requires left { at.left < length t.now.automata.left.next }
    requires back { at.back < length t.now.automata.back.next }
    requires input { arc.input ≤ 257 }
    requires output { arc.output ≤ 257 }
    ensures drawn { OnOk result (Draws (WalkBy (parts tau.now t.now.automata) at held arc) spots.old spots.new row.old.items row.new.items) }
{
    if arc.input == 0 {
        walks_from(tau, t, at, held, arc, &[at.back], spots, row)?;
    } else if arc.input <= 255 {
        let sources = t.befores.get(t.classes.of(arc.input), at.back);
        walks_from(tau, t, at, held, arc, sources, spots, row)?;
    }
    Ok(())
}

/// The moves by one arc of tau, after which the backward automaton is in these states, where sigma goes on.
fn walks_from(
    tau: &Fst,
    t: &Tables,
    at: Place,
    held: Held,
    arc: Arc,
    sources: &[usize],
    spots: &mut StateTable<Spot>,
    row: &mut Vec<Arc>,
) -> Result<(), AllocError>
    requires ready { Ready tau.now t.now }
    requires sigma { at.sigma < length t.now.automata.sigma.next }
    requires left { at.left < length t.now.automata.left.next }
    requires input { arc.input ≤ 257 }
    requires output { arc.output ≤ 257 }
    ensures drawn { OnOk result (Draws (WalkFrom (parts tau.now t.now.automata) at held arc sources.now) spots.old spots.new row.old.items row.new.items) }
{
    let sigma = after(&t.automata.sigma, at.sigma, arc.input);
    if t.automata.goes_on(sigma) {
        walks_on(tau, t, at, held, arc, sources, spots, row)?;
    }
    Ok(())
}

/// The moves by one arc of tau, after which the backward automaton is in these states.
fn walks_on(
    tau: &Fst,
    t: &Tables,
    at: Place,
    held: Held,
    arc: Arc,
    sources: &[usize],
    spots: &mut StateTable<Spot>,
    row: &mut Vec<Arc>,
) -> Result<(), AllocError>
    requires sigma { at.sigma < length t.now.automata.sigma.next }
    requires left { at.left < length t.now.automata.left.next }
    requires input { arc.input ≤ 257 }
    requires output { arc.output ≤ 257 }
    ensures drawn { OnOk result (Draws (WalkOn (parts tau.now t.now.automata) at held arc sources.now (length sources.now)) spots.old spots.new row.old.items row.new.items) }
{
    let sigma = after(&t.automata.sigma, at.sigma, arc.input);
    let left = after(&t.automata.left, at.left, arc.output);
    let next = held_on(held, arc.input);
    for back in sources {
        let to = Spot::Inside {
            sigma,
            left,
            back: *back,
            tau: arc.next,
            held: next,
        };
        draw(
            Step {
                input: arc.input,
                output: arc.output,
                weight: arc.weight,
                to,
            },
            spots,
            row,
        )?;
    }
    Ok(())
}

/// The state after a label, which may be empty.
fn after(d: &Dfa, state: usize, label: u16) -> usize
    requires state { state < length d.now.next }
    requires label { label ≤ 257 }
    ensures value { result ≡ moved (step_of d.now) state label }
{
    if label == 0 {
        state
    } else {
        d.step(state, label)
    }
}

/// What a rewrite has read after one more label.
fn held_on(held: Held, label: u16) -> Held
    ensures value { result ≡ held_after held label }
{
    if label == 0 { held } else { Held::Used }
}

/// The gap where a rewrite ends.
fn gap_after(held: Held) -> Option<Gap>
    ensures value { result ≡ gap_left held }
{
    match held {
        Held::Fresh(Gap::Open) => Some(Gap::Shut),
        Held::Fresh(Gap::Shut) => None,
        Held::Used => Some(Gap::Open),
    }
}
