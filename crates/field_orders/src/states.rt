//! What is left to write, as states that are numbered.

ghost use Rattle.std.specs.Prelude.{◌≡◌, ◌≤◌, ◌<◌, Bool, List, All, IfOk, OnOk, length, drop, [], ◌∷◌};
ghost use Rattle.std.specs.List.{remove};
ghost use Rattle.std.proofs.Common.{rules};
ghost use Rattle.weighted_relations.specs.declared.Arc.{Arc};
ghost use Rattle.fst_core.specs.Placed.{label_arc};
ghost use Rattle.field_orders.specs.Remainders.{AreWritten, Rest, Written, arc_at, behind, byte, bytes_then, choices, closing, field_at, fields_then, taken};
ghost use Rattle.field_orders.specs.Sources.{AllMean, ArcSays, Grew, Makes, Means, RowSays, RowTo};

use crate::numbered::Numbered;
use crate::tables::Part;
use state_table::{Key, StateSet};
use std::alloc::{AllocError, Global};
use std::cmp::min;
use weighted_relations::Arc;

/// What is left to write. What is written in different orders meets again in a state where fields are left.
#[derive(PartialEq, Eq, Hash, Drop)]
pub(crate) enum State {
    /// Nothing.
    End,
    /// A byte, and then what the state of a number says.
    Byte {
        byte: u8,
        next: usize,
    },
    /// A field's text from a place on, and then what the state of a number says.
    Text {
        field: usize,
        from: usize,
        next: usize,
    },
    /// Fields in some order, told by the list of their numbers, and then what the state of a number says.
    Fields {
        left: StateSet,
        next: usize,
    },
}

impl Key for State {
    ghost same = { Prim.search rules };
}

/// A byte before a state.
fn put_byte(states: &mut Numbered, code: u8, next: usize) -> Result<usize, AllocError>
    requires within { next < length states.old }
    ensures within { IfOk result (λ k. k < length states.new) }
    ensures made { IfOk result (λ k. (t : List Written) → Makes t states.old states.new next k (byte code)) }
{
    states.put(State::Byte { byte: code, next })
}

/// The end of a field before a state.
fn put_close(states: &mut Numbered, braced: bool, next: usize) -> Result<usize, AllocError>
    requires within { next < length states.old }
    ensures within { IfOk result (λ k. k < length states.new) }
    ensures made { IfOk result (λ k. (t : List Written) → Makes t states.old states.new next k (bytes_then (closing braced))) }
{
    if !braced {
        return Ok(next);
    }
    let bar = put_byte(states, b'|', next)?;
    put_byte(states, b'}', bar)
}

/// Fields in some order before a state.
fn put_fields(
    alloc: Global,
    states: &mut Numbered,
    left: Vec<usize>,
    next: usize,
) -> Result<usize, AllocError>
    requires within { next < length states.old }
    ensures within { IfOk result (λ k. k < length states.new) }
    ensures made { IfOk result (λ k. (t : List Written) → All (λ i. i < length t) left.items → Makes t states.old states.new next k (fields_then left.items)) }
{
    if left.is_empty() {
        return Ok(next);
    }
    states.meet(alloc, left, next)
}

/// What follows a field's text, where others are left at its level, before a state.
fn put_behind(
    alloc: Global,
    states: &mut Numbered,
    part: &Part,
    others: Vec<usize>,
    next: usize,
) -> Result<usize, AllocError>
    requires within { next < length states.old }
    ensures within { IfOk result (λ k. k < length states.new) }
    ensures made { IfOk result (λ k. (t : List Written) → All (λ i. i < length t) others.items → All (λ i. i < length t) part.now.inner → Makes t states.old states.new next k (behind part.now others.items)) }
{
    let after = put_fields(alloc, states, others, next)?;
    let close = put_close(states, part.braced, after)?;
    let inner = Vec::from_slice(alloc, &part.inner)?;
    put_fields(alloc, states, inner, close)
}

/// A field's text from a place on before a state.
fn put_text(
    states: &mut Numbered,
    table: &[Part],
    field: usize,
    from: usize,
    next: usize,
) -> Result<usize, AllocError>
    requires field { field < length table.now }
    requires within { next < length states.old }
    ensures within { IfOk result (λ k. k < length states.new) }
    ensures made { IfOk result (λ k. Makes table.now states.old states.new next k (bytes_then (drop from (field_at table.now field).text))) }
{
    let part = &table[field];
    if part.text.len() <= from {
        return Ok(next);
    }
    states.put(State::Text { field, from, next })
}

/// A record's text before a state.
pub(crate) fn put_whole(
    alloc: Global,
    states: &mut Numbered,
    table: &[Part],
    root: usize,
    next: usize,
) -> Result<usize, AllocError>
    requires root { root < length table.now }
    requires inner { All (λ i. i < length table.now) (field_at table.now root).inner }
    requires within { next < length states.old }
    ensures made { IfOk result (λ k. Makes table.now states.old states.new next k (λ r. bytes_then (field_at table.now root).text (fields_then (field_at table.now root).inner r))) }
{
    let part = &table[root];
    let inner = Vec::from_slice(alloc, &part.inner)?;
    let fields = put_fields(alloc, states, inner, next)?;
    put_text(states, table, root, 0, fields)
}

/// The arcs of a state.
pub(crate) fn row_of(
    alloc: Global,
    states: &mut Numbered,
    table: &[Part],
    keep: bool,
    state: usize,
) -> Result<Vec<Arc>, AllocError>
    requires written { AreWritten table.now }
    requires meant { AllMean table.now states.old }
    requires within { state < length states.old }
    ensures grew { OnOk result (Grew table.now states.old states.new) }
    ensures row { IfOk result (λ row. (r : Rest) → Means table.now states.old state r → RowSays table.now keep states.new row.items r) }
{
    match states.state(state) {
        State::End => Ok(Vec::new(alloc)),
        State::Byte { byte, next } => one_arc(alloc, *byte, *next),
        State::Text { field, from, next } => {
            let (field, from, next) = (*field, *from, *next);
            text_row(alloc, states, table, field, from, next)
        }
        State::Fields { left, next } => {
            let next = *next;
            let left = Vec::from_slice(alloc, left.states())?;
            field_row(alloc, states, table, keep, &left, next)
        }
    }
}

/// The arc of a byte of a field's text.
fn text_row(
    alloc: Global,
    states: &mut Numbered,
    table: &[Part],
    field: usize,
    from: usize,
    next: usize,
) -> Result<Vec<Arc>, AllocError>
    requires field { field < length table.now }
    requires from { from < length (field_at table.now field).text }
    requires within { next < length states.old }
    ensures grew { OnOk result (Grew table.now states.old states.new) }
    ensures row { IfOk result (λ row. (keep : Bool) (r : Rest) → Means table.now states.old next r → RowSays table.now keep states.new row.items (bytes_then (drop from (field_at table.now field).text) r)) }
{
    let part = &table[field];
    let byte = part.text[from];
    let after = put_text(states, table, field, from + 1, next)?;
    one_arc(alloc, byte, after)
}

/// The arcs of a state where fields are left.
fn field_row(
    alloc: Global,
    states: &mut Numbered,
    table: &[Part],
    keep: bool,
    left: &[usize],
    next: usize,
) -> Result<Vec<Arc>, AllocError>
    requires written { AreWritten table.now }
    requires left { All (λ i. i < length table.now) left.now }
    requires within { next < length states.old }
    ensures grew { OnOk result (Grew table.now states.old states.new) }
    ensures row { IfOk result (λ row. RowTo table.now states.old states.new left.now next (choices keep left.now) row.items) }
{
    let mut row = Vec::new(alloc);
    for i in 0..choice_count(keep, left) {
        let others = others(alloc, left, i)?;
        row.push(choice(alloc, states, table, left[i], others, next)?)?;
    }
    Ok(row)
}

/// The arc of a field that comes next.
fn choice(
    alloc: Global,
    states: &mut Numbered,
    table: &[Part],
    field: usize,
    others: Vec<usize>,
    next: usize,
) -> Result<Arc, AllocError>
    requires written { AreWritten table.now }
    requires field { field < length table.now }
    requires others { All (λ j. j < length table.now) others.items }
    requires within { next < length states.old }
    ensures grew { OnOk result (Grew table.now states.old states.new) }
    ensures arc { IfOk result (λ a. (r : Rest) → Means table.now states.old next r → ArcSays table.now states.new a (taken table.now field others.items r)) }
{
    let part = &table[field];
    let byte = part.text[0];
    let after = put_behind(alloc, states, part, others, next)?;
    let to = put_text(states, table, field, 1, after)?;
    Ok(byte_arc(byte, to))
}

/// All but the one at a place.
fn others(alloc: Global, left: &[usize], i: usize) -> Result<Vec<usize>, AllocError>
    requires place { i < length left.now }
    ensures { IfOk result (λ v. v.items ≡ remove left.now i) }
{
    let mut others = Vec::from_slice(alloc, left)?;
    others.remove(i);
    Ok(others)
}

/// Of how many fields one may come next.
fn choice_count(keep: bool, left: &[usize]) -> usize
    ensures { result ≡ choices keep left.now }
{
    if keep { min(left.len(), 1) } else { left.len() }
}

/// One arc.
fn one_arc(alloc: Global, byte: u8, next: usize) -> Result<Vec<Arc>, AllocError>
    ensures row { IfOk result (λ row. row.items ≡ label_arc byte next ∷ []) }
    ensures small { byte ≤ 255 }
{
    let mut row = Vec::with_capacity(alloc, 1)?;
    row.push(byte_arc(byte, next))?;
    Ok(row)
}

/// An arc that reads a byte.
fn byte_arc(byte: u8, next: usize) -> Arc
    ensures arc { result ≡ label_arc byte next }
    ensures small { result.input ≤ 255 }
{
    Arc {
        input: u16::from(byte),
        output: u16::from(byte),
        weight: 0,
        next,
    }
}
