//! Walks along one order of a record, and the acceptor of all of them.

ghost use Rattle.std.specs.Prelude.{◌<◌, All, IfSome, OnOk, length};
ghost use Rattle.token_record.specs.Meaning.{token_tree};
ghost use Rattle.token_record.specs.Writable.{TokenHasNoZero};
ghost use Rattle.field_orders.specs.Orders.{IsOrderable};
ghost use Rattle.field_orders.specs.Sources.{IsSource};

use field_orders::{OrderSource, orders};
use std::alloc::{AllocError, Global};
use token_record::{Record, Token, field_count};
use weighted_relations::Arc;

/// The first token, where it is a record whose orders can be told.
pub(crate) fn first_record(tokens: &[Token]) -> Option<&Record>
    requires no_zero { All (λ t. TokenHasNoZero (token_tree t)) tokens.now }
    ensures orderable { IfSome result (λ r. IsOrderable r.now) }
{
    match tokens.first()? {
        Token::Class(record) if record.keep || field_count(record) <= 10 => Some(record),
        _ => None,
    }
}

/// The text of a record in the order that is the written one from the back, or in the written one where that is kept: the last arc of
/// each state leads there.
pub(crate) fn one_order(alloc: Global, record: &Record) -> Result<Vec<u8>, AllocError>
    requires orderable { IsOrderable record.now }
{
    let mut source = OrderSource::new(alloc, record)?;
    let mut text = Vec::new(alloc);
    let mut state = source.start();
    for _ in 0..u32::MAX {
        let Some(arc) = last_arc(alloc, &mut source, state)? else {
            break;
        };
        text.push(u8::try_from(arc.input).unwrap_or(0))?;
        state = arc.next;
    }
    Ok(text)
}

/// The last arc of a state, if it has any.
fn last_arc(
    alloc: Global,
    source: &mut OrderSource,
    state: usize,
) -> Result<Option<Arc>, AllocError>
    requires source { IsSource source.old }
    ensures source { OnOk result (IsSource source.new) }
{
    if state >= source.len() {
        return Ok(None);
    }
    let mut row = source.arcs(alloc, state)?;
    Ok(row.pop())
}

/// Walks along a text so many times, each time in a source of its own, and answers how many states the last walk made.
pub(crate) fn walks(
    alloc: Global,
    record: &Record,
    text: &[u8],
    rounds: u32,
) -> Result<usize, AllocError>
    requires orderable { IsOrderable record.now }
{
    let mut made = 0;
    for _ in 0..rounds {
        made = walk(alloc, record, text)?;
    }
    Ok(made)
}

/// Walks along a text, and answers how many states that made.
fn walk(alloc: Global, record: &Record, text: &[u8]) -> Result<usize, AllocError>
    requires orderable { IsOrderable record.now }
{
    let mut source = OrderSource::new(alloc, record)?;
    let mut states = Vec::new(alloc);
    states.push(source.start())?;
    for byte in text {
        states = after(alloc, &mut source, &states, *byte)?;
    }
    Ok(source.len())
}

/// The states after a byte.
fn after(
    alloc: Global,
    source: &mut OrderSource,
    states: &[usize],
    byte: u8,
) -> Result<Vec<usize>, AllocError>
    requires source { IsSource source.old }
    ensures source { OnOk result (IsSource source.new) }
{
    let mut next = Vec::new(alloc);
    for state in states {
        if *state < source.len() {
            push_next(alloc, source, *state, byte, &mut next)?;
        }
    }
    Ok(next)
}

/// Adds the states to which a byte leads from a state.
fn push_next(
    alloc: Global,
    source: &mut OrderSource,
    state: usize,
    byte: u8,
    next: &mut Vec<usize>,
) -> Result<(), AllocError>
    requires source { IsSource source.old }
    requires state { state < length source.old.states }
    ensures source { OnOk result (IsSource source.new) }
{
    let row = source.arcs(alloc, state)?;
    for arc in &row {
        if arc.input == u16::from(byte) {
            next.push(arc.next)?;
        }
    }
    Ok(())
}

/// Makes the acceptor of all orders so many times, and answers how many states it has.
pub(crate) fn all_orders(alloc: Global, record: &Record, rounds: u32) -> Result<usize, AllocError>
    requires orderable { IsOrderable record.now }
{
    let mut made = 0;
    for _ in 0..rounds {
        made = orders(alloc, record)?.len();
    }
    Ok(made)
}
