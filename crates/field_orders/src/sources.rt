//! The texts of a record, state by state.

ghost use Rattle.std.specs.Prelude.{◌≡◌, ◌<◌, ◌^◌, All, IfOk, OnOk, None, Some, if◌then◌else◌, length};
ghost use Rattle.weighted_relations.specs.Graphs.{GraphReads};
ghost use Rattle.weighted_relations.specs.Relations.{Same};
ghost use Rattle.field_orders.specs.Orders.{IsOrderable, OrdersOf};
ghost use Rattle.field_orders.specs.Remainders.{Rest, final_at};
ghost use Rattle.field_orders.specs.Sources.{HasArcs, IsMore, IsSource, IsState, graph_of};

use crate::numbered::Numbered;
use crate::states::{State, put_whole, row_of};
use crate::tables::{Part, add, number_fields};
use std::alloc::{AllocError, Global};
use std::marker::Model;
use token_record::Record;
use weighted_relations::Arc;

/// A graph whose paths are the texts of a record. Its states are made as they are asked for.
///
/// A state is what is left to write: the rest of a field's text, the fields that are still to come at each level, and no word about the
/// order of those before. States are numbered from 0 as they are met. Each arc reads one byte, so the states that are reached after so
/// many arcs have so many bytes behind them.
///
/// A source that was refused memory is to be let go.
#[derive(Drop)]
pub struct OrderSource {
    table: Vec<Part>,
    keep: bool,
    states: Numbered,
    start: usize,
    root: usize,
}

impl Model for OrderSource {
    ghost use Rattle.field_orders.specs.Sources.{Source};

    ghost Value = { Source };

    ghost view = { λ s. record { table = s.table.items; keep = s.keep; states = s.states; start = s.start; root = s.root } };
}

impl OrderSource {
    /// The texts of a record.
    ///
    /// The record holds no byte 0, and at most 10 fields where they keep no order.
    pub fn new(alloc: Global, r: &Record) -> Result<OrderSource, AllocError>
        requires orderable { IsOrderable r.now }
        ensures source { IfOk result IsSource }
        ensures readings { IfOk result (λ s. Same (GraphReads (graph_of s)) (OrdersOf r.now)) }
    {
        let mut table = Vec::new(alloc);
        let inner = number_fields(alloc, &r.fields, &mut table)?;
        let mut text = Vec::from_slice(alloc, r.class.bytes())?;
        text.push(b'|')?;
        let root = add(&mut table, text, inner, false)?;
        let mut states = Numbered::new(alloc)?;
        let end = states.put(State::End)?;
        let start = put_whole(alloc, &mut states, &table, root, end)?;
        Ok(OrderSource {
            table,
            keep: r.keep,
            states,
            start,
            root,
        })
    }

    /// The state in which nothing is written yet.
    pub fn start(&self) -> usize
        requires source { IsSource self.now }
        ensures value { result ≡ self.now.start }
        ensures within { result < length self.now.states }
        ensures state { IsState self.now result (graph_of self.now).start }
    {
        self.start
    }

    /// How many states have a number so far.
    pub fn len(&self) -> usize
        ensures count { result ≡ length self.now.states }
        ensures small { result < 2 ^ 63 }
    {
        self.states.len()
    }

    /// The arcs of a state. Each reads and writes one byte, without weight.
    ///
    /// Where a state is asked for again, its arcs may lead to states with new numbers, from which the same is left to write.
    pub fn arcs(&mut self, alloc: Global, state: usize) -> Result<Vec<Arc>, AllocError>
        requires source { IsSource self.old }
        requires state { state < length self.old.states }
        ensures same { OnOk result (IsMore self.old self.new) }
        ensures source { OnOk result (IsSource self.new) }
        ensures within { IfOk result (λ row. All (λ a. a.next < length self.new.states) row.items) }
        ensures arcs { IfOk result (λ row. HasArcs self.old self.new state row.items) }
    {
        let row = row_of(alloc, &mut self.states, &self.table, self.keep, state)?;
        Ok(row)
    }

    /// Whether a whole text is written in a state.
    pub fn is_final(&self, state: usize) -> bool
        requires state { state < length self.now.states }
        ensures last { (r : Rest) → IsState self.now state r → final_at r ≡ (if result then Some 0 else None) }
    {
        matches!(self.states.state(state), State::End)
    }
}
