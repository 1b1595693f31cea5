//! All the texts of a record, as one acceptor.

ghost use Rattle.std.specs.Prelude.{◌≡◌, ◌≤◌, IfOk, None, Some, if◌then◌else◌};
ghost use Rattle.weighted_relations.specs.Machines.{Reads};
ghost use Rattle.weighted_relations.specs.Relations.{IsUnmarked, Same};
ghost use Rattle.fst_core.specs.Top.{top_of};
ghost use Rattle.field_orders.specs.Orders.{IsOrderable, OrdersOf};

use crate::sources::OrderSource;
use fst_core::{Builder, Fst};
use std::alloc::{AllocError, Global};
use token_record::Record;

/// An acceptor of exactly the texts of a record, without weights and marks.
///
/// The record holds no byte 0, and at most 10 fields where they keep no order. A state knows which fields are still to come, so there
/// are at most as many states as there are sets of fields, for each byte of a text.
pub fn orders(alloc: Global, r: &Record) -> Result<Fst, AllocError>
    requires orderable { IsOrderable r.now }
    ensures readings { IfOk result (λ m. Same (Reads m) (OrdersOf r.now)) }
    ensures unmarked { IfOk result (λ m. IsUnmarked (Reads m)) }
    ensures top { IfOk result (λ m. top_of m ≤ 0) }
{
    let mut source = OrderSource::new(alloc, r)?;
    let mut built = Builder::new(alloc);
    while built.len() < source.len() {
        let state = built.len();
        let row = source.arcs(alloc, state)?;
        built.push(row, final_weight(source.is_final(state)))?;
    }
    Ok(built.finish(source.start()))
}

/// The final weight of a state.
fn final_weight(last: bool) -> Option<u64>
    ensures { result ≡ (if last then Some 0 else None) }
{
    if last { Some(0) } else { None }
}
