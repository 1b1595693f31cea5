// A transducer that reads before it writes.

ghost use Rattle.std.specs.Prelude.{◌≡◌, ◌<◌, ◌≤◌, length, IfOk, IfSome};
ghost use Rattle.weighted_relations.specs.Relations.{Same};
ghost use Rattle.weighted_relations.specs.Machines.{Reads, WellFormed};
ghost use Rattle.reading_first.specs.declared.parts.Part.TheVariants.{At};
ghost use Rattle.reading_first.specs.ReadsFirst.{ReadsFirst};
ghost use Rattle.reading_first.specs.Shapes.{Fit, IsForced, PartFits, RowMade};

use crate::expands::Expansion;
use crate::parts::Part;
use fst_core::{Arc, Builder, Fst};
use state_table::StateTable;
use std::alloc::{AllocError, Global};

/// The arcs and the final weight of a state, and how many ways were followed for them.
#[derive(Drop)]
struct Row {
    arcs: Vec<Arc>,
    last: Option<u64>,
    ways: usize,
}

/// A transducer with the same readings that reads before it writes. None where it would have more than `limit`
/// states, where more than `limit` ways of arcs that read nothing would be followed in all, as on a cycle of such
/// arcs, or where the sum of a way's weights reaches 2^54.
///
/// It takes time in proportion to the ways that are followed and to the labels of their texts, each as often as an
/// arc that reads stands behind it.
///
/// It ends: each turn adds a state, and a list has fewer than 2^63 elements. So `AllocError` comes from the
/// allocator alone.
pub fn read_first(alloc: Global, a: &Fst, limit: usize) -> Result<Option<Fst>, AllocError>
    ensures readings { IfOk result (λ found. IfSome found (λ m. Same (Reads m) (Reads a.now))) }
    ensures shape { IfOk result (λ found. IfSome found ReadsFirst) }
    ensures states { IfOk result (λ found. IfSome found (λ m. length m.arcs ≤ limit)) }
{
    let mut parts = StateTable::new(alloc);
    let start = parts.number(Part::At(a.start()))?;
    let mut built = Builder::new(alloc);
    let mut room = limit;
    while built.len() < parts.len() {
        let part = *parts.key(built.len());
        let row = match row_of(alloc, a, part, room, &mut parts)? {
            Some(row) if parts.len() <= limit => row,
            _ => return Ok(None),
        };
        room -= row.ways;
        built.push(row.arcs, row.last)?;
    }
    Ok(Some(built.finish(start)))
}

/// The arcs and the final weight of a part.
fn row_of(
    alloc: Global,
    a: &Fst,
    part: Part,
    room: usize,
    parts: &mut StateTable<Part>,
) -> Result<Option<Row>, AllocError>
    requires sound { WellFormed a.now }
    requires part { PartFits a.now (length parts.old) part }
    requires fit { Fit a.now parts.old }
    ensures row { IfOk result (λ found. IfSome found (λ r. RowMade a.now parts.old parts.new part r.arcs.items r.last)) }
    ensures room { IfOk result (λ found. IfSome found (λ r. r.ways ≤ room)) }
{
    match part {
        Part::At(q) => row_at(alloc, a, q, room, parts),
        Part::Writes(label, next) => {
            let mut arcs = Vec::new(alloc);
            arcs.push(Arc {
                input: 0,
                output: label,
                weight: 0,
                next,
            })?;
            Ok(Some(Row {
                arcs,
                last: None,
                ways: 0,
            }))
        }
        Part::Ended => Ok(Some(Row {
            arcs: Vec::new(alloc),
            last: Some(0),
            ways: 0,
        })),
    }
}

/// The arcs and the final weight of a state of the transducer, when no text is left to write.
fn row_at(
    alloc: Global,
    a: &Fst,
    q: usize,
    room: usize,
    parts: &mut StateTable<Part>,
) -> Result<Option<Row>, AllocError>
    requires sound { WellFormed a.now }
    requires state { q < length a.now.arcs }
    requires fit { Fit a.now parts.old }
    ensures row { IfOk result (λ found. IfSome found (λ r. RowMade a.now parts.old parts.new (At q) r.arcs.items r.last)) }
    ensures room { IfOk result (λ found. IfSome found (λ r. r.ways ≤ room)) }
{
    if let Some(arc) = forced(a, q) {
        let mut arcs = Vec::new(alloc);
        let next = parts.number(Part::At(arc.next))?;
        arcs.push(Arc {
            input: 0,
            output: arc.output,
            weight: arc.weight,
            next,
        })?;
        return Ok(Some(Row {
            arcs,
            last: None,
            ways: 0,
        }));
    }
    let mut expansion = Expansion::new(alloc, q)?;
    if !expansion.run(a, room, parts)? {
        return Ok(None);
    }
    let ways = expansion.len();
    Ok(Some(Row {
        arcs: expansion.into_row(),
        last: a.final_of(q),
        ways,
    }))
}

/// The arc of a state at which nothing is chosen: its only one, where it reads nothing and the state isn't final.
fn forced(a: &Fst, q: usize) -> Option<Arc>
    requires state { q < length a.now.arcs }
    ensures forced { IfSome result (IsForced a.now q) }
{
    let row = a.arcs_of(q);
    if row.len() == 1 && row[0].input == 0 && a.final_of(q).is_none() {
        return Some(row[0]);
    }
    None
}
