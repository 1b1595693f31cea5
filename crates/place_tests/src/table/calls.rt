//! The calls of a table, as far as these tests have to know what they do: the seat is idle after each, as before it.
ghost use Rattle.std.specs.Prelude.{◌≡◌, ◌<◌, ◌≤◌, IfOk};
ghost use Rattle.place_words.specs.Seats.{IsSeatOf, mode_of, places_of};
ghost use Rattle.place_words.specs.declared.view.Mode.TheVariants.{Idle};
ghost use Rattle.place_table.specs.Tables.{words_of};

use crate::table::codes::{Stamped, code_of, is_stamped};
use place_table::{Emptied, Look, Publish, Table};
use place_words::Seat;
use std::alloc::Global;
use std::test::Fail;

/// A table with one seat.
pub(crate) fn one_seat(alloc: Global, places: u32) -> Result<(Table<Stamped>, Seat<Stamped>), Fail>
    requires places { (1 ≤ places) × (places ≤ 4096) }
    ensures places { IfOk result (λ t. places_of (words_of t.0) ≡ places) }
    ensures seat { IfOk result (λ t. IsSeatOf (words_of t.0) t.1 × (mode_of t.1 ≡ Idle)) }
{
    let (table, mut seats) = Table::open(alloc, Stamped, places, 1)?;
    let seat = seats.pop().ok_or("a seat")?;
    Ok((table, seat))
}

/// A table with two seats.
pub(crate) fn two_seats(
    alloc: Global,
    places: u32,
) -> Result<(Table<Stamped>, Seat<Stamped>, Seat<Stamped>), Fail>
    requires places { (1 ≤ places) × (places ≤ 4096) }
    ensures places { IfOk result (λ t. places_of (words_of t.0) ≡ places) }
    ensures first { IfOk result (λ t. IsSeatOf (words_of t.0) t.1 × (mode_of t.1 ≡ Idle)) }
    ensures second { IfOk result (λ t. IsSeatOf (words_of t.0) t.2 × (mode_of t.2 ≡ Idle)) }
{
    let (table, mut seats) = Table::open(alloc, Stamped, places, 2)?;
    let second = seats.pop().ok_or("a seat")?;
    let first = seats.pop().ok_or("a seat")?;
    Ok((table, first, second))
}

/// A look. In place of a code that is no stamped one of its key it answers `Shown(0)`.
pub(crate) fn look(table: &Table<Stamped>, seat: &mut Seat<Stamped>, key: &[u64; 6]) -> Look
    requires own { IsSeatOf (words_of table.now) seat.old }
    requires idle { mode_of seat.old ≡ Idle }
    ensures own { IsSeatOf (words_of table.now) seat.new }
    ensures idle { mode_of seat.new ≡ Idle }
{
    let mut into = [0; 2048];
    let look = table.look(seat, key, &mut into);
    checked(look, &into, key)
}

fn checked(look: Look, into: &[u64; 2048], key: &[u64; 6]) -> Look {
    match look {
        Look::Shown(length) if !is_stamped(into, length, key) => Look::Shown(0),
        _ => look,
    }
}

/// Publishes a stamped code.
pub(crate) fn publish(
    table: &Table<Stamped>,
    seat: &mut Seat<Stamped>,
    key: &[u64; 6],
    stamp: u64,
) -> Publish
    requires own { IsSeatOf (words_of table.now) seat.old }
    requires idle { mode_of seat.old ≡ Idle }
    ensures own { IsSeatOf (words_of table.now) seat.new }
    ensures idle { mode_of seat.new ≡ Idle }
{
    table.publish(seat, &code_of(key, stamp))
}

/// Empties a place.
pub(crate) fn empty(table: &Table<Stamped>, seat: &mut Seat<Stamped>, place: u32) -> Emptied
    requires own { IsSeatOf (words_of table.now) seat.old }
    requires idle { mode_of seat.old ≡ Idle }
    requires place { place < places_of (words_of table.now) }
    ensures own { IsSeatOf (words_of table.now) seat.new }
    ensures idle { mode_of seat.new ≡ Idle }
{
    table.empty_place(seat, place)
}
