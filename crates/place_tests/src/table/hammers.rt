//! Threads that look, publish and empty at the same places. Whatever their order, each code that is shown is a right one.
ghost use Rattle.std.specs.Prelude.{◌≡◌, ◌<◌, ◌≤◌, ℕ, All};
ghost use Rattle.place_words.specs.Seats.{IsSeatOf, mode_of};
ghost use Rattle.place_words.specs.declared.view.Mode.TheVariants.{Idle};
ghost use Rattle.place_table.specs.Tables.{words_of};

use crate::table::calls::{empty, look, publish};
use crate::table::codes::Stamped;
use place_table::{Look, Publish, Table};
use place_words::Seat;
use std::alloc::{AllocError, Global};
use std::test::Fail;
use std::thread::{Threads, map_vec};

/// What one thread counted.
#[derive(Clone, Copy, Drop)]
struct Counts {
    shown: u32,
    wrong: u32,
}

/// One round: a look, a publishing where nothing was found, and in some rounds an emptying.
fn strike(
    table: &Table<Stamped>,
    seat: &mut Seat<Stamped>,
    keys: u32,
    round: u32,
    counts: &mut Counts,
)
    requires own { IsSeatOf (words_of table.now) seat.old }
    requires idle { mode_of seat.old ≡ Idle }
    requires keys { 1 ≤ keys }
    ensures own { IsSeatOf (words_of table.now) seat.new }
    ensures idle { mode_of seat.new ≡ Idle }
{
    let key = [(round % keys) as u64, 1, 2, 3, 4, 5];
    match look(table, seat, &key) {
        Look::Shown(0) => counts.wrong = counts.wrong.saturating_add(1),
        Look::Shown(_) => counts.shown = counts.shown.saturating_add(1),
        Look::Absent(_, _) => {
            let _ = publish(table, seat, &key, round as u64);
        }
    }
    if round % 3 == 0 {
        let place = round % table.words().places();
        let _ = empty(table, seat, place);
    }
}

/// The rounds of one thread. Each begins at another round, so that stamps and keys differ.
fn hammer(table: &Table<Stamped>, seat: Seat<Stamped>, keys: u32, rounds: u32) -> Counts
    requires own { IsSeatOf (words_of table.now) seat }
    requires idle { mode_of seat ≡ Idle }
    requires keys { 1 ≤ keys }
    requires few { rounds ≤ 1000000 }
{
    let mut seat = seat;
    let mut counts = Counts { shown: 0, wrong: 0 };
    let first = 7919 * seat.number();
    for i in 0..rounds {
        strike(table, &mut seat, keys, first + i, &mut counts);
    }
    counts
}

/// All threads.
fn hammers<R: Threads + Sync>(
    rt: &R,
    table: &Table<Stamped>,
    seats: Vec<Seat<Stamped>>,
    keys: u32,
    rounds: u32,
) -> Result<Vec<Counts>, AllocError>
    requires seats { All (λ s. IsSeatOf (words_of table.now) s × (mode_of s ≡ Idle)) seats.items }
    requires keys { 1 ≤ keys }
    requires few { rounds ≤ 1000000 }
{
    map_vec(
        rt,
        seats,
        &|seat| -> Counts
            requires { IsSeatOf (words_of table.now) seat × (mode_of seat ≡ Idle) × (1 ≤ keys) × (rounds ≤ 1000000) }
        { hammer(table, seat, keys, rounds) },
    )
}

/// How many looks of all threads were shown, where none was shown a wrong code.
fn all_shown(all: Vec<Counts>) -> Result<u64, Fail> {
    let mut shown = 0u64;
    for counts in all {
        if counts.wrong > 0 {
            return Err("a wrong code")?;
        }
        shown = shown.saturating_add(counts.shown as u64);
    }
    Ok(shown)
}

/// Four threads hammer so many places, and how many of their looks were shown. None may show a wrong code, and nobody may be
/// left at a place behind them.
fn shown<R: Threads + Sync + Alloc<A = Global>>(rt: &R, places: u32, keys: u32) -> Result<u64, Fail>
    requires places { (1 ≤ places) × (places ≤ 4096) }
    requires keys { 1 ≤ keys }
{
    let (table, mut seats) = Table::open(rt.alloc(), Stamped, places, 5)?;
    let mut last = seats.pop().ok_or("a seat")?;
    let shown = all_shown(hammers(rt, &table, seats, keys, 20000)?)?;
    match publish(&table, &mut last, &[9; 6], 1) {
        Publish::Published(_) => Ok(shown),
        Publish::NoPlace(_, _) => Err("a seat is left at a place")?,
    }
}

#[test]
fn shows_right_codes_at_one_place(rt: HostRuntime) -> Result<(), Fail> {
    let _ = shown(&rt, 1, 2)?;
    Ok(())
}

#[test]
fn shows_right_codes_at_many_places(rt: HostRuntime) -> Result<(), Fail> {
    assert!(rt; shown(&rt, 256, 300)? > 0);
    Ok(())
}
