//! One seat alone: what its looks, publishings and emptyings answer, beside a plain list of the keys at each place.
ghost use Rattle.std.specs.Prelude.{◌≡◌, ◌<◌};
ghost use Rattle.place_words.specs.Seats.{IsSeatOf, mode_of, places_of};
ghost use Rattle.place_tests.specs.declared.table.alone.TheConstants.{PLACES};
ghost use Rattle.place_words.specs.declared.view.Mode.TheVariants.{Idle};
ghost use Rattle.place_table.specs.Tables.{words_of};

use crate::table::calls::{empty, look, one_seat, publish};
use crate::table::codes::Stamped;
use place_table::{Emptied, Found, Look, Publish, Table};
use place_words::Seat;
use std::test::Fail;

const PLACES: u32 = 6;

/// The key of the code at each place, or none.
type Keys = [Option<[u64; 6]>; 6];

fn key_at(keys: &Keys, place: u32) -> Option<[u64; 6]> {
    *keys.get(place as usize)?
}

fn put_at(keys: &mut Keys, place: u32, key: Option<[u64; 6]>) {
    if let Some(at) = keys.get_mut(place as usize) {
        *at = key;
    }
}

/// What a look is to answer.
fn looked(keys: &Keys, ways: &[u32; 4], key: &[u64; 6]) -> Look {
    let mut found = [Found::Empty; 4];
    for i in 0..4 {
        match key_at(keys, ways[i]) {
            None => {}
            Some(other) if other == *key => return Look::Shown(9),
            Some(other) => found[i] = Found::Other(other),
        }
    }
    Look::Absent(found, 4)
}

/// Where a publishing is to put its code.
fn chosen(keys: &Keys, ways: &[u32; 4]) -> u32 {
    for way in ways {
        if key_at(keys, *way).is_none() {
            return *way;
        }
    }
    ways[0]
}

/// The ways of a key.
fn ways_of(table: &Table<Stamped>, key: &[u64; 6]) -> [u32; 4]
    requires places { places_of (words_of table.now) ≡ PLACES }
{
    [
        table.way(key, 0),
        table.way(key, 1),
        table.way(key, 2),
        table.way(key, 3),
    ]
}

/// One call of each kind, and whether each answered as the list says.
fn plays(table: &Table<Stamped>, seat: &mut Seat<Stamped>, keys: &mut Keys, round: u32) -> bool
    requires own { IsSeatOf (words_of table.now) seat.old }
    requires idle { mode_of seat.old ≡ Idle }
    requires places { places_of (words_of table.now) ≡ PLACES }
    ensures own { IsSeatOf (words_of table.now) seat.new }
    ensures idle { mode_of seat.new ≡ Idle }
{
    let key = [(round % 7) as u64, 1, 0, 0, 0, (round % 3) as u64];
    let ways = ways_of(table, &key);
    let looks = look(table, seat, &key) == looked(keys, &ways, &key);
    let place = chosen(keys, &ways);
    let publishes = publish(table, seat, &key, 5) == Publish::Published(place);
    put_at(keys, place, Some(key));
    let place = round % 5;
    let left = emptied(keys, place);
    put_at(keys, place, None);
    looks && publishes && empty(table, seat, place) == left
}

/// What an emptying is to answer.
fn emptied(keys: &Keys, place: u32) -> Emptied {
    match key_at(keys, place) {
        Some(_) => Emptied::Done,
        None => Emptied::Was(0),
    }
}

/// The first round in which an answer is another than the list says.
fn first_wrong(table: &Table<Stamped>, seat: Seat<Stamped>) -> Option<u32>
    requires own { IsSeatOf (words_of table.now) seat }
    requires idle { mode_of seat ≡ Idle }
    requires places { places_of (words_of table.now) ≡ PLACES }
{
    let mut seat = seat;
    let mut keys = [None; 6];
    for round in 0u32..500 {
        if !plays(table, &mut seat, &mut keys, round) {
            return Some(round);
        }
    }
    None
}

#[test]
fn one_seat_finds_what_it_left(rt: HostRuntime) -> Result<(), Fail> {
    let (table, seat) = one_seat(rt.alloc(), PLACES)?;
    assert_eq!(rt; first_wrong(&table, seat), None);
    Ok(())
}
