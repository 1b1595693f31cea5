//! A long code that is read where it stands, by as few words as its caller wants.
ghost use Rattle.std.specs.Prelude.{◌≡◌, ◌<◌, ◌≤◌};
ghost use Rattle.place_words.specs.Modes.{IsReading};
ghost use Rattle.place_words.specs.Seats.{IsSeatOf, mode_of};
ghost use Rattle.place_words.specs.declared.view.Mode.TheVariants.{Idle};
ghost use Rattle.place_table.specs.Tables.{words_of};
ghost use Rattle.place_tests.specs.Framed.{IsFramed};

use place_table::{Find, Publish, Table};
use place_words::{Fact, Seat, Words};
use std::test::Fail;

/// A code is right where its first word is its length.
#[derive(Drop)]
struct Framed;

impl Fact for Framed {
    ghost use Rattle.place_tests.specs.Framed.{IsFramed};

    type Tag = ();

    ghost tag = { λ _. tt };

    ghost right = { λ _ code. IsFramed code };

    ghost sized = { λ t code h. (h.0, h.1, h.2) };
}

const KEY: [u64; 6] = [1, 2, 3, 4, 5, 6];

/// How many rows of six words a code has behind its head of nine.
const ROWS: u32 = 339;

/// A code of 2,043 words. Its rows begin with the numbers 1, 4, 7 and so on, and the other words of a row are its number and one to five more.
fn rows() -> [u64; 2043]
    ensures { IsFramed result }
{
    let mut code = [0; 2043];
    code[0] = 2043;
    code[1..7].copy_from_slice(&KEY);
    for i in 9usize..2043 {
        let (row, word) = ((i - 9) / 6, (i - 9) % 6);
        code[i] = (3 * row + 1 + word) as u64;
    }
    code
}

/// A word of the place where the seat is. It is counted.
fn read(words: &Words<Framed>, seat: &mut Seat<Framed>, index: u32, count: &mut u32) -> u64
    requires own { IsSeatOf words.now seat.old }
    requires reading { IsReading (mode_of seat.old) }
    requires index { index < 2048 }
    ensures own { IsSeatOf words.now seat.new }
    ensures reading { IsReading (mode_of seat.new) }
{
    *count = count.saturating_add(1);
    words.read_word(seat, index)
}

/// The number of the first row that begins with this number or a greater one, and what it begins with, by halving.
fn first_row(
    words: &Words<Framed>,
    seat: &mut Seat<Framed>,
    wanted: u64,
    count: &mut u32,
) -> (u32, u64)
    requires own { IsSeatOf words.now seat.old }
    requires reading { IsReading (mode_of seat.old) }
    ensures own { IsSeatOf words.now seat.new }
    ensures reading { IsReading (mode_of seat.new) }
    ensures within { result.0 ≤ 339 }
{
    let length = read(words, seat, 0, count).min(2043);
    let mut low = 0;
    let mut high = (length.saturating_sub(9) / 6) as u32;
    let mut found = 0;
    while low < high {
        let middle = low + (high - low) / 2;
        let first = read(words, seat, 9 + 6 * middle, count);
        if first < wanted {
            low = middle + 1;
        } else {
            high = middle;
            found = first;
        }
    }
    (low, found)
}

/// The row that begins with this number, and whether the row behind it begins with another.
fn row_of(
    words: &Words<Framed>,
    seat: &mut Seat<Framed>,
    wanted: u64,
    count: &mut u32,
) -> ([u64; 6], bool)
    requires own { IsSeatOf words.now seat.old }
    requires reading { IsReading (mode_of seat.old) }
    ensures own { IsSeatOf words.now seat.new }
    ensures reading { IsReading (mode_of seat.new) }
{
    let (at, found) = first_row(words, seat, wanted, count);
    let mut row = [found; 6];
    if at >= ROWS {
        return (row, false);
    }
    for i in 1u32..6 {
        row[i as usize] = read(words, seat, 9 + 6 * at + i, count);
    }
    if at + 1 >= ROWS {
        return (row, true);
    }
    let next = read(words, seat, 9 + 6 * (at + 1), count);
    (row, next != wanted)
}

/// Finds the code, reads the row that begins with this number, and leaves. How many words were read, if it is that row alone.
fn read_row(table: &Table<Framed>, seat: &mut Seat<Framed>, wanted: u64) -> Option<u32>
    requires own { IsSeatOf (words_of table.now) seat.old }
    requires idle { mode_of seat.old ≡ Idle }
    ensures own { IsSeatOf (words_of table.now) seat.new }
    ensures idle { mode_of seat.new ≡ Idle }
{
    match table.find(seat, &KEY) {
        Find::Absent(_, _) => None,
        Find::Holding(_) => {
            let mut count = 28;
            let (row, is_alone) = row_of(table.words(), seat, wanted, &mut count);
            let _ = table.words().leave(seat, true);
            let is_row = is_alone && row == row_from(wanted);
            if is_row { Some(count) } else { None }
        }
    }
}

/// A number and the five after it.
fn row_from(first: u64) -> [u64; 6] {
    let mut row = [first; 6];
    for i in 1..6 {
        row[i] = row[i - 1].wrapping_add(1);
    }
    row
}

/// The most words that were read for one row, where each row is found.
fn most_read(table: &Table<Framed>, seat: Seat<Framed>) -> Option<u32>
    requires own { IsSeatOf (words_of table.now) seat }
    requires idle { mode_of seat ≡ Idle }
{
    let mut seat = seat;
    let mut most = 0;
    for row in 0u64..339 {
        most = read_row(table, &mut seat, 3 * row + 1)?.max(most);
    }
    Some(most)
}

#[test]
fn one_row_of_a_long_code_takes_few_words(rt: HostRuntime) -> Result<(), Fail> {
    let (table, mut seats) = Table::open(rt.alloc(), Framed, 4, 1)?;
    let mut seat = seats.pop().ok_or("a seat")?;
    let published = table.publish(&mut seat, &rows());
    assert!(rt; matches!(published, Publish::Published(_)));
    assert_eq!(rt; most_read(&table, seat), Some(44));
    Ok(())
}
