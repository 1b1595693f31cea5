//! A full table, and looks for its keys.
ghost use Rattle.std.specs.Prelude.{◌≡◌, ◌<◌, ◌≤◌, All};
ghost use Rattle.place_words.specs.Seats.{IsSeatOf, mode_of};
ghost use Rattle.place_words.specs.declared.view.Mode.TheVariants.{Idle};
ghost use Rattle.place_table.specs.Tables.{words_of};

use place_table::{Look, Table};
use place_words::{Fact, Seat};
use std::alloc::AllocError;
use std::thread::{Threads, map_vec};

/// A code is right where its first word is its length.
#[derive(Drop)]
pub(crate) struct Framed;

impl Fact for Framed {
    ghost use Rattle.std.specs.Prelude.{◌≡◌, ◌≤◌, length, slice_index};

    type Tag = ();

    ghost tag = { λ _. tt };

    ghost right = { λ _ code. (9 ≤ length code) × (length code ≤ 2048) × (slice_index code 0 ≡ length code) };

    ghost sized = { λ t code h. h };
}

/// The keys are told by their first word.
fn key_of(number: u32) -> [u64; 6] {
    [number as u64, 0, 0, 0, 0, 0]
}

/// Publishes a code for each of 256 keys. Each has another first way, so that it stands there.
pub(crate) fn fill(table: &Table<Framed>, seat: &mut Seat<Framed>)
    requires own { IsSeatOf (words_of table.now) seat.old }
    requires idle { mode_of seat.old ≡ Idle }
{
    for number in 0u32..256 {
        let mut code = [7; 39];
        code[0] = 39;
        code[1..7].copy_from_slice(&key_of(number));
        let _ = table.publish(seat, &code);
    }
}

/// Looks so many times, for one key after another, and answers how many looks were shown.
fn look_often(table: &Table<Framed>, seat: Seat<Framed>, looks: u32, keys: u32) -> u64
    requires own { IsSeatOf (words_of table.now) seat }
    requires idle { mode_of seat ≡ Idle }
    requires keys { (1 ≤ keys) × (keys ≤ 256) }
{
    let mut seat = seat;
    let mut into = [0; 2048];
    let mut shown = 0u64;
    let first = 64 * seat.number() as u64;
    for i in 0..looks {
        let key = key_of(((first + i as u64) % keys as u64) as u32);
        if let Look::Shown(_) = table.look(&mut seat, &key, &mut into) {
            shown = shown.saturating_add(1);
        }
    }
    shown
}

/// All threads, each with a seat of its own.
pub(crate) fn look_all<R: Threads + Sync>(
    rt: &R,
    table: &Table<Framed>,
    seats: Vec<Seat<Framed>>,
    looks: u32,
    keys: u32,
) -> Result<Vec<u64>, AllocError>
    requires seats { All (λ s. IsSeatOf (words_of table.now) s × (mode_of s ≡ Idle)) seats.items }
    requires keys { (1 ≤ keys) × (keys ≤ 256) }
{
    map_vec(
        rt,
        seats,
        &|seat| -> u64
            requires { IsSeatOf (words_of table.now) seat × (mode_of seat ≡ Idle) × (1 ≤ keys) × (keys ≤ 256) }
        { look_often(table, seat, looks, keys) },
    )
}
