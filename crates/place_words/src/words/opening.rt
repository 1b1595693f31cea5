//! Empty places, and the seats at them.
ghost use Rattle.std.specs.Prelude.{◌≡◌, ℕ, ◌+◌, ◌<◌, ◌≤◌, [], IfOk, Some, vec_len};
ghost use Rattle.std.specs.List.{slice_get};
ghost use Rattle.place_words.specs.Modes.{idle, start};
ghost use Rattle.place_words.specs.Seats.{IsSeatOf, fact_of, number_of, places_of, view_of};

use super::{About, Seat, Words};
use crate::fact::Fact;
use crate::layout::PLACE_WORDS;
use crate::plays::Cut;
use crate::view::View;
use atomic_table::Table;
use std::alloc::{AllocError, Global};

/// All seats of these words, of the base's first one, which stands for all of them.
fn deal<F: Fact>(
    alloc: Global,
    words: &Words<F>,
    first: atomic_table::Seat<(), View<F::Tag>>,
    seats: u32,
) -> Result<Vec<Seat<F>>, AllocError>
    requires seats { (1 ≤ seats) × (seats ≤ 64) }
    requires own { first.table_id ≡ words.now.table.shared.table_id }
    requires first { first.me ≡ (start (F.tag (fact_of words.now)) seats, []) }
    ensures count { IfOk result (λ v. vec_len v ≡ seats) }
    ensures own { IfOk result (λ v. (k : ℕ) (s : _) → slice_get v.items k ≡ Some s → IsSeatOf words.now s) }
    ensures numbers { IfOk result (λ v. (k : ℕ) (s : _) → slice_get v.items k ≡ Some s → number_of s ≡ k) }
    ensures views { IfOk result (λ v. (k : ℕ) (s : _) → slice_get v.items k ≡ Some s → view_of s ≡ idle (F.tag (fact_of words.now)) seats k (k + 1)) }
{
    let mut all = Vec::with_capacity(alloc, seats as usize)?;
    let mut base = first;
    for number in 0..seats - 1 {
        let rest = words.table.shared.split_seat::<Cut>(&mut base);
        all.push(Seat {
            base,
            number,
            place: 0,
            stored: 0,
        })?;
        base = rest;
    }
    all.push(Seat {
        base,
        number: seats - 1,
        place: 0,
        stored: 0,
    })?;
    Ok(all)
}

/// The words of empty places, and the base's first seat.
fn lay<F: Fact>(
    alloc: Global,
    about: About<F>,
) -> Result<(Words<F>, atomic_table::Seat<(), View<F::Tag>>), AllocError>
    requires places { (1 ≤ about.places) × (about.places ≤ 4096) }
    requires seats { (1 ≤ about.seats) × (about.seats ≤ 64) }
    ensures about { IfOk result (λ t. t.0.about ≡ about) }
    ensures own { IfOk result (λ t. t.1.table_id ≡ t.0.table.shared.table_id) }
    ensures seat { IfOk result (λ t. t.1.me ≡ (start (F.tag about.fact) about.seats, [])) }
{
    let zeros = Vec::from_elem(alloc, 0u64, PLACE_WORDS * about.places as usize)?;
    let (table, seat) = Table::of_words(alloc, zeros.as_slice(), &about)?;
    Ok((Words { table, about }, seat))
}

/// Places that are all empty, and all of their seats, numbered from 0 and idle, in the order of their numbers.
///
/// It takes 16,392 bytes a place, and as much again while it runs. The one error is want of memory, which drops `fact`.
pub fn open<F: Fact>(
    alloc: Global,
    fact: F,
    places: u32,
    seats: u32,
) -> Result<(Words<F>, Vec<Seat<F>>), AllocError>
    requires places { (1 ≤ places) × (places ≤ 4096) }
    requires seats { (1 ≤ seats) × (seats ≤ 64) }
    ensures words { IfOk result (λ t. (fact_of t.0 ≡ fact) × (places_of t.0 ≡ places)) }
    ensures count { IfOk result (λ t. vec_len t.1 ≡ seats) }
    ensures own { IfOk result (λ t. (k : ℕ) (s : _) → slice_get t.1.items k ≡ Some s → IsSeatOf t.0 s) }
    ensures numbers { IfOk result (λ t. (k : ℕ) (s : _) → slice_get t.1.items k ≡ Some s → number_of s ≡ k) }
    ensures views { IfOk result (λ t. (k : ℕ) (s : _) → slice_get t.1.items k ≡ Some s → view_of s ≡ idle (F.tag fact) seats k (k + 1)) }
{
    let (words, first) = lay(
        alloc,
        About {
            fact,
            places,
            seats,
        },
    )?;
    let all = deal(alloc, &words, first, seats)?;
    Ok((words, all))
}
