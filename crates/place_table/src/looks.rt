//! Looks for a key on its ways.

ghost use Rattle.std.specs.Prelude.{◌≡◌, ◌≢◌, ◌<◌, ◌≤◌, ◌%◌, ℕ, true, false, List, IfSome, All, length, take, drop, ◌++◌, ◌∷◌, []};
ghost use Rattle.place_words.specs.Places.{Agrees};
ghost use Rattle.place_words.specs.Modes.{place_or, seen_of};
ghost use Rattle.place_words.specs.Seats.{IsSeatOf, mode_of, places_of, view_of};
ghost use Rattle.place_words.specs.declared.view.Mode.TheVariants.{Idle, Reading};
ghost use Rattle.place_words.specs.declared.view.Entry.TheVariants.{Leave};
ghost use Rattle.place_table.specs.Entries.{logged, reads_of, seen_from};
ghost use Rattle.place_table.specs.Ways.{hash, way_count, ways};
ghost use Rattle.place_table.specs.Looks.{IsFind};
ghost use Rattle.place_table.specs.Parts.{AbsentFree, Called, Compared, IsFree};

use crate::answers::{Find, Found};
use crate::reads::read_between;
use crate::ways::{count_of, first_way};
use place_words::{Fact, STATE, Seat, Words};

/// Whether two keys are one.
fn is_same(a: &[u64; 6], b: &[u64; 6]) -> bool
    ensures yes { result ≡ true → a.now ≡ b.now }
    ensures no { result ≡ false → a.now ≢ b.now }
{
    a == b
}

/// Compares the key of a place that the seat has just begun to read, and leaves it where it is another.
fn compare<F: Fact>(
    words: &Words<F>,
    seat: &mut Seat<F>,
    key: &[u64; 6],
    into: &mut [u64],
) -> Option<Found>
    requires own { IsSeatOf words.now seat.old }
    requires reading { mode_of seat.old ≡ Reading (place_or 0 (mode_of seat.old)) [] }
    requires room { 7 ≤ length into.old }
    ensures own { IsSeatOf words.now seat.new }
    ensures result { Compared F.right key.now (place_or 0 (mode_of seat.old)) (take 7 into.new) (view_of seat.old) (view_of seat.new) result }
{
    read_between(words, seat, 0, 7, into);
    let other = [into[1], into[2], into[3], into[4], into[5], into[6]];
    if is_same(&other, key) {
        return None;
    }
    let _ = words.leave(seat, false);
    Some(Found::Other(other))
}

/// Knocks on a place. Where the key is there the seat reads on, and else it leaves.
fn call_at<F: Fact>(
    words: &Words<F>,
    seat: &mut Seat<F>,
    place: u32,
    key: &[u64; 6],
    into: &mut [u64],
) -> Option<Found>
    requires own { IsSeatOf words.now seat.old }
    requires place { place < places_of words.now }
    requires idle { mode_of seat.old ≡ Idle }
    requires room { 7 ≤ length into.old }
    ensures own { IsSeatOf words.now seat.new }
    ensures result { Called F.right key.now place (take 7 into.new) (view_of seat.old) (view_of seat.new) result }
    ensures free { (view_of seat.old).seats ≡ 1 → IfSome result IsFree }
{
    let word = words.knock(seat, place);
    match word / STATE {
        0 => {
            let _ = words.leave(seat, false);
            Some(Found::Empty)
        }
        1 => compare(words, seat, key, into),
        claimed => {
            let _ = words.leave(seat, false);
            Some(Found::Claimed((claimed - 2) as u32))
        }
    }
}

/// Looks for the key. Where it is found the seat is still there, and the first seven words are in `into`.
pub(crate) fn find_into<F: Fact>(
    words: &Words<F>,
    seat: &mut Seat<F>,
    key: &[u64; 6],
    into: &mut [u64],
) -> Find
    requires own { IsSeatOf words.now seat.old }
    requires idle { mode_of seat.old ≡ Idle }
    requires room { 7 ≤ length into.old }
    ensures own { IsSeatOf words.now seat.new }
    ensures result { IsFind F.right key.now (ways key.now (places_of words.now)) (take 7 into.new) (view_of seat.old) (view_of seat.new) result }
    ensures free { (view_of seat.old).seats ≡ 1 → AbsentFree result }
{
    let places = words.places();
    let first = first_way(key, places);
    let count = count_of(places);
    let mut found = [Found::Empty; 4];
    for i in 0..count {
        let place = (first + i) % places;
        match call_at(words, seat, place, key, into) {
            None => return Find::Holding(place),
            Some(f) => found[i as usize] = f,
        }
    }
    Find::Absent(found, count)
}

/// Reads the rest of the code after its first seven words, leaves, and answers its length.
pub(crate) fn copy_rest<F: Fact>(
    words: &Words<F>,
    seat: &mut Seat<F>,
    into: &mut [u64; 2048],
) -> usize
    requires own { IsSeatOf words.now seat.old }
    requires reading { mode_of seat.old ≡ Reading (place_or 0 (mode_of seat.old)) (seen_from 0 (take 7 into.old)) }
    requires code { (code : List ℕ) × F.right (view_of seat.old).tag code × Agrees (seen_from 0 (take 7 into.old)) code }
    ensures own { IsSeatOf words.now seat.new }
    ensures few { (7 ≤ result) × (result ≤ 2048) }
    ensures kept { take 7 into.new ≡ take 7 into.old }
    ensures right { F.right (view_of seat.old).tag (take result into.new) }
    ensures view { (w : ℕ) × (view_of seat.new ≡ logged (view_of seat.old) (reads_of (place_or 0 (mode_of seat.old)) (seen_from 7 (drop 7 (take result into.new))) ++ Leave (place_or 0 (mode_of seat.old)) w true ∷ [])) }
{
    let count = into[0];
    read_between(words, seat, 7, count as u32, into);
    let _ = words.leave(seat, true);
    count as usize
}
