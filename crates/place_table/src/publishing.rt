//! Puts codes on ways.

ghost use Rattle.std.specs.Prelude.{◌≡◌, ◌≢◌, ◌<◌, ◌≤◌, ◌%◌, ℕ, All, length, take, []};
ghost use Rattle.place_words.specs.declared.layout.TheConstants.{STATE};
ghost use Rattle.place_words.specs.Modes.{place_or};
ghost use Rattle.place_words.specs.Alone.{left_by};
ghost use Rattle.place_words.specs.Seats.{IsSeatOf, mode_of, places_of, view_of};
ghost use Rattle.place_words.specs.declared.view.Mode.TheVariants.{Idle, Writing};
ghost use Rattle.place_table.specs.Entries.{Adds, fills, logged};
ghost use Rattle.place_table.specs.Publishings.{IsPublish, IsRefusal, IsSecond};
ghost use Rattle.place_table.specs.Parts.{IsAgain};
ghost use Rattle.place_table.specs.Alone.{PublishAlone};
ghost use Rattle.place_table.specs.Ways.{hash, way_count, ways};
ghost use Rattle.place_table.specs.Looks.{key_in};

use crate::answers::{Publish, Refusal};
use crate::ways::{count_of, first_way};
use place_words::{Fact, STATE, Seat, Words};

/// Writes a code at the place that the seat has just taken, and shows it.
fn fill<F: Fact>(words: &Words<F>, seat: &mut Seat<F>, code: &[u64])
    requires own { IsSeatOf words.now seat.old }
    requires taken { mode_of seat.old ≡ Writing (place_or 0 (mode_of seat.old)) [] }
    requires right { F.right (view_of seat.old).tag code.now }
    ensures own { IsSeatOf words.now seat.new }
    ensures view { (w : ℕ) × (view_of seat.new ≡ logged (view_of seat.old) (fills (place_or 0 (mode_of seat.old)) code.now w)) }
{
    for x in code {
        words.write_word(seat, *x);
    }
    let _ = words.show(seat);
}

/// Why a way was refused, by the first and the last word that were found there.
fn refusal(first: u64, last: u64) -> Refusal
    requires known { first ≢ STATE → first ≡ last }
    requires other { last ≢ STATE }
    requires full { first ≢ 0 }
    ensures { IsRefusal first last result }
{
    let state = last / STATE;
    let count = last % STATE;
    if state >= 2 {
        Refusal::Claimed((state - 2) as u32)
    } else if count > 0 {
        Refusal::Held(count as u32)
    } else {
        Refusal::Changed(first, last)
    }
}

/// Tries a way again where it was shown, or says why it is refused.
fn again<F: Fact>(words: &Words<F>, seat: &mut Seat<F>, place: u32, first: u64) -> Option<Refusal>
    requires own { IsSeatOf words.now seat.old }
    requires place { place < places_of words.now }
    requires idle { mode_of seat.old ≡ Idle }
    requires full { first ≢ 0 }
    ensures own { IsSeatOf words.now seat.new }
    ensures result { IsAgain place first (view_of seat.old) (view_of seat.new) result }
{
    if first != STATE {
        return Some(refusal(first, first));
    }
    match words.take_shown(seat, place) {
        Ok(()) => None,
        Err(last) => Some(refusal(first, last)),
    }
}

/// The second round, over ways of which none was empty, from the first way on.
fn put_shown<F: Fact>(
    words: &Words<F>,
    seat: &mut Seat<F>,
    first: u32,
    code: &[u64],
    found: &[u64; 4],
) -> Publish
    requires own { IsSeatOf words.now seat.old }
    requires idle { mode_of seat.old ≡ Idle }
    requires right { F.right (view_of seat.old).tag code.now }
    requires first { first ≡ hash (key_in code.now) % places_of words.now }
    requires full { All (λ w. w ≢ 0) (take (way_count (places_of words.now)) found.now) }
    ensures own { IsSeatOf words.now seat.new }
    ensures result { Adds (view_of seat.old) (view_of seat.new) (IsSecond code.now (ways (key_in code.now) (places_of words.now)) (take (way_count (places_of words.now)) found.now) result) }
{
    let places = words.places();
    let count = count_of(places);
    let mut refusals = [Refusal::Held(0); 4];
    for i in 0..count {
        let place = (first + i) % places;
        match again(words, seat, place, found[i as usize]) {
            None => {
                fill(words, seat, code);
                return Publish::Published(place);
            }
            Some(refusal) => refusals[i as usize] = refusal,
        }
    }
    Publish::NoPlace(refusals, count)
}

/// Words 1 to 6.
fn key_of(code: &[u64]) -> [u64; 6]
    requires long { 7 ≤ length code.now }
    ensures { result ≡ key_in code.now }
{
    [code[1], code[2], code[3], code[4], code[5], code[6]]
}

/// Puts a code on one of the ways of its key, and shows it there.
pub(crate) fn put<F: Fact>(words: &Words<F>, seat: &mut Seat<F>, code: &[u64]) -> Publish
    requires own { IsSeatOf words.now seat.old }
    requires idle { mode_of seat.old ≡ Idle }
    requires right { F.right (view_of seat.old).tag code.now }
    ensures own { IsSeatOf words.now seat.new }
    ensures result { Adds (view_of seat.old) (view_of seat.new) (IsPublish code.now (ways (key_in code.now) (places_of words.now)) result) }
    ensures alone { (view_of seat.old).seats ≡ 1 → PublishAlone (left_by (view_of seat.old).log) (ways (key_in code.now) (places_of words.now)) result }
{
    let places = words.places();
    let first = first_way(&key_of(code), places);
    let count = count_of(places);
    let mut found = [0; 4];
    for i in 0..count {
        let place = (first + i) % places;
        match words.take_empty(seat, place) {
            Ok(()) => {
                fill(words, seat, code);
                return Publish::Published(place);
            }
            Err(word) => found[i as usize] = word,
        }
    }
    put_shown(words, seat, first, code, &found)
}
