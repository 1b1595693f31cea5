//! The table.

ghost use Rattle.std.specs.Prelude.{◌≡◌, ◌<◌, ◌≤◌, ◌+◌, ℕ, IfOk, Some, vec_len};
ghost use Rattle.std.specs.List.{slice_get};
ghost use Rattle.place_words.specs.Modes.{idle};
ghost use Rattle.place_words.specs.Seats.{IsSeatOf, fact_of, mode_of, number_of, places_of, view_of};
ghost use Rattle.place_words.specs.declared.view.Mode.TheVariants.{Idle};
ghost use Rattle.place_table.specs.Entries.{Adds};
ghost use Rattle.place_table.specs.Ways.{way_at, way_count, ways};
ghost use Rattle.place_table.specs.Looks.{Finds, IsLook, key_in};
ghost use Rattle.place_table.specs.Publishings.{IsPublish};
ghost use Rattle.place_table.specs.Emptyings.{IsEmptied};
ghost use Rattle.place_table.specs.Alone.{EmptiedAlone, LookAlone, PublishAlone};
ghost use Rattle.place_table.specs.Tables.{words_left, words_of};

use crate::answers::{Emptied, Find, Look, Publish};
use crate::looks::{copy_rest, find_into};
use crate::publishing::put;
use crate::ways::first_way;
use place_words::{Fact, Seat, Words};
use std::alloc::{AllocError, Global};

/// Places that hold codes, each found by its key.
#[derive(Drop)]
pub struct Table<F: Fact> {
    words: Words<F>,
}

impl<F: Fact> Table<F> {
    /// A table of empty places, and all of its seats, numbered from 0.
    pub fn open(
        alloc: Global,
        fact: F,
        places: u32,
        seats: u32,
    ) -> Result<(Table<F>, Vec<Seat<F>>), AllocError>
        requires places { (1 ≤ places) × (places ≤ 4096) }
        requires seats { (1 ≤ seats) × (seats ≤ 64) }
        ensures fact { IfOk result (λ t. fact_of (words_of t.0) ≡ fact) }
        ensures places { IfOk result (λ t. places_of (words_of t.0) ≡ places) }
        ensures count { IfOk result (λ t. vec_len t.1 ≡ seats) }
        ensures own { IfOk result (λ t. (k : ℕ) (s : _) → slice_get t.1.items k ≡ Some s → IsSeatOf (words_of t.0) s) }
        ensures numbers { IfOk result (λ t. (k : ℕ) (s : _) → slice_get t.1.items k ≡ Some s → number_of s ≡ k) }
        ensures views { IfOk result (λ t. (k : ℕ) (s : _) → slice_get t.1.items k ≡ Some s → view_of s ≡ idle (F.tag fact) seats k (k + 1)) }
    {
        let (words, all) = place_words::open(alloc, fact, places, seats)?;
        Ok((Table { words }, all))
    }

    /// The words of its places.
    pub fn words(&self) -> &Words<F>
        ensures { result.now ≡ words_of self.now }
    {
        &self.words
    }

    /// The way of this number, where a code of the key may stand.
    pub fn way(&self, key: &[u64; 6], i: u32) -> u32
        requires few { i < way_count (places_of (words_of self.now)) }
        ensures { result ≡ way_at key.now (places_of (words_of self.now)) i }
    {
        let places = self.words.places();
        (first_way(key, places) + i) % places
    }

    /// Looks for a key, and copies the code that it finds to the front of `into`.
    pub fn look(&self, seat: &mut Seat<F>, key: &[u64; 6], into: &mut [u64; 2048]) -> Look
        requires own { IsSeatOf (words_of self.now) seat.old }
        requires idle { mode_of seat.old ≡ Idle }
        ensures own { IsSeatOf (words_of self.now) seat.new }
        ensures idle { mode_of seat.new ≡ Idle }
        ensures look { Adds (view_of seat.old) (view_of seat.new) (IsLook F.right (view_of seat.old).tag key.now (ways key.now (places_of (words_of self.now))) into.new result) }
        ensures alone { (view_of seat.old).seats ≡ 1 → LookAlone (words_left (view_of seat.old)) key.now (ways key.now (places_of (words_of self.now))) into.new result }
    {
        match find_into(&self.words, seat, key, into) {
            Find::Absent(found, count) => Look::Absent(found, count),
            Find::Holding(_) => Look::Shown(copy_rest(&self.words, seat, into)),
        }
    }

    /// Looks for a key, and stays at the place where it finds it. The seat reads there, and has read the length of the code and its key. Its
    /// caller reads what else it wants of the code by [`words`](Table::words), at indices below its length, and then leaves with `hit`.
    pub fn find(&self, seat: &mut Seat<F>, key: &[u64; 6]) -> Find
        requires own { IsSeatOf (words_of self.now) seat.old }
        requires idle { mode_of seat.old ≡ Idle }
        ensures own { IsSeatOf (words_of self.now) seat.new }
        ensures find { Finds F.right key.now (ways key.now (places_of (words_of self.now))) (view_of seat.old) (view_of seat.new) result }
    {
        let mut seven = [0; 7];
        find_into(&self.words, seat, key, &mut seven)
    }

    /// Puts a code on one of the ways of its key, and shows it there: on the first that is empty, or else on the first
    /// where a code is shown that no seat reads.
    pub fn publish(&self, seat: &mut Seat<F>, code: &[u64]) -> Publish
        requires own { IsSeatOf (words_of self.now) seat.old }
        requires idle { mode_of seat.old ≡ Idle }
        requires right { F.right (view_of seat.old).tag code.now }
        ensures own { IsSeatOf (words_of self.now) seat.new }
        ensures idle { mode_of seat.new ≡ Idle }
        ensures publish { Adds (view_of seat.old) (view_of seat.new) (IsPublish code.now (ways (key_in code.now) (places_of (words_of self.now))) result) }
        ensures alone { (view_of seat.old).seats ≡ 1 → PublishAlone (words_left (view_of seat.old)) (ways (key_in code.now) (places_of (words_of self.now))) result }
    {
        put(&self.words, seat, code)
    }

    /// Makes a place empty where a code is shown that no seat reads.
    pub fn empty_place(&self, seat: &mut Seat<F>, place: u32) -> Emptied
        requires own { IsSeatOf (words_of self.now) seat.old }
        requires idle { mode_of seat.old ≡ Idle }
        requires place { place < places_of (words_of self.now) }
        ensures own { IsSeatOf (words_of self.now) seat.new }
        ensures idle { mode_of seat.new ≡ Idle }
        ensures empty { Adds (view_of seat.old) (view_of seat.new) (IsEmptied place result) }
        ensures alone { (view_of seat.old).seats ≡ 1 → EmptiedAlone (words_left (view_of seat.old)) place result }
    {
        match self.words.empty(seat, place) {
            Ok(()) => Emptied::Done,
            Err(w) => Emptied::Was(w),
        }
    }
}
