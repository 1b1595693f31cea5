//! The eight steps, one call each.
ghost use Rattle.std.specs.Prelude.{◌≡◌, ◌≢◌, ℕ, ◌+◌, ◌*◌, ◌<◌, ◌≤◌, Bool, true, List, length, MatchResult};
ghost use Rattle.place_words.specs.declared.layout.TheConstants.{CODE_WORDS, STATE};
ghost use Rattle.place_words.specs.declared.view.Mode.TheVariants.{Idle};
ghost use Rattle.place_words.specs.Places.{state_index, word_index, Agrees};
ghost use Rattle.place_words.specs.Modes.{place_or, seen_of, stored_of, IsAt, IsReading, IsWriting};
ghost use Rattle.place_words.specs.Steps.{knocked, left, saw, took_empty, took_shown, wrote, showed, emptied, match_word};
ghost use Rattle.place_words.specs.Alone.{Lone, Settled};
ghost use Rattle.place_words.specs.Seats.{IsSeatOf, IsStillSeat, fact_of, mode_of, number_of, places_of, view_of};

use super::{Seat, Words};
use crate::fact::Fact;
use crate::layout::{PLACE_WORDS, STATE};
use crate::plays::{Empties, Hits, Knocks, Misses, Reads, Shows, TakesEmpty, TakesShown, Writes};

impl<F: Fact> Seat<F> {
    /// Its number among the seats that were opened with it.
    pub fn number(&self) -> u32
        ensures value { result ≡ number_of self.now }
        ensures range { result < 64 }
    {
        self.number
    }
}

impl<F: Fact> Words<F> {
    /// How many places there are.
    pub fn places(&self) -> u32
        ensures value { result ≡ places_of self.now }
        ensures range { (1 ≤ result) × (result ≤ 4096) }
    {
        self.about.places
    }

    /// The fact that they were opened with.
    pub fn fact(&self) -> &F
        ensures { result.now ≡ fact_of self.now }
    {
        &self.about.fact
    }

    /// Counts the seat in at the place, and gives the state word that it found. Where the place was shown, the seat
    /// reads there from now on, and nobody takes the place until it leaves.
    pub fn knock(&self, seat: &mut Seat<F>, place: u32) -> u64
        requires own { IsSeatOf self.now seat.old }
        requires place { place < places_of self.now }
        requires idle { mode_of seat.old ≡ Idle }
        ensures own { IsStillSeat seat.old seat.new }
        ensures view { view_of seat.new ≡ knocked (view_of seat.old) place result }
        ensures lone { Lone (view_of seat.old) (state_index place) result × Settled (view_of seat.old) result }
    {
        let word = PLACE_WORDS * place as usize;
        let found = self
            .table
            .shared
            .fetch_add::<Knocks>(&mut seat.base, word, 1);
        seat.place = place;
        found
    }

    /// Counts the seat out at its place, and gives the state word that it found. `hit` is kept in the log alone: that
    /// what the seat sought was there.
    pub fn leave(&self, seat: &mut Seat<F>, hit: bool) -> u64
        requires own { IsSeatOf self.now seat.old }
        requires at { IsAt (mode_of seat.old) }
        requires hit { hit ≡ true → IsReading (mode_of seat.old) }
        ensures own { IsStillSeat seat.old seat.new }
        ensures view { view_of seat.new ≡ left (view_of seat.old) (place_or 0 (mode_of seat.old)) result hit }
        ensures lone { Lone (view_of seat.old) (state_index (place_or 0 (mode_of seat.old))) result }
    {
        let word = PLACE_WORDS * seat.place as usize;
        if hit {
            self.table.shared.fetch_sub::<Hits>(&mut seat.base, word, 1)
        } else {
            self.table
                .shared
                .fetch_sub::<Misses>(&mut seat.base, word, 1)
        }
    }

    /// Gives a word of the place that the seat reads. What a seat reads between a knock and its leave is all of one
    /// right code, as far as that code goes.
    pub fn read_word(&self, seat: &mut Seat<F>, index: u32) -> u64
        requires own { IsSeatOf self.now seat.old }
        requires index { index < CODE_WORDS }
        requires reading { IsReading (mode_of seat.old) }
        ensures own { IsStillSeat seat.old seat.new }
        ensures view { view_of seat.new ≡ saw (view_of seat.old) (place_or 0 (mode_of seat.old)) index result }
        ensures right { (code : List ℕ) × F.right (view_of seat.old).tag code × Agrees (seen_of (mode_of seat.new)) code }
        ensures lone { Lone (view_of seat.old) (word_index (place_or 0 (mode_of seat.old)) index) result }
    {
        let word = PLACE_WORDS * seat.place as usize + 1 + index as usize;
        self.table.shared.load::<Reads<F>>(&mut seat.base, word)
    }

    /// Claims the place where it is empty and nobody is counted there. Where it isn't, the error is the state word
    /// that was found, and the seat stays idle.
    pub fn take_empty(&self, seat: &mut Seat<F>, place: u32) -> Result<(), u64>
        requires own { IsSeatOf self.now seat.old }
        requires place { place < places_of self.now }
        requires idle { mode_of seat.old ≡ Idle }
        ensures own { IsStillSeat seat.old seat.new }
        ensures view { MatchResult result (λ _. view_of seat.new ≡ took_empty (view_of seat.old) place 0) (λ w. (w ≢ 0) × (view_of seat.new ≡ took_empty (view_of seat.old) place w)) }
        ensures lone { let w = match_word 0 result in Lone (view_of seat.old) (state_index place) w × Settled (view_of seat.old) w }
    {
        let claim = (2 + seat.number as u64) * STATE;
        let word = PLACE_WORDS * place as usize;
        let found = self
            .table
            .shared
            .compare_exchange::<TakesEmpty>(&mut seat.base, word, 0, claim);
        seat.place = place;
        seat.stored = 0;
        if found == 0 { Ok(()) } else { Err(found) }
    }

    /// Claims the place where it is shown and nobody is counted there. Where it isn't, the error is the state word
    /// that was found, and the seat stays idle.
    pub fn take_shown(&self, seat: &mut Seat<F>, place: u32) -> Result<(), u64>
        requires own { IsSeatOf self.now seat.old }
        requires place { place < places_of self.now }
        requires idle { mode_of seat.old ≡ Idle }
        ensures own { IsStillSeat seat.old seat.new }
        ensures view { MatchResult result (λ _. view_of seat.new ≡ took_shown (view_of seat.old) place STATE) (λ w. (w ≢ STATE) × (view_of seat.new ≡ took_shown (view_of seat.old) place w)) }
        ensures lone { let w = match_word STATE result in Lone (view_of seat.old) (state_index place) w × Settled (view_of seat.old) w }
    {
        let claim = (2 + seat.number as u64) * STATE;
        let word = PLACE_WORDS * place as usize;
        let found = self
            .table
            .shared
            .compare_exchange::<TakesShown>(&mut seat.base, word, STATE, claim);
        seat.place = place;
        seat.stored = 0;
        if found == STATE { Ok(()) } else { Err(found) }
    }

    /// Stores the next word at the place that the seat claims.
    pub fn write_word(&self, seat: &mut Seat<F>, value: u64)
        requires own { IsSeatOf self.now seat.old }
        requires writing { IsWriting (mode_of seat.old) }
        requires room { length (stored_of (mode_of seat.old)) < CODE_WORDS }
        ensures own { IsStillSeat seat.old seat.new }
        ensures view { view_of seat.new ≡ wrote (view_of seat.old) (place_or 0 (mode_of seat.old)) value }
    {
        let word = PLACE_WORDS * seat.place as usize + 1 + seat.stored as usize;
        self.table
            .shared
            .store::<Writes>(&mut seat.base, word, value);
        seat.stored += 1;
    }

    /// Shows what the seat stored, which is a right code, and gives the state word that it found.
    pub fn show(&self, seat: &mut Seat<F>) -> u64
        requires own { IsSeatOf self.now seat.old }
        requires writing { IsWriting (mode_of seat.old) }
        requires right { F.right (view_of seat.old).tag (stored_of (mode_of seat.old)) }
        ensures own { IsStillSeat seat.old seat.new }
        ensures view { view_of seat.new ≡ showed (view_of seat.old) (place_or 0 (mode_of seat.old)) result }
        ensures lone { Lone (view_of seat.old) (state_index (place_or 0 (mode_of seat.old))) result }
    {
        let claim = (1 + seat.number as u64) * STATE;
        let word = PLACE_WORDS * seat.place as usize;
        self.table
            .shared
            .fetch_sub::<Shows>(&mut seat.base, word, claim)
    }

    /// Makes the place empty where it is shown and nobody is counted there. Where it isn't, the error is the state
    /// word that was found.
    pub fn empty(&self, seat: &mut Seat<F>, place: u32) -> Result<(), u64>
        requires own { IsSeatOf self.now seat.old }
        requires place { place < places_of self.now }
        requires idle { mode_of seat.old ≡ Idle }
        ensures own { IsStillSeat seat.old seat.new }
        ensures view { MatchResult result (λ _. view_of seat.new ≡ emptied (view_of seat.old) place STATE) (λ w. (w ≢ STATE) × (view_of seat.new ≡ emptied (view_of seat.old) place w)) }
        ensures lone { let w = match_word STATE result in Lone (view_of seat.old) (state_index place) w × Settled (view_of seat.old) w }
    {
        let word = PLACE_WORDS * place as usize;
        let found = self
            .table
            .shared
            .compare_exchange::<Empties>(&mut seat.base, word, STATE, 0);
        if found == STATE { Ok(()) } else { Err(found) }
    }
}
