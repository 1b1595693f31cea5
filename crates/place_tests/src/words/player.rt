//! A seat at place 0 that tells at run time what it is at.
ghost use Rattle.std.specs.Prelude.{◌≡◌, ℕ, ◌+◌, ◌<◌, ◌≤◌, slice_index};
ghost use Rattle.place_words.specs.declared.view.Mode.TheVariants.{Idle};
ghost use Rattle.place_words.specs.Modes.{stored_of};
ghost use Rattle.place_words.specs.Seats.{IsSeatOf, mode_of};
ghost use Rattle.place_tests.specs.Stages.{stage_of};

use crate::codes::Nine;
use place_words::{STATE, Seat, Words};

pub(crate) const IDLE: u64 = 0;

pub(crate) const KNOCKED: u64 = 1;

pub(crate) const READING: u64 = 2;

pub(crate) const WRITING: u64 = 3;
/// As many more as words are stored.
pub(crate) const WRITTEN: u64 = 12;

#[derive(Drop)]
pub(crate) struct Player {
    pub seat: Seat<Nine>,
    pub stage: u64,
    ghost told: { stage ≡ stage_of (mode_of seat) },
    ghost first: { 4 ≤ stage → slice_index (stored_of (mode_of seat)) 0 ≡ 9 },
}

#[tactic(auto, using(crate::proofs::Stages::idle_at, crate::proofs::Stages::at_place, crate::proofs::Stages::reading_at, crate::proofs::Stages::writing_at, crate::proofs::Stages::stored_at, crate::proofs::Stages::knocked_stage))]
impl Player {
    pub fn new(seat: Seat<Nine>) -> Player
        requires idle { mode_of seat ≡ Idle }
        ensures seat { result.seat ≡ seat }
    {
        Player { seat, stage: IDLE }
    }

    fn knock(&mut self, words: &Words<Nine>) -> u64
        requires own { IsSeatOf words.now self.old.seat }
        requires stage { self.old.stage ≡ 0 }
        ensures own { IsSeatOf words.now self.new.seat }
    {
        let found = words.knock(&mut self.seat, 0);
        self.stage = if found / STATE == 1 { READING } else { KNOCKED };
        found
    }

    fn leave(&mut self, words: &Words<Nine>, hit: bool) -> u64
        requires own { IsSeatOf words.now self.old.seat }
        requires stage { self.old.stage ≡ 2 }
        ensures own { IsSeatOf words.now self.new.seat }
    {
        let found = words.leave(&mut self.seat, hit);
        self.stage = IDLE;
        found
    }

    fn turn_away(&mut self, words: &Words<Nine>) -> u64
        requires own { IsSeatOf words.now self.old.seat }
        requires stage { self.old.stage ≡ 1 }
        ensures own { IsSeatOf words.now self.new.seat }
    {
        let found = words.leave(&mut self.seat, false);
        self.stage = IDLE;
        found
    }

    fn read(&mut self, words: &Words<Nine>, index: u32) -> u64
        requires own { IsSeatOf words.now self.old.seat }
        requires stage { self.old.stage ≡ 2 }
        requires index { index < 9 }
        ensures own { IsSeatOf words.now self.new.seat }
    {
        words.read_word(&mut self.seat, index)
    }

    fn take_empty(&mut self, words: &Words<Nine>) -> u64
        requires own { IsSeatOf words.now self.old.seat }
        requires stage { self.old.stage ≡ 0 }
        ensures own { IsSeatOf words.now self.new.seat }
    {
        match words.take_empty(&mut self.seat, 0) {
            Ok(()) => {
                self.stage = WRITING;
                0
            }
            Err(found) => found,
        }
    }

    fn take_shown(&mut self, words: &Words<Nine>) -> u64
        requires own { IsSeatOf words.now self.old.seat }
        requires stage { self.old.stage ≡ 0 }
        ensures own { IsSeatOf words.now self.new.seat }
    {
        match words.take_shown(&mut self.seat, 0) {
            Ok(()) => {
                self.stage = WRITING;
                STATE
            }
            Err(found) => found,
        }
    }

    fn empty(&mut self, words: &Words<Nine>) -> u64
        requires own { IsSeatOf words.now self.old.seat }
        requires stage { self.old.stage ≡ 0 }
        ensures own { IsSeatOf words.now self.new.seat }
    {
        match words.empty(&mut self.seat, 0) {
            Ok(()) => STATE,
            Err(found) => found,
        }
    }

    fn write(&mut self, words: &Words<Nine>, value: u64)
        requires own { IsSeatOf words.now self.old.seat }
        requires stage { (3 ≤ self.old.stage) × (self.old.stage < 12) }
        requires first { self.old.stage ≡ 3 → value ≡ 9 }
        ensures own { IsSeatOf words.now self.new.seat }
        ensures stage { self.new.stage ≡ self.old.stage + 1 }
    {
        words.write_word(&mut self.seat, value);
        self.stage += 1;
    }

    // All nine words of a code, the last eight alike.
    fn fill(&mut self, words: &Words<Nine>, tag: u64) -> u64
        requires own { IsSeatOf words.now self.old.seat }
        requires stage { self.old.stage ≡ 3 }
        ensures own { IsSeatOf words.now self.new.seat }
    {
        self.write(words, 9);
        for stored in 0..8u64 {
            self.write(words, tag);
        }
        0
    }

    fn show(&mut self, words: &Words<Nine>) -> u64
        requires own { IsSeatOf words.now self.old.seat }
        requires stage { self.old.stage ≡ 12 }
        ensures own { IsSeatOf words.now self.new.seat }
    {
        let found = words.show(&mut self.seat);
        self.stage = IDLE;
        found
    }

    // The four steps of a seat that is idle.
    fn begin(&mut self, words: &Words<Nine>, choice: u8) -> Option<u64>
        requires own { IsSeatOf words.now self.old.seat }
        requires stage { self.old.stage ≡ 0 }
        ensures own { IsSeatOf words.now self.new.seat }
    {
        match choice {
            0 => Some(self.knock(words)),
            1 => Some(self.take_empty(words)),
            2 => Some(self.take_shown(words)),
            3 => Some(self.empty(words)),
            _ => None,
        }
    }

    /// One of the steps that the seat may take now, by its number, and the word that it found; `None` where there are
    /// not so many. The nine writes of a code are taken at once here, and what is read is the last word of a code.
    pub fn act(&mut self, words: &Words<Nine>, choice: u8, tag: u64) -> Option<u64>
        requires own { IsSeatOf words.now self.old.seat }
        ensures own { IsSeatOf words.now self.new.seat }
    {
        match (self.stage, choice) {
            (IDLE, _) => self.begin(words, choice),
            (KNOCKED, 0) => Some(self.turn_away(words)),
            (READING, 0) => Some(self.read(words, 8)),
            (READING, 1) => Some(self.leave(words, true)),
            (READING, 2) => Some(self.leave(words, false)),
            (WRITING, 0) => Some(self.fill(words, tag)),
            (WRITTEN, 0) => Some(self.show(words)),
            _ => None,
        }
    }
}
