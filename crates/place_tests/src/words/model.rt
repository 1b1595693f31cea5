//! What the steps of two seats do at one place, as plain numbers.

use crate::words::player::{IDLE, KNOCKED, READING, WRITING, WRITTEN};
use place_words::STATE;

/// The state word of the place, what its words were last filled with, and what each seat is at.
#[derive(Drop)]
pub(crate) struct Model {
    pub word: u64,
    pub data: u64,
    pub stages: [u64; 2],
}

impl Model {
    // From one word to another, where it is found; the seat is at `stage` then.
    fn exchange(&mut self, second: bool, from: u64, to: u64, stage: u64) -> u64 {
        let found = self.word;
        if found == from {
            self.word = to;
            self.stages[second as usize] = stage;
        }
        found
    }

    // The word becomes another; the seat is at `stage` then.
    fn change(&mut self, second: bool, to: u64, stage: u64) -> u64 {
        let found = self.word;
        self.word = to;
        self.stages[second as usize] = stage;
        found
    }

    /// The same step as of `Player::act`.
    pub fn act(&mut self, second: bool, choice: u8, tag: u64) -> Option<u64> {
        let claim = if second { 3 * STATE } else { 2 * STATE };
        let shown = self.word / STATE == 1;
        match (self.stages[second as usize], choice) {
            (IDLE, 0) => {
                let stage = if shown { READING } else { KNOCKED };
                Some(self.change(second, self.word.wrapping_add(1), stage))
            }
            (IDLE, 1) => Some(self.exchange(second, 0, claim, WRITING)),
            (IDLE, 2) => Some(self.exchange(second, STATE, claim, WRITING)),
            (IDLE, 3) => Some(self.exchange(second, STATE, 0, IDLE)),
            (KNOCKED, 0) | (READING, 1 | 2) => {
                Some(self.change(second, self.word.wrapping_sub(1), IDLE))
            }
            (READING, 0) => Some(self.data),
            (WRITING, 0) => {
                self.data = tag;
                self.stages[second as usize] = WRITTEN;
                Some(0)
            }
            (WRITTEN, 0) => {
                Some(self.change(second, self.word.wrapping_sub(claim - STATE), IDLE))
            }
            _ => None,
        }
    }
}
