//! Two seats at one place.
ghost use Rattle.std.specs.Prelude.{◌≡◌};
ghost use Rattle.place_words.specs.Seats.{IsSeatOf};

use crate::codes::Nine;
use crate::words::player::Player;
use place_words::{Words, open};
use std::alloc::{AllocError, Global};

#[derive(Drop)]
pub(crate) struct Board {
    words: Words<Nine>,
    pub first: Player,
    pub second: Player,
    ghost own: { IsSeatOf words first.seat × IsSeatOf words second.seat },
}

impl Board {
    pub fn new(alloc: Global) -> Result<Option<Board>, AllocError> {
        let (words, mut seats) = open(alloc, Nine, 1, 2)?;
        let (Some(second), Some(first)) = (seats.pop(), seats.pop()) else {
            return Ok(None);
        };
        Ok(Some(Board {
            words,
            first: Player::new(first),
            second: Player::new(second),
        }))
    }

    /// A step of one of the seats, as `Player::act` says.
    pub fn act(&mut self, second: bool, choice: u8, tag: u64) -> Option<u64> {
        if second {
            self.second.act(&self.words, choice, tag)
        } else {
            self.first.act(&self.words, choice, tag)
        }
    }

    pub fn stages(&self) -> [u64; 2] {
        [self.first.stage, self.second.stage]
    }
}
