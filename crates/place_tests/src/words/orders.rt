//! Every order of four steps of each of two seats at one place.

use crate::words::board::Board;
use crate::words::model::Model;
use crate::words::player::{IDLE, READING};
use std::test::Fail;

// More than there are orders and beginnings of orders.
const MOST: u64 = 10_000_000;

// A board and the model that follows it.
#[derive(Drop)]
struct Both {
    board: Board,
    model: Model,
    tag: u64,
    differs: bool,
}

impl Both {
    // The same step on both, and whether there is one. It is kept where they don't find the same, or aren't at the
    // same then.
    fn act(&mut self, second: bool, choice: u8) -> bool {
        self.tag = self.tag.wrapping_add(1);
        let found = self.board.act(second, choice, self.tag);
        let told = self.model.act(second, choice, self.tag);
        if found != told || self.board.stages() != self.model.stages {
            self.differs = true;
        }
        found.is_some()
    }

    // Ends what the seats are at, and leaves the place empty, or shown.
    fn settle(&mut self, shown: bool) {
        for second in [false, true] {
            for _ in 0..2 {
                let stage = self.model.stages[second as usize];
                if stage != IDLE {
                    self.act(second, if stage == READING { 1 } else { 0 });
                }
            }
        }
        self.act(false, 3);
        if shown {
            self.act(false, 1);
            self.act(false, 0);
            self.act(false, 0);
        }
    }

    // The steps of an order, each a seat times 4 and a choice, and how many there are before one that the seat can't
    // take, or that is its fifth.
    fn run(&mut self, order: &[u8; 8]) -> usize {
        let mut taken = [0u8; 2];
        for i in 0..8 {
            let second = order[i] >= 4;
            if taken[second as usize] == 4 || !self.act(second, order[i] % 4) {
                return i;
            }
            taken[second as usize] = taken[second as usize].wrapping_add(1);
        }
        8
    }

    // How many orders there are, where the place is shown at first, or empty.
    fn orders(&mut self, shown: bool) -> u64 {
        let mut order = [0; 8];
        let mut count = 0u64;
        for _ in 0..MOST {
            self.settle(shown);
            let end = self.run(&order);
            if end == 8 {
                count = count.wrapping_add(1);
            }
            if self.differs || !advance(&mut order, end) {
                return count;
            }
        }
        0
    }
}

// The next order that differs at `end` or before.
fn advance(order: &mut [u8; 8], end: usize) -> bool {
    for i in (0..8).rev() {
        if i <= end {
            if order[i] < 7 {
                order[i] += 1;
                return true;
            }
            order[i] = 0;
        }
    }
    false
}

#[test]
fn steps_in_every_order(rt: HostRuntime) -> Result<(), Fail> {
    // The counts were worked out by a program of their own, from the table of the steps.
    for (shown, wanted) in [(false, 395_646), (true, 839_066)] {
        let board = Board::new(rt.alloc())?.ok_or("two seats")?;
        let model = Model {
            word: 0,
            data: 0,
            stages: [IDLE; 2],
        };
        let mut both = Both {
            board,
            model,
            tag: 0,
            differs: false,
        };
        assert_eq!(rt; both.orders(shown), wanted);
        assert!(rt; !both.differs);
    }
    Ok(())
}
