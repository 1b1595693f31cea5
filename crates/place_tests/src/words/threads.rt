//! Seats of two threads.
ghost use Rattle.std.specs.Prelude.{◌≡◌, ◌≤◌};
ghost use Rattle.place_words.specs.declared.view.Mode.TheVariants.{Idle};
ghost use Rattle.place_words.specs.Seats.{IsSeatOf, mode_of, places_of};

use crate::codes::Nine;
use place_words::{Fact, Seat, Words, open};
use std::test::Fail;
use std::thread::{Threads, join};

// Any fact whose values threads may share can be used by two of them.
fn both<F: Fact + Sync, R: Threads + Sync>(
    rt: &R,
    words: &Words<F>,
    a: Seat<F>,
    b: Seat<F>,
) -> (u64, u64)
    requires first { IsSeatOf words.now a × (mode_of a ≡ Idle) }
    requires second { IsSeatOf words.now b × (mode_of b ≡ Idle) }
    requires some { 1 ≤ places_of words.now }
{
    join(
        rt,
        || -> u64
            requires { IsSeatOf words.now a × (mode_of a ≡ Idle) × (1 ≤ places_of words.now) }
        {
            let mut a = a;
            words.knock(&mut a, 0)
        },
        || -> u64
            requires { IsSeatOf words.now b × (mode_of b ≡ Idle) × (1 ≤ places_of words.now) }
        {
            let mut b = b;
            words.knock(&mut b, 0)
        },
    )
}

#[test]
fn two_threads_knock(rt: HostRuntime) -> Result<(), Fail> {
    for _ in 0..100 {
        let (words, mut seats) = open(rt.alloc(), Nine, 1, 2)?;
        let (Some(b), Some(a)) = (seats.pop(), seats.pop()) else {
            panic!(rt; "no seat")
        };
        let (x, y) = both(&rt, &words, a, b);
        assert!(rt; (x, y) == (0, 1) || (x, y) == (1, 0));
    }
    Ok(())
}
