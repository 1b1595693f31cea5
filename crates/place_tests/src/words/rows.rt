//! Steps at one place with the words that they find, worked out by hand.

use crate::codes::Nine;
use crate::words::board::Board;
use place_words::open;
use std::test::Fail;

const FIRST: bool = false;

const SECOND: bool = true;

// What a row shows, and its steps: the seat, the number of the step (as `Player::act` has them), and the word found.
const ROWS: [(&str, &[(bool, u8, u64)]); 7] = [
    (
        "an empty place is knocked on by both",
        &[(FIRST, 0, 0), (SECOND, 0, 1), (FIRST, 0, 2), (SECOND, 0, 1)],
    ),
    (
        "a claimed place is knocked on, and not taken or emptied",
        &[
            (SECOND, 1, 0),
            (FIRST, 0, 12_884_901_888),
            (FIRST, 0, 12_884_901_889),
            (FIRST, 1, 12_884_901_888),
            (FIRST, 2, 12_884_901_888),
            (FIRST, 3, 12_884_901_888),
        ],
    ),
    (
        "a place that is read is not taken or emptied",
        &[
            (FIRST, 1, 0),
            (FIRST, 0, 0),
            (FIRST, 0, 8_589_934_592),
            (SECOND, 0, 4_294_967_296),
            (FIRST, 1, 4_294_967_297),
            (FIRST, 2, 4_294_967_297),
            (FIRST, 3, 4_294_967_297),
            (SECOND, 0, 7),
            (SECOND, 1, 4_294_967_297),
        ],
    ),
    (
        "a shown place that nobody reads is emptied once",
        &[
            (FIRST, 1, 0),
            (FIRST, 0, 0),
            (FIRST, 0, 8_589_934_592),
            (FIRST, 3, 4_294_967_296),
            (FIRST, 3, 0),
        ],
    ),
    (
        "and it is taken, filled and shown again by another",
        &[
            (FIRST, 1, 0),
            (FIRST, 0, 0),
            (FIRST, 0, 8_589_934_592),
            (SECOND, 2, 4_294_967_296),
            (SECOND, 0, 0),
            (SECOND, 0, 12_884_901_888),
            (FIRST, 0, 4_294_967_296),
            (FIRST, 0, 7),
            (FIRST, 2, 4_294_967_297),
        ],
    ),
    (
        "who knocked while it was claimed is counted when it is shown",
        &[
            (SECOND, 1, 0),
            (FIRST, 0, 12_884_901_888),
            (SECOND, 0, 0),
            (SECOND, 0, 12_884_901_889),
            (SECOND, 2, 4_294_967_297),
            (FIRST, 0, 4_294_967_297),
            (SECOND, 2, 4_294_967_296),
        ],
    ),
    (
        "an empty place where a seat is counted is not taken",
        &[
            (FIRST, 0, 0),
            (SECOND, 1, 1),
            (SECOND, 2, 1),
            (SECOND, 3, 1),
            (FIRST, 0, 1),
            (SECOND, 1, 0),
        ],
    ),
];

#[test]
fn finds_words(rt: HostRuntime) -> Result<(), Fail> {
    for (name, steps) in ROWS {
        let mut board = Board::new(rt.alloc())?.ok_or("two seats")?;
        for (second, choice, wanted) in steps {
            assert_eq!(rt; board.act(*second, *choice, 7), Some(*wanted), "{name}");
        }
    }
    Ok(())
}

#[test]
fn opens_places(rt: HostRuntime) -> Result<(), Fail> {
    for (places, seats) in [(1, 1), (1, 64), (4096, 1), (4096, 64)] {
        let (words, all) = open(rt.alloc(), Nine, places, seats)?;
        assert_eq!(rt; words.places(), places);
        assert_eq!(rt; all.len(), seats as usize);
        for i in 0..all.len() {
            assert_eq!(rt; all[i].number() as usize, i);
        }
    }
    Ok(())
}
