//! The ways of keys, worked out by hand.

use crate::table::codes::Stamped;
use place_table::Table;
use std::test::Fail;

#[test]
fn ways_follow_the_first(rt: HostRuntime) -> Result<(), Fail> {
    let (table, _seats) = Table::open(rt.alloc(), Stamped, 256, 1)?;
    let keys = [
        ([0, 2, 1, 0, 0, 0], [5, 6, 7, 8]),
        ([7, 0, 0, 0, 0, 0], [217, 218, 219, 220]),
        ([u64::MAX; 6], [90, 91, 92, 93]),
    ];
    for (key, wanted) in keys {
        let ways = [
            table.way(&key, 0),
            table.way(&key, 1),
            table.way(&key, 2),
            table.way(&key, 3),
        ];
        assert_eq!(rt; ways, wanted);
    }
    Ok(())
}

#[test]
fn ways_go_round_the_end(rt: HostRuntime) -> Result<(), Fail> {
    let (table, _seats) = Table::open(rt.alloc(), Stamped, 32, 1)?;
    let key = [1, 0, 0, 0, 0, 0];
    let ways = [
        table.way(&key, 0),
        table.way(&key, 1),
        table.way(&key, 2),
        table.way(&key, 3),
    ];
    assert_eq!(rt; ways, [31, 0, 1, 2]);
    let (small, _seats) = Table::open(rt.alloc(), Stamped, 3, 1)?;
    let key = [1, 2, 3, 4, 5, 6];
    let ways = [small.way(&key, 0), small.way(&key, 1), small.way(&key, 2)];
    assert_eq!(rt; ways, [2, 0, 1]);
    Ok(())
}
