//! What looks, publishings and emptyings answer at places that were brought there step by step.

use crate::codes::Nine;
use crate::table::calls::{empty, look, one_seat, publish, two_seats};
use place_table::{Emptied, Found, Look, Publish, Refusal, Table};
use std::test::Fail;

const FIRST: [u64; 6] = [0, 2, 1, 0, 0, 0];

const OTHER: [u64; 6] = [1, 2, 1, 0, 0, 0];

/// What was found on the only way.
fn absent(found: Found) -> Look {
    Look::Absent([found, Found::Empty, Found::Empty, Found::Empty], 1)
}

/// Why the only way was refused.
fn refused(refusal: Refusal) -> Publish {
    Publish::NoPlace(
        [
            refusal,
            Refusal::Held(0),
            Refusal::Held(0),
            Refusal::Held(0),
        ],
        1,
    )
}

#[test]
fn nothing_is_found_in_an_empty_table(rt: HostRuntime) -> Result<(), Fail> {
    let (table, _first, second) = two_seats(rt.alloc(), 8)?;
    let mut second = second;
    assert_eq!(rt;
        look(&table, &mut second, &FIRST),
        Look::Absent([Found::Empty; 4], 4)
    );
    Ok(())
}

#[test]
fn a_seat_alone_puts_one_code_in_place_of_another(rt: HostRuntime) -> Result<(), Fail> {
    let (table, seat) = one_seat(rt.alloc(), 1)?;
    let mut seat = seat;
    assert_eq!(rt;
        publish(&table, &mut seat, &FIRST, 3),
        Publish::Published(0)
    );
    assert_eq!(rt;
        publish(&table, &mut seat, &OTHER, 4),
        Publish::Published(0)
    );
    assert_eq!(rt;
        look(&table, &mut seat, &FIRST),
        absent(Found::Other(OTHER))
    );
    assert_eq!(rt; look(&table, &mut seat, &OTHER), Look::Shown(9));
    assert_eq!(rt; empty(&table, &mut seat, 0), Emptied::Done);
    assert_eq!(rt; empty(&table, &mut seat, 0), Emptied::Was(0));
    Ok(())
}

#[test]
fn a_place_is_refused_while_another_seat_is_there(rt: HostRuntime) -> Result<(), Fail> {
    let (table, first, second) = two_seats(rt.alloc(), 1)?;
    let (mut first, mut second) = (first, second);
    assert_eq!(rt;
        publish(&table, &mut first, &FIRST, 3),
        Publish::Published(0)
    );
    assert_eq!(rt; table.words().knock(&mut second, 0), 4_294_967_296);
    assert_eq!(rt;
        publish(&table, &mut first, &OTHER, 3),
        refused(Refusal::Held(1))
    );
    assert_eq!(rt; empty(&table, &mut first, 0), Emptied::Was(4_294_967_297));
    assert_eq!(rt; look(&table, &mut first, &FIRST), Look::Shown(9));
    Ok(())
}

#[test]
fn a_place_is_refused_where_another_seat_came_while_it_was_empty(
    rt: HostRuntime,
) -> Result<(), Fail> {
    let (table, first, second) = two_seats(rt.alloc(), 1)?;
    let (mut first, mut second) = (first, second);
    assert_eq!(rt; table.words().knock(&mut second, 0), 0);
    assert_eq!(rt; look(&table, &mut first, &FIRST), absent(Found::Empty));
    assert_eq!(rt;
        publish(&table, &mut first, &FIRST, 3),
        refused(Refusal::Held(1))
    );
    assert_eq!(rt; empty(&table, &mut first, 0), Emptied::Was(1));
    Ok(())
}

#[test]
fn a_claim_is_told_with_its_seat(rt: HostRuntime) -> Result<(), Fail> {
    let (table, first, second) = two_seats(rt.alloc(), 1)?;
    let (mut first, mut second) = (first, second);
    assert!(rt; table.words().take_empty(&mut second, 0).is_ok());
    assert_eq!(rt; look(&table, &mut first, &FIRST), absent(Found::Claimed(1)));
    assert_eq!(rt;
        publish(&table, &mut first, &FIRST, 3),
        refused(Refusal::Claimed(1))
    );
    Ok(())
}

#[test]
fn one_key_may_be_shown_in_two_places(rt: HostRuntime) -> Result<(), Fail> {
    let (table, first, second) = two_seats(rt.alloc(), 4)?;
    let (mut first, mut second) = (first, second);
    assert_eq!(rt;
        publish(&table, &mut first, &FIRST, 3),
        Publish::Published(1)
    );
    assert_eq!(rt;
        publish(&table, &mut second, &FIRST, 4),
        Publish::Published(2)
    );
    assert_eq!(rt; look(&table, &mut first, &FIRST), Look::Shown(9));
    assert_eq!(rt; look(&table, &mut second, &FIRST), Look::Shown(9));
    Ok(())
}

/// Both seats find the code on the earlier way.
#[test]
fn two_codes_of_one_key_are_both_right(rt: HostRuntime) -> Result<(), Fail> {
    let (table, mut seats) = Table::open(rt.alloc(), Nine, 4, 2)?;
    let mut second = seats.pop().ok_or("a seat")?;
    let mut first = seats.pop().ok_or("a seat")?;
    let one = [9, 0, 2, 1, 0, 0, 0, 5, 6];
    let other = [9, 0, 2, 1, 0, 0, 0, 7, 8];
    assert_eq!(rt; table.publish(&mut first, &one), Publish::Published(1));
    assert_eq!(rt; table.publish(&mut second, &other), Publish::Published(2));
    let mut found = [0; 2048];
    assert_eq!(rt; table.look(&mut first, &FIRST, &mut found), Look::Shown(9));
    assert_eq!(rt; &found[..9], one.as_slice());
    let mut found = [0; 2048];
    assert_eq!(rt; table.look(&mut second, &FIRST, &mut found), Look::Shown(9));
    assert_eq!(rt; &found[..9], one.as_slice());
    Ok(())
}
