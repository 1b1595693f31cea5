//! The operations on transducers that no grammar names.

use crate::machines::machine;
use crate::readings::readings;
use fst_core::{Follow, reached, reads_empty, reverse, star, text, trim, weighted};
use std::test::Fail;

#[test]
fn texts_are_read_and_reversed(rt: HostRuntime) -> Result<(), Fail> {
    let alloc = rt.alloc();
    let a = text(alloc, &[97])?;
    assert!(rt; !reads_empty(alloc, &a)?);
    assert!(rt; reads_empty(alloc, &star(alloc, &a)?)?);
    let dear = weighted(alloc, &text(alloc, &[257, 98])?, 5)?;
    assert_eq!(rt; dear.top(), 5);
    let back = reverse(alloc, &dear)?;
    assert_eq!(rt; readings(alloc, &back, 9)?.as_str(), "b\u{101}|b\u{101}|5 ");
    Ok(())
}

#[test]
fn dead_states_go(rt: HostRuntime) -> Result<(), Fail> {
    let alloc = rt.alloc();
    // an arc from the start to a final state, with a state that leads there and one that leads nowhere
    let steps = [
        (0, b'a', b'b', 5, 1),
        (0, b'c', b'c', 7, 3),
        (2, b'a', b'b', 5, 1),
    ];
    let m = machine(alloc, 4, &steps, &[(1, 0)])?.expect(&rt, "the parts fit");
    assert_eq!(rt; m.top(), 7);
    let back = reverse(alloc, &m)?;
    assert_eq!(rt; readings(alloc, &back, 9)?.as_str(), "a|b|5 ");
    let kept = trim(alloc, &m)?;
    assert_eq!(rt; kept.len(), 2);
    assert_eq!(rt; kept.top(), 5);
    assert_eq!(rt; readings(alloc, &kept, 9)?.as_str(), "a|b|5 ");
    let mut search = reached(alloc, &m, Follow::Every)?;
    assert_eq!(rt; search.found(), [0, 1, 3].as_slice());
    search.clear();
    assert_eq!(rt; search.found().len(), 0);
    Ok(())
}
