//! What the watch is told, and when.

use crate::runs::{copies, letter_shelf, run};
use crate::watches::{Counting, Holding, TOLD_ONCE};
use std::test::Fail;

/// Line 1 is held until line 2 is spoken, which the other worker does meanwhile. One worker alone would never come to it.
#[test]
fn two_lines_at_once(rt: HostRuntime) -> Result<(), Fail> {
    let alloc = rt.alloc();
    let command = ["speak", "--setup", "s", "--mode", "classify", "--jobs", "2"];
    let watch = Holding::new();
    let left = run(
        &rt,
        alloc,
        &command,
        letter_shelf(alloc)?,
        b"a\na\n",
        &watch,
    )?;
    assert_eq!(rt; watch.seen(), 1, "line 1 gave up waiting for line 2");
    assert_eq!(rt; left.out.bytes(), b"b\nb\n".as_slice());
    assert_eq!(rt; left.err.bytes(), b"".as_slice());
    assert_eq!(rt; left.status, 0);
    Ok(())
}

/// Two whole batches and two lines more, with three workers: 1,024 isn't a multiple of 3, and the turns go on from batch to batch.
#[test]
fn each_line_is_told_once(rt: HostRuntime) -> Result<(), Fail> {
    let alloc = rt.alloc();
    let command = ["speak", "--setup", "s", "--mode", "classify", "--jobs", "3"];
    let watch = Counting::new(alloc, 3, 2050)?;
    let input = copies(alloc, b"a\n", 2050)?;
    let left = run(&rt, alloc, &command, letter_shelf(alloc)?, &input, &watch)?;
    assert_eq!(rt; left.status, 0);
    assert_eq!(rt; left.out.bytes(), copies(alloc, b"b\n", 2050)?.as_slice());
    assert_eq!(rt; left.err.bytes(), b"".as_slice());
    for line in 1..2051 {
        assert_eq!(rt; watch.count(line), TOLD_ONCE, "line {line}");
    }
    assert_eq!(rt; watch.count(0), 0);
    assert_eq!(rt; watch.strays(), 0);
    Ok(())
}
