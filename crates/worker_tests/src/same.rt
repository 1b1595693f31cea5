//! What is written is the same for every number of workers, places and rounds that are swept.

use crate::runs::{copies, run};
use sample_lines::toy_shelf;
use speak_core::NoWatch;
use std::str::from_utf8;
use std::test::Fail;

/// Eight workers share two places.
#[test]
fn many_workers_share_two_places(rt: HostRuntime) -> Result<(), Fail> {
    let alloc = rt.alloc();
    let command = [
        "speak",
        "--setup",
        "toy.setup",
        "--mode",
        "speak",
        "--jobs",
        "8",
        "--places",
        "2",
    ];
    let input = copies(alloc, b"3 cats\n", 200)?;
    let left = run(&rt, alloc, &command, toy_shelf(alloc)?, &input, &NoWatch)?;
    assert_eq!(rt;
        left.out.bytes(),
        copies(alloc, b"three cats\n", 200)?.as_slice()
    );
    assert_eq!(rt; left.err.bytes(), b"".as_slice());
    assert_eq!(rt; left.status, 0);
    Ok(())
}

// Names, numbers, dates and stops, an empty line, lines that have no reading, and one with a byte 0.
const MIXED: &[u8] =
    b"3 cats\nrain .\n2 may\n31 december 20 dogs\nRain\n.\n\n3 cats\n99\n100\n0 dogs\na\0b\n12 june\n40 mice\nmay\nmay may\n  \n7\n17 apples .\n3 cats\n20 march 21\ncats\nrain\n32 may\nX\n10\n2 may\ndogs 5\n01\n30 january\nrain\r\n6 cats";

const SPOKEN: &[u8] =
    b"three cats\nrain\nmay second\ndecember thirty first twenty dogs\n\n\n\nthree cats\nninety nine\n\nzero dogs\n\njune twelfth\nforty mice\nmay\nmay may\n\nseven\nseventeen apples\nthree cats\nmarch twentieth twenty one\ncats\nrain\nthirty two may\n\nten\nmay second\ndogs five\n\njanuary thirtieth\nrain\nsix cats\n";

const TOLD: &[u8] =
    b"line 5: no path\nline 10: no path\nline 12: byte 0 at 1\nline 17: no path\nline 25: no path\nline 29: no path\n";

// The workers, the rounds that are swept beside a batch, and how many callers that makes.
const WORKERS: [(&str, &str, usize); 10] = [
    ("1", "0", 1),
    ("1", "3", 2),
    ("2", "0", 2),
    ("2", "3", 3),
    ("3", "0", 3),
    ("3", "3", 4),
    ("8", "0", 8),
    ("8", "3", 9),
    ("63", "0", 63),
    ("63", "3", 64),
];

#[test]
fn workers_change_nothing(rt: HostRuntime) -> Result<(), Fail> {
    let alloc = rt.alloc();
    for (jobs, sweep, callers) in WORKERS {
        for places in ["1", "2", "256", "4096"] {
            let command = [
                "speak",
                "--setup",
                "toy.setup",
                "--mode",
                "speak",
                "--jobs",
                jobs,
                "--sweep",
                sweep,
                "--places",
                places,
            ];
            let left = run(&rt, alloc, &command, toy_shelf(alloc)?, MIXED, &NoWatch)?;
            let told = left.err.bytes();
            assert_eq!(rt;
                told,
                TOLD,
                "{jobs} workers, {places} places, {sweep} rounds"
            );
            let spoken = left.out.bytes();
            assert_eq!(rt;
                spoken,
                SPOKEN,
                "{jobs} workers, {places} places, {sweep} rounds"
            );
            assert_eq!(rt;
                (left.status, left.callers),
                (1, callers),
                "{jobs} workers, {places} places, {sweep} rounds"
            );
        }
    }
    Ok(())
}

/// Eight workers and a sweeper sum up the sample as one worker does, and the sweeper comes by each place in each round.
#[test]
fn a_sample_is_summed_up_alike(rt: HostRuntime) -> Result<(), Fail> {
    let alloc = rt.alloc();
    let many = [
        "speak", "--mode", "sample", "--count", "300", "--places", "2", "--jobs", "8", "--sweep",
        "10000", "--report",
    ];
    let one = [
        "speak", "--mode", "sample", "--count", "300", "--places", "2", "--report",
    ];
    let many = run(&rt, alloc, &many, toy_shelf(alloc)?, b"", &NoWatch)?;
    let one = run(&rt, alloc, &one, toy_shelf(alloc)?, b"", &NoWatch)?;
    assert!(rt; one.out.bytes().starts_with(b"lines 300\n"));
    assert_eq!(rt; many.out.bytes(), one.out.bytes());
    assert_eq!(rt; (one.status, many.status), (0, 0));
    let last = last_line(many.err.bytes());
    assert!(rt; last.starts_with("report sweep: done "));
    assert_eq!(rt; sum_of_numbers(last.as_bytes()), 20_000);
    assert!(rt; last_line(one.err.bytes()).starts_with("report total: lines 300 looks "));
    Ok(())
}

/// The last line of a text.
fn last_line(text: &[u8]) -> &str {
    from_utf8(text).unwrap_or("").lines().last().unwrap_or("")
}

/// The sum of the whole numbers that stand in a text.
fn sum_of_numbers(text: &[u8]) -> u64 {
    let mut sum = 0u64;
    let mut number = 0u64;
    for byte in text {
        if byte.is_ascii_digit() {
            number = number
                .saturating_mul(10)
                .saturating_add(u64::from(*byte & 15));
        } else {
            sum = sum.saturating_add(number);
            number = 0;
        }
    }
    sum.saturating_add(number)
}
