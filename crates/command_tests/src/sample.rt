//! Lines of the generator, and the files that they are spoken by.
ghost use Rattle.std.specs.Prelude.{◌<◌, ◌^◌, length};

use norm_base::Shelf;
use sample_lines::{Summary, TOY_CLASSIFY, TOY_SETUP, TOY_VERBALIZE, sample_line, toy_shelf};
use std::alloc::{AllocError, Global};
use std::test::Fail;

// A state, the line that is made of it and the state after it.
const LINES: [(u32, &str, u32); 6] = [
    (1, "dogs . .", 2_035_015_474),
    (2_035_015_474, "rain 86 27 january 25", 2_111_915_288),
    (0, "88", 654_583_775),
    (2, "10 march", 846_338_638),
    (77, "69 19 june", 2_070_254_191),
    (2_147_483_647, "5 july 17 september", 595_070_966),
];

#[test]
fn makes_lines(rt: HostRuntime) -> Result<(), Fail> {
    for (state, wanted, next) in LINES {
        assert!(rt; state <= 2_147_483_647);
        let (line, after) = sample_line(rt.alloc(), state)?;
        assert_eq!(rt; line.as_slice(), wanted.as_bytes(), "from {state}");
        assert_eq!(rt; after, next, "from {state}");
    }
    Ok(())
}

#[test]
fn keeps_the_toy_files(rt: HostRuntime) -> Result<(), Fail> {
    let mut shelf = toy_shelf(rt.alloc())?;
    let files = [
        ("toy.setup", TOY_SETUP, 126),
        ("toy_classify.grm", TOY_CLASSIFY, 841),
        ("toy_verbalize.grm", TOY_VERBALIZE, 1467),
    ];
    for (name, wanted, length) in files {
        let file = shelf.fetch(name).ok().flatten().ok_or("a file")?;
        assert_eq!(rt; file.as_slice(), wanted, "{name}");
        assert_eq!(rt; file.len(), length, "{name}");
    }
    assert!(rt; shelf.fetch("toy").ok().flatten().is_none());
    Ok(())
}

// The first two lines from the state 1, as they are spoken, and their summary.
const SPOKEN: [Option<&[u8]>; 2] = [
    Some(b"dogs"),
    Some(b"rain eighty six january twenty seventh twenty five"),
];

const SUMMARY: &[u8] = b"lines 2\nspoken 2\nrefused 0\nbytes 56\nsum 5408\nfirst dogs
last rain eighty six january twenty seventh twenty five\n";

// A line that was refused, and one without words.
const SILENT: [Option<&[u8]>; 3] = [None, Some(b"a"), Some(b"")];

const SILENT_SUMMARY: &[u8] = b"lines 3\nspoken 2\nrefused 1\nbytes 4\nsum 127\nfirst \nlast \n";

fn summary_of(alloc: Global, lines: &[Option<&[u8]>]) -> Result<Vec<u8>, AllocError>
    requires { length lines.now < 2 ^ 32 }
{
    let mut summary = Summary::new(alloc);
    for line in lines {
        summary.add(alloc, *line)?;
    }
    summary.text(alloc)
}

#[test]
fn sums_up(rt: HostRuntime) -> Result<(), Fail> {
    let alloc = rt.alloc();
    assert_eq!(rt; summary_of(alloc, &SPOKEN)?.as_slice(), SUMMARY);
    assert_eq!(rt; summary_of(alloc, &SILENT)?.as_slice(), SILENT_SUMMARY);
    assert_eq!(rt;
        summary_of(alloc, &[])?.as_slice(),
        b"lines 0\nspoken 0\nrefused 0\nbytes 0\nsum 0\nfirst \nlast \n".as_slice()
    );
    Ok(())
}
