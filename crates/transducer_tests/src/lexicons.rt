//! What lexicons read, and how great they are.

ghost use Rattle.std.specs.Prelude.{◌≡◌, IfOk, OnOk, All};
ghost use Rattle.weighted_relations.specs.Relations.{IsLabel};
ghost use Rattle.lexicon_trees.specs.Entries.{IsEntry};

use crate::readings::readings;
use lexicon_trees::{Entry, lexicon};
use std::alloc::{AllocError, Global};
use std::test::Fail;

/// The labels of a text. A byte 0 stands for the label 1.
fn labels(alloc: Global, text: &str) -> Result<Vec<u16>, AllocError>
    ensures { IfOk result (λ v. All IsLabel v.items) }
{
    let mut all = Vec::new(alloc);
    for byte in text.as_bytes() {
        all.push(label(*byte))?;
    }
    Ok(all)
}

/// The label of a byte.
fn label(byte: u8) -> u16
    ensures { IsLabel result }
{
    if byte == 0 { 1 } else { u16::from(byte) }
}

/// Puts an entry after the others.
fn put(
    alloc: Global,
    entries: &mut Vec<Entry>,
    input: &str,
    output: &str,
    weight: u32,
) -> Result<(), AllocError>
    requires { All IsEntry entries.old.items }
    ensures { OnOk result (All IsEntry entries.new.items) }
{
    let input = labels(alloc, input)?;
    let output = labels(alloc, output)?;
    let entry = Entry {
        input,
        output,
        weight: u64::from(weight),
    };
    entries.push(entry)?;
    Ok(())
}

#[test]
fn entries_of_one_front_and_ties(rt: HostRuntime) -> Result<(), Fail> {
    let alloc = rt.alloc();
    let mut entries = Vec::new(alloc);
    put(alloc, &mut entries, "ab", "c", 0)?;
    put(alloc, &mut entries, "a", "b", 3)?;
    put(alloc, &mut entries, "a", "b", 3)?;
    put(alloc, &mut entries, "a", "b", 1)?;
    put(alloc, &mut entries, "a", "b", 2)?;
    put(alloc, &mut entries, "a", "a", 0)?;
    put(alloc, &mut entries, "abc", "abc", 4)?;
    put(alloc, &mut entries, "", "x", 0)?;
    put(alloc, &mut entries, "", "", 7)?;
    let m = lexicon(alloc, &entries)?;
    assert_eq!(rt;
        readings(alloc, &m, 8)?.as_str(),
        "abc|abc|4 ab|c|0 a|a|0 a|b|1 a|b|2 a|b|3 |x|0 ||7 "
    );
    assert_eq!(rt; m.top(), 7);
    Ok(())
}

#[test]
fn inputs_share_their_fronts(rt: HostRuntime) -> Result<(), Fail> {
    let alloc = rt.alloc();
    let mut entries = Vec::new(alloc);
    assert_eq!(rt; lexicon(alloc, &entries)?.len(), 1);
    put(alloc, &mut entries, "spoken", "spoken", 0)?;
    put(alloc, &mut entries, "spokes", "spokes", 0)?;
    put(alloc, &mut entries, "spoke", "spoke", 1)?;
    // six letters, and one more
    assert_eq!(rt; lexicon(alloc, &entries)?.len(), 8);
    put(alloc, &mut entries, "spoke", "s", 0)?;
    put(alloc, &mut entries, "spokes", "s", 0)?;
    // six letters without output, and one letter written after each of two
    assert_eq!(rt; lexicon(alloc, &entries)?.len(), 16);
    Ok(())
}

/// A word of ten letters.
fn word(alloc: Global, seed: u64) -> Result<Vec<u16>, AllocError>
    ensures { IfOk result (λ v. All IsLabel v.items) }
{
    let mut all = Vec::new(alloc);
    let mut x = seed;
    for i in 0..10u64 {
        x = x
            .wrapping_mul(6364136223846793005)
            .wrapping_add(1442695040888963407 ^ i);
        all.push(letter(x))?;
    }
    Ok(all)
}

/// One of 26 letters.
fn letter(x: u64) -> u16
    ensures { IsLabel result }
{
    match u16::try_from((x >> 33) % 26) {
        Ok(n) if n < 26 => 97 + n,
        _ => 97,
    }
}

/// So many pairs of words.
fn pairs(alloc: Global, count: u64) -> Result<Vec<Entry>, AllocError>
    ensures { IfOk result (λ v. All IsEntry v.items) }
{
    let mut entries = Vec::new(alloc);
    for i in 0..count {
        let input = word(alloc, i)?;
        let output = word(alloc, !i)?;
        entries.push(Entry {
            input,
            output,
            weight: 0,
        })?;
    }
    Ok(entries)
}

#[test]
fn a_hundred_thousand_entries(rt: HostRuntime) -> Result<(), Fail> {
    let alloc = rt.alloc();
    let entries = pairs(alloc, 100000)?;
    let m = lexicon(alloc, &entries)?;
    // each of the outputs has ten states of its own at least, and few of the inputs share more than four letters
    assert!(rt; m.len() > 1500000);
    assert!(rt; m.len() < 2000002);
    Ok(())
}
