//! Looks for keys in a table of 256 places, each of which shows a code of 39 words: by so many threads, each so many times, for so
//! many keys, as its words say. Prints how many looks there were and how many were shown.
//!
//! It is there to be measured: what one look takes is the difference between two runs.
#![tactic(auto)]

mod looking;

use anyhow::{Context, Result, ensure};
use looking::{Framed, fill, look_all};
use place_table::Table;
use std::env;

fn main(rt: HostRuntime) -> Result<()> {
    let threads = number(&rt, 1)?;
    let looks = number(&rt, 2)?;
    let keys = number(&rt, 3)?;
    ensure!(
        1 <= threads && threads < 64 && 1 <= keys && keys <= 256,
        "1 to 63 threads, 1 to 256 keys"
    );
    let (table, mut seats) = Table::open(rt.alloc(), Framed, 256, threads + 1)?;
    let mut first = seats.pop().context("a seat")?;
    fill(&table, &mut first);
    let mut shown = 0u64;
    for one in look_all(&rt, &table, seats, looks, keys)? {
        shown = shown.saturating_add(one);
    }
    println!(rt; "{} looks, {shown} shown", threads as u64 * looks as u64)?;
    Ok(())
}

/// The word of this number.
fn number(rt: &HostRuntime, word: usize) -> Result<u32> {
    let word = env::args(rt)?.nth(word).context("a number is missing")?;
    Ok(word.parse::<u32>()?)
}
