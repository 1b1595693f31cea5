//! Reads the token text of standard input, walks along one order of its first token, and makes the acceptor of all its orders: each as
//! often as a word of its own says. Prints how many tokens and fields there are, and how many states the walk and the acceptor made.
//!
//! It is there to be measured: what one time takes is the difference between two runs.
#![tactic(auto)]

mod walks;

use anyhow::{Context, Result};
use std::env;
use std::io::Read;
use token_record::{Token, field_count, read_tokens};
use walks::{all_orders, first_record, one_order, walks};

fn main(rt: HostRuntime) -> Result<()> {
    let alloc = rt.alloc();
    let mut text = Vec::new(alloc);
    rt.stdin().read_to_end(&mut text)?;
    for _ in 1..rounds(&rt, 1)? {
        let _tokens = read_tokens(alloc, &text)?;
    }
    let tokens = read_tokens(alloc, &text)?;
    println!(rt; "{} tokens, {} fields", tokens.len(), all_fields(&tokens))?;
    if let Some(record) = first_record(&tokens) {
        let order = one_order(alloc, record)?;
        let walked = walks(alloc, record, &order, rounds(&rt, 2)?)?;
        println!(rt; "a walk of {} bytes: {walked} states", order.len())?;
        let made = all_orders(alloc, record, rounds(&rt, 3)?)?;
        println!(rt; "all orders: {made} states")?;
    }
    Ok(())
}

/// How often something is done, which is the word of this number.
fn rounds(rt: &HostRuntime, word: usize) -> Result<u32> {
    let word = env::args(rt)?.nth(word).context("a number is missing")?;
    Ok(word.parse::<u32>()?)
}

/// The fields of all class tokens together.
fn all_fields(tokens: &[Token]) -> u64 {
    let mut all = 0u64;
    for token in tokens {
        if let Token::Class(record) = token {
            all = all.saturating_add(field_count(record));
        }
    }
    all
}
