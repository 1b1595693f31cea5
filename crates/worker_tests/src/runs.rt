//! A run of the top call, on devices in memory that never fail.

use norm_base::{Name, SureShelf, SureSink, SureSource};
use speak_core::{Watch, speak};
use std::alloc::{AllocError, Global};
use std::thread::Threads;

/// What a run left: its status, its output and its errors.
#[derive(Drop)]
pub(crate) struct Left {
    pub(crate) status: u8,
    pub(crate) out: SureSink,
    pub(crate) err: SureSink,
    /// How many callers it had.
    pub(crate) callers: usize,
}

/// A run of these words over the files of a shelf.
pub(crate) fn run<R: Threads + Sync, W: Watch + Sync>(
    rt: &R,
    alloc: Global,
    command: &[&str],
    shelf: SureShelf,
    input: &[u8],
    watch: &W,
) -> Result<Left, AllocError> {
    let words = words(alloc, command)?;
    let mut shelf = shelf;
    let mut source = SureSource::new(Vec::from_slice(alloc, input)?, 4096);
    let mut out = SureSink::new(alloc, 4096);
    let mut err = SureSink::new(alloc, 4096);
    let mut callers = Vec::new(alloc);
    let status = speak(
        rt,
        alloc,
        &words,
        &mut shelf,
        &mut source,
        &mut out,
        &mut err,
        watch,
        &mut callers,
    );
    Ok(Left {
        status,
        out,
        err,
        callers: callers.len(),
    })
}

fn words(alloc: Global, all: &[&str]) -> Result<Vec<String>, AllocError> {
    let mut words = Vec::new(alloc);
    for word in all {
        words.push(String::from_str(alloc, *word)?)?;
    }
    Ok(words)
}

/// A shelf with a setup `s` and a grammar whose rule reads a and writes b.
pub(crate) fn letter_shelf(alloc: Global) -> Result<SureShelf, AllocError> {
    let setup = file(
        alloc,
        "s",
        b"tokenizer_grammar: \"g.grm\"\ntokenizer_rule: \"MAIN\"\n",
    )?;
    let grammar = file(alloc, "g.grm", b"export MAIN = \"a\" : \"b\";")?;
    Ok(SureShelf::new(alloc, vec![in alloc; setup, grammar]?))
}

fn file(alloc: Global, name: &str, text: &[u8]) -> Result<(Name, Vec<u8>), AllocError> {
    Ok((
        Name::new(alloc, name.as_bytes())?,
        Vec::from_slice(alloc, text)?,
    ))
}

/// So many copies of a line, each with its end.
pub(crate) fn copies(alloc: Global, line: &[u8], count: u32) -> Result<Vec<u8>, AllocError> {
    let mut all = Vec::new(alloc);
    for _ in 0..count {
        all.extend_from_slice(line)?;
    }
    Ok(all)
}
