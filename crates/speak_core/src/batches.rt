// A batch of lines: cut off a text, answered, and told.

ghost use Rattle.std.specs.Prelude.{◌≡◌, ◌<◌, ◌≤◌, ◌+◌, ◌^◌, ◌++◌, IfOk, OnErr, OnOk, length, map, string_bytes};
ghost use Rattle.speak_core.specs.Answers.{all_read, fault_text, line_text, words_text};
ghost use Rattle.speak_core.specs.Parts.{Cuts, TellsFront, answer_in, answer_of, lines_of, tally_of};

use crate::reports::report_line;
use normaliser::{LineFault, Spoken, Tally};
use std::alloc::{AllocError, Global};
use text_lines::first_line;

/// How many lines a batch may have.
pub(crate) const MOST_LINES: usize = 1024;

/// Lines of a text that are handled together.
#[derive(Drop)]
pub(crate) struct Batch<'a> {
    pub(crate) lines: Vec<&'a [u8]>,
    /// What follows them.
    pub(crate) rest: &'a [u8],
}

/// Cuts a batch off the front of a text.
pub(crate) fn cut_batch<'a>(alloc: Global, text: &'a [u8]) -> Result<Batch<'a>, AllocError>
    ensures cuts { IfOk result (λ batch. Cuts 1024 text.now (lines_of batch.lines.items) batch.rest.now) }
    ensures some { 0 < length text.now → IfOk result (λ batch. 0 < length batch.lines.items) }
{
    let mut lines = Vec::new(alloc);
    let mut rest = text;
    while !rest.is_empty() && lines.len() < MOST_LINES {
        let (line, after) = first_line(rest);
        lines.push(line)?;
        rest = after;
    }
    Ok(Batch { lines, rest })
}

/// What a line says, its words or its first fault, and what came of its looks.
#[derive(Drop)]
pub(crate) struct Heard {
    pub(crate) answer: Result<Spoken, LineFault>,
    pub(crate) tally: Tally,
}

/// What lines say.
#[derive(Drop)]
pub(crate) struct Answers {
    pub(crate) all: Vec<Heard>,
    /// They didn't end for want of memory.
    pub(crate) is_whole: bool,
}

/// Whether each line was read.
pub(crate) fn are_read(heard: &[Heard]) -> bool
    ensures { result ≡ all_read (map answer_of heard.now) }
{
    let mut rest = heard;
    while let [first, after @ ..] = rest {
        if first.answer.is_err() {
            return false;
        }
        rest = after;
    }
    true
}

/// What is written for lines.
#[derive(Drop)]
pub(crate) struct Told {
    /// The words of each line and a LF.
    pub(crate) words: Vec<u8>,
    /// The faults, and with a report what came of each line's looks.
    pub(crate) faults: Vec<u8>,
    /// They didn't end for want of memory.
    pub(crate) is_whole: bool,
}

/// Tells what was heard of lines in order, up to the first for which memory is wanting. They are numbered on from the number of the first.
pub(crate) fn tell_answers(alloc: Global, report: bool, heard: &[Heard], first: u64) -> Told
    requires { first + length heard.now < 2 ^ 64 }
    ensures { TellsFront report first heard.now result.words.items result.faults.items result.is_whole }
{
    let mut told = Told {
        words: Vec::new(alloc),
        faults: Vec::new(alloc),
        is_whole: false,
    };
    let mut number = first;
    for line in heard {
        let Ok(()) = tell(
            alloc,
            report,
            number,
            line,
            &mut told.words,
            &mut told.faults,
        ) else {
            return told;
        };
        number += 1;
    }
    told.is_whole = true;
    told
}

/// Adds what is written for one line, or nothing for want of memory.
fn tell(
    alloc: Global,
    report: bool,
    number: u64,
    heard: &Heard,
    words: &mut Vec<u8>,
    faults: &mut Vec<u8>,
) -> Result<(), AllocError>
    ensures words { OnOk result (words.new.items ≡ words.old.items ++ words_text (answer_of heard.now)) }
    ensures faults { OnOk result (faults.new.items ≡ faults.old.items ++ line_text report number (answer_of heard.now) (tally_of heard.now)) }
    ensures words_kept { OnErr result (words.new.items ≡ words.old.items) }
    ensures faults_kept { OnErr result (faults.new.items ≡ faults.old.items) }
{
    let text = line_text(alloc, report, number, heard)?;
    let kept = faults.len();
    faults.extend_from_slice(&text)?;
    if write(&heard.answer, words).is_err() {
        faults.truncate(kept);
        return Err(AllocError);
    }
    Ok(())
}

/// What is told of one line: its fault, and with a report what came of its looks.
fn line_text(alloc: Global, report: bool, number: u64, heard: &Heard) -> Result<Vec<u8>, AllocError>
    ensures { IfOk result (λ text. text.items ≡ line_text report number (answer_of heard.now) (tally_of heard.now)) }
{
    let mut text = Vec::new(alloc);
    if let Err(fault) = &heard.answer {
        let line = fault_line(alloc, number, *fault)?;
        text.extend_from_slice(line.as_bytes())?;
    }
    if report {
        let line = report_line(alloc, number, &heard.tally)?;
        text.extend_from_slice(line.as_bytes())?;
    }
    Ok(text)
}

/// Adds the words of a line and a LF, or nothing for want of memory.
fn write(answer: &Result<Spoken, LineFault>, words: &mut Vec<u8>) -> Result<(), AllocError>
    ensures words { OnOk result (words.new.items ≡ words.old.items ++ words_text (answer_in answer.now)) }
    ensures kept { OnErr result (words.new.items ≡ words.old.items) }
{
    let kept = words.len();
    if let Ok(spoken) = answer {
        words.extend_from_slice(&spoken.words)?;
    }
    if words.push(b'\n').is_err() {
        words.truncate(kept);
        return Err(AllocError);
    }
    Ok(())
}

/// What is told of the fault of the line of this number, from 1.
fn fault_line(alloc: Global, number: u64, fault: LineFault) -> Result<String, AllocError>
    ensures { IfOk result (λ text. string_bytes text ≡ fault_text number (Err fault)) }
{
    match fault {
        LineFault::NulByte { at } => format!(in alloc; "line {number}: byte 0 at {at}\n"),
        LineFault::LongLine => format!(in alloc; "line {number}: longer than 16384 bytes\n"),
        LineFault::NoPath => format!(in alloc; "line {number}: no path\n"),
        LineFault::NotTokens { token } => {
            format!(in alloc; "line {number}: not token text after {token} tokens\n")
        }
        LineFault::TooManyFields { token } => {
            format!(in alloc; "line {number}: token {token} has more than 10 fields\n")
        }
        LineFault::NoWords { token } => {
            format!(in alloc; "line {number}: token {token} has no words\n")
        }
        LineFault::Memory => Err(AllocError),
    }
}
