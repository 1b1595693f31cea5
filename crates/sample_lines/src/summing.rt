//! The summary of what lines said.
ghost use Rattle.std.specs.Prelude.{◌≡◌, ◌≤◌, ◌<◌, ◌^◌, ◌+◌, ◌*◌, length, ◌∷◌, ◌++◌, [], List, ℕ, Some, None, IfOk, OnErr, OnOk, sum, option_map};
ghost use Rattle.std.specs.Fmt.{decimal};
ghost use Rattle.sample_lines.specs.Summary.{Said, entry, summary_text, totals_of};

use std::alloc::{AllocError, Global};
use std::marker::Model;

/// What is counted of lines, and the first and the last of them: its size doesn't grow with their number.
#[derive(Drop)]
pub struct Summary {
    spoken: u64,
    refused: u64,
    bytes: u128,
    total: u128,
    first: Vec<u8>,
    last: Vec<u8>,
}

impl Model for Summary {
    ghost use Rattle.std.specs.Prelude.{◌+◌, ◌*◌, ◌≤◌, ◌<◌, ◌^◌};
    ghost use Rattle.sample_lines.specs.Summary.{Totals};

    ghost Value = { Totals };

    ghost view = { λ s. record {
      lines = s.spoken + s.refused;
      spoken = s.spoken;
      refused = s.refused;
      bytes = s.bytes;
      total = s.total;
      first = s.first.items;
      last = s.last.items;
    } };

    ghost invariant = { λ s. (s.spoken + s.refused ≤ 2 ^ 32) × (s.bytes ≤ (s.spoken + s.refused) * 2 ^ 63) × (s.total ≤ 255 * s.bytes) };
}

impl Summary {
    /// The summary of no lines.
    pub fn new(alloc: Global) -> Summary
        ensures { result ≡ totals_of [] }
    {
        Summary {
            spoken: 0,
            refused: 0,
            bytes: 0,
            total: 0,
            first: Vec::new(alloc),
            last: Vec::new(alloc),
        }
    }

    /// One more line: its words, or nothing where it was refused.
    pub fn add(&mut self, alloc: Global, words: Option<&[u8]>) -> Result<(), AllocError>
        requires { self.old.lines < 2 ^ 32 }
        ensures added { IfOk result (λ _. (said : List Said) → self.old ≡ totals_of said → self.new ≡ totals_of (said ++ (option_map (λ w. w.now) words.entry ∷ []))) }
        ensures counted { OnOk result (self.new.lines ≡ self.old.lines + 1) }
        ensures kept { OnErr result (self.new ≡ self.old) }
    {
        let text = words.unwrap_or(&[]);
        let last = Vec::from_slice(alloc, text)?;
        if self.spoken == 0 && self.refused == 0 {
            self.first = Vec::from_slice(alloc, text)?;
        }
        self.last = last;
        self.bytes += text.len() as u128 + 1;
        self.total += sum_of(text) + 10;
        match words {
            Some(_) => self.spoken += 1,
            None => self.refused += 1,
        }
        Ok(())
    }

    /// How many lines were refused.
    pub fn refused(&self) -> u64
        ensures { result ≡ self.now.refused }
    {
        self.refused
    }

    /// The summary's seven lines.
    pub fn text(&self, alloc: Global) -> Result<Vec<u8>, AllocError>
        ensures { IfOk result (λ text. text.items ≡ summary_text self.now) }
    {
        let mut text = Vec::new(alloc);
        let lines = self.spoken + self.refused;
        add_number(alloc, &mut text, "lines", u128::from(lines))?;
        add_number(alloc, &mut text, "spoken", u128::from(self.spoken))?;
        add_number(alloc, &mut text, "refused", u128::from(self.refused))?;
        add_number(alloc, &mut text, "bytes", self.bytes)?;
        add_number(alloc, &mut text, "sum", self.total)?;
        add_entry(&mut text, "first", &self.first)?;
        add_entry(&mut text, "last", &self.last)?;
        Ok(text)
    }
}

/// The sum of bytes.
fn sum_of(bytes: &[u8]) -> u128
    ensures sum { result ≡ sum bytes.now }
    ensures most { result ≤ 255 * length bytes.now }
{
    let mut total = 0;
    for b in bytes {
        total += u128::from(*b);
    }
    total
}

/// A line of the summary with a number.
fn add_number(alloc: Global, text: &mut Vec<u8>, name: &str, number: u128) -> Result<(), AllocError>
    ensures { OnOk result (text.new.items ≡ text.old.items ++ entry name.now (decimal number)) }
{
    let digits = format!(in alloc; "{number}")?;
    add_entry(text, name, digits.as_bytes())
}

/// A line of the summary: a name, a space and what it has.
fn add_entry(text: &mut Vec<u8>, name: &str, value: &[u8]) -> Result<(), AllocError>
    ensures { OnOk result (text.new.items ≡ text.old.items ++ entry name.now value.now) }
{
    text.extend_from_slice(name.as_bytes())?;
    text.push(b' ')?;
    text.extend_from_slice(value)?;
    text.push(b'\n')?;
    Ok(())
}
