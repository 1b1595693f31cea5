// The entries of a setup's lines.

ghost use Rattle.std.specs.Prelude.{IfErr, IfOk, OnOk, ℕ, []};
ghost use Rattle.speak_setup.specs.Parts.{AddsLine, IsLineFault, IsRefused, ReadsPart};

use crate::found::Found;
use crate::line::{Line, read_line};
use crate::setup::SetupFault;
use norm_base::Name;
use std::alloc::Global;
use text_lines::first_line;

/// The values of all lines of a text.
pub(crate) fn read_entries(alloc: Global, text: &[u8]) -> Result<Found, SetupFault>
    ensures found { IfOk result (λ found. (number : ℕ) × ReadsPart text.now [] number found) }
    ensures fault { IfErr result (IsLineFault text.now) }
{
    let mut found = Found::new(alloc);
    let mut number = 0u64;
    let mut rest = text;
    while !rest.is_empty() {
        let (line, after) = first_line(rest);
        number += 1;
        read_entry(alloc, &mut found, line, number)?;
        rest = after;
    }
    Ok(found)
}

/// Adds the value of one line.
fn read_entry(alloc: Global, found: &mut Found, line: &[u8], number: u64) -> Result<(), SetupFault>
    ensures added { OnOk result (AddsLine found.old found.new line.now) }
    ensures fault { IfErr result (IsRefused found.old line.now number) }
{
    match read_line(line) {
        Line::Skipped => Ok(()),
        Line::Bad => Err(SetupFault::BadLine { line: number }),
        Line::Entry(key, value) => {
            if found.is_full(key) {
                return Err(SetupFault::Repeated { line: number });
            }
            found.add(key, Name::new(alloc, value)?)?;
            Ok(())
        }
    }
}
