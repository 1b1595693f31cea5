// What is reported of the looks that lines made.

ghost use Rattle.std.specs.Prelude.{◌≡◌, ◌≤◌, IfErr, IfOk, OnOk, map, string_bytes};
ghost use Rattle.std.specs.Io.KnownBytes.{Appends};
ghost use Rattle.norm_base.specs.Bytes.{AppendsPrefix};
ghost use Rattle.shared_cascade.specs.Tallies.{no_tally};
ghost use Rattle.speak_core.specs.Parts.{tally_of};
ghost use Rattle.speak_core.specs.Reports.{end_text, if_wanted, numbers_text, published_text, report_text, shown_text, sum_of, sweep_text, total_text, wide_text, with_tallies, with_tally};
ghost use Rattle.speak_core.specs.Stops.{Counts, IsDeviceStop};

use crate::batches::Heard;
use crate::outside::put;
use crate::stop::Stop;
use norm_base::Sink;
use normaliser::{Swept, Tally};
use std::alloc::{AllocError, Global};

/// What is reported of the lines so far.
#[derive(Clone, Copy, Debug)]
pub(crate) struct Report {
    pub(crate) is_wanted: bool,
    pub(crate) lines: u64,
    /// What came of their looks.
    pub(crate) total: Tally,
}

impl Report {
    /// A report of no lines.
    pub(crate) fn new(is_wanted: bool) -> Report
        ensures wanted { result.is_wanted ≡ is_wanted }
        ensures lines { result.lines ≡ 0 }
        ensures total { result.total ≡ no_tally }
    {
        Report {
            is_wanted,
            lines: 0,
            total: nothing(),
        }
    }

    /// Tells the total, and what a sweep found, where a report is wanted.
    pub(crate) fn tell<E: Sink>(
        &self,
        alloc: Global,
        beside: u64,
        swept: &Swept,
        err: &mut E,
    ) -> Result<(), Stop>
        ensures all { OnOk result (Appends (E.held err.old) (E.held err.new) (if_wanted self.now.is_wanted (end_text beside self.now.lines self.now.total swept.now))) }
        ensures front { AppendsPrefix (E.held err.old) (E.held err.new) (if_wanted self.now.is_wanted (end_text beside self.now.lines self.now.total swept.now)) }
        ensures counts { Counts (E.faults err.old) (E.faults err.new) result }
        ensures later { E.faults err.old ≤ E.faults err.new }
        ensures stops { IfErr result IsDeviceStop }
    {
        if !self.is_wanted {
            return Ok(());
        }
        let mut text = total_line(alloc, self.lines, &self.total)?;
        if beside != 0 {
            let more = sweep_line(alloc, swept)?;
            text.push_str(&more)?;
        }
        put(err, text.as_bytes())
    }
}

/// The report of the line of this number.
pub(crate) fn report_line(alloc: Global, number: u64, tally: &Tally) -> Result<String, AllocError>
    ensures { IfOk result (λ text. string_bytes text ≡ report_text number tally.now) }
{
    let numbers = numbers(alloc, tally)?;
    format!(in alloc; "report line {number}:{numbers}")
}

/// The report of so many lines.
fn total_line(alloc: Global, count: u64, tally: &Tally) -> Result<String, AllocError>
    ensures { IfOk result (λ text. string_bytes text ≡ total_text count tally.now) }
{
    let numbers = numbers(alloc, tally)?;
    format!(in alloc; "report total: lines {count}{numbers}")
}

/// The report of a sweep.
fn sweep_line(alloc: Global, swept: &Swept) -> Result<String, AllocError>
    ensures { IfOk result (λ text. string_bytes text ≡ sweep_text swept.now) }
{
    let done = swept.done;
    let was = swept.was;
    format!(in alloc; "report sweep: done {done} was {was}\n")
}

/// The six numbers, and a line feed.
fn numbers(alloc: Global, tally: &Tally) -> Result<String, AllocError>
    ensures { IfOk result (λ text. string_bytes text ≡ numbers_text tally.now) }
{
    let shown = shown(alloc, tally)?;
    let published = published(alloc, tally)?;
    let wide = wide(alloc, tally)?;
    format!(in alloc; "{shown}{published}{wide}")
}

/// How many looks there were, and how many were shown an expansion.
fn shown(alloc: Global, tally: &Tally) -> Result<String, AllocError>
    ensures { IfOk result (λ text. string_bytes text ≡ shown_text tally.now) }
{
    let looks = tally.looks;
    let shown = tally.shown;
    format!(in alloc; " looks {looks} shown {shown}")
}

/// How many looks found none, and for how many of them it was published.
fn published(alloc: Global, tally: &Tally) -> Result<String, AllocError>
    ensures { IfOk result (λ text. string_bytes text ≡ published_text tally.now) }
{
    let absent = tally.absent;
    let published = tally.published;
    format!(in alloc; " absent {absent} published {published}")
}

/// For how many of them there was no place, or it was too wide.
fn wide(alloc: Global, tally: &Tally) -> Result<String, AllocError>
    ensures { IfOk result (λ text. string_bytes text ≡ wide_text tally.now) }
{
    let no_place = tally.no_place;
    let wide = tally.wide;
    format!(in alloc; " no_place {no_place} wide {wide}\n")
}

/// Adds what came of the looks of lines, up to the greatest value of each number.
pub(crate) fn add_all(total: &mut Tally, heard: &[Heard])
    ensures { total.new ≡ with_tallies total.old (map tally_of heard.now) }
{
    let mut rest = heard;
    while let [first, after @ ..] = rest {
        add(total, &first.tally);
        rest = after;
    }
}

/// Adds what came of the looks of a line.
fn add(total: &mut Tally, tally: &Tally)
    ensures { total.new ≡ with_tally total.old tally.now }
{
    *total = Tally {
        looks: sum(total.looks, tally.looks),
        shown: sum(total.shown, tally.shown),
        absent: sum(total.absent, tally.absent),
        published: sum(total.published, tally.published),
        no_place: sum(total.no_place, tally.no_place),
        wide: sum(total.wide, tally.wide),
    };
}

/// The sum, or the greatest value where it is more.
fn sum(a: u64, b: u64) -> u64
    ensures { result ≡ sum_of a b }
{
    a.saturating_add(b)
}

/// Nothing was counted.
fn nothing() -> Tally
    ensures { result ≡ no_tally }
{
    Tally {
        looks: 0,
        shown: 0,
        absent: 0,
        published: 0,
        no_place: 0,
        wide: 0,
    }
}
