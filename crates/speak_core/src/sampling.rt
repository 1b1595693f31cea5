// The lines of a sample, batch by batch.

ghost use Rattle.std.specs.Prelude.{◌≡◌, ◌≤◌, ◌<◌, ◌+◌, ◌*◌, ◌++◌, ◌^◌, IfErr, IfOk, List, OnErr, OnOk, [], length, map};
ghost use Rattle.std.specs.Option.{option_map};
ghost use Rattle.norm_base.specs.Bytes.{AppendsPrefix};
ghost use Rattle.normaliser.specs.Lines.{Answer};
ghost use Rattle.sample_lines.specs.Summary.{Said, totals_of};
ghost use Rattle.speak_core.specs.Answers.{AllSaid, Tells};
ghost use Rattle.speak_core.specs.Crews.{HasRun, HasSwept, IsCrewOf, RunsOn, SweptOn};
ghost use Rattle.speak_core.specs.Reports.{batches_of, reporting_of, swept_sum};
ghost use Rattle.speak_core.specs.Left.{Leaves};
ghost use Rattle.speak_core.specs.Loaded.{IsLoadedBy};
ghost use Rattle.speak_core.specs.Outputs.{said_of, sample_lines, summary_of};
ghost use Rattle.speak_core.specs.Parts.{AppendsSome, SumsUpBy, TellsSome, Writes, answer_in, answer_of, lines_of, says_of};
ghost use Rattle.speak_core.specs.Stops.{Counts, IsDeviceStop, SinkCounts};

use crate::batches::{Heard, MOST_LINES, tell_answers};
use crate::crews::{Crew, answer_batch};
use crate::outside::put;
use crate::reports::{Report, add_all};
use crate::samples::Sample;
use crate::speakers::{Loaded, Speaker};
use crate::stop::Stop;
use crate::watch::Watch;
use norm_base::Sink;
use normaliser::{Caller, LineFault, Spoken};
use sample_lines::{Summary, sample_batch};
use std::alloc::{AllocError, Global};
use std::thread::Threads;

/// Speaks the lines of a sample, writes the summary of what they say, and answers whether each was read.
pub(crate) fn speak_sample<R: Threads + Sync, O: Sink, E: Sink, W: Watch + Sync>(
    rt: &R,
    alloc: Global,
    watch: &W,
    sample: Sample,
    out: &mut O,
    err: &mut E,
    callers: &mut Vec<Caller>,
) -> Result<bool, Stop>
    requires ready { IsLoadedBy sample.loaded.crew.settings sample.loaded }
    ensures left { OnOk result (Leaves (says_of sample.loaded.speaker) sample.loaded.speaker.normaliser sample.loaded.crew.settings (sample_lines sample.count sample.start) callers.new.items (E.held err.old) (E.held err.new)) }
    ensures none { OnErr result (callers.new.items ≡ callers.old.items) }
    ensures done { IfOk result (Writes (says_of sample.loaded.speaker) (reporting_of sample.loaded.crew.settings) (sample_lines sample.count sample.start) summary_of (O.held out.old) (O.held out.new) (E.held err.old) (E.held err.new)) }
    ensures out_front { (answers : List Answer) → AllSaid (says_of sample.loaded.speaker) (sample_lines sample.count sample.start) answers → AppendsPrefix (O.held out.old) (O.held out.new) (summary_of answers) }
    ensures err_front { (answers : List Answer) → AllSaid (says_of sample.loaded.speaker) (sample_lines sample.count sample.start) answers → AppendsSome (Tells (reporting_of sample.loaded.crew.settings) (sample_lines sample.count sample.start) answers) (E.held err.old) (E.held err.new) }
    ensures counts { SinkCounts (O.faults out.old) (O.faults out.new) (E.faults err.old) (E.faults err.new) result }
    ensures later { E.faults err.old ≤ E.faults err.new }
    ensures stops { IfErr result IsDeviceStop }
{
    let Sample {
        loaded,
        count,
        start,
    } = sample;
    let Loaded { speaker, mut crew } = loaded;
    let mut report = Report::new(crew.settings.report);
    let summary = sum_up(
        rt,
        alloc,
        watch,
        &mut report,
        &speaker,
        &mut crew,
        count,
        start,
        err,
    )?;
    report.tell(alloc, crew.beside(), &crew.swept, err)?;
    let text = summary.text(alloc)?;
    put(out, &text)?;
    *callers = crew.callers;
    Ok(summary.refused() == 0)
}

/// Sums up what the lines of a sample say, and tells their faults. One batch of them is kept at a time.
fn sum_up<R: Threads + Sync, E: Sink, W: Watch + Sync>(
    rt: &R,
    alloc: Global,
    watch: &W,
    report: &mut Report,
    speaker: &Speaker,
    crew: &mut Crew,
    count: u32,
    start: u32,
    err: &mut E,
) -> Result<Summary, Stop>
    requires start { start < 2 ^ 31 }
    requires ready { IsCrewOf speaker.now.normaliser crew.old }
    requires unswept { swept_sum crew.old.swept ≡ 0 }
    requires begun { HasRun speaker.now.normaliser crew.old [] 0 }
    ensures ready { OnOk result (IsCrewOf speaker.now.normaliser crew.new) }
    ensures done { IfOk result (λ summary. SumsUpBy (λ tallies. HasRun speaker.now.normaliser crew.new tallies (batches_of count)) (says_of speaker.now) report.old.is_wanted 1 report.old.total report.new.total (sample_lines count start) (totals_of []) summary (E.held err.old) (E.held err.new)) }
    ensures front { (answers : List Answer) → AllSaid (says_of speaker.now) (sample_lines count start) answers → TellsSome report.old.is_wanted 1 (sample_lines count start) answers (E.held err.old) (E.held err.new) }
    ensures wanted { report.new.is_wanted ≡ report.old.is_wanted }
    ensures count { OnOk result (report.new.lines ≡ count) }
    ensures settings { crew.new.settings ≡ crew.old.settings }
    ensures swept { OnOk result (HasSwept crew.old.settings count crew.new.swept) }
    ensures counts { Counts (E.faults err.old) (E.faults err.new) result }
    ensures later { E.faults err.old ≤ E.faults err.new }
    ensures stops { IfErr result IsDeviceStop }
{
    let mut summary = Summary::new(alloc);
    let mut state = start;
    let mut done = 0u32;
    while done < count {
        let size = (count - done).min(MOST_LINES as u32);
        let (lines, next) = sample_batch(alloc, state, size as usize)?;
        let first = u64::from(done) + 1;
        sum_batch(
            rt,
            alloc,
            watch,
            report,
            speaker,
            crew,
            &lines,
            first,
            &mut summary,
            err,
        )?;
        done += size;
        state = next;
    }
    report.lines = u64::from(count);
    Ok(summary)
}

/// Adds what the lines of a batch say to a summary, and tells their faults, numbered on from this number.
fn sum_batch<R: Threads + Sync, E: Sink, W: Watch + Sync>(
    rt: &R,
    alloc: Global,
    watch: &W,
    report: &mut Report,
    speaker: &Speaker,
    crew: &mut Crew,
    batch: &[Vec<u8>],
    first: u64,
    summary: &mut Summary,
    err: &mut E,
) -> Result<(), Stop>
    requires first { 1 ≤ first }
    requires numbers { first + length batch.now < 2 ^ 64 }
    requires room { summary.old.lines + length batch.now ≤ 2 ^ 32 }
    requires ready { IsCrewOf speaker.now.normaliser crew.old }
    requires places { swept_sum crew.old.swept + crew.old.settings.places * crew.old.settings.sweep < 2 ^ 64 }
    ensures ready { OnOk result (IsCrewOf speaker.now.normaliser crew.new) }
    ensures settings { crew.new.settings ≡ crew.old.settings }
    ensures swept { OnOk result (SweptOn crew.old.settings crew.old.swept crew.new.swept) }
    ensures done { OnOk result (SumsUpBy (RunsOn speaker.now.normaliser crew.old crew.new first) (says_of speaker.now) report.old.is_wanted first report.old.total report.new.total (map (λ line. line.items) batch.now) summary.old summary.new (E.held err.old) (E.held err.new)) }
    ensures front { (answers : List Answer) → AllSaid (says_of speaker.now) (map (λ line. line.items) batch.now) answers → TellsSome report.old.is_wanted first (map (λ line. line.items) batch.now) answers (E.held err.old) (E.held err.new) }
    ensures wanted { report.new.is_wanted ≡ report.old.is_wanted }
    ensures counts { Counts (E.faults err.old) (E.faults err.new) result }
    ensures later { E.faults err.old ≤ E.faults err.new }
    ensures stops { IfErr result IsDeviceStop }
{
    let lines = borrowed(alloc, batch)?;
    let answers = answer_batch(rt, alloc, watch, speaker, crew, &lines, first)?;
    let told = tell_answers(alloc, report.is_wanted, &answers.all, first);
    put(err, &told.faults)?;
    if answers.is_whole && told.is_whole {
        add_answers(alloc, &answers.all, summary)?;
        add_all(&mut report.total, &answers.all);
        Ok(())
    } else {
        Err(Stop::Memory)
    }
}

/// The lines of a batch, which keeps them.
fn borrowed<'a>(alloc: Global, batch: &'a [Vec<u8>]) -> Result<Vec<&'a [u8]>, AllocError>
    ensures { IfOk result (λ lines. lines_of lines.items ≡ map (λ line. line.items) batch.entry.now) }
{
    let mut lines = Vec::new(alloc);
    for line in batch {
        lines.push(line.as_slice())?;
    }
    Ok(lines)
}

/// Adds what lines say to a summary.
fn add_answers(alloc: Global, answers: &[Heard], summary: &mut Summary) -> Result<(), AllocError>
    requires { summary.old.lines + length answers.now ≤ 2 ^ 32 }
    ensures { OnOk result ((before : List Said) → summary.old ≡ totals_of before → summary.new ≡ totals_of (before ++ map said_of (map answer_of answers.now))) }
{
    for answer in answers {
        summary.add(alloc, words_of(&answer.answer))?;
    }
    Ok(())
}

/// The words of a line that isn't refused.
fn words_of(answer: &Result<Spoken, LineFault>) -> Option<&[u8]>
    ensures { option_map (λ words. words.now) result ≡ said_of (answer_in answer.entry.now) }
{
    match answer {
        Ok(spoken) => Some(&spoken.words),
        Err(_) => None,
    }
}
