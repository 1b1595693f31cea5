// The lines of the input, batch by batch.

ghost use Rattle.std.specs.Prelude.{◌≡◌, ◌≤◌, ◌<◌, ◌+◌, ◌*◌, ◌^◌, IfErr, IfOk, IfSome, IsErrOf, IsSomeAnd, List, OnOk, [], length};
ghost use Rattle.std.specs.Io.KnownBytes.{Appends, IsAtEnd};
ghost use Rattle.norm_base.specs.Bytes.{AppendsPrefix};
ghost use Rattle.normaliser.specs.Lines.{Answer};
ghost use Rattle.speak_core.specs.Answers.{AllSaid, written};
ghost use Rattle.speak_core.specs.Crews.{HasRun, HasSwept, IsCrewOf, RunsAll, RunsOn, SweptOn};
ghost use Rattle.speak_core.specs.Given.{GivesBatches};
ghost use Rattle.speak_core.specs.Inputs.{GaveTooMuch, IfGaveTooMuch};
ghost use Rattle.speak_core.specs.Reports.{batches_of, swept_sum};
ghost use Rattle.text_lines.specs.Lines.{lines};
ghost use Rattle.speak_core.specs.Parts.{SpeaksBy, TellsSome, lines_of, says_of};
ghost use Rattle.speak_core.specs.Stops.{IsDeviceStop, IsReadingStop, SinkCounts};
ghost use Rattle.speak_core.specs.Works.{WorkCounts};

use crate::batches::{are_read, cut_batch, tell_answers};
use crate::crews::{Crew, answer_batch};
use crate::intakes::Intake;
use crate::outside::put;
use crate::reports::{Report, add_all};
use crate::speakers::Speaker;
use crate::stop::Stop;
use crate::watch::Watch;
use norm_base::{Sink, Source};
use std::alloc::Global;
use std::thread::Threads;

/// Speaks each line of the input, batch by batch as they come, and answers whether each was read. What was told before a stop is written, where
/// it can be.
pub(crate) fn speak_lines<R: Threads + Sync, S: Source, O: Sink, E: Sink, W: Watch + Sync>(
    rt: &R,
    alloc: Global,
    watch: &W,
    report: &mut Report,
    speaker: &Speaker,
    crew: &mut Crew,
    source: &mut S,
    out: &mut O,
    err: &mut E,
) -> Result<bool, Stop>
    requires none { report.old.lines ≡ 0 }
    requires ready { IsCrewOf speaker.now.normaliser crew.old }
    requires unswept { swept_sum crew.old.swept ≡ 0 }
    requires begun { HasRun speaker.now.normaliser crew.old [] 0 }
    ensures ready { OnOk result (IsCrewOf speaker.now.normaliser crew.new) }
    ensures done { IfSome (S.left source.old) (λ input. IfOk result (λ is_read. SpeaksBy (λ tallies. HasRun speaker.now.normaliser crew.new tallies (batches_of (length (lines input)))) (says_of speaker.now) report.old.is_wanted 1 report.old.total report.new.total (lines input) (O.held out.old) (O.held out.new) (E.held err.old) (E.held err.new) is_read)) }
    ensures out_front { IfSome (S.left source.old) (λ input. (answers : List Answer) → AllSaid (says_of speaker.now) (lines input) answers → AppendsPrefix (O.held out.old) (O.held out.new) (written answers)) }
    ensures err_front { IfSome (S.left source.old) (λ input. (answers : List Answer) → AllSaid (says_of speaker.now) (lines input) answers → TellsSome report.old.is_wanted 1 (lines input) answers (E.held err.old) (E.held err.new)) }
    ensures given { IfSome (S.left source.old) (λ input. IsSomeAnd (S.left source.new) (λ left. (answers : List Answer) → AllSaid (says_of speaker.now) (lines input) answers → GivesBatches answers input left (O.held out.old) (O.held out.new))) }
    ensures wanted { report.new.is_wanted ≡ report.old.is_wanted }
    ensures count { IfSome (S.left source.old) (λ input. OnOk result (report.new.lines ≡ length (lines input))) }
    ensures settings { crew.new.settings ≡ crew.old.settings }
    ensures swept { IfSome (S.left source.old) (λ input. OnOk result (HasSwept crew.old.settings (length (lines input)) crew.new.swept)) }
    ensures end { OnOk result (IsAtEnd (S.left source.new)) }
    ensures too_long { IsErrOf result Stop.TooLong → GaveTooMuch (S.left source.old) (S.left source.new) }
    ensures only_too_long { IfGaveTooMuch (S.left source.old) (S.left source.new) (IsErrOf result Stop.TooLong) }
    ensures counts { WorkCounts (S.faults source.old) (S.faults source.new) (O.faults out.old) (O.faults out.new) (E.faults err.old) (E.faults err.new) result }
    ensures later { E.faults err.old ≤ E.faults err.new }
    ensures stops { IfErr result IsReadingStop }
{
    let mut intake = Intake::new(alloc);
    let mut is_read = true;
    loop {
        let is_full = intake.fill(source)?;
        let text = intake.take_text(is_full)?;
        let now_read = speak_text(rt, alloc, watch, report, speaker, crew, &text, out, err)?;
        is_read = is_read && now_read;
        if !is_full {
            return Ok(is_read);
        }
    }
}

/// Speaks the lines of a text, no more than a batch has, and answers whether each was read. They are numbered on from those that the report counts.
fn speak_text<R: Threads + Sync, O: Sink, E: Sink, W: Watch + Sync>(
    rt: &R,
    alloc: Global,
    watch: &W,
    report: &mut Report,
    speaker: &Speaker,
    crew: &mut Crew,
    text: &[u8],
    out: &mut O,
    err: &mut E,
) -> Result<bool, Stop>
    requires few { length (lines text.now) ≤ 1024 }
    requires numbers { report.old.lines ≤ 2 ^ 28 }
    requires ready { IsCrewOf speaker.now.normaliser crew.old }
    requires room { swept_sum crew.old.swept + crew.old.settings.places * crew.old.settings.sweep < 2 ^ 64 }
    ensures ready { OnOk result (IsCrewOf speaker.now.normaliser crew.new) }
    ensures settings { crew.new.settings ≡ crew.old.settings }
    ensures swept { OnOk result (swept_sum crew.new.swept ≡ swept_sum crew.old.swept + crew.old.settings.places * crew.old.settings.sweep * batches_of (length (lines text.now))) }
    ensures done { IfOk result (λ is_read. SpeaksBy (RunsAll speaker.now.normaliser crew.old crew.new (report.old.lines + 1)) (says_of speaker.now) report.old.is_wanted (report.old.lines + 1) report.old.total report.new.total (lines text.now) (O.held out.old) (O.held out.new) (E.held err.old) (E.held err.new) is_read) }
    ensures out_front { (answers : List Answer) → AllSaid (says_of speaker.now) (lines text.now) answers → AppendsPrefix (O.held out.old) (O.held out.new) (written answers) }
    ensures err_front { (answers : List Answer) → AllSaid (says_of speaker.now) (lines text.now) answers → TellsSome report.old.is_wanted (report.old.lines + 1) (lines text.now) answers (E.held err.old) (E.held err.new) }
    ensures wanted { report.new.is_wanted ≡ report.old.is_wanted }
    ensures count { OnOk result (report.new.lines ≡ report.old.lines + length (lines text.now)) }
    ensures counts { SinkCounts (O.faults out.old) (O.faults out.new) (E.faults err.old) (E.faults err.new) result }
    ensures later { E.faults err.old ≤ E.faults err.new }
    ensures stops { IfErr result IsDeviceStop }
{
    let batch = cut_batch(alloc, text)?;
    let count = batch.lines.len() as u64;
    if count == 0 {
        return Ok(true);
    }
    let first = report.lines + 1;
    let is_read = speak_batch(
        rt,
        alloc,
        watch,
        report,
        speaker,
        crew,
        &batch.lines,
        first,
        out,
        err,
    )?;
    report.lines += count;
    Ok(is_read)
}

/// Speaks the lines of a batch, which are numbered on from this number, and answers whether each was read.
fn speak_batch<R: Threads + Sync, O: Sink, E: Sink, W: Watch + Sync>(
    rt: &R,
    alloc: Global,
    watch: &W,
    report: &mut Report,
    speaker: &Speaker,
    crew: &mut Crew,
    batch: &[&[u8]],
    first: u64,
    out: &mut O,
    err: &mut E,
) -> Result<bool, Stop>
    requires first { 1 ≤ first }
    requires numbers { first + length batch.now < 2 ^ 64 }
    requires ready { IsCrewOf speaker.now.normaliser crew.old }
    requires room { swept_sum crew.old.swept + crew.old.settings.places * crew.old.settings.sweep < 2 ^ 64 }
    ensures ready { OnOk result (IsCrewOf speaker.now.normaliser crew.new) }
    ensures settings { crew.new.settings ≡ crew.old.settings }
    ensures swept { OnOk result (SweptOn crew.old.settings crew.old.swept crew.new.swept) }
    ensures done { IfOk result (λ is_read. SpeaksBy (RunsOn speaker.now.normaliser crew.old crew.new first) (says_of speaker.now) report.old.is_wanted first report.old.total report.new.total (lines_of batch.now) (O.held out.old) (O.held out.new) (E.held err.old) (E.held err.new) is_read) }
    ensures out_front { (answers : List Answer) → AllSaid (says_of speaker.now) (lines_of batch.now) answers → AppendsPrefix (O.held out.old) (O.held out.new) (written answers) }
    ensures err_front { (answers : List Answer) → AllSaid (says_of speaker.now) (lines_of batch.now) answers → TellsSome report.old.is_wanted first (lines_of batch.now) answers (E.held err.old) (E.held err.new) }
    ensures wanted { report.new.is_wanted ≡ report.old.is_wanted }
    ensures lines { report.new.lines ≡ report.old.lines }
    ensures counts { SinkCounts (O.faults out.old) (O.faults out.new) (E.faults err.old) (E.faults err.new) result }
    ensures later { E.faults err.old ≤ E.faults err.new }
    ensures stops { IfErr result IsDeviceStop }
{
    let answers = answer_batch(rt, alloc, watch, speaker, crew, batch, first)?;
    let told = tell_answers(alloc, report.is_wanted, &answers.all, first);
    put_both(out, &told.words, err, &told.faults)?;
    if answers.is_whole && told.is_whole {
        add_all(&mut report.total, &answers.all);
        Ok(are_read(&answers.all))
    } else {
        Err(Stop::Memory)
    }
}

/// Writes to both sinks, to the second also where the first fails.
fn put_both<O: Sink, E: Sink>(
    out: &mut O,
    words: &[u8],
    err: &mut E,
    faults: &[u8],
) -> Result<(), Stop>
    ensures words { OnOk result (Appends (O.held out.old) (O.held out.new) words.now) }
    ensures faults { OnOk result (Appends (E.held err.old) (E.held err.new) faults.now) }
    ensures words_front { AppendsPrefix (O.held out.old) (O.held out.new) words.now }
    ensures faults_front { AppendsPrefix (E.held err.old) (E.held err.new) faults.now }
    ensures counts { SinkCounts (O.faults out.old) (O.faults out.new) (E.faults err.old) (E.faults err.new) result }
    ensures later { E.faults err.old ≤ E.faults err.new }
    ensures stops { IfErr result IsDeviceStop }
{
    let wrote = put(out, words);
    let told = put(err, faults);
    wrote?;
    told
}
