// A run of the command.

ghost use Rattle.std.specs.Prelude.{◌≡◌, ◌⊎◌, ◌≤◌, IfErr, IfOk, IfSome, IsErrOf, IsSomeAnd, OnErr, OnOk, None, List, [], ℕ, String, true, false};
ghost use Rattle.std.specs.Result.{IsErrAnd};
ghost use Rattle.std.specs.Io.KnownBytes.{Appends, IsAtEnd};
ghost use Rattle.norm_base.specs.Bytes.{AppendsPrefix};
ghost use Rattle.norm_base.specs.Counts.{Rose};
ghost use Rattle.normaliser.specs.Lines.{Answer};
ghost use Rattle.text_lines.specs.Lines.{lines};
ghost use Rattle.speak_core.specs.Accepted.{Asks, Refused};
ghost use Rattle.speak_core.specs.Answers.{AllSaid, Tells, written};
ghost use Rattle.speak_core.specs.Requests.{job_in};
ghost use Rattle.speak_core.specs.Devices.{OfInput, seen};
ghost use Rattle.speak_core.specs.Given.{Gives, GivesBatches};
ghost use Rattle.speak_core.specs.Inputs.{GaveTooMuch, IfGaveTooMuch};
ghost use Rattle.speak_core.specs.Left.{Leaves, LeavesCallers};
ghost use Rattle.speak_core.specs.Loaded.{IsLoadedBy, StopsAs};
ghost use Rattle.speak_core.specs.Outputs.{reads_input};
ghost use Rattle.speak_core.specs.Owed.{OfOwed, SpeaksAll, Told};
ghost use Rattle.speak_core.specs.Parts.{AppendsSome, Writes, says_of};
ghost use Rattle.speak_core.specs.Reports.{reporting_of};
ghost use Rattle.speak_core.specs.Stops.{AllCounts, Counts, IsAccepted, IsDeviceStop, IsReadingStop, IsRefusalStop};
ghost use Rattle.speak_core.specs.Works.{CanBeDone, WorkCounts, work_leaves, work_lines, work_reads, work_reports, work_says, work_text};

use crate::outside::put;
use crate::reports::Report;
use crate::sampling::speak_sample;
use crate::speakers::Loaded;
use crate::speaking::speak_lines;
use crate::stop::Stop;
use crate::watch::Watch;
use crate::works::{Work, find_work};
use norm_base::{Shelf, Sink, Source};
use normaliser::Caller;
use speak_words::{Settings, read_words};
use std::alloc::Global;
use std::thread::Threads;

/// Runs the job of these words, and answers whether each line was read.
pub(crate) fn run<R: Threads + Sync, H: Shelf, S: Source, O: Sink, E: Sink, W: Watch + Sync>(
    rt: &R,
    alloc: Global,
    watch: &W,
    words: &[String],
    shelf: &mut H,
    source: &mut S,
    out: &mut O,
    err: &mut E,
    callers: &mut Vec<Caller>,
) -> Result<bool, Stop>
    requires none { callers.old.items ≡ [] }
    ensures left { IfOk result (λ is_read. OfInput (H.files shelf.old) (S.left source.old) (λ files input. LeavesCallers words.now files input callers.new.items (E.held err.old) (E.held err.new))) }
    ensures none { OnErr result (callers.new.items ≡ []) }
    ensures words { IsErrOf result Stop.Words → job_in words.now ≡ None }
    ensures only_words { job_in words.now ≡ None → IsErrOf result Stop.Words ⊎ IsErrOf result Stop.Memory }
    ensures refused { IfErr result (λ stop. IfSome (H.files shelf.old) (λ files. StopsAs (Asks words.now files) stop)) }
    ensures only_refused { IsAccepted result → IfSome (H.files shelf.old) (λ files. (text : List ℕ) → Refused words.now files text → ⊥) }
    ensures only_shelf { IsErrOf result Stop.Outside → IfSome (H.files shelf.old) (λ files. (text : List ℕ) → Refused words.now files text
        → Rose (H.faults shelf.old) (H.faults shelf.new)) }
    ensures too_long { IsErrOf result Stop.TooLong → GaveTooMuch (S.left source.old) (S.left source.new) }
    ensures only_too_long { IfGaveTooMuch (S.left source.old) (S.left source.new) (IsErrOf result Stop.TooLong) }
    ensures done { let devices = seen H.Shelf S.Source O.Sink E.Sink shelf.old source.old out.old err.old shelf.new source.new out.new err.new in
        IfOk result (SpeaksAll words.now devices) }
    ensures end { OnOk result (IfSome (job_in words.now) (λ job. reads_input job ≡ true → IsAtEnd (S.left source.new))) }
    ensures kept { IfSome (job_in words.now) (λ job. reads_input job ≡ false → S.left source.new ≡ S.left source.old) }
    ensures words_front { OfOwed words.now (H.files shelf.old) (S.left source.old) (λ output spoke. AppendsPrefix (O.held out.old) (O.held out.new) output) }
    ensures faults_front { OfOwed words.now (H.files shelf.old) (S.left source.old) (λ output spoke. AppendsSome (Told spoke) (E.held err.old) (E.held err.new)) }
    ensures given { let devices = seen H.Shelf S.Source O.Sink E.Sink shelf.old source.old out.old err.old shelf.new source.new out.new err.new in
        Gives words.now devices }
    ensures silent_out { IsErrAnd result IsRefusalStop → O.held out.new ≡ O.held out.old }
    ensures silent_err { IsErrAnd result IsRefusalStop → E.held err.new ≡ E.held err.old }
    ensures unread { IsErrAnd result IsRefusalStop → S.left source.new ≡ S.left source.old }
    ensures files { H.files shelf.new ≡ H.files shelf.old }
    ensures counts { let devices = seen H.Shelf S.Source O.Sink E.Sink shelf.old source.old out.old err.old shelf.new source.new out.new err.new in
        AllCounts devices result }
    ensures later { E.faults err.old ≤ E.faults err.new }
{
    let asked = read_words(alloc, words)?;
    let Some(asked) = asked else {
        return Err(Stop::Words);
    };
    let work = find_work(alloc, shelf, &asked.mode, asked.settings)?;
    do_work(
        rt,
        alloc,
        watch,
        work,
        asked.settings,
        source,
        out,
        err,
        callers,
    )
}

/// Does what is left of a job, and answers whether each line was read.
fn do_work<R: Threads + Sync, S: Source, O: Sink, E: Sink, W: Watch + Sync>(
    rt: &R,
    alloc: Global,
    watch: &W,
    work: Work,
    settings: Settings,
    source: &mut S,
    out: &mut O,
    err: &mut E,
    callers: &mut Vec<Caller>,
) -> Result<bool, Stop>
    requires ready { CanBeDone settings work }
    requires none { callers.old.items ≡ [] }
    ensures left { IfSome (S.left source.old) (λ input. OnOk result (work_leaves work settings input callers.new.items (E.held err.old) (E.held err.new))) }
    ensures none { OnErr result (callers.new.items ≡ []) }
    ensures done { IfSome (S.left source.old) (λ input. IfOk result (Writes (work_says work) (work_reports work (reporting_of settings)) (work_lines work input) (work_text work) (O.held out.old) (O.held out.new) (E.held err.old) (E.held err.new))) }
    ensures out_front { IfSome (S.left source.old) (λ input. (answers : List Answer) → AllSaid (work_says work) (work_lines work input) answers → AppendsPrefix (O.held out.old) (O.held out.new) (work_text work answers)) }
    ensures err_front { IfSome (S.left source.old) (λ input. (answers : List Answer) → AllSaid (work_says work) (work_lines work input) answers → AppendsSome (Tells (work_reports work (reporting_of settings)) (work_lines work input) answers) (E.held err.old) (E.held err.new)) }
    ensures given { work_reads work ≡ true → IfSome (S.left source.old) (λ input. IsSomeAnd (S.left source.new) (λ left. (answers : List Answer) → AllSaid (work_says work) (work_lines work input) answers → GivesBatches answers input left (O.held out.old) (O.held out.new))) }
    ensures end { work_reads work ≡ true → OnOk result (IsAtEnd (S.left source.new)) }
    ensures kept { work_reads work ≡ false → S.left source.new ≡ S.left source.old }
    ensures too_long { IsErrOf result Stop.TooLong → GaveTooMuch (S.left source.old) (S.left source.new) }
    ensures only_too_long { IfGaveTooMuch (S.left source.old) (S.left source.new) (IsErrOf result Stop.TooLong) }
    ensures counts { WorkCounts (S.faults source.old) (S.faults source.new) (O.faults out.old) (O.faults out.new) (E.faults err.old) (E.faults err.new) result }
    ensures later { E.faults err.old ≤ E.faults err.new }
    ensures stops { IfErr result IsReadingStop }
{
    match work {
        Work::Input(loaded) => speak_input(rt, alloc, watch, loaded, source, out, err, callers),
        Work::Checked(text) => tell_sizes(out, &text),
        Work::Sampled(sample) => speak_sample(rt, alloc, watch, sample, out, err, callers),
    }
}

/// Speaks the lines of the input.
fn speak_input<R: Threads + Sync, S: Source, O: Sink, E: Sink, W: Watch + Sync>(
    rt: &R,
    alloc: Global,
    watch: &W,
    loaded: Loaded,
    source: &mut S,
    out: &mut O,
    err: &mut E,
    callers: &mut Vec<Caller>,
) -> Result<bool, Stop>
    requires ready { IsLoadedBy loaded.crew.settings loaded }
    ensures left { IfSome (S.left source.old) (λ input. OnOk result (Leaves (says_of loaded.speaker) loaded.speaker.normaliser loaded.crew.settings (lines input) callers.new.items (E.held err.old) (E.held err.new))) }
    ensures none { OnErr result (callers.new.items ≡ callers.old.items) }
    ensures done { IfSome (S.left source.old) (λ input. IfOk result (Writes (says_of loaded.speaker) (reporting_of loaded.crew.settings) (lines input) written (O.held out.old) (O.held out.new) (E.held err.old) (E.held err.new))) }
    ensures out_front { IfSome (S.left source.old) (λ input. (answers : List Answer) → AllSaid (says_of loaded.speaker) (lines input) answers → AppendsPrefix (O.held out.old) (O.held out.new) (written answers)) }
    ensures err_front { IfSome (S.left source.old) (λ input. (answers : List Answer) → AllSaid (says_of loaded.speaker) (lines input) answers → AppendsSome (Tells (reporting_of loaded.crew.settings) (lines input) answers) (E.held err.old) (E.held err.new)) }
    ensures given { IfSome (S.left source.old) (λ input. IsSomeAnd (S.left source.new) (λ left. (answers : List Answer) → AllSaid (says_of loaded.speaker) (lines input) answers → GivesBatches answers input left (O.held out.old) (O.held out.new))) }
    ensures end { OnOk result (IsAtEnd (S.left source.new)) }
    ensures too_long { IsErrOf result Stop.TooLong → GaveTooMuch (S.left source.old) (S.left source.new) }
    ensures only_too_long { IfGaveTooMuch (S.left source.old) (S.left source.new) (IsErrOf result Stop.TooLong) }
    ensures counts { WorkCounts (S.faults source.old) (S.faults source.new) (O.faults out.old) (O.faults out.new) (E.faults err.old) (E.faults err.new) result }
    ensures later { E.faults err.old ≤ E.faults err.new }
    ensures stops { IfErr result IsReadingStop }
{
    let Loaded { speaker, mut crew } = loaded;
    let mut report = Report::new(crew.settings.report);
    let is_read = speak_lines(
        rt,
        alloc,
        watch,
        &mut report,
        &speaker,
        &mut crew,
        source,
        out,
        err,
    )?;
    report.tell(alloc, crew.beside(), &crew.swept, err)?;
    *callers = crew.callers;
    Ok(is_read)
}

/// Writes the sizes of rules, and answers that no line was refused.
fn tell_sizes<O: Sink>(out: &mut O, text: &[u8]) -> Result<bool, Stop>
    ensures all { IfOk result (λ is_read. (is_read ≡ true) × Appends (O.held out.old) (O.held out.new) text.now) }
    ensures front { AppendsPrefix (O.held out.old) (O.held out.new) text.now }
    ensures counts { Counts (O.faults out.old) (O.faults out.new) result }
    ensures stops { IfErr result IsDeviceStop }
{
    put(out, text)?;
    Ok(true)
}
