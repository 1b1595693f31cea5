// The top call.

ghost use Rattle.std.specs.Prelude.{◌≡◌, ◌⊎◌, ◌≤◌, ◌^◌, IfErr, IfOk, IfSome, length, List, [], ℕ, None, true, false};
ghost use Rattle.std.specs.Io.KnownBytes.{IsAtEnd};
ghost use Rattle.norm_base.specs.Bytes.{AppendsPrefix};
ghost use Rattle.norm_base.specs.Counts.{Rose};
ghost use Rattle.speak_core.specs.Accepted.{Accepted, IsRefusal, Refused};
ghost use Rattle.speak_core.specs.Requests.{job_in};
ghost use Rattle.speak_core.specs.Devices.{NoneRose, OfInput, SomeRose, seen, sink_seen};
ghost use Rattle.speak_core.specs.Given.{Gives};
ghost use Rattle.speak_core.specs.Inputs.{GaveTooMuch, IfGaveTooMuch};
ghost use Rattle.speak_core.specs.Left.{LeavesCallers};
ghost use Rattle.speak_core.specs.Owed.{OfOwed, SpeaksAll, spoke_nothing};
ghost use Rattle.speak_core.specs.Outputs.{reads_input};
ghost use Rattle.speak_core.specs.Plans.{Plan};
ghost use Rattle.speak_core.specs.Stops.{IsEnd, IsStatus, text_of, last_text};
ghost use Rattle.speak_core.specs.declared.stop.Stop.TheVariants.{Words, Outside, Memory, TooLong};
ghost use Rattle.speak_core.specs.Told.{TellsLast, TellsShort, TellsStop, TellsTwice};

use crate::outside::put;
use crate::running::run;
use crate::stop::Stop;
use crate::watch::Watch;
use norm_base::{Shelf, Sink, Source};
use normaliser::Caller;
use std::alloc::Global;
use std::thread::Threads;

/// Does the job that the words ask for, by the files of the shelf and the lines of the source, and answers the status.
///
/// The words are read by `speak_words`. In modes speak, classify and check the tokeniser's grammar is linked with all that it imports, and
/// its rules, one to `speak_setup::MOST_RULES`, are looked up; but in mode classify the verbaliser's after them. Then the rules are built. In
/// modes speak and classify the input is read after that, of at most 268,435,456 bytes. Mode check reads nothing of the source, and mode
/// sample touches neither the shelf nor the source: it has files and lines of its own.
///
/// In mode classify `out` gets for each line the output of its least reading through all rules of the tokeniser, one after another, and a
/// LF. In mode speak it gets the words of the tokens that this output is, with single spaces between, and a LF; a record's words are the
/// output of the least reading through all rules of the verbaliser over all texts of the record. A refused line gives the LF alone, and
/// `err` gets its number with its first fault: a byte 0, more than 16,384 bytes, or no reading; in mode speak also no token
/// text, a record with more than 10 fields in any order, or a token without words. An empty line says nothing and isn't refused.
///
/// In mode check `out` gets a line for each rule with the size of its expression. In mode sample it gets the summary of what the lines
/// say, once all of them are spoken, and `err` their faults as in mode speak.
///
/// Status 0: each line was read, or the rules were checked. 1: some line is refused. 2: the words are wrong. 3: the setup, a grammar or a rule is
/// refused. 4: a device failed, in place of 3 the shelf. 5: memory is wanting. 6: the input is too long. From 2 on, the cause is told to `err` last.
///
/// Lines are handled in batches of 1,024. The source is asked for at most 65,536 bytes at a time, and for none while the whole lines of a batch are
/// there; a line without its end is kept until that comes. A batch's words are written before more is read. Its lines are spoken side by side by so
/// many workers, from 1, as the words say: a line by the worker whose number less one is what the line's number less one leaves over. The watch is
/// told before and after each line, by its worker.
pub fn speak<R: Threads + Sync, H: Shelf, S: Source, O: Sink, E: Sink, W: Watch + Sync>(
    rt: &R,
    alloc: Global,
    words: &[String],
    shelf: &mut H,
    source: &mut S,
    out: &mut O,
    err: &mut E,
    watch: &W,
    callers: &mut Vec<Caller>,
) -> u8
    requires none { callers.old.items ≡ [] }
    ensures range { result ≤ 6 }

    // The cause of each status. Of a setup, a grammar or a rule that is refused, a fault of a device is the shelf's.
    ensures wrong_words { result ≡ 2 → job_in words.now ≡ None }
    ensures only_wrong_words { job_in words.now ≡ None → (result ≡ 2) ⊎ (result ≡ 5) }
    ensures refused { result ≡ 3 → IfSome (H.files shelf.old) (λ files. (text : List ℕ) × IsRefusal words.now files text) }
    ensures only_refused { IfSome (H.files shelf.old) (λ files. (text : List ℕ) → Refused words.now files text
        → (result ≡ 3) ⊎ ((result ≡ 5) ⊎ ((result ≡ 4) × Rose (H.faults shelf.old) (H.faults shelf.new)))) }
    ensures outside { let devices = seen H.Shelf S.Source O.Sink E.Sink shelf.old source.old out.old err.old shelf.new source.new out.new err.new in
        result ≡ 4 → SomeRose devices }
    ensures too_long { result ≡ 6 → GaveTooMuch (S.left source.old) (S.left source.new) }
    ensures only_too_long { IfGaveTooMuch (S.left source.old) (S.left source.new) ((result ≡ 6) ⊎ (result ≡ 5)) }
    ensures quiet { let devices = seen H.Shelf S.Source O.Sink E.Sink shelf.old source.old out.old err.old shelf.new source.new out.new err.new in
        result ≤ 1 → NoneRose devices }

    // What is written for the lines.
    ensures read { let devices = seen H.Shelf S.Source O.Sink E.Sink shelf.old source.old out.old err.old shelf.new source.new out.new err.new in
        result ≡ 0 → SpeaksAll words.now devices true }
    ensures some_refused { let devices = seen H.Shelf S.Source O.Sink E.Sink shelf.old source.old out.old err.old shelf.new source.new out.new err.new in
        result ≡ 1 → SpeaksAll words.now devices false }
    ensures end { result ≤ 1 → IfSome (job_in words.now) (λ job. reads_input job ≡ true → IsAtEnd (S.left source.new)) }
    ensures front { OfOwed words.now (H.files shelf.old) (S.left source.old) (λ output spoke. AppendsPrefix (O.held out.old) (O.held out.new) output) }
    ensures silent { (result ≡ 2) ⊎ (result ≡ 3) → O.held out.new ≡ O.held out.old }

    // With all accepted, no count that rose and an input within its limit, the lines are spoken or memory is wanting.
    ensures complete { let devices = seen H.Shelf S.Source O.Sink E.Sink shelf.old source.old out.old err.old shelf.new source.new out.new err.new in
        OfInput (H.files shelf.old) (S.left source.old) (λ files input. (plan : Plan) → (accepted : Accepted words.now files plan) → (reads_input accepted.job ≡ true → length input ≤ 2 ^ 28) → (SomeRose devices → ⊥)
        → (result ≤ 1) ⊎ (result ≡ 5)) }

    // What is told last.
    ensures told_words { result ≡ 2 → TellsLast (sink_seen E.Sink err.old) (sink_seen E.Sink err.new) spoke_nothing (text_of Words) }
    ensures told_refused { result ≡ 3 → IfSome (H.files shelf.old) (λ files. (text : List ℕ) → Refused words.now files text
        → TellsLast (sink_seen E.Sink err.old) (sink_seen E.Sink err.new) spoke_nothing text) }
    ensures told_outside { result ≡ 4 → OfOwed words.now (H.files shelf.old) (S.left source.old) (λ output spoke. TellsLast (sink_seen E.Sink err.old) (sink_seen E.Sink err.new) spoke (text_of Outside)) }
    ensures told_too_long { result ≡ 6 → OfOwed words.now (H.files shelf.old) (S.left source.old) (λ output spoke. TellsLast (sink_seen E.Sink err.old) (sink_seen E.Sink err.new) spoke (text_of TooLong)) }
    ensures told_memory { let devices = seen H.Shelf S.Source O.Sink E.Sink shelf.old source.old out.old err.old shelf.new source.new out.new err.new in
        result ≡ 5 → TellsShort words.now devices }

    // The callers of the run: their table has the plan's cascades, and what is reported of each line is what its worker's log has of it.
    ensures callers { result ≤ 1 → OfInput (H.files shelf.old) (S.left source.old) (λ files input. LeavesCallers words.now files input callers.new.items (E.held err.old) (E.held err.new)) }
    ensures no_callers { 2 ≤ result → callers.new.items ≡ [] }

    ensures unread { (result ≡ 2) ⊎ (result ≡ 3) → S.left source.new ≡ S.left source.old }
    ensures kept { IfSome (job_in words.now) (λ job. reads_input job ≡ false → S.left source.new ≡ S.left source.old) }
    ensures files { H.files shelf.new ≡ H.files shelf.old }

    // No more of the input was given than the batches whose words were written, one batch more, and a read.
    ensures given { let devices = seen H.Shelf S.Source O.Sink E.Sink shelf.old source.old out.old err.old shelf.new source.new out.new err.new in
        Gives words.now devices }
{
    let ended = run(rt, alloc, watch, words, shelf, source, out, err, callers);
    finish(ended, err)
}

/// Tells why a run ended, where it didn't speak all lines, and answers its status.
fn finish<E: Sink>(ended: Result<bool, Stop>, err: &mut E) -> u8
    ensures status { IsEnd result ended }
    ensures kept { IfOk ended (λ is_read. E.held err.new ≡ E.held err.old) }
    ensures kept_count { IfOk ended (λ is_read. E.faults err.new ≡ E.faults err.old) }
    ensures told { IfErr ended (λ stop. TellsStop result (sink_seen E.Sink err.old) (sink_seen E.Sink err.new) stop) }
    ensures short { result ≡ 5 → IfErr ended (λ stop. TellsTwice (E.held err.old) (E.held err.new) (last_text stop)) }
    ensures later { E.faults err.old ≤ E.faults err.new }
{
    match ended {
        Ok(true) => 0,
        Ok(false) => 1,
        Err(stop) => tell(err, &stop),
    }
}

/// Tells why a run stopped, and answers its status; that of want of memory where memory is wanting for the text.
fn tell<E: Sink>(err: &mut E, stop: &Stop) -> u8
    ensures status { IsStatus result stop.now }
    ensures told { TellsStop result (sink_seen E.Sink err.old) (sink_seen E.Sink err.new) stop.now }
    ensures short { result ≡ 5 → TellsTwice (E.held err.old) (E.held err.new) (last_text stop.now) }
    ensures later { E.faults err.old ≤ E.faults err.new }
{
    match stop {
        Stop::Memory => tell_memory(err),
        _ => match put(err, stop.text()) {
            Err(Stop::Memory) => tell_memory(err),
            _ => stop.status(),
        },
    }
}

/// Tells that memory is wanting, where it can, and answers that status.
fn tell_memory<E: Sink>(err: &mut E) -> u8
    ensures status { result ≡ 5 }
    ensures front { AppendsPrefix (E.held err.old) (E.held err.new) (text_of Memory) }
    ensures later { E.faults err.old ≤ E.faults err.new }
{
    let _told = put(err, Stop::Memory.text());
    Stop::Memory.status()
}
