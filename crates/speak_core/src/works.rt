// What is left to do for a job once all is loaded.

ghost use Rattle.std.specs.Prelude.{◌≡◌, ◌<◌, ◌≤◌, ◌^◌, IfErr, IfOk, IfSome, IsErrOf, true, false};
ghost use Rattle.sample_lines.specs.Toy.{toy_files};
ghost use Rattle.speak_words.specs.declared.asked.Settings.{Settings};
ghost use Rattle.speak_words.specs.Asked.{AreInBounds, InBounds, job_of, sample};
ghost use Rattle.speak_core.specs.Accepted.{JobAsks, RequestAsks};
ghost use Rattle.speak_core.specs.Loaded.{FindsPlanned};
ghost use Rattle.speak_core.specs.Outputs.{reads_input};
ghost use Rattle.speak_core.specs.Requests.{request_for, request_of};
ghost use Rattle.speak_core.specs.Stops.{Counts, IsReadStop};
ghost use Rattle.speak_core.specs.Works.{CanBeDone, CheckedBy, Does, InputBy, SampledBy, work_reads};

use crate::loading::{find_checked, find_speaker};
use crate::requests::{Mode, Request};
use crate::samples::Sample;
use crate::speakers::Loaded;
use crate::stop::Stop;
use norm_base::Shelf;
use sample_lines::toy_shelf;
use speak_words::{Mode as Job, Settings};
use std::alloc::Global;

/// What is left to do.
#[derive(Drop)]
pub(crate) enum Work {
    /// The lines of the input are spoken.
    Input(Loaded),
    /// This text is written.
    Checked(Vec<u8>),
    /// The lines of a sample are spoken.
    Sampled(Sample),
}

/// What a job comes to, by so many callers over a table of so many places. The sample is loaded from files of its own, and doesn't touch the shelf.
pub(crate) fn find_work<H: Shelf>(
    alloc: Global,
    shelf: &mut H,
    job: &Job<'_>,
    settings: Settings,
) -> Result<Work, Stop>
    requires bounds { InBounds job.now }
    requires settings { AreInBounds settings }
    ensures finds { IfSome (H.files shelf.old) (λ files. FindsPlanned (Does (job_of job.now)) (JobAsks files (job_of job.now)) result) }
    ensures ready { IfOk result (CanBeDone settings) }
    ensures reads { IfOk result (λ work. work_reads work ≡ reads_input (job_of job.now)) }
    ensures files { H.files shelf.new ≡ H.files shelf.old }
    ensures counts { Counts (H.faults shelf.old) (H.faults shelf.new) result }
    ensures stops { IfErr result IsReadStop }
{
    match *job {
        Job::Speak { setup } => {
            let mode = Mode::Speak;
            find_lines(alloc, shelf, &Request { setup, mode }, settings)
        }
        Job::Classify { setup } => {
            let mode = Mode::Classify;
            find_lines(alloc, shelf, &Request { setup, mode }, settings)
        }
        Job::Check { setup } => {
            let mode = Mode::Speak;
            find_sizes(alloc, shelf, &Request { setup, mode })
        }
        Job::Sample { count, start } => find_sample(alloc, count, start, settings),
    }
}

/// The lines of the input, for a request.
fn find_lines<H: Shelf>(
    alloc: Global,
    shelf: &mut H,
    request: &Request<'_>,
    settings: Settings,
) -> Result<Work, Stop>
    requires settings { AreInBounds settings }
    ensures finds { IfSome (H.files shelf.old) (λ files. FindsPlanned InputBy (RequestAsks files (request_of request.now)) result) }
    ensures ready { IfOk result (CanBeDone settings) }
    ensures reads { IfOk result (λ work. work_reads work ≡ true) }
    ensures files { H.files shelf.new ≡ H.files shelf.old }
    ensures counts { Counts (H.faults shelf.old) (H.faults shelf.new) result }
    ensures stops { IfErr result IsReadStop }
{
    let loaded = find_speaker(alloc, shelf, request, settings)?;
    Ok(Work::Input(loaded))
}

/// The sizes of the rules of a request.
fn find_sizes<H: Shelf>(alloc: Global, shelf: &mut H, request: &Request<'_>) -> Result<Work, Stop>
    ensures finds { IfSome (H.files shelf.old) (λ files. FindsPlanned CheckedBy (RequestAsks files (request_of request.now)) result) }
    ensures ready { (settings : Settings) → IfOk result (CanBeDone settings) }
    ensures reads { IfOk result (λ work. work_reads work ≡ false) }
    ensures files { H.files shelf.new ≡ H.files shelf.old }
    ensures counts { Counts (H.faults shelf.old) (H.faults shelf.new) result }
    ensures stops { IfErr result IsReadStop }
{
    let text = find_checked(alloc, shelf, request)?;
    Ok(Work::Checked(text))
}

/// The lines of the sample, by its own files.
fn find_sample(alloc: Global, count: u32, start: u32, settings: Settings) -> Result<Work, Stop>
    requires start { start < 2 ^ 31 }
    requires settings { AreInBounds settings }
    ensures finds { FindsPlanned (SampledBy count start) (RequestAsks toy_files (request_for (sample count start))) result }
    ensures ready { IfOk result (CanBeDone settings) }
    ensures reads { IfOk result (λ work. work_reads work ≡ false) }
    ensures inside { IsErrOf result Stop.Outside → ⊥ }
    ensures stops { IfErr result IsReadStop }
{
    let mut shelf = toy_shelf(alloc)?;
    let request = Request {
        setup: "toy.setup",
        mode: Mode::Speak,
    };
    let loaded = find_speaker(alloc, &mut shelf, &request, settings)?;
    Ok(Work::Sampled(Sample {
        loaded,
        count,
        start,
    }))
}
