// The callers of a run.

ghost use Rattle.std.specs.Prelude.{◌≡◌, ◌≤◌, ◌<◌, ◌+◌, ◌-◌, ◌*◌, ◌^◌, [], IfOk, OnOk, length, map, slice_index_or, true};
ghost use Rattle.speak_core.specs.Crews.{AreShares, CanWork, IsCrewOf, RunsOn, SweptOn, Worked, rounds_of, seats_for};
ghost use Rattle.speak_core.specs.Reports.{swept_sum};
ghost use Rattle.speak_words.specs.Asked.{AreInBounds};
ghost use Rattle.speak_core.specs.declared.shares.Done.{Done};
ghost use Rattle.speak_core.specs.Parts.{AnswersFront, answer_of, lines_of, says_of, tally_of};

use crate::batches::{Answers, Heard};
use crate::gathering::gather;
use crate::shares::{Done, Share, work};
use crate::speakers::Speaker;
use crate::watch::Watch;
use normaliser::{Caller, Swept};
use speak_words::Settings;
use std::alloc::{AllocError, Global};
use std::collections::VecDeque;
use std::mem::replace;
use std::thread::{Threads, map_vec};

/// The callers of a run: those of the workers in order, and with a sweep the sweeper's last.
#[derive(Drop)]
pub(crate) struct Crew {
    pub(crate) callers: Vec<Caller>,
    pub(crate) settings: Settings,
    /// What the sweeper has found so far.
    pub(crate) swept: Swept,
}

impl Crew {
    /// How many places are swept beside a batch, each as often as there are rounds.
    pub(crate) fn beside(&self) -> u64
        requires { AreInBounds self.now.settings }
        ensures { result ≡ self.now.settings.places * self.now.settings.sweep }
    {
        u64::from(self.settings.places) * u64::from(self.settings.sweep)
    }
}

/// A sweep that came by no place.
pub(crate) fn none_swept() -> Swept
    ensures { swept_sum result ≡ 0 }
{
    Swept { done: 0, was: 0 }
}

/// How many seats a table has for so many workers, and a sweeper where there are rounds to sweep.
pub(crate) fn seats_for(jobs: u32, sweep: u32) -> u32
    requires { jobs ≤ 63 }
    ensures { result ≡ seats_for jobs sweep }
{
    if sweep == 0 { jobs } else { jobs + 1 }
}

/// What the lines of a batch say, in order. Its workers answer them side by side, and the sweeper sweeps beside them. Where this is want of
/// memory, the callers are gone.
pub(crate) fn answer_batch<R: Threads + Sync, W: Watch + Sync>(
    rt: &R,
    alloc: Global,
    watch: &W,
    speaker: &Speaker,
    crew: &mut Crew,
    lines: &[&[u8]],
    first: u64,
) -> Result<Answers, AllocError>
    requires ready { IsCrewOf speaker.now.normaliser crew.old }
    requires first { 1 ≤ first }
    requires numbers { first + length lines.now < 2 ^ 64 }
    requires room { swept_sum crew.old.swept + crew.old.settings.places * crew.old.settings.sweep < 2 ^ 64 }
    ensures ready { OnOk result (IsCrewOf speaker.now.normaliser crew.new) }
    ensures settings { crew.new.settings ≡ crew.old.settings }
    ensures swept { OnOk result (SweptOn crew.old.settings crew.old.swept crew.new.swept) }
    ensures answers { IfOk result (λ answers. AnswersFront (says_of speaker.now) (lines_of lines.now) (map answer_of answers.all.items) (map tally_of answers.all.items) answers.is_whole) }
    ensures ran { IfOk result (λ answers. answers.is_whole ≡ true → RunsOn speaker.now.normaliser crew.old crew.new first (map tally_of answers.all.items)) }
{
    let shares = deal(alloc, crew, lines, first)?;
    let done = map_vec(
        rt,
        shares,
        &|share: Share<'_>| -> Done
            requires { CanWork speaker.now.normaliser share }
            ensures { Worked speaker.entry.now share.entry result }
        { work(alloc, watch, speaker, share) },
    )?;
    let swept = swept_last(&done);
    let mut queues = take_back(alloc, crew, done)?;
    add_swept(&mut crew.swept, &swept);
    Ok(gather(alloc, &mut queues, crew.settings.jobs, lines, first))
}

/// The shares of a batch, one for each caller of the crew, which is left without them.
fn deal<'a>(
    alloc: Global,
    crew: &mut Crew,
    lines: &'a [&'a [u8]],
    first: u64,
) -> Result<Vec<Share<'a>>, AllocError>
    requires few { length crew.old.callers.items ≤ 64 }
    ensures callers { IfOk result (λ shares. map (λ s. s.caller) shares.items ≡ crew.old.callers.items) }
    ensures shares { IfOk result (λ shares. AreShares crew.old.settings.jobs crew.old.settings.sweep first (lines_of lines.entry.now) shares.items) }
    ensures none { crew.new.callers.items ≡ [] }
    ensures settings { crew.new.settings ≡ crew.old.settings }
    ensures swept { crew.new.swept ≡ crew.old.swept }
{
    let callers = replace(&mut crew.callers, Vec::new(alloc));
    let mut shares = Vec::with_capacity(alloc, callers.len())?;
    let Settings { jobs, sweep, .. } = crew.settings;
    let mut worker = 0;
    for caller in callers {
        let rounds = rounds_of(worker, jobs, sweep);
        shares.push(Share {
            caller,
            worker,
            jobs,
            lines,
            first,
            rounds,
        })?;
        worker += 1;
    }
    Ok(shares)
}

/// How many rounds a caller sweeps beside a batch: a worker none.
fn rounds_of(worker: u32, jobs: u32, sweep: u32) -> u32
    ensures { result ≡ rounds_of worker jobs sweep }
{
    if worker < jobs { 0 } else { sweep }
}

/// What the last of the callers found as it swept, which is the sweeper, if there is one.
fn swept_last(all: &[Done]) -> Swept
    ensures { (d : Done) → 0 < length all.now → result ≡ (slice_index_or all.now (length all.now - 1) d).swept }
{
    match all.last() {
        Some(done) => done.swept,
        None => none_swept(),
    }
}

/// Adds what one more sweep found.
fn add_swept(swept: &mut Swept, more: &Swept)
    requires { swept_sum swept.old + swept_sum more.now < 2 ^ 64 }
    ensures done { swept.new.done ≡ swept.old.done + more.now.done }
    ensures was { swept.new.was ≡ swept.old.was + more.now.was }
{
    swept.done += more.done;
    swept.was += more.was;
}

/// Gives a crew its callers back, and what each of them heard.
fn take_back(
    alloc: Global,
    crew: &mut Crew,
    all: Vec<Done>,
) -> Result<Vec<VecDeque<Heard>>, AllocError>
    requires { crew.old.callers.items ≡ [] }
    ensures callers { OnOk result (crew.new.callers.items ≡ map (λ d. d.caller) all.items) }
    ensures heard { IfOk result (λ queues. queues.items ≡ map (λ d. d.heard) all.items) }
    ensures settings { crew.new.settings ≡ crew.old.settings }
    ensures swept { crew.new.swept ≡ crew.old.swept }
{
    let mut queues = Vec::with_capacity(alloc, all.len())?;
    for done in all {
        crew.callers.push(done.caller)?;
        queues.push(done.heard)?;
    }
    Ok(queues)
}
