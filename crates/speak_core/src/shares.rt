// What each worker does of a batch.

ghost use Rattle.std.specs.Prelude.{◌≡◌, ◌==◌, ◌∷◌, ◌++◌, ◌<◌, ◌≤◌, ◌+◌, ◌-◌, ◌%◌, ◌^◌, List, [], OnErr, OnOk, length, map};
ghost use Rattle.normaliser.specs.Searches.{IsCallerOf, KeepsSeat};
ghost use Rattle.speak_core.specs.Crews.{CanWork, HearsFront, HearsMore, Worked, dealt, lines_of_share};
ghost use Rattle.speak_core.specs.Logs.{Grows};
ghost use Rattle.speak_core.specs.Parts.{says_of, tally_of};
ghost use Rattle.shared_cascade.specs.declared.tallies.Tally.{Tally};

use crate::batches::Heard;
use crate::speakers::Speaker;
use crate::watch::Watch;
use normaliser::{Caller, Room, Swept};
use std::alloc::{AllocError, Global};
use std::collections::VecDeque;

/// What a worker is handed for a batch: its caller, all lines of the batch, of which it answers its own, and how often it sweeps the
/// table after that.
#[derive(Drop)]
pub(crate) struct Share<'a> {
    pub(crate) caller: Caller,
    /// Its number, from 0.
    pub(crate) worker: u32,
    /// How many workers there are.
    pub(crate) jobs: u32,
    pub(crate) lines: &'a [&'a [u8]],
    /// The number of the first line of the batch, from 1.
    pub(crate) first: u64,
    pub(crate) rounds: u32,
}

/// What a worker gives back.
#[derive(Drop)]
pub(crate) struct Done {
    pub(crate) caller: Caller,
    /// What its lines say, in order, up to the first for which memory was wanting.
    pub(crate) heard: VecDeque<Heard>,
    pub(crate) swept: Swept,
}

/// Does the share of a worker.
pub(crate) fn work<W: Watch>(alloc: Global, watch: &W, speaker: &Speaker, share: Share<'_>) -> Done
    requires can { CanWork speaker.now.normaliser share }
    ensures { Worked speaker.now share.entry result }
{
    let mut share = share;
    let rounds = share.rounds;
    let heard = answer_share(alloc, watch, speaker, &mut share);
    let swept = speaker.normaliser.sweep(&mut share.caller, rounds);
    Done {
        caller: share.caller,
        heard,
        swept,
    }
}

/// Answers the lines of a worker in order, up to the first for which memory is wanting.
fn answer_share<W: Watch>(
    alloc: Global,
    watch: &W,
    speaker: &Speaker,
    share: &mut Share<'_>,
) -> VecDeque<Heard>
    requires ready { IsCallerOf speaker.now.normaliser share.old.caller }
    requires first { 1 ≤ share.old.first }
    requires numbers { share.old.first + length share.old.lines.now < 2 ^ 64 }
    requires jobs { 1 ≤ share.old.jobs }
    requires worker { share.old.worker ≤ 63 }
    ensures ready { IsCallerOf speaker.now.normaliser share.new.caller }
    ensures seat { KeepsSeat share.old.caller share.new.caller }
    ensures heard { HearsFront (says_of speaker.now) (lines_of_share share.old) result.items }
    ensures log { length result.items ≡ length (lines_of_share share.old) → Grows speaker.now.normaliser share.old.caller share.new.caller (map tally_of result.items) }
{
    let mut heard = VecDeque::new(alloc);
    let mut room = Room::new(alloc);
    let mut number = share.first;
    for line in share.lines {
        let Ok(()) = answer_one(
            alloc, watch, speaker, share, &mut room, number, line, &mut heard,
        ) else {
            return heard;
        };
        number += 1;
    }
    heard
}

/// Whether the line of this number, from 1, is the worker's, from 0.
fn is_turn(number: u64, worker: u32, jobs: u32) -> bool
    requires number { 1 ≤ number }
    requires jobs { 1 ≤ jobs }
    ensures { result ≡ (number - 1) % jobs == worker }
{
    (number - 1) % u64::from(jobs) == u64::from(worker)
}

/// Answers the line of this number where it is the worker's turn, but for want of memory.
fn answer_one<W: Watch>(
    alloc: Global,
    watch: &W,
    speaker: &Speaker,
    share: &mut Share<'_>,
    room: &mut Room,
    number: u64,
    line: &[u8],
    heard: &mut VecDeque<Heard>,
) -> Result<(), AllocError>
    requires ready { IsCallerOf speaker.now.normaliser share.old.caller }
    requires number { 1 ≤ number }
    requires jobs { 1 ≤ share.old.jobs }
    requires worker { share.old.worker ≤ 63 }
    ensures ready { IsCallerOf speaker.now.normaliser share.new.caller }
    ensures seat { KeepsSeat share.old.caller share.new.caller }
    ensures heard { OnOk result (HearsMore (says_of speaker.now) (dealt share.old.jobs share.old.worker (number - 1) (line.now ∷ [])) heard.old.items heard.new.items) }
    ensures none { OnErr result (heard.new.items ≡ heard.old.items) }
    ensures turn { OnErr result ((number - 1) % share.old.jobs ≡ share.old.worker) }
    ensures log { OnOk result ((ts : List Tally) × (map tally_of heard.new.items ≡ map tally_of heard.old.items ++ ts) × Grows speaker.now.normaliser share.old.caller share.new.caller ts) }
    ensures still { share.new ≡ record share.old { caller = share.new.caller } }
{
    if !is_turn(number, share.worker, share.jobs) {
        return Ok(());
    }
    watch.before(share.worker + 1, number);
    let answer = speaker.answer(alloc, &mut share.caller, room, line);
    watch.after(share.worker + 1, number);
    heard.push_back(answer?)?;
    Ok(())
}
