// What the workers heard of a batch, put together again.

ghost use Rattle.std.specs.Prelude.{◌≡◌, ◌<◌, ◌≤◌, ◌+◌, ◌-◌, ◌%◌, ◌^◌, ℕ, IfSome, Some, length, map, slice_get, true};
ghost use Rattle.std.specs.declared.alloc.Global.{Global};
ghost use Rattle.std.specs.declared.collections.VecDeque.{VecDeque};
ghost use Rattle.speak_core.specs.declared.batches.Heard.{Heard};
ghost use Rattle.speak_core.specs.Crews.{AllHear, BeginsWith, Takes, dealt};
ghost use Rattle.speak_core.specs.Parts.{AnswersFront, answer_of, lines_of, says_of, tally_of};
ghost use Rattle.speak_core.specs.declared.speakers.Speaker.{Speaker};

use crate::batches::{Answers, Heard};
use std::alloc::Global;
use std::collections::VecDeque;

/// What lines say, in order, up to the first of which its worker heard nothing.
pub(crate) fn gather(
    alloc: Global,
    queues: &mut [VecDeque<Heard>],
    jobs: u32,
    lines: &[&[u8]],
    first: u64,
) -> Answers
    requires first { 1 ≤ first }
    requires numbers { first + length lines.now < 2 ^ 64 }
    requires some { 1 ≤ jobs }
    requires jobs { jobs ≤ length queues.old }
    ensures answers { (s : Speaker) → AllHear (says_of s) jobs (first - 1) (lines_of lines.now) queues.old → AnswersFront (says_of s) (lines_of lines.now) (map answer_of result.all.items) (map tally_of result.all.items) result.is_whole }
    ensures count { result.is_whole ≡ true → length result.all.items ≡ length lines.now }
    ensures from { (worker : ℕ) (queue : VecDeque Heard Global) → slice_get queues.old worker ≡ Some queue → BeginsWith (dealt jobs worker (first - 1) result.all.items) queue.items }
{
    let mut answers = Answers {
        all: Vec::new(alloc),
        is_whole: false,
    };
    let mut before = first - 1;
    for _line in lines {
        let Some(heard) = next_heard(queues, turn_of(before, jobs)) else {
            return answers;
        };
        let Ok(()) = answers.all.push(heard) else {
            return answers;
        };
        before += 1;
    }
    answers.is_whole = true;
    answers
}

/// Whose turn it is after so many lines.
fn turn_of(before: u64, jobs: u32) -> usize
    requires { 1 ≤ jobs }
    ensures turn { result ≡ before % jobs }
    ensures below { result < jobs }
{
    (before % u64::from(jobs)) as usize
}

/// The next of what a worker heard.
fn next_heard(queues: &mut [VecDeque<Heard>], worker: usize) -> Option<Heard>
    requires { worker < length queues.old }
    ensures takes { IfSome result (λ h. Takes worker h queues.old queues.new) }
    ensures count { length queues.new ≡ length queues.old }
{
    queues[worker].pop_front()
}
