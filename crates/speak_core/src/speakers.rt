// A normaliser with what is asked of it.

ghost use Rattle.std.specs.Prelude.{◌≡◌, ◌≢◌, ◌≤◌, ◌+◌, IfOk, length};
ghost use Rattle.normaliser.specs.Lines.{IsSaid, IsSearched};
ghost use Rattle.normaliser.specs.Searches.{Did, IsCallerOf, KeepsSeat, LooksWhereRead};
ghost use Rattle.normaliser.specs.declared.faults.LineFault.TheVariants.{NoPath};
ghost use Rattle.speak_core.specs.Parts.{IsPart, answer_of, is_short, says_of};

use crate::batches::Heard;
use crate::crews::Crew;
use crate::requests::Mode;
use normaliser::{Caller, LineFault, Normaliser, Room, Spoken};
use std::alloc::{AllocError, Global};

/// A normaliser, and what is asked of it for each line.
#[derive(Drop)]
pub(crate) struct Speaker {
    pub(crate) normaliser: Normaliser,
    pub(crate) mode: Mode,
}

/// A speaker, and the callers that it speaks by.
#[derive(Drop)]
pub(crate) struct Loaded {
    pub(crate) speaker: Speaker,
    pub(crate) crew: Crew,
}

impl Speaker {
    /// What a line says, or its first fault, with what came of its looks. Want of memory is no fault. The caller's tally begins anew.
    pub(crate) fn answer(
        &self,
        alloc: Global,
        caller: &mut Caller,
        room: &mut Room,
        line: &[u8],
    ) -> Result<Heard, AllocError>
        requires ready { IsCallerOf self.now.normaliser caller.old }
        ensures said { IfOk result (λ h. says_of self.now line.now (answer_of h)) }
        ensures part { IfOk result (λ h. IsPart self.now.normaliser line.now caller.old caller.new h.tally) }
        ensures looked { IfOk result (λ h. IsSearched line.now → answer_of h ≢ Err NoPath → length line.now + 1 ≤ h.tally.looks) }
        ensures ready { IsCallerOf self.now.normaliser caller.new }
        ensures seat { KeepsSeat caller.old caller.new }
    {
        let _others = caller.take_tally();
        let answer = self.say(alloc, caller, room, line);
        let tally = caller.take_tally();
        let was_short = is_short(&answer);
        if was_short {
            return Err(AllocError);
        }
        Ok(Heard { answer, tally })
    }

    fn say(
        &self,
        alloc: Global,
        caller: &mut Caller,
        room: &mut Room,
        line: &[u8],
    ) -> Result<Spoken, LineFault>
        requires ready { IsCallerOf self.now.normaliser caller.old }
        ensures said { IsSaid (says_of self.now) line.now result }
        ensures ready { IsCallerOf self.now.normaliser caller.new }
        ensures searched { Did self.now.normaliser.shared caller.old caller.new result }
        ensures looks { LooksWhereRead self.now.normaliser caller.old caller.new line.now result }
        ensures kept { (IsSearched line.now → ⊥) → caller.new ≡ caller.old }
    {
        match self.mode {
            Mode::Classify => self.normaliser.classify_line_in(alloc, caller, room, line),
            Mode::Speak => self.normaliser.speak_line_in(alloc, caller, room, line),
        }
    }
}

/// Whether memory was wanting for a line.
fn is_short(answer: &Result<Spoken, LineFault>) -> bool
    ensures { result ≡ is_short answer.now }
{
    matches!(answer, Err(LineFault::Memory))
}
