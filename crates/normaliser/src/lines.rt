//! What a normaliser says of a line.

ghost use Rattle.std.specs.Prelude.{◌≡◌, All, IfOk, List};
ghost use Rattle.place_words.specs.declared.view.Entry.{Entry};
ghost use Rattle.shared_cascade.specs.Sweeps.{AreRounds, SweptBy, nothing_swept};
ghost use Rattle.token_record.specs.Meaning.{token_tree};
ghost use Rattle.token_record.specs.Writable.{TokenHasNoZero};
ghost use Rattle.normaliser.specs.Lines.{Classified, IsSaid, IsSearched};
ghost use Rattle.normaliser.specs.Loads.{classifier_of, verbaliser_of};
ghost use Rattle.normaliser.specs.Parts.{AreTokens};
ghost use Rattle.normaliser.specs.Searches.{Did, IsCallerOf, LooksWhereRead, places_of};
ghost use Rattle.normaliser.specs.Words.{Words};

use crate::classifying::fault_of;
use crate::faults::LineFault;
use crate::normalisers::{Normaliser, Spoken};
use least_path::Room;
use shared_cascade::{Caller, Swept};
use std::alloc::Global;
use token_record::{Token, TokenFault, read_tokens};

impl Normaliser {
    /// The classifier's output for a line, or the first of the line's faults `NulByte`, `LongLine` and `NoPath`. An empty line gives
    /// no bytes and isn't searched. A line of n bytes that is searched and has a reading takes at least n + 1 looks.
    pub fn classify_line(
        &self,
        alloc: Global,
        caller: &mut Caller,
        line: &[u8],
    ) -> Result<Spoken, LineFault>
        requires ready { IsCallerOf self.now caller.old }
        ensures said { IsSaid (Classified (classifier_of self.now)) line.now result }
        ensures ready { IsCallerOf self.now caller.new }
        ensures searched { Did self.now.shared caller.old caller.new result }
        ensures looks { LooksWhereRead self.now caller.old caller.new line.now result }
        ensures kept { (IsSearched line.now → ⊥) → caller.new ≡ caller.old }
    {
        let mut room = Room::new(alloc);
        self.classify_line_in(alloc, caller, &mut room, line)
    }

    /// The same, in room that lines before it may have used.
    pub fn classify_line_in(
        &self,
        alloc: Global,
        caller: &mut Caller,
        room: &mut Room,
        line: &[u8],
    ) -> Result<Spoken, LineFault>
        requires ready { IsCallerOf self.now caller.old }
        ensures said { IsSaid (Classified (classifier_of self.now)) line.now result }
        ensures ready { IsCallerOf self.now caller.new }
        ensures searched { Did self.now.shared caller.old caller.new result }
        ensures looks { LooksWhereRead self.now caller.old caller.new line.now result }
        ensures kept { (IsSearched line.now → ⊥) → caller.new ≡ caller.old }
    {
        if line.is_empty() {
            return Ok(Spoken {
                words: Vec::new(alloc),
            });
        }
        if let Some(fault) = fault_of(line) {
            return Err(fault);
        }
        match self.classified(alloc, caller, room, line)? {
            Some(words) => Ok(Spoken { words }),
            None => Err(LineFault::NoPath),
        }
    }

    /// The words of a line, or its first fault. The words of its tokens that have at least one byte are joined by single spaces. An
    /// empty line gives no bytes and isn't searched. A line of n bytes that is searched and that the classifier reads takes at least
    /// n + 1 looks.
    pub fn speak_line(
        &self,
        alloc: Global,
        caller: &mut Caller,
        line: &[u8],
    ) -> Result<Spoken, LineFault>
        requires ready { IsCallerOf self.now caller.old }
        ensures said { IsSaid (Words (classifier_of self.now) (verbaliser_of self.now)) line.now result }
        ensures ready { IsCallerOf self.now caller.new }
        ensures searched { Did self.now.shared caller.old caller.new result }
        ensures looks { LooksWhereRead self.now caller.old caller.new line.now result }
        ensures kept { (IsSearched line.now → ⊥) → caller.new ≡ caller.old }
    {
        let mut room = Room::new(alloc);
        self.speak_line_in(alloc, caller, &mut room, line)
    }

    /// The same, in room that lines before it may have used.
    pub fn speak_line_in(
        &self,
        alloc: Global,
        caller: &mut Caller,
        room: &mut Room,
        line: &[u8],
    ) -> Result<Spoken, LineFault>
        requires ready { IsCallerOf self.now caller.old }
        ensures said { IsSaid (Words (classifier_of self.now) (verbaliser_of self.now)) line.now result }
        ensures ready { IsCallerOf self.now caller.new }
        ensures searched { Did self.now.shared caller.old caller.new result }
        ensures looks { LooksWhereRead self.now caller.old caller.new line.now result }
        ensures kept { (IsSearched line.now → ⊥) → caller.new ≡ caller.old }
    {
        if line.is_empty() {
            return Ok(Spoken {
                words: Vec::new(alloc),
            });
        }
        let text = self.classify_line_in(alloc, caller, room, line)?.words;
        let tokens = tokens_of(alloc, &text)?;
        let words = self.words_of(alloc, caller, room, &tokens)?;
        Ok(Spoken { words })
    }

    /// Empties each place of the table in order, so many times over. It takes no memory, and the caller's tally has nothing of it.
    pub fn sweep(&self, caller: &mut Caller, rounds: u32) -> Swept
        requires ready { IsCallerOf self.now caller.old }
        ensures ready { IsCallerOf self.now caller.new }
        ensures swept { (es : List Entry) × AreRounds (places_of self.now) rounds es × SweptBy self.now.shared caller.old caller.new es nothing_swept result }
    {
        self.shared.sweep(caller, rounds)
    }
}

/// The tokens that a text is.
fn tokens_of(alloc: Global, text: &[u8]) -> Result<Vec<Token>, LineFault>
    ensures tokens { AreTokens text.now result }
    ensures no_zero { IfOk result (λ tokens. All (λ t. TokenHasNoZero (token_tree t)) tokens.items) }
{
    match read_tokens(alloc, text) {
        Ok(tokens) => Ok(tokens),
        Err(TokenFault::NotTokens { token }) => Err(LineFault::NotTokens { token }),
        Err(TokenFault::Memory) => Err(LineFault::Memory),
    }
}
