// The automata of a rewrite.

ghost use Rattle.std.specs.Prelude.{◌≡◌, ◌<◌, ◌≤◌, ◌↔◌, ℕ, List, reverse, length, IfOk, IsTrue};
ghost use Rattle.weighted_relations.specs.Machines.{Reads};
ghost use Rattle.weighted_relations.specs.Relations.{Same};
ghost use Rattle.acceptor_ops.specs.Tables.{Accepts};
ghost use Rattle.rewrite_rules.specs.Bimachine.{MayPass};
ghost use Rattle.rewrite_rules.specs.Languages.{Heads, Fronts, LeftText, BackText, Speaks};
ghost use Rattle.rewrite_rules.specs.Manners.{manner_of};
ghost use Rattle.rewrite_rules.specs.PartsOf.{right_of, begins_of, accepts_at, live_at, AreSound};

use crate::any_texts::any_text;
use crate::lives::live_states;
use crate::modes::RewriteMode;
use crate::shared_ends::share_ends;
use crate::spots::Gap;
use acceptor_ops::{Dfa, determinise, minus, reverse_dfa};
use fst_core::{Fst, concat, reads_empty, text, trim, union};
use std::alloc::{AllocError, Global};

/// The automata of a rewrite: that of sigma over inputs; that of the left context over outputs, which begins after
/// the mark of the beginning; and the backward one over unread inputs, which begins before the mark of the end.
#[derive(Drop)]
pub(crate) struct Automata {
    pub sigma: Dfa,
    /// Marks of the states of sigma's automaton, without those from where no text is accepted any more.
    pub live: Vec<bool>,
    pub left: Dfa,
    pub left_start: usize,
    pub back: Dfa,
    pub back_start: usize,
    /// Whether tau reads the empty text.
    pub inserts: bool,
    pub mode: RewriteMode,
}

impl Automata {
    /// The automata of these parts of a rewrite.
    pub(crate) fn new(
        alloc: Global,
        tau: &Fst,
        left: &Fst,
        right: &Fst,
        sigma: &Fst,
        mode: RewriteMode,
    ) -> Result<Automata, AllocError>
        ensures sound { IfOk result AreSound }
        ensures texts { IfOk result (Speaks (Reads tau.now) (Reads left.now) (Reads right.now) (Reads sigma.now)) }
        ensures mode { IfOk result (λ t. t.mode ≡ mode) }
    {
        let left = left_automaton(alloc, left)?;
        let back = back_automaton(alloc, tau, right)?;
        let sigma = determinise(alloc, sigma)?;
        let live = live_states(alloc, &sigma)?;
        let _first = sigma.start();
        let inserts = reads_empty(alloc, tau)?;
        let left_start = left.step(left.start(), 256);
        let back_start = back.step(back.start(), 257);
        Ok(Automata {
            sigma,
            live,
            left,
            left_start,
            back,
            back_start,
            inserts,
            mode,
        })
    }

    /// Whether sigma may accept yet.
    pub(crate) fn goes_on(&self, sigma: usize) -> bool
        requires sigma { sigma < length self.now.live.items }
        ensures value { result ≡ live_at self.now.live.items sigma }
    {
        self.live[sigma]
    }

    /// Whether the unread text starts with the right context.
    pub(crate) fn right(&self, back: usize) -> bool
        requires back { back < length self.now.back.next }
        ensures value { result ≡ right_of self.now.back back }
    {
        self.back.accepts(self.back.step(back, 256))
    }

    /// Whether a rewrite can begin before the unread text.
    fn begins(&self, gap: Gap, back: usize) -> bool
        requires back { back < length self.now.back.next }
        ensures value { result ≡ begins_of self.now.back self.now.inserts gap back }
    {
        match gap {
            Gap::Open => self.back.accepts(back) || (self.inserts && self.right(back)),
            Gap::Shut => self.back.accepts(back),
        }
    }

    /// Whether a rewrite can begin between what was written and what is unread.
    pub(crate) fn enters(&self, left: usize, gap: Gap, back: usize) -> bool
        requires left { left < length self.now.left.next }
        requires back { back < length self.now.back.next }
        ensures value { IsTrue result ↔ (IsTrue (accepts_at self.now.left left) × IsTrue (begins_of self.now.back self.now.inserts gap back)) }
    {
        self.left.accepts(left) && self.begins(gap, back)
    }

    /// Whether a byte may be copied, or the end be reached.
    pub(crate) fn may_pass(&self, left: usize, gap: Gap, back: usize) -> bool
        requires left { left < length self.now.left.next }
        requires back { back < length self.now.back.next }
        ensures value { IsTrue result ↔ MayPass (manner_of self.now.mode) (accepts_at self.now.left left) (begins_of self.now.back self.now.inserts gap back) }
    {
        match self.mode {
            RewriteMode::Obligatory => !self.enters(left, gap, back),
            RewriteMode::Optional => true,
        }
    }
}

/// The automaton of the texts that end in the left context.
fn left_automaton(alloc: Global, left: &Fst) -> Result<Dfa, AllocError>
    ensures texts { IfOk result (λ d. (x : List ℕ) → Accepts d x ↔ LeftText (Reads left.now) x) }
{
    let mut parts = Vec::new(alloc);
    parts.push(any_text(alloc)?)?;
    parts.push(trim(alloc, left)?)?;
    let all = concat(alloc, &parts)?;
    let d = determinise(alloc, &all)?;
    Ok(d)
}

/// What is read where a rewrite reads something.
fn heads(alloc: Global, tau: &Fst) -> Result<Fst, AllocError>
    ensures readings { IfOk result (λ m. Same (Reads m) (Heads (Reads tau.now))) }
{
    let nothing = text(alloc, &[])?;
    let empty = determinise(alloc, &nothing)?;
    let m = minus(alloc, tau, &empty)?;
    Ok(m)
}

/// What is looked for at the front of an unread text: something that tau reads, or the mark of the beginning in
/// its place.
fn fronts(alloc: Global, tau: &Fst) -> Result<Fst, AllocError>
    ensures readings { IfOk result (λ m. Same (Reads m) (Fronts (Reads tau.now))) }
{
    let mut parts = Vec::new(alloc);
    let heads = heads(alloc, tau)?;
    parts.push(share_ends(alloc, &heads)?)?;
    parts.push(text(alloc, &[256])?)?;
    let m = union(alloc, &parts)?;
    Ok(m)
}

/// The backward automaton: of a front, and then what starts with the right context.
fn back_automaton(alloc: Global, tau: &Fst, right: &Fst) -> Result<Dfa, AllocError>
    ensures texts { IfOk result (λ d. (x : List ℕ) → Accepts d (reverse x) ↔ BackText (Reads tau.now) (Reads right.now) x) }
{
    let mut parts = Vec::new(alloc);
    parts.push(fronts(alloc, tau)?)?;
    parts.push(share_ends(alloc, right)?)?;
    parts.push(any_text(alloc)?)?;
    let all = concat(alloc, &parts)?;
    let d = reverse_dfa(alloc, &all)?;
    Ok(d)
}
