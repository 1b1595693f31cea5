// The numbers of the nodes that wait, in two lists.

ghost use Rattle.std.specs.Prelude.{◌≡◌, ◌∷◌, [], IfOk, MatchOption, OnOk};
ghost use Rattle.std.specs.List.Sorted.{IsPermutation};

use std::alloc::{AllocError, Global};
use std::marker::Model;

/// At whose end a node waits: of the list that is gone through now, or of the one after it.
#[derive(Clone, Copy)]
pub(crate) enum Turn {
    Now,
    Next,
}

/// What is left of the list that is gone through, and the one after it.
#[derive(Drop)]
pub(crate) struct Lists {
    now: Vec<usize>,
    taken: usize,
    next: Vec<usize>,
}

impl Model for Lists {
    ghost use Rattle.std.specs.Prelude.{◌++◌, ◌≤◌, ℕ, List, drop, length};

    ghost Value = { List ℕ };

    ghost view = { λ l. drop l.taken l.now.items ++ l.next.items };

    ghost invariant = { λ l. l.taken ≤ length l.now.items };
}

impl Lists {
    /// Nothing waits. It takes no memory yet.
    pub(crate) fn new(alloc: Global) -> Lists
        ensures { result ≡ [] }
    {
        Lists {
            now: Vec::new(alloc),
            taken: 0,
            next: Vec::new(alloc),
        }
    }

    /// Nothing waits any longer, and there is room for so many nodes in each list.
    pub(crate) fn clear(&mut self, room: usize) -> Result<(), AllocError>
        ensures { OnOk result (self.new ≡ []) }
    {
        self.taken = 0;
        self.now.clear();
        self.next.clear();
        self.now.reserve(room)?;
        self.next.reserve(room)?;
        Ok(())
    }

    /// A node waits.
    #[inline(always)]
    pub(crate) fn put(&mut self, number: usize, turn: Turn) -> Result<(), AllocError>
        ensures { IfOk result (λ _. IsPermutation (number ∷ self.old) self.new) }
    {
        match turn {
            Turn::Now => self.now.push(number)?,
            Turn::Next => self.next.push(number)?,
        }
        Ok(())
    }

    /// Takes the first.
    pub(crate) fn take(&mut self) -> Option<usize>
        ensures { MatchOption result ((self.old ≡ []) × (self.new ≡ [])) (λ number. self.old ≡ number ∷ self.new) }
    {
        if self.taken == self.now.len() {
            std::mem::swap(&mut self.now, &mut self.next);
            self.next.clear();
            self.taken = 0;
        }
        if self.taken == self.now.len() {
            return None;
        }
        let number = self.now[self.taken];
        self.taken += 1;
        Some(number)
    }
}
