// Lists of states.

ghost use Rattle.std.specs.Prelude.{◌≡◌, ◌<◌, ℕ, [], length, get_or, IfOk, OnOk};
ghost use Rattle.acceptor_ops.specs.StateSets.{with_element};

use std::alloc::{AllocError, Global};
use std::marker::Model;

/// So many lists of states, as one for each class of labels or one for each state.
#[derive(Drop)]
pub struct Buckets {
    lists: Vec<Vec<usize>>,
}

impl Model for Buckets {
    ghost use Rattle.std.specs.Prelude.{map, List, ℕ};

    ghost Value = { List (List ℕ) };

    ghost view = { λ a. map (λ v. v.items) a.lists.items };
}

impl Buckets {
    /// So many empty buckets.
    pub fn empty(alloc: Global, count: usize) -> Result<Buckets, AllocError>
        ensures count { IfOk result (λ b. length b ≡ count) }
        ensures empty { IfOk result (λ b. (c : ℕ) → get_or b c [] ≡ []) }
    {
        let mut lists = Vec::new(alloc);
        for _ in 0..count {
            lists.push(Vec::new(alloc))?;
        }
        Ok(Buckets { lists })
    }

    /// Adds a state to a bucket.
    pub fn put(&mut self, bucket: usize, state: usize) -> Result<(), AllocError>
        requires within { bucket < length self.old }
        ensures value { OnOk result (self.new ≡ with_element self.old bucket state) }
    {
        self.lists[bucket].push(state)?;
        Ok(())
    }

    /// The states of a bucket.
    pub fn get(&self, bucket: usize) -> &[usize]
        requires within { bucket < length self.now }
        ensures value { result.now ≡ get_or self.now bucket [] }
    {
        self.lists[bucket].as_slice()
    }

    /// How many buckets there are.
    pub fn len(&self) -> usize
        ensures count { result ≡ length self.now }
    {
        self.lists.len()
    }
}
