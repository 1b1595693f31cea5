// A total deterministic automaton.

ghost use Rattle.std.specs.Prelude.{◌≡◌, ◌<◌, ◌≤◌, ◌^◌, [], length, get_or, false, OnOk};
ghost use Rattle.acceptor_ops.specs.Tables.{step_of, IsTotal};
ghost use Rattle.acceptor_ops.specs.Numbered.{with_row};

use std::alloc::{AllocError, Global};
use std::marker::Model;

/// A total deterministic automaton over the labels 1 to 257: the bytes from 1 to 255, the mark of the beginning
/// (256) and the mark of the end (257). Its states are numbered from 0.
///
/// A state has one next state for each class of labels.
#[derive(Drop)]
pub struct Dfa {
    start: usize,
    classes: Vec<usize>,
    next: Vec<Vec<usize>>,
    accepting: Vec<bool>,
}

impl Model for Dfa {
    ghost use Rattle.std.specs.Prelude.{map};
    ghost use Rattle.acceptor_ops.specs.Tables.{Table, IsTotal};

    ghost Value = { Table };

    ghost view = { λ a. record { start = a.start; classes = a.classes.items; next = map (λ row. row.items) a.next.items; accepting = a.accepting.items } };

    ghost invariant = { λ a. IsTotal (record { start = a.start; classes = a.classes.items; next = map (λ row. row.items) a.next.items; accepting = a.accepting.items }) };
}

impl Dfa {
    /// The number of states.
    pub fn len(&self) -> usize
        ensures count { result ≡ length self.now.next }
        ensures even { length self.now.accepting ≡ length self.now.next }
        ensures small { result < 2 ^ 63 }
    {
        self.next.len()
    }

    /// The state where a string starts.
    pub fn start(&self) -> usize
        ensures value { result ≡ self.now.start }
        ensures within { result < length self.now.next }
        ensures total { IsTotal self.now }
    {
        self.start
    }

    /// The next state at a label.
    pub fn step(&self, state: usize, label: u16) -> usize
        requires within { state < length self.now.next }
        requires low { 1 ≤ label }
        requires high { label ≤ 257 }
        ensures value { result ≡ step_of self.now state label }
        ensures within { result < length self.now.next }
    {
        let class = self.classes[label as usize];
        self.next[state][class]
    }

    /// Whether a string that ends in the state is accepted.
    pub fn accepts(&self, state: usize) -> bool
        requires within { state < length self.now.next }
        ensures value { result ≡ get_or self.now.accepting state false }
    {
        self.accepting[state]
    }

    /// The next states of a state, by classes.
    pub(crate) fn row(&self, state: usize) -> &[usize]
        requires within { state < length self.now.next }
        ensures value { result.now ≡ get_or self.now.next state [] }
    {
        self.next[state].as_slice()
    }

    /// The class of each label.
    pub(crate) fn classes(&self) -> &[usize]
        ensures value { result.now ≡ self.now.classes }
    {
        self.classes.as_slice()
    }

    /// The automaton of these states.
    pub(crate) fn from_rows(start: usize, classes: Vec<usize>, rows: Rows) -> Dfa
        requires total { IsTotal (record { start = start; classes = classes.items; next = rows.next; accepting = rows.accepting }) }
        ensures value { result ≡ record { start = start; classes = classes.items; next = rows.next; accepting = rows.accepting } }
    {
        let Rows { next, accepting } = rows;
        Dfa {
            start,
            classes,
            next,
            accepting,
        }
    }
}

/// The states of an automaton that is being built.
#[derive(Drop)]
pub(crate) struct Rows {
    next: Vec<Vec<usize>>,
    accepting: Vec<bool>,
}

impl Model for Rows {
    ghost use Rattle.std.specs.Prelude.{map};
    ghost use Rattle.acceptor_ops.specs.Numbered.{RowsMade};

    ghost Value = { RowsMade };

    ghost view = { λ a. record { next = map (λ row. row.items) a.next.items; accepting = a.accepting.items } };
}

impl Rows {
    /// No states.
    pub fn new(alloc: Global) -> Rows
        ensures value { result ≡ record { next = []; accepting = [] } }
    {
        Rows {
            next: Vec::new(alloc),
            accepting: Vec::new(alloc),
        }
    }

    /// The number of states so far.
    pub fn len(&self) -> usize
        ensures count { result ≡ length self.now.next }
        ensures small { result < 2 ^ 63 }
    {
        self.next.len()
    }

    /// Adds a state.
    pub fn push(&mut self, row: Vec<usize>, last: bool) -> Result<(), AllocError>
        ensures value { OnOk result (self.new ≡ with_row self.old row.items last) }
    {
        self.next.push(row)?;
        self.accepting.push(last)?;
        Ok(())
    }
}
