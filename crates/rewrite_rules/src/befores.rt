// The steps of the backward automaton, turned round.

ghost use Rattle.std.specs.Prelude.{◌≡◌, ◌<◌, ◌≤◌, ℕ, [], length, get_or, IfOk};
ghost use Rattle.rewrite_rules.specs.Befores.{LeadTo, AreBefore, before_at};
ghost use Rattle.rewrite_rules.specs.Classes.{AreClasses};

use crate::automata::Automata;
use crate::classes::Classes;
use acceptor_ops::{Buckets, Dfa};
use std::alloc::{AllocError, Global};
use std::marker::Model;

/// For each state, the states that a byte leads from.
fn sources(alloc: Global, d: &Dfa, byte: u16) -> Result<Buckets, AllocError>
    requires low { 1 ≤ byte }
    requires high { byte ≤ 257 }
    ensures sources { IfOk result (LeadTo d.now byte (length d.now.next)) }
{
    let mut sources = Buckets::empty(alloc, d.len())?;
    for s in 0..d.len() {
        sources.put(d.step(s, byte), s)?;
    }
    Ok(sources)
}

/// For each class of bytes and each state of the backward automaton, the states that a byte of the class leads from.
/// They are worked out once, and looked up at each place.
#[derive(Drop)]
pub(crate) struct Befores {
    classes: Vec<Buckets>,
}

impl Model for Befores {
    ghost use Rattle.std.specs.Prelude.{List, ℕ};

    ghost Value = { List (List (List ℕ)) };

    ghost view = { λ a. a.classes.items };
}

impl Befores {
    /// The table for these automata and classes.
    pub(crate) fn new(alloc: Global, t: &Automata, classes: &Classes) -> Result<Befores, AllocError>
        requires classes { AreClasses t.now classes.now }
        ensures table { IfOk result (AreBefore t.now classes.now (length classes.now.members)) }
    {
        let mut table = Vec::new(alloc);
        for class in 0..classes.len() {
            table.push(sources(alloc, &t.back, classes.first(class))?)?;
        }
        Ok(Befores { classes: table })
    }

    /// The states that a byte of the class leads from to this state.
    pub(crate) fn get(&self, class: usize, state: usize) -> &[usize]
        requires class { class < length self.now }
        requires state { state < length (get_or self.now class []) }
        ensures value { result.now ≡ before_at self.now class state }
    {
        self.classes[class].get(state)
    }
}
