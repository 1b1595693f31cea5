// Classes of bytes that no state of a rewrite's automata tells apart.

ghost use Rattle.std.specs.Prelude.{◌≡◌, ◌+◌, ◌<◌, ◌≤◌, ℕ, [], length, get_or, IfOk, OnOk, IsTrue, IfSome};
ghost use Rattle.acceptor_ops.specs.Tables.{step_of};
ghost use Rattle.rewrite_rules.specs.Classes.{AreAlike, AreClasses, first, class_at, AreClassesTo, joined, opened};

use crate::automata::Automata;
use acceptor_ops::Dfa;
use std::alloc::{AllocError, Global};
use std::marker::Model;

/// Classes of bytes that no state tells apart, so that what is worked out for one byte serves for all of its class.
#[derive(Drop)]
pub(crate) struct Classes {
    /// The class of each byte, and 0 for the label 0.
    of: Vec<usize>,
    /// The bytes of each class, the least first.
    members: Vec<Vec<u16>>,
}

impl Model for Classes {
    ghost use Rattle.std.specs.Prelude.{map};
    ghost use Rattle.rewrite_rules.specs.Classes.{Classing};

    ghost Value = { Classing };

    ghost view = { λ a. record { of = a.of.items; members = map (λ v. v.items) a.members.items } };
}

impl Classes {
    /// The classes for these automata.
    pub(crate) fn new(alloc: Global, t: &Automata) -> Result<Classes, AllocError>
        ensures classes { IfOk result (AreClasses t.now) }
    {
        let mut of = Vec::new(alloc);
        of.push(0)?;
        let mut classes = Classes {
            of,
            members: Vec::new(alloc),
        };
        for byte in 1..256u16 {
            classes.place(alloc, t, byte)?;
        }
        Ok(classes)
    }

    /// How many classes there are.
    pub(crate) fn len(&self) -> usize
        ensures count { result ≡ length self.now.members }
    {
        self.members.len()
    }

    /// The class of a byte.
    pub(crate) fn of(&self, byte: u16) -> usize
        requires byte { byte < length self.now.of }
        ensures value { result ≡ class_at self.now byte }
    {
        self.of[byte as usize]
    }

    /// The bytes of a class.
    pub(crate) fn members(&self, class: usize) -> &[u16]
        requires class { class < length self.now.members }
        ensures value { result.now ≡ get_or self.now.members class [] }
    {
        self.members[class].as_slice()
    }

    /// The least byte of a class.
    pub(crate) fn first(&self, class: usize) -> u16
        requires class { class < length self.now.members }
        requires some { 0 < length (get_or self.now.members class []) }
        ensures value { result ≡ first self.now class }
    {
        self.members(class)[0]
    }

    /// The first class so far whose bytes are not told apart from this one.
    fn like(&self, t: &Automata, byte: u16) -> Option<usize>
        requires byte { 1 ≤ byte }
        requires high { byte ≤ 255 }
        requires classes { AreClassesTo t.now byte self.now }
        ensures like { IfSome result (λ n. (n < length self.now.members) × AreAlike t.now (first self.now n) byte) }
    {
        for class in 0..self.len() {
            if are_alike(t, self.first(class), byte) {
                return Some(class);
            }
        }
        None
    }

    /// A class for the next byte.
    fn place(&mut self, alloc: Global, t: &Automata, byte: u16) -> Result<(), AllocError>
        requires low { 1 ≤ byte }
        requires high { byte ≤ 255 }
        requires classes { AreClassesTo t.now byte self.old }
        ensures classes { OnOk result (AreClassesTo t.now (byte + 1) self.new) }
    {
        match self.like(t, byte) {
            Some(class) => {
                self.join(class, byte)?;
                Ok(())
            }
            None => {
                self.open(alloc, byte)?;
                Ok(())
            }
        }
    }

    /// One more byte of a class.
    fn join(&mut self, class: usize, byte: u16) -> Result<(), AllocError>
        requires class { class < length self.old.members }
        ensures value { OnOk result (self.new ≡ joined self.old class byte) }
    {
        self.of.push(class)?;
        self.members[class].push(byte)?;
        Ok(())
    }

    /// A byte in a class of its own.
    fn open(&mut self, alloc: Global, byte: u16) -> Result<(), AllocError>
        ensures value { OnOk result (self.new ≡ opened self.old byte) }
    {
        let mut one = Vec::new(alloc);
        one.push(byte)?;
        self.of.push(self.members.len())?;
        self.members.push(one)?;
        Ok(())
    }
}

/// Whether no state of the automata tells two bytes apart.
fn are_alike(t: &Automata, a: u16, b: u16) -> bool
    requires low_a { 1 ≤ a }
    requires low_b { 1 ≤ b }
    requires high_a { a ≤ 255 }
    requires high_b { b ≤ 255 }
    ensures alike { IsTrue result → AreAlike t.now a b }
{
    same_steps(&t.sigma, a, b) && same_steps(&t.left, a, b) && same_steps(&t.back, a, b)
}

/// Whether two bytes lead from each state to the same one.
fn same_steps(d: &Dfa, a: u16, b: u16) -> bool
    requires low_a { 1 ≤ a }
    requires low_b { 1 ≤ b }
    requires high_a { a ≤ 255 }
    requires high_b { b ≤ 255 }
    ensures same { IsTrue result → (s : ℕ) → step_of d.now s a ≡ step_of d.now s b }
{
    for s in 0..d.len() {
        if d.step(s, a) != d.step(s, b) {
            return false;
        }
    }
    true
}
