// Outputs by back references: each is another one and one label more.

ghost use Rattle.std.specs.Prelude.{◌≡◌, ◌<◌, ◌++◌, ◌∷◌, ◌↔◌, ℕ, List, [], All, IsTrue, IfOk, IfSome, OnOk, length};
ghost use Rattle.weighted_relations.specs.Least.{BytesBelow};
ghost use Rattle.weighted_relations.specs.Graphs.{label as written};
ghost use Rattle.least_path.specs.Texts.{texts, text_of, IsMade, Grows};

use std::alloc::{AllocError, Global};
use std::marker::Model;

/// The last label of an output, and the output before it. Of the outputs that are one label longer than this one it tells the last that came,
/// and of those that go on from the same output the one that came before this. 0 is none. These two only help to find an output that is known.
#[derive(Clone, Copy)]
pub(crate) struct Letter {
    pub(crate) before: usize,
    pub(crate) label: u16,
    pub(crate) longer: usize,
    pub(crate) beside: usize,
}

/// Outputs by number. 0 is the empty one, and the letter at k is the last of number k + 1. `longer` is of the empty one what letters tell of
/// the others.
#[derive(Drop)]
pub(crate) struct Outputs {
    letters: Vec<Letter>,
    longer: usize,
}

impl Model for Outputs {
    ghost use Rattle.std.specs.Prelude.{ℕ, List};
    ghost use Rattle.least_path.specs.Texts.{texts, IsMade};

    ghost Value = { List (List ℕ) };

    ghost view = { λ o. texts o.letters.items };

    ghost invariant = { λ o. IsMade o.letters.items };
}

impl Outputs {
    /// The empty output alone.
    pub fn new(alloc: Global) -> Outputs
        ensures { result ≡ [] ∷ [] }
    {
        Outputs {
            letters: Vec::new(alloc),
            longer: 0,
        }
    }

    /// The empty output alone is left, and there is room for so many more.
    pub fn clear(&mut self, room: usize) -> Result<(), AllocError>
        ensures { OnOk result (self.new ≡ [] ∷ []) }
    {
        self.letters.clear();
        self.longer = 0;
        self.letters.reserve(room)?;
        Ok(())
    }

    /// The number of an output with one label more; the empty label adds nothing.
    pub fn more(&mut self, at: usize, label: u16) -> Result<usize, AllocError>
        requires { at < length self.old }
        ensures number { IfOk result (λ n. n < length self.new) }
        ensures text { IfOk result (λ n. text_of self.new n ≡ text_of self.old at ++ written label []) }
        ensures grows { Grows self.old self.new }
    {
        if label == 0 {
            return Ok(at);
        }
        self.one_more(at, label)
    }

    /// The number of an output with one label more, which isn't the empty one.
    fn one_more(&mut self, at: usize, label: u16) -> Result<usize, AllocError>
        requires { at < length self.old }
        ensures number { IfOk result (λ n. n < length self.new) }
        ensures text { IfOk result (λ n. text_of self.new n ≡ text_of self.old at ++ label ∷ []) }
        ensures grows { Grows self.old self.new }
    {
        let last = longer_than(&self.letters, self.longer, at);
        if let Some(known) = find(&self.letters, last, at, label) {
            return Ok(known);
        }
        let number = add(&mut self.letters, at, label, last)?;
        if at == 0 {
            self.longer = number;
        } else {
            note_longer(&mut self.letters, at, number);
        }
        Ok(number)
    }

    /// Whether an output is no greater than another, where both have one length.
    pub fn is_below(&self, a: usize, b: usize) -> bool
        requires first { a < length self.now }
        requires second { b < length self.now }
        ensures { length (text_of self.now a) ≡ length (text_of self.now b) → IsTrue result ↔ BytesBelow (text_of self.now a) (text_of self.now b) }
    {
        is_below(&self.letters, a, b)
    }

    /// The bytes of an output whose labels are no marks. There is room for so many from the beginning.
    pub fn bytes(&self, alloc: Global, number: usize, room: usize) -> Result<Vec<u8>, AllocError>
        requires known { number < length self.now }
        requires small { All (λ n. n < 256) (text_of self.now number) }
        ensures { IfOk result (λ v. v.items ≡ text_of self.now number) }
    {
        bytes(alloc, &self.letters, number, room)
    }
}

/// The last that came of the outputs that are one label longer than this one, or 0. The one that is told of the empty output stands beside.
fn longer_than(letters: &[Letter], of_empty: usize, at: usize) -> usize {
    if at == 0 {
        return of_empty;
    }
    match letters.get(at - 1) {
        Some(letter) => letter.longer,
        None => 0,
    }
}

/// Adds an output, beside the last that goes on from the same one.
fn add(letters: &mut Vec<Letter>, at: usize, label: u16, beside: usize) -> Result<usize, AllocError>
    requires made { IsMade letters.old.items }
    requires at { at < length (texts letters.old.items) }
    ensures made { IsMade letters.new.items }
    ensures number { IfOk result (λ n. n < length (texts letters.new.items)) }
    ensures text { IfOk result (λ n. text_of (texts letters.new.items) n ≡ text_of (texts letters.old.items) at ++ label ∷ []) }
    ensures grows { Grows (texts letters.old.items) (texts letters.new.items) }
{
    letters.push(Letter {
        before: at,
        label,
        longer: 0,
        beside,
    })?;
    Ok(letters.len())
}

/// Notes of an output that another one is longer by a label.
fn note_longer(letters: &mut Vec<Letter>, at: usize, number: usize)
    requires made { IsMade letters.old.items }
    requires some { 0 < at }
    requires at { at < length (texts letters.old.items) }
    ensures made { IsMade letters.new.items }
    ensures texts { texts letters.new.items ≡ texts letters.old.items }
{
    letters[at - 1].longer = number;
}

/// The output that goes on from this one with this label, if it is known: it is sought from this number on, among those beside each other.
fn find(letters: &[Letter], last: usize, at: usize, label: u16) -> Option<usize>
    requires { IsMade letters.now }
    ensures number { IfSome result (λ n. n < length (texts letters.now)) }
    ensures text { IfSome result (λ n. text_of (texts letters.now) n ≡ text_of (texts letters.now) at ++ label ∷ []) }
{
    let mut number = last;
    while number > 0 && number <= letters.len() {
        let letter = letters[number - 1];
        if letter.before == at && letter.label == label {
            return Some(number);
        }
        if letter.beside >= number {
            return None;
        }
        number = letter.beside;
    }
    None
}

/// Whether an output is no greater than another, where both have one length.
fn is_below(letters: &[Letter], a: usize, b: usize) -> bool
    requires made { IsMade letters.now }
    requires first { a < length (texts letters.now) }
    requires second { b < length (texts letters.now) }
    ensures { length (text_of (texts letters.now) a) ≡ length (text_of (texts letters.now) b) → IsTrue result ↔ BytesBelow (text_of (texts letters.now) a) (text_of (texts letters.now) b) }
{
    let mut x = a;
    let mut y = b;
    let mut below = true;
    while x != y {
        if x == 0 || y == 0 {
            return below;
        }
        let left = letters[x - 1];
        let right = letters[y - 1];
        below = decide(left.label, right.label, below);
        x = left.before;
        y = right.before;
    }
    below
}

/// How two texts compare, from their first labels and how the rest compares.
fn decide(left: u16, right: u16, below: bool) -> bool
    ensures { (s t : List ℕ) → (IsTrue below ↔ BytesBelow s t) → IsTrue result ↔ BytesBelow (left ∷ s) (right ∷ t) }
{
    if left != right { left < right } else { below }
}

/// The bytes of an output whose labels are no marks. There is room for so many from the beginning.
fn bytes(
    alloc: Global,
    letters: &[Letter],
    number: usize,
    room: usize,
) -> Result<Vec<u8>, AllocError>
    requires made { IsMade letters.now }
    requires number { number < length (texts letters.now) }
    requires small { All (λ n. n < 256) (text_of (texts letters.now) number) }
    ensures { IfOk result (λ v. v.items ≡ text_of (texts letters.now) number) }
{
    let mut bytes = Vec::with_capacity(alloc, room)?;
    let mut at = number;
    while at > 0 {
        let letter = letters[at - 1];
        bytes.push(letter.label as u8)?;
        at = letter.before;
    }
    bytes.reverse();
    Ok(bytes)
}
