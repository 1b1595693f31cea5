// Reads the code of a place where it stands.

ghost use Rattle.std.specs.Prelude.{◌≡◌, ◌<◌, ◌≤◌, ◌+◌, ◌*◌, ℕ, List, Option, OnErr, OnOk, [], ◌∷◌, get_or, length, nat_eq};
ghost use Rattle.std.specs.List.{filter};
ghost use Rattle.std.specs.Vec.{vec_capacity};
ghost use Rattle.place_words.specs.declared.view.Read.{Read};
ghost use Rattle.place_words.specs.Modes.{seen_of};
ghost use Rattle.place_words.specs.Seats.{fact_of, mode_of, view_of};
ghost use Rattle.place_table.specs.Entries.{seen_from};
ghost use Rattle.state_tuples.specs.declared.tuples.Tuple.{Tuple};
ghost use Rattle.state_tuples.specs.declared.tuples.TupleArc.{TupleArc};
ghost use Rattle.state_tuples.specs.Codes.{IsArc, IsFirstReader, code_of, code_width, labels_word, no_arc};
ghost use Rattle.shared_cascade.specs.Held.{IsHeld, IsSeen, OfOne, OfSeen, ReadsOn, read_on};

use crate::arcs::{ARC_WORDS, HEAD_WORDS, arc_in, input_in};
use crate::facts::Grammars;
use place_words::{Seat, Words};
use state_tuples::TupleArc;
use std::alloc::AllocError;

/// A word of the code.
fn word_at(words: &Words<Grammars>, seat: &mut Seat<Grammars>, index: u32) -> u64
    requires held { IsHeld words.now seat.old }
    requires index { index < 2048 }
    ensures held { IsHeld words.now seat.new }
    ensures read { view_of seat.new ≡ read_on (view_of seat.old) (seen_from index (result ∷ [])) }
    ensures word { (t : Tuple) (end : Option ℕ) (arcs : List TupleArc) → IsSeen (fact_of words.now) (seen_of (mode_of seat.new)) t end arcs → index < code_width (length arcs) → result ≡ get_or (code_of t end arcs) index 0 }
{
    words.read_word(seat, index)
}

/// How many arcs the code has.
fn count_at(words: &Words<Grammars>, seat: &mut Seat<Grammars>) -> u32
    requires held { IsHeld words.now seat.old }
    ensures held { IsHeld words.now seat.new }
    ensures read { ReadsOn (view_of seat.old) (view_of seat.new) 1 }
    ensures few { result ≤ 339 }
    ensures count { OfSeen (fact_of words.now) (seen_of (mode_of seat.new)) (λ arcs. result ≡ length arcs) }
{
    let length = word_at(words, seat, 0);
    ((length - HEAD_WORDS as u64) / ARC_WORDS as u64) as u32
}

/// The first word of an arc.
fn labels_at(words: &Words<Grammars>, seat: &mut Seat<Grammars>, k: u32) -> u64
    requires held { IsHeld words.now seat.old }
    requires few { k < 339 }
    requires within { OfSeen (fact_of words.now) (seen_of (mode_of seat.old)) (λ arcs. k < length arcs) }
    ensures held { IsHeld words.now seat.new }
    ensures read { ReadsOn (view_of seat.old) (view_of seat.new) 1 }
    ensures word { OfSeen (fact_of words.now) (seen_of (mode_of seat.new)) (λ arcs. result ≡ labels_word (get_or arcs k no_arc)) }
    ensures known { (a : TupleArc) × IsArc a × (result ≡ labels_word a) }
{
    word_at(words, seat, HEAD_WORDS + ARC_WORDS * k)
}

/// The place of the first arc that reads the label or a greater one, by halving, and the first word of that arc where there is one.
fn first_reader(
    words: &Words<Grammars>,
    seat: &mut Seat<Grammars>,
    count: u32,
    label: u16,
) -> (u32, u64)
    requires held { IsHeld words.now seat.old }
    requires few { count ≤ 339 }
    requires count { OfSeen (fact_of words.now) (seen_of (mode_of seat.old)) (λ arcs. count ≡ length arcs) }
    ensures held { IsHeld words.now seat.new }
    ensures read { ReadsOn (view_of seat.old) (view_of seat.new) 9 }
    ensures first { OfSeen (fact_of words.now) (seen_of (mode_of seat.new)) (λ arcs. IsFirstReader arcs label result.0) }
    ensures word { OfSeen (fact_of words.now) (seen_of (mode_of seat.new)) (λ arcs. result.0 < length arcs → result.1 ≡ labels_word (get_or arcs result.0 no_arc)) }
{
    let mut low = 0;
    let mut high = count;
    let mut found = 0;
    while low < high {
        let middle = low + (high - low) / 2;
        let labels = labels_at(words, seat, middle);
        if input_in(labels) < label {
            low = middle + 1;
        } else {
            high = middle;
            found = labels;
        }
    }
    (low, found)
}

/// An arc whose first word was read.
fn arc_at(words: &Words<Grammars>, seat: &mut Seat<Grammars>, k: u32, labels: u64) -> TupleArc
    requires held { IsHeld words.now seat.old }
    requires few { k < 339 }
    requires within { OfSeen (fact_of words.now) (seen_of (mode_of seat.old)) (λ arcs. (k < length arcs) × (labels ≡ labels_word (get_or arcs k no_arc))) }
    ensures held { IsHeld words.now seat.new }
    ensures read { ReadsOn (view_of seat.old) (view_of seat.new) 5 }
    ensures arc { OfSeen (fact_of words.now) (seen_of (mode_of seat.new)) (λ arcs. result ≡ get_or arcs k no_arc) }
{
    let at = HEAD_WORDS + ARC_WORDS * k;
    let mut all = [labels; 6];
    for i in 1..6 {
        all[i as usize] = word_at(words, seat, at + i);
    }
    arc_in(&all)
}

/// The first word of the arc at a place, or where there is none, this word.
fn labels_from(
    words: &Words<Grammars>,
    seat: &mut Seat<Grammars>,
    k: u32,
    count: u32,
    other: u64,
) -> u64
    requires held { IsHeld words.now seat.old }
    requires few { count ≤ 339 }
    requires count { OfSeen (fact_of words.now) (seen_of (mode_of seat.old)) (λ arcs. count ≡ length arcs) }
    ensures held { IsHeld words.now seat.new }
    ensures read { ReadsOn (view_of seat.old) (view_of seat.new) 1 }
    ensures word { OfSeen (fact_of words.now) (seen_of (mode_of seat.new)) (λ arcs. k < length arcs → result ≡ labels_word (get_or arcs k no_arc)) }
{
    if k >= count {
        return other;
    }
    labels_at(words, seat, k)
}

/// Puts the arcs that read the label into `into`, in order. The first of them is at the place `first`, and its first word was read.
fn put_from(
    words: &Words<Grammars>,
    seat: &mut Seat<Grammars>,
    label: u16,
    count: u32,
    first: (u32, u64),
    into: &mut Vec<TupleArc>,
) -> Result<(), AllocError>
    requires held { IsHeld words.now seat.old }
    requires few { count ≤ 339 }
    requires count { OfSeen (fact_of words.now) (seen_of (mode_of seat.old)) (λ arcs. count ≡ length arcs) }
    requires first { OfSeen (fact_of words.now) (seen_of (mode_of seat.old)) (λ arcs. IsFirstReader arcs label first.0) }
    requires word { OfSeen (fact_of words.now) (seen_of (mode_of seat.old)) (λ arcs. first.0 < length arcs → first.1 ≡ labels_word (get_or arcs first.0 no_arc)) }
    requires empty { into.old.items ≡ [] }
    ensures held { IsHeld words.now seat.new }
    ensures read { (rs : List Read) × OnOk result (length rs ≤ 6 * length into.new.items) × (view_of seat.new ≡ read_on (view_of seat.old) rs) }
    ensures arcs { OnOk result (OfSeen (fact_of words.now) (seen_of (mode_of seat.new)) (λ arcs. into.new.items ≡ filter (λ a. nat_eq a.input label) arcs)) }
    ensures full { OnErr result (OfSeen (fact_of words.now) (seen_of (mode_of seat.new)) (λ arcs. vec_capacity into.old < length (filter (λ a. nat_eq a.input label) arcs))) }
{
    let mut labels = first.1;
    for k in first.0..count {
        if input_in(labels) != label {
            return Ok(());
        }
        let arc = arc_at(words, seat, k, labels);
        into.push(arc)?;
        labels = labels_from(words, seat, k + 1, count, labels);
    }
    Ok(())
}

/// Puts the arcs that read the label into `into`, in order, in place of what is there. Of the other arcs it reads the first words of ten at most.
pub(crate) fn read_readers(
    words: &Words<Grammars>,
    seat: &mut Seat<Grammars>,
    label: u16,
    into: &mut Vec<TupleArc>,
) -> Result<(), AllocError>
    requires held { IsHeld words.now seat.old }
    ensures held { IsHeld words.now seat.new }
    ensures read { (rs : List Read) × OnOk result (length rs ≤ 10 + 6 * length into.new.items) × (view_of seat.new ≡ read_on (view_of seat.old) rs) }
    ensures arcs { OnOk result (OfOne (fact_of words.now) (seen_of (mode_of seat.old)) (λ end arcs. into.new.items ≡ filter (λ a. nat_eq a.input label) arcs)) }
    ensures full { OnErr result (OfOne (fact_of words.now) (seen_of (mode_of seat.old)) (λ end arcs. vec_capacity into.old < length (filter (λ a. nat_eq a.input label) arcs))) }
{
    into.clear();
    let count = count_at(words, seat);
    let first = first_reader(words, seat, count, label);
    put_from(words, seat, label, count, first, into)
}

/// The final weight.
pub(crate) fn read_end(words: &Words<Grammars>, seat: &mut Seat<Grammars>) -> Option<u64>
    requires held { IsHeld words.now seat.old }
    ensures held { IsHeld words.now seat.new }
    ensures read { ReadsOn (view_of seat.old) (view_of seat.new) 2 }
    ensures end { OfOne (fact_of words.now) (seen_of (mode_of seat.old)) (λ end arcs. result ≡ end) }
{
    let told = word_at(words, seat, HEAD_WORDS - 2);
    let weight = word_at(words, seat, HEAD_WORDS - 1);
    if told == 0 { None } else { Some(weight) }
}
