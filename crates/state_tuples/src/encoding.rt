// From expansions to codes.

ghost use Rattle.std.specs.Prelude.{◌≡◌, ◌<◌, ◌≤◌, ◌+◌, ◌*◌, ◌++◌, ◌∷◌, Option, ℕ, [], length, take};
ghost use Rattle.state_tuples.specs.Positions.{most_parts};
ghost use Rattle.state_tuples.specs.Codes.{IsEncoded, arc_width, arc_words, code_of, code_width, end_words, head_width, head_words, key, labels_word, most_words};

use crate::codes::{ARC_WORDS, CodeRoom, Encoded, HEAD_WORDS, KEY_WORDS, Key, MOST_WORDS};
use crate::tuples::{Expansion, MOST_PARTS, States, Tuple, TupleArc};

/// The words that name a tuple.
pub fn key_of(t: &Tuple) -> Key
    ensures value { result ≡ key t.now }
    ensures width { length t.now.states ≡ most_parts }
{
    let mut words = [0; KEY_WORDS];
    words[0] = t.cascade as u64;
    for k in 0..MOST_PARTS {
        words[k + 1] = t.states[k] as u64;
    }
    words[MOST_PARTS + 1] = t.filters as u64;
    words
}

/// Puts the states there.
fn put_states(states: &States, at: usize, into: &mut CodeRoom)
    requires room { at + most_parts ≤ most_words }
    ensures put { take (at + most_parts) into.new ≡ take at into.old ++ states.now }
    ensures width { length states.now ≡ most_parts }
{
    for k in 0..MOST_PARTS {
        into[at + k] = states[k] as u64;
    }
}

/// Both labels of an arc and its filters.
fn labels_of(a: &TupleArc) -> u64
    ensures { result ≡ labels_word a.now }
{
    a.input as u64 * 4294967296 + a.output as u64 * 65536 + a.filters as u64
}

/// Puts the words of an arc there.
fn put_arc(a: &TupleArc, at: usize, into: &mut CodeRoom)
    requires room { at + arc_width ≤ most_words }
    ensures { take (at + arc_width) into.new ≡ take at into.old ++ arc_words a.now }
{
    into[at] = labels_of(a);
    into[at + 1] = a.weight;
    put_states(&a.states, at + 2, into);
}

/// Whether there is a final weight, and it.
fn end_pair(finality: Option<u64>) -> (u64, u64)
    ensures { result.0 ∷ result.1 ∷ [] ≡ end_words finality }
{
    match finality {
        None => (0, 0),
        Some(w) => (1, w),
    }
}

/// Puts what stands before the arcs.
fn put_head(width: usize, t: &Tuple, finality: Option<u64>, into: &mut CodeRoom)
    ensures head { take head_width into.new ≡ width ∷ (key t.now ++ end_words finality) }
    ensures states { length t.now.states ≡ most_parts }
{
    into[0] = width as u64;
    into[1] = t.cascade as u64;
    put_states(&t.states, 2, into);
    into[MOST_PARTS + 2] = t.filters as u64;
    let (told, weight) = end_pair(finality);
    into[MOST_PARTS + 3] = told;
    into[MOST_PARTS + 4] = weight;
}

/// How many words the code of these arcs has.
fn width_of(arcs: &[TupleArc]) -> usize
    ensures { result ≡ code_width (length arcs.now) }
{
    HEAD_WORDS + ARC_WORDS * arcs.len()
}

/// Writes the code of a tuple with this final weight and these arcs to the front of `into`, where there is room for it. It takes no
/// memory.
///
/// The code is read back as what it was made of where the filters of each arc are below 65,536, as they are in every cascade.
pub fn encode_arcs(
    t: &Tuple,
    finality: Option<u64>,
    arcs: &[TupleArc],
    into: &mut CodeRoom,
) -> Encoded
    ensures code { IsEncoded (code_of t.now finality arcs.now) into.old into.new result }
{
    let _states = t.states;
    let width = width_of(arcs);
    if width > MOST_WORDS {
        return Encoded::Wide(width);
    }
    put_head(width, t, finality, into);
    for (i, a) in arcs.iter().enumerate() {
        put_arc(a, HEAD_WORDS + ARC_WORDS * i, into);
    }
    Encoded::Fits(width)
}

/// Writes the code of an expansion of the tuple, as [`encode_arcs`] does.
pub fn encode(t: &Tuple, x: &Expansion, into: &mut CodeRoom) -> Encoded
    ensures code { IsEncoded (code_of t.now x.now.finality x.now.arcs.items) into.old into.new result }
{
    encode_arcs(t, x.finality, &x.arcs, into)
}
