// Arcs from their words, read one by one.

ghost use Rattle.std.specs.Prelude.{◌≡◌};
ghost use Rattle.state_tuples.specs.Codes.{IsArc, arc_words, labels_word};
ghost use Rattle.state_tuples.specs.declared.tuples.TupleArc.{TupleArc};

use state_tuples::{MOST_PARTS, TupleArc};

/// How many words stand before the first arc of a code: its length, its key, and two of the final weight.
pub(crate) const HEAD_WORDS: u32 = MOST_PARTS as u32 + 5;

/// How many words an arc has: its labels with its filters, its weight, and a state of each part.
pub(crate) const ARC_WORDS: u32 = MOST_PARTS as u32 + 2;

/// The label that an arc reads, by the first of its words.
pub(crate) fn input_in(labels: u64) -> u16
    requires known { (a : TupleArc) × IsArc a × (labels ≡ labels_word a) }
    ensures { (a : TupleArc) → IsArc a → labels ≡ labels_word a → result ≡ a.input }
{
    (labels / 4294967296) as u16
}

/// The arc of these words.
pub(crate) fn arc_in(words: &[u64; 6]) -> TupleArc
    requires known { (a : TupleArc) × IsArc a × (words.now ≡ arc_words a) }
    ensures { (a : TupleArc) → IsArc a → words.now ≡ arc_words a → result ≡ a }
{
    TupleArc {
        input: (words[0] / 4294967296) as u16,
        output: (words[0] / 65536 % 65536) as u16,
        weight: words[1],
        filters: (words[0] % 65536) as u32,
        states: [
            words[2] as usize,
            words[3] as usize,
            words[4] as usize,
            words[5] as usize,
        ],
    }
}
