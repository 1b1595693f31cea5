// Sets of labels as bits.

ghost use Rattle.std.proofs.Common.{rules};

use state_table::Key;

/// How many labels there are: 0, the bytes from 1 to 255, and the two marks.
pub(crate) const ALL_LABELS: u16 = 258;

/// How many labels a word has bits for.
const WORD: usize = 64;

/// A set of labels. Bit `l % 64` of word `l / 64` is 1 where label `l` is in it.
#[derive(Clone, Copy, Debug, PartialEq, Eq, Hash)]
pub(crate) struct Labels {
    words: [u64; 5],
}

impl Key for Labels {
    ghost same = { Prim.search rules };
}

impl Labels {
    /// The empty set.
    pub fn none() -> Labels {
        Labels { words: [0; 5] }
    }

    /// The set with one label more.
    pub fn with(mut self, label: u16) -> Labels {
        let label = label as usize;
        if let Some(word) = self.words.get_mut(label / WORD) {
            *word |= 1 << (label % WORD);
        }
        self
    }

    /// What is in one of two sets.
    pub fn and(mut self, other: &Labels) -> Labels {
        for k in 0..5 {
            self.words[k] |= other.words[k];
        }
        self
    }

    /// Whether a label is in the set.
    pub fn has(&self, label: u16) -> bool {
        let label = label as usize;
        match self.words.get(label / WORD) {
            Some(word) => (*word >> (label % WORD)) & 1 == 1,
            None => false,
        }
    }
}
