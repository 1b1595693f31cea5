//! Codes that can be told from a mix of two: all words after the key are one number, the stamp.
ghost use Rattle.place_tests.specs.Stamps.{IsStamped};

use place_words::Fact;

/// A code is right where it is stamped.
#[derive(Drop)]
pub(crate) struct Stamped;

impl Fact for Stamped {
    ghost use Rattle.place_tests.specs.Stamps.{IsStamped};

    type Tag = ();

    ghost tag = { λ _. tt };

    ghost right = { λ _ code. IsStamped code };

    ghost sized = { λ t code h. (h.0, h.1, h.2) };
}

/// A code of nine words.
pub(crate) fn code_of(key: &[u64; 6], stamp: u64) -> [u64; 9]
    ensures { IsStamped result }
{
    [
        9, key[0], key[1], key[2], key[3], key[4], key[5], stamp, stamp,
    ]
}

/// Whether so many words are a stamped code with this key.
pub(crate) fn is_stamped(code: &[u64; 2048], length: usize, key: &[u64; 6]) -> bool {
    let told = [code[1], code[2], code[3], code[4], code[5], code[6]];
    length == 9 && code[0] == 9 && told == *key && code[7] == code[8]
}
