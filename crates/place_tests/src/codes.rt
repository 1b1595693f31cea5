//! A fact that is easy to meet: any nine words of which the first is 9 are a right code.

use place_words::Fact;

#[derive(Drop)]
pub(crate) struct Nine;

impl Fact for Nine {
    ghost use Rattle.std.specs.Prelude.{◌≡◌, length, slice_index};
    ghost use Rattle.std.proofs.Common.{arith};

    type Tag = ();

    ghost tag = { λ _. tt };

    ghost right = { λ _ code. (length code ≡ 9) × (slice_index code 0 ≡ 9) };

    ghost sized = { λ t code h. (Prim.omega (arith, h), Prim.omega (arith, h), Prim.omega (arith, h)) };
}
