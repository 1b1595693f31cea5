//! The places that seats share.
ghost use Rattle.std.specs.Prelude.{◌≡◌, ℕ, ◌+◌, ◌*◌, ◌<◌, ◌≤◌, [], IfOk};
ghost use Rattle.place_words.specs.declared.layout.TheConstants.{PLACE_WORDS};
ghost use Rattle.place_words.specs.Modes.{place_or, stored_or};
ghost use Rattle.place_words.specs.Alone.{Replays};

use crate::fact::Fact;
use crate::view::View;
use atomic_table::{Table, TableRule};
use std::alloc::Global;
use std::marker::PhantomData;

mod opening;
mod steps;

pub use opening::open;

/// What the base's table is told once.
#[derive(Drop)]
pub struct About<F: Fact> {
    pub fact: F,
    pub places: u32,
    pub seats: u32,
}

pub struct Rule<F> {
    fact: PhantomData<F>,
}

impl<F: Fact> TableRule<(), View<F::Tag>, About<F>> for Rule<F> {
    ghost use Rattle.place_words.specs.Modes.{start};
    ghost use Rattle.place_words.specs.Rule.{Lawful};

    ghost holds = { λ key s. Lawful F.right (F.tag key.fact) key.places key.seats s.words s.views };

    ghost first = { λ key. start (F.tag key.fact) key.seats };
}

/// Places and their words, which all seats that were opened with them step on through a `&`.
#[derive(Drop)]
pub struct Words<F: Fact> {
    table: Table<(), View<F::Tag>, About<F>, Rule<F>, Global>,
    about: About<F>,
    ghost keyed: { table.shared.key ≡ about },
    ghost sized: { (table.shared.table_id.words ≡ PLACE_WORDS * about.places) × (about.places ≤ 4096) × (1 ≤ about.places) },
}

/// One seat. It holds no memory; what it keeps at run time is its number, and where it is.
#[derive(Drop)]
pub struct Seat<F: Fact> {
    base: atomic_table::Seat<(), View<F::Tag>>,
    number: u32,
    place: u32,
    stored: u32,
    ghost single: { (base.me.0.from ≡ number) × (base.me.0.to ≡ number + 1) × (number < 64) },
    ghost stands: { (place_or place base.me.0.mode ≡ place) × (stored_or stored base.me.0.mode ≡ stored) },
    ghost inside: { PLACE_WORDS * place + PLACE_WORDS ≤ base.table_id.words },
    ghost bare: { base.me.1 ≡ [] },
    // Each word that a lone seat found is what its steps before left there.
    ghost in_turn: { base.me.0.seats ≡ 1 → Replays base.me.0.log },
}
