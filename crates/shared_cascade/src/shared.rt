// Two cascades, and the table of their expansions.

ghost use Rattle.place_table.specs.Tables.{words_of};
ghost use Rattle.place_words.specs.Seats.{fact_of};
ghost use Rattle.shared_cascade.specs.Grammars.{HaveNumbers};

use crate::facts::Grammars;
use place_table::Table;
use state_tuples::{Cascade, Tuple};

/// Two cascades, and the table in which callers keep their expansions. Threads may share it.
#[derive(Drop)]
pub struct Shared {
    pub(crate) table: Table<Grammars>,
    ghost numbered: { HaveNumbers (fact_of (words_of table)) },
}

impl Shared {
    ghost use Rattle.std.specs.Prelude.{◌≡◌, Contains};
    ghost use Rattle.state_tuples.specs.Cascades.{Cascaded};
    ghost use Rattle.shared_cascade.specs.Callers.{cascades_in};

    /// The cascade that a tuple names.
    pub(crate) fn cascade_of(&self, t: &Tuple) -> &Cascade
        ensures among { Contains (cascades_in self.now) result.now }
        ensures named { (c : Cascaded) → Contains (cascades_in self.now) c → t.now.cascade ≡ c.number → result.now ≡ c }
    {
        let grammars = self.table.words().fact();
        if t.cascade == 0 {
            &grammars.classifier
        } else {
            &grammars.verbaliser
        }
    }
}
