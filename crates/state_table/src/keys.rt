// Keys of which equal ones are one.

ghost use Rattle.std.specs.Prelude.{◌≡◌, true};
ghost use Rattle.state_table.specs.SameKeys.{same_pair};

use std::hash::Hash;

/// A key, which `==` finds equal to itself alone.
pub trait Key: Hash + Eq + Drop {
    ghost same: { (x y : Self) → Self.eq x y ≡ true → x ≡ y };
}

impl Key for (usize, usize) {
    ghost same = { same_pair };
}
