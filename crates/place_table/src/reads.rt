//! Words of a place, read in order.

ghost use Rattle.std.specs.Prelude.{◌≡◌, ◌<◌, ◌≤◌, ℕ, List, length, take, drop};
ghost use Rattle.place_words.specs.Places.{Agrees};
ghost use Rattle.place_words.specs.Modes.{IsReading, place_or, seen_of};
ghost use Rattle.place_words.specs.Seats.{IsSeatOf, mode_of, view_of};
ghost use Rattle.place_table.specs.Entries.{reading, seen_from};

use place_words::{Fact, Seat, Words};

/// Copies the words from `from` to `to` of the place that the seat reads.
pub(crate) fn read_between<F: Fact>(
    words: &Words<F>,
    seat: &mut Seat<F>,
    from: u32,
    to: u32,
    into: &mut [u64],
)
    requires own { IsSeatOf words.now seat.old }
    requires reading { IsReading (mode_of seat.old) }
    requires some { from < to }
    requires few { to ≤ 2048 }
    requires room { to ≤ length into.old }
    ensures own { IsSeatOf words.now seat.new }
    ensures kept { take from into.new ≡ take from into.old }
    ensures view { view_of seat.new ≡ reading (view_of seat.old) (place_or 0 (mode_of seat.old)) (seen_from from (drop from (take to into.new))) }
    ensures right { (code : List ℕ) × F.right (view_of seat.old).tag code × Agrees (seen_of (mode_of seat.new)) code }
{
    for i in from..to {
        into[i as usize] = words.read_word(seat, i);
    }
}
