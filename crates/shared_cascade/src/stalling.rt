// Callers that stop in the middle.

ghost use Rattle.std.specs.Prelude.{◌≡◌, ◌<◌, ℕ, List};
ghost use Rattle.place_words.specs.Seats.{IsSeatOf, IsStillSeat, mode_of, places_of, view_of};
ghost use Rattle.place_words.specs.declared.view.Entry.{Entry};
ghost use Rattle.place_words.specs.declared.view.Mode.TheVariants.{Idle};
ghost use Rattle.shared_cascade.specs.Callers.{IsReady, places_in};
ghost use Rattle.shared_cascade.specs.Stalls.{HasStalled, IsStall, stopped};

use crate::callers::Caller;
use crate::facts::Grammars;
use crate::shared::Shared;
use place_words::{Seat, Words};

/// Where a caller stopped.
#[derive(Clone, Copy, Debug, PartialEq, Eq)]
pub enum How {
    /// It claims the place, and fills it no further.
    Claiming,
    /// It is counted at the place, where it found this state word.
    Knocking(u64),
}

/// A caller that stopped at a place, which is never given back: nothing takes the caller out again, and a seat that is let go leaves its place as
/// it is.
#[derive(Drop)]
pub struct Stalled {
    pub how: How,
    caller: Caller,
}

impl Shared {
    /// Lets a caller stop at a place: it claims the place if that is empty, or else if a code is shown there that nobody reads. Where both
    /// fail it knocks. It takes the caller for good, and no memory.
    pub fn stall(&self, caller: Caller, place: u32) -> Stalled
        requires ready { IsReady self.now caller }
        requires place { place < places_in self.now }
        ensures stalled { (es : List Entry) × IsStall place result.how es × HasStalled self.now caller place es result }
    {
        let mut caller = caller;
        let how = stop(self.table.words(), &mut caller.seat, place);
        Stalled { how, caller }
    }
}

/// Takes the place or knocks there, and stays.
fn stop(words: &Words<Grammars>, seat: &mut Seat<Grammars>, place: u32) -> How
    requires own { IsSeatOf words.now seat.old }
    requires place { place < places_of words.now }
    requires idle { mode_of seat.old ≡ Idle }
    ensures own { IsStillSeat seat.old seat.new }
    ensures stopped { (es : List Entry) × IsStall place result es × (view_of seat.new ≡ stopped (view_of seat.old) place result es) }
{
    if words.take_empty(seat, place).is_ok() {
        return How::Claiming;
    }
    if words.take_shown(seat, place).is_ok() {
        return How::Claiming;
    }
    How::Knocking(words.knock(seat, place))
}
