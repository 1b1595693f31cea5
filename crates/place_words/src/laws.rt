//! What holds of the rule whatever the words are and whatever the seats are at. By the first two laws it holds at every
//! moment that can be reached.
ghost use Rattle.place_words.specs.Laws.{DealsKeep, PlacesWithin, ReadersKeep, StartsLawful, StepsKeep, WritersAlone, WritersClaim};

use crate::fact::Fact;

/// The rule holds at first, before the seats are dealt, and dealing them keeps it.
pub fn starts_lawful<F: Fact>()
    ensures start { StartsLawful F.right }
    ensures deals { DealsKeep F.right }
{}

/// Each step keeps the rule.
pub fn steps_keep<F: Fact>()
    ensures { StepsKeep F.right }
{}

/// No step changes a word of a place that another seat reads.
pub fn readers_keep<F: Fact>()
    ensures { ReadersKeep F.right }
{}

/// A store is in a place that is claimed by its own seat, and no other step changes a word of a place.
pub fn writers_claim<F: Fact>()
    ensures claim { WritersClaim F.right }
    ensures alone { WritersAlone F.right }
{}

/// Only places that were opened are shown or claimed, and a seat is at none but these.
pub fn places_within<F: Fact>()
    ensures { PlacesWithin F.right }
{}
