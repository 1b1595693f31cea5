// What came of a caller's looks.

ghost use Rattle.std.specs.Prelude.{◌≡◌};
ghost use Rattle.shared_cascade.specs.Tallies.{no_tally, one_more, with_outcome};

/// What came of a look and of what followed it.
#[derive(Clone, Copy, Debug, PartialEq, Eq)]
pub enum Outcome {
    /// The code was found.
    Shown,
    /// It was absent, and was published.
    Published,
    /// It was absent, and each of its places refused it.
    NoPlace,
    /// It was absent, and has no room in a place.
    Wide,
}

/// How often a caller looked, and what came of it. A number that is at its greatest value stays there.
#[derive(Clone, Copy, Debug, PartialEq, Eq)]
pub struct Tally {
    /// Looks: those that found a code, and those that didn't.
    pub looks: u64,
    /// Looks that found a code.
    pub shown: u64,
    /// Looks that didn't: each was followed by one of the other three.
    pub absent: u64,
    /// Codes that were published.
    pub published: u64,
    /// Codes that each of their places refused.
    pub no_place: u64,
    /// Codes that have no room in a place.
    pub wide: u64,
}

/// One more, but for the greatest value.
fn raised(n: u64) -> u64
    ensures { result ≡ one_more n }
{
    n.saturating_add(1)
}

impl Tally {
    /// Nothing was counted.
    pub(crate) fn none() -> Tally
        ensures { result ≡ no_tally }
    {
        Tally {
            looks: 0,
            shown: 0,
            absent: 0,
            published: 0,
            no_place: 0,
            wide: 0,
        }
    }

    /// Counts what came of a look.
    pub(crate) fn count(&mut self, outcome: Outcome)
        ensures { self.new ≡ with_outcome outcome self.old }
    {
        self.looks = raised(self.looks);
        match outcome {
            Outcome::Shown => self.shown = raised(self.shown),
            Outcome::Published => {
                self.absent = raised(self.absent);
                self.published = raised(self.published);
            }
            Outcome::NoPlace => {
                self.absent = raised(self.absent);
                self.no_place = raised(self.no_place);
            }
            Outcome::Wide => {
                self.absent = raised(self.absent);
                self.wide = raised(self.wide);
            }
        }
    }
}
