//! Options whose values are numbers.
ghost use Rattle.std.specs.Prelude.{◌≡◌, ◌≤◌, false};
ghost use Rattle.std.specs.Option.{option_map_or};
ghost use Rattle.clap.specs.Words.{found_of, one_of, rows_of, rule_of};
ghost use Rattle.speak_words.specs.Asked.{number};
ghost use Rattle.speak_words.specs.Numbers.{HasNumberIn};
ghost use Rattle.speak_words.specs.Options.{number_option};

use clap::{Arg, ArgMatches, value_parser};
use std::alloc::Global;

/// How many lines the sample has.
pub(crate) const COUNT: NumberOption = NumberOption {
    name: "count",
    least: 1,
    most: 100_000,
    default: 1000,
};

/// The state that the sample's first line is made of.
pub(crate) const START: NumberOption = NumberOption {
    name: "start",
    least: 0,
    most: 2_147_483_647,
    default: 1,
};

/// How many places the table of expansions has.
pub(crate) const PLACES: NumberOption = NumberOption {
    name: "places",
    least: 1,
    most: 4096,
    default: 256,
};

/// How many workers speak lines.
pub(crate) const JOBS: NumberOption = NumberOption {
    name: "jobs",
    least: 1,
    most: 63,
    default: 1,
};

/// How many rounds of the table are swept beside a batch of lines.
pub(crate) const SWEEP: NumberOption = NumberOption {
    name: "sweep",
    least: 0,
    most: 10_000,
    default: 0,
};

/// An option whose value is a number, from the least to the most.
pub(crate) struct NumberOption {
    pub(crate) name: &'static str,
    pub(crate) least: u32,
    pub(crate) most: u32,
    pub(crate) default: u32,
}

impl NumberOption {
    /// The option as `clap` takes it.
    pub(crate) fn option(&self, alloc: Global) -> Arg<'static>
        ensures rule { rule_of result ≡ number_option self.now.name.now self.now.least self.now.most }
        ensures local { result.global ≡ false }
    {
        let range = i64::from(self.least)..=i64::from(self.most);
        Arg::new(alloc, self.name)
            .long(self.name)
            .value_parser(value_parser!(u32).range(range))
    }

    /// The number that was given, or the default.
    pub(crate) fn value(&self, matches: &ArgMatches<'_>) -> u32
        requires found { HasNumberIn self.now.least self.now.most self.now.name.now (found_of matches.now) }
        requires least { self.now.least ≤ self.now.default }
        requires most { self.now.default ≤ self.now.most }
        ensures value { result ≡ option_map_or number (one_of self.now.name.now (rows_of (found_of matches.now))) self.now.default }
        ensures least { self.now.least ≤ result }
        ensures most { result ≤ self.now.most }
    {
        matches.get_one::<u32>(self.name).unwrap_or(self.default)
    }
}
