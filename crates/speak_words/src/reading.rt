//! The words, read.
ghost use Rattle.std.specs.Prelude.{◌≡◌, ◌≤◌, ◌<◌, ◌^◌, IfOk, IfSome, map, codes};
ghost use Rattle.std.specs.Option.{option_map};
ghost use Rattle.std.specs.String.{string_bytes};
ghost use Rattle.clap.specs.Words.{found_of, rows_of};
ghost use Rattle.speak_words.specs.Asked.{AreInBounds, InBounds, job, job_by, job_for, job_of, settings_by, settings_for};
ghost use Rattle.speak_words.specs.Numbers.{HasNumberIn};

use crate::asked::{Asked, Mode, Settings};
use crate::numbers::{COUNT, JOBS, PLACES, START, SWEEP};
use crate::options::command;
use clap::ArgMatches;
use clap::error::ErrorKind;
use std::alloc::{AllocError, Global};

/// What the words ask for, of which the first is the program's name, or nothing where they are not the command's.
pub fn read_words<'a>(alloc: Global, words: &'a [String]) -> Result<Option<Asked<'a>>, AllocError>
    ensures asked { IfOk result (λ asked. option_map (λ a. job_of a.mode) asked ≡ job_for (map string_bytes words.entry.now)) }
    ensures settings { IfOk result (λ asked. IfSome asked (λ a. a.settings ≡ settings_for (map string_bytes words.entry.now))) }
    ensures bounds { IfOk result (λ asked. IfSome asked (λ a. InBounds a.mode)) }
    ensures numbers { IfOk result (λ asked. IfSome asked (λ a. AreInBounds a.settings)) }
{
    let mut command = command(alloc)?;
    match command.try_get_matches_from_mut(words) {
        Ok(matches) => Ok(asked(&matches)),
        Err(error) => match error.kind() {
            ErrorKind::OutOfMemory => Err(AllocError),
            _ => Ok(None),
        },
    }
}

/// What the words ask for, by what `clap` found.
fn asked<'a>(matches: &ArgMatches<'a>) -> Option<Asked<'a>>
    requires count { HasNumberIn 1 100000 (codes "count") (found_of matches.now) }
    requires start { HasNumberIn 0 2147483647 (codes "start") (found_of matches.now) }
    requires places { HasNumberIn 1 4096 (codes "places") (found_of matches.now) }
    requires jobs { HasNumberIn 1 63 (codes "jobs") (found_of matches.now) }
    requires sweep { HasNumberIn 0 10000 (codes "sweep") (found_of matches.now) }
    ensures job { option_map (λ a. job_of a.mode) result ≡ job_by (rows_of (found_of matches.now)) }
    ensures settings { IfSome result (λ a. a.settings ≡ settings_by (rows_of (found_of matches.now))) }
    ensures bounds { IfSome result (λ a. InBounds a.mode) }
    ensures numbers { IfSome result (λ a. AreInBounds a.settings) }
{
    let count = COUNT.value(matches);
    let start = START.value(matches);
    let name = matches.get_str("mode").unwrap_or("speak");
    let settings = settings(matches);
    mode(name, matches.get_str("setup"), count, start).map(|mode| Asked { mode, settings })
}

/// How it is to be done.
fn settings(matches: &ArgMatches<'_>) -> Settings
    requires places { HasNumberIn 1 4096 (codes "places") (found_of matches.now) }
    requires jobs { HasNumberIn 1 63 (codes "jobs") (found_of matches.now) }
    requires sweep { HasNumberIn 0 10000 (codes "sweep") (found_of matches.now) }
    ensures settings { result ≡ settings_by (rows_of (found_of matches.now)) }
    ensures numbers { AreInBounds result }
{
    let places = PLACES.value(matches);
    let jobs = JOBS.value(matches);
    let sweep = SWEEP.value(matches);
    // A flag has one value, "true" or "false".
    let report = matches.get_str("report").unwrap_or("false") == "true";
    Settings {
        places,
        jobs,
        sweep,
        report,
    }
}

/// The mode of a name, with what belongs to it.
fn mode<'a>(name: &str, setup: Option<&'a str>, count: u32, start: u32) -> Option<Mode<'a>>
    requires least { 1 ≤ count }
    requires most { count ≤ 100000 }
    requires state { start < 2 ^ 31 }
    ensures job { option_map job_of result ≡ job name.now (option_map (λ s. s.now) setup.entry) count start }
    ensures bounds { IfSome result InBounds }
{
    let Some(setup) = setup else {
        return if name == "sample" {
            Some(Mode::Sample { count, start })
        } else {
            None
        };
    };
    match name {
        "speak" => Some(Mode::Speak { setup }),
        "classify" => Some(Mode::Classify { setup }),
        "check" => Some(Mode::Check { setup }),
        _ => None,
    }
}
