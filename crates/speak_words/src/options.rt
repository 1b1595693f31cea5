//! The command and its options.
ghost use Rattle.std.specs.Prelude.{◌≡◌, ◌≤◌, false, IfOk};
ghost use Rattle.std.specs.Option.{option_map_or};
ghost use Rattle.clap.specs.Words.{app_of, found_of, one_of, rows_of, rule_of};
ghost use Rattle.speak_words.specs.Asked.{number};
ghost use Rattle.speak_words.specs.Numbers.{HasNumberIn};
ghost use Rattle.speak_words.specs.Options.{command, flag, number_option, text_option, with_settings};

use crate::numbers::{COUNT, JOBS, PLACES, START, SWEEP};
use clap::{Arg, ArgAction, Command};
use std::alloc::{AllocError, Global};

/// The command.
pub(crate) fn command<'a>(alloc: Global) -> Result<Command<'a>, AllocError>
    ensures { IfOk result (λ c. app_of c ≡ command) }
{
    let jobs = Command::new(alloc, "jackdawtray")
        .arg(text_option(alloc, "setup"))?
        .arg(text_option(alloc, "mode"))?
        .arg(COUNT.option(alloc))?
        .arg(START.option(alloc))?;
    with_settings(alloc, jobs)
}

/// The command with the options that say how a job is done.
fn with_settings<'a>(alloc: Global, jobs: Command<'a>) -> Result<Command<'a>, AllocError>
    ensures { IfOk result (λ c. app_of c ≡ with_settings (app_of jobs.entry)) }
{
    jobs.arg(PLACES.option(alloc))?
        .arg(JOBS.option(alloc))?
        .arg(SWEEP.option(alloc))?
        .arg(flag(alloc, "report"))
}

/// An option whose value is a text.
fn text_option<'a>(alloc: Global, name: &'a str) -> Arg<'a>
    ensures rule { rule_of result ≡ text_option name.entry.now }
    ensures local { result.global ≡ false }
{
    Arg::new(alloc, name).long(name)
}

/// An option without a value.
fn flag<'a>(alloc: Global, name: &'a str) -> Arg<'a>
    ensures rule { rule_of result ≡ flag name.entry.now }
    ensures local { result.global ≡ false }
{
    Arg::new(alloc, name).long(name).action(ArgAction::SetTrue)
}
