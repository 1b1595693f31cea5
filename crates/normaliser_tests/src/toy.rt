//! The normaliser of the rules of the sample, with several callers.

ghost use Rattle.std.specs.Prelude.{◌≡◌, ◌≤◌, All, IfOk};
ghost use Rattle.normaliser.specs.Searches.{IsCallerOf, places_of};

use crate::lines::told;
use crate::rules::rule;
use normaliser::{Caller, Normaliser, load};
use sample_lines::{TOY_CLASSIFY, TOY_VERBALIZE};
use std::alloc::{AllocError, Global};
use std::test::Fail;

/// The normaliser of the rules of the sample, and its callers, as many as seats. Its table has so many places.
pub(crate) fn toy(
    alloc: Global,
    places: u32,
    seats: usize,
) -> Result<(Normaliser, Vec<Caller>), Fail>
    ensures some { IfOk result (λ n. 1 ≤ places) }
    ensures places { IfOk result (λ n. places_of n.0 ≡ places) }
    ensures callers { IfOk result (λ n. All (IsCallerOf n.0) n.1.items) }
{
    if places < 1 || places > 4096 || seats < 1 || seats > 64 {
        return Err("a table of no such size")?;
    }
    let mut classifier = Vec::new(alloc);
    classifier.push(rule(alloc, TOY_CLASSIFY, "MAIN")?)?;
    let mut verbaliser = Vec::new(alloc);
    verbaliser.push(rule(alloc, TOY_VERBALIZE, "WORDS")?)?;
    match load(alloc, &classifier, &verbaliser, places, seats as u32) {
        Ok(loaded) => Ok(loaded),
        Err(_) => Err("rules that are refused")?,
    }
}

/// The next caller, by the numbers of their seats.
pub(crate) fn next(normaliser: &Normaliser, callers: &mut Vec<Caller>) -> Result<Caller, Fail>
    requires ready { All (IsCallerOf normaliser.now) callers.old.items }
    ensures next { IfOk result (IsCallerOf normaliser.now) }
    ensures others { All (IsCallerOf normaliser.now) callers.new.items }
{
    if callers.is_empty() {
        return Err("no more callers")?;
    }
    Ok(callers.remove(0))
}

/// What a caller answers to lines, as text.
pub(crate) fn all_told(
    alloc: Global,
    normaliser: &Normaliser,
    caller: &mut Caller,
    lines: &[&[u8]],
) -> Result<Vec<u8>, AllocError>
    requires ready { IsCallerOf normaliser.now caller.old }
    ensures ready { IsCallerOf normaliser.now caller.new }
{
    let mut text = Vec::new(alloc);
    for line in lines {
        let answer = normaliser.speak_line(alloc, caller, *line);
        text.extend_from_slice(&told(alloc, &answer)?)?;
        text.push(b'\n')?;
    }
    Ok(text)
}
