//! The pieces of a line, and the line.
ghost use Rattle.std.specs.Prelude.{◌≡◌, ◌<◌, ◌^◌, IfOk, OnOk};
ghost use Rattle.std.specs.String.{string_bytes};
ghost use Rattle.sample_lines.specs.Lines.{date, line, number, piece, word};

use crate::draws::Draws;
use std::alloc::{AllocError, Global};

const MONTHS: [&str; 12] = [
    "january",
    "february",
    "march",
    "april",
    "may",
    "june",
    "july",
    "august",
    "september",
    "october",
    "november",
    "december",
];

const WORDS: [&str; 8] = [
    "cats", "dogs", "green", "rain", "bread", "and", "the", "window",
];

/// One line without its end, and the state for the line after it.
pub fn sample_line(alloc: Global, state: u32) -> Result<(Vec<u8>, u32), AllocError>
    requires { state < 2 ^ 31 }
    ensures line { IfOk result (λ r. r.0.items ≡ (line state).value) }
    ensures next { IfOk result (λ r. r.1 ≡ (line state).state) }
    ensures below { IfOk result (λ r. r.1 < 2 ^ 31) }
{
    let mut draws = Draws::new(state);
    let more = draws.below(4);
    let mut text = piece(alloc, &mut draws)?.into_bytes();
    for _ in 0..more {
        let next = piece(alloc, &mut draws)?;
        text.push(b' ')?;
        text.extend_from_slice(next.as_bytes())?;
    }
    Ok((text, draws.state))
}

/// The next piece.
#[tactic(auto, unfolding(crate::specs::Lines::piece))]
fn piece(alloc: Global, draws: &mut Draws) -> Result<String, AllocError>
    ensures text { IfOk result (λ text. string_bytes text ≡ (piece draws.old.state).value) }
    ensures state { OnOk result (draws.new.state ≡ (piece draws.old.state).state) }
{
    match draws.below(4) {
        0 => number(alloc, draws),
        1 => date(alloc, draws),
        2 => word(alloc, draws),
        _ => String::from_str(alloc, "."),
    }
}

/// A number below 100.
fn number(alloc: Global, draws: &mut Draws) -> Result<String, AllocError>
    ensures text { IfOk result (λ text. string_bytes text ≡ (number draws.old.state).value) }
    ensures state { OnOk result (draws.new.state ≡ (number draws.old.state).state) }
{
    let number = draws.below(100);
    format!(in alloc; "{number}")
}

/// A day and a month.
fn date(alloc: Global, draws: &mut Draws) -> Result<String, AllocError>
    ensures text { IfOk result (λ text. string_bytes text ≡ (date draws.old.state).value) }
    ensures state { OnOk result (draws.new.state ≡ (date draws.old.state).state) }
{
    let day = 1 + draws.below(31);
    let month = MONTHS[draws.below(12) as usize];
    format!(in alloc; "{day} {month}")
}

/// One of the words.
fn word(alloc: Global, draws: &mut Draws) -> Result<String, AllocError>
    ensures text { IfOk result (λ text. string_bytes text ≡ (word draws.old.state).value) }
    ensures state { OnOk result (draws.new.state ≡ (word draws.old.state).state) }
{
    String::from_str(alloc, WORDS[draws.below(8) as usize])
}
