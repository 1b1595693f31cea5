//! Lines one after another.
ghost use Rattle.std.specs.Prelude.{◌≡◌, ◌<◌, ◌^◌, IfOk, map};
ghost use Rattle.sample_lines.specs.Lines.{sampled};

use crate::lines::sample_line;
use std::alloc::{AllocError, Global};

/// So many lines without their ends, and the state for the line after them.
pub fn sample_batch(
    alloc: Global,
    state: u32,
    count: usize,
) -> Result<(Vec<Vec<u8>>, u32), AllocError>
    requires { state < 2 ^ 31 }
    ensures lines { IfOk result (λ r. map (λ line. line.items) r.0.items ≡ (sampled count state).value) }
    ensures next { IfOk result (λ r. r.1 ≡ (sampled count state).state) }
    ensures below { IfOk result (λ r. r.1 < 2 ^ 31) }
{
    let mut lines = Vec::new(alloc);
    let mut next = state;
    for _ in 0..count {
        let (line, after) = sample_line(alloc, next)?;
        lines.push(line)?;
        next = after;
    }
    Ok((lines, next))
}
