// The search: the first entry is settled next.

ghost use Rattle.std.specs.Prelude.{◌≡◌, IfOk, option_map};
ghost use Rattle.weighted_relations.specs.Machines.{Reads};
ghost use Rattle.weighted_relations.specs.Least.{Least};

use crate::entries::{Entry, Place, is_settled};
use crate::firsts::take_first;
use crate::settling::Search;
use fst_core::Fst;
use std::alloc::{AllocError, Global};

/// A weight, in ten-thousandths, and the labels of an output.
#[derive(Debug, PartialEq, Eq, Drop)]
pub struct Reading {
    pub weight: u128,
    pub labels: Vec<u16>,
}

/// The least reading of a line: by weight, then by the length of its output, then by its labels. None
/// exactly where the line has no reading, as where it has a byte 0.
///
/// After Dijkstra: the first of the open entries is the least way to its pair, unless this is settled.
/// It ends, since each turn settles one of the pairs of a position and a state, or leaves fewer
/// entries open. Its sums fit `u128`: each settled pair adds at most one arc below 2^54 to a weight,
/// and fewer than 2^64 pairs are settled.
pub fn least_of(alloc: Global, rule: &Fst, line: &[u8]) -> Result<Option<Reading>, AllocError>
    ensures least { IfOk result (λ answer. Least (Reads rule.now) (λ x. x ≡ line.now) (option_map (λ r. (r.weight, r.labels.items)) answer)) }
{
    let mut waiting = Vec::new(alloc);
    waiting.push(Entry::at_start(alloc, rule.start()))?;
    let mut search = Search {
        waiting,
        settled: Vec::new(alloc),
    };
    while let Some(first) = take_first(&mut search.waiting) {
        match first.place {
            Place::End => {
                return Ok(Some(Reading {
                    weight: first.weight,
                    labels: first.output,
                }));
            }
            Place::At(pair) => {
                if !is_settled(&search.settled, pair) {
                    search.settle(alloc, rule, line, &first, pair)?;
                }
            }
        }
    }
    Ok(None)
}
