// The transducer of a context rewrite.

ghost use Rattle.std.specs.Prelude.{◌≤◌, [], IfOk};
ghost use Rattle.fst_core.specs.Top.{top_of};
ghost use Rattle.fst_core.specs.Useful.{IsTrimmed};
ghost use Rattle.weighted_relations.specs.Relations.{Same, IsAcceptor, IsUnmarked, IsInput};
ghost use Rattle.weighted_relations.specs.Machines.{Reads};
ghost use Rattle.weighted_relations.specs.Rewriting.{Rewritten};
ghost use Rattle.rewrite_rules.specs.Gaps.{GoesWhole};
ghost use Rattle.rewrite_rules.specs.Languages.{Conditions};
ghost use Rattle.rewrite_rules.specs.Manners.{manner_of};

use crate::arcs::Tables;
use crate::automata::Automata;
use crate::befores::Befores;
use crate::classes::Classes;
use crate::machines::machine;
use crate::modes::RewriteMode;
use crate::shared_ends::share_ends;
use fst_core::{Fst, reads_empty, trim};
use std::alloc::{AllocError, Global};

/// The transducer of a context rewrite, left to right.
///
/// Weights of the contexts and of sigma count for nothing.
pub fn rewrite(
    alloc: Global,
    tau: &Fst,
    left: &Fst,
    right: &Fst,
    sigma: &Fst,
    mode: RewriteMode,
) -> Result<Fst, AllocError>
    requires left { IsAcceptor (Reads left.now) }
    requires right { IsAcceptor (Reads right.now) }
    requires sigma { IsAcceptor (Reads sigma.now) }
    requires sigma_unmarked { IsUnmarked (Reads sigma.now) }
    requires tau_unmarked { IsUnmarked (Reads tau.now) }
    requires tau_reads { IsInput (Reads tau.now) [] → ⊥ }
    ensures readings { IfOk result (λ m. Same (Reads m) (Rewritten (Reads tau.now) (Reads left.now) (Reads right.now) (Reads sigma.now) (manner_of mode))) }
    ensures top { IfOk result (λ m. top_of m ≤ top_of tau.now) }
    ensures states { IfOk result IsTrimmed }
{
    let shared = shared_tau(alloc, tau, right)?;
    let all = rewrite_at_gaps(alloc, &shared, left, right, sigma, mode)?;
    let m = trim(alloc, &all)?;
    Ok(m)
}

/// So many states are few.
const FEW: usize = 256;

/// The same readings of tau, whose inputs share their ends where there are many states and any text may follow.
///
/// A path of the answer may write before it reads, so the machine tries each reading where one begins. Otherwise it has
/// each end of a reading beside each text that may follow, which are fewer only where the right context tells much.
fn shared_tau(alloc: Global, tau: &Fst, right: &Fst) -> Result<Fst, AllocError>
    ensures readings { IfOk result (λ m. Same (Reads m) (Reads tau.now)) }
    ensures top { IfOk result (λ m. top_of m ≤ top_of tau.now) }
{
    if tau.len() >= FEW && reads_empty(alloc, right)? {
        share_ends(alloc, tau)
    } else {
        trim(alloc, tau)
    }
}

/// The rewrite, with dead states, and also for a tau that reads the empty text: its rewrite then comes once at most at
/// each place between what was written and what is unread.
fn rewrite_at_gaps(
    alloc: Global,
    tau: &Fst,
    left: &Fst,
    right: &Fst,
    sigma: &Fst,
    mode: RewriteMode,
) -> Result<Fst, AllocError>
    requires conditions { Conditions (Reads tau.now) (Reads left.now) (Reads right.now) (Reads sigma.now) }
    ensures readings { IfOk result (λ m. Same (Reads m) (GoesWhole (Reads tau.now) (Reads left.now) (Reads right.now) (Reads sigma.now) (manner_of mode))) }
    ensures top { IfOk result (λ m. top_of m ≤ top_of tau.now) }
{
    let _start = tau.start();
    let automata = Automata::new(alloc, tau, left, right, sigma, mode)?;
    let classes = Classes::new(alloc, &automata)?;
    let befores = Befores::new(alloc, &automata, &classes)?;
    let tables = Tables {
        automata,
        classes,
        befores,
    };
    let m = machine(alloc, tau, &tables)?;
    Ok(m)
}
