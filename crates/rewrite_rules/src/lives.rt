// The states of an automaton from where a text may be accepted.

ghost use Rattle.std.specs.Prelude.{◌≡◌, ◌<◌, ℕ, length, IfOk, false};
ghost use Rattle.weighted_relations.specs.Relations.{IsByte};
ghost use Rattle.acceptor_ops.specs.Tables.{step_of};
ghost use Rattle.rewrite_rules.specs.PartsOf.{IsDead, AreLive};

use acceptor_ops::Dfa;
use std::alloc::{AllocError, Global};

/// Marks of the states, without those from where no text of bytes is accepted, since each byte stays there.
///
/// The automaton of the sets of a transducer's states has one such state at most, that of the empty set.
pub(crate) fn live_states(alloc: Global, d: &Dfa) -> Result<Vec<bool>, AllocError>
    ensures live { IfOk result (λ v. AreLive d.now v.items) }
{
    let mut live = Vec::new(alloc);
    for s in 0..d.len() {
        live.push(is_live(d, s))?;
    }
    Ok(live)
}

/// Whether a state accepts, or some byte leads on from it.
fn is_live(d: &Dfa, s: usize) -> bool
    requires state { s < length d.now.next }
    ensures dead { result ≡ false → IsDead d.now s }
{
    d.accepts(s) || leads_on(d, s)
}

/// Whether some byte leads to another state.
fn leads_on(d: &Dfa, s: usize) -> bool
    requires state { s < length d.now.next }
    ensures stays { result ≡ false → (c : ℕ) → IsByte c → step_of d.now s c ≡ s }
{
    for byte in 1..256u16 {
        if d.step(s, byte) != s {
            return true;
        }
    }
    false
}
