// Nodes as keys, and what is hashed of them.

ghost use Rattle.std.specs.Prelude.{◌≡◌};
ghost use Rattle.std.specs.Hash as fed;
ghost use Rattle.least_path.specs.Mixing.{mix_of, mixed};
ghost use Rattle.least_path.specs.SameNodes.{mixed_alike, node_same};

use crate::node::Node;
use state_table::Key;
use std::hash::{Hash, Hasher};

impl Key for Node {
    ghost same = { node_same };
}

impl Hash for Node {
    ghost hash_input = { λ n. fed.u64 (mix_of n) };

    ghost respects_eq = { mixed_alike };

    fn hash<H: Hasher>(&self, state: &mut H) {
        state.write_u64(mix_node(self));
    }
}

/// The words of a node mixed into one, which is all that is hashed.
pub(crate) fn mix_node(node: &Node) -> u64
    ensures { result ≡ mix_of node.now }
{
    match node {
        Node::At(state, tuple) => {
            let names = mix(
                mix(*state as u64, tuple.cascade as u64),
                tuple.filters as u64,
            );
            let halves = mix(mix(names, tuple.states[0] as u64), tuple.states[1] as u64);
            mix(mix(halves, tuple.states[2] as u64), tuple.states[3] as u64)
        }
        Node::End => 0,
    }
}

/// One word more in a hash of words, as the `fxhash` of Firefox and rustc takes it in.
fn mix(hash: u64, word: u64) -> u64
    ensures { result ≡ mixed hash word }
{
    (hash.rotate_left(5) ^ word).wrapping_mul(0x517c_c1b7_2722_0a95)
}
