ghost use Rattle.std.specs.Prelude.{◌≡◌, IfOk, map};
ghost use Rattle.thrax_syntax.specs.Trees.{concat, quoted, terms, text, tree_term, union, weighted};

use crate::tree::Tree;
use norm_base::Name;
use std::alloc::{AllocError, Global};

pub fn text(labels: Vec<u16>) -> Tree
    ensures { tree_term result ≡ text labels.items }
{
    Tree::Text(labels)
}

pub fn quoted(alloc: Global, bytes: &[u8]) -> Result<Tree, AllocError>
    ensures { IfOk result (λ t. tree_term t ≡ quoted bytes.now) }
{
    Ok(Tree::Quoted(Name::new(alloc, bytes)?))
}

pub fn union(members: Vec<Tree>) -> Tree
    ensures { tree_term result ≡ union (terms (map tree_term members.items)) }
{
    Tree::Union(members)
}

pub fn concat(members: Vec<Tree>) -> Tree
    ensures { tree_term result ≡ concat (terms (map tree_term members.items)) }
{
    Tree::Concat(members)
}

/// A tree with a weight in ten-thousandths.
pub fn weighted(alloc: Global, tree: Tree, weight: u32) -> Result<Tree, AllocError>
    ensures { IfOk result (λ t. tree_term t ≡ weighted (tree_term tree) weight) }
{
    Ok(Tree::Weighted(Box::new(alloc, tree)?, weight))
}
