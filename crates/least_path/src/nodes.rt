// Nodes by number, for a search by lists.

ghost use Rattle.std.specs.Prelude.{◌≡◌, ◌≢◌, ◌<◌, IfOk, IfSome, MatchOption, OnOk, Some, [], length, slice_get, ℕ};
ghost use Rattle.least_path.specs.declared.node.Node.TheVariants.{End};
ghost use Rattle.least_path.specs.declared.marks.Mark.TheVariants.{Unmet};
ghost use Rattle.least_path.specs.Notes.{Arrived, HasOneEnd, Noted};

use crate::hashing::mix_node;
use crate::marks::Mark;
use crate::node::Node;
use std::alloc::{AllocError, Global};
use std::marker::Model;

/// Nodes that are numbered from 0 in the order in which they came. The chains only help to find the number of one that came before: those
/// of one hash hang together, the last one first, and 0 is none.
#[derive(Drop)]
pub(crate) struct Nodes {
    nodes: Vec<Node>,
    end: Option<usize>,
    heads: Vec<usize>,
    links: Vec<usize>,
}

impl Model for Nodes {
    ghost use Rattle.std.specs.Prelude.{List};
    ghost use Rattle.least_path.specs.declared.node.Node.{Node};
    ghost use Rattle.least_path.specs.Notes.{IsNumberOfEnd};

    ghost Value = { List Node };

    ghost view = { λ n. n.nodes.items };

    ghost invariant = { λ n. IsNumberOfEnd n.nodes.items n.end };
}

impl Nodes {
    /// No nodes. It takes no memory yet.
    pub(crate) fn new(alloc: Global) -> Nodes
        ensures { result ≡ [] }
    {
        Nodes {
            nodes: Vec::new(alloc),
            end: None,
            heads: Vec::new(alloc),
            links: Vec::new(alloc),
        }
    }

    /// No nodes are left, and there is room for so many.
    pub(crate) fn clear(&mut self, room: usize) -> Result<(), AllocError>
        ensures { OnOk result (self.new ≡ []) }
    {
        self.end = None;
        self.nodes.clear();
        self.heads.clear();
        self.links.clear();
        self.nodes.reserve(room)?;
        self.heads.resize(room, 0)?;
        self.links.reserve(room)?;
        Ok(())
    }

    /// How many nodes have a number.
    pub(crate) fn len(&self) -> usize
        ensures { result ≡ length self.now }
    {
        self.nodes.len()
    }

    /// The node of a number.
    pub(crate) fn node(&self, number: usize) -> Node
        requires { number < length self.now }
        ensures { slice_get self.now number ≡ Some result }
    {
        self.nodes[number]
    }

    /// The number of the end, where it came.
    pub(crate) fn end(&self) -> Option<usize>
        ensures { MatchOption result ((k : ℕ) → slice_get self.now k ≡ Some End → ⊥) (λ k. slice_get self.now k ≡ Some End) }
    {
        self.end
    }

    /// The number of a node. One that hasn't come before gets the next.
    pub(crate) fn number(&mut self, node: Node) -> Result<usize, AllocError>
        ensures number { IfOk result (Arrived self.old self.new node) }
        ensures one_end { HasOneEnd self.new }
    {
        match node {
            Node::At(_, _) => self.number_of_place(node),
            Node::End => self.number_of_end(),
        }
    }

    fn number_of_place(&mut self, node: Node) -> Result<usize, AllocError>
        requires { node ≢ End }
        ensures number { IfOk result (Arrived self.old self.new node) }
        ensures one_end { HasOneEnd self.new }
    {
        make_room(&self.nodes, &mut self.heads, &mut self.links)?;
        let slot = slot_of(&node, self.heads.len());
        if let Some(known) = find(&self.nodes, &self.heads, &self.links, slot, &node) {
            return Ok(known);
        }
        chain(&mut self.heads, &mut self.links, slot)?;
        let number = self.nodes.len();
        self.nodes.push(node)?;
        Ok(number)
    }

    fn number_of_end(&mut self) -> Result<usize, AllocError>
        ensures number { IfOk result (Arrived self.old self.new End) }
        ensures one_end { HasOneEnd self.new }
    {
        if let Some(known) = self.end {
            return Ok(known);
        }
        self.links.push(0)?;
        let number = self.nodes.len();
        self.nodes.push(Node::End)?;
        self.end = Some(number);
        Ok(number)
    }
}

/// The number of a node, which is unmet where it is new.
pub(crate) fn meet(
    nodes: &mut Nodes,
    marks: &mut Vec<Mark>,
    node: Node,
) -> Result<usize, AllocError>
    requires { length marks.old.items ≡ length nodes.old }
    ensures noted { IfOk result (λ i. Noted Unmet nodes.old nodes.new marks.old.items marks.new.items node i) }
    ensures one_end { HasOneEnd nodes.new }
{
    let number = nodes.number(node)?;
    if number == marks.len() {
        marks.push(Mark::Unmet)?;
    }
    Ok(number)
}

/// Which of so many chains a node hangs on, fewer than 2^32: the upper half of its hash tells, as a part of them all. That takes no division,
/// after Lemire's reduction.
fn slot_of(node: &Node, chains: usize) -> usize {
    ((mix_node(node) >> 32).wrapping_mul(chains as u64) >> 32) as usize
}

/// The number of a node, if it is found on its chain.
fn find(nodes: &[Node], heads: &[usize], links: &[usize], slot: usize, node: &Node) -> Option<usize>
    ensures { IfSome result (λ k. slice_get nodes.now k ≡ Some node.now) }
{
    let mut next = link_at(heads, slot);
    while next > 0 && next <= nodes.len() {
        let number = next - 1;
        if nodes[number] == *node {
            return Some(number);
        }
        let before = link_at(links, number);
        if before >= next {
            return None;
        }
        next = before;
    }
    None
}

/// What stands at a place, and 0 past the last one.
fn link_at(links: &[usize], place: usize) -> usize {
    match links.get(place) {
        Some(link) => *link,
        None => 0,
    }
}

/// Hangs the next node on a chain.
fn chain(heads: &mut Vec<usize>, links: &mut Vec<usize>, slot: usize) -> Result<(), AllocError> {
    links.push(link_at(heads, slot))?;
    let next = links.len();
    if let Some(head) = heads.get_mut(slot) {
        *head = next;
    }
    Ok(())
}

/// Makes more chains where there is no longer one for each node.
fn make_room(
    nodes: &[Node],
    heads: &mut Vec<usize>,
    links: &mut Vec<usize>,
) -> Result<(), AllocError> {
    if nodes.len() < heads.len() {
        return Ok(());
    }
    hang_anew(nodes, heads, links)
}

/// Hangs all nodes on new chains, twice as many. It is seldom called.
#[cold]
fn hang_anew(
    nodes: &[Node],
    heads: &mut Vec<usize>,
    links: &mut Vec<usize>,
) -> Result<(), AllocError> {
    let chains = heads.len().saturating_mul(2).saturating_add(65);
    heads.clear();
    links.clear();
    heads.resize(chains, 0)?;
    for node in nodes {
        chain(heads, links, slot_of(node, chains))?;
    }
    Ok(())
}
