// The spread (the paper's reach): from a start over sets of adjacent nodes, in rounds, until one adds no node. It knows no network and no edge.
#![tactic(auto)]

ghost use Rattle.std.specs.Prelude.{◌↔◌, ℕ};
ghost use Rattle.bitset.specs.Members.{◌∈◌};
ghost use Rattle.spread.specs.Spread.{AdjacentTo, Reached};

use node_set::{NODES, NodeSet, NodeWord};
use sets::BitSet;

// The nodes that are adjacent to one of the set.
fn adjacent_to(adjacent: &[NodeWord; NODES], nodes: NodeSet) -> NodeSet
    ensures { (w : ℕ) → (w ∈ result.0) ↔ AdjacentTo adjacent.now nodes.0 w }
{
    let mut beside = NodeSet::empty();
    for v in nodes.members() {
        let row = adjacent[v as usize];
        beside = beside.union(NodeSet(row));
    }
    beside
}

// What the start reaches by going from nodes to adjacent nodes inside the set. A round goes on from the nodes that the last one found,
// and the loop's break yields the set when one finds none (docs/DECISIONS.md, "Forms of 01").
pub fn reach(adjacent: &[NodeWord; NODES], within: NodeSet, start: NodeSet) -> NodeSet
    ensures { Reached adjacent.now within.0 start.0 result.0 }
{
    let mut spread = start;
    let mut fresh = start;
    loop {
        let beside = adjacent_to(adjacent, fresh);
        let inside = beside.intersection(within);
        let found = inside.difference(spread);
        if found.is_empty() {
            break spread;
        }
        spread = spread.union(found);
        fresh = found;
    }
}
