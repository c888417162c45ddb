// What the sink still reaches when a node joins the side, found from that node's neighbours: mostly they hang together after a step or two,
// and then nothing else is lost.
#![tactic(auto)]

ghost use Rattle.std.specs.Prelude.{◌≡◌, ◌^◌, ◌<◌};
ghost use Rattle.bitset.specs.Members.{◌∈◌, ◌⊆◌, ◌∖◌};
ghost use Rattle.node_set.specs.Width.{node_width};
ghost use Rattle.network.specs.declared.Network.{Network};
ghost use Rattle.graph.specs.Reach.{Bounded};
ghost use Rattle.graph.specs.Relevant.{reach_in};
ghost use Rattle.adjacency.specs.Adjacency.{Adjacency};
ghost use Rattle.parts.specs.Parts.{PartOf, Hangs};

use node_set::{NODES, NodeSet, NodeWord};
use sets::BitSet;

// The nodes that hang together with the lowest target by adjacent nodes of the set: all of them, or as many as have all targets among them.
fn part_of(adjacent: &[NodeWord; NODES], within: NodeSet, targets: NodeSet) -> NodeSet
    requires { targets.0 ⊆ within.0 }
    ensures { PartOf adjacent.now within.0 targets.0 result.0 }
{
    let mut missing = targets.without_lowest();
    let mut fresh = targets.difference(missing);
    let mut left = within.difference(fresh);
    // What is found is fresh too: the set grows while it is gone through.
    while !missing.is_empty() && !fresh.is_empty() {
        let slot = fresh.lowest() as usize;
        let row = adjacent[slot];
        let found = NodeSet(row).intersection(left);
        left = left.difference(found);
        missing = missing.difference(found);
        let others = fresh.without_lowest();
        fresh = others.union(found);
    }
    within.difference(left)
}

// What the sink reaches once v has joined. Before, all of the rest but v hung on it: so if the rest without v falls into parts, each of
// them has neighbours of v.
pub fn rest_without(adjacent: &[NodeWord; NODES], rest: NodeSet, v: u32, sink: u32) -> NodeSet
    requires { v < node_width }
    ensures { (M : Network) → Bounded M → Adjacency M adjacent.now → sink ∈ (rest.0 ∖ 2 ^ v)
        → Hangs M rest.0 v sink → result.0 ≡ reach_in M (rest.0 ∖ 2 ^ v) sink }
{
    if !rest.contains(v) {
        return rest;
    }
    let mut left = rest.without(v);
    let slot = v as usize;
    let row = adjacent[slot];
    let mut near = NodeSet(row).intersection(left);
    // A part has several of the neighbours at once, and so they are not gone through one by one.
    loop {
        let part = part_of(adjacent, left, near);
        near = near.difference(part);
        // The neighbours that are left are in one part, and so all that is left is one.
        if near.is_empty() {
            return left;
        }
        // Otherwise the part is a whole one: the sink's, or one that is lost.
        if part.contains(sink) {
            return part;
        }
        left = left.difference(part);
    }
}
