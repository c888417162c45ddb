// The test of a network that was trimmed already, so that every node and every present edge is relevant (the paper's useful). It is not the
// trimming: with source and sink joined, no node may hold others alone, which one depth-first walk decides; and no edge may be a loop.
#![tactic(auto)]

ghost use Rattle.std.specs.Prelude.{◌↔◌, ◌≡◌, ◌-◌, ◌^◌, ◌<◌, T, eqb, IfOk};
ghost use Rattle.bitset.specs.Members.{◌∈◌};
ghost use Rattle.node_set.specs.Width.{node_width};
ghost use Rattle.network.specs.Refusals.{refusal_of};
ghost use Rattle.network.specs.Ends.{Loopless};
ghost use Rattle.graph.specs.Relevant.{relevant_nodes, trimmed};
ghost use Rattle.adjacency.specs.Adjacency.{Mutual};
ghost use Rattle.trimmed.specs.Trimmed.{trimmed_fault};
ghost use Rattle.trimmed.specs.Visits.{VisitEnds, after_of, back_of};

use adjacency::adjacency;
use graph::Part;
use network::{Accepted, Network, Refusal, accept};
use node_set::{NODE_WIDTH, NODES, NodeSet, NodeWord};
use sets::BitSet;

// Visits v, and from there all that is reached over nodes not visited before. Gives those of the nodes visited before that are adjacent to one
// of its own; None where some of it hangs on one node alone: then the walk is over, and so is each visit that this one is a part of.
fn visit(adjacent: &[NodeWord; NODES], visited: &mut NodeSet, v: u32) -> Option<NodeSet>
    requires { (v < node_width) × (v ∈ visited.old.0 → ⊥) × Mutual adjacent.now }
    ensures { VisitEnds adjacent.now visited.old.0 v (after_of visited.old.0 visited.new.0 result) (back_of result) }
{
    let before = *visited;
    let slot = v as usize;
    let row = adjacent[slot];
    let mut beside = NodeSet(row);
    *visited = before.with(v);
    // A branch may visit nodes of the row too, so the row is not gone through node by node.
    loop {
        let fresh = NodeSet(row).difference(*visited);
        let w = fresh.lowest();
        if NODE_WIDTH <= w {
            let back = beside.intersection(before);
            return Some(back);
        }
        let ways = visit(adjacent, visited, w)?;
        if ways.without(v).is_empty() {
            return None;
        }
        beside = beside.union(ways);
    }
}

// Whether every node is relevant. The walk starts at the sink, the source visited before, as if an edge joined the two.
fn all_relevant(accepted: Accepted) -> bool
    ensures { result ≡ eqb (relevant_nodes accepted.network) (2 ^ accepted.network.nodes - 1) }
{
    let network = accepted.network;
    let adjacent = adjacency(accepted, network.present);
    let source = NodeSet::single(network.source as u32);
    let all = NodeSet::below(network.nodes as u32);
    let mut visited = source;
    let back = visit(&adjacent, &mut visited, network.sink as u32);
    back.is_some() && visited == all
}

// Whether no edge is a loop.
fn loopless(network: Network) -> bool
    ensures { T result ↔ Loopless network }
{
    let present = network.present;
    for k in present.members() {
        let at = k as usize;
        if network.first[at] == network.second[at] {
            return false;
        }
    }
    true
}

// Whether an accepted network is trimmed.
fn trimmed(accepted: Accepted) -> bool
    ensures { result ≡ trimmed accepted.network }
{
    loopless(accepted.network) && all_relevant(accepted)
}

// Takes a network that was trimmed already, of which every node and every present edge is relevant: the record's first fault, then 26.
pub fn accept_trimmed(network: Network) -> Result<Part, Refusal>
    ensures refusal { refusal_of result ≡ trimmed_fault network }
    ensures same { IfOk result (λ p. p.accepted.network ≡ network) }
{
    let accepted = accept(network)?;
    if !trimmed(accepted) {
        return Err(Refusal::NotTrimmed);
    }
    Ok(Part {
        accepted,
        nodes: NodeSet::below(accepted.network.nodes as u32),
        edges: accepted.network.present,
    })
}
