// The relevant part (the paper's useful part): the nodes that no other node cuts off from both terminals, and the edges between them.
ghost use Rattle.std.specs.Prelude.{◌≡◌, ◌<◌};
ghost use Rattle.graph.specs.Relevant.{two_in, edges_within, past, relevant_nodes};
ghost use Rattle.adjacency.specs.Adjacency.{Adjacency};
ghost use Rattle.connectivity.specs.Answers.{found, relevant_of, PartMeans};

use adjacency::{fill, leave_out};
use edge_set::EdgeSet;
use graph::Part;
use network::{Accepted, Network, Refusal, fault};
use node_set::{NODES, NodeSet, NodeWord};
use sets::BitSet;
use spread::reach;

// The relevant nodes and edges.
#[derive(Clone, Copy)]
pub struct RelevantPart {
    pub nodes: NodeSet,
    pub edges: EdgeSet,
}

// Whether the two nodes are different members of the set.
#[tactic(auto, unfolding(graph::specs::Relevant::two_in))]
fn two_in(nodes: NodeSet, first: u8, second: u8) -> bool
    ensures { result ≡ two_in nodes.0 first second }
{
    first != second && nodes.contains(first as u32) && nodes.contains(second as u32)
}

// The present edges that join two different nodes of the set; so no loop, which joins a node to itself.
fn edges_within(network: Network, nodes: NodeSet) -> EdgeSet
    ensures { result.0 ≡ edges_within network nodes.0 }
{
    let mut within = EdgeSet::empty();
    let present = network.present;
    for k in present.members() {
        let at = k as usize;
        if two_in(nodes, network.first[at], network.second[at]) {
            within = within.with(k);
        }
    }
    within
}

// The node c, and what source and sink, whichever is not c, reach by walks over other nodes than c: over the table without c.
fn past(accepted: Accepted, adjacent: &[NodeWord; NODES], c: u8) -> NodeSet
    requires { (c < accepted.network.nodes) × Adjacency accepted.network adjacent.now }
    ensures { result.0 ≡ past accepted.network c }
{
    let network = accepted.network;
    let mut others = *adjacent;
    leave_out(&mut others, c);
    let all = NodeSet::below(network.nodes as u32);
    let source = NodeSet::single(network.source as u32);
    let terminals = source.with(network.sink as u32);
    let start = terminals.without(c as u32);
    let reached = reach(&others, all, start);
    reached.with(c as u32)
}

// The relevant nodes of an accepted network: those past every node. The source is left out first; then only the other nodes that are past it
// can cut any of them off.
fn relevant_nodes(accepted: Accepted) -> NodeSet
    ensures { result.0 ≡ relevant_nodes accepted.network }
{
    let network = accepted.network;
    let mut adjacent: [NodeWord; NODES] = [0; NODES];
    fill(&mut adjacent, accepted, network.present);
    let mut nodes = past(accepted, &adjacent, network.source);
    let others = nodes.without(network.source as u32);
    for c in others.members() {
        let beyond = past(accepted, &adjacent, c as u8);
        nodes = nodes.intersection(beyond);
    }
    nodes
}

// The relevant part of an accepted network.
pub fn part_of(accepted: Accepted) -> Part
    ensures { result.accepted ≡ accepted }
{
    let nodes = relevant_nodes(accepted);
    let edges = edges_within(accepted.network, nodes);
    Part {
        accepted,
        nodes,
        edges,
    }
}

// The relevant part, or the record's first fault. It makes no `Part`: a record more on the stack would be past what C is promised.
pub fn relevant(network: Network) -> Result<RelevantPart, Refusal>
    ensures value { found result ≡ relevant_of network }
    ensures means { PartMeans network (found result).refusal (found result).nodes.0 (found result).edges.0 }
{
    fault(network)?;
    let nodes = relevant_nodes(Accepted { network });
    let edges = edges_within(network, nodes);
    Ok(RelevantPart { nodes, edges })
}
