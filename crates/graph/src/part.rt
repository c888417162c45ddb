// The relevant part of a network (the paper's useful part).
ghost use Rattle.std.specs.Prelude.{◌≡◌};
ghost use Rattle.graph.specs.Relevant.{relevant_nodes, relevant_edges};

use edge_set::EdgeSet;
use network::Accepted;
use node_set::NodeSet;

// An accepted network beside its relevant nodes and edges.
#[derive(Clone, Copy)]
pub struct Part {
    pub accepted: Accepted,
    pub nodes: NodeSet,
    pub edges: EdgeSet,
    ghost relevant_nodes: { nodes.0 ≡ relevant_nodes accepted.network },
    ghost relevant_edges: { edges.0 ≡ relevant_edges accepted.network },
}
