// Contraction: a network with several of its nodes made one, so that a cut for that one is a cut for all of them.
#![tactic(auto)]

ghost use Rattle.std.specs.Prelude.{◌≡◌};
ghost use Rattle.bitset.specs.Members.{has};
ghost use Rattle.contraction.specs.Contracted.{Moved, Contracted};

use edge_set::EdgeSet;
use network::Network;
use node_set::NodeSet;
use sets::BitSet;

// Whether an end lies at one of the nodes.
fn lies_at(nodes: NodeSet, end: u8) -> bool
    ensures { result ≡ has nodes.0 end }
{
    nodes.contains(u32::from(end))
}

// One end of each edge, where those of the edges given that lie at one of the nodes are moved to the node `to`.
fn moved(edges: EdgeSet, nodes: NodeSet, to: u8, mut ends: [u8; 64]) -> [u8; 64]
    ensures { Moved edges.0 nodes.0 to ends result }
{
    for k in edges.members() {
        let at = k as usize;
        if lies_at(nodes, ends[at]) {
            ends[at] = to;
        }
    }
    ends
}

// The network with the nodes made one, the lowest of them, which is its sink.
pub fn contracted(network: Network, nodes: NodeSet) -> Network
    ensures { Contracted network nodes.0 result }
{
    let sink = nodes.lowest() as u8;
    let first = moved(network.present, nodes, sink, network.first);
    let second = moved(network.present, nodes, sink, network.second);
    Network {
        sink,
        first,
        second,
        ..network
    }
}
