// Silence: whether the source is cut off from the sink where a set of edges is down. One spread tells; from one set to the next, often none.
ghost use Rattle.std.specs.Prelude.{◌≡◌};
ghost use Rattle.bitset.specs.Decides.{Decides};
ghost use Rattle.graph.specs.CutTests.{severed, Settled};

use adjacency::fill;
use edge_set::EdgeSet;
use network::Accepted;
use node_set::{NODES, NodeSet, NodeWord};
use sets::BitSet;
use spread::reach;

// Whether without the edges of the set the source does not reach the sink.
pub fn severed(accepted: Accepted, set: EdgeSet) -> bool
    ensures { result ≡ severed accepted.network set.0 }
{
    let network = accepted.network;
    let present = network.present;
    let edges = present.difference(set);
    let mut adjacent: [NodeWord; NODES] = [0; NODES];
    fill(&mut adjacent, accepted, edges);
    let all = NodeSet::below(network.nodes as u32);
    let start = NodeSet::single(network.source as u32);
    let reached = reach(&adjacent, all, start);
    !reached.contains(network.sink as u32)
}

// Whether of the set now what is known of the one before holds without a spread: one that severs has grown, or one that does not has shrunk.
pub fn settled(severs: bool, before: EdgeSet, now: EdgeSet) -> bool
    ensures { Decides result (Settled severs before.0 now.0) }
{
    if severs {
        before.is_subset(now)
    } else {
        now.is_subset(before)
    }
}
