// The adjacent nodes of each node (the paper's neighbours), worked out before a spread: the other nodes that an edge which it may use joins to it.
#![tactic(auto)]

ghost use Rattle.std.specs.Prelude.{◌↔◌, ◌≡◌, ℕ, ◌<◌, get_or};
ghost use Rattle.bitset.specs.Members.{◌∈◌, ◌⊆◌};
ghost use Rattle.node_set.specs.Width.{node_width};
ghost use Rattle.network.specs.Record.{present};
ghost use Rattle.graph.specs.Cuts.{only};
ghost use Rattle.adjacency.specs.Adjacency.{Adjacency, Mutual, with_member, linked};

use edge_set::EdgeSet;
use network::Accepted;
use node_set::{NODES, NodeSet, NodeWord};
use sets::BitSet;

// Puts a member into the set of a node: a neighbour into a table of neighbours, an edge into one of the edges at each node.
pub fn add<S: BitSet>(table: &mut [u64; NODES], a: u8, k: u32)
    requires { (a < node_width) × (k < 64) }
    ensures { table.new ≡ with_member table.old a k }
{
    let slot = a as usize;
    let row = table[slot];
    table[slot] = S::of(row).with(k).word();
}

// The ends of an edge are adjacent to each other; those of a loop are one node, which is not its own neighbour.
fn link(adjacent: &mut [NodeWord; NODES], a: u8, b: u8)
    requires { (a < node_width) × (b < node_width) }
    ensures { adjacent.new ≡ linked adjacent.old a b }
{
    if a != b {
        add::<NodeSet>(adjacent, a, b as u32);
        add::<NodeSet>(adjacent, b, a as u32);
    }
}

// Fills the table in with the neighbours by the edges of the set, in place of what stood there. A table of the caller's own costs no copy.
// The set comes beside the network and is not of a type with it: judging hands on any set of present edges, the lists those of a part.
pub fn fill(adjacent: &mut [NodeWord; NODES], accepted: Accepted, edges: EdgeSet)
    requires { edges.0 ⊆ present accepted.network }
    ensures { Adjacency (only accepted.network edges.0) adjacent.new }
{
    let network = accepted.network;
    *adjacent = [0; NODES];
    for k in edges.members() {
        let at = k as usize;
        link(adjacent, network.first[at], network.second[at]);
    }
}

// The table of an accepted network with the edges of the set alone, by value: `fill` is for calls that may not take the stack for two.
pub fn adjacency(accepted: Accepted, edges: EdgeSet) -> [NodeWord; NODES]
    requires { edges.0 ⊆ present accepted.network }
    ensures { Adjacency (only accepted.network edges.0) result }
{
    let mut adjacent: [NodeWord; NODES] = [0; NODES];
    fill(&mut adjacent, accepted, edges);
    adjacent
}

// Takes a node out of the table, with every neighbour that it has. `Mutual` is asked and not kept in a type: no table is mutual while it is
// filled.
pub fn leave_out(others: &mut [NodeWord; NODES], c: u8)
    requires { (c < node_width) × Mutual others.old }
    ensures { (v w : ℕ) → (w ∈ get_or others.new v 0) ↔ ((w ∈ get_or others.old v 0) × (v ≡ c → ⊥) × (w ≡ c → ⊥)) }
{
    let slot = c as usize;
    let gone = others[slot];
    others[slot] = 0;
    // The other nodes that have c in their rows.
    let near = NodeSet(gone).without(c as u32);
    for v in near.members() {
        let at = v as usize;
        let row = others[at];
        let beside = NodeSet(row).without(c as u32);
        others[at] = beside.0;
    }
}

// The table without the node c, by value, as `adjacency` is: of no edge with an end there. Only its row and those of the nodes adjacent to it have anything to lose.
pub fn without_node(adjacent: &[NodeWord; NODES], c: u8) -> [NodeWord; NODES]
    requires { (c < node_width) × Mutual adjacent.now }
    ensures { (v w : ℕ) → (w ∈ get_or result v 0) ↔ ((w ∈ get_or adjacent.now v 0) × (v ≡ c → ⊥) × (w ≡ c → ⊥)) }
{
    let mut others = *adjacent;
    leave_out(&mut others, c);
    others
}
