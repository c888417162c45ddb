// The enumeration of the source sides (the paper's near sides): a node beside the side joins it, or is left out for good.
#![tactic(auto)]

ghost use Rattle.std.specs.Prelude.{◌≡◌, ◌&&◌, ◌^◌, ◌≤◌, ◌<◌, leb};
ghost use Rattle.bitset.specs.Members.{has, ◌∈◌, ◌⊆◌, ◌∖◌};
ghost use Rattle.node_set.specs.Width.{node_width};
ghost use Rattle.network.specs.Record.{present};
ghost use Rattle.graph.specs.Cuts.{only};
ghost use Rattle.branches.specs.Enumeration.{rows, blank};
ghost use Rattle.enumeration.specs.Tables.{Incidence};
ghost use Rattle.enumeration.specs.Capacity.{Capacity};
ghost use Rattle.enumeration.specs.Rows.{Put, Same, JoinedBranch, JoinPut, LeaveOutPut};

mod rows;

use adjacency::{add, adjacency};
use branches::Branch;
use edge_set::EdgeSet;
use graph::Part;
use network::Accepted;
use node_set::{NODES, NodeSet, NodeWord};
use parts::rest_without;
use rows::Rows;
use sets::BitSet;

// ---- the tables

// For each node the edges at it, of an accepted network with the edges of the set alone.
fn incidence(accepted: Accepted, edges: EdgeSet) -> [u64; NODES]
    requires { edges.0 ⊆ present accepted.network }
    ensures { Incidence (only accepted.network edges.0) result }
{
    let network = accepted.network;
    let mut incident = [0u64; NODES];
    for k in edges.members() {
        let at = k as usize;
        add::<EdgeSet>(&mut incident, network.first[at], k);
        add::<EdgeSet>(&mut incident, network.second[at], k);
    }
    incident
}

// What a search looks up: for each node its neighbours and the edges at it, and the sink.
#[derive(Clone, Copy)]
struct Tables<'a> {
    adjacent: &'a [NodeWord; NODES],
    incident: &'a [u64; NODES],
    sink: u32,
}

impl Tables<'_> {
    // The branch with v joined.
    fn joined(&self, b: Branch, v: u32) -> Branch
        requires { v < node_width }
        ensures { (result.undecided.0 ≡ b.undecided.0 ∖ 2 ^ v) × JoinedBranch self.now b v result }
    {
        let slot = v as usize;
        let nodes = self.adjacent[slot];
        let edges = self.incident[slot];
        let beside = b.around.union(NodeSet(nodes));
        Branch {
            side: b.side.with(v),
            undecided: b.undecided.without(v),
            rest: rest_without(self.adjacent, b.rest, v, self.sink),
            around: beside.with(v),
            cut: EdgeSet(b.cut.0 ^ edges),
            ..b
        }
    }
}

// ---- the search

// Whether v can be left out: a row is still wanted, and the sink reaches v.
fn can_leave_out(rows: &Rows, b: Branch, v: u32) -> bool
    ensures { result ≡ leb rows.now.count rows.now.limit && has b.rest.0 v }
{
    rows.count <= rows.limit && b.rest.contains(v)
}

// Puts the rows in which v joins. One row past the limit, which no area holds, is enough.
#[cycle(join_leave_out)]
fn join(tables: &Tables, b: Branch, v: u32, rows: &mut Rows)
    requires { (v < node_width) × (v ∈ b.undecided.0) × (rows.old.count ≤ rows.old.limit) }
    ensures same { Same rows.old rows.new }
    ensures put { JoinPut tables.now b v rows.old rows.new }
{
    let next = tables.joined(b, v);
    if !next.is_open() {
        return;
    }
    let Some(w) = next.candidate() else {
        rows.put(next);
        return;
    };
    join(tables, next, w, rows);
    leave_out(tables, next, w, rows);
}

// Puts the rows in which v is left out for good: with v left out the next candidate joins, and then it is left out too.
#[cycle(join_leave_out)]
fn leave_out(tables: &Tables, b: Branch, v: u32, rows: &mut Rows)
    requires { (v < node_width) × (v ∈ b.undecided.0) }
    ensures same { Same rows.old rows.new }
    ensures put { LeaveOutPut tables.now b v rows.old rows.new }
{
    let mut next = b;
    let mut w = v;
    while can_leave_out(rows, next, w) {
        next = next.left_out(w);
        let Some(k) = next.candidate() else {
            rows.put(next);
            return;
        };
        w = k;
        join(tables, next, w, rows);
    }
}

// The branch in which nothing is decided yet.
fn blank(part: Part) -> Branch
    ensures { result ≡ blank part.accepted.network }
{
    let sink = part.accepted.network.sink as u32;
    Branch {
        side: NodeSet(0),
        out: NodeSet(0),
        undecided: part.nodes.without(sink),
        rest: part.nodes,
        around: NodeSet(0),
        cut: EdgeSet(0),
    }
}

// Writes the rows of a network's relevant part, and gives their number, at most one past the limit: a number
// and not an Option, since `Put` counts the row that is one too many.
pub fn enumerate(part: Part, cuts: &mut [u64], sides: &mut [NodeWord], limit: usize) -> usize
    requires { Capacity 0 limit cuts.old sides.old }
    ensures { Put (rows part.accepted.network) 0 limit cuts.old sides.old cuts.new sides.new result }
{
    let network = part.accepted.network;
    let adjacent = adjacency(part.accepted, part.edges);
    let incident = incidence(part.accepted, part.edges);
    let tables = Tables {
        adjacent: &adjacent,
        incident: &incident,
        sink: network.sink as u32,
    };
    let mut rows = Rows {
        cuts,
        sides,
        count: 0,
        limit,
    };
    join(&tables, blank(part), network.source as u32, &mut rows);
    rows.count
}
