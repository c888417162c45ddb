// Twins, edges that join the same pair of nodes (the paper's trunk): of those of a set the lowest leads.
//
//   lower_twins      for each edge those below it that join the same pair
//   leading          the edges of a set that have no lower twin in it
#![tactic(auto)]

ghost use Rattle.std.specs.Prelude.{◌↔◌, ◌≡◌, ℕ, ◌<◌, get_or};
ghost use Rattle.bitset.specs.Decides.{Decides};
ghost use Rattle.bitset.specs.Families.{Meets};
ghost use Rattle.bitset.specs.Members.{◌∈◌};
ghost use Rattle.network.specs.Ends.{ends_of};
ghost use Rattle.twins.specs.Twins.{LowerTwins};

use edge_set::EdgeSet;
use network::Accepted;
use node_set::{NodeSet, NodeWord};
use sets::BitSet;

// The pair of nodes that each edge of an accepted network joins, whichever end comes first.
fn pairs(accepted: Accepted) -> [NodeWord; 64]
    ensures { (k : ℕ) → k < 64 → get_or result k 0 ≡ ends_of accepted.network k }
{
    let network = accepted.network;
    let mut pairs: [NodeWord; 64] = [0; 64];
    for k in 0..64 {
        let first = NodeSet::single(u32::from(network.first[k]));
        let pair = first.with(u32::from(network.second[k]));
        pairs[k] = pair.0;
    }
    pairs
}

// Those of the edges that join the pair.
fn joining(pairs: &[NodeWord; 64], edges: EdgeSet, pair: NodeWord) -> EdgeSet
    ensures { (j : ℕ) → (j ∈ result.0) ↔ ((j ∈ edges.0) × (get_or pairs.now j 0 ≡ pair)) }
{
    let mut joins = edges;
    for j in edges.members() {
        if pairs[j as usize] != pair {
            joins = joins.without(j);
        }
    }
    joins
}

// For each edge present of an accepted network its lower twins.
pub fn lower_twins(accepted: Accepted) -> [u64; 64]
    ensures { LowerTwins accepted.network result }
{
    let present = accepted.network.present;
    let pairs = pairs(accepted);
    let mut lower = [0; 64];
    for k in present.members() {
        let at = k as usize;
        let pair = pairs[at];
        let twins = joining(&pairs, present.intersection(EdgeSet::below(k)), pair);
        lower[at] = twins.0;
    }
    lower
}

// Whether the edge k has a lower twin in the set.
fn led(lower: &[u64; 64], k: u32, set: EdgeSet) -> bool
    requires { k < 64 }
    ensures { Decides result (Meets (get_or lower.now k 0) set.0) }
{
    let twins = EdgeSet(lower[k as usize]);
    !twins.intersection(set).is_empty()
}

// The edges of a set that have no lower twin in it. Those of `alone` have none anywhere and are not looked at.
pub fn leading(lower: &[u64; 64], alone: EdgeSet, set: EdgeSet) -> EdgeSet
    ensures { (k : ℕ) → (k ∈ result.0) ↔ ((k ∈ set.0) × ((k ∈ alone.0 → ⊥) → Meets (get_or lower.now k 0) set.0 → ⊥)) }
{
    let mut leads = set;
    for k in set.difference(alone).members() {
        if led(lower, k, set) {
            leads = leads.without(k);
        }
    }
    leads
}
