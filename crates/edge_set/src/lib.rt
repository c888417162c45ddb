// A set of edges (cables): numbers below 64.
#![tactic(auto)]

use sets::BitSet;

// A single edge is a plain number, as a node is: see `node_set`.
#[derive(Clone, Copy, PartialEq, Eq)]
pub struct EdgeSet(pub u64);

impl BitSet for EdgeSet {
    ghost number = { λ s. s.0 };

    fn of(word: u64) -> EdgeSet {
        EdgeSet(word)
    }

    fn word(self) -> u64 {
        self.0
    }
}
