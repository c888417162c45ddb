// A set of nodes (points): numbers below the width.
#![tactic(auto)]

use sets::BitSet;

// The most nodes, `node_width` of specs/Width.antt, and the word that has a bit for each. Rows of such words are lent for source sides.
pub const NODE_WIDTH: u32 = 64;

pub type NodeWord = u64;

// The rows of a table that has one for each node that there can be.
pub const NODES: usize = NODE_WIDTH as usize;

// A single node is a plain number, and a function that takes it for a place in a table asks that it be below the width: a type of its own
// would be taken apart at every table and every set.
#[derive(Clone, Copy, PartialEq, Eq)]
pub struct NodeSet(pub NodeWord);

impl BitSet for NodeSet {
    ghost number = { λ s. s.0 };

    fn of(word: u64) -> NodeSet {
        NodeSet(word)
    }

    fn word(self) -> u64 {
        self.0
    }
}
