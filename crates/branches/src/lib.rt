// The branches of the enumeration: a list of the mincuts of a network is made by deciding one node after the other.
#![tactic(auto)]

ghost use Rattle.std.specs.Prelude.{◌≡◌, ◌≤◌, ◌<◌, IfSome, IfNone};
ghost use Rattle.node_set.specs.Width.{node_width};
ghost use Rattle.branches.specs.Enumeration.{candidate, left_out, is_open};

use edge_set::EdgeSet;
use node_set::{NODE_WIDTH, NodeSet};
use sets::BitSet;

// A branch of the enumeration of source sides.
#[derive(Clone, Copy)]
pub struct Branch {
    pub side: NodeSet,
    pub out: NodeSet,
    pub undecided: NodeSet,
    pub rest: NodeSet,
    pub around: NodeSet,
    pub cut: EdgeSet,
}

impl Branch {
    // The lowest undecided node beside the side.
    pub fn candidate(self) -> Option<u32>
        ensures found { IfSome result (λ v. (v ≡ candidate self) × (v < node_width)) }
        ensures none { IfNone result (node_width ≤ candidate self) }
    {
        let lowest = self.around.intersection(self.undecided).lowest();
        if lowest < NODE_WIDTH {
            Some(lowest)
        } else {
            None
        }
    }

    // Whether the sink still reaches all that is left out.
    pub fn is_open(self) -> bool
        ensures { result ≡ is_open self }
    {
        let common = self.out.intersection(self.rest);
        common == self.out
    }

    // The branch with v left out.
    pub fn left_out(self, v: u32) -> Branch
        requires { v < node_width }
        ensures { result ≡ left_out self v }
    {
        Branch {
            out: self.out.with(v),
            undecided: self.undecided.without(v),
            ..self
        }
    }
}
