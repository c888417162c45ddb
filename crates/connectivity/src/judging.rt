// Judging a set of edges: one spread tells whether it is a cut, and one more for each member whether it is minimal.
ghost use Rattle.std.specs.Prelude.{◌≡◌};
ghost use Rattle.graph.specs.CutTests.{all_needed};
ghost use Rattle.connectivity.specs.Answers.{numbered, verdict_of, VerdictMeans, verdict_number};

use crate::silence::severed;
use edge_set::EdgeSet;
use network::{Accepted, Network, Refusal, set_fault};
use sets::BitSet;

// What a set of edges is, with the numbers of the paper's order.
#[derive(Clone, Copy, PartialEq, Eq)]
pub enum Verdict {
    NotCut = 1, // not a cut
    NotMinimal = 2, // a cut but not minimal
    Minimal = 3, // minimal
}

impl From<Verdict> for u8 {
    ghost from_gives = { λ verdict number. number ≡ verdict_number verdict };

    fn from(verdict: Verdict) -> u8 {
        verdict as u8
    }
}

// Whether no member of the set can be dropped: without the others alone the source reaches the sink.
fn all_needed(accepted: Accepted, set: EdgeSet) -> bool
    ensures { result ≡ all_needed accepted.network set.0 }
{
    for k in set.members() {
        if severed(accepted, set.without(k)) {
            return false;
        }
    }
    true
}

// What a set of edges is: the record's first fault, then 14; else exactly one of the three verdicts.
pub fn classify(network: Network, set: EdgeSet) -> Result<Verdict, Refusal>
    ensures value { numbered result ≡ verdict_of network set.0 }
    ensures means { VerdictMeans network set.0 (numbered result) }
{
    set_fault(network, set)?;
    let accepted = Accepted { network };
    if !severed(accepted, set) {
        return Ok(Verdict::NotCut);
    }
    if all_needed(accepted, set) {
        Ok(Verdict::Minimal)
    } else {
        Ok(Verdict::NotMinimal)
    }
}
