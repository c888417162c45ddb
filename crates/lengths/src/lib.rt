// Lengths: `total`, the metres of a set of edges. It takes whatever it is given.
#![tactic(auto)]

ghost use Rattle.std.specs.Prelude.{◌≡◌, ◌*◌, ◌≤◌, ◌<◌};
ghost use Rattle.network.specs.Refusals.{refusal_of, answer_of};
ghost use Rattle.network.specs.Record.{metres_of};
ghost use Rattle.lengths.specs.Lengths.{total_metres, measured, total_of, TotalMeans};

use edge_set::EdgeSet;
use network::{Network, Refusal, set_fault};
use sets::BitSet;

// The metres of an edge, 0 if it is not measured.
fn metres_of(network: Network, edge: u32) -> u16
    requires { edge < 64 }
    ensures { result ≡ metres_of network edge }
{
    network.metres[edge as usize]
}

// The metres of all members of the set together: at most 65,535 for each.
fn total_metres(network: Network, set: EdgeSet) -> u32
    ensures { (result ≡ total_metres network set.0) × (result ≤ 64 * 65535) }
{
    let mut total = 0;
    for k in set.members() {
        total += u32::from(metres_of(network, k));
    }
    total
}

// The total metres of a set of edges: the record's first fault, then 14; else the sum, to which an edge that is not measured adds 0.
pub fn total(network: Network, set: EdgeSet) -> Result<u32, Refusal>
    ensures value { measured result ≡ total_of network set.0 }
    ensures means { TotalMeans network set.0 (refusal_of result) (answer_of 0 result) }
{
    set_fault(network, set)?;
    Ok(total_metres(network, set))
}
