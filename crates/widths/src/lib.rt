// Widths: `width_table`, how many rows of a list there are of each width, and `count_rows`, which counts them untested. Both take whatever
// they are given.
#![tactic(auto)]

mod rows;

ghost use Rattle.std.specs.Prelude.{◌≡◌, replicate};
ghost use Rattle.network.specs.Refusals.{refusal_of, answer_of};
ghost use Rattle.network.specs.Rules.{RowsPresent};
ghost use Rattle.widths.specs.Counting.{EdgesOf};
ghost use Rattle.widths.specs.Widths.{counted, width_table, widths_of, WidthsMean};

use edge_set::EdgeSet;
use network::{Accepted, Network, Refusal, accept};
pub use rows::RowCounts;
use rows::{by_leading, by_size};
use sets::BitSet;
use twins::{leading, lower_twins};

// Rows by width, if no row holds an edge that is not present, and the edges of all rows together. Where no edge present has a lower twin, each
// row joins as many pairs as it has edges.
pub fn count_rows(accepted: Accepted, cuts: &[u64]) -> RowCounts
    ensures { (RowsPresent accepted.network cuts.now → result.counts ≡ width_table accepted.network cuts.now)
        × EdgesOf cuts.now result.edges.0 }
{
    let network = accepted.network;
    let lower = lower_twins(accepted);
    let alone = leading(&lower, EdgeSet::empty(), network.present);
    if network.present.is_subset(alone) {
        by_size(cuts)
    } else {
        by_leading(&lower, alone, cuts)
    }
}

// The width table of a list, the number of rows of each width from 0 to 64: the record's first fault, then 14 for a row with an edge that is
// not present; else its rows by width.
pub fn width_table(network: Network, cuts: &[u64]) -> Result<[u64; 65], Refusal>
    ensures value { counted result ≡ widths_of network cuts.now }
    ensures means { WidthsMean network cuts.now (refusal_of result) (answer_of (replicate 65 0) result) }
{
    let accepted = accept(network)?;
    let counted = count_rows(accepted, cuts);
    let counts = counted.counts;
    if !counted.edges.is_subset(network.present) {
        return Err(Refusal::EdgeNotPresent);
    }
    Ok(counts)
}
