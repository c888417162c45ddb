// Rows counted by width: one after the other where some edge has a lower twin, and two at a time where none has.
ghost use Rattle.std.specs.Prelude.{map, ◌≡◌, ◌+◌, ◌^◌, ◌<◌, get_or};
ghost use Rattle.sequences.specs.Counts.{tally};
ghost use Rattle.bitset.specs.Members.{size};
ghost use Rattle.network.specs.Rules.{RowsPresent};
ghost use Rattle.twins.specs.Twins.{LowerTwins, Alone};
ghost use Rattle.widths.specs.Counting.{EdgesOf, raised};
ghost use Rattle.widths.specs.Widths.{width_table};

use edge_set::EdgeSet;
use network::Network;
use sets::BitSet;
use twins::leading;

// No row of any width.
const NONE: [u64; 65] = [0; 65];

// How many rows there are of each width from 0 to 64, and the edges of all rows together.
#[derive(Clone, Copy)]
pub struct RowCounts {
    pub counts: [u64; 65],
    pub edges: EdgeSet,
}

// Raises the count of one width by one, and then that of another or of the same. Both are read before either is stored: else, where rows of
// one width follow each other, each would wait until the count of the one before it was stored.
fn raise_two(counts: &mut [u64; 65], one: usize, next: usize)
    requires { (one < 65) × (next < 65) × (get_or counts.old one 0 + 2 < 2 ^ 64) × (get_or counts.old next 0 + 2 < 2 ^ 64) }
    ensures { counts.new ≡ raised (raised counts.old one) next }
{
    let before = counts[next];
    counts[one] += 1;
    counts[next] = if one == next { before + 2 } else { before + 1 };
}

// The rows by the number of their edges.
pub(crate) fn by_size(rows: &[u64]) -> RowCounts
    ensures { (result.counts ≡ tally 65 (map (size 64) rows.now)) × EdgesOf rows.now result.edges.0 }
{
    let mut counts = NONE;
    let mut edges = EdgeSet::empty();
    let (pairs, rest) = rows.as_chunks::<2>();
    for pair in pairs {
        let one = EdgeSet(pair[0]);
        let next = EdgeSet(pair[1]);
        edges = edges.union(one).union(next);
        raise_two(&mut counts, one.size() as usize, next.size() as usize);
    }
    if let Some(&row) = rest.first() {
        let last = EdgeSet(row);
        edges = edges.union(last);
        let width = last.size() as usize;
        counts[width] += 1;
    }
    RowCounts { counts, edges }
}

// The rows by the number of their leading edges, which is their width if no row holds an edge that is not present.
pub(crate) fn by_leading(lower: &[u64; 64], alone: EdgeSet, rows: &[u64]) -> RowCounts
    ensures { ((N : Network) → LowerTwins N lower.now → Alone N lower.now alone.0 → RowsPresent N rows.now
        → result.counts ≡ width_table N rows.now)
        × EdgesOf rows.now result.edges.0 }
{
    let mut counts = NONE;
    let mut edges = EdgeSet::empty();
    for &row in rows {
        let row = EdgeSet(row);
        edges = edges.union(row);
        let width = leading(lower, alone, row).size() as usize;
        counts[width] += 1;
    }
    RowCounts { counts, edges }
}
