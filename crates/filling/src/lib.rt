// The rows of a network in lent rows: straight where these are sure to suffice, else counted first, so that too few are left as they were.
#![tactic(auto)]

ghost use Rattle.std.specs.Prelude.{◌≡◌, true, ◌-◌, ◌^◌, ◌≤◌, length};
ghost use Rattle.branches.specs.Enumeration.{rows};
ghost use Rattle.filling.specs.Filled.{Filled};

use enumeration::enumerate;
use graph::Part;
use node_set::{NODE_WIDTH, NodeWord};
use sets::BitSet;

// As many rows as the list program lends are kept while they are counted: a list that fits there is searched for once.
const OWN_ROWS: usize = 2048;

// Whether so many rows suffice for every network with so many relevant nodes: they have at most 2 ^ (nodes - 2) mincuts.
fn always_enough(nodes: u32, lent: usize) -> bool
    ensures { result ≡ true → 2 ^ (nodes - 2) ≤ lent }
{
    2 <= nodes && nodes <= NODE_WIDTH && 1 << (nodes - 2) <= lent
}

// Copies rows onto as many others. By place, which is compiled to memcpy: the library promises C to call nothing else but memset, and
// `copy_from_slice` calls memmove.
pub fn copy_rows(rows: &mut [u64], found: &[u64])
    requires { length rows.old ≡ length found.now }
    ensures { rows.new ≡ found.now }
{
    for i in 0..found.len() {
        rows[i] = found[i];
    }
}

// Counts the rows of a network's relevant part, and writes them if they do not outnumber those lent. As many as there is room for are kept in
// `found` and `beside` while they are counted: if that is all of them, they are copied, and not searched for again.
fn count_then_fill(
    part: Part,
    found: &mut [u64],
    beside: &mut [NodeWord],
    cuts: &mut [u64],
    sides: &mut [NodeWord],
) -> usize
    requires { (length found.old ≡ length beside.old) × (length cuts.old ≡ length sides.old) }
    ensures { Filled (rows part.accepted.network) cuts.old sides.old cuts.new sides.new result }
{
    let lent = cuts.len();
    let kept = found.len().min(lent);
    let counted = enumerate(part, &mut found[..kept], &mut beside[..kept], lent);
    if lent < counted {
        return counted;
    }
    if kept < counted {
        return enumerate(part, cuts, sides, lent);
    }
    copy_rows(&mut cuts[..counted], &found[..counted]);
    copy_rows(&mut sides[..counted], &beside[..counted]);
    counted
}

// Writes the rows of a network's relevant part if they do not outnumber those lent. Gives their number, at most one more than are lent: a
// number and not an Option, since `Filled` counts so.
pub fn fill(part: Part, cuts: &mut [u64], sides: &mut [NodeWord]) -> usize
    requires { length cuts.old ≡ length sides.old }
    ensures { Filled (rows part.accepted.network) cuts.old sides.old cuts.new sides.new result }
{
    let lent = cuts.len();
    if always_enough(part.nodes.size(), lent) {
        return enumerate(part, cuts, sides, lent);
    }
    let mut own_cuts = [0u64; OWN_ROWS];
    let mut own_sides: [NodeWord; OWN_ROWS] = [0; OWN_ROWS];
    count_then_fill(part, &mut own_cuts, &mut own_sides, cuts, sides)
}
