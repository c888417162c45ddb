// The list call: the relevant part, its rows, and their order. And the same of a network that was trimmed already, with a test in place of the
// relevant part.
ghost use Rattle.std.specs.Prelude.{◌≡◌};
ghost use Rattle.network.specs.Refusals.{refusal_of, answer_of};
ghost use Rattle.listing.specs.List.{listed, listed_by, cut_rows_after, side_rows_after, ListMeans};
ghost use Rattle.listing.specs.Trimmed.{trimmed_listed_by, trimmed_cut_rows, trimmed_side_rows, TrimmedMeans};

use connectivity::part_of;
use filling::fill;
use graph::Part;
use network::{Network, Refusal, accept};
use node_set::NodeWord;
use sorting::sort_rows;
use trimmed::accept_trimmed;

// Lists the minimal cuts of a network by its relevant part: 11, then 12; on refusal no row changes.
fn list_part(part: Part, cuts: &mut [u64], sides: &mut [NodeWord]) -> Result<usize, Refusal>
    ensures { (listed result ≡ listed_by part.accepted.network cuts.old sides.old)
        × (cuts.new ≡ cut_rows_after part.accepted.network cuts.old sides.old)
        × (sides.new ≡ side_rows_after part.accepted.network cuts.old sides.old) }
{
    let lent = cuts.len();
    let differ = lent != sides.len();
    if differ {
        return Err(Refusal::RowsDiffer);
    }
    let count = fill(part, cuts, sides);
    let too_many = lent < count;
    if too_many {
        return Err(Refusal::TooManyCuts);
    }
    sort_rows(&mut cuts[..count], &mut sides[..count]);
    Ok(count)
}

// Lists all minimal cuts, rising, each beside its near side. The record's first fault, then 11, then 12; on refusal no row changes.
pub fn list(network: Network, cuts: &mut [u64], sides: &mut [NodeWord]) -> Result<usize, Refusal>
    ensures value { (listed result ≡ listed_by network cuts.old sides.old)
        × (cuts.new ≡ cut_rows_after network cuts.old sides.old)
        × (sides.new ≡ side_rows_after network cuts.old sides.old) }
    ensures means { ListMeans network cuts.old sides.old (refusal_of result) (answer_of 0 result) cuts.new sides.new }
{
    let accepted = accept(network)?;
    let part = part_of(accepted);
    list_part(part, cuts, sides)
}

// Lists a network that was trimmed already, as `list` does. The record's first fault, then 26, then 11, then 12; on refusal no row changes.
pub fn list_trimmed(
    network: Network,
    cuts: &mut [u64],
    sides: &mut [NodeWord],
) -> Result<usize, Refusal>
    ensures value { (listed result ≡ trimmed_listed_by network cuts.old sides.old)
        × (cuts.new ≡ trimmed_cut_rows network cuts.old sides.old)
        × (sides.new ≡ trimmed_side_rows network cuts.old sides.old) }
    ensures means { TrimmedMeans network cuts.old sides.old (refusal_of result) (answer_of 0 result) cuts.new sides.new }
{
    let part = accept_trimmed(network)?;
    list_part(part, cuts, sides)
}
