// Lists for several rooms: the least sets of cables that silence at least one of them, and those that silence all. Each room's list is made
// in the lent work rows, behind the sets for the rooms before it, and added to these.
#![tactic(auto)]

mod asked;
mod package;
mod taking;

ghost use Rattle.std.specs.Prelude.{◌≡◌, ◌≤◌, length, IfSome};
ghost use Rattle.network.specs.Refusals.{refusal_of, answer_of};
ghost use Rattle.listing.specs.List.{listed};
ghost use Rattle.rooms.specs.Rooms.{rooms_listed_by, rooms_rows_after, work_after, RoomsMean};
ghost use Rattle.rooms.specs.Steps.{counted, Delivered};

use crate::package::check_rooms;
use crate::taking::take_rooms;
use filling::copy_rows;
use network::{Network, Refusal};

// The most rooms that a call can be asked for.
pub const MOST_ROOMS: usize = 8;

// How many of the rooms a set is to silence: at least one, or every one. A type, and not the step to run: definitions and theorems (`Silences`,
// `sets_for`, `RoomsMean`) range over it.
#[derive(Clone, Copy)]
pub enum Extent {
    Any,
    All,
}

// Copies the sets that stand in front of the work rows, so many as are counted, onto the rows for cuts: 20 if there were too few work rows to
// count them, 12 if there are more than rows for cuts, which then stay as they were.
fn deliver(count: Option<usize>, work: &[u64], cuts: &mut [u64]) -> Result<usize, Refusal>
    requires { IfSome count (λ n. n ≤ length work.now) }
    ensures { Delivered (counted (length work.now) count) work.now cuts.old cuts.new (listed result) }
{
    let count = count.ok_or(Refusal::WorkTooShort)?;
    if cuts.len() < count {
        return Err(Refusal::TooManyCuts);
    }
    copy_rows(&mut cuts[..count], &work[..count]);
    Ok(count)
}

// Lists the least sets that silence the rooms, by the extent. The record's first fault, then 19, then 20, then 12; on refusal no row for cuts
// changes. The work rows are all 0 afterwards, but untouched where record or rooms are refused.
fn list_rooms(
    extent: Extent,
    network: Network,
    rooms: &[u8],
    cuts: &mut [u64],
    work: &mut [u64],
) -> Result<usize, Refusal>
    ensures value { (listed result ≡ rooms_listed_by extent network rooms.now cuts.old work.old)
        × (cuts.new ≡ rooms_rows_after extent network rooms.now cuts.old work.old)
        × (work.new ≡ work_after network rooms.now work.old) }
    ensures means { RoomsMean extent network rooms.now cuts.old work.old (refusal_of result) (answer_of 0 result) cuts.new }
{
    let asked = check_rooms(network, rooms)?;
    let count = take_rooms(extent, asked, work);
    let delivered = deliver(count, work, cuts);
    work.fill(0);
    delivered
}

// Lists the minimal sets that silence at least one of the rooms, rising: the rooms' lists joined, and every set dropped that holds another.
pub fn list_any(
    network: Network,
    rooms: &[u8],
    cuts: &mut [u64],
    work: &mut [u64],
) -> Result<usize, Refusal>
    ensures value { (listed result ≡ rooms_listed_by Extent.Any network rooms.now cuts.old work.old)
        × (cuts.new ≡ rooms_rows_after Extent.Any network rooms.now cuts.old work.old)
        × (work.new ≡ work_after network rooms.now work.old) }
    ensures means { RoomsMean Extent.Any network rooms.now cuts.old work.old (refusal_of result) (answer_of 0 result) cuts.new }
{
    list_rooms(Extent::Any, network, rooms, cuts, work)
}

// The other of the two calls that C has, which takes no `Extent`. Lists the minimal sets that silence every one of the rooms, rising: the unions of one set from each room's list, and every one dropped that
// holds another.
pub fn list_all(
    network: Network,
    rooms: &[u8],
    cuts: &mut [u64],
    work: &mut [u64],
) -> Result<usize, Refusal>
    ensures value { (listed result ≡ rooms_listed_by Extent.All network rooms.now cuts.old work.old)
        × (cuts.new ≡ rooms_rows_after Extent.All network rooms.now cuts.old work.old)
        × (work.new ≡ work_after network rooms.now work.old) }
    ensures means { RoomsMean Extent.All network rooms.now cuts.old work.old (refusal_of result) (answer_of 0 result) cuts.new }
{
    list_rooms(Extent::All, network, rooms, cuts, work)
}
