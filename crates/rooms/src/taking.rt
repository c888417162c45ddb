// The rooms taken one after the other, in the work rows.
ghost use Rattle.std.specs.Prelude.{List, [], ◌≡◌, ℕ, ◌+◌, ◌-◌, ◌^◌, ◌≤◌, ◌<◌, length, take, IfSome};
ghost use Rattle.bitset.specs.Members.{members};
ghost use Rattle.node_set.specs.Width.{node_width};
ghost use Rattle.branches.specs.Enumeration.{rows};
ghost use Rattle.enumeration.specs.Rows.{Put};
ghost use Rattle.clutters.specs.Steps.{between};
ghost use Rattle.rooms.specs.Rooms.{step_need};
ghost use Rattle.rooms.specs.Steps.{counted, MostSets, RoomListed, Added, RoomAdded, Taken};

use crate::Extent;
use crate::asked::Asked;
use clutters::{tidy, unite};
use connectivity::part_of;
use enumeration::enumerate;
use network::Accepted;
use ordering::sort_sets;
use sets::BitSet;

// Writes the minimal cuts of an accepted network as they are found, as far as there are rows. Gives their number, at most one more than there
// are rows: no more of them are looked for. A number and not an Option, since `Put` bounds it so.
fn find_room(accepted: Accepted, found: &mut [u64]) -> usize
    ensures { (none : List ℕ) × Put (rows accepted.network) 0 (length found.old) found.old [] found.new none result }
{
    let lent = found.len();
    enumerate(part_of(accepted), found, &mut [], lent)
}

// The minimal cuts of an accepted network, rising, in front of the rows, if there are rows for all of them. Gives their number, none if there
// are more of them than rows.
fn list_room(accepted: Accepted, rows: &mut [u64]) -> Option<usize>
    ensures listed { RoomListed accepted.network rows.old rows.new (counted (length rows.old) result) }
    ensures within { IfSome result (λ n. n ≤ length rows.old) }
{
    let lent = rows.len();
    let count = find_room(accepted, rows);
    if lent < count {
        return None;
    }
    sort_sets(&mut rows[..count]);
    Some(count)
}

// How many sets the next room's list may have, with p sets so far, so that the step needs no more rows than are lent.
fn most_sets(extent: Extent, lent: usize, p: usize) -> usize
    requires { (p ≤ lent) × (lent + 1 < 2 ^ 64) }
    ensures { MostSets extent lent p result }
{
    let left = lent - p;
    match extent {
        Extent::Any => left,
        Extent::All => left / (p + 1),
    }
}

// Adds to the first p sets those at the places p to m: joined with them or united, and every set dropped that holds another. Gives how many
// sets then stand in front.
fn add(extent: Extent, rows: &mut [u64], p: usize, m: usize) -> usize
    requires { (p ≤ m) × (step_need extent p (m - p) ≤ length rows.old) }
    ensures { Added extent (take p rows.old) (between p m rows.old) rows.old rows.new result }
{
    match extent {
        Extent::Any => tidy(&mut rows[..m], 0),
        Extent::All => {
            let end = unite(rows, p, m);
            tidy(&mut rows[..end], m)
        }
    }
}

// Adds the list of an accepted network to the first p sets, if there are enough rows for that step. Gives how many sets then stand in front;
// none, if there are too few rows.
fn add_room(extent: Extent, accepted: Accepted, rows: &mut [u64], p: usize) -> Option<usize>
    requires { p ≤ length rows.old }
    ensures added { RoomAdded extent accepted.network p rows.old rows.new (counted (length rows.old) result) }
    ensures within { IfSome result (λ n. n ≤ length rows.old) }
{
    let most = most_sets(extent, rows.len(), p);
    let q = list_room(accepted, &mut rows[p..p + most])?;
    Some(add(extent, rows, p, p + q))
}

// Takes the rooms in rising order, if there are enough rows for every step. Gives how many sets then stand in front; none, if there are too
// few rows for a step.
pub fn take_rooms(extent: Extent, asked: Asked, rows: &mut [u64]) -> Option<usize>
    ensures taken { Taken extent asked.accepted.network (members node_width asked.rooms.0)
        (length rows.old) rows.new (counted (length rows.old) result) }
    ensures within { IfSome result (λ n. n ≤ length rows.old) }
{
    let first = asked.rooms.lowest();
    let others = asked.rooms.without_lowest();
    let mut count = list_room(asked.to_room(first), rows)?;
    for room in others.members() {
        count = add_room(extent, asked.to_room(room), rows, count)?;
    }
    Some(count)
}
