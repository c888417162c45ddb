// The rooms that a call is asked for.
ghost use Rattle.std.specs.Prelude.{not, ◌&&◌, ◌≡◌, eqb, ltb};
ghost use Rattle.bitset.specs.Members.{has};
ghost use Rattle.rooms.specs.Steps.{Packaged};

use crate::MOST_ROOMS;
use crate::asked::Asked;
use network::{Network, Refusal, accept};
use node_set::NodeSet;
use sets::BitSet;

// Whether a room is a point of the network, not the server, and not among the rooms before it.
fn fits(network: Network, before: NodeSet, room: u8) -> bool
    ensures { result ≡ ltb room network.nodes && not (eqb room network.source) && not (has before.0 room) }
{
    room < network.nodes && room != network.source && !before.contains(u32::from(room))
}

// The record's first fault, then 19 if the rooms are no package: none, more than 8, one twice, the server, or a point outside the plan.
pub fn check_rooms(network: Network, rooms: &[u8]) -> Result<Asked, Refusal>
    ensures { Packaged network rooms.now result }
{
    let accepted = accept(network)?;
    if rooms.is_empty() || MOST_ROOMS < rooms.len() {
        return Err(Refusal::BadRooms);
    }
    let mut seen = NodeSet(0);
    for &room in rooms {
        if !fits(network, seen, room) {
            return Err(Refusal::BadRooms);
        }
        seen = seen.with(u32::from(room));
    }
    Ok(Asked {
        accepted,
        rooms: seen,
    })
}
