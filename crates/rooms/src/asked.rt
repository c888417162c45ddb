// Rooms that a call can take.
ghost use Rattle.std.specs.Prelude.{◌≡◌};
ghost use Rattle.bitset.specs.Members.{◌∈◌};
ghost use Rattle.rooms.specs.Silences.{to};
ghost use Rattle.rooms.specs.Points.{Rooms};

use network::{Accepted, Network};
use node_set::NodeSet;

// The rooms that a call is asked for: some points of an accepted network, the server not among them.
#[derive(Clone, Copy)]
pub(crate) struct Asked {
    pub accepted: Accepted,
    pub rooms: NodeSet,
    ghost asked: { Rooms accepted.network rooms.0 },
}

impl Asked {
    // The network with one of the rooms for its sink.
    pub(crate) fn to_room(self, room: u32) -> Accepted
        requires { room ∈ self.rooms.0 }
        ensures { result.network ≡ to self.accepted.network room }
    {
        let network = Network {
            sink: room as u8,
            ..self.accepted.network
        };
        Accepted { network }
    }
}
