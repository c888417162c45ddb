// The writer: `encode`, the record's commands into a lent buffer. It takes whatever it is given.
#![tactic(auto)]

ghost use Rattle.std.specs.Prelude.{◌≡◌, ℕ, ◌<◌, length};
ghost use Rattle.network.specs.Refusals.{refusal_of, answer_of};
ghost use Rattle.format.specs.Format.{length_command, present_command, encode_of, encoded, encoded_by, bytes_after, WrittenTo};
ghost use Rattle.format.specs.Meaning.{WrittenMeans};
ghost use Rattle.writer.specs.Written.{HasRoom, Appended, EdgesAppended};

use format::command::{EDGE, END, LENGTH, SIZE, TERMINALS};
use network::{Network, Refusal, fault};
use sets::BitSet;

// How many bytes the commands of an edge have.
fn edge_length(network: &Network, edge: u32) -> usize
    requires { edge < 64 }
    ensures { result ≡ length (present_command network.now edge) }
{
    let measured = 0 < network.metres[edge as usize];
    if measured { 8 } else { 4 }
}

// How many bytes the network's plan has: the header, the edges and the end.
fn encoded_length(network: &Network) -> usize
    ensures { result ≡ length (encode_of network.now) }
{
    let mut count = 6;
    for k in network.present.members() {
        count += edge_length(network, k);
    }
    count
}

// Lent memory that is written from the start on, and how many of its bytes are.
#[derive(Drop)]
struct Plan<'a> {
    bytes: &'a mut [u8],
    len: usize,
}

// Each method writes behind what is written.
impl Plan<'_> {
    // Writes bytes.
    fn put<const N: usize>(&mut self, bytes: [u8; N])
        requires { HasRoom self.old bytes }
        ensures { Appended self.old bytes.entry self.new }
    {
        let end = self.len + N;
        self.bytes[self.len..end].copy_from_slice(&bytes);
        self.len = end;
    }

    // Writes the command of a length: 4D, cable number, metres with the high byte first; of 0 metres nothing.
    fn length(&mut self, edge: u8, metres: u16)
        requires { HasRoom self.old (length_command edge metres) }
        ensures { Appended self.old (length_command edge metres) self.new }
    {
        let unmeasured = metres == 0;
        if unmeasured {
            return;
        }
        let [high, low] = metres.to_be_bytes();
        self.put([LENGTH, edge, high, low]);
    }

    // Writes the commands of an edge: 43, cable number, first end, second end, and its length.
    fn edge(&mut self, network: &Network, edge: u8)
        requires number { edge < 64 }
        requires room { HasRoom self.old (present_command network.now edge) }
        ensures { Appended self.old (present_command network.now edge) self.new }
    {
        let slot = edge as usize;
        let first = network.first[slot];
        let second = network.second[slot];
        self.put([EDGE, edge, first, second]);
        self.length(edge, network.metres[slot]);
    }

    // Writes the commands of the edges present, rising, after the header.
    fn edges(&mut self, network: &Network)
        requires header { self.old.len ≡ 5 }
        requires written { WrittenTo (encode_of network.now) self.old.bytes.now 5 self.old.bytes.now }
        ensures { EdgesAppended network.now self.old self.new }
    {
        for edge in network.present.members() {
            self.edge(network, edge as u8);
        }
    }
}

// The writer: the record's first fault, then 15; on refusal nothing is written.
pub fn encode(network: Network, plan: &mut [u8]) -> Result<usize, Refusal>
    ensures value { (encoded result ≡ encoded_by network plan.old) × (plan.new ≡ bytes_after network plan.old) }
    ensures means { WrittenMeans network (refusal_of result) (answer_of 0 result) plan.new }
{
    fault(network)?;
    let count = encoded_length(&network);
    if plan.len() < count {
        return Err(Refusal::BufferTooShort);
    }
    let mut written = Plan {
        bytes: plan,
        len: 0,
    };
    // 50, point count; 53, server, room.
    written.put([SIZE, network.nodes, TERMINALS, network.source, network.sink]);
    written.edges(&network);
    written.put([END]);
    Ok(count)
}
