// The reader: the commands in their order, read into a network. It reads the bytes through `next_command` alone.
ghost use Rattle.std.specs.Prelude.{◌≡◌, ◌<◌, ℕ, drop};
ghost use Rattle.network.specs.Record.{bare, no_network, with_edge};
ghost use Rattle.network.specs.Refusals.{refusal_of, answer_of};
ghost use Rattle.format.specs.Format.{Outcome, outcome_of, told, decoded, refuse, length_size, walk, decode_of};
ghost use Rattle.format.specs.Meaning.{ReadMeans};

use crate::held::next_command;
use edge_set::EdgeSet;
use format::{Awaited, Step};
use network::{Network, Refusal};
use sets::BitSet;

// A network without edges.
fn bare_network(nodes: u8, source: u8, sink: u8) -> Network
    ensures { result ≡ bare nodes source sink }
{
    Network {
        nodes,
        source,
        sink,
        present: EdgeSet::empty(),
        first: [0u8; 64],
        second: [0u8; 64],
        metres: [0u16; 64],
    }
}

// Puts one edge more into the network.
fn put_edge(network: &mut Network, edge: u8, first: u8, second: u8, metres: u16)
    requires { edge < 64 }
    ensures { network.new ≡ with_edge network.old edge first second metres }
{
    let at = edge as usize;
    network.present = network.present.with(edge as u32);
    network.first[at] = first;
    network.second[at] = second;
    network.metres[at] = metres;
}

// How many bytes there are of a length: none of 0 metres.
fn length_size(metres: u16) -> usize
    ensures { result ≡ length_size metres }
{
    if metres == 0 { 0 } else { 4 }
}

// The answer where a step is refused.
fn refused(step: Step) -> Result<Network, Refusal>
    requires { (r : ℕ) × (outcome_of step ≡ Outcome.Refused r) }
    ensures { decoded result ≡ refuse (told (outcome_of step)).number }
{
    let Step::Refused(refusal) = step else {
        unreachable!()
    };
    Err(refusal)
}

// The edge commands from the offset `from` on, each with its length, and the end, read into a network. An offset is handed on and not a slice
// of what is left, since the reader sees the plan held beside an offset; and no `for` goes through commands, whose lengths differ.
fn decode_edges(plan: &[u8], from: usize, bare: Network) -> Result<Network, Refusal>
    ensures { decoded result ≡ walk bare 0 (drop from plan.now) }
{
    let mut network = bare;
    let mut next: u8 = 0;
    let mut at = from;
    loop {
        let step = next_command(plan, at, Awaited::Edge(network.nodes, next));
        if let Step::End = step {
            return Ok(network);
        }
        let Step::Edge(edge, first, second) = step else {
            return refused(step);
        };
        let length = next_command(plan, at + 4, Awaited::Length(edge));
        let Step::Length(metres) = length else {
            return refused(length);
        };
        put_edge(&mut network, edge, first, second, metres);
        next = edge + 1;
        at += 4 + length_size(metres);
    }
}

// The reader: the first command that fails decides.
pub fn decode(plan: &[u8]) -> Result<Network, Refusal>
    ensures value { decoded result ≡ decode_of plan.now }
    ensures means { ReadMeans plan.now (refusal_of result) (answer_of no_network result) }
{
    let size = next_command(plan, 0, Awaited::Size);
    let Step::Size(nodes) = size else {
        return refused(size);
    };
    let terminals = next_command(plan, 2, Awaited::Terminals(nodes));
    let Step::Terminals(source, sink) = terminals else {
        return refused(terminals);
    };
    decode_edges(plan, 5, bare_network(nodes, source, sink))
}
