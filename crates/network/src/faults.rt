// The record test, and the rules that it shares with the reader.
ghost use Rattle.std.specs.Prelude.{◌≡◌};
ghost use Rattle.node_set.specs.Width.{node_width};
ghost use Rattle.network.specs.Refusals.{number_of, refusal_of};
ghost use Rattle.network.specs.Record.{size_fault, outside_fault, terminal_fault, end_fault, absent_fault, slot_fault_of, slots_fault, fault_of, set_fault};
ghost use Rattle.network.specs.Rules.{FaultMeans};

use crate::{Network, Refusal};
use edge_set::EdgeSet;
use node_set::NODE_WIDTH;
use sets::BitSet;

pub fn size_fault(nodes: u8) -> Result<(), Refusal>
    ensures { refusal_of result ≡ size_fault node_width nodes }
{
    if nodes < 2 {
        return Err(Refusal::BadNodeCount);
    }
    let too_many = NODE_WIDTH < nodes as u32;
    if too_many {
        return Err(Refusal::BadNodeCount);
    }
    Ok(())
}

// The fault of two nodes that must both be below the node count.
fn outside_fault(refusal: Refusal, nodes: u8, a: u8, b: u8) -> Result<(), Refusal>
    ensures { refusal_of result ≡ outside_fault (number_of refusal) nodes a b }
{
    if nodes <= a {
        return Err(refusal);
    }
    let past = nodes <= b;
    if past {
        return Err(refusal);
    }
    Ok(())
}

pub fn terminal_fault(nodes: u8, source: u8, sink: u8) -> Result<(), Refusal>
    ensures { refusal_of result ≡ terminal_fault nodes source sink }
{
    outside_fault(Refusal::TerminalOutside, nodes, source, sink)?;
    if source == sink {
        return Err(Refusal::SameTerminals);
    }
    Ok(())
}

// An edge's two ends may be one node: a loop.
pub fn end_fault(nodes: u8, first: u8, second: u8) -> Result<(), Refusal>
    ensures { refusal_of result ≡ end_fault nodes first second }
{
    outside_fault(Refusal::EndOutside, nodes, first, second)
}

fn absent_fault(first: u8, second: u8, metres: u16) -> Result<(), Refusal>
    ensures { refusal_of result ≡ absent_fault first second metres }
{
    if 0 < first {
        return Err(Refusal::AbsentEdgeNotZero);
    }
    let joined = 0 < second;
    if joined {
        return Err(Refusal::AbsentEdgeNotZero);
    }
    let measured = 0 < metres;
    if measured {
        return Err(Refusal::AbsentEdgeNotZero);
    }
    Ok(())
}

// The fault of a slot that holds these ends and metres, with its edge present or not.
fn slot_fault(nodes: u8, present: bool, first: u8, second: u8, metres: u16) -> Result<(), Refusal>
    ensures { refusal_of result ≡ slot_fault_of nodes (present, first, second, metres) }
{
    if present {
        end_fault(nodes, first, second)
    } else {
        absent_fault(first, second, metres)
    }
}

// The first fault of the slots, rising.
fn slots_fault(network: Network) -> Result<(), Refusal>
    ensures { refusal_of result ≡ slots_fault network 0 64 }
{
    let present = network.present;
    for k in 0..64 {
        let slot = k as usize;
        slot_fault(
            network.nodes,
            present.contains(k),
            network.first[slot],
            network.second[slot],
            network.metres[slot],
        )?;
    }
    Ok(())
}

// The record test: the record's first fault.
pub fn fault(network: Network) -> Result<(), Refusal>
    ensures value { refusal_of result ≡ fault_of network }
    ensures means { FaultMeans network (refusal_of result) }
{
    size_fault(network.nodes)?;
    terminal_fault(network.nodes, network.source, network.sink)?;
    slots_fault(network)
}

// The refusal of a call on a record and a set of its edges: the record's first fault, then 14.
pub fn set_fault(network: Network, set: EdgeSet) -> Result<(), Refusal>
    ensures { refusal_of result ≡ set_fault network set.0 }
{
    fault(network)?;
    if !set.is_subset(network.present) {
        return Err(Refusal::EdgeNotPresent);
    }
    Ok(())
}
