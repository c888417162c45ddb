// The functions for other languages: each takes numbers, lent slices and lent arrays, and whatever it is given.
//
// A network crosses the border field by field: the counts and the set of edges as numbers, ends and metres as arrays of 64.
// A slice passes as a pointer and a length, an array or a single number as a pointer.
#![tactic(auto)]

ghost use Rattle.std.specs.Prelude.{◌≡◌};
ghost use Rattle.network.specs.Refusals.{refusal_of, answer_of};
ghost use Rattle.network.specs.Record.{assembled, fault_of};
ghost use Rattle.network.specs.Rules.{FaultMeans};
ghost use Rattle.widths.specs.Widths.{WidthsMean};
ghost use Rattle.format.specs.Meaning.{ReadMeans, WrittenMeans};
ghost use Rattle.connectivity.specs.Answers.{PartMeans};
ghost use Rattle.lengths.specs.Lengths.{TotalMeans};
ghost use Rattle.listing.specs.List.{Listing, ListMeans};
ghost use Rattle.listing.specs.Trimmed.{TrimmedListing, TrimmedMeans};
ghost use Rattle.rooms.specs.declared.Extent.TheVariants.{Any, All};
ghost use Rattle.rooms.specs.Rooms.{RoomsListing, RoomsMean};
ghost use Rattle.replay.specs.Replay.{ReplayMeans};
ghost use Rattle.maintenance.specs.Outage.{OutageMeans};
ghost use Rattle.simulation.specs.Simulation.{SimulationMeans};
ghost use Rattle.capi.specs.Fields.{Read, Written, Found, Judged, JudgedMeans, Played, Counted, Drilled, Total, Tabled};

use connectivity::RelevantPart;
use edge_set::EdgeSet;
use network::{Network, Refusal};
use node_set::{NodeSet, NodeWord};
use simulation::Simulated;

// What is handed over where a plan is refused.
const NO_NETWORK: Network = Network {
    nodes: 0,
    source: 0,
    sink: 0,
    present: EdgeSet(0),
    first: [0; 64],
    second: [0; 64],
    metres: [0; 64],
};

// An answer in numbers: that of the refusal, 0 if there is none, beside what the answer gives, or what stands for it where it is refused.
fn told<T: Copy>(answer: Result<T, Refusal>, refused: T) -> (u8, T)
    ensures { (result.0 ≡ refusal_of answer) × (result.1 ≡ answer_of refused answer) }
{
    match answer {
        Ok(given) => (0, given),
        Err(refusal) => (u8::from(refusal), refused),
    }
}

// Reads a plan. Gives the refusal's number, 0 if there is none, and fills in the record, all zero on refusal.
#[unsafe(no_mangle)]
pub extern "C" fn cutlist_decode(
    plan: &[u8],
    nodes: &mut u8,
    source: &mut u8,
    sink: &mut u8,
    present: &mut u64,
    first: &mut [u8; 64],
    second: &mut [u8; 64],
    metres: &mut [u16; 64],
) -> u8
    ensures read { Read plan.now result
        (assembled nodes.new source.new sink.new present.new first.new second.new metres.new) }
    ensures means { ReadMeans plan.now result
        (assembled nodes.new source.new sink.new present.new first.new second.new metres.new) }
{
    let (refusal, read) = told(reader::decode(plan), NO_NETWORK);
    let edges = read.present;
    let firsts = read.first;
    let seconds = read.second;
    let lengths = read.metres;
    *nodes = read.nodes;
    *source = read.source;
    *sink = read.sink;
    *present = edges.0;
    *first = firsts;
    *second = seconds;
    *metres = lengths;
    refusal
}

// The record of the fields that a caller lends.
fn assemble(
    nodes: u8,
    source: u8,
    sink: u8,
    present: u64,
    first: &[u8; 64],
    second: &[u8; 64],
    metres: &[u16; 64],
) -> Network
    ensures { result ≡ assembled nodes source sink present first.now second.now metres.now }
{
    let firsts = *first;
    let seconds = *second;
    let lengths = *metres;
    Network {
        nodes,
        source,
        sink,
        present: EdgeSet(present),
        first: firsts,
        second: seconds,
        metres: lengths,
    }
}

// Tests a record. Gives the number of its first fault, 0 if it has none.
#[unsafe(no_mangle)]
pub extern "C" fn cutlist_fault(
    nodes: u8,
    source: u8,
    sink: u8,
    present: u64,
    first: &[u8; 64],
    second: &[u8; 64],
    metres: &[u16; 64],
) -> u8
    ensures value { result ≡ fault_of (assembled nodes source sink present first.now second.now metres.now) }
    ensures means { FaultMeans (assembled nodes source sink present first.now second.now metres.now) result }
{
    let to_test = assemble(nodes, source, sink, present, first, second, metres);
    let (refusal, _) = told(network::fault(to_test), ());
    refusal
}

// Writes a record into a lent buffer. Gives the refusal's number, 0 if there is none, and the count of bytes written, 0 on refusal.
#[unsafe(no_mangle)]
pub extern "C" fn cutlist_encode(
    nodes: u8,
    source: u8,
    sink: u8,
    present: u64,
    first: &[u8; 64],
    second: &[u8; 64],
    metres: &[u16; 64],
    plan: &mut [u8],
    count: &mut usize,
) -> u8
    ensures written { Written (assembled nodes source sink present first.now second.now metres.now) plan.old result count.new plan.new }
    ensures means { WrittenMeans (assembled nodes source sink present first.now second.now metres.now) result count.new plan.new }
{
    let to_write = assemble(nodes, source, sink, present, first, second, metres);
    let (refusal, written) = told(writer::encode(to_write, plan), 0);
    *count = written;
    refusal
}

// Finds the relevant nodes and edges. Gives the refusal's number, 0 if there is none, and fills in both sets, empty on refusal.
#[unsafe(no_mangle)]
pub extern "C" fn cutlist_relevant(
    nodes: u8,
    source: u8,
    sink: u8,
    present: u64,
    first: &[u8; 64],
    second: &[u8; 64],
    metres: &[u16; 64],
    node_set: &mut NodeWord,
    edge_set: &mut u64,
) -> u8
    ensures found { Found (assembled nodes source sink present first.now second.now metres.now) result node_set.new edge_set.new }
    ensures means { PartMeans (assembled nodes source sink present first.now second.now metres.now) result node_set.new edge_set.new }
{
    let to_trim = assemble(nodes, source, sink, present, first, second, metres);
    let nothing = RelevantPart {
        nodes: NodeSet(0),
        edges: EdgeSet(0),
    };
    let (refusal, part) = told(connectivity::relevant(to_trim), nothing);
    let relevant_nodes = part.nodes;
    let relevant_edges = part.edges;
    *node_set = relevant_nodes.0;
    *edge_set = relevant_edges.0;
    refusal
}

// Judges a set of edges. Gives the refusal's number, 0 if there is none, and fills in the verdict:
// 1 not a cut, 2 a cut but not minimal, 3 minimal; 0 on refusal.
#[unsafe(no_mangle)]
pub extern "C" fn cutlist_classify(
    nodes: u8,
    source: u8,
    sink: u8,
    present: u64,
    first: &[u8; 64],
    second: &[u8; 64],
    metres: &[u16; 64],
    set: u64,
    verdict: &mut u8,
) -> u8
    ensures judged { Judged (assembled nodes source sink present first.now second.now metres.now) set result verdict.new }
    ensures means { JudgedMeans (assembled nodes source sink present first.now second.now metres.now) set result verdict.new }
{
    let to_judge = assemble(nodes, source, sink, present, first, second, metres);
    match connectivity::classify(to_judge, EdgeSet(set)) {
        Ok(judged) => {
            *verdict = u8::from(judged);
            0
        }
        Err(refusal) => {
            *verdict = 0;
            u8::from(refusal)
        }
    }
}

// Gives the total metres of a set of edges, to which one that is not measured adds 0. Gives the refusal's number, 0 if there is none, and
// fills in the total, 0 on refusal.
#[unsafe(no_mangle)]
pub extern "C" fn cutlist_metres(
    nodes: u8,
    source: u8,
    sink: u8,
    present: u64,
    first: &[u8; 64],
    second: &[u8; 64],
    metres: &[u16; 64],
    set: u64,
    total: &mut u32,
) -> u8
    ensures total { Total (assembled nodes source sink present first.now second.now metres.now) set result total.new }
    ensures means { TotalMeans (assembled nodes source sink present first.now second.now metres.now) set result total.new }
{
    let to_measure = assemble(nodes, source, sink, present, first, second, metres);
    let (refusal, measured) = told(lengths::total(to_measure, EdgeSet(set)), 0);
    *total = measured;
    refusal
}

// Lists the minimal cuts, rising, each beside its near side. Gives the refusal's number, 0 if there is none, and the count of rows listed,
// 0 on refusal, when no row changes.
#[unsafe(no_mangle)]
pub extern "C" fn cutlist_list(
    nodes: u8,
    source: u8,
    sink: u8,
    present: u64,
    first: &[u8; 64],
    second: &[u8; 64],
    metres: &[u16; 64],
    cuts: &mut [u64],
    sides: &mut [NodeWord],
    count: &mut usize,
) -> u8
    ensures listing { Listing (assembled nodes source sink present first.now second.now metres.now) cuts.old sides.old
        result count.new cuts.new sides.new }
    ensures means { ListMeans (assembled nodes source sink present first.now second.now metres.now) cuts.old sides.old
        result count.new cuts.new sides.new }
{
    let to_list = assemble(nodes, source, sink, present, first, second, metres);
    let (refusal, listed) = told(listing::list(to_list, cuts, sides), 0);
    *count = listed;
    refusal
}

// Lists the minimal cuts of a plan that was trimmed already, as `cutlist_list` does, with a test in place of the trimming. Gives the refusal's
// number, 0 if there is none, and the count of rows listed, 0 on refusal, when no row changes.
#[unsafe(no_mangle)]
pub extern "C" fn cutlist_list_trimmed(
    nodes: u8,
    source: u8,
    sink: u8,
    present: u64,
    first: &[u8; 64],
    second: &[u8; 64],
    metres: &[u16; 64],
    cuts: &mut [u64],
    sides: &mut [NodeWord],
    count: &mut usize,
) -> u8
    ensures trimmed_listing { TrimmedListing (assembled nodes source sink present first.now second.now metres.now) cuts.old sides.old
        result count.new cuts.new sides.new }
    ensures means { TrimmedMeans (assembled nodes source sink present first.now second.now metres.now) cuts.old sides.old
        result count.new cuts.new sides.new }
{
    let offered = assemble(nodes, source, sink, present, first, second, metres);
    let (not_listed, trimmed) = told(listing::list_trimmed(offered, cuts, sides), 0);
    *count = trimmed;
    not_listed
}

// Lists the minimal sets of edges that silence at least one of the rooms, rising. Gives the refusal's number, 0 if there is none, and the
// count of rows listed, 0 on refusal, when no row for cuts changes. The work rows are all 0 afterwards, but untouched where record or rooms
// are refused.
#[unsafe(no_mangle)]
pub extern "C" fn cutlist_list_any(
    nodes: u8,
    source: u8,
    sink: u8,
    present: u64,
    first: &[u8; 64],
    second: &[u8; 64],
    metres: &[u16; 64],
    rooms: &[u8],
    cuts: &mut [u64],
    work: &mut [u64],
    count: &mut usize,
) -> u8
    ensures rooms_listing { RoomsListing Any (assembled nodes source sink present first.now second.now metres.now) «rooms».now cuts.old work.old
        result count.new cuts.new work.new }
    ensures means { RoomsMean Any (assembled nodes source sink present first.now second.now metres.now) «rooms».now cuts.old work.old
        result count.new cuts.new }
{
    let with_any = assemble(nodes, source, sink, present, first, second, metres);
    let (refusal, listed) = told(rooms::list_any(with_any, rooms, cuts, work), 0);
    *count = listed;
    refusal
}

// Lists the minimal sets of edges that silence every one of the rooms, as `cutlist_list_any` those that silence at least one.
#[unsafe(no_mangle)]
pub extern "C" fn cutlist_list_all(
    nodes: u8,
    source: u8,
    sink: u8,
    present: u64,
    first: &[u8; 64],
    second: &[u8; 64],
    metres: &[u16; 64],
    rooms: &[u8],
    cuts: &mut [u64],
    work: &mut [u64],
    count: &mut usize,
) -> u8
    ensures rooms_listing { RoomsListing All (assembled nodes source sink present first.now second.now metres.now) «rooms».now cuts.old work.old
        result count.new cuts.new work.new }
    ensures means { RoomsMean All (assembled nodes source sink present first.now second.now metres.now) «rooms».now cuts.old work.old
        result count.new cuts.new }
{
    let with_all = assemble(nodes, source, sink, present, first, second, metres);
    let (refusal, listed) = told(rooms::list_all(with_all, rooms, cuts, work), 0);
    *count = listed;
    refusal
}

// Plays a link log back. Gives the refusal's number, 0 if there is none, and the count of bytes written, 0 on refusal.
#[unsafe(no_mangle)]
pub extern "C" fn cutlist_replay(
    nodes: u8,
    source: u8,
    sink: u8,
    present: u64,
    first: &[u8; 64],
    second: &[u8; 64],
    metres: &[u16; 64],
    log: &[u8],
    silent: &mut [u8],
    count: &mut usize,
) -> u8
    ensures played { Played (assembled nodes source sink present first.now second.now metres.now) log.now silent.old
        result count.new silent.new }
    ensures means { ReplayMeans (assembled nodes source sink present first.now second.now metres.now) log.now silent.old
        result count.new silent.new }
{
    let cabled = assemble(nodes, source, sink, present, first, second, metres);
    let (refusal, replayed) = told(replay::replay(cabled, log, silent), 0);
    *count = replayed;
    refusal
}

// Counts the minutes of a week in which the room is open and the edges then out hold a minimal cut. Gives the refusal's number, 0 if there
// is none, and fills in the minutes, 0 on refusal.
#[unsafe(no_mangle)]
pub extern "C" fn cutlist_silent_minutes(
    nodes: u8,
    source: u8,
    sink: u8,
    present: u64,
    first: &[u8; 64],
    second: &[u8; 64],
    metres: &[u16; 64],
    openings: &[u16],
    works: &[u16],
    minutes: &mut u16,
) -> u8
    ensures counted { Counted (assembled nodes source sink present first.now second.now metres.now) openings.now works.now result minutes.new }
    ensures means { OutageMeans (assembled nodes source sink present first.now second.now metres.now) openings.now works.now result minutes.new }
{
    let scheduled = assemble(nodes, source, sink, present, first, second, metres);
    let outage = maintenance::silent_minutes(scheduled, openings, works);
    let (refusal, counted) = told(outage, 0);
    *minutes = counted;
    refusal
}

// Drills a hall from a start number on: in each step each cable present takes one draw, by which it fails or is repaired. Gives the refusal's
// number, 0 if there is none, and fills in how many steps end with a minimal cut wholly down and the final number, both 0 on refusal.
#[unsafe(no_mangle)]
pub extern "C" fn cutlist_simulate(
    nodes: u8,
    source: u8,
    sink: u8,
    present: u64,
    first: &[u8; 64],
    second: &[u8; 64],
    metres: &[u16; 64],
    start: u64,
    failure: u8,
    repair: u8,
    steps: u64,
    silent: &mut u64,
    number: &mut u64,
) -> u8
    ensures drilled { Drilled (assembled nodes source sink present first.now second.now metres.now) start failure repair steps result silent.new number.new }
    ensures means { SimulationMeans (assembled nodes source sink present first.now second.now metres.now) start failure repair steps result silent.new number.new }
{
    let drilled = assemble(nodes, source, sink, present, first, second, metres);
    let nothing = Simulated {
        silent: 0,
        number: 0,
    };
    let simulated = simulation::simulate(drilled, start, failure, repair, steps);
    let (refusal, counted) = told(simulated, nothing);
    *silent = counted.silent;
    *number = counted.number;
    refusal
}

// Counts the rows of a list by width, the number of different pairs of points that a row's cables join. Gives the refusal's number, 0 if
// there is none, and fills in the table, how many rows have width 0, 1 .. 64, all 0 on refusal.
#[unsafe(no_mangle)]
pub extern "C" fn cutlist_widths(
    nodes: u8,
    source: u8,
    sink: u8,
    present: u64,
    first: &[u8; 64],
    second: &[u8; 64],
    metres: &[u16; 64],
    cuts: &[u64],
    table: &mut [u64; 65],
) -> u8
    ensures tabled { Tabled (assembled nodes source sink present first.now second.now metres.now) cuts.now result table.new }
    ensures means { WidthsMean (assembled nodes source sink present first.now second.now metres.now) cuts.now result table.new }
{
    let to_count = assemble(nodes, source, sink, present, first, second, metres);
    // No table is handed on but the one: a caller has less than 3 KiB to lend.
    match widths::width_table(to_count, cuts) {
        Ok(counts) => {
            *table = counts;
            0
        }
        Err(refusal) => {
            *table = [0; 65];
            u8::from(refusal)
        }
    }
}
