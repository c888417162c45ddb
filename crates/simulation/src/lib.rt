// A drill with drawn failures: step by step, present cables fail and are repaired as numbers are drawn, and the steps that end with a
// minimal cut wholly down are counted. `simulate` takes whatever it is given.
#![tactic(auto)]

ghost use Rattle.std.specs.Prelude.{◌≡◌, ◌≤◌, ◌<◌, ltb};
ghost use Rattle.bitset.specs.Members.{add_if, members};
ghost use Rattle.network.specs.Record.{present};
ghost use Rattle.simulation.specs.Steps.{after_draws, step, state_after};
ghost use Rattle.simulation.specs.Simulation.{silent_steps, tallied, simulated_by, SimulationMeans};

use connectivity::{settled, severed};
use edge_set::EdgeSet;
use generator::{advance, draw};
use network::{Accepted, Network, Refusal, accept};
use sets::BitSet;

// The most steps of a drill.
const MAX_STEPS: u64 = 65535;

// What a drill gives: the steps that count, and the final number.
#[derive(Clone, Copy)]
pub struct Simulated {
    pub silent: u64,
    pub number: u64,
}

// Where a drill has come to: the number last drawn from, and the edges down.
#[derive(Clone, Copy)]
struct State {
    number: u64,
    down: EdgeSet,
}

// The set with the edge, if its draw is below the setting. Without a branch: nothing foretells a draw.
fn add_below(set: EdgeSet, edge: u32, drawn: u8, setting: u8) -> EdgeSet
    requires { edge < 64 }
    ensures { result.0 ≡ add_if (ltb drawn setting) set.0 edge }
{
    let below = drawn < setting;
    set.union(EdgeSet((below as u64) << edge))
}

// The edges down after a step, where the draws of some were below the failure setting and those of some below the repair setting: what was
// down and is not repaired, and what was up and fails.
fn after_draws(down: EdgeSet, failing: EdgeSet, repaired: EdgeSet) -> EdgeSet
    ensures { result.0 ≡ after_draws down.0 failing.0 repaired.0 }
{
    down.difference(repaired).union(failing.difference(down))
}

impl State {
    // A step: each of these edges, in rising order, takes one draw.
    fn step(self, failure: u8, repair: u8, edges: EdgeSet) -> State
        ensures { result ≡ step failure repair (members 64 edges.0) self }
    {
        let mut number = self.number;
        let mut failing = EdgeSet::empty();
        let mut repaired = EdgeSet::empty();
        for edge in edges.members() {
            number = advance(number);
            let drawn = draw(number);
            failing = add_below(failing, edge, drawn, failure);
            repaired = add_below(repaired, edge, drawn, repair);
        }
        State {
            number,
            down: after_draws(self.down, failing, repaired),
        }
    }
}

// The drill of an accepted record. Whether the room is silent before a step is known, so that a spread is made only where it can change.
fn run(accepted: Accepted, start: u64, failure: u8, repair: u8, steps: u64) -> Simulated
    requires { steps ≤ 65535 }
    ensures { (result.silent ≡ silent_steps accepted.network start failure repair steps)
        × (result.number ≡ (state_after (present accepted.network) start failure repair steps).number) }
{
    let edges = accepted.network.present;
    let mut state = State {
        number: start,
        down: EdgeSet::empty(),
    };
    let mut severs = severed(accepted, state.down);
    let mut silent = 0;
    for _ in 0..steps {
        // The two settings are handed on one by one and not in a struct: drill_settings_exchanged exchanges them here.
        let next = state.step(failure, repair, edges);
        // The sets before and after a step stand here, and not in a struct that a log and a week of works would share:
        // drill_spread_before_the_step takes the one for the other.
        if !settled(severs, state.down, next.down) {
            severs = severed(accepted, next.down);
        }
        if severs {
            silent += 1;
        }
        state = next;
    }
    Simulated {
        silent,
        number: state.number,
    }
}

// Drills a hall: from the start number on, each present edge takes one draw in each step, by which it fails or is repaired. Gives how many
// of the steps end with a minimal cut wholly down, and the final number. The record's first fault, then 25.
pub fn simulate(
    network: Network,
    start: u64,
    failure: u8,
    repair: u8,
    steps: u64,
) -> Result<Simulated, Refusal>
    ensures value { tallied result ≡ simulated_by network start failure repair steps }
    ensures means { let answer = tallied result in
        SimulationMeans network start failure repair steps answer.refusal answer.silent answer.number }
{
    let accepted = accept(network)?;
    if MAX_STEPS < steps {
        return Err(Refusal::TooManySteps);
    }
    Ok(run(accepted, start, failure, repair, steps))
}
