// Works during opening hours: how many minutes of a week lie in an opening window while the cables then out hold a minimal cut.
// `silent_minutes` takes whatever it is given.
#![tactic(auto)]

ghost use Rattle.std.specs.Prelude.{◌≡◌};
ghost use Rattle.network.specs.Refusals.{refusal_of, answer_of};
ghost use Rattle.network.specs.Record.{present};
ghost use Rattle.graph.specs.CutTests.{severed};
ghost use Rattle.windows.specs.Windows.{Works};
ghost use Rattle.maintenance.specs.Outage.{silent_minutes, outage, outage_of, OutageMeans};

use connectivity::{settled, severed};
use edge_set::EdgeSet;
use network::{Accepted, Network, Refusal, accept};
use windows::{WEEK, is_open, next_change, openings_fault, out_at, works_fault};

// The most windows of a kind.
const MAX_OPENINGS: usize = 14;

const MAX_WORKS: usize = 16;

// What is known of the room: whether it is silent while these edges are out.
#[derive(Clone, Copy)]
struct Room {
    out: EdgeSet,
    severs: bool,
}

impl Room {
    // The same with these edges out: a spread is made only where the answer can have changed.
    fn with_out(self, accepted: Accepted, out: EdgeSet) -> Room
        requires { self.severs ≡ severed accepted.network self.out.0 }
        ensures { (result.out ≡ out) × (result.severs ≡ severed accepted.network result.out.0) }
    {
        if settled(self.severs, self.out, out) {
            Room { out, ..self }
        } else {
            Room {
                out,
                severs: severed(accepted, out),
            }
        }
    }
}

// The silent minutes, from one change to the next and not minute by minute: at most one spread for each that is open. With every edge out
// the room is silent.
fn sweep(accepted: Accepted, openings: &[u16], works: &[u16]) -> u16
    requires { Works (present accepted.network) works.now }
    ensures { result ≡ silent_minutes accepted.network openings.now works.now }
{
    let mut minutes = 0;
    let mut minute = 0;
    let mut known = Room {
        out: accepted.network.present,
        severs: true,
    };
    while minute < WEEK {
        let next = next_change(openings, works, minute);
        if is_open(openings, minute) {
            known = known.with_out(accepted, out_at(works, minute));
            if known.severs {
                minutes += next - minute;
            }
        }
        minute = next;
    }
    minutes
}

// How many minutes of the week lie in an opening window while the edges then out hold a minimal cut. Opening windows are pairs of numbers,
// start and end; works windows are start, end and edge. The record's first fault, then 23; then, openings before works, 24 and 17.
pub fn silent_minutes(network: Network, openings: &[u16], works: &[u16]) -> Result<u16, Refusal>
    ensures value { outage result ≡ outage_of network openings.now works.now }
    ensures means { OutageMeans network openings.now works.now (refusal_of result) (answer_of 0 result) }
{
    let accepted = accept(network)?;
    if 2 * MAX_OPENINGS < openings.len() || 3 * MAX_WORKS < works.len() {
        return Err(Refusal::TooManyWindows);
    }
    openings_fault(openings)?;
    works_fault(network.present, works)?;
    Ok(sweep(accepted, openings, works))
}
