// The faults of windows.
ghost use Rattle.std.specs.Prelude.{◌≡◌};
ghost use Rattle.network.specs.Refusals.{refusal_of};
ghost use Rattle.windows.specs.Windows.{openings_fault, works_fault};

use crate::window::{Booking, Window};
use edge_set::EdgeSet;
use network::Refusal;

// The first fault of opening windows, then that of a piece of one.
pub fn openings_fault(openings: &[u16]) -> Result<(), Refusal>
    ensures { refusal_of result ≡ openings_fault openings.now }
{
    let (windows, half) = openings.as_chunks::<2>();
    for &[start, end] in windows {
        Window { start, end }.fault()?;
    }
    if half.is_empty() {
        Ok(())
    } else {
        Err(Refusal::BadWindow)
    }
}

// The first fault of works windows, then that of a piece of one. As of opening windows, but by threes and by another rule: one function for
// both would take the rule as a closure, and be longer than the two.
pub fn works_fault(present: EdgeSet, works: &[u16]) -> Result<(), Refusal>
    ensures { refusal_of result ≡ works_fault present.0 works.now }
{
    let (windows, piece) = works.as_chunks::<3>();
    for &[start, end, edge] in windows {
        let window = Window { start, end };
        Booking { window, edge }.fault(present)?;
    }
    if !piece.is_empty() {
        return Err(Refusal::BadWindow);
    }
    Ok(())
}
