// One minute of the week: whether it is open, and which edges are out.
ghost use Rattle.std.specs.Prelude.{◌≡◌, ℕ, ◌^◌, ◌<◌};
ghost use Rattle.windows.specs.Windows.{is_open, out_at, Works};

use crate::window::{Booking, Window};
use edge_set::EdgeSet;
use sets::BitSet;

// Whether some opening window holds the minute.
pub fn is_open(openings: &[u16], minute: u16) -> bool
    ensures { result ≡ is_open openings.now minute }
{
    let (windows, _) = openings.as_chunks::<2>();
    windows
        .iter()
        .any(|&[start, end]| Window { start, end }.covers(minute))
}

// The edges out in the minute, of works without fault.
pub fn out_at(works: &[u16], minute: u16) -> EdgeSet
    requires { (p : ℕ) × (p < 2 ^ 64) × Works p works.now }
    ensures { result.0 ≡ out_at works.now minute }
{
    let mut out = EdgeSet::empty();
    let (windows, _) = works.as_chunks::<3>();
    for &[start, end, edge] in windows {
        let window = Window { start, end };
        out = Booking { window, edge }.book(out, minute);
    }
    out
}
