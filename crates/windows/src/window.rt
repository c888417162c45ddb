// A window and a works window, taken off the numbers that are lent.
ghost use Rattle.std.specs.Prelude.{◌≡◌, ◌<◌};
ghost use Rattle.bitset.specs.Members.{add_if};
ghost use Rattle.network.specs.Refusals.{refusal_of};
ghost use Rattle.windows.specs.Windows.{covers, window_fault, booking_fault};

use crate::WEEK;
use edge_set::EdgeSet;
use network::Refusal;
use sets::BitSet;

// It holds its start and not its end.
#[derive(Clone, Copy)]
pub(crate) struct Window {
    pub(crate) start: u16,
    pub(crate) end: u16,
}

impl Window {
    pub(crate) fn covers(self, minute: u16) -> bool
        ensures { result ≡ covers self.start self.end minute }
    {
        self.start <= minute && minute < self.end
    }

    pub(crate) fn fault(self) -> Result<(), Refusal>
        ensures { refusal_of result ≡ window_fault self.start self.end }
    {
        if self.end <= self.start || WEEK < self.end {
            return Err(Refusal::BadWindow);
        }
        Ok(())
    }
}

// The edge is out in the minutes of the window.
#[derive(Clone, Copy)]
pub(crate) struct Booking {
    pub(crate) window: Window,
    pub(crate) edge: u16,
}

impl Booking {
    // The edges out, with this one if the window holds the minute.
    pub(crate) fn book(self, out: EdgeSet, minute: u16) -> EdgeSet
        requires { self.edge < 64 }
        ensures { result.0 ≡ add_if (covers self.window.start self.window.end minute) out.0 self.edge }
    {
        if self.window.covers(minute) {
            out.with(self.edge as u32)
        } else {
            out
        }
    }

    // The fault, where these edges are present: 24, then 17.
    pub(crate) fn fault(self, present: EdgeSet) -> Result<(), Refusal>
        ensures { refusal_of result ≡ booking_fault present.0 self.window.start self.window.end self.edge }
    {
        self.window.fault()?;
        if !present.contains(self.edge as u32) {
            return Err(Refusal::NoSuchEdge);
        }
        Ok(())
    }
}
