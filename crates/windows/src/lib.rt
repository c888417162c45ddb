// The windows of a week: what is open and what is out in a minute, when that next changes, and the faults of windows. Each kind is lent as
// numbers, window after window: start and end, and for works then the edge. For sibling crates alone:
//
//   WEEK             the minutes of a week
//   is_open          whether a minute is open
//   out_at           the edges out in a minute
//   next_change      when a window next starts or ends
//   openings_fault   the first fault of opening windows
//   works_fault      the first fault of works windows
#![tactic(auto)]

mod changes;
mod faults;
mod minute;
mod window;

pub use changes::next_change;
pub use faults::{openings_fault, works_fault};
pub use minute::{is_open, out_at};

pub const WEEK: u16 = 10080;
