// The relevant part of a network (the paper's useful part), the judging of a set of edges, and silence, by what is reached.
//
//   relevant         the relevant nodes and edges
//   classify         what a set of edges is: not a cut, a cut but not minimal, or minimal
//
// Every function that callers can name takes whatever it is given: none has a `requires`. For sibling crates alone:
//
//   part_of          the relevant part of an accepted network
//   severed          whether a set of edges severs, of an accepted network
//   settled          whether what is known of the set before still holds
#![tactic(auto)]

mod judging;
mod part;
mod silence;

pub use judging::{Verdict, classify};
pub use part::{RelevantPart, part_of, relevant};
pub use silence::{settled, severed};
