// The network record (the paper's plan record) and its test. The rules of the test are open to the reader, which keeps them too.
//
//   Refusal          why a call is refused
//   fault            the record test
//   Accepted         a network that passes it, made by `accept`
//   set_fault        the record test, and that a set of edges is of edges present
//   size_fault, terminal_fault, end_fault     its rules for the values of one command
//
// Every function that callers can name takes whatever it is given: none has a `requires`.
#![tactic(auto)]

use edge_set::EdgeSet;

mod accepted;
mod faults;
mod refusal;

pub use accepted::{Accepted, accept};
pub use faults::{end_fault, fault, set_fault, size_fault, terminal_fault};
pub use refusal::Refusal;

// A network: `nodes` points numbered from 0, the server `source`, the room `sink`, and up to 64 cables.
// Edge k is `first[k]` - `second[k]` if it is in `present`, and `metres[k]` long, 0 meaning not measured; an absent edge has 0 for all three.
// Three arrays in place of one of edges: C lends them so, and the definitions (`first_end`, `second_end`, `metres_of`) read them so.
#[derive(Clone, Copy)]
pub struct Network {
    pub nodes: u8,
    pub source: u8,
    pub sink: u8,
    pub present: EdgeSet,
    pub first: [u8; 64],
    pub second: [u8; 64],
    pub metres: [u16; 64],
}
