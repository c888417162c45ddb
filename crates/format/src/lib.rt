// The bytes of a network (the paper's section "Plan and bytes"): what the commands are, and what each gives the reader.
// Definitions and theory alone; the code is in `reader` and `writer`.
#![tactic(auto)]

use network::Refusal;

pub mod command;

// The command that the reader waits for: 50; 53, with the number of nodes; 43 or 45, with the number of nodes and the least edge
// number allowed; a 4D that may stand there, with the number of the edge just before.
// It is a value, and no closure, since the reader sees the bytes through one function for every command.
#[derive(Clone, Copy)]
pub enum Awaited {
    Size,
    Terminals(u8),
    Edge(u8, u8),
    Length(u8),
}

// What a command gives: its values, the end, or a refusal.
// A refusal is one case of it, and no error beside it: each step of the reader is to answer an enum that `let .. else` takes apart
// (docs/DECISIONS.md, "Forms of 01").
#[derive(Clone, Copy)]
pub enum Step {
    Size(u8),
    Terminals(u8, u8),
    Edge(u8, u8, u8),
    Length(u16),
    End,
    Refused(Refusal),
}
