// The complete list of a network's mincuts, rising, each beside its source side, in lent rows.
#![tactic(auto)]

mod lister;

pub use lister::{list, list_trimmed};
