// The reader: `decode`, from bytes to a record. It takes whatever it is given.
#![tactic(auto)]

mod command;
mod decoding;
mod held;

pub use decoding::decode;
