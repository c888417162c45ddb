// Graph theory of a network: routes, cuts, and what is relevant. Definitions and theory; of code there is the type of a relevant part alone.
#![tactic(auto)]

mod part;

pub use part::Part;
