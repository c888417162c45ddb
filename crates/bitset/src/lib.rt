// Sets of small numbers, each kept in one number: member k weighs 2 ^ k. Definitions and laws alone, for every width; the code is
// in `sets`.
#![tactic(auto)]
