// Menger's theorem for a network: the fewest edges of a cut, and the most minpaths of which no two share an edge.
#![tactic(auto)]
