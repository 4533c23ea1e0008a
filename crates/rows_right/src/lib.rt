// Pairs of pieces: the right row of two taken places, and the rows of a handled piece with every other.
// The functions ask for shapes and places in order; whoever calls them has tested that.
#![tactic(auto)]

pub mod row;
