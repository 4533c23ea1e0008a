// The box of each shape, found by one visit of its corners, and what a turn and an offset make of it (request W3).
// The ends of every piece, and so the keys of all marks, are worked out of the boxes: no corner is looked at again.
#![tactic(auto)]

pub mod apart;
pub mod boxes;
pub mod keys;
