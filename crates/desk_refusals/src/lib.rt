// What each part of a command's numbers is refused for (specs/Parts.antt).
// Shapes, places and offsets are asked one part at a time; the desk puts the parts together.
#![tactic(auto)]

pub mod asked;
