// A command's line and its answer: the parts of the line, how much of a buffer a command is lent, and the answer put into a lent buffer.
// No desk is known here, so this is proved before there is one. Nothing here decides: that all stays in range and ends is what is said.
#![tactic(auto)]

pub mod kinds;
pub mod lent;
pub mod names;
pub mod out;
pub mod parts;
