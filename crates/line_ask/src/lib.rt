// What the desk is asked: the answers of its questions, and what stands on it, put into a lent buffer.
// Nothing here decides: what is right is said of the functions of the crates below, and here only that all stays in range and ends.
#![tactic(auto)]

pub mod asked;
mod report;
mod tallies;
