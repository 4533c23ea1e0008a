// The commands that the desk has no part in: on texts, on floats, on files and on two lists of placed corners.
// Nothing here decides: what is right is said of the functions of the crates below, and here only that all stays in range and ends.
#![tactic(auto)]

pub mod files;
pub mod floats;
mod listing;
pub mod lists;
pub mod texts;
