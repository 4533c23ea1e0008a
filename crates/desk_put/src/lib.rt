// A place handled: a piece put down at it, or the place emptied, with all that follows: its rows, the tallies and the marks.
// The functions ask for a desk in order and for numbers in range; the commands test both first.
#![tactic(auto)]

mod empty;
mod put;
mod renew;

pub use empty::empty_place;
pub use put::put_place;
