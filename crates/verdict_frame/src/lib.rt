// Where a walk starts: three independent points of the difference of two corner lists, widened by a gap, or made thick where it is flat.
// The portal that they make, and the shift of the weak walk.
#![tactic(auto)]

mod frame;
mod scan;
mod start;
mod thick;

pub use frame::{Frame, frame_of};
pub use start::{frame_places, shift_of, start_of};
