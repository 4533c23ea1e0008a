// The walk through the difference of two corner lists: support, the loop from portal to portal, and the pairs of a meeting.
// Where it starts, the crate `verdict_frame` says; what its ends say of the two pieces, the crate `verdict` makes an answer of.
#![tactic(auto)]

mod gather;
mod path;
mod support;

pub use gather::gathered_of;
pub use path::{Ended, Portal, walk};
pub use support::{Difference, corner, cube_of, signed};
