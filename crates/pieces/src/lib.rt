// Shapes and places as the desk lends them, and the pieces that they make: taken places and placed corners.
// The functions over pieces ask for shapes and places in order; the order test itself is in a crate of its own.
#![tactic(auto)]

pub mod index;
pub mod placed;
pub mod placement;
pub mod taking;
