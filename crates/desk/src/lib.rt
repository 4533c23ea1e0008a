// The desk: what each command and question promises, what it can be told, starting afresh, and the listing of contacts.
// The other commands stand in `desk_load`, `desk_place`, `desk_move`, `desk_gap` and `desk_ask`; each first tests that the desk is in order.
// The answer to a command is its count, which is 0 but for a move, or a refusal.
#![tactic(auto)]

pub mod contacts;
pub mod start;

use pieces::placement::{Offset, Placement};

// What the desk can be told, with the numbers as they arrive; a load's corner numbers come beside it.
#[derive(Clone, Copy)]
pub enum Command {
    Start,
    Load(i32),
    Place(i32, Placement),
    Move(i32, i32, Offset),
    Remove(i32),
    Gap(i32),
}
