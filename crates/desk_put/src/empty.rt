// Emptying a place: its rows and marks go, and the tallies follow.
// Every other shape, place and row stays.
ghost use Rattle.std.specs.Prelude.{◌<◌};
ghost use Rattle.limits.specs.Limits;
ghost use Rattle.desk_state.specs.Desk.{InOrder};
ghost use Rattle.desk_state.specs.Lent.{of_places, SamePlaces, with_places};
ghost use Rattle.desk_state.specs.Worked.{Worked};
ghost use Rattle.desk_put.specs.Handled.{Emptied};

use crate::renew::renew_marks;
use desk_state::LentPlaces;
use marks::Keys;
use pieces_box::boxes::Boxes;
use pieces_test::sized_store;
use rows_tally::clear_place;

// A place of a desk in order emptied, by what was worked out of the desk.
pub fn empty_place(desk: &mut LentPlaces<'_>, boxes: &Boxes, keys: &mut Keys, place: usize)
    requires in_order { InOrder (of_places desk.old) × (place < Limits.places) }
    requires worked { Worked (of_places desk.old).store boxes.now keys.old.x keys.old.y keys.old.z }
    ensures same { SamePlaces desk.old desk.new }
    ensures emptied { Emptied (of_places desk.old) place (with_places desk.old desk.new) }
{
    // Stays: without this call the proof knows no length of an array that is lent behind the struct.
    sized_store(desk.shapes, desk.places);
    desk.places[limits::PLACE_CELLS * place] = 0;
    renew_marks(desk.places, desk.marks, boxes, keys, place);
    clear_place(desk.rows, desk.book, place);
}
