// Putting a piece down: what a place and a move have in common. The placement is stored first; marks, rows and tallies follow from it.
// Every other shape, place and row stays.
ghost use Rattle.marks.specs.Keys.{KeyedMarks};
ghost use Rattle.pieces.specs.Pieces.{axes_of};
ghost use Rattle.desk_state.specs.Lent.{of_places, SamePlaces, with_places};
ghost use Rattle.desk_state.specs.Worked.{Worked};
ghost use Rattle.desk_put.specs.Handled.{MayPut, PutDown};

use crate::renew::renew_marks;
use desk_state::LentPlaces;
use marks::Keys;
use pieces::placement::{Placement, put_placement};
use pieces_box::boxes::Boxes;
use pieces_test::sized_store;
use rows_right::row::put_rows;

// A place of a desk in order holds a piece; the keys of the marks follow.
pub fn put_place(
    desk: &mut LentPlaces<'_>,
    boxes: &Boxes,
    keys: &mut Keys,
    place: usize,
    q: Placement,
)
    requires may_put { MayPut (of_places desk.old) place q }
    requires worked { Worked (of_places desk.old).store boxes.now keys.old.x keys.old.y keys.old.z }
    ensures same { SamePlaces desk.old desk.new }
    ensures put { PutDown (of_places desk.old) place q (with_places desk.old desk.new) }
    ensures keyed { KeyedMarks (axes_of (with_places desk.old desk.new).store) keys.new.x keys.new.y keys.new.z }
{
    // Stays: without this call the proof knows no length of an array that is lent behind the struct.
    sized_store(desk.shapes, desk.places);
    put_placement(desk.places, place, q);
    renew_marks(desk.places, desk.marks, boxes, keys, place);
    put_rows(desk.shapes, desk.places, desk.rows, desk.book, keys, place);
}
