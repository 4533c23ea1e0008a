// Whether the shapes and the places are in order: document 01, "A desk is in order when loaded shapes and taken places keep the ranges above".
// Numbers past a shape's last corner, and an empty place's turn and offset, are not looked at.
#![tactic(auto)]

ghost use Rattle.std.specs.Prelude.{◌≡◌, [], ◌+◌, ◌≤◌, ◌<◌, length};
ghost use Rattle.limits.specs.Limits;
ghost use Rattle.limits.specs.Decides.{Decides};
ghost use Rattle.pieces.specs.Pieces.{store_of, Taken, Loaded, ShapesInOrder, PlaceInOrder, PlacesInOrder, PiecesInOrder, Sized};
ghost use Rattle.pieces_box.specs.ShapeBox.{Boxed, NearEnds, NearBox};
ghost use Rattle.pieces_test.specs.OrderTest.{NearFrom, ShapeInOrder, PlaceKept, PlacedInOrder};

use pieces::index::index_of;
use pieces::taking::is_taken;
use pieces_box::boxes::{Boxes, Ends, ShapeBox};
use space::{in_reach, near};

// Whether shapes and places of any contents are in order. The boxes are those of the shapes, so no corner is looked at.
pub fn pieces_in_order(
    shapes: &[i32; limits::SHAPES_LENGTH],
    places: &[i32; limits::PLACES_LENGTH],
    boxes: &Boxes,
) -> bool
    requires { Boxed shapes.now boxes.now }
    ensures { Decides result (PiecesInOrder (store_of shapes.now places.now)) }
{
    shapes_in_order(shapes, boxes) && places_in_order(shapes, places)
}

// Whether every shape is in order. Left at the first that is not.
fn shapes_in_order(shapes: &[i32; limits::SHAPES_LENGTH], boxes: &Boxes) -> bool
    requires { Boxed shapes.now boxes.now }
    ensures { Decides result (ShapesInOrder (store_of shapes.now [])) }
{
    for shape in 0..limits::SHAPES {
        if !shape_in_order(shapes, boxes, shape) {
            return false;
        }
    }
    true
}

// Whether a shape has no more corners than it may, and none beyond the reach, which its box decides. A shape that is not loaded has none.
fn shape_in_order(shapes: &[i32; limits::SHAPES_LENGTH], boxes: &Boxes, shape: usize) -> bool
    requires { Boxed shapes.now boxes.now × (shape < Limits.shapes) }
    ensures { Decides result (ShapeInOrder (store_of shapes.now []) shape) }
{
    match index_of(shapes[shape * limits::SHAPE_CELLS], limits::CORNERS + 1) {
        None => false,
        Some(0) => true,
        Some(_) => box_near(boxes[shape]),
    }
}

// Whether a box is within the reach of shapes.
fn box_near(b: ShapeBox) -> bool
    ensures { Decides result (NearBox b) }
{
    ends_near(b.x) && ends_near(b.y) && ends_near(b.z)
}

fn ends_near(e: Ends) -> bool
    ensures { Decides result (NearEnds e) }
{
    near(e.low, limits::SHAPE_REACH) && near(e.high, limits::SHAPE_REACH)
}

// Whether every taken place is in order. Left at the first that is not.
fn places_in_order(
    shapes: &[i32; limits::SHAPES_LENGTH],
    places: &[i32; limits::PLACES_LENGTH],
) -> bool
    ensures { Decides result (PlacesInOrder (store_of shapes.now places.now)) }
{
    for place in 0..limits::PLACES {
        if !place_kept(shapes, places, place) {
            return false;
        }
    }
    true
}

// Whether a place is empty or in order.
fn place_kept(
    shapes: &[i32; limits::SHAPES_LENGTH],
    places: &[i32; limits::PLACES_LENGTH],
    place: usize,
) -> bool
    requires { place < Limits.places }
    ensures { Decides result (PlaceKept (store_of shapes.now places.now) place) }
{
    !is_taken(places, place) || place_in_order(shapes, places, place)
}

// Whether a taken place names a loaded shape, and its turn and offset keep their ranges.
fn place_in_order(
    shapes: &[i32; limits::SHAPES_LENGTH],
    places: &[i32; limits::PLACES_LENGTH],
    place: usize,
) -> bool
    requires { Taken places.now place }
    ensures { Decides result (PlaceInOrder (store_of shapes.now places.now) place) }
{
    let Some(held) = index_of(places[limits::PLACE_CELLS * place], limits::SHAPES + 1) else {
        return false;
    };
    is_loaded(shapes, held - 1) && placed_in_order(places, place)
}

// Whether a place's turn and offset keep their ranges.
fn placed_in_order(places: &[i32; limits::PLACES_LENGTH], place: usize) -> bool
    requires { place < Limits.places }
    ensures { Decides result (PlacedInOrder places.now place) }
{
    index_of(places[limits::PLACE_CELLS * place + 1], limits::TURNS).is_some()
        && part_near(&places[..], limits::PLACE_CELLS * place + 2, 3)
}

// Whether a shape is loaded. A number that is no shape's is not.
pub fn is_loaded(shapes: &[i32; limits::SHAPES_LENGTH], shape: usize) -> bool
    ensures { Decides result (Loaded (store_of shapes.now []) shape) }
{
    shape < limits::SHAPES && shapes[shape * limits::SHAPE_CELLS] != 0
}

// Whether a part of a list of numbers is within the reach of shapes and offsets.
fn part_near(numbers: &[i32], start: usize, count: usize) -> bool
    requires { start + count ≤ length numbers.now }
    ensures { Decides result (NearFrom numbers.now start count) }
{
    let end = start + count;
    in_reach(&numbers[start..end], limits::SHAPE_REACH)
}

// The arrays' lengths, which a proof knows of the arrays that a function is lent, and of those behind a struct by this call.
pub fn sized_store(shapes: &[i32; limits::SHAPES_LENGTH], places: &[i32; limits::PLACES_LENGTH])
    ensures { Sized (store_of shapes.now places.now) }
{}
