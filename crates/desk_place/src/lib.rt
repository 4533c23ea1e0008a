// Placing a piece, a loaded shape with a turn and an offset, at an empty place, and removing one.
// Every refusal is found before anything is written.
#![tactic(auto)]

ghost use Rattle.std.specs.Prelude.{◌≡◌, nat_abs, IfOk};
ghost use Rattle.limits.specs.Refusals.{answer_number};
ghost use Rattle.desk_state.specs.Lent.{of_places, SamePlaces, with_places};
ghost use Rattle.desk.specs.Commands.{Places, Removed};
ghost use Rattle.desk_place.specs.Placing.{PlaceAsked};

use desk_put::{empty_place, put_place};
use desk_refusals::asked;
use desk_state::{LentPlaces, WorkedOut};
use limits::Refusal;
use pieces::placement::Placement;

// Refused, or the piece stands there with its rows, and tallies and marks follow.
pub fn place(desk: &mut LentPlaces<'_>, place: i32, q: Placement) -> Result<u32, Refusal>
    ensures same { SamePlaces desk.old desk.new }
    ensures places { Places (of_places desk.old) place q (with_places desk.old desk.new) result }
{
    let mut worked = WorkedOut::boxes_of(desk.shapes);
    if !desk.tested(&worked.boxes, &mut worked.keys) {
        return Err(Refusal::Disorder);
    }
    let p = place_asked(desk.shapes, desk.places, place, q)?;
    put_place(desk, &worked.boxes, &mut worked.keys, p, q);
    Ok(0)
}

// An empty place that a piece can be put at: 2, 6, 7, 8, 10, 11.
fn place_asked(
    shapes: &[i32; limits::SHAPES_LENGTH],
    places: &[i32; limits::PLACES_LENGTH],
    place: i32,
    q: Placement,
) -> Result<usize, Refusal>
    ensures asked { PlaceAsked shapes.now places.now place q (answer_number result) }
    ensures index { IfOk result (λ p. p ≡ nat_abs place) }
{
    asked::loaded_shape(shapes, q.shape)?;
    let p = asked::empty_place(places, place)?;
    asked::placement(q.turn, q.x, q.y, q.z)?;
    Ok(p)
}

// Its place is emptied, its rows and marks go, and the tallies are counted afresh.
pub fn remove(desk: &mut LentPlaces<'_>, place: i32) -> Result<u32, Refusal>
    ensures same { SamePlaces desk.old desk.new }
    ensures removed { Removed (of_places desk.old) place (with_places desk.old desk.new) result }
{
    let mut worked = WorkedOut::boxes_of(desk.shapes);
    if !desk.tested(&worked.boxes, &mut worked.keys) {
        return Err(Refusal::Disorder);
    }
    let p = asked::taken_place(desk.places, place)?;
    empty_place(desk, &worked.boxes, &mut worked.keys, p);
    Ok(0)
}
