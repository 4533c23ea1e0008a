// What a command's numbers are asked, part by part: each function gives the lowest refusal of its part, or what the numbers stand for.
// The order of the desk itself is asked first, by the commands.
ghost use Rattle.std.specs.Prelude.{◌≡◌, IfOk, nat_abs};
ghost use Rattle.limits.specs.Decides.{Decides};
ghost use Rattle.limits.specs.Refusals.{answer_number};
ghost use Rattle.desk_state.specs.Desk.{OffsetFits};
ghost use Rattle.desk_refusals.specs.Asked.{ShapeAsked, EmptyAsked, TakenAsked, PlacementAsked, PairAsked};

use limits::Refusal;
use pieces::index::index_of;
use pieces::taking::is_taken;
use pieces_test::is_loaded;
use space::near;

// A shape that can be placed: 2, 6.
pub fn loaded_shape(shapes: &[i32; limits::SHAPES_LENGTH], shape: i32) -> Result<usize, Refusal>
    ensures asked { ShapeAsked shapes.now shape (answer_number result) }
    ensures index { IfOk result (λ s. s ≡ nat_abs shape) }
{
    let Some(s) = index_of(shape, limits::SHAPES) else {
        return Err(Refusal::ShapeNumber);
    };
    if !is_loaded(shapes, s) {
        return Err(Refusal::ShapeMissing);
    }
    Ok(s)
}

// A place that is empty: 7, 8.
pub fn empty_place(places: &[i32; limits::PLACES_LENGTH], place: i32) -> Result<usize, Refusal>
    ensures asked { EmptyAsked places.now place (answer_number result) }
    ensures index { IfOk result (λ p. p ≡ nat_abs place) }
{
    let Some(p) = index_of(place, limits::PLACES) else {
        return Err(Refusal::PlaceNumber);
    };
    if is_taken(places, p) {
        return Err(Refusal::PlaceTaken);
    }
    Ok(p)
}

// A place that is taken: 7, 9.
pub fn taken_place(places: &[i32; limits::PLACES_LENGTH], place: i32) -> Result<usize, Refusal>
    ensures asked { TakenAsked places.now place (answer_number result) }
    ensures index { IfOk result (λ p. p ≡ nat_abs place) }
{
    let Some(p) = index_of(place, limits::PLACES) else {
        return Err(Refusal::PlaceNumber);
    };
    if !is_taken(places, p) {
        return Err(Refusal::PlaceEmpty);
    }
    Ok(p)
}

// Two different places that are taken: 7, 9, 12.
pub fn two_places(
    places: &[i32; limits::PLACES_LENGTH],
    first: i32,
    second: i32,
) -> Result<(usize, usize), Refusal>
    ensures asked { PairAsked places.now first second (answer_number result) }
    ensures index { IfOk result (λ p. (p.0 ≡ nat_abs first) × (p.1 ≡ nat_abs second)) }
{
    let Some(i) = index_of(first, limits::PLACES) else {
        return Err(Refusal::PlaceNumber);
    };
    let Some(j) = index_of(second, limits::PLACES) else {
        return Err(Refusal::PlaceNumber);
    };
    if !is_taken(places, i) || !is_taken(places, j) {
        return Err(Refusal::PlaceEmpty);
    }
    if i == j {
        return Err(Refusal::SamePlace);
    }
    Ok((i, j))
}

// A turn and an offset: 10, 11.
pub fn placement(turn: i32, x: i32, y: i32, z: i32) -> Result<(), Refusal>
    ensures { PlacementAsked turn x y z (answer_number result) }
{
    if index_of(turn, limits::TURNS).is_none() {
        return Err(Refusal::TurnNumber);
    }
    if !offset_fits(x, y, z) {
        return Err(Refusal::OffsetRange);
    }
    Ok(())
}

// Whether each number of an offset is in range.
fn offset_fits(x: i32, y: i32, z: i32) -> bool
    ensures { Decides result (OffsetFits x y z) }
{
    near(x, limits::SHAPE_REACH) && near(y, limits::SHAPE_REACH) && near(z, limits::SHAPE_REACH)
}
