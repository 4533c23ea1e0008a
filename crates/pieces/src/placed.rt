// The piece at a taken place: its placed corners as a list, and how many they are.
// A turned and moved corner is worked out coordinate by coordinate, where it is needed.
ghost use Rattle.std.specs.Prelude.{◌≡◌, ◌≤◌, ◌<◌};
ghost use Rattle.ints.specs.Bounds.{Within};
ghost use Rattle.limits.specs.Limits;
ghost use Rattle.pieces.specs.Pieces.{store_of, count_at};
ghost use Rattle.pieces.specs.Boxes.{PlacedPiece, Numbers};
ghost use Rattle.pieces.specs.Placed.{number_at, PoseFits, NumbersOf, PoseAsked, pose_of};

use turns::placed_axis;

// Where the numbers of a piece's shape start, how many corners it has, and its turn.
#[derive(Clone, Copy)]
pub struct Pose {
    pub start: usize,
    pub count: usize,
    pub turn: usize,
}

// Coordinate `axis` of corner i of a piece.
fn placed_number(
    shapes: &[i32; limits::SHAPES_LENGTH],
    places: &[i32; limits::PLACES_LENGTH],
    pose: Pose,
    place: usize,
    i: usize,
    axis: usize,
) -> i32
    requires { PoseFits shapes.now places.now pose place × (i < pose.count) × (axis < 3) }
    ensures { (result ≡ number_at shapes.now places.now pose place i axis) × Within Limits.placed_reach result }
{
    let x = shapes[pose.start + 3 * i];
    let y = shapes[pose.start + (3 * i + 1)];
    let z = shapes[pose.start + (3 * i + 2)];
    let offset = places[limits::PLACE_CELLS * place + 2 + axis];
    placed_axis(pose.turn, axis, x, y, z, offset)
}

// The placed corners of a piece, three numbers each; the rest of the array is 0.
fn numbers_of(
    shapes: &[i32; limits::SHAPES_LENGTH],
    places: &[i32; limits::PLACES_LENGTH],
    pose: Pose,
    place: usize,
) -> [i32; limits::SHAPE_NUMBERS]
    requires { PoseFits shapes.now places.now pose place }
    ensures { NumbersOf shapes.now places.now pose place result }
{
    let mut numbers = [0; limits::SHAPE_NUMBERS];
    for k in 0..3 * pose.count {
        numbers[k] = placed_number(shapes, places, pose, place, k / 3, k % 3);
    }
    numbers
}

// What the arrays say of a taken place.
fn pose_of(
    shapes: &[i32; limits::SHAPES_LENGTH],
    places: &[i32; limits::PLACES_LENGTH],
    place: usize,
) -> Pose
    requires { PoseAsked shapes.now places.now place }
    ensures { result ≡ pose_of shapes.now places.now place }
{
    let held = places[limits::PLACE_CELLS * place] as usize;
    let turn = places[limits::PLACE_CELLS * place + 1] as usize;
    let cell = (held - 1) * limits::SHAPE_CELLS;
    let count = shapes[cell] as usize;
    Pose {
        start: cell + 1,
        count,
        turn,
    }
}

// The placed corners of the piece at a taken place; the first three times its count are its numbers, and the rest is 0.
pub fn piece_numbers(
    shapes: &[i32; limits::SHAPES_LENGTH],
    places: &[i32; limits::PLACES_LENGTH],
    place: usize,
) -> [i32; limits::SHAPE_NUMBERS]
    requires { PlacedPiece (store_of shapes.now places.now) place }
    ensures { Numbers (store_of shapes.now places.now) place result }
{
    numbers_of(shapes, places, pose_of(shapes, places, place), place)
}

// How many corners it has.
pub fn piece_count(
    shapes: &[i32; limits::SHAPES_LENGTH],
    places: &[i32; limits::PLACES_LENGTH],
    place: usize,
) -> usize
    requires { PlacedPiece (store_of shapes.now places.now) place }
    ensures { (result ≡ count_at (store_of shapes.now places.now) place) × (result ≤ Limits.corners) }
{
    pose_of(shapes, places, place).count
}
