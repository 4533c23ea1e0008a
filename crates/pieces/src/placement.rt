// A placement: a shape in a turn at an offset, five numbers that travel together as they arrive.
// It is stored at its place, every other place stays.
ghost use Rattle.std.specs.Prelude.{◌≡◌, ◌<◌};
ghost use Rattle.limits.specs.Limits;
ghost use Rattle.limits.specs.Numbered.{Numbered};
ghost use Rattle.pieces.specs.Pieces.{put_in};

#[derive(Clone, Copy)]
pub struct Placement {
    pub shape: i32,
    pub turn: i32,
    pub x: i32,
    pub y: i32,
    pub z: i32,
}

// The three numbers of an offset.
#[derive(Clone, Copy)]
pub struct Offset {
    pub x: i32,
    pub y: i32,
    pub z: i32,
}

// A placement stored.
pub fn put_placement(places: &mut [i32; limits::PLACES_LENGTH], place: usize, q: Placement)
    requires { (place < Limits.places) × Numbered Limits.shapes q.shape }
    ensures { places.new ≡ put_in places.old place q }
{
    let at = limits::PLACE_CELLS * place;
    places[at] = q.shape + 1;
    places[at + 1] = q.turn;
    places[at + 2] = q.x;
    places[at + 3] = q.y;
    places[at + 4] = q.z;
}
