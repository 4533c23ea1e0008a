// Whether a place is taken.
// Its first cell holds its shape plus one, or 0 where it is empty.
ghost use Rattle.std.specs.Prelude.{◌<◌};
ghost use Rattle.limits.specs.Limits;
ghost use Rattle.limits.specs.Decides.{Decides};
ghost use Rattle.pieces.specs.Pieces.{Taken};

pub fn is_taken(places: &[i32; limits::PLACES_LENGTH], place: usize) -> bool
    requires { place < Limits.places }
    ensures { Decides result (Taken places.now place) }
{
    places[limits::PLACE_CELLS * place] != 0
}
