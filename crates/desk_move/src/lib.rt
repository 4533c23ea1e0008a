// Moving a piece: a taken place gets a new turn and offset, and the answer counts the pairs of marks that changed their order.
// Every refusal is found before anything is written.
#![tactic(auto)]

ghost use Rattle.std.specs.Prelude.{◌≡◌, ◌+◌, ◌<◌, nat_abs, IfOk};
ghost use Rattle.limits.specs.Limits;
ghost use Rattle.limits.specs.Numbered.{Numbered};
ghost use Rattle.limits.specs.Refusals.{answer_number};
ghost use Rattle.pieces.specs.Pieces.{held_in};
ghost use Rattle.desk_state.specs.Lent.{of_places, SamePlaces, with_places};
ghost use Rattle.desk_state.specs.Worked.{Worked};
ghost use Rattle.desk.specs.Commands.{moved_to, MovedBy, Moves};
ghost use Rattle.desk_move.specs.Moving.{MoveAsked, MayTurn};

use desk_put::put_place;
use desk_refusals::asked;
use desk_state::{LentPlaces, WorkedOut};
use limits::Refusal;
use marks::Keys;
use marks_count::count_marks;
use pieces::placement::{Offset, Placement};
use pieces_box::boxes::Boxes;

// Refused, or the piece stands there anew.
pub fn move_piece(
    desk: &mut LentPlaces<'_>,
    place: i32,
    turn: i32,
    o: Offset,
) -> Result<u32, Refusal>
    ensures same { SamePlaces desk.old desk.new }
    ensures moves { Moves (of_places desk.old) place turn o (with_places desk.old desk.new) result }
{
    let mut worked = WorkedOut::boxes_of(desk.shapes);
    if !desk.tested(&worked.boxes, &mut worked.keys) {
        return Err(Refusal::Disorder);
    }
    let p = move_asked(desk.places, place, turn, o)?;
    Ok(move_to(desk, &worked.boxes, &mut worked.keys, p, turn, o))
}

// A taken place whose piece can be turned and moved so: 7, 9, 10, 11.
fn move_asked(
    places: &[i32; limits::PLACES_LENGTH],
    place: i32,
    turn: i32,
    o: Offset,
) -> Result<usize, Refusal>
    ensures asked { MoveAsked places.now place turn o (answer_number result) }
    ensures index { IfOk result (λ p. p ≡ nat_abs place) }
{
    let p = asked::taken_place(places, place)?;
    asked::placement(turn, o.x, o.y, o.z)?;
    Ok(p)
}

// The placement that a move puts down: the shape stays.
fn moved_to(places: &[i32; limits::PLACES_LENGTH], place: usize, turn: i32, o: Offset) -> Placement
    requires { (place < Limits.places) × Numbered (Limits.shapes + 1) (held_in places.now place) }
    ensures { result ≡ moved_to places.now place turn o }
{
    Placement {
        shape: places[limits::PLACE_CELLS * place] - 1,
        turn,
        x: o.x,
        y: o.y,
        z: o.z,
    }
}

// The piece of a taken place put down anew; how many pairs of marks changed their order, by the keys before and after.
fn move_to(
    desk: &mut LentPlaces<'_>,
    boxes: &Boxes,
    keys: &mut Keys,
    place: usize,
    turn: i32,
    o: Offset,
) -> u32
    requires may_turn { MayTurn (of_places desk.old) place turn o }
    requires worked { Worked (of_places desk.old).store boxes.now keys.old.x keys.old.y keys.old.z }
    ensures same { SamePlaces desk.old desk.new }
    ensures moved { MovedBy (of_places desk.old) place turn o (with_places desk.old desk.new) result }
{
    let before = *keys;
    let q = moved_to(desk.places, place, turn, o);
    put_place(desk, boxes, keys, place, q);
    count_marks(&before, keys, place)
}
