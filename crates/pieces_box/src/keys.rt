// The keys of all marks, from the boxes of the shapes: what the order test and the reordering compare.
// A piece's ends are its shape's box, turned and moved: a turn only swaps or negates axes, and no corner of the shape is looked at.
ghost use Rattle.std.specs.Prelude.{◌≡◌, ◌<◌, ◌+◌, ◌*◌, set};
ghost use Rattle.limits.specs.Limits;
ghost use Rattle.pieces_box.specs.ShapeBox.{ends_in, EndsAsked, AllAsked, key_in, KeysIn};

use crate::boxes::{Boxes, Ends};
use marks::{Keys, MarkKeys, NO_KEY, mark_key};
use pieces::taking::is_taken;
use turns::signed_axis;

// The ends of the piece at a taken place.
fn ends_in(boxes: &Boxes, places: &[i32; limits::PLACES_LENGTH], place: usize, axis: usize) -> Ends
    requires { EndsAsked boxes.now places.now place × (axis < 3) }
    ensures { result ≡ ends_in boxes.now places.now axis place }
{
    let held = places[limits::PLACE_CELLS * place] as usize;
    let turn = places[limits::PLACE_CELLS * place + 1] as usize;
    let offset = places[limits::PLACE_CELLS * place + 2 + axis];
    boxes[held - 1]
        .along(signed_axis(turn, axis))
        .moved_by(offset)
}

// The keys of a place's two marks, above every other where it is empty.
pub fn keys_at(
    boxes: &Boxes,
    places: &[i32; limits::PLACES_LENGTH],
    place: usize,
    axis: usize,
) -> MarkKeys
    requires { AllAsked boxes.now places.now × (place < Limits.places) × (axis < 3) }
    ensures low { result.low ≡ key_in boxes.now places.now axis (2 * place) }
    ensures high { result.high ≡ key_in boxes.now places.now axis (2 * place + 1) }
{
    if !is_taken(places, place) {
        return MarkKeys {
            low: NO_KEY,
            high: NO_KEY,
        };
    }
    let e = ends_in(boxes, places, place, axis);
    MarkKeys {
        low: mark_key(e.low, 2 * place),
        high: mark_key(e.high, 2 * place + 1),
    }
}

// A place's two keys stored.
fn put_two(keys: &mut [u32; limits::AXIS_MARKS], place: usize, k: MarkKeys)
    requires { place < Limits.places }
    ensures { keys.new ≡ set (set keys.old (2 * place) k.low) (2 * place + 1) k.high }
{
    keys[2 * place] = k.low;
    keys[2 * place + 1] = k.high;
}

// The keys of the three axes, whatever was held: each place is visited once.
pub fn put_keys(boxes: &Boxes, places: &[i32; limits::PLACES_LENGTH], keys: &mut Keys)
    requires { AllAsked boxes.now places.now }
    ensures x { KeysIn boxes.now places.now 0 keys.new.x }
    ensures y { KeysIn boxes.now places.now 1 keys.new.y }
    ensures z { KeysIn boxes.now places.now 2 keys.new.z }
{
    for place in 0..limits::PLACES {
        put_two(&mut keys.x, place, keys_at(boxes, places, place, 0));
        put_two(&mut keys.y, place, keys_at(boxes, places, place, 1));
        put_two(&mut keys.z, place, keys_at(boxes, places, place, 2));
    }
}
