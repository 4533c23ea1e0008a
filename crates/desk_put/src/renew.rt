// The marks of a handled piece: their keys worked out anew, and each mark slid to where its new key belongs.
// A place that is no longer taken has no keys, and its marks go.
ghost use Rattle.std.specs.Prelude.{◌≡◌, ◌<◌, length};
ghost use Rattle.limits.specs.Limits;
ghost use Rattle.pieces_box.specs.ShapeBox.{AllAsked};
ghost use Rattle.desk_put.specs.Handled.{RenewedIn};

use marks::{Keys, PlaceKeys};
use marks_keep::reorder_marks;
use pieces_box::boxes::Boxes;
use pieces_box::keys::keys_at;

pub(crate) fn renew_marks(
    places: &[i32; limits::PLACES_LENGTH],
    marks: &mut [u16],
    boxes: &Boxes,
    keys: &mut Keys,
    place: usize,
)
    requires { AllAsked boxes.now places.now
        × (length marks.old ≡ Limits.marks) × (place < Limits.places) }
    ensures { RenewedIn boxes.now places.now place
        keys.old.x keys.old.y keys.old.z keys.new.x keys.new.y keys.new.z marks.old marks.new }
{
    let x = keys_at(boxes, places, place, 0);
    let y = keys_at(boxes, places, place, 1);
    let z = keys_at(boxes, places, place, 2);
    reorder_marks(marks, keys, place, PlaceKeys { x, y, z });
}
