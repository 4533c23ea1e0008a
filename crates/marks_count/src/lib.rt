// The count of a move: what changes its order when one piece's marks get new values.
// Over the three axes, by the keys of the marks before and after.
#![tactic(auto)]

ghost use Rattle.std.specs.Prelude.{◌<◌};
ghost use Rattle.limits.specs.Limits;
ghost use Rattle.marks.specs.Promises.{CountedMarks};

use count::count_changed;
use marks::Keys;

mod count;

// How many pairs of a mark of the moved place and a mark of another change their order, over the three axes.
pub fn count_marks(old: &Keys, new: &Keys, place: usize) -> u32
    requires { place < Limits.places }
    ensures { CountedMarks old.now.x old.now.y old.now.z new.now.x new.now.y new.now.z place result }
{
    let x = count_changed(&old.x, &new.x, place);
    let y = count_changed(&old.y, &new.y, place);
    let z = count_changed(&old.z, &new.z, place);
    x + y + z
}
