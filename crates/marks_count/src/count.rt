// How many pairs of a mark of the moved place and a mark of another place change their order on one axis.
// Counted by the definition, in two straight loops: over the marks below the own two, and over those above.
ghost use Rattle.std.specs.Prelude.{◌≡◌, ◌+◌, ◌*◌, ◌≤◌, ◌<◌};
ghost use Rattle.std.specs.Bool.{xor};
ghost use Rattle.limits.specs.Limits;
ghost use Rattle.ints.specs.Counts.{one_if, sum_to};
ghost use Rattle.marks.specs.Keys.{keys_at};
ghost use Rattle.marks.specs.Changed.{crossed_by, crossed_with};
ghost use Rattle.marks.specs.Promises.{Counted};

use marks::MarkKeys;

// 1 where two tests differ, else 0.
fn differs(a: bool, b: bool) -> u32
    ensures { (result ≡ one_if (xor a b)) × (result ≤ 1) }
{
    u32::from(a != b)
}

// The keys of a place's two marks.
fn keys_at(keys: &[u32; limits::AXIS_MARKS], place: usize) -> MarkKeys
    requires { place < Limits.places }
    ensures { result ≡ keys_at keys.now place }
{
    MarkKeys {
        low: keys[2 * place],
        high: keys[2 * place + 1],
    }
}

// How many of the two own marks, with keys that were and keys that are, change their order with a mark of these keys.
fn crossed_by(was: MarkKeys, is: MarkKeys, before: u32, after: u32) -> u32
    ensures { result ≡ crossed_by was is before after }
{
    let low = differs(was.low < before, is.low < after);
    let high = differs(was.high < before, is.high < after);
    low + high
}

// The count over some of the marks.
fn count_between(
    old: &[u32; limits::AXIS_MARKS],
    new: &[u32; limits::AXIS_MARKS],
    was: MarkKeys,
    is: MarkKeys,
    from: usize,
    to: usize,
) -> u32
    requires { (from ≤ to) × (to ≤ Limits.axis_marks) }
    ensures { (result + 2 * from ≤ 2 * to)
        × (result + sum_to from (crossed_with old.now new.now was is) ≡ sum_to to (crossed_with old.now new.now was is)) }
{
    let mut n = 0;
    for other in from..to {
        n += crossed_by(was, is, old[other], new[other]);
    }
    n
}

// The count of a move on one axis: the own two marks are never met.
pub(crate) fn count_changed(
    old: &[u32; limits::AXIS_MARKS],
    new: &[u32; limits::AXIS_MARKS],
    place: usize,
) -> u32
    requires { place < Limits.places }
    ensures { Counted old.now new.now place result }
{
    let was = keys_at(old, place);
    let is = keys_at(new, place);
    let below = count_between(old, new, was, is, 0, 2 * place);
    let above = count_between(old, new, was, is, 2 * place + 2, limits::AXIS_MARKS);
    below + above
}
