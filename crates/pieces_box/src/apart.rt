// Whether the boxes of two pieces are apart, by the keys of their marks: nothing is worked out again for it.
// A low mark comes before a high mark of the same value, so a high mark that comes before a low one has the smaller value; the gap shifts the high mark's key.
ghost use Rattle.std.specs.Prelude.{◌≡◌, ℕ, ◌<◌, ◌≤◌, ◌+◌, ◌*◌, ltb, get_or};
ghost use Rattle.limits.specs.Limits;
ghost use Rattle.pieces_box.specs.Apart.{key_step, ApartOnBy, ApartBy};

use marks::Keys;

// How much a key grows by one step of its mark's value.
const KEY_STEP: usize = 2 * limits::PLACES;

// Whether a key that is shifted is below another. A key and a shift fit their sum, whatever the key is.
fn shifted_below(first: u32, shift: usize, second: u32) -> bool
    requires { shift ≤ key_step * Limits.gap_most }
    ensures { result ≡ ltb (first + shift) second }
{
    first as usize + shift < second as usize
}

// Whether one mark, shifted, comes before another.
fn earlier(keys: &[u32; limits::AXIS_MARKS], shift: usize, first: usize, second: usize) -> bool
    requires { (shift ≤ key_step * Limits.gap_most) × (first < Limits.axis_marks) × (second < Limits.axis_marks) }
    ensures { result ≡ ltb (get_or keys.now first 0 + shift) (get_or keys.now second 0) }
{
    shifted_below(keys[first], shift, keys[second])
}

// Whether two taken places are apart on the axis of the keys: one's high mark, shifted by the gap, comes before the other's low.
fn apart_on(keys: &[u32; limits::AXIS_MARKS], shift: usize, p: usize, q: usize) -> bool
    requires { (shift ≤ key_step * Limits.gap_most) × (p < Limits.places) × (q < Limits.places) }
    ensures { (g : ℕ) → shift ≡ key_step * g → ApartOnBy g keys.now p q result }
{
    earlier(keys, shift, 2 * p + 1, 2 * q) || earlier(keys, shift, 2 * q + 1, 2 * p)
}

// Whether the boxes of two taken places are apart, with a gap: left at the first axis that parts them.
pub fn boxes_apart(gap: u32, keys: &Keys, p: usize, q: usize) -> bool
    requires { (gap ≤ Limits.gap_most) × (p < Limits.places) × (q < Limits.places) }
    ensures { ApartBy gap keys.now.x keys.now.y keys.now.z p q result }
{
    let shift = KEY_STEP * gap as usize;
    apart_on(&keys.x, shift, p, q)
        || apart_on(&keys.y, shift, p, q)
        || apart_on(&keys.z, shift, p, q)
}
