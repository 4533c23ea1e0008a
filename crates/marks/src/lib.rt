// End marks: document 01's order of marks, and their keys: one unsigned number a mark, made once from an axis's values and compared ever after.
// One lent buffer has the marks, each axis in its own part: `marks_test` tests whether it is in place, `marks_keep` keeps it so.
#![tactic(auto)]

ghost use Rattle.std.specs.Prelude.{◌≡◌, ◌<◌, length};
ghost use Rattle.limits.specs.Limits;
ghost use Rattle.ints.specs.Bounds.{Within};
ghost use Rattle.marks.specs.Keys.{key_for, key_of, no_keys};

// What is no mark of a taken place has this key, above every mark's.
// Stays: an Option would be below every key where this stands above, and the keys' arrays, which are compared as numbers, twice as long.
pub const NO_KEY: u32 = u32::MAX;

// Where the parts of the second and the third axis start.
pub const START_Y: usize = limits::AXIS_MARKS;

pub const START_Z: usize = 2 * limits::AXIS_MARKS;

// The keys of a place's two marks, both NO_KEY where it is empty.
#[derive(Clone, Copy)]
pub struct MarkKeys {
    pub low: u32,
    pub high: u32,
}

// What the reordering function gets for a place: the keys of its marks on each axis.
#[derive(Clone, Copy)]
pub struct PlaceKeys {
    pub x: MarkKeys,
    pub y: MarkKeys,
    pub z: MarkKeys,
}

// The keys of all marks, by axis and mark.
#[derive(Clone, Copy)]
pub struct Keys {
    pub x: [u32; limits::AXIS_MARKS],
    pub y: [u32; limits::AXIS_MARKS],
    pub z: [u32; limits::AXIS_MARKS],
}

impl Keys {
    // No keys, for the commands to have worked out.
    pub fn none() -> Keys
        ensures x { length result.x ≡ Limits.axis_marks }
        ensures y { length result.y ≡ Limits.axis_marks }
        ensures z { length result.z ≡ Limits.axis_marks }
        ensures none { (result.x ≡ no_keys) × (result.y ≡ no_keys) × (result.z ≡ no_keys) }
    {
        Keys {
            x: [NO_KEY; limits::AXIS_MARKS],
            y: [NO_KEY; limits::AXIS_MARKS],
            z: [NO_KEY; limits::AXIS_MARKS],
        }
    }
}

// The key of a mark of this value: value, then low before high, then smaller place.
#[tactic(auto, using(crate::proofs::Order::raised_most, crate::proofs::Order::raised_sign))]
pub fn mark_key(value: i32, mark: usize) -> u32
    requires { Within Limits.placed_reach value × (mark < Limits.axis_marks) }
    ensures { result ≡ key_for value mark }
{
    let raised = (value + limits::PLACED_REACH) as usize;
    ((raised * 2 + mark % 2) * limits::PLACES + mark / 2) as u32
}

// The key of whatever number stands in a part.
pub fn key_of(keys: &[u32; limits::AXIS_MARKS], q: u16) -> u32
    ensures { result ≡ key_of keys.now q }
{
    match keys.get(usize::from(q)) {
        Some(key) => *key,
        None => NO_KEY,
    }
}
