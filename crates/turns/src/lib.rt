// The 24 turns: a constant table of signed permutations, and the kernels that turn and place one coordinate of a corner.
// specs/Turns.antt has document 01's numbering; the table's rule is proved once over all entries.
#![tactic(auto)]

ghost use Rattle.std.specs.Prelude.{◌≡◌, ◌<◌, nat_abs};
ghost use Rattle.limits.specs.Limits;
ghost use Rattle.ints.specs.Bounds.{Within};
ghost use Rattle.turns.specs.Turns.{turn_of, signed_axis, named_axis, axis_number, along, turned_at, placed_at, Turnable};

// A signed permutation: 1, 2 or 3 for the x, y or z that each coordinate is taken from, less than 0 where it is negated.
#[derive(Clone, Copy)]
pub struct Turn {
    pub x: i8,
    pub y: i8,
    pub z: i8,
}

// Four rows for each of xyz, yzx, zxy, xzy, zyx, yxz.
const TABLE: [Turn; limits::TURNS] = [
    Turn { x: 1, y: 2, z: 3 },
    Turn { x: 1, y: -2, z: -3 },
    Turn { x: -1, y: 2, z: -3 },
    Turn { x: -1, y: -2, z: 3 },
    Turn { x: 2, y: 3, z: 1 },
    Turn { x: 2, y: -3, z: -1 },
    Turn { x: -2, y: 3, z: -1 },
    Turn { x: -2, y: -3, z: 1 },
    Turn { x: 3, y: 1, z: 2 },
    Turn { x: 3, y: -1, z: -2 },
    Turn { x: -3, y: 1, z: -2 },
    Turn { x: -3, y: -1, z: 2 },
    Turn {
        x: -1,
        y: -3,
        z: -2,
    },
    Turn { x: -1, y: 3, z: 2 },
    Turn { x: 1, y: -3, z: 2 },
    Turn { x: 1, y: 3, z: -2 },
    Turn {
        x: -3,
        y: -2,
        z: -1,
    },
    Turn { x: -3, y: 2, z: 1 },
    Turn { x: 3, y: -2, z: 1 },
    Turn { x: 3, y: 2, z: -1 },
    Turn {
        x: -2,
        y: -1,
        z: -3,
    },
    Turn { x: -2, y: 1, z: 3 },
    Turn { x: 2, y: -1, z: 3 },
    Turn { x: 2, y: 1, z: -3 },
];

// The turn of a number.
fn turn_at(turn: usize) -> Turn
    requires { turn < Limits.turns }
    ensures { result ≡ turn_of turn }
{
    TABLE[turn]
}

// Which signed axis a turn puts on an axis.
// Stays: the axis is a number, since every one above 1 is taken for z (`signed_axis` of specs/Turns); an enum would take fewer.
#[tactic(auto, unfolding(crate::specs::Turns::signed_axis))]
pub fn signed_axis(turn: usize, axis: usize) -> i8
    requires { turn < Limits.turns }
    ensures { result ≡ signed_axis turn axis }
{
    let m = turn_at(turn);
    match axis {
        0 => m.x,
        1 => m.y,
        _ => m.z,
    }
}

// The coordinate that a signed axis names, its sign left aside.
fn axis_of(k: i8, x: i32, y: i32, z: i32) -> i32
    ensures { result ≡ named_axis (nat_abs k) x y z }
{
    match k.unsigned_abs() {
        1 => x,
        2 => y,
        _ => z,
    }
}

// The number of the axis that a signed axis names, counted from 0.
pub fn axis_number(k: i8) -> usize
    ensures { result ≡ axis_number (nat_abs k) }
{
    match k.unsigned_abs() {
        1 => 0,
        2 => 1,
        _ => 2,
    }
}

// The coordinate along a signed axis.
fn along_axis(k: i8, x: i32, y: i32, z: i32) -> i32
    requires { Within Limits.shape_reach x × Within Limits.shape_reach y × Within Limits.shape_reach z }
    ensures { result ≡ along k x y z }
{
    let c = axis_of(k, x, y, z);
    if k < 0 { -c } else { c }
}

// One coordinate of a turned corner.
#[tactic(auto, using(crate::specs::Range::turned_within), unfolding(crate::specs::Turns::turned_at))]
fn turned_axis(turn: usize, axis: usize, x: i32, y: i32, z: i32) -> i32
    requires { Turnable turn x y z }
    ensures { (result ≡ turned_at turn axis x y z) × Within Limits.shape_reach result }
{
    let k = signed_axis(turn, axis);
    along_axis(k, x, y, z)
}

// One coordinate of a placed corner: the turned corner plus the offset.
#[tactic(auto, using(crate::specs::Range::placed_within), unfolding(crate::specs::Turns::placed_at))]
pub fn placed_axis(turn: usize, axis: usize, x: i32, y: i32, z: i32, offset: i32) -> i32
    requires { Turnable turn x y z × Within Limits.shape_reach offset }
    ensures { (result ≡ placed_at turn axis x y z offset) × Within Limits.placed_reach result }
{
    let c = turned_axis(turn, axis, x, y, z);
    c + offset
}
