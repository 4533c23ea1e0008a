// Points and directions of whole numbers: the kernels of the verdict's arithmetic, each with its exact value and its range.
// The ranges are those of the walk (specs/Ranges.antt); the kernels are internal to the project, and every caller meets them.
#![tactic(auto)]

ghost use Rattle.std.specs.Prelude.{◌≡◌, take};
ghost use Rattle.ints.specs.Sign.{lex};
ghost use Rattle.space.specs.Vectors.{dot, cross, minus, plus, opposite, det, unit, next_axis};
ghost use Rattle.limits.specs.Decides.{Decides};
ghost use Rattle.space.specs.Lists.{LengthFits, IsNear, AllNear};
ghost use Rattle.space.specs.Ranges.{Upto, point_reach, pair_reach, shift_reach, cross_reach, sum_reach};

use std::ops::{Add, Neg, Sub};

#[derive(Clone, Copy, PartialEq, Eq)]
pub struct Vec3 {
    pub x: i64,
    pub y: i64,
    pub z: i64,
}

// A corner of the first piece, the corner of the gap's cube that widens it, and a corner of the second, by their numbers, and the weight of their difference.
#[derive(Clone, Copy)]
pub struct Pair {
    pub first: usize,
    pub cube: usize,
    pub second: usize,
    pub weight: i64,
}

// Some pairs of two pieces that meet: the first `count` of four.
#[derive(Clone, Copy)]
pub struct Pairs {
    pub count: usize,
    pub pairs: [Pair; 4],
}

impl Pairs {
    pub fn as_slice(&self) -> &[Pair]
        ensures { result.now ≡ take self.now.count self.now.pairs }
    {
        &self.pairs[..self.count.min(4)]
    }
}

impl Vec3 {
    pub const ORIGIN: Vec3 = Vec3 { x: 0, y: 0, z: 0 };

    // d·p.
    pub fn dot(self, p: Vec3) -> i64
        requires { Upto sum_reach self × Upto shift_reach p }
        ensures { result ≡ dot self p }
    {
        self.x * p.x + self.y * p.y + self.z * p.z
    }

    // a × b.
    pub fn cross(self, b: Vec3) -> Vec3
        requires { Upto pair_reach self × Upto shift_reach b }
        ensures { (result ≡ cross self b) × Upto cross_reach result }
    {
        Vec3 {
            x: self.y * b.z - self.z * b.y,
            y: self.z * b.x - self.x * b.z,
            z: self.x * b.y - self.y * b.x,
        }
    }
}

// An axis of space.
#[derive(Clone, Copy, PartialEq, Eq)]
pub enum Axis {
    X,
    Y,
    Z,
}

impl Axis {
    // The axis after it, and X after Z.
    pub fn next(self) -> Axis
        ensures { result ≡ next_axis self }
    {
        match self {
            Axis::X => Axis::Y,
            Axis::Y => Axis::Z,
            Axis::Z => Axis::X,
        }
    }

    // 1 along it and 0 along the others.
    pub fn unit(self) -> Vec3
        ensures { (result ≡ unit self) × Upto 1 result }
    {
        match self {
            Axis::X => Vec3 { x: 1, y: 0, z: 0 },
            Axis::Y => Vec3 { x: 0, y: 1, z: 0 },
            Axis::Z => Vec3 { x: 0, y: 0, z: 1 },
        }
    }
}

impl Add for Vec3 {
    type Output = Vec3;

    ghost can_add = { λ a b. Upto cross_reach a × Upto cross_reach b };

    ghost add_gives = { λ a b r. (r ≡ plus a b) × Upto sum_reach r };

    fn add(self, b: Vec3) -> Vec3 {
        Vec3 {
            x: self.x + b.x,
            y: self.y + b.y,
            z: self.z + b.z,
        }
    }
}

impl Sub for Vec3 {
    type Output = Vec3;

    ghost can_sub = { λ a b. Upto point_reach a × Upto point_reach b };

    ghost sub_gives = { λ a b r. (r ≡ minus a b) × Upto pair_reach r };

    fn sub(self, b: Vec3) -> Vec3 {
        Vec3 {
            x: self.x - b.x,
            y: self.y - b.y,
            z: self.z - b.z,
        }
    }
}

// The least along d is the greatest along −d.
impl Neg for Vec3 {
    type Output = Vec3;

    ghost can_neg = { λ d. Upto sum_reach d };

    ghost neg_gives = { λ d r. (r ≡ opposite d) × Upto sum_reach r };

    fn neg(self) -> Vec3 {
        Vec3 {
            x: -self.x,
            y: -self.y,
            z: -self.z,
        }
    }
}

// [a b c] = (a × b)·c.
pub fn det(a: Vec3, b: Vec3, c: Vec3) -> i64
    requires { Upto point_reach a × Upto point_reach b × Upto point_reach c }
    ensures { result ≡ det a b c }
{
    a.cross(b).dot(c)
}

// u, or v where u is 0: a sign that v decides only on a tie.
pub fn first_of(u: i64, v: i64) -> i64
    ensures { result ≡ lex u v }
{
    if u == 0 { v } else { u }
}

// Whether n numbers are a corner list: three for each of 1 to 64 corners.
pub fn length_fits(n: usize) -> bool
    ensures { Decides result (LengthFits n) }
{
    n != 0 && n % 3 == 0 && n <= limits::SHAPE_NUMBERS
}

// Whether a number is within ±reach; none is where the reach is below zero.
pub fn near(x: i32, reach: i32) -> bool
    ensures { Decides result (IsNear reach x) }
{
    reach >= 0 && -reach <= x && x <= reach
}

// Whether every number of a list is within ±reach.
pub fn in_reach(s: &[i32], reach: i32) -> bool
    ensures { Decides result (AllNear reach s.now) }
{
    for x in s {
        if !near(*x, reach) {
            return false;
        }
    }
    true
}
