// The farthest point of the difference of two corner lists along a direction: two scans, one for each list.
// A box of half-widths g is added: it is the gap's cube, and where there is no gap it can make flat sets thick.
ghost use Rattle.std.specs.Prelude.{◌≡◌, ◌<◌};
ghost use Rattle.ints.specs.Bounds.{Within};
ghost use Rattle.limits.specs.Limits.{placed_reach, gap_most};
ghost use Rattle.space.specs.Ranges.{Upto, normal_reach};
ghost use Rattle.space.specs.Verdicts.{corner_count, corner_at};
ghost use Rattle.space.specs.Lists.{Placed};
ghost use Rattle.verdict_walk.specs.Points.{bit_of, cube_of, Farthest, Signed, Box, Boxed, Supports};

use space::Vec3;

// A point of the difference of two pieces, with the numbers of the two corners that it comes from, and of the corner of the box.
#[derive(Clone, Copy)]
pub struct Difference {
    pub at: Vec3,
    pub first: usize,
    pub cube: usize,
    pub second: usize,
}

// Corner i of a list.
pub fn corner(s: &[i32], i: usize) -> Vec3
    requires placed { Placed s.now }
    requires i_bound { i < corner_count s.now }
    ensures { (result ≡ corner_at s.now i) × Upto placed_reach result }
{
    Vec3 {
        x: i64::from(s[3 * i]),
        y: i64::from(s[3 * i + 1]),
        z: i64::from(s[3 * i + 2]),
    }
}

// The number of the corner that is farthest along d.
fn farthest(d: Vec3, s: &[i32]) -> usize
    requires upto { Upto normal_reach d }
    requires placed { Placed s.now }
    ensures { Farthest d s.now result }
{
    let mut best = 0;
    let mut far = d.dot(corner(s, 0));
    for i in 1..s.len() / 3 {
        let v = d.dot(corner(s, i));
        if far < v {
            far = v;
            best = i;
        }
    }
    best
}

// g with the sign of n.
pub fn signed(n: i64, g: i64) -> i64
    requires { Within gap_most g }
    ensures { Signed n g result }
{
    if n < 0 { -g } else { g }
}

// The corner of the box that is farthest along n.
fn boxed(n: Vec3, g: Vec3) -> Vec3
    requires { Upto normal_reach n × Upto gap_most g }
    ensures { Boxed n g result }
{
    Vec3 {
        x: signed(n.x, g.x),
        y: signed(n.y, g.y),
        z: signed(n.z, g.z),
    }
}

// 1 where a coordinate is not negative, else 0.
fn bit_of(along: i64) -> usize
    ensures { (result ≡ bit_of along) × (result < 2) }
{
    usize::from(along >= 0)
}

// The number of the box's corner that is farthest along n.
pub fn cube_of(n: Vec3) -> usize
    requires { Upto normal_reach n }
    ensures { result ≡ cube_of n }
{
    4 * bit_of(n.x) + 2 * bit_of(n.y) + bit_of(n.z)
}

// The point of the difference that is farthest along n: the farthest corner of the first piece, the farthest of the second against n, the farthest of the box.
pub fn support(n: Vec3, g: Vec3, first: &[i32], second: &[i32]) -> Difference
    requires upto { Upto normal_reach n × Box g }
    requires placed { Placed first.now × Placed second.now }
    ensures { Supports first.now second.now g n result }
{
    let i = farthest(n, first);
    let j = farthest(-n, second);
    Difference {
        at: corner(first, i) - corner(second, j) + boxed(n, g),
        first: i,
        cube: cube_of(n),
        second: j,
    }
}
