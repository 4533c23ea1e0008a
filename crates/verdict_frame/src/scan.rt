// The scan of the differences of two corner lists: the first that is not level with three rows.
// Every corner of the first list with the other's first, then the first with every one of the other: what is level on these is level on all.
ghost use Rattle.std.specs.Prelude.{◌≡◌, ◌<◌};
ghost use Rattle.limits.specs.Decides.{Decides};
ghost use Rattle.space.specs.Ranges.{Upto, point_reach, normal_reach};
ghost use Rattle.space.specs.Verdicts.{corner_count};
ghost use Rattle.space.specs.Lists.{Placed};
ghost use Rattle.verdict_frame.specs.Frames.{difference_at, Rows, Level, left_at, right_at, Sought, unit_rows, line_rows, plane_rows};

use space::{Axis, Vec3};
use verdict_portal::Three;
use verdict_walk::{Difference, corner};

// Corner i of the first list less corner j of the second.
pub fn difference(first: &[i32], second: &[i32], i: usize, j: usize) -> Difference
    requires placed { Placed first.now × Placed second.now }
    requires i_bound { (i < corner_count first.now) × (j < corner_count second.now) }
    ensures { result ≡ difference_at first.now second.now i j }
{
    Difference {
        at: corner(first, i) - corner(second, j),
        first: i,
        cube: 0,
        second: j,
    }
}

// Whether p is level with three rows.
fn level(rows: Three<Vec3>, p: Vec3) -> bool
    requires { Rows rows × Upto point_reach p }
    ensures { Decides result (Level rows p) }
{
    rows.a.dot(p) == 0 && rows.b.dot(p) == 0 && rows.c.dot(p) == 0
}

// The two corners of the k-th look of the scan.
fn left_at(k: usize, m: usize) -> usize
    ensures { result ≡ left_at k m }
{
    if k < m { k } else { 0 }
}

fn right_at(k: usize, m: usize) -> usize
    ensures { result ≡ right_at k m }
{
    if k < m { 0 } else { k - m }
}

// The first difference of the scan that is not level with three rows; where there is none, no difference of the two lists is.
pub fn seek(rows: Three<Vec3>, first: &[i32], second: &[i32]) -> Option<Difference>
    requires rows { Rows rows }
    requires placed { Placed first.now × Placed second.now }
    ensures { Sought rows first.now second.now result }
{
    let m = first.len() / 3;
    let n = second.len() / 3;
    for k in 0..m + n {
        let p = difference(first, second, left_at(k, m), right_at(k, m));
        if !level(rows, p.at) {
            return Some(p);
        }
    }
    None
}

// Rows that only the origin is level with.
pub fn unit_rows() -> Three<Vec3>
    ensures { (result ≡ unit_rows) × Rows result }
{
    Three {
        a: Axis::X.unit(),
        b: Axis::Y.unit(),
        c: Axis::Z.unit(),
    }
}

// Rows that only what is along v is level with.
pub fn line_rows(v: Vec3) -> Three<Vec3>
    requires { Upto 262144 v }
    ensures { (result ≡ line_rows v) × Rows result }
{
    let Vec3 { x, y, z } = v;
    Three {
        a: Vec3 { x: 0, y: z, z: -y },
        b: Vec3 { x: -z, y: 0, z: x },
        c: Vec3 { x: y, y: -x, z: 0 },
    }
}

// Rows that only what is in the plane of n is level with.
pub fn plane_rows(n: Vec3) -> Three<Vec3>
    requires { Upto normal_reach n }
    ensures { (result ≡ plane_rows n) × Rows result }
{
    Three { a: n, b: n, c: n }
}
