// A frame of the difference: three of its points that do not lie in a plane with the origin, or, where it is flat, such points of it made thick.
// One scan, asked for what is not level with three rows, finds each of them; where a gap widens the difference, no scan is needed.
ghost use Rattle.std.specs.Prelude.{◌≡◌, ◌≤◌};
ghost use Rattle.limits.specs.Limits.{gap_most};
ghost use Rattle.space.specs.Ranges.{Upto};
ghost use Rattle.space.specs.Lists.{Placed};
ghost use Rattle.verdict_frame.specs.Frames.{OffPoint, Wide, Framed, Widened};

use crate::scan::{difference, line_rows, plane_rows, seek, unit_rows};
use crate::thick::{at_a_point, in_a_plane, on_a_line, thick};
use space::Vec3;
use verdict_walk::{Difference, signed};

// Three independent points of the difference, and the half-widths of the box: the gap's cube, or what makes the difference thick where it is flat.
#[derive(Clone, Copy)]
pub struct Frame {
    pub widths: Vec3,
    pub a: Difference,
    pub b: Difference,
    pub c: Difference,
}

// The frame, once two differences are known that are not along one line.
fn frame_in_space(a: Difference, b: Difference, first: &[i32], second: &[i32]) -> Frame
    requires placed { Placed first.now × Placed second.now }
    requires wide { Wide first.now second.now a b }
    ensures { Framed 0 first.now second.now result }
{
    let n = a.at.cross(b.at);
    match seek(plane_rows(n), first, second) {
        Some(c) => Frame {
            widths: Vec3::ORIGIN,
            a,
            b,
            c,
        },
        None => in_a_plane(a, b, n),
    }
}

// The frame, once one difference is known that is not the origin.
fn frame_off_the_point(a: Difference, first: &[i32], second: &[i32]) -> Frame
    requires placed { Placed first.now × Placed second.now }
    requires off_point { OffPoint first.now second.now a }
    ensures { Framed 0 first.now second.now result }
{
    match seek(line_rows(a.at), first, second) {
        Some(b) => frame_in_space(a, b, first, second),
        None => on_a_line(a),
    }
}

// Three independent points of the difference of two lists with no gap, thick where it is flat.
fn plain_frame(first: &[i32], second: &[i32]) -> Frame
    requires { Placed first.now × Placed second.now }
    ensures { Framed 0 first.now second.now result }
{
    match seek(unit_rows(), first, second) {
        Some(a) => frame_off_the_point(a, first, second),
        None => at_a_point(),
    }
}

// The gap's cube about p: it is solid, and three of its corners away from the origin's height are independent.
fn widened(gap: u32, p: Difference) -> Frame
    requires gap_le_gap_most { gap ≤ gap_most }
    requires upto { Upto 262144 p.at }
    ensures { Widened gap p result }
{
    let g = i64::from(gap);
    let z = signed(p.at.z, g);
    Frame {
        widths: Vec3 { x: g, y: g, z: g },
        a: thick(p, Vec3 { x: g, y: g, z }),
        b: thick(p, Vec3 { x: -g, y: g, z }),
        c: thick(p, Vec3 { x: g, y: -g, z }),
    }
}

// Three independent points of the difference of two lists, the first widened by a gap.
pub fn frame_of(gap: u32, first: &[i32], second: &[i32]) -> Frame
    requires gap_le_gap_most { gap ≤ gap_most }
    requires placed { Placed first.now × Placed second.now }
    ensures { Framed gap first.now second.now result }
{
    if gap == 0 {
        return plain_frame(first, second);
    }
    widened(gap, difference(first, second, 0, 0))
}
