// Flat differences made thick: a box along the axes that complete their span, and three of the points that it makes.
// At a point, on a line, in a plane: one function for each.
ghost use Rattle.std.specs.Prelude.{◌≡◌};
ghost use Rattle.space.specs.Ranges.{Upto, point_reach, normal_reach};
ghost use Rattle.verdict_frame.specs.Frames.{AxisOf, box_corner, thick_of, point_frame, OnLine, InPlane};

use crate::frame::Frame;
use space::{Axis, Vec3};
use verdict_walk::{Difference, cube_of};

// An axis along which v is not 0, where there is one.
fn axis_of(v: Vec3) -> Axis
    requires { Upto normal_reach v }
    ensures { AxisOf v result }
{
    if v.x != 0 {
        return Axis::X;
    }
    if v.y != 0 {
        return Axis::Y;
    }
    Axis::Z
}

// p moved by w, which is a corner of the box: still of the same two corners.
pub fn thick(p: Difference, w: Vec3) -> Difference
    requires { Upto point_reach p.at × Upto point_reach w }
    ensures { result ≡ thick_of p w }
{
    Difference {
        at: p.at + w,
        cube: cube_of(w),
        ..p
    }
}

// A corner of the box about the first two corners, which are one point.
fn box_corner(at: Vec3, cube: usize) -> Difference
    ensures { result ≡ box_corner at cube }
{
    Difference {
        at,
        first: 0,
        cube,
        second: 0,
    }
}

// All differences are 0: a box along every axis.
pub fn at_a_point() -> Frame
    ensures { result ≡ point_frame }
{
    Frame {
        widths: Vec3 { x: 1, y: 1, z: 1 },
        a: box_corner(Vec3 { x: 1, y: 1, z: 1 }, 7),
        b: box_corner(Vec3 { x: -1, y: 1, z: 1 }, 3),
        c: box_corner(Vec3 { x: 1, y: -1, z: 1 }, 5),
    }
}

// All differences are along a: a box along the two axes besides one of a's.
pub fn on_a_line(a: Difference) -> Frame
    requires { Upto 262144 a.at }
    ensures { OnLine a result }
{
    let j = axis_of(a.at).next();
    let e = j.unit();
    let f = j.next().unit();
    let widths = e + f;
    Frame {
        widths,
        a: thick(a, widths),
        b: thick(a, f - e),
        c: thick(a, e - f),
    }
}

// All differences are in the plane of n, which is a × b: a box along an axis that leaves it.
pub fn in_a_plane(a: Difference, b: Difference, n: Vec3) -> Frame
    requires { Upto 262144 a.at × Upto 262144 b.at × Upto normal_reach n }
    ensures { InPlane a b n result }
{
    let e = axis_of(n).unit();
    Frame {
        widths: e,
        a: thick(a, e),
        b: thick(b, e),
        c: thick(a, -e),
    }
}
