// What a walk starts from: the places of a frame's points, the portal that they make the right way round, and the shift of the weak walk.
// The determinant of the three says which way is right.
ghost use Rattle.std.specs.Prelude.{◌≡◌, pos};
ghost use Rattle.std.specs.Int.Signed.{lt_z};
ghost use Rattle.space.specs.Vectors.{det};
ghost use Rattle.verdict_portal.specs.Exits.{sum3};
ghost use Rattle.verdict_walk.specs.Ends.{Corners};
ghost use Rattle.verdict_frame.specs.Frames.{frame_places, FirstPortal};

use crate::frame::Frame;
use space::{Vec3, det};
use verdict_portal::Three;
use verdict_walk::Portal;

pub fn frame_places(f: Frame) -> Three<Vec3>
    ensures { result ≡ frame_places f }
{
    Three {
        a: f.a.at,
        b: f.b.at,
        c: f.c.at,
    }
}

// Whether a portal has the origin on its inner side.
fn right_way(v: Three<Vec3>) -> bool
    requires { Corners v }
    ensures { result ≡ lt_z (det v.a v.b v.c) (pos 0) }
{
    det(v.a, v.b, v.c) < 0
}

// The portal that a frame's three points make, the right way round.
pub fn start_of(f: Frame) -> Portal
    requires { Corners (frame_places f) }
    ensures { FirstPortal f result }
{
    let Frame { a, b, c, .. } = f;
    if right_way(frame_places(f)) {
        return Three { a, b, c };
    }
    Three { a, b: c, c: b }
}

// The shift of the weak walk: the sum of a frame's three points.
pub fn shift_of(v: Three<Vec3>) -> Vec3
    requires { Corners v }
    ensures { result ≡ sum3 v.a v.b v.c }
{
    v.a + v.b + v.c
}
