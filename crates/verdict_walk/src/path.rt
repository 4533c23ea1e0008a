// The walk itself: from portal to portal, until the whole difference is behind one or the origin is met.
// One loop serves both phases; its shift is zero in the first.
ghost use Rattle.std.specs.Prelude.{◌≡◌, pos};
ghost use Rattle.std.specs.Int.Signed.{lt_z};
ghost use Rattle.ints.specs.Sign.{lex};
ghost use Rattle.space.specs.Vectors.{dot, plus};
ghost use Rattle.space.specs.Ranges.{Upto, point_reach, shift_reach, edge_reach, normal_reach};
ghost use Rattle.verdict_portal.specs.Rounds.{Edges};
ghost use Rattle.verdict_walk.specs.Ends.{places_of, Corners, replaced, Ground, Begun, Walked};

use crate::support::{Difference, support};
use space::{Vec3, first_of};
use verdict_portal::{Slot, Three, round};

// A portal: three points of the difference.
pub type Portal = Three<Difference>;

// Where a walk ended: at a portal with its normal, by the last point that was looked at.
// Stays: both ends tell all of it, so `met` guards no field; two edits of crate `verdict` read the normal where the origin was met.
#[derive(Clone, Copy)]
pub struct Ended {
    pub met: bool,
    pub portal: Portal,
    pub normal: Vec3,
    pub last: Difference,
}

fn places_of(t: Portal) -> Three<Vec3>
    ensures { result ≡ places_of t }
{
    Three {
        a: t.a.at,
        b: t.b.at,
        c: t.c.at,
    }
}

// The edges of a portal: the products of its corners two by two, made once for its normal and its round.
fn edges_of(t: Three<Vec3>) -> Three<Vec3>
    requires { Corners t }
    ensures { Edges t result }
{
    Three {
        a: t.b.cross(t.c),
        b: t.c.cross(t.a),
        c: t.a.cross(t.b),
    }
}

// The normal of a portal, from its edges.
fn normal_of(x: Three<Vec3>) -> Vec3
    requires { Upto edge_reach x.a × Upto edge_reach x.b × Upto edge_reach x.c }
    ensures { (result ≡ plus (plus x.a x.b) x.c) × Upto normal_reach result }
{
    x.a + x.b + x.c
}

// Whether the support p is behind n, so that all of the difference is.
fn behind(q: Vec3, n: Vec3, p: Vec3) -> bool
    requires { Upto shift_reach q × Upto normal_reach n × Upto point_reach p }
    ensures { result ≡ lt_z (lex (dot n p) (dot n q)) (pos 0) }
{
    first_of(n.dot(p), n.dot(q)) < 0
}

// The portal with p for the corner in a slot.
fn replaced(t: Portal, s: Slot, p: Difference) -> Portal
    ensures { result ≡ replaced s t p }
{
    match s {
        Slot::First => Three { a: p, ..t },
        Slot::Second => Three { b: p, ..t },
        Slot::Third => Three { c: p, ..t },
    }
}

// From a portal of the difference, with the frame f and the shift q, to one that the whole difference is behind, or to a meeting.
pub fn walk(q: Vec3, f: Three<Vec3>, from: Portal, g: Vec3, first: &[i32], second: &[i32]) -> Ended
    requires placed { Ground first.now second.now g }
    requires begun { Begun first.now second.now g q f from }
    ensures { Walked first.now second.now g q f result }
{
    let mut t = from;
    loop {
        let v = places_of(t);
        let x = edges_of(v);
        let normal = normal_of(x);
        let last = support(normal, g, first, second);
        if behind(q, normal, last.at) {
            return Ended {
                met: false,
                portal: t,
                normal,
                last,
            };
        }
        match round(q, f, v, x, last.at) {
            Some(s) => t = replaced(t, s, last),
            None => {
                return Ended {
                    met: true,
                    portal: t,
                    normal,
                    last,
                };
            }
        }
    }
}
