// One round of the walk: which corner of the portal the new point replaces, or that the origin is met.
// All signs are of small numbers; specs/ shows what they say of the shifted points, of which the walk's proof speaks.
#![tactic(auto)]

ghost use Rattle.std.specs.Prelude.{◌≡◌, pos};
ghost use Rattle.std.specs.Int.Signed.{lt_z};
ghost use Rattle.space.specs.Vectors.{cross};
ghost use Rattle.space.specs.Ranges.{Upto, point_reach, shift_reach, edge_reach, cross_reach};
ghost use Rattle.verdict_portal.specs.Shift.{side, tie};
ghost use Rattle.verdict_portal.specs.Rounds.{leading_of, both_of, slot_of, Ready, Edges, RoundSays};

use space::{Vec3, first_of};

// Three of a kind: the points of a portal with what they come from or where they are, the frame whose ray decides ties, the edges of a portal.
#[derive(Clone, Copy)]
pub struct Three<T> {
    pub a: T,
    pub b: T,
    pub c: T,
}

// A corner's place in a portal.
#[derive(Clone, Copy, PartialEq, Eq)]
pub enum Slot {
    First,
    Second,
    Third,
}

// Whether p is outside at the edge x = b × c. Only where p is level with it does the shift decide.
fn outside(q: Vec3, p: Vec3, b: Vec3, c: Vec3, x: Vec3) -> bool
    requires upto { Upto shift_reach q × Upto point_reach p × Upto point_reach b × Upto point_reach c }
    requires x_value { (x ≡ cross b c) × Upto edge_reach x }
    ensures { result ≡ lt_z (side q p b c) (pos 0) }
{
    let u = x.dot(p);
    if u == 0 {
        let e = p.cross(b - c);
        return (x + e).dot(q) < 0;
    }
    u < 0
}

// The first of m·a, m·b, m·c that is not 0.
fn leading(m: Vec3, f: Three<Vec3>) -> i64
    requires { Upto cross_reach m × Upto point_reach f.a × Upto point_reach f.b × Upto point_reach f.c }
    ensures { result ≡ leading_of m f }
{
    first_of(m.dot(f.a), first_of(m.dot(f.b), m.dot(f.c)))
}

// On which side of the ray the edge from p to r passes. Only where the ray meets it does the shift decide.
fn tied(q: Vec3, p: Vec3, r: Vec3, f: Three<Vec3>) -> bool
    requires { Upto shift_reach q × Upto point_reach p × Upto point_reach r × Upto point_reach f.a × Upto point_reach f.b × Upto point_reach f.c }
    ensures { result ≡ lt_z (tie q p r f.a f.b f.c) (pos 0) }
{
    let u = leading(p.cross(r), f);
    if u == 0 {
        let n = (p - r).cross(q);
        return leading(n, f) < 0;
    }
    u < 0
}

// In a slot's round: whether p takes the next corner's place, and not the slot's own. That is where p is outside at the next edge too and the tie says so.
fn beside(next: bool, q: Vec3, p: Vec3, r: Vec3, f: Three<Vec3>) -> bool
    requires { Upto shift_reach q × Upto point_reach p × Upto point_reach r × Upto point_reach f.a × Upto point_reach f.b × Upto point_reach f.c }
    ensures { result ≡ both_of next (lt_z (tie q p r f.a f.b f.c) (pos 0)) }
{
    next && tied(q, p, r, f)
}

// The slot whose round it is, by the edges that p is outside of; none where it is inside at all three.
fn slot_of(first: bool, second: bool, third: bool) -> Option<Slot>
    ensures { result ≡ slot_of first second third }
{
    match (first, second, third) {
        (true, _, false) => Some(Slot::First),
        (false, true, _) => Some(Slot::Second),
        (_, _, true) => Some(Slot::Third),
        _ => None,
    }
}

// One round: the corner that p replaces; or none, and the origin is met. The portal's edges x are at hand.
pub fn round(q: Vec3, f: Three<Vec3>, t: Three<Vec3>, x: Three<Vec3>, p: Vec3) -> Option<Slot>
    requires ready { Ready q f t p }
    requires edges { Edges t x }
    ensures { RoundSays q f t p result }
{
    let first = outside(q, p, t.b, t.c, x.a);
    let second = outside(q, p, t.c, t.a, x.b);
    let third = outside(q, p, t.a, t.b, x.c);
    match slot_of(first, second, third) {
        None => None,
        Some(Slot::First) => {
            if beside(second, q, p, t.c, f) {
                Some(Slot::Second)
            } else {
                Some(Slot::First)
            }
        }
        Some(Slot::Second) => {
            if beside(third, q, p, t.a, f) {
                Some(Slot::Third)
            } else {
                Some(Slot::Second)
            }
        }
        Some(Slot::Third) => {
            if beside(first, q, p, t.b, f) {
                Some(Slot::First)
            } else {
                Some(Slot::Third)
            }
        }
    }
}
