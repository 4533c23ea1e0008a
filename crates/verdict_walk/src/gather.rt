// The pairs of a meeting: each corner of the last portal, and the last point, with its weight by Cramer's rule.
// A pair without weight is left out, and with no gap a pair names cube corner 0.
ghost use Rattle.std.specs.Prelude.{◌≡◌};
ghost use Rattle.ints.specs.Bounds.{Within};
ghost use Rattle.space.specs.Ranges.{weight_reach};
ghost use Rattle.verdict_walk.specs.Ends.{Near};
ghost use Rattle.verdict_walk.specs.Gather.{named, nothing_yet, Pushed, Room, Weighed};

use crate::path::Ended;
use crate::support::Difference;
use space::{Pair, Pairs, det};
use verdict_portal::Three;

// No pair yet: all four are zero.
fn nothing_yet() -> Pairs
    ensures { result ≡ nothing_yet }
{
    let none = Pair {
        first: 0,
        cube: 0,
        second: 0,
        weight: 0,
    };
    Pairs {
        count: 0,
        pairs: [none; 4],
    }
}

// The cube corner that a pair names: with no gap 0, whatever corner of the box its point has.
fn named(gap: u32, cube: usize) -> usize
    ensures { result ≡ named gap cube }
{
    if gap == 0 { 0 } else { cube }
}

// One point more with its weight, unless it weighs nothing.
fn push(gap: u32, g: Pairs, p: Difference, w: i64) -> Pairs
    requires room { Room 3 g }
    requires within { Within weight_reach w }
    ensures { Pushed gap g p w result }
{
    if w == 0 {
        return g;
    }
    let mut pairs = g.pairs;
    pairs[g.count] = Pair {
        first: p.first,
        cube: named(gap, p.cube),
        second: p.second,
        weight: w,
    };
    Pairs {
        count: g.count + 1,
        pairs,
    }
}

// The pairs of a meeting: the last point and the portal's three, with the weights that balance them.
pub fn gathered_of(gap: u32, e: Ended) -> Pairs
    requires { Near e }
    ensures { Weighed gap e result }
{
    let Three { a, b, c } = e.portal;
    let p = e.last;
    let one = push(gap, nothing_yet(), p, -det(a.at, b.at, c.at));
    let two = push(gap, one, a, det(p.at, b.at, c.at));
    let three = push(gap, two, b, det(a.at, p.at, c.at));
    push(gap, three, c, det(a.at, b.at, p.at))
}
