// A shape's box: its least and its greatest number on each axis, before any turn.
// One visit of the corners gives all six.
ghost use Rattle.std.specs.Prelude.{◌≡◌, ◌<◌, ◌≤◌};
ghost use Rattle.limits.specs.Limits;
ghost use Rattle.ints.specs.Bounds.{Within};
ghost use Rattle.pieces_box.specs.ShapeBox.{box_to, box_from, ends_from, stretched, widened, opposed, moved_by, ends_along, BoxAt, Boxed, NearEnds, NearBox};

use pieces::index::index_of;
use turns::axis_number;

// The least and the greatest number on one axis.
#[derive(Clone, Copy)]
pub struct Ends {
    pub low: i32,
    pub high: i32,
}

// The ends on each axis.
#[derive(Clone, Copy)]
pub struct ShapeBox {
    pub x: Ends,
    pub y: Ends,
    pub z: Ends,
}

// The table of boxes: one for each shape.
pub type Boxes = [ShapeBox; limits::SHAPES];

// What stands for the box of a shape that has none.
// Stays: the table is read at loaded shapes alone; an Option would give every reading an arm that is never taken.
const NO_BOX: ShapeBox = ShapeBox {
    x: Ends { low: 0, high: 0 },
    y: Ends { low: 0, high: 0 },
    z: Ends { low: 0, high: 0 },
};

impl Ends {
    // The ends of one number.
    fn of(v: i32) -> Ends
        ensures { result ≡ ends_from v }
    {
        Ends { low: v, high: v }
    }

    // The ends with one number more.
    fn stretched(self, v: i32) -> Ends
        ensures { result ≡ stretched self v }
    {
        Ends {
            low: v.min(self.low),
            high: v.max(self.high),
        }
    }

    // Negated and exchanged.
    fn opposed(self) -> Ends
        requires { NearEnds self }
        ensures { result ≡ opposed self }
    {
        Ends {
            low: -self.high,
            high: -self.low,
        }
    }

    // Moved by an offset.
    pub(crate) fn moved_by(self, offset: i32) -> Ends
        requires { NearEnds self × Within Limits.shape_reach offset }
        ensures { result ≡ moved_by self offset }
    {
        Ends {
            low: self.low + offset,
            high: self.high + offset,
        }
    }
}

impl ShapeBox {
    // The box of one corner.
    fn of(x: i32, y: i32, z: i32) -> ShapeBox
        ensures { result ≡ box_from x y z }
    {
        ShapeBox {
            x: Ends::of(x),
            y: Ends::of(y),
            z: Ends::of(z),
        }
    }

    // The box with one corner more.
    fn widened(self, x: i32, y: i32, z: i32) -> ShapeBox
        ensures { result ≡ widened self x y z }
    {
        ShapeBox {
            x: self.x.stretched(x),
            y: self.y.stretched(y),
            z: self.z.stretched(z),
        }
    }

    // The ends along a signed axis: negated and exchanged where it is less than 0.
    pub(crate) fn along(&self, k: i8) -> Ends
        requires { NearBox self.now }
        ensures { result ≡ ends_along self.now k }
    {
        let ends = match axis_number(k) {
            0 => self.x,
            1 => self.y,
            _ => self.z,
        };
        if k < 0 { ends.opposed() } else { ends }
    }
}

// The box of a shape's first corners.
fn shape_box(shapes: &[i32; limits::SHAPES_LENGTH], shape: usize, count: usize) -> ShapeBox
    requires { (shape < Limits.shapes) × (1 ≤ count) × (count ≤ Limits.corners) }
    ensures { result ≡ box_to shapes.now shape count }
{
    let start = shape * limits::SHAPE_CELLS + 1;
    let mut b = ShapeBox::of(shapes[start], shapes[start + 1], shapes[start + 2]);
    for i in 1..count {
        let at = start + 3 * i;
        b = b.widened(shapes[at], shapes[at + 1], shapes[at + 2]);
    }
    b
}

// The box of a shape that is loaded and has no more corners than it may; of any other the box of the origin.
fn box_at(shapes: &[i32; limits::SHAPES_LENGTH], shape: usize) -> ShapeBox
    requires { shape < Limits.shapes }
    ensures { BoxAt shapes.now shape result }
{
    match index_of(shapes[shape * limits::SHAPE_CELLS], limits::CORNERS + 1) {
        None | Some(0) => NO_BOX,
        Some(count) => shape_box(shapes, shape, count),
    }
}

// The boxes of all shapes.
pub fn boxes_of(shapes: &[i32; limits::SHAPES_LENGTH]) -> Boxes
    ensures { Boxed shapes.now result }
{
    let mut boxes = [NO_BOX; limits::SHAPES];
    for shape in 0..limits::SHAPES {
        boxes[shape] = box_at(shapes, shape);
    }
    boxes
}
