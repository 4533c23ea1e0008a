// A desk is five lent arrays, which travel together; and the order test of a whole desk, which every command and question makes first.
// The boxes of the shapes and the keys of the marks are worked out once for the test, and lent on to whoever goes on with the desk.
#![tactic(auto)]

ghost use Rattle.std.specs.Prelude.{◌≡◌, true};
ghost use Rattle.limits.specs.Decides.{Decides};
ghost use Rattle.pieces_box.specs.ShapeBox.{Boxed};
ghost use Rattle.desk_state.specs.Desk.{InOrder};
ghost use Rattle.desk_state.specs.Lent.{held, of_book, of_places, of_shapes, seen};
ghost use Rattle.desk_state.specs.Worked.{Worked, RestDecided};

use marks::Keys;
use marks_test::in_place_marks;
use pieces_box::boxes::{Boxes, boxes_of};
use pieces_box::keys::put_keys;
use pieces_test::pieces_in_order;
use rows::rows_in_order;
use rows_tally::book_in_order;

// The state of a desk (document 01), none of which it owns: a command is lent it to change.
#[derive(Drop)]
pub struct LentDesk<'a> {
    pub shapes: &'a mut [i32; limits::SHAPES_LENGTH],
    pub places: &'a mut [i32; limits::PLACES_LENGTH],
    pub rows: &'a mut [u8; limits::ROWS],
    pub book: &'a mut [u32; limits::BOOK],
    pub marks: &'a mut [u16],
}

// The same where the shapes alone are lent to be changed: what a load is lent.
#[derive(Drop)]
pub struct LentShapes<'a> {
    pub shapes: &'a mut [i32; limits::SHAPES_LENGTH],
    pub places: &'a [i32; limits::PLACES_LENGTH],
    pub rows: &'a [u8; limits::ROWS],
    pub book: &'a [u32; limits::BOOK],
    pub marks: &'a [u16],
}

// The same where the book alone is lent to be changed: what the setting of a gap is lent.
#[derive(Drop)]
pub struct LentBook<'a> {
    pub shapes: &'a [i32; limits::SHAPES_LENGTH],
    pub places: &'a [i32; limits::PLACES_LENGTH],
    pub rows: &'a [u8; limits::ROWS],
    pub book: &'a mut [u32; limits::BOOK],
    pub marks: &'a [u16],
}

// The same where the shapes are lent to be read alone: what placing, moving and removing a piece are lent.
#[derive(Drop)]
pub struct LentPlaces<'a> {
    pub shapes: &'a [i32; limits::SHAPES_LENGTH],
    pub places: &'a mut [i32; limits::PLACES_LENGTH],
    pub rows: &'a mut [u8; limits::ROWS],
    pub book: &'a mut [u32; limits::BOOK],
    pub marks: &'a mut [u16],
}

// The same, lent to be read alone: by the order test and the questions.
#[derive(Clone, Copy)]
pub struct SeenDesk<'a> {
    pub shapes: &'a [i32; limits::SHAPES_LENGTH],
    pub places: &'a [i32; limits::PLACES_LENGTH],
    pub rows: &'a [u8; limits::ROWS],
    pub book: &'a [u32; limits::BOOK],
    pub marks: &'a [u16],
}

// What is worked out of a desk once for a command: the boxes of its shapes, and the keys of its marks on each axis.
#[derive(Drop)]
pub struct WorkedOut {
    pub boxes: Boxes,
    pub keys: Keys,
}

impl WorkedOut {
    // The boxes of these shapes; the keys are worked out by the order test.
    pub fn boxes_of(shapes: &[i32; limits::SHAPES_LENGTH]) -> WorkedOut
        ensures { Boxed shapes.now result.boxes }
    {
        WorkedOut {
            boxes: boxes_of(shapes),
            keys: Keys::none(),
        }
    }
}

impl SeenDesk<'_> {
    // Whether a desk is in order, whatever its arrays hold and however long its marks buffer is.
    pub fn in_order(self) -> bool
        ensures { Decides result (InOrder (seen self.entry)) }
    {
        let mut worked = WorkedOut::boxes_of(self.shapes);
        self.tested(&worked.boxes, &mut worked.keys)
    }

    // The same, with the boxes of its shapes at hand; where it is in order, the keys are those of its marks.
    pub fn tested(self, boxes: &Boxes, keys: &mut Keys) -> bool
        requires { Boxed self.shapes.now boxes.now }
        ensures decided { Decides result (InOrder (seen self.entry)) }
        ensures worked { result ≡ true → Worked (seen self.entry).store boxes.now keys.new.x keys.new.y keys.new.z }
    {
        if !pieces_in_order(self.shapes, self.places, boxes) {
            return false;
        }
        put_keys(boxes, self.places, keys);
        self.rest_in_order(keys)
    }

    // Whether marks, rows and book are in order, where the shapes and places are; the keys are those of the marks.
    fn rest_in_order(self, keys: &Keys) -> bool
        ensures { RestDecided
            self.entry.places.now self.entry.rows.now self.entry.book.now self.entry.marks.now
            keys.now.x keys.now.y keys.now.z result }
    {
        if !in_place_marks(self.marks, keys) {
            return false;
        }
        if !rows_in_order(self.places, self.rows) {
            return false;
        }
        book_in_order(self.places, self.rows, self.book)
    }
}

impl LentDesk<'_> {
    pub fn seen(&self) -> SeenDesk<'_>
        ensures { seen result ≡ held self.now }
    {
        SeenDesk {
            shapes: self.shapes,
            places: self.places,
            rows: self.rows,
            book: self.book,
            marks: self.marks,
        }
    }
}

impl LentShapes<'_> {
    fn seen(&self) -> SeenDesk<'_>
        ensures { seen result ≡ of_shapes self.now }
    {
        SeenDesk {
            shapes: self.shapes,
            places: self.places,
            rows: self.rows,
            book: self.book,
            marks: self.marks,
        }
    }

    pub fn in_order(&self) -> bool
        ensures { Decides result (InOrder (of_shapes self.now)) }
    {
        self.seen().in_order()
    }
}

impl LentBook<'_> {
    fn seen(&self) -> SeenDesk<'_>
        ensures { seen result ≡ of_book self.now }
    {
        SeenDesk {
            shapes: self.shapes,
            places: self.places,
            rows: self.rows,
            book: self.book,
            marks: self.marks,
        }
    }

    pub fn in_order(&self) -> bool
        ensures { Decides result (InOrder (of_book self.now)) }
    {
        SeenDesk::in_order(self.seen())
    }
}

impl LentPlaces<'_> {
    pub fn seen(&self) -> SeenDesk<'_>
        ensures { seen result ≡ of_places self.now }
    {
        SeenDesk {
            shapes: self.shapes,
            places: self.places,
            rows: self.rows,
            book: self.book,
            marks: self.marks,
        }
    }

    // Whether the desk is in order, with the boxes of its shapes at hand; where it is, the keys are those of its marks.
    pub fn tested(&self, boxes: &Boxes, keys: &mut Keys) -> bool
        requires { Boxed self.now.shapes.now boxes.now }
        ensures decided { Decides result (InOrder (of_places self.now)) }
        ensures worked { result ≡ true → Worked (of_places self.now).store boxes.now keys.new.x keys.new.y keys.new.z }
    {
        self.seen().tested(boxes, keys)
    }
}
