// The rows of a handled piece: each worked out anew, by the boxes first and else by the verdict of the two pieces.
// The lower place is the first piece, which the gap widens. The tallies follow each row that is put.
ghost use Rattle.std.specs.Prelude.{◌≡◌, ◌<◌, ◌≤◌};
ghost use Rattle.limits.specs.Limits;
ghost use Rattle.marks.specs.Keys.{KeyedMarks};
ghost use Rattle.rows.specs.Rows.{Handled};
ghost use Rattle.rows_tally.specs.Tallies.{BookInOrder, BookFollows, gap_in};
ghost use Rattle.pieces.specs.Pieces.{store_of, axes_of, piece_at};
ghost use Rattle.pieces.specs.Boxes.{PlacedPiece};
ghost use Rattle.verdict.specs.Answers.{Carries, answer_with};
ghost use Rattle.rows_right.specs.Right.{RowRight};
ghost use Rattle.rows_right.specs.RowLaws.{OneMore};

use marks::Keys;
use pieces::placed::{piece_count, piece_numbers};
use pieces::taking::is_taken;
use pieces_box::apart::boxes_apart;
use rows_tally::{gap_of, put_row};
use verdict::{Verdict, verdict};

// The right row of two taken places, by the keys of the marks.
fn row_of(
    gap: u32,
    shapes: &[i32; limits::SHAPES_LENGTH],
    places: &[i32; limits::PLACES_LENGTH],
    keys: &Keys,
    low: usize,
    high: usize,
) -> u8
    requires placed_piece { PlacedPiece (store_of shapes.now places.now) low × PlacedPiece (store_of shapes.now places.now) high }
    requires gap_bound { (gap ≤ Limits.gap_most) × KeyedMarks (axes_of (store_of shapes.now places.now)) keys.now.x keys.now.y keys.now.z }
    ensures { RowRight gap (store_of shapes.now places.now) low high result }
{
    if boxes_apart(gap, keys, low, high) {
        return limits::APART;
    }
    verdict_of(gap, shapes, places, low, high).number()
}

// The verdict of the pieces at two taken places, with its witnesses.
pub fn verdict_of(
    gap: u32,
    shapes: &[i32; limits::SHAPES_LENGTH],
    places: &[i32; limits::PLACES_LENGTH],
    first: usize,
    second: usize,
) -> Verdict
    requires placed_piece { PlacedPiece (store_of shapes.now places.now) first × PlacedPiece (store_of shapes.now places.now) second }
    requires gap_bound { gap ≤ Limits.gap_most }
    ensures { Carries gap (piece_at (store_of shapes.now places.now) first) (piece_at (store_of shapes.now places.now) second) (answer_with result) }
{
    let n = piece_count(shapes, places, first);
    let m = piece_count(shapes, places, second);
    let a = piece_numbers(shapes, places, first);
    let b = piece_numbers(shapes, places, second);
    verdict(gap, &a[..3 * n], &b[..3 * m])
}

// The rows of the piece at a place with every other taken place, by the keys of the marks. The gap is the book's, read once for all of them.
pub fn put_rows(
    shapes: &[i32; limits::SHAPES_LENGTH],
    places: &[i32; limits::PLACES_LENGTH],
    rows: &mut [u8; limits::ROWS],
    book: &mut [u32; limits::BOOK],
    keys: &Keys,
    place: usize,
)
    requires placed_piece { PlacedPiece (store_of shapes.now places.now) place × BookInOrder rows.old book.old }
    requires keyed_marks { KeyedMarks (axes_of (store_of shapes.now places.now)) keys.now.x keys.now.y keys.now.z }
    ensures rows { Handled (RowRight (gap_in book.old) (store_of shapes.now places.now))
        places.now place Limits.places rows.old rows.new }
    ensures book { BookFollows rows.new book.old book.new }
{
    let gap = gap_of(book);
    for other in 0..limits::PLACES {
        put_pair(gap, shapes, places, rows, book, keys, place, other);
    }
}

// The row of one other place, if it is another and taken.
fn put_pair(
    gap: u32,
    shapes: &[i32; limits::SHAPES_LENGTH],
    places: &[i32; limits::PLACES_LENGTH],
    rows: &mut [u8; limits::ROWS],
    book: &mut [u32; limits::BOOK],
    keys: &Keys,
    place: usize,
    other: usize,
)
    requires placed_piece { PlacedPiece (store_of shapes.now places.now) place × BookInOrder rows.old book.old × (other < Limits.places) }
    requires gap_bound { (gap ≤ Limits.gap_most) × KeyedMarks (axes_of (store_of shapes.now places.now)) keys.now.x keys.now.y keys.now.z }
    ensures rows { OneMore gap (store_of shapes.now places.now) place other rows.old rows.new }
    ensures book { BookFollows rows.new book.old book.new }
{
    if is_taken(places, other) {
        if other < place {
            let v = row_of(gap, shapes, places, keys, other, place);
            put_row(rows, book, other, place, v);
            return;
        }
        if place < other {
            let v = row_of(gap, shapes, places, keys, place, other);
            put_row(rows, book, place, other, v);
        }
    }
}
