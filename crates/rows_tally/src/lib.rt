// The tallies of a desk as a lent array, its book (document 01, "Rows"): whether they count the rows, counted afresh, and followed as rows change.
// A verdict is counted in the cell of its number; the gap of W6 has a cell of its own, and the rest of the book is 0.
#![tactic(auto)]

ghost use Rattle.std.specs.Prelude.{◌≡◌, ◌+◌, ◌≤◌, ◌<◌, eqb, length, take};
ghost use Rattle.limits.specs.Limits;
ghost use Rattle.limits.specs.Decides.{Decides};
ghost use Rattle.ints.specs.Counts.{one_if, sum_to, count_of};
ghost use Rattle.rows.specs.Rows.{cell, RowsInOrder};
ghost use Rattle.rows_tally.specs.Tallies.{BookInOrder, gap_in, gap_put, one_if_taken, taken_places, pairs_of};

use pieces::taking::is_taken;

mod changes;

pub use changes::{clear_place, put_row};

// The gap that a book holds.
pub fn gap_of(book: &[u32; limits::BOOK]) -> u32
    ensures { result ≡ gap_in book.now }
{
    book[limits::GAP_CELL]
}

// The gap of a book set.
pub fn put_gap(book: &mut [u32; limits::BOOK], gap: u32)
    ensures { book.new ≡ gap_put book.old gap }
{
    book[limits::GAP_CELL] = gap;
}

// Whether the tallies count the rows, the gap is in range, and the rest of the book is 0. The rows are in order, so that the taken places tell how many there are to count.
pub fn book_in_order(
    places: &[i32; limits::PLACES_LENGTH],
    rows: &[u8; limits::ROWS],
    book: &[u32; limits::BOOK],
) -> bool
    requires { RowsInOrder places.now rows.now }
    ensures { Decides result (BookInOrder rows.now book.now) }
{
    let gap = gap_of(book);
    if (limits::GAP_MOST as u32) < gap {
        return false;
    }
    let mut right = recounted(rows, pairs_of(places));
    put_gap(&mut right, gap);
    *book == right
}

// How many pairs the taken places make.
fn pairs_of(places: &[i32; limits::PLACES_LENGTH]) -> u32
    ensures { result ≡ pairs_of places.now }
{
    let n = taken_places(places);
    n * n.saturating_sub(1) / 2
}

fn taken_places(places: &[i32; limits::PLACES_LENGTH]) -> u32
    ensures { (result ≡ taken_places places.now) × (result ≤ Limits.places) }
{
    let mut n = 0;
    for place in 0..limits::PLACES {
        n += u32::from(is_taken(places, place));
    }
    n
}

// A book of the tallies counted afresh, and no gap; so many rows hold a verdict.
fn recounted(rows: &[u8; limits::ROWS], many: u32) -> [u32; limits::BOOK]
    requires { many ≡ sum_to Limits.tallies (λ v. count_of v rows.now) }
    ensures { BookInOrder rows.now result }
{
    let mut book = [0; limits::BOOK];
    let mut left = many;
    for verdict in 0..limits::TALLIES {
        let n = tally_left(rows, verdict as u8, left);
        book[verdict] = n;
        left -= n;
    }
    book
}

// How many rows hold a verdict, where so many are left to be counted: no line is gone through for none.
fn tally_left(rows: &[u8; limits::ROWS], verdict: u8, left: u32) -> u32
    requires { count_of verdict rows.now ≤ left }
    ensures { result ≡ count_of verdict rows.now }
{
    if left == 0 {
        0
    } else {
        tally_of(rows, verdict)
    }
}

// How many rows hold a verdict, added up line by line.
fn tally_of(rows: &[u8; limits::ROWS], verdict: u8) -> u32
    ensures { result ≡ count_of verdict rows.now }
{
    let mut n = 0;
    for low in 0..limits::PLACES {
        n += u32::from(tally_in_line(rows, low, verdict));
    }
    n
}

// How many rows of the line of a place hold a verdict. A line's number fits a byte, so that many cells are counted at a time.
fn tally_in_line(rows: &[u8; limits::ROWS], low: usize, verdict: u8) -> u8
    requires { low < Limits.places }
    ensures { count_of verdict (take (cell low Limits.places) rows.now) ≡ count_of verdict (take (cell low 0) rows.now) + result }
{
    let start = low * limits::PLACES;
    let mut n = 0;
    for &v in &rows[start..start + limits::PLACES] {
        n += u8::from(v == verdict);
    }
    n
}
