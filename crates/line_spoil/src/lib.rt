// `spoil PART I V` puts V into cell I of a lent part as it stands, so that a script can hand in a desk that is not in order.
// It is no command where there is no such cell or V does not fit it.
#![tactic(auto)]

ghost use Rattle.std.specs.Prelude.{pos, get_or};
ghost use Rattle.line.specs.Behind.{behind, Finds};
ghost use Rattle.line.specs.Printed.{SameOut};
ghost use Rattle.line_spoil.specs.Cells.{parts, NoCell, CellAt, CellOf};

use line::names::name_of;
use line::out::Out;
use line::parts::{not_negative, number_at, numbers_behind};

// A cell of a part, and what is put there.
#[derive(Drop)]
pub enum Cell {
    Shapes(usize, i32),
    Places(usize, i32),
    Rows(usize, i32),
    Book(usize, i32),
    Marks(usize, i32),
    Bad,
}

// The most that a cell holds: of the rows, of the marks, of the book.
const MOST_BYTE: usize = 255;

const MOST_MARK: usize = 65535;

const MOST_COUNT: usize = 4294967295;

// The part's name and the two numbers behind the command's own word, which ends at `end`.
pub fn cell_of(line: &[u8], end: usize, numbers: &mut [i32]) -> Cell
    ensures { CellOf (behind line.now end) numbers.old result }
{
    if line.len() <= end {
        return Cell::Bad;
    }
    let name = text_words::word_end(line, end + 1);
    let Some(n) = numbers_behind(line, name, numbers) else {
        return Cell::Bad;
    };
    if n != 2 {
        return Cell::Bad;
    }
    of_numbers(&line[end + 1..name], numbers)
}

// The first number is the cell's and the second what is put there; no cell has a number below 0.
fn of_numbers(word: &[u8], numbers: &[i32]) -> Cell
    ensures { CellAt word.now (get_or numbers.now 0 (pos 0)) (get_or numbers.now 1 (pos 0)) result }
{
    let Some(i) = not_negative(number_at(numbers, 0)) else {
        return Cell::Bad;
    };
    of_part(word, i, number_at(numbers, 1))
}

fn of_part(word: &[u8], i: usize, v: i32) -> Cell
    ensures { Finds word.now (parts i v) NoCell result }
{
    match name_of(word, b" shapes places rows book marks") {
        0 => Cell::Shapes(i, v),
        1 => Cell::Places(i, v),
        2 => Cell::Rows(i, v),
        3 => Cell::Book(i, v),
        4 => Cell::Marks(i, v),
        _ => Cell::Bad,
    }
}

pub fn spoil(
    cell: Cell,
    shapes: &mut [i32; limits::SHAPES_LENGTH],
    places: &mut [i32; limits::PLACES_LENGTH],
    rows: &mut [u8; limits::ROWS],
    book: &mut [u32; limits::BOOK],
    marks: &mut [u16],
    out: &mut Out<'_>,
)
    ensures { SameOut out.old out.new }
{
    let done = put(cell, shapes, places, rows, book, marks);
    out.done_if(done);
}

// Whether there is such a cell, and it can hold the number: then it does.
fn put(
    cell: Cell,
    shapes: &mut [i32; limits::SHAPES_LENGTH],
    places: &mut [i32; limits::PLACES_LENGTH],
    rows: &mut [u8; limits::ROWS],
    book: &mut [u32; limits::BOOK],
    marks: &mut [u16],
) -> bool {
    match cell {
        Cell::Shapes(i, v) => put_number(shapes, i, v),
        Cell::Places(i, v) => put_number(places, i, v),
        Cell::Rows(i, v) => put_byte(rows, i, v),
        Cell::Book(i, v) => put_count(book, i, v),
        Cell::Marks(i, v) => put_mark(marks, i, v),
        Cell::Bad => false,
    }
}

fn put_number(cells: &mut [i32], i: usize, v: i32) -> bool {
    if cells.len() <= i {
        return false;
    }
    cells[i] = v;
    true
}

fn put_byte(cells: &mut [u8], i: usize, v: i32) -> bool {
    let Some(n) = not_negative(v) else {
        return false;
    };
    if cells.len() <= i {
        return false;
    }
    if MOST_BYTE < n {
        return false;
    }
    cells[i] = n as u8;
    true
}

fn put_mark(cells: &mut [u16], i: usize, v: i32) -> bool {
    let Some(n) = not_negative(v) else {
        return false;
    };
    if cells.len() <= i {
        return false;
    }
    if MOST_MARK < n {
        return false;
    }
    cells[i] = n as u16;
    true
}

// A number that is not negative fits 32 bits without a sign; the last test shows it to the prover.
fn put_count(cells: &mut [u32], i: usize, v: i32) -> bool {
    let Some(n) = not_negative(v) else {
        return false;
    };
    if cells.len() <= i {
        return false;
    }
    if MOST_COUNT < n {
        return false;
    }
    cells[i] = n as u32;
    true
}
