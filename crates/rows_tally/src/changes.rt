// Rows changed together with the tallies that count them: what a cell held is taken out of its tally, what it holds now is put into its own.
// A book that was in order is in order again, with the gap that it had, so that no command counts afresh.
ghost use Rattle.std.specs.Prelude.{◌≡◌, ◌<◌, length, get_or, set};
ghost use Rattle.limits.specs.Limits;
ghost use Rattle.rows.specs.Rows.{Verdict, Cleared, RowPut};
ghost use Rattle.rows_tally.specs.Tallies.{BookInOrder, BookFollows, Counted};

// The row of a pair set.
pub fn put_row(
    rows: &mut [u8; limits::ROWS],
    book: &mut [u32; limits::BOOK],
    low: usize,
    high: usize,
    v: u8,
)
    requires { (low < high) × (high < Limits.places) × BookInOrder rows.old book.old }
    ensures row { RowPut low high v rows.old rows.new }
    ensures book { BookFollows rows.new book.old book.new }
{
    set_cell(rows, book, low * limits::PLACES + high, v);
}

// Every row that names a place taken away.
pub fn clear_place(rows: &mut [u8; limits::ROWS], book: &mut [u32; limits::BOOK], place: usize)
    requires { (place < Limits.places) × BookInOrder rows.old book.old }
    ensures rows { Cleared place rows.old rows.new }
    ensures book { BookFollows rows.new book.old book.new }
{
    for other in 0..limits::PLACES {
        set_cell(rows, book, place * limits::PLACES + other, limits::NO_ROW);
        set_cell(rows, book, other * limits::PLACES + place, limits::NO_ROW);
    }
}

// A cell set.
fn set_cell(rows: &mut [u8; limits::ROWS], book: &mut [u32; limits::BOOK], k: usize, v: u8)
    requires { (k < Limits.rows) × BookInOrder rows.old book.old }
    ensures rows { (length rows.old ≡ Limits.rows) × (rows.new ≡ set rows.old k v) }
    ensures book { BookFollows rows.new book.old book.new }
{
    let old = rows[k];
    take_out(book, old);
    put_in(book, v);
    rows[k] = v;
}

// One row less in the book.
// Stays: it and put_in differ in − and +, and one function of a signed step would add a cast and a bound to both.
fn take_out(book: &mut [u32; limits::BOOK], v: u8)
    requires { Verdict v → 0 < get_or book.old v 0 }
    ensures { Counted v book.new book.old }
{
    let verdict = usize::from(v);
    if verdict < limits::TALLIES {
        book[verdict] -= 1;
    }
}

// One row more in the book.
fn put_in(book: &mut [u32; limits::BOOK], v: u8)
    requires { Verdict v → get_or book.old v 0 < Limits.rows }
    ensures { Counted v book.old book.new }
{
    let verdict = usize::from(v);
    if verdict < limits::TALLIES {
        book[verdict] += 1;
    }
}
