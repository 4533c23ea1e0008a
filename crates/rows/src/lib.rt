// The rows of a desk as a lent array (document 01, "Rows"): their order and their changes.
// The row of the places low < high stands at low * PLACES + high; every other cell holds NO_ROW.
#![tactic(auto)]

ghost use Rattle.std.specs.Prelude.{◌≡◌, ℕ, ◌<◌, eqb, length, get_or, replicate};
ghost use Rattle.limits.specs.Limits;
ghost use Rattle.limits.specs.Decides.{Decides};
ghost use Rattle.rows.specs.Masks.{MaskByte, MaskOf, MaskFrom, LineMasked};
ghost use Rattle.rows.specs.Rows.{RowsInOrder};

use pieces::taking::is_taken;

// The bits that no verdict has.
const BEYOND_VERDICTS: u8 = limits::NO_ROW - limits::PENETRATING;

// No rows at all, and every tally 0.
pub fn start_rows(rows: &mut [u8; limits::ROWS], book: &mut [u32; limits::BOOK])
    ensures rows { rows.new ≡ replicate Limits.rows Limits.no_row }
    ensures book { book.new ≡ replicate Limits.book 0 }
{
    *rows = [limits::NO_ROW; limits::ROWS];
    *book = [0u32; limits::BOOK];
}

// Whether each pair of taken places has a verdict and no other pair has one. What is wrong is gathered as bits and looked at once: a loop with
// no way out of its body handles many cells at a time. A place is shut before its line is tested, so that only higher ones may come second.
pub fn rows_in_order(places: &[i32; limits::PLACES_LENGTH], rows: &[u8; limits::ROWS]) -> bool
    ensures { Decides result (RowsInOrder places.now rows.now) }
{
    let mut mask = taken_mask(places);
    let mut wrong = 0;
    for low in 0..limits::PLACES {
        let own = mask[low];
        mask[low] = limits::NO_ROW;
        wrong |= wrong_in_line(rows, &mask, low, own);
    }
    wrong == 0
}

// What is wrong in the line of the place low, 0 where nothing is: a cell holds a verdict where its mask and the place's own are 0, and else no row.
fn wrong_in_line(rows: &[u8; limits::ROWS], mask: &[u8; limits::PLACES], low: usize, own: u8) -> u8
    requires { (low < Limits.places) × MaskByte own × ((i : ℕ) → i < Limits.places → MaskByte (get_or mask.now i 0)) }
    ensures { Decides (eqb result 0) (LineMasked mask.now own low rows.now Limits.places) }
{
    let start = low * limits::PLACES;
    let line = &rows[start..start + limits::PLACES];
    let mut wrong = 0;
    for (high, &v) in line.iter().enumerate() {
        let m = mask[high] | own;
        wrong |= (v ^ m) & (m | BEYOND_VERDICTS);
    }
    wrong
}

// A byte for each place: 0 where it is taken, and else NO_ROW.
fn taken_mask(places: &[i32; limits::PLACES_LENGTH]) -> [u8; limits::PLACES]
    ensures { MaskFrom places.now 0 result }
{
    let mut mask = [limits::NO_ROW; limits::PLACES];
    for place in 0..limits::PLACES {
        if is_taken(places, place) {
            mask[place] = 0;
        }
    }
    mask
}
