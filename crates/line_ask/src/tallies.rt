// The book's tallies: how many rows have each verdict.
// The book's cell of a verdict's number is its tally.

// The verdicts by number.
pub const APART: usize = limits::APART as usize;

pub const SEPARATE: usize = limits::SEPARATE as usize;

pub const TOUCHING: usize = limits::TOUCHING as usize;

pub const PENETRATING: usize = limits::PENETRATING as usize;

// How many rows a book counts.
pub fn total(book: &[u32; limits::BOOK]) -> usize {
    let apart = book[APART] as usize;
    let separate = book[SEPARATE] as usize;
    let touching = book[TOUCHING] as usize;
    let penetrating = book[PENETRATING] as usize;
    apart + separate + touching + penetrating
}
