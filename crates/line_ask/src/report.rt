// The report, in words: the gap where there is one, a line for each contact, the counts, whether the shelf can be fired, and a last line `end`.
// It can be fired where no two pieces touch or overlap, or come as near as the gap: glazed pieces that do fuse for good.
ghost use Rattle.std.specs.Prelude.{◌≤◌};
ghost use Rattle.line.specs.Printed.{SameOut};

use crate::tallies::{APART, PENETRATING, SEPARATE, TOUCHING};
use line::out::Out;

// A millimetre in steps.
const STEPS: u32 = limits::STEPS as u32;

// So many digits behind the point are enough for a 64th.
const DECIMALS: usize = 6;

const TEN: u32 = 10;

// The report of a desk in order.
pub fn report(
    places: &[i32; limits::PLACES_LENGTH],
    rows: &[u8; limits::ROWS],
    book: &[u32; limits::BOOK],
    out: &mut Out<'_>,
)
    ensures { SameOut out.old out.new }
{
    let gap = book[limits::GAP_CELL];
    gap_line(gap, out);
    contacts(rows, gap, out);
    counted(b"pieces: ", pieces(places), out);
    pairs(book, gap, out);
    fired(book[TOUCHING], book[PENETRATING], out);
    out.put(b"end\n");
}

// The gap, in millimetres and in steps. Where it is 0 there is nothing to say of it.
fn gap_line(gap: u32, out: &mut Out<'_>)
    ensures { SameOut out.old out.new }
{
    if gap == 0 {
        return;
    }
    out.put(b"gap: ");
    millimetres(gap, out);
    out.put(b" mm (steps: ");
    out.number(i64::from(gap));
    out.put(b")\n");
}

// Steps in millimetres, exactly.
fn millimetres(steps: u32, out: &mut Out<'_>)
    ensures { SameOut out.old out.new }
{
    out.number(i64::from(steps / STEPS));
    if steps % STEPS == 0 {
        return;
    }
    out.put(b".");
    decimals(steps, out);
}

// What is left of steps behind the whole millimetres, digit by digit: a million of them is a whole number of 64ths, so that nothing is
// left behind six digits.
fn decimals(steps: u32, out: &mut Out<'_>)
    ensures { SameOut out.old out.new }
{
    let mut left = steps % STEPS;
    for _ in 0..DECIMALS {
        if left == 0 {
            break;
        }
        out.number(i64::from(TEN * left / STEPS));
        left = TEN * left % STEPS;
    }
}

// How many pairs have each verdict.
fn pairs(book: &[u32; limits::BOOK], gap: u32, out: &mut Out<'_>)
    ensures { SameOut out.old out.new }
{
    counted(b"pairs far apart: ", book[APART] as usize, out);
    counted(b"pairs separate: ", book[SEPARATE] as usize, out);
    let touching = book[TOUCHING] as usize;
    let penetrating = book[PENETRATING] as usize;
    if gap == 0 {
        counted(b"pairs touching: ", touching, out);
        counted(b"pairs overlapping: ", penetrating, out);
    } else {
        counted(b"pairs just the gap apart: ", touching, out);
        counted(b"pairs closer than the gap: ", penetrating, out);
    }
}

// A line with a count behind its name.
fn counted(name: &[u8], n: usize, out: &mut Out<'_>)
    ensures { SameOut out.old out.new }
{
    out.put(name);
    out.count(n);
    out.end();
}

// Whether the shelf can be fired.
fn fired(touching: u32, overlapping: u32, out: &mut Out<'_>)
    ensures { SameOut out.old out.new }
{
    if touching == 0 && overlapping == 0 {
        out.put(b"the shelf can be fired\n");
    } else {
        out.put(b"the shelf cannot be fired\n");
    }
}

// How many places hold a piece.
fn pieces(places: &[i32; limits::PLACES_LENGTH]) -> usize {
    places
        .chunks_exact(limits::PLACE_CELLS)
        .filter(|place| place[0] != 0)
        .count()
}

// A line for each row that is a contact.
fn contacts(rows: &[u8; limits::ROWS], gap: u32, out: &mut Out<'_>)
    ensures { SameOut out.old out.new }
{
    for (k, verdict) in rows.iter().enumerate() {
        contact(k, *verdict, gap, out);
    }
}

// Row 2 with a gap is that the pieces are just so far apart, and row 3 that they are closer, be it that they meet.
fn contact(k: usize, verdict: u8, gap: u32, out: &mut Out<'_>)
    ensures { SameOut out.old out.new }
{
    let how = match (verdict, gap) {
        (limits::TOUCHING, 0) => " touch\n",
        (limits::TOUCHING, _) => " are just the gap apart\n",
        (limits::PENETRATING, 0) => " overlap\n",
        (limits::PENETRATING, _) => " are closer than the gap\n",
        _ => return,
    };
    out.put(b"places ");
    out.count(k / limits::PLACES);
    out.put(b" and ");
    out.count(k % limits::PLACES);
    out.put(how.as_bytes());
}
