// What is kept from line to line: how much of a lent buffer a command sees.
// `room N` says how many cells `contacts`, `blank` and others are lent, and `lend N` how many cells of the marks buffer the desk is.
ghost use Rattle.std.specs.Prelude.{◌≡◌, ◌+◌, ◌*◌, ◌≤◌, min, length};
ghost use Rattle.limits.specs.Limits;
ghost use Rattle.line.specs.Printed.{SameOut};

use crate::out::Out;
use crate::parts::only_index;

// "A line of more than 16,384 bytes gets one `?`" (docs/COMMANDS.md).
pub const MOST_BYTES: usize = 16384;

// The most cells of each buffer. Three bytes for each of the most rows fit, and all numbers of a line, each a digit and a space; and some
// more marks than a desk has, so that a buffer that is too long can be lent as well.
const MOST_ROOM: usize = 2 * limits::ROWS;

const MOST_MARKS: usize = limits::MARKS + 16;

// How many cells `lent` has, and which of them says how many of each buffer are lent.
pub const COUNTS: usize = 2;

pub const ROOM_LENT: usize = 0;

pub const MARKS_LENT: usize = 1;

// Before the first line: all of the room, and as many marks as a desk has.
pub fn start() -> [usize; COUNTS] {
    [MOST_ROOM, limits::MARKS]
}

// The numbers of which so many are lent, and those of a line.
pub fn numbers() -> [i32; MOST_ROOM]
    ensures { 2 * Limits.rows ≡ length result }
{
    [0; MOST_ROOM]
}

// The bytes of which so many are lent, and those of a line's texts: each takes two digits a byte of a line that is no longer.
pub fn bytes() -> [u8; MOST_ROOM]
    ensures { 2 * Limits.rows ≡ length result }
{
    [0; MOST_ROOM]
}

// The marks buffer: a fresh desk fills as many cells as it has.
pub fn marks() -> [u16; MOST_MARKS]
    ensures { Limits.marks + 16 ≡ length result }
{
    [0; MOST_MARKS]
}

// `room N`: from 0 cells to all of them.
pub fn room(line: &[u8], end: usize, lent: &mut [usize; COUNTS], out: &mut Out<'_>)
    ensures { SameOut out.old out.new }
{
    let Some(n) = only_index(line, end) else {
        out.wrong();
        return;
    };
    if MOST_ROOM < n {
        out.wrong();
        return;
    }
    lent[ROOM_LENT] = n;
    out.done();
}

// `lend N`: from 0 cells to all of them.
pub fn lend(line: &[u8], end: usize, lent: &mut [usize; COUNTS], out: &mut Out<'_>)
    ensures { SameOut out.old out.new }
{
    let Some(n) = only_index(line, end) else {
        out.wrong();
        return;
    };
    if MOST_MARKS < n {
        out.wrong();
        return;
    }
    lent[MARKS_LENT] = n;
    out.done();
}

// So many cells, and never more than there are.
pub fn at_most(n: usize, most: usize) -> usize
    ensures is { result ≡ min n most }
    ensures most { result ≤ most }
{
    n.min(most)
}
