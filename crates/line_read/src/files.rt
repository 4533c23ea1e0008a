// The commands on files, given in hex: the corners of a scanner's file and a single step through it, and the corners of an OFF text.
// `end` is where the command's own word ends.
ghost use Rattle.std.specs.Prelude.{length};
ghost use Rattle.line.specs.Printed.{SameOut};
ghost use Rattle.line_read.specs.ReadWithin.{TextWithin};

use crate::listing::{each, listed};
use limits::Refusal;
use line::lent;
use line::lent::at_most;
use line::out::Out;
use line::parts::read_index;
use scans_stl::Triangle;

// `stl HEX`: the corners, in as many of the numbers as are lent.
pub fn stl(
    line: &[u8],
    end: usize,
    room: &mut [u8],
    lent: &[usize; lent::COUNTS],
    numbers: &mut [i32],
    out: &mut Out<'_>,
)
    ensures { SameOut out.old out.new }
{
    let Some(n) = only_text(line, end, room) else {
        out.wrong();
        return;
    };
    let cells = at_most(lent[lent::ROOM_LENT], numbers.len());
    stl_corners(&room[0..n], &mut numbers[0..cells], out);
}

fn stl_corners(file: &[u8], room: &mut [i32], out: &mut Out<'_>)
    ensures { SameOut out.old out.new }
{
    match scans_stl_corners::corners(file, room) {
        Ok(count) => listed(&room[0..count], out),
        Err(refusal) => out.refused(refusal.number()),
    }
}

// `off HEX`: likewise.
pub fn off(
    line: &[u8],
    end: usize,
    room: &mut [u8],
    lent: &[usize; lent::COUNTS],
    numbers: &mut [i32],
    out: &mut Out<'_>,
)
    ensures { SameOut out.old out.new }
{
    let Some(n) = only_text(line, end, room) else {
        out.wrong();
        return;
    };
    let cells = at_most(lent[lent::ROOM_LENT], numbers.len());
    off_corners(&room[0..n], &mut numbers[0..cells], out);
}

fn off_corners(text: &[u8], room: &mut [i32], out: &mut Out<'_>)
    ensures { SameOut out.old out.new }
{
    match off_read::corners(text, room) {
        Ok(count) => listed(&room[0..count], out),
        Err(refusal) => out.refused(refusal.number()),
    }
}

// `triangle AT HEX`: AT is not negative.
pub fn triangle(line: &[u8], end: usize, room: &mut [u8], out: &mut Out<'_>)
    ensures { SameOut out.old out.new }
{
    if line.len() <= end {
        out.wrong();
        return;
    }
    let next = text_words::word_end(line, end + 1);
    let Some(position) = read_index(&line[end + 1..next]) else {
        out.wrong();
        return;
    };
    let Some(n) = only_text(line, next, room) else {
        out.wrong();
        return;
    };
    handed(scans_stl::step(&room[0..n], position), out);
}

fn handed(step: Result<Option<Triangle>, Refusal>, out: &mut Out<'_>)
    ensures { SameOut out.old out.new }
{
    match step {
        Ok(Some(triangle)) => numbers(&triangle.corners, triangle.next, out),
        Ok(None) => out.put(b"0 none\n"),
        Err(refusal) => out.refused(refusal.number()),
    }
}

// A triangle's corners, and the position behind it.
fn numbers(corners: &[i32], position: usize, out: &mut Out<'_>)
    ensures { SameOut out.old out.new }
{
    out.put(b"0");
    each(corners, out);
    out.next_count(position);
    out.end();
}

// The one word behind a word that ends at a place, as a text into the room.
fn only_text(line: &[u8], end: usize, room: &mut [u8]) -> Option<usize>
    ensures { TextWithin (length room.old) result }
{
    if end < line.len() {
        return text_hex::read_text(&line[end + 1..], room);
    }
    None
}
