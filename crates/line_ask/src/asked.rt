// What the desk can be asked: the pair of two places, the contacts, the rows, the tallies, the marks, a shape's text, and a report for people.
// The desk is only read.
ghost use Rattle.line.specs.Printed.{SameOut};

use crate::report::report;
use crate::tallies::{APART, PENETRATING, SEPARATE, TOUCHING, total};
use desk::contacts::contacts;
use desk_ask::pair;
use desk_state::SeenDesk;
use desk_write::write;
use limits::Refusal;
use line::lent;
use line::lent::at_most;
use line::out::Out;
use line_command::Asked;
use line_verdict::pair_answer;

// A row in the listing of contacts: its two places and its verdict.
const ROW_BYTES: usize = 3;

// Asks the desk, with as much room and as many marks as are lent.
pub fn ask(
    asked: Asked,
    room: &mut [u8],
    lent: &[usize; lent::COUNTS],
    shapes: &[i32; limits::SHAPES_LENGTH],
    places: &[i32; limits::PLACES_LENGTH],
    rows: &[u8; limits::ROWS],
    book: &[u32; limits::BOOK],
    marks: &[u16],
    out: &mut Out<'_>,
)
    ensures { SameOut out.old out.new }
{
    let r = at_most(lent[lent::ROOM_LENT], room.len());
    let m = at_most(lent[lent::MARKS_LENT], marks.len());
    let desk = SeenDesk {
        shapes,
        places,
        rows,
        book,
        marks: &marks[0..m],
    };
    question(asked, &mut room[0..r], desk, out);
}

fn question(asked: Asked, room: &mut [u8], desk: SeenDesk<'_>, out: &mut Out<'_>)
    ensures { SameOut out.old out.new }
{
    match asked {
        Asked::Pair(p, q) => {
            let answer = pair(desk, p, q);
            pair_answer(answer, out);
        }
        Asked::Contacts => {
            let l = contacts(desk, room);
            listed(l, room, out);
        }
        Asked::Write(s) => {
            let w = write(desk, s, room);
            written(w, room, out);
        }
        _ => {
            if desk.in_order() {
                held(asked, desk, out);
            } else {
                out.refused(Refusal::Disorder.number());
            }
        }
    }
}

// What stands in a desk that is in order.
fn held(asked: Asked, desk: SeenDesk<'_>, out: &mut Out<'_>)
    ensures { SameOut out.old out.new }
{
    match asked {
        Asked::Rows => all_rows(desk.rows, desk.book, out),
        Asked::Tallies => tallies(desk.book, out),
        Asked::Marks => all_marks(desk.marks, out),
        _ => report(desk.places, desk.rows, desk.book, out),
    }
}

// The listing: a refusal's number, or how many rows there are and the bytes of each. No listing is longer than the room.
fn listed(l: Result<u32, Refusal>, room: &[u8], out: &mut Out<'_>)
    ensures { SameOut out.old out.new }
{
    match l {
        Ok(n) => {
            out.put(b"0");
            out.next_number(i64::from(n));
            for byte in room.iter().take(ROW_BYTES * n as usize) {
                out.next_number(i64::from(*byte));
            }
            out.end();
        }
        Err(refusal) => out.refused(refusal.number()),
    }
}

// The text of a shape in hex, or the refusal. No text is longer than the room; the smaller of the two shows it to the prover.
fn written(w: Result<usize, Refusal>, room: &[u8], out: &mut Out<'_>)
    ensures { SameOut out.old out.new }
{
    match w {
        Ok(n) => {
            let count = at_most(n, room.len());
            out.put(b"0 ");
            out.text(&room[0..count]);
            out.end();
        }
        Err(refusal) => out.refused(refusal.number()),
    }
}

// Every row, its two places and its verdict: in a desk in order the tallies count them. A cell that has no row is passed over.
fn all_rows(rows: &[u8; limits::ROWS], book: &[u32; limits::BOOK], out: &mut Out<'_>)
    ensures { SameOut out.old out.new }
{
    out.put(b"0");
    out.next_count(total(book));
    for (k, verdict) in rows.iter().enumerate() {
        if *verdict != limits::NO_ROW {
            row(k, *verdict, out);
        }
    }
    out.end();
}

fn row(k: usize, verdict: u8, out: &mut Out<'_>)
    ensures { SameOut out.old out.new }
{
    out.next_count(k / limits::PLACES);
    out.next_count(k % limits::PLACES);
    out.next_number(i64::from(verdict));
}

fn tallies(book: &[u32; limits::BOOK], out: &mut Out<'_>)
    ensures { SameOut out.old out.new }
{
    out.put(b"0");
    out.next_number(i64::from(book[APART]));
    out.next_number(i64::from(book[SEPARATE]));
    out.next_number(i64::from(book[TOUCHING]));
    out.next_number(i64::from(book[PENETRATING]));
    out.end();
}

fn all_marks(marks: &[u16], out: &mut Out<'_>)
    ensures { SameOut out.old out.new }
{
    out.put(b"0");
    for mark in marks {
        out.next_number(i64::from(*mark));
    }
    out.end();
}
