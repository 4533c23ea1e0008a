// A piece of the input fed: each line that ends in it is answered, and what is there of the next one is kept until its end comes.
// In whatever pieces the input is read, the lines are those of the input.
#![tactic(auto)]

ghost use Rattle.std.specs.Prelude.{List, [], ◌∷◌, ℕ, length};
ghost use Rattle.line_input.specs.Input.{bare as Input·bare, Holds};
ghost use Rattle.line.specs.Printed.{SameOut};
ghost use Rattle.line_answer.specs.Answered.{kept_of};
ghost use Rattle.line_feed.specs.Served.{Serves, Feeds, FeedsUpTo};

use line::lent;
use line::lent::{MOST_BYTES, at_most};
use line::out::Out;
use line_answer::answer;
use line_input::{LINE_END, bare, hold};
use line_io::write_out;
use std::rt::Files;

// How the program was started: on trial the test tools are answered; with an echo each line that gets an answer is written before it.
#[derive(Clone, Copy)]
pub struct Mode {
    pub trial: bool,
    pub echo: bool,
}

// Feeds a piece of the input, byte by byte, as long as the answers can be written: how many bytes are kept then of a line whose end did not
// come yet. Where the answers can no longer be written the next of them would go past the buffer's end.
pub fn feed(
    rt: &(impl Files + Print + Eprint),
    mode: Mode,
    piece: &[u8],
    start: usize,
    held: &mut [u8],
    out: &mut Out<'_>,
    texts: &mut [u8],
    numbers: &mut [i32],
    lent: &mut [usize; lent::COUNTS],
    shapes: &mut [i32; limits::SHAPES_LENGTH],
    places: &mut [i32; limits::PLACES_LENGTH],
    rows: &mut [u8; limits::ROWS],
    book: &mut [u32; limits::BOOK],
    marks: &mut [u16],
) -> usize
    ensures same { SameOut out.old out.new }
    ensures feeds { (part : List ℕ) → Holds held.old start part → FeedsUpTo mode.trial (length numbers.old) part piece.now
        (kept_of shapes.old places.old rows.old book.old marks.old lent.old)
        (kept_of shapes.new places.new rows.new book.new marks.new lent.new)
        held.new result out.new.at (length out.old.buffer.now) }
{
    let mut kept = start;
    for byte in piece {
        let at = out.at;
        if out.buffer.len() < at {
            return kept;
        }
        kept = feed_byte(
            rt, mode, *byte, kept, held, out, texts, numbers, lent, shapes, places, rows, book,
            marks,
        );
    }
    kept
}

// A byte that ends a line has it answered; any other is kept.
fn feed_byte(
    rt: &(impl Files + Print + Eprint),
    mode: Mode,
    byte: u8,
    kept: usize,
    held: &mut [u8],
    out: &mut Out<'_>,
    texts: &mut [u8],
    numbers: &mut [i32],
    lent: &mut [usize; lent::COUNTS],
    shapes: &mut [i32; limits::SHAPES_LENGTH],
    places: &mut [i32; limits::PLACES_LENGTH],
    rows: &mut [u8; limits::ROWS],
    book: &mut [u32; limits::BOOK],
    marks: &mut [u16],
) -> usize
    ensures same { SameOut out.old out.new }
    ensures feeds { (part : List ℕ) → Holds held.old kept part → Feeds mode.trial (length numbers.old) part (byte ∷ [])
        (kept_of shapes.old places.old rows.old book.old marks.old lent.old)
        (kept_of shapes.new places.new rows.new book.new marks.new lent.new)
        held.new result }
{
    if byte == LINE_END {
        answer_held(
            rt, mode, held, kept, out, texts, numbers, lent, shapes, places, rows, book, marks,
        );
        return 0;
    }
    hold(held, kept, byte)
}

// Answers the line that is kept.
pub fn answer_held(
    rt: &(impl Files + Print + Eprint),
    mode: Mode,
    held: &[u8],
    kept: usize,
    out: &mut Out<'_>,
    texts: &mut [u8],
    numbers: &mut [i32],
    lent: &mut [usize; lent::COUNTS],
    shapes: &mut [i32; limits::SHAPES_LENGTH],
    places: &mut [i32; limits::PLACES_LENGTH],
    rows: &mut [u8; limits::ROWS],
    book: &mut [u32; limits::BOOK],
    marks: &mut [u16],
)
    ensures same { SameOut out.old out.new }
    ensures serves { (part : List ℕ) → Holds held.now kept part → Serves mode.trial (length numbers.old) (Input·bare part)
        (kept_of shapes.old places.old rows.old book.old marks.old lent.old)
        (kept_of shapes.new places.new rows.new book.new marks.new lent.new) }
{
    let trial = mode.trial;
    let echo = mode.echo;
    let n = at_most(kept, held.len());
    let line = bare(&held[0..n]);
    echoed(echo, line, out);
    answer(
        rt, trial, line, out, texts, numbers, lent, shapes, places, rows, book, marks,
    );
    settle(rt, out);
}

// Writes the answers out once they fill half of the buffer. The longest answer fits the other half of the program's: a report of 8,128
// contacts at 43 bytes each, behind a line of 16,384.
fn settle(rt: &(impl Print + Eprint), out: &mut Out<'_>)
    ensures { SameOut out.old out.new }
{
    let at = out.at;
    if out.buffer.len() / 2 < at {
        out.at = write_out(rt, out.buffer, at);
    }
}

// Puts a line before its answer, behind `> `, where that is asked for. One that is passed over gets no answer; of one that is too long the
// first bytes are put.
fn echoed(echo: bool, line: &[u8], out: &mut Out<'_>)
    ensures { SameOut out.old out.new }
{
    if !echo || line.is_empty() || line[0] == b'#' {
        return;
    }
    out.put(b"> ");
    for byte in line.iter().take(MOST_BYTES) {
        out.put(&[*byte]);
    }
    out.end();
}
