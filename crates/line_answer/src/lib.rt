// The answer to a line, by what it says.
// What the desk has a part in is lent the desk; the rest is not. The test tools are answered where the program is on trial, and else get `?`.
#![tactic(auto)]

ghost use Rattle.std.specs.Prelude.{◌≡◌, false};
ghost use Rattle.desk_state.specs.Desk.{desk_of};
ghost use Rattle.line.specs.Printed.{SameOut};
ghost use Rattle.line_answer.specs.Answered.{kept_of, Answered};

use line::lent;
use line::out::Out;
use line_ask::asked;
use line_command::{Line, Other, says};
use line_read::{files, floats, lists, texts};
use line_save::save;
use line_spoil::Cell;
use line_tell::{load_file, tell};
use std::rt::Files;

// Puts the answer to a line.
pub fn answer(
    rt: &impl Files,
    trial: bool,
    line: &[u8],
    out: &mut Out<'_>,
    texts: &mut [u8],
    numbers: &mut [i32],
    lent: &mut [usize; lent::COUNTS],
    shapes: &mut [i32; limits::SHAPES_LENGTH],
    places: &mut [i32; limits::PLACES_LENGTH],
    rows: &mut [u8; limits::ROWS],
    book: &mut [u32; limits::BOOK],
    marks: &mut [u16],
)
    ensures same { SameOut out.old out.new }
    ensures answered { Answered trial line.now numbers.old
        (kept_of shapes.old places.old rows.old book.old marks.old lent.old)
        (kept_of shapes.new places.new rows.new book.new marks.new lent.new) }
{
    match says(line, numbers) {
        Line::Tell(command, count) => tell(
            command, count, numbers, lent, shapes, places, rows, book, marks, out,
        ),
        Line::Ask(a) => asked::ask(a, texts, lent, shapes, places, rows, book, marks, out),
        Line::Spoil(cell) => spoil(trial, cell, shapes, places, rows, book, marks, out),
        Line::LoadFile(kind) => load_file(
            rt, kind, line, numbers, lent, shapes, places, rows, book, marks, out,
        ),
        Line::SaveFile => save(
            rt, line, texts, lent, shapes, places, rows, book, marks, out,
        ),
        Line::Other(o) => other(trial, o, line, out, texts, numbers, lent),
    }
}

// The answer to a command that the desk has no part in.
fn other(
    trial: bool,
    command: Other,
    line: &[u8],
    out: &mut Out<'_>,
    texts: &mut [u8],
    numbers: &mut [i32],
    lent: &mut [usize; lent::COUNTS],
)
    ensures same { SameOut out.old out.new }
    ensures stays { trial ≡ false → lent.new ≡ lent.old }
{
    let end = text_words::word_end(line, 0);
    match command {
        Other::Length => texts::length(line, end, out),
        Other::MenuLine => texts::line(line, end, texts, out),
        Other::Lists => lists::lists(line, end, numbers, out),
        Other::Scan => floats::scan(line, end, out),
        Other::Show => floats::show(line, end, out),
        Other::Blank => floats::blank(line, end, lent, numbers, out),
        Other::Stl => files::stl(line, end, texts, lent, numbers, out),
        Other::Triangle => files::triangle(line, end, texts, out),
        Other::Off => files::off(line, end, texts, lent, numbers, out),
        Other::Room => room(trial, line, end, lent, out),
        Other::Lend => lend(trial, line, end, lent, out),
        Other::Nothing => {}
        Other::Unknown => out.wrong(),
    }
}

// `spoil PART I V`, a test tool.
fn spoil(
    trial: bool,
    cell: Cell,
    shapes: &mut [i32; limits::SHAPES_LENGTH],
    places: &mut [i32; limits::PLACES_LENGTH],
    rows: &mut [u8; limits::ROWS],
    book: &mut [u32; limits::BOOK],
    marks: &mut [u16],
    out: &mut Out<'_>,
)
    ensures same { SameOut out.old out.new }
    ensures stays { trial ≡ false → desk_of shapes.new places.new rows.new book.new marks.new
        ≡ desk_of shapes.old places.old rows.old book.old marks.old }
{
    if trial {
        line_spoil::spoil(cell, shapes, places, rows, book, marks, out);
        return;
    }
    out.wrong();
}

// `room N`, a test tool.
fn room(trial: bool, line: &[u8], end: usize, lent: &mut [usize; lent::COUNTS], out: &mut Out<'_>)
    ensures same { SameOut out.old out.new }
    ensures stays { trial ≡ false → lent.new ≡ lent.old }
{
    if trial {
        lent::room(line, end, lent, out);
        return;
    }
    out.wrong();
}

// `lend N`, a test tool.
fn lend(trial: bool, line: &[u8], end: usize, lent: &mut [usize; lent::COUNTS], out: &mut Out<'_>)
    ensures same { SameOut out.old out.new }
    ensures stays { trial ≡ false → lent.new ≡ lent.old }
{
    if trial {
        lent::lend(line, end, lent, out);
        return;
    }
    out.wrong();
}
