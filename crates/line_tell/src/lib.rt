// What the desk can be told by a line: its command, with the corner numbers that stand behind the line's first number or in a file.
// The numbers are handed on as they stand there; the desk refuses what it does not take.
#![tactic(auto)]

ghost use Rattle.std.specs.Prelude.{◌≡◌, [], min, length, get_or};
ghost use Rattle.limits.specs.Limits;
ghost use Rattle.desk_state.specs.Desk.{desk_of};
ghost use Rattle.desk.specs.Commands.{Started, Does};
ghost use Rattle.desk.specs.declared.Command.TheVariants.{Start};
ghost use Rattle.line.specs.Printed.{SameOut};
ghost use Rattle.line_tell.specs.Tells.{behind_first, Tells, LoadsFile};

use desk::Command;
use desk::start::start;
use desk_state::LentDesk;
use limits::Refusal;
use line::kinds::FileKind;
use line::lent;
use line::lent::at_most;
use line::out::Out;
use line_file::{Request, requested};
use std::rt::Files;

// The desk before the first line, in a marks buffer that is longer than its marks.
pub fn fresh(
    shapes: &mut [i32; limits::SHAPES_LENGTH],
    places: &mut [i32; limits::PLACES_LENGTH],
    rows: &mut [u8; limits::ROWS],
    book: &mut [u32; limits::BOOK],
    marks: &mut [u16],
)
    ensures { Tells Start 0 [] (min Limits.marks (length marks.old))
        (desk_of shapes.old places.old rows.old book.old marks.old)
        (desk_of shapes.new places.new rows.new book.new marks.new) }
{
    let m = at_most(limits::MARKS, marks.len());
    let _ = started(shapes, places, rows, book, &mut marks[0..m]);
}

fn started(
    shapes: &mut [i32; limits::SHAPES_LENGTH],
    places: &mut [i32; limits::PLACES_LENGTH],
    rows: &mut [u8; limits::ROWS],
    book: &mut [u32; limits::BOOK],
    marks: &mut [u16],
) -> Result<u32, Refusal>
    ensures { Started
        (desk_of shapes.old places.old rows.old book.old marks.old)
        (desk_of shapes.new places.new rows.new book.new marks.new) result }
{
    let mut desk = LentDesk {
        shapes,
        places,
        rows,
        book,
        marks,
    };
    start(&mut desk)
}

// Has the desk do a line's command, of which the line has so many numbers, with as many marks as are lent.
pub fn tell(
    command: Command,
    count: usize,
    numbers: &[i32],
    lent: &[usize; lent::COUNTS],
    shapes: &mut [i32; limits::SHAPES_LENGTH],
    places: &mut [i32; limits::PLACES_LENGTH],
    rows: &mut [u8; limits::ROWS],
    book: &mut [u32; limits::BOOK],
    marks: &mut [u16],
    out: &mut Out<'_>,
)
    ensures same { SameOut out.old out.new }
    ensures does { Tells command count numbers.now (min (get_or lent.now 1 0) (length marks.old))
        (desk_of shapes.old places.old rows.old book.old marks.old)
        (desk_of shapes.new places.new rows.new book.new marks.new) }
{
    let m = at_most(lent[lent::MARKS_LENT], marks.len());
    let corners = behind_first(numbers, count);
    let answer = told(
        command,
        corners,
        shapes,
        places,
        rows,
        book,
        &mut marks[0..m],
    );
    answered(command, answer, out);
}

fn told(
    command: Command,
    numbers: &[i32],
    shapes: &mut [i32; limits::SHAPES_LENGTH],
    places: &mut [i32; limits::PLACES_LENGTH],
    rows: &mut [u8; limits::ROWS],
    book: &mut [u32; limits::BOOK],
    marks: &mut [u16],
) -> Result<u32, Refusal>
    ensures { Does command numbers.now
        (desk_of shapes.old places.old rows.old book.old marks.old)
        (desk_of shapes.new places.new rows.new book.new marks.new) result }
{
    let mut desk = LentDesk {
        shapes,
        places,
        rows,
        book,
        marks,
    };
    desk_tell::tell(&mut desk, command, numbers)
}

// `load-stl S PATH` and `load-off S PATH`: the desk is told to load the corners of a file. Where the reader refuses the file, the desk is
// not asked.
pub fn load_file(
    rt: &impl Files,
    kind: FileKind,
    line: &[u8],
    numbers: &mut [i32],
    lent: &[usize; lent::COUNTS],
    shapes: &mut [i32; limits::SHAPES_LENGTH],
    places: &mut [i32; limits::PLACES_LENGTH],
    rows: &mut [u8; limits::ROWS],
    book: &mut [u32; limits::BOOK],
    marks: &mut [u16],
    out: &mut Out<'_>,
)
    ensures same { SameOut out.old out.new }
    ensures does { LoadsFile kind line.now (min (get_or lent.now 1 0) (length marks.old))
        (desk_of shapes.old places.old rows.old book.old marks.old)
        (desk_of shapes.new places.new rows.new book.new marks.new) }
{
    match requested(rt, kind, line, numbers) {
        Request::Load(shape, count) => tell(
            Command::Load(shape),
            count,
            numbers,
            lent,
            shapes,
            places,
            rows,
            book,
            marks,
            out,
        ),
        Request::Refused(number) => out.refused(number),
        Request::Bad => out.wrong(),
    }
}

// The corner list of a load: the line's numbers behind the first.
fn behind_first(numbers: &[i32], count: usize) -> &[i32]
    ensures { result.now ≡ behind_first count numbers.now }
{
    let end = at_most(count, numbers.len());
    if end == 0 {
        return &numbers[0..0];
    }
    &numbers[1..end]
}

// A move answers its count as well.
fn answered(command: Command, answer: Result<u32, Refusal>, out: &mut Out<'_>)
    ensures { SameOut out.old out.new }
{
    match (command, answer) {
        (_, Err(refusal)) => out.refused(refusal.number()),
        (Command::Move(_, _, _), Ok(count)) => {
            out.put(b"0");
            out.next_number(i64::from(count));
            out.end();
        }
        (_, Ok(_)) => out.done(),
    }
}
