// The desk at a command line: reads commands from standard input, one a line, and writes one line of answer for each.
// `run` reads, feeds and writes; `line_feed::feed` cuts the lines out of what was read, and `line_answer::answer` answers each.
#![tactic(auto)]

mod words;

ghost use Rattle.std.specs.Prelude.{◌≡◌, List, false, ℕ, ◌≤◌, ◌<◌, length, get_or};
ghost use Rattle.limits.specs.Limits;
ghost use Rattle.desk_state.specs.Desk.{desk_of};
ghost use Rattle.line_command.specs.Lines.{most_bytes};
ghost use Rattle.line.specs.Printed.{SameOut};
ghost use Rattle.line_input.specs.Input.{held_bytes, Holds};
ghost use Rattle.line_answer.specs.Answered.{kept_of};
ghost use Rattle.line_feed.specs.Served.{FeedsSome, ServedAll};
ghost use Rattle.line_runs.specs.Heard.{StandsBy};

use line::lent;
use line::out::Out;
use line_feed::{Mode, answer_held, feed};
use line_io::{read_in, write_out};
use line_tell::fresh;
use std::rt::Files;
use words::words;

// A word that is not known gets a line of usage, and nothing else.
fn main(rt: HostRuntime) {
    let found = words(&rt);
    let known = found.known;
    if !known {
        usage(
            &rt,
            b"usage: mudwicket [--trial] [--echo], with the commands on standard input\n",
        );
        return;
    }
    desk(
        &rt,
        Mode {
            trial: found.trial,
            echo: found.echo,
        },
    );
}

fn usage(rt: &(impl Print + Eprint), text: &[u8]) {
    write_out(rt, text, text.len());
}

// Room for the answers that were not written yet: twice the longest answer and more.
const ANSWERS: usize = 1048576;

fn answers() -> [u8; ANSWERS]
    ensures { 1048576 ≡ length result }
{
    [0; ANSWERS]
}

// What is lent to every line: the bytes that were read, the line whose end did not come yet, the answers that were not written yet, room
// for a command's texts and for its numbers, how much of it is lent, and the desk.
fn desk(rt: &(impl Files + Input + Print + Eprint), mode: Mode) {
    let mut input = io::large_buffer();
    let mut held = line_input::buffer();
    let mut buffer = answers();
    let mut out = Out {
        buffer: &mut buffer,
        at: 0,
    };
    let mut texts = lent::bytes();
    let mut numbers = lent::numbers();
    let mut lent = lent_first();
    let mut shapes = [0i32; limits::SHAPES_LENGTH];
    let mut places = [0i32; limits::PLACES_LENGTH];
    let mut rows = [0u8; limits::ROWS];
    let mut book = [0u32; limits::BOOK];
    let mut marks = lent::marks();
    run(
        rt,
        mode,
        &mut input,
        &mut held,
        &mut out,
        &mut texts,
        &mut numbers,
        &mut lent,
        &mut shapes,
        &mut places,
        &mut rows,
        &mut book,
        &mut marks,
    );
}

// How much is lent before the first line: as many marks as a desk has.
fn lent_first() -> [usize; lent::COUNTS]
    ensures { get_or result 1 0 ≡ Limits.marks }
{
    let first = lent::start();
    [first[lent::ROOM_LENT], limits::MARKS]
}

// How many bytes are kept of a line whose end did not come yet, whether more may come, and whether a write or a read has failed.
#[derive(Drop)]
struct Waiting {
    kept: usize,
    open: bool,
    failed: bool,
}

// Starts the desk afresh and serves the input. Whatever bytes arrive, the desk is then reached by the accepted commands of its lines, in their
// order; on trial nothing is promised of that.
fn run(
    rt: &(impl Files + Input + Print + Eprint),
    mode: Mode,
    input: &mut [u8],
    held: &mut [u8],
    out: &mut Out<'_>,
    texts: &mut [u8],
    numbers: &mut [i32],
    lent: &mut [usize; lent::COUNTS],
    shapes: &mut [i32; limits::SHAPES_LENGTH],
    places: &mut [i32; limits::PLACES_LENGTH],
    rows: &mut [u8; limits::ROWS],
    book: &mut [u32; limits::BOOK],
    marks: &mut [u16],
)
    requires held_bytes_in_bounds { held_bytes ≤ length held.old }
    requires most_bytes_in_bounds { most_bytes < length numbers.old }
    requires in_bounds { Limits.marks ≤ length marks.old }
    requires lent_value { get_or lent.old 1 0 ≡ Limits.marks }
    ensures same { SameOut out.old out.new }
    ensures stands { mode.trial ≡ false → StandsBy (desk_of shapes.new places.new rows.new book.new marks.new) }
{
    fresh(shapes, places, rows, book, marks);
    serve(
        rt, mode, input, held, out, texts, numbers, lent, shapes, places, rows, book, marks,
    );
}

// A read a round. A proved loop has to end, and nothing says that the input does: so the rounds are counted down, from a number that no run
// uses up. The last line may lack its end. Where a write or a read has failed, the program stops at once.
fn serve(
    rt: &(impl Files + Input + Print + Eprint),
    mode: Mode,
    input: &mut [u8],
    held: &mut [u8],
    out: &mut Out<'_>,
    texts: &mut [u8],
    numbers: &mut [i32],
    lent: &mut [usize; lent::COUNTS],
    shapes: &mut [i32; limits::SHAPES_LENGTH],
    places: &mut [i32; limits::PLACES_LENGTH],
    rows: &mut [u8; limits::ROWS],
    book: &mut [u32; limits::BOOK],
    marks: &mut [u16],
)
    requires { held_bytes ≤ length held.old }
    ensures same { SameOut out.old out.new }
    ensures serves { ServedAll mode.trial (length numbers.old)
        (kept_of shapes.old places.old rows.old book.old marks.old lent.old)
        (kept_of shapes.new places.new rows.new book.new marks.new lent.new) }
{
    let mut r = Waiting {
        kept: 0,
        open: true,
        failed: false,
    };
    let mut rounds = u64::MAX;
    while rounds > 0 && r.open {
        r = round(
            rt, mode, input, r.kept, held, out, texts, numbers, lent, shapes, places, rows, book,
            marks,
        );
        rounds -= 1;
    }
    if r.failed {
        return;
    }
    answer_held(
        rt, mode, held, r.kept, out, texts, numbers, lent, shapes, places, rows, book, marks,
    );
    let at = out.at;
    write_out(rt, out.buffer, at);
}

// Reads once, feeds what was read, and writes the answers out, so that a person sees the answer to each line before typing the next.
fn round(
    rt: &(impl Files + Input + Print + Eprint),
    mode: Mode,
    input: &mut [u8],
    kept: usize,
    held: &mut [u8],
    out: &mut Out<'_>,
    texts: &mut [u8],
    numbers: &mut [i32],
    lent: &mut [usize; lent::COUNTS],
    shapes: &mut [i32; limits::SHAPES_LENGTH],
    places: &mut [i32; limits::PLACES_LENGTH],
    rows: &mut [u8; limits::ROWS],
    book: &mut [u32; limits::BOOK],
    marks: &mut [u16],
) -> Waiting
    ensures same { SameOut out.old out.new }
    ensures feeds { (part : List ℕ) → Holds held.old kept part → FeedsSome mode.trial (length numbers.old) part
        (kept_of shapes.old places.old rows.old book.old marks.old lent.old)
        (kept_of shapes.new places.new rows.new book.new marks.new lent.new)
        held.new result.kept }
{
    let n = read_in(rt, input);
    if input.len() < n {
        return Waiting {
            kept,
            open: false,
            failed: true,
        };
    }
    let more = feed(
        rt,
        mode,
        &input[0..n],
        kept,
        held,
        out,
        texts,
        numbers,
        lent,
        shapes,
        places,
        rows,
        book,
        marks,
    );
    let at = out.at;
    let next = write_out(rt, out.buffer, at);
    let failed = out.buffer.len() < next;
    out.at = next;
    Waiting {
        kept: more,
        open: goes_on(n, failed),
        failed,
    }
}

// The input goes on where something came; the program where nothing has failed.
fn goes_on(n: usize, failed: bool) -> bool {
    if failed {
        return false;
    }
    n != 0
}
