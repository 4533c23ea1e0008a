// The desk's commands for a program in another language to link: `bench/` measures them beside an ordinary desk.
// Each promises what the call beneath it promises; an answer that is an enum or carries witnesses is two numbers here.
#![tactic(auto)]

ghost use Rattle.std.specs.Prelude.{◌≡◌};
ghost use Rattle.limits.specs.Decides.{Decides};
ghost use Rattle.desk_state.specs.Desk.{desk_of, InOrder};
ghost use Rattle.desk.specs.Commands.{Outcome, Started, Loads, Places, Moves, Removed, SetsGap};
ghost use Rattle.bench_desk.specs.Replies.{reply_to, Replies, RepliesVerdict};

use desk::start::start;
use desk_gap::set_gap;
use desk_load::load;
use desk_move::move_piece;
use desk_place::{place, remove};
use desk_state::{LentBook, LentDesk, LentPlaces, LentShapes, SeenDesk};
use limits::Refusal;
use pieces::placement::{Offset, Placement};
use verdict::pair_of_lists;

// The answer to a command: a refusal's number, or 0 and the count.
// Stays: C reads the number and the count as two fields.
#[repr(C)]
#[derive(Clone, Copy)]
pub struct Reply {
    pub number: u8,
    pub count: u32,
}

// The answer to the pair question: a refusal's number, or 0 and the verdict.
// Stays: C reads the number and the verdict as two fields.
#[repr(C)]
#[derive(Clone, Copy)]
pub struct VerdictReply {
    pub number: u8,
    pub verdict: u8,
}

fn reply_to(answer: Result<u32, Refusal>) -> Reply
    ensures { result ≡ reply_to answer }
{
    match answer {
        Ok(count) => Reply {
            number: limits::DONE,
            count,
        },
        Err(refusal) => Reply {
            number: refusal.number(),
            count: 0,
        },
    }
}

// Stays: C lends the five arrays one by one, here and to each function below.
#[unsafe(no_mangle)]
pub extern "C" fn bench_desk_start(
    shapes: &mut [i32; limits::SHAPES_LENGTH],
    places: &mut [i32; limits::PLACES_LENGTH],
    rows: &mut [u8; limits::ROWS],
    book: &mut [u32; limits::BOOK],
    marks: &mut [u16],
) -> Reply
    ensures { Replies (λ (o : Outcome). Started
        (desk_of shapes.old places.old rows.old book.old marks.old)
        (desk_of shapes.new places.new rows.new book.new marks.new) o) result }
{
    let mut desk = LentDesk {
        shapes,
        places,
        rows,
        book,
        marks,
    };
    reply_to(start(&mut desk))
}

#[unsafe(no_mangle)]
pub extern "C" fn bench_desk_load(
    shapes: &mut [i32; limits::SHAPES_LENGTH],
    places: &[i32; limits::PLACES_LENGTH],
    rows: &[u8; limits::ROWS],
    book: &[u32; limits::BOOK],
    marks: &[u16],
    shape: i32,
    numbers: &[i32],
) -> Reply
    ensures { Replies (λ (o : Outcome). Loads
        (desk_of shapes.old places.now rows.now book.now marks.now) shape numbers.now
        (desk_of shapes.new places.now rows.now book.now marks.now) o) result }
{
    let mut desk = LentShapes {
        shapes,
        places,
        rows,
        book,
        marks,
    };
    reply_to(load(&mut desk, shape, numbers))
}

#[unsafe(no_mangle)]
pub extern "C" fn bench_desk_place(
    shapes: &[i32; limits::SHAPES_LENGTH],
    places: &mut [i32; limits::PLACES_LENGTH],
    rows: &mut [u8; limits::ROWS],
    book: &mut [u32; limits::BOOK],
    marks: &mut [u16],
    number: i32,
    shape: i32,
    turn: i32,
    x: i32,
    y: i32,
    z: i32,
) -> Reply
    ensures { Replies (λ (o : Outcome). Places
        (desk_of shapes.now places.old rows.old book.old marks.old)
        number (record { shape = shape; turn = turn; x = x; y = y; z = z })
        (desk_of shapes.now places.new rows.new book.new marks.new) o) result }
{
    let q = Placement {
        shape,
        turn,
        x,
        y,
        z,
    };
    let mut desk = LentPlaces {
        shapes,
        places,
        rows,
        book,
        marks,
    };
    reply_to(place(&mut desk, number, q))
}

#[unsafe(no_mangle)]
pub extern "C" fn bench_desk_move(
    shapes: &[i32; limits::SHAPES_LENGTH],
    places: &mut [i32; limits::PLACES_LENGTH],
    rows: &mut [u8; limits::ROWS],
    book: &mut [u32; limits::BOOK],
    marks: &mut [u16],
    number: i32,
    turn: i32,
    x: i32,
    y: i32,
    z: i32,
) -> Reply
    ensures { Replies (λ (o : Outcome). Moves
        (desk_of shapes.now places.old rows.old book.old marks.old)
        number turn (record { x = x; y = y; z = z })
        (desk_of shapes.now places.new rows.new book.new marks.new) o) result }
{
    let o = Offset { x, y, z };
    let mut desk = LentPlaces {
        shapes,
        places,
        rows,
        book,
        marks,
    };
    reply_to(move_piece(&mut desk, number, turn, o))
}

#[unsafe(no_mangle)]
pub extern "C" fn bench_desk_remove(
    shapes: &[i32; limits::SHAPES_LENGTH],
    places: &mut [i32; limits::PLACES_LENGTH],
    rows: &mut [u8; limits::ROWS],
    book: &mut [u32; limits::BOOK],
    marks: &mut [u16],
    number: i32,
) -> Reply
    ensures { Replies (λ (o : Outcome). Removed
        (desk_of shapes.now places.old rows.old book.old marks.old) number
        (desk_of shapes.now places.new rows.new book.new marks.new) o) result }
{
    let mut desk = LentPlaces {
        shapes,
        places,
        rows,
        book,
        marks,
    };
    reply_to(remove(&mut desk, number))
}

#[unsafe(no_mangle)]
pub extern "C" fn bench_desk_set_gap(
    shapes: &[i32; limits::SHAPES_LENGTH],
    places: &[i32; limits::PLACES_LENGTH],
    rows: &[u8; limits::ROWS],
    book: &mut [u32; limits::BOOK],
    marks: &[u16],
    gap: i32,
) -> Reply
    ensures { Replies (λ (o : Outcome). SetsGap
        (desk_of shapes.now places.now rows.now book.old marks.now) gap
        (desk_of shapes.now places.now rows.now book.new marks.now) o) result }
{
    let mut desk = LentBook {
        shapes,
        places,
        rows,
        book,
        marks,
    };
    reply_to(set_gap(&mut desk, gap))
}

#[unsafe(no_mangle)]
pub extern "C" fn bench_desk_in_order(
    shapes: &[i32; limits::SHAPES_LENGTH],
    places: &[i32; limits::PLACES_LENGTH],
    rows: &[u8; limits::ROWS],
    book: &[u32; limits::BOOK],
    marks: &[u16],
) -> bool
    ensures { Decides result (InOrder (desk_of shapes.now places.now rows.now book.now marks.now)) }
{
    let desk = SeenDesk {
        shapes,
        places,
        rows,
        book,
        marks,
    };
    desk.in_order()
}

// With no gap between the pieces.
#[unsafe(no_mangle)]
pub extern "C" fn bench_desk_pair_of_lists(first: &[i32], second: &[i32]) -> VerdictReply
    ensures { RepliesVerdict first.now second.now result }
{
    let (number, verdict) = match pair_of_lists(0, first, second) {
        Ok(v) => (limits::DONE, v.number()),
        Err(refusal) => (refusal.number(), 0),
    };
    VerdictReply { number, verdict }
}
