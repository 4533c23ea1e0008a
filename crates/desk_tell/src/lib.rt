// One command told to the desk, whichever it is: what a run of commands and the program's lines both go by.
// Each command refuses what it does not take; its corner numbers come beside it, and a load alone reads them.
#![tactic(auto)]

ghost use Rattle.desk_state.specs.Lent.{held, SameLent};
ghost use Rattle.desk.specs.Commands.{Does, Loads, Places, Moves, Removed, SetsGap};

use desk::Command;
use desk::start::start;
use desk_gap::set_gap;
use desk_load::load;
use desk_move::move_piece;
use desk_place::{place, remove};
use desk_state::{LentBook, LentDesk, LentPlaces, LentShapes};
use limits::Refusal;
use pieces::placement::{Offset, Placement};

pub fn tell(desk: &mut LentDesk<'_>, command: Command, numbers: &[i32]) -> Result<u32, Refusal>
    ensures same { SameLent desk.old desk.new }
    ensures does { Does command numbers.now (held desk.old) (held desk.new) result }
{
    match command {
        Command::Start => start(desk),
        Command::Load(shape) => load_shape(desk, shape, numbers),
        Command::Gap(steps) => set_book(desk, steps),
        Command::Place(p, q) => place_at(desk, p, q),
        Command::Move(p, turn, o) => move_at(desk, p, turn, o),
        Command::Remove(p) => remove_at(desk, p),
    }
}

// A load is lent the shapes alone to be changed.
fn load_shape(desk: &mut LentDesk<'_>, shape: i32, numbers: &[i32]) -> Result<u32, Refusal>
    ensures same { SameLent desk.old desk.new }
    ensures does { Loads (held desk.old) shape numbers.now (held desk.new) result }
{
    let shapes = &mut *desk.shapes;
    let places = &mut *desk.places;
    let rows = &mut *desk.rows;
    let book = &mut *desk.book;
    let marks = &mut *desk.marks;
    let mut lent = LentShapes {
        shapes,
        places,
        rows,
        book,
        marks,
    };
    load(&mut lent, shape, numbers)
}

// The setting of a gap is lent the book alone to be changed.
fn set_book(desk: &mut LentDesk<'_>, steps: i32) -> Result<u32, Refusal>
    ensures same { SameLent desk.old desk.new }
    ensures does { SetsGap (held desk.old) steps (held desk.new) result }
{
    let shapes = &mut *desk.shapes;
    let places = &mut *desk.places;
    let rows = &mut *desk.rows;
    let book = &mut *desk.book;
    let marks = &mut *desk.marks;
    let mut lent = LentBook {
        shapes,
        places,
        rows,
        book,
        marks,
    };
    set_gap(&mut lent, steps)
}

// A piece is placed, moved and removed with the shapes lent to be read.
fn place_at(desk: &mut LentDesk<'_>, p: i32, q: Placement) -> Result<u32, Refusal>
    ensures same { SameLent desk.old desk.new }
    ensures does { Places (held desk.old) p q (held desk.new) result }
{
    let mut lent = LentPlaces {
        shapes: desk.shapes,
        places: desk.places,
        rows: desk.rows,
        book: desk.book,
        marks: desk.marks,
    };
    place(&mut lent, p, q)
}

// A piece is placed, moved and removed with the shapes lent to be read.
fn move_at(desk: &mut LentDesk<'_>, p: i32, turn: i32, o: Offset) -> Result<u32, Refusal>
    ensures same { SameLent desk.old desk.new }
    ensures does { Moves (held desk.old) p turn o (held desk.new) result }
{
    let mut lent = LentPlaces {
        shapes: desk.shapes,
        places: desk.places,
        rows: desk.rows,
        book: desk.book,
        marks: desk.marks,
    };
    move_piece(&mut lent, p, turn, o)
}

// A piece is placed, moved and removed with the shapes lent to be read.
fn remove_at(desk: &mut LentDesk<'_>, p: i32) -> Result<u32, Refusal>
    ensures same { SameLent desk.old desk.new }
    ensures does { Removed (held desk.old) p (held desk.new) result }
{
    let mut lent = LentPlaces {
        shapes: desk.shapes,
        places: desk.places,
        rows: desk.rows,
        book: desk.book,
        marks: desk.marks,
    };
    remove(&mut lent, p)
}
