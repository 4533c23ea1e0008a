// What a line says: a variant of `Line`, its word below, and the arm that answers it.
// The desk's commands carry their numbers, so a line that is none of them is found before the desk sees it.
#![tactic(auto)]

ghost use Rattle.std.specs.Prelude.{◌≡◌, true, ◌↔◌};
ghost use Rattle.line.specs.Behind.{behind, Finds};
ghost use Rattle.line_command.specs.Lines.{takes, load_of, place_of, move_of, remove_of, setting_of, pair_of, write_of, desk_words, Unknowing, OfDesk, OfWord, PassedOver, ReadAs, LineSays};

use desk::Command;
use line::kinds::FileKind;
use line::lent::MOST_BYTES;
use line::names::name_of;
use line::parts::numbers_behind;
use line_spoil::{Cell, cell_of};
use pieces::placement::{Offset, Placement};

// A command of the desk, and how many numbers the line has: of a load those behind the first are the corners'. `LoadFile` is a load from a
// file of a kind, and `SaveFile` writes a shape to one; a file's name is no number.
#[derive(Drop)]
pub enum Line {
    Tell(Command, usize),
    Ask(Asked),
    Spoil(Cell),
    LoadFile(FileKind),
    SaveFile,
    Other(Other),
}

// What the desk can be asked.
#[derive(Drop)]
pub enum Asked {
    Pair(i32, i32),
    Contacts,
    Rows,
    Tallies,
    Marks,
    Report,
    Write(i32),
}

// What the desk has no part in. `Nothing` is a line of no bytes or one that begins with `#`, and `Unknown` a line that is no command.
#[derive(Drop)]
pub enum Other {
    Length,
    MenuLine,
    Lists,
    Scan,
    Show,
    Blank,
    Room,
    Lend,
    Stl,
    Triangle,
    Off,
    Nothing,
    Unknown,
}

// How many numbers stand behind a word; behind `load` stand any count from one on.
const PLACE_NUMBERS: usize = 6;

const MOVE_NUMBERS: usize = 5;

const REMOVE_NUMBERS: usize = 1;

const GAP_NUMBERS: usize = 1;

const PAIR_NUMBERS: usize = 2;

const WRITE_NUMBERS: usize = 1;

// What a line says: one that is passed over nothing, however long it is, and any other that is too long no command.
pub fn says(line: &[u8], numbers: &mut [i32]) -> Line
    ensures { LineSays line.now numbers.old numbers.new result }
{
    if is_passed_over(line) {
        return Line::Other(Other::Nothing);
    }
    if MOST_BYTES < line.len() {
        return Line::Other(Other::Unknown);
    }
    read(line, numbers)
}

// What a line of words says, its numbers in the room's first cells.
fn read(line: &[u8], numbers: &mut [i32]) -> Line
    ensures { ReadAs line.now numbers.old numbers.new result }
{
    let end = text_words::word_end(line, 0);
    of_word(&line[0..end], line, end, numbers)
}

fn is_passed_over(line: &[u8]) -> bool
    ensures { (result ≡ true) ↔ PassedOver line.now }
{
    if line.len() == 0 {
        return true;
    }
    line[0] == b'#'
}

// By the line's first word: what the desk has no part in, a file, a cell, or what the desk is told or asked.
fn of_word(word: &[u8], line: &[u8], end: usize, numbers: &mut [i32]) -> Line
    ensures { OfWord word.now (behind line.now end) numbers.old numbers.new result }
{
    match name_of(
        word,
        b" length line lists scan show blank room lend stl triangle off load-stl load-off save-off spoil",
    ) {
        0 => Line::Other(Other::Length),
        1 => Line::Other(Other::MenuLine),
        2 => Line::Other(Other::Lists),
        3 => Line::Other(Other::Scan),
        4 => Line::Other(Other::Show),
        5 => Line::Other(Other::Blank),
        6 => Line::Other(Other::Room),
        7 => Line::Other(Other::Lend),
        8 => Line::Other(Other::Stl),
        9 => Line::Other(Other::Triangle),
        10 => Line::Other(Other::Off),
        11 => Line::LoadFile(FileKind::Stl),
        12 => Line::LoadFile(FileKind::Off),
        13 => Line::SaveFile,
        14 => Line::Spoil(cell_of(line, end, numbers)),
        _ => of_desk(word, line, end, numbers),
    }
}

// A word of the desk, behind which each word is a number.
fn of_desk(word: &[u8], line: &[u8], end: usize, numbers: &mut [i32]) -> Line
    ensures { OfDesk word.now (behind line.now end) numbers.old numbers.new result }
{
    let Some(n) = numbers_behind(line, end, numbers) else {
        return Line::Other(Other::Unknown);
    };
    numbered(word, &numbers[0..n])
}

fn numbered(word: &[u8], numbers: &[i32]) -> Line
    ensures { Finds word.now (desk_words numbers.now) Unknowing result }
{
    match name_of(
        word,
        b" load place move remove gap pair fresh contacts rows tallies marks report write",
    ) {
        0 => load_of(numbers),
        1 => place_of(numbers),
        2 => move_of(numbers),
        3 => remove_of(numbers),
        4 => setting_of(numbers),
        5 => pair_of(numbers),
        6 => alone(numbers, Line::Tell(Command::Start, 0)),
        7 => alone(numbers, Line::Ask(Asked::Contacts)),
        8 => alone(numbers, Line::Ask(Asked::Rows)),
        9 => alone(numbers, Line::Ask(Asked::Tallies)),
        10 => alone(numbers, Line::Ask(Asked::Marks)),
        11 => alone(numbers, Line::Ask(Asked::Report)),
        12 => write_of(numbers),
        _ => Line::Other(Other::Unknown),
    }
}

// A word with nothing behind it.
fn alone(numbers: &[i32], line: Line) -> Line
    ensures { result ≡ takes 0 numbers.now line }
{
    if numbers.len() != 0 {
        return Line::Other(Other::Unknown);
    }
    line
}

// `load S n n n ..`: any count of numbers behind the shape's.
fn load_of(numbers: &[i32]) -> Line
    ensures { result ≡ load_of numbers.now }
{
    if numbers.len() == 0 {
        return Line::Other(Other::Unknown);
    }
    Line::Tell(Command::Load(numbers[0]), numbers.len())
}

// `place P S T x y z`
fn place_of(numbers: &[i32]) -> Line
    ensures { result ≡ place_of numbers.now }
{
    if numbers.len() != PLACE_NUMBERS {
        return Line::Other(Other::Unknown);
    }
    let q = Placement {
        shape: numbers[1],
        turn: numbers[2],
        x: numbers[3],
        y: numbers[4],
        z: numbers[5],
    };
    Line::Tell(Command::Place(numbers[0], q), PLACE_NUMBERS)
}

// `move P T x y z`
fn move_of(numbers: &[i32]) -> Line
    ensures { result ≡ move_of numbers.now }
{
    if numbers.len() != MOVE_NUMBERS {
        return Line::Other(Other::Unknown);
    }
    let o = Offset {
        x: numbers[2],
        y: numbers[3],
        z: numbers[4],
    };
    Line::Tell(Command::Move(numbers[0], numbers[1], o), MOVE_NUMBERS)
}

// `remove P`
fn remove_of(numbers: &[i32]) -> Line
    ensures { result ≡ remove_of numbers.now }
{
    if numbers.len() != REMOVE_NUMBERS {
        return Line::Other(Other::Unknown);
    }
    Line::Tell(Command::Remove(numbers[0]), REMOVE_NUMBERS)
}

// `gap G`
fn setting_of(numbers: &[i32]) -> Line
    ensures { result ≡ setting_of numbers.now }
{
    if numbers.len() != GAP_NUMBERS {
        return Line::Other(Other::Unknown);
    }
    Line::Tell(Command::Gap(numbers[0]), GAP_NUMBERS)
}

// `pair P Q`
fn pair_of(numbers: &[i32]) -> Line
    ensures { result ≡ pair_of numbers.now }
{
    if numbers.len() != PAIR_NUMBERS {
        return Line::Other(Other::Unknown);
    }
    Line::Ask(Asked::Pair(numbers[0], numbers[1]))
}

// `write S`
fn write_of(numbers: &[i32]) -> Line
    ensures { result ≡ write_of numbers.now }
{
    if numbers.len() != WRITE_NUMBERS {
        return Line::Other(Other::Unknown);
    }
    Line::Ask(Asked::Write(numbers[0]))
}
