// `load-stl S PATH` and `load-off S PATH`: the number of a shape, and the corners of the file at a path.
// No contract says which bytes the system hands over; what is promised is that the corners are those of the bytes that came.
#![tactic(auto)]

ghost use Rattle.std.specs.Prelude.{◌≤◌, ◌-◌, ◌≡◌, length};
ghost use Rattle.line_file.specs.Requests.{ShapePathOf, OfFile, Requests, GotWithin, FileWithin};
ghost use Rattle.line.specs.declared.kinds.FileKind.TheVariants.{Stl, Off};

use line::kinds::FileKind;
use std::fs;
use std::io::Read;
use std::rt::Files;
use text_number::read_number;

// What a line asks to be loaded: a shape's number, and how many numbers stand in the room, the corners' behind the first; the reader's
// refusal; or nothing, where the line is no command or its file cannot be had.
#[derive(Drop)]
pub enum Request {
    Load(i32, usize),
    Refused(u8),
    Bad,
}

// A shape's number, and where the path behind it begins; or the line is no command.
#[derive(Drop)]
pub enum ShapePath {
    At(i32, usize),
    Bad,
}

// How many bytes one read gave: none where the file ends.
#[derive(Drop)]
enum Got {
    Bytes(usize),
    Failed,
}

// How many bytes a file has that was read to its end.
#[derive(Drop)]
enum File {
    Bytes(usize),
    Bad,
}

// "up to 1 MiB" (docs/COMMANDS.md), and one byte more, in which it is seen that a file is longer.
const FILE_ROOM: usize = 1048577;

fn buffer() -> [u8; FILE_ROOM]
    ensures { 1048577 ≡ length result }
{
    [0; FILE_ROOM]
}

// The line's second word is the shape's number; its path is all that stands behind the space after that.
pub fn shape_and_path(line: &[u8]) -> ShapePath
    ensures { ShapePathOf line.now result }
{
    let end = text_words::word_end(line, 0);
    if line.len() <= end {
        return ShapePath::Bad;
    }
    let next = text_words::word_end(line, end + 1);
    if line.len() <= next {
        return ShapePath::Bad;
    }
    let Some(shape) = read_number(&line[end + 1..next]) else {
        return ShapePath::Bad;
    };
    ShapePath::At(shape, next + 1)
}

pub fn requested(rt: &impl Files, kind: FileKind, line: &[u8], numbers: &mut [i32]) -> Request
    ensures { Requests kind line.now numbers.new result }
{
    let ShapePath::At(shape, start) = shape_and_path(line) else {
        return Request::Bad;
    };
    from_path(rt, kind, shape, &line[start..], numbers)
}

fn from_path(
    rt: &impl Files,
    kind: FileKind,
    shape: i32,
    path: &[u8],
    numbers: &mut [i32],
) -> Request
    ensures { OfFile kind shape numbers.new result }
{
    let mut room = buffer();
    let File::Bytes(n) = read_file(rt, path, &mut room) else {
        return Request::Bad;
    };
    match kind {
        FileKind::Stl => from_stl(shape, &room[0..n], numbers),
        FileKind::Off => from_off(shape, &room[0..n], numbers),
    }
}

// The corners stand behind the room's first cell, as those of a `load` stand behind its first number.
fn from_stl(shape: i32, file: &[u8], numbers: &mut [i32]) -> Request
    ensures { OfFile Stl shape numbers.new result }
{
    if numbers.len() == 0 {
        return Request::Bad;
    }
    match scans_stl_corners::corners(file, &mut numbers[1..]) {
        Ok(count) => Request::Load(shape, count + 1),
        Err(refusal) => Request::Refused(refusal.number()),
    }
}

fn from_off(shape: i32, text: &[u8], numbers: &mut [i32]) -> Request
    ensures { OfFile Off shape numbers.new result }
{
    if numbers.len() == 0 {
        return Request::Bad;
    }
    match off_read::corners(text, &mut numbers[1..]) {
        Ok(n) => Request::Load(shape, n + 1),
        Err(refusal) => Request::Refused(refusal.number()),
    }
}

// Only a path that is UTF-8 has a file.
fn read_file(rt: &impl Files, path: &[u8], room: &mut [u8]) -> File
    ensures { FileWithin (length room.old) result }
{
    let Ok(path) = str::from_utf8(path) else {
        return File::Bad;
    };
    let Ok(mut file) = fs::open(rt, path) else {
        return File::Bad;
    };
    read_all(&mut file, room)
}

// Reads up to the file's end. A file that fills the room is too long.
fn read_all(file: &mut impl Read, room: &mut [u8]) -> File
    ensures { FileWithin (length room.old) result }
{
    let mut at: usize = 0;
    while at < room.len() {
        let Got::Bytes(n) = read_behind(file, room, at) else {
            return File::Bad;
        };
        if n == 0 {
            return File::Bytes(at);
        }
        at += n;
    }
    File::Bad
}

fn read_behind(file: &mut impl Read, room: &mut [u8], at: usize) -> Got
    requires { at ≤ length room.old }
    ensures { GotWithin (length room.old - at) result }
{
    read_part(file, &mut room[at..])
}

fn read_part(file: &mut impl Read, part: &mut [u8]) -> Got
    ensures { GotWithin (length part.old) result }
{
    match file.read(part) {
        Ok(n) => Got::Bytes(n),
        Err(_) => Got::Failed,
    }
}
