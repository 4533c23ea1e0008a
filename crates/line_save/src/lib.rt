// `save-off S PATH`: a shape of the desk, written to a file as an OFF text: beside the path first, and in its place when all of it is there.
// No contract says what the system does with the bytes; what is promised is that those handed over are the text of the shape that is named.
#![tactic(auto)]

ghost use Rattle.desk_state.specs.Lent.{seen};
ghost use Rattle.line.specs.Printed.{SameOut};
ghost use Rattle.line_save.specs.Saving.{Saves};

use desk_state::SeenDesk;
use desk_write::write;
use line::lent;
use line::lent::at_most;
use line::out::Out;
use line_file::{ShapePath, shape_and_path};
use std::fs;
use std::fs::{OpenFile, OpenOptions};
use std::io::{ErrorKind, Seek, SeekFrom, Write};
use std::rt::Files;

// How many bytes of the room are the text, and where the line's path begins; the refusal; or the line is no command.
#[derive(Drop)]
enum Saving {
    Text(usize, usize),
    Refused(u8),
    Bad,
}

// The longest path there is.
const PATH_BYTES: usize = 4095;

// Saves the shape that a line names, from a desk with as many marks as are lent. All of the room is for the text.
pub fn save(
    rt: &impl Files,
    line: &[u8],
    room: &mut [u8],
    lent: &[usize; lent::COUNTS],
    shapes: &[i32; limits::SHAPES_LENGTH],
    places: &[i32; limits::PLACES_LENGTH],
    rows: &[u8; limits::ROWS],
    book: &[u32; limits::BOOK],
    marks: &[u16],
    out: &mut Out<'_>,
)
    ensures { SameOut out.old out.new }
{
    let m = at_most(lent[lent::MARKS_LENT], marks.len());
    let desk = SeenDesk {
        shapes,
        places,
        rows,
        book,
        marks: &marks[0..m],
    };
    match wanted(line, room, desk) {
        Saving::Text(n, start) => {
            let saved = to_file(rt, &line[start..], &room[0..n]);
            out.done_if(saved);
        }
        Saving::Refused(number) => out.refused(number),
        Saving::Bad => out.wrong(),
    }
}

// What a line asks to be saved: the text of the shape stands at the start of the room.
fn wanted(line: &[u8], room: &mut [u8], desk: SeenDesk<'_>) -> Saving
    ensures { Saves line.now (seen desk.entry) room.old room.new result }
{
    let ShapePath::At(shape, start) = shape_and_path(line) else {
        return Saving::Bad;
    };
    match write(desk, shape, room) {
        Ok(count) => Saving::Text(count, start),
        Err(refusal) => Saving::Refused(refusal.number()),
    }
}

// Whether the text is at the path now. Where it is not, the path is as it was. A path that is not UTF-8 cannot be had.
fn to_file(rt: &impl Files, path: &[u8], text: &[u8]) -> bool {
    let Ok(to) = str::from_utf8(path) else {
        return false;
    };
    if !is_replaceable(rt, to) {
        return false;
    }
    let mut beside = [0u8; PATH_BYTES];
    let end = text_put::put(&mut beside, 0, path);
    let n = text_put::put(&mut beside, end, b".part");
    if end == path.len() && end < n {
        return put_beside(rt, &beside[0..n], to, text);
    }
    false
}

// Whether nothing stands at the path, or a file that can be written. What is no regular file, as a device, cannot be cut to any length.
fn is_replaceable(rt: &impl Files, path: &str) -> bool {
    match OpenOptions::new().read(true).write(true).open(rt, path) {
        Ok(mut file) => match file.seek(SeekFrom::End(0)) {
            Ok(end) => file.set_len(end).is_ok(),
            Err(_) => false,
        },
        Err(error) => error.kind() == ErrorKind::NotFound,
    }
}

// The name beside must be free: what stands there already is somebody's. A file that did not become the path's is taken away again.
fn put_beside(rt: &impl Files, beside: &[u8], path: &str, text: &[u8]) -> bool {
    let Ok(beside) = str::from_utf8(beside) else {
        return false;
    };
    let Ok(file) = OpenOptions::new()
        .write(true)
        .create_new(true)
        .open(rt, beside)
    else {
        return false;
    };
    if put_in(file, text) && fs::rename(rt, beside, path).is_ok() {
        return true;
    }
    fs::remove_file(rt, beside).is_ok();
    false
}

// Whether all of the text is in the file. A file that is closed does not say whether all of it came to the disk; so that is asked before.
fn put_in(mut file: impl Write + OpenFile + Drop, text: &[u8]) -> bool {
    let whole = file.write_all(text).is_ok();
    let kept = file.sync_all().is_ok();
    whole && kept
}
