// The commands on floats: a scanned point, the millimetres that steps show, and a blank's corners.
// A float is read and printed as its bit pattern, 8 hex digits. `end` is where the command's own word ends.
ghost use Rattle.std.specs.Prelude.{◌≡◌};
ghost use Rattle.std.specs.Float.{binary32};
ghost use Rattle.std.specs.Float.Ieee.{of_bits};
ghost use Rattle.line.specs.Printed.{SameOut};

use crate::listing::listed;
use limits::Refusal;
use line::lent;
use line::lent::at_most;
use line::names::name_of;
use line::out::Out;
use line::parts::{after, only_number, three_words};

// The floats of three bit patterns.
#[derive(Drop)]
enum Floats {
    Three(f32, f32, f32),
    Bad,
}

// What a `blank` names.
#[derive(Drop)]
enum BlankRead {
    Blank(blanks::Blank),
    Bad,
}

// The pattern of the sign alone, and of plus infinity. Without its sign, a pattern above that stands for what is not a number.
const SIGN: u32 = 0x8000_0000;

const INFINITY: u32 = 0x7f80_0000;

// The hex digits of a bit pattern.
const PATTERN_DIGITS: usize = 8;

// `scan h h h`: the steps of a scanned point.
pub fn scan(line: &[u8], end: usize, out: &mut Out<'_>)
    ensures { SameOut out.old out.new }
{
    match read_floats(line, after(line, end)) {
        Floats::Three(x, y, z) => scanned(scans::scan_point(scans::Point { x, y, z }), out),
        Floats::Bad => out.wrong(),
    }
}

fn scanned(scanned: Result<scans::Steps, Refusal>, out: &mut Out<'_>)
    ensures { SameOut out.old out.new }
{
    match scanned {
        Ok(steps) => {
            out.put(b"0");
            out.next_number(i64::from(steps.x));
            out.next_number(i64::from(steps.y));
            out.next_number(i64::from(steps.z));
            out.end();
        }
        Err(refusal) => out.refused(refusal.number()),
    }
}

// `show STEPS`: the bit pattern of the millimetres shown.
pub fn show(line: &[u8], end: usize, out: &mut Out<'_>)
    ensures { SameOut out.old out.new }
{
    match only_number(line, end) {
        Some(steps) => shown(scans::shown(steps), out),
        None => out.wrong(),
    }
}

fn shown(millimetres: Result<f32, Refusal>, out: &mut Out<'_>)
    ensures { SameOut out.old out.new }
{
    match millimetres {
        Ok(value) => {
            out.put(b"0 ");
            out.hex(scans::pattern(value), PATTERN_DIGITS);
            out.end();
        }
        Err(refusal) => out.refused(refusal.number()),
    }
}

// `blank box h h h`, or `wedge` or `corner`: the corners, in as many of the numbers as are lent.
pub fn blank(
    line: &[u8],
    end: usize,
    lent: &[usize; lent::COUNTS],
    numbers: &mut [i32],
    out: &mut Out<'_>,
)
    ensures { SameOut out.old out.new }
{
    let BlankRead::Blank(b) = read_blank(line, end) else {
        out.wrong();
        return;
    };
    let room = at_most(lent[lent::ROOM_LENT], numbers.len());
    corners(b, &mut numbers[0..room], out);
}

fn corners(b: blanks::Blank, room: &mut [i32], out: &mut Out<'_>)
    ensures { SameOut out.old out.new }
{
    match blanks::corners(b, room) {
        Ok(count) => listed(&room[0..count], out),
        Err(refusal) => out.refused(refusal.number()),
    }
}

fn read_blank(line: &[u8], end: usize) -> BlankRead {
    if line.len() <= end {
        return BlankRead::Bad;
    }
    let kind = text_words::word_end(line, end + 1);
    let Floats::Three(w, d, h) = read_floats(line, after(line, kind)) else {
        return BlankRead::Bad;
    };
    of_kind(&line[end + 1..kind], w, d, h)
}

// The blank of a kind, by its name and sizes.
fn of_kind(name: &[u8], width: f32, depth: f32, height: f32) -> BlankRead {
    match name_of(name, b" box wedge corner") {
        0 => BlankRead::Blank(blanks::Blank::Box {
            width,
            depth,
            height,
        }),
        1 => BlankRead::Blank(blanks::Blank::Wedge {
            width,
            depth,
            height,
        }),
        2 => BlankRead::Blank(blanks::Blank::Corner {
            width,
            depth,
            height,
        }),
        _ => BlankRead::Bad,
    }
}

// The words from a place to the line's end, if they are three bit patterns.
fn read_floats(line: &[u8], start: usize) -> Floats {
    let Some((a, b)) = three_words(line, start) else {
        return Floats::Bad;
    };
    three_floats(&line[start..a], &line[a + 1..b], &line[b + 1..])
}

fn three_floats(first: &[u8], second: &[u8], third: &[u8]) -> Floats {
    let Some(x) = text_hex::read_pattern(first) else {
        return Floats::Bad;
    };
    let Some(y) = text_hex::read_pattern(second) else {
        return Floats::Bad;
    };
    let Some(z) = text_hex::read_pattern(third) else {
        return Floats::Bad;
    };
    Floats::Three(float_of(x), float_of(y), float_of(z))
}

// The float of a bit pattern. What is not a number has many patterns, and all of them are one float.
fn float_of(pattern: u32) -> f32
    ensures { result ≡ of_bits binary32 pattern }
{
    if INFINITY < pattern % SIGN {
        return 0.0 / 0.0;
    }
    f32::from_bits(pattern)
}
