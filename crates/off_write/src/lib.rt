// A shape's corners written as an OFF text (document 02, W7), at the start of lent room: all of it, or nothing where the room is too short.
// The text is made in a room of our own first, which holds the longest that there is.
#![tactic(auto)]

ghost use Rattle.std.specs.Prelude.{◌≤◌, ◌+◌, ◌*◌, [], ◌∷◌, ◌++◌, length};
ghost use Rattle.ints.specs.Bounds.{Within};
ghost use Rattle.limits.specs.Limits;
ghost use Rattle.space.specs.Lists.{LengthFits, InReach};
ghost use Rattle.text_put.specs.Print.{Put, Extends};
ghost use Rattle.off_write.specs.Written.{head_of, ended, line_of, lines_of, off_text};

use off_number::shortest::{LONGEST, put_steps};
use text_put::{put, put_number};

// The lines before the corners, at most: OFF, and a count of two digits with its two noughts.
const HEAD: usize = 11;

// A number and the byte behind it, and a corner's line, at most.
const ENDED: usize = LONGEST + 1;

const LINE: usize = 3 * ENDED;

const MOST: usize = HEAD + limits::CORNERS * LINE;

fn blank() -> [u8; MOST] {
    [0; MOST]
}

// The text of a shape with these numbers, three a corner.
pub fn write_corners(numbers: &[i32], room: &mut [u8]) -> usize
    requires { LengthFits (length numbers.now) × InReach Limits.shape_reach numbers.now }
    ensures { Put room.old 0 (off_text numbers.now) room.new result }
{
    let mut text = blank();
    let n = spell(numbers, &mut text);
    put(room, 0, &text[..n])
}

fn spell(numbers: &[i32], text: &mut [u8; MOST]) -> usize
    requires { LengthFits (length numbers.now) × InReach Limits.shape_reach numbers.now }
    ensures { Extends text.old 0 (off_text numbers.now) text.new result × (result ≤ length text.new) }
{
    let room = &mut text[..];
    let at = put_head(room, numbers.len() / 3);
    put_lines(numbers, room, at)
}

fn put_head(room: &mut [u8], corners: usize) -> usize
    requires { (corners ≤ Limits.corners) × (11 ≤ length room.old) }
    ensures { Extends room.old 0 (head_of corners) room.new result }
{
    let title = put(room, 0, b"OFF\n");
    let count = put_number(room, title, corners as i64);
    put(room, count, b" 0 0\n")
}

// A line for each corner.
fn put_lines(numbers: &[i32], room: &mut [u8], from: usize) -> usize
    requires { LengthFits (length numbers.now) × InReach Limits.shape_reach numbers.now × (from + 13 * length numbers.now ≤ length room.old) }
    ensures { Extends room.old from (lines_of numbers.now) room.new result }
{
    let mut at = from;
    let mut i: usize = 0;
    while i < numbers.len() {
        at = put_line(room, at, numbers[i], numbers[i + 1], numbers[i + 2]);
        i += 3;
    }
    at
}

fn put_line(room: &mut [u8], at: usize, x: i32, y: i32, z: i32) -> usize
    requires { Within Limits.shape_reach x × Within Limits.shape_reach y × Within Limits.shape_reach z × (at + 39 ≤ length room.old) }
    ensures { Extends room.old at (line_of x y z) room.new result }
{
    let one = put_ended(room, at, x, b' ');
    let two = put_ended(room, one, y, b' ');
    put_ended(room, two, z, b'\n')
}

// A number and the byte behind it.
fn put_ended(room: &mut [u8], at: usize, steps: i32, end: u8) -> usize
    requires { Within Limits.shape_reach steps × (at + 13 ≤ length room.old) }
    ensures { Extends room.old at (ended steps end) room.new result × (result ≤ at + 13) }
{
    let next = put_steps(room, at, steps);
    let last = [end];
    put(room, next, &last)
}
