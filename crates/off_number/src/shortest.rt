// A number of steps written as the shortest exact decimal (document 02, W7), into lent room at a place.
// It is spelled in a room of our own first, so that all of it is put or nothing.
ghost use Rattle.std.specs.Prelude.{[], ◌≤◌, ◌<◌, length};
ghost use Rattle.ints.specs.Bounds.{Within};
ghost use Rattle.limits.specs.Limits;
ghost use Rattle.text_put.specs.Print.{Put, signed};
ghost use Rattle.off_number.specs.Shortest.{part_of, pointed, decimal_of};
ghost use Rattle.off_number.specs.Spelling.{Spelled};

use text_put::{put, put_number};

// Steps to the millimetre, in the type that they are counted in.
const STEPS: u32 = limits::STEPS as u32;

// "a step is 0.015625": so many millionths.
const STEP_MILLIONTHS: u32 = 15625;

const MILLIONTHS: u32 = 1000000;

// The longest number of a corner: a minus, four digits, a point and six digits.
pub const LONGEST: usize = 12;

pub fn put_steps(room: &mut [u8], at: usize, steps: i32) -> usize
    requires { Within Limits.shape_reach steps }
    ensures { Put room.old at (decimal_of steps) room.new result }
{
    let mut text = [0u8; LONGEST];
    let n = spell(&mut text, steps);
    put(room, at, &text[..n])
}

// The number at the start of the text, and how many bytes it has.
fn spell(text: &mut [u8; LONGEST], steps: i32) -> usize
    requires { Within Limits.shape_reach steps }
    ensures { Spelled (decimal_of steps) text.new result }
{
    let room = &mut text[..];
    let n = steps.unsigned_abs();
    let sign = put_sign(room, steps);
    let whole = put_number(room, sign, i64::from(n / STEPS));
    put_part(room, whole, n % STEPS)
}

// A minus at the start, where the number is below zero.
fn put_sign(room: &mut [u8], steps: i32) -> usize
    requires { 1 ≤ length room.old }
    ensures { Put room.old 0 (signed steps []) room.new result }
{
    if steps < 0 {
        room[0] = b'-';
        return 1;
    }
    0
}

// The point and the digits behind it of so many steps, less than a millimetre. A million in front keeps the zeros that they may start with.
fn put_part(room: &mut [u8], at: usize, r: u32) -> usize
    requires { r < Limits.steps }
    ensures { Put room.old at (pointed (part_of r)) room.new result }
{
    if r == 0 {
        return at;
    }
    let mut digits = [0u8; 20];
    io::decimal(u64::from(MILLIONTHS + r * STEP_MILLIONTHS), &mut digits);
    digits[0] = b'.';
    // A 64th takes six digits, and one fewer for each factor of two in how many there are.
    let decimals = limits::OFF_DIGITS - r.trailing_zeros() as usize;
    put(room, at, &digits[..1 + decimals])
}
