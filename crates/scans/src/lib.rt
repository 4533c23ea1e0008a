// Floats to steps and back: scanned points, by their bit patterns, and the millimetres shown.
// A float is in millimetres, IEEE 754 binary32; a step is a 64th of a millimetre.
#![tactic(auto)]

ghost use Rattle.std.specs.Prelude.{◌/◌, ◌%◌, ◌≤◌, ◌<◌, ◌≡◌};
ghost use Rattle.std.specs.Float.{binary32};
ghost use Rattle.std.specs.Float.Ieee.{of_bits, of_fields};
ghost use Rattle.scans.specs.Scanned.{scan_of, scanned_of, both_of, TakenAs, ScannedAs, of_patterns, PointAs};
ghost use Rattle.scans.specs.Shown.{PatternOf, millimetres_of, ShownAs};

use limits::Refusal;

// A scanned point, in millimetres.
#[derive(Clone, Copy)]
pub struct Point {
    pub x: f32,
    pub y: f32,
    pub z: f32,
}

// A point in steps.
#[derive(Clone, Copy)]
pub struct Steps {
    pub x: i32,
    pub y: i32,
    pub z: i32,
}

// The parts of a pattern, from the highest: the sign, an exponent, and the digits below the leading one.
const SIGN: u32 = 2147483648;

const LEADING: u32 = 8388608;

// The exponent of what is infinite or not a number.
const NOT_A_VALUE: u32 = 255;

// The pattern that is given of what is not a number; every other would do.
const NAN: u32 = 2143289344;

// From this exponent on the last digit counts whole steps; there are at least LEADING of them, which is beyond the range.
const WHOLE: u32 = 144;

// The exponent of one step: below it, only zero is a whole number of steps.
const ONE_STEP: u32 = 121;

const REACH: u32 = limits::SHAPE_REACH as u32;

// The whole number of steps `size`, with its sign, if it is in range.
fn taken(minus: bool, size: u32) -> Result<i32, Refusal>
    ensures { TakenAs minus size (scan_of result) }
{
    if REACH < size {
        return Err(Refusal::FloatRange);
    }
    let steps = size as i32;
    Ok(if minus { -steps } else { steps })
}

// Less than one step in size: a zero of either sign, or no whole number of steps.
fn under_one_step(pattern: u32) -> Result<i32, Refusal>
    requires { pattern % 2147483648 / 8388608 < 121 }
    ensures { ScannedAs (of_bits binary32 pattern) (scan_of result) }
{
    if pattern % SIGN == 0 {
        Ok(0)
    } else {
        Err(Refusal::NotWhole)
    }
}

// From one step on, the last digits still behind the point: so many of the parts that a step has.
fn parts_of_steps(minus: bool, exponent: u32, fraction: u32) -> Result<i32, Refusal>
    requires { (121 ≤ exponent) × (exponent < 144) × (fraction < 8388608) }
    ensures { ScannedAs (of_fields binary32 minus exponent fraction) (scan_of result) }
{
    let digits = LEADING + fraction;
    let step = 1u32 << (WHOLE - exponent);
    if digits % step == 0 {
        taken(minus, digits / step)
    } else {
        Err(Refusal::NotWhole)
    }
}

// The steps of the float whose bit pattern this is, as a file has it.
pub fn scan_pattern(pattern: u32) -> Result<i32, Refusal>
    ensures { ScannedAs (of_bits binary32 pattern) (scan_of result) }
{
    let exponent = pattern % SIGN / LEADING;
    if exponent == NOT_A_VALUE {
        return Err(Refusal::NotFinite);
    }
    if WHOLE <= exponent {
        return Err(Refusal::FloatRange);
    }
    if exponent < ONE_STEP {
        return under_one_step(pattern);
    }
    parts_of_steps(SIGN <= pattern, exponent, pattern % LEADING)
}

// A float's bit pattern. What is not a number has one too, so that every float has.
pub fn pattern(x: f32) -> u32
    ensures { PatternOf x result }
{
    if x.is_nan() { NAN } else { x.to_bits() }
}

pub fn scan_float(x: f32) -> Result<i32, Refusal>
    ensures { ScannedAs x (scan_of result) }
{
    scan_pattern(pattern(x))
}

// Both values, or the lower of the refusals: so things are judged together that were scanned one after the other.
#[tactic(auto, using(limits::proofs::RefusalLaws::min_is))]
pub fn both<A: Copy, B: Copy>(
    a: Result<A, Refusal>,
    b: Result<B, Refusal>,
) -> Result<(A, B), Refusal>
    ensures { result ≡ both_of a b }
{
    match (a, b) {
        (Ok(x), Ok(y)) => Ok((x, y)),
        (Ok(_), Err(r)) => Err(r),
        (Err(r), Ok(_)) => Err(r),
        (Err(r), Err(s)) => Err(r.min(s)),
    }
}

// Three floats by their bit patterns, as a file has a corner.
pub fn scan_patterns(x: u32, y: u32, z: u32) -> Result<Steps, Refusal>
    ensures { PointAs (of_patterns x y z) (scanned_of result) }
{
    let (x, (y, z)) = both(scan_pattern(x), both(scan_pattern(y), scan_pattern(z)))?;
    Ok(Steps { x, y, z })
}

pub fn scan_point(point: Point) -> Result<Steps, Refusal>
    ensures { PointAs point (scanned_of result) }
{
    scan_patterns(pattern(point.x), pattern(point.y), pattern(point.z))
}

// The millimetres to show for steps within the range of a placed corner: a division that never rounds.
pub fn shown(steps: i32) -> Result<f32, Refusal>
    ensures { ShownAs steps (millimetres_of result) }
{
    if !(-limits::PLACED_REACH..=limits::PLACED_REACH).contains(&steps) {
        return Err(Refusal::PlacedRange);
    }
    Ok(steps as f32 / 64.0)
}
