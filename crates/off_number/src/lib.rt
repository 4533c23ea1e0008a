// A word of an OFF text as a number of steps (document 02, W7): an optional minus, digits, and optionally a point and 1 to 6 digits.
// The word may be any bytes, of any length: what is no number, or no whole number of steps, or too large, is refused by number. Writing stands in `shortest`.
#![tactic(auto)]

ghost use Rattle.std.specs.Prelude.{◌≡◌, ℕ, ◌≤◌, ◌<◌, ◌+◌, ◌-◌, ◌*◌, ◌^◌, min};
ghost use Rattle.limits.specs.Limits;
ghost use Rattle.text_digits.specs.Decimal.{cut};
ghost use Rattle.off_number.specs.OffNumber.{millionth, number_read_of, NumberReadAs};
ghost use Rattle.off_number.specs.Reading.{JudgedAs, PlainAs, counted_of, BegunTo, Pointed};

use limits::Refusal;
use text_digits::digits;

pub mod shortest;

// Steps to the millimetre, and the most of them, in the type that they are counted in.
const STEPS: u32 = limits::STEPS as u32;

const REACH: u32 = limits::SHAPE_REACH as u32;

// Millionths to the millimetre.
const MILLIONTHS: u32 = 1000000;

// The number that a word stands for, in steps, or the refusal of a word that stands for none, or for no number of steps, or for too large a one.
pub fn read(word: &[u8]) -> Result<i32, Refusal>
    ensures { NumberReadAs word.now (number_read_of result) }
{
    match word.strip_prefix(b"-") {
        Some(digits) => Ok(-(plain(digits)? as i32)),
        None => Ok(plain(word)? as i32),
    }
}

// A number with no sign.
fn plain(text: &[u8]) -> Result<u32, Refusal>
    ensures { PlainAs text.now (counted_of result) }
{
    let whole = digits(text, 0);
    if whole.count == 0 {
        return Err(Refusal::BadText);
    }
    after_whole(text, whole.count, whole.value)
}

// After the whole digits: nothing, or a point.
fn after_whole(text: &[u8], at: usize, whole: u32) -> Result<u32, Refusal>
    requires { BegunTo text.now at whole }
    ensures { PlainAs text.now (counted_of result) }
{
    match text.get(at) {
        None => in_steps(whole, 0),
        Some(b'.') => after_point(text, at + 1, whole),
        Some(_) => Err(Refusal::BadText),
    }
}

// After the point: digits to the word's end, at least one and few enough.
fn after_point(text: &[u8], at: usize, whole: u32) -> Result<u32, Refusal>
    requires { Pointed text.now at whole }
    ensures { PlainAs text.now (counted_of result) }
{
    let part = digits(text, at);
    let k = part.count;
    if k < text.len() - at || k == 0 || limits::OFF_DIGITS < k {
        return Err(Refusal::BadText);
    }
    in_steps(whole, part.value * worth(k))
}

// What the last of k digits after the point is worth, in millionths.
fn worth(k: usize) -> u32
    requires { (1 ≤ k) × (k ≤ Limits.off_digits) }
    ensures { result ≡ 10 ^ (Limits.off_digits - k) }
{
    10u32.pow((limits::OFF_DIGITS - k) as u32)
}

// Whole millimetres, cut, and millionths of one, to steps; or not exactly, or out of range.
fn in_steps(whole: u32, part: u32) -> Result<u32, Refusal>
    requires { (whole ≤ cut) × (part < millionth) }
    ensures { (n : ℕ) → whole ≡ min n cut → JudgedAs (n * millionth + part) (counted_of result) }
{
    let parts = part * STEPS;
    if parts % MILLIONTHS != 0 {
        return Err(Refusal::NotWhole);
    }
    let steps = whole * STEPS + parts / MILLIONTHS;
    if REACH < steps {
        return Err(Refusal::FloatRange);
    }
    Ok(steps)
}
