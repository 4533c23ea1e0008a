// Typed lengths: a text, as a person types it at the menu, to steps (document 01, "Lengths that arrive as text or as floats").
// The text may be any bytes, of any length: what is not a typed length is refused.
#![tactic(auto)]

ghost use Rattle.std.specs.Prelude.{◌≡◌, true, ◌↔◌, ◌≤◌, ◌<◌, ◌+◌, ◌-◌, ◌*◌, ◌^◌, length, get_or, drop};
ghost use Rattle.limits.specs.Limits;
ghost use Rattle.text_digits.specs.Decimal.{cut};
ghost use Rattle.typed.specs.TypedLength.{CommaOrPoint, typed_of, LengthAnswers};
ghost use Rattle.typed.specs.Reading.{judged, after_separator, after_whole};

use limits::Refusal;
use text_digits::digits;

// Steps to the millimetre, in the type that hundredths are counted in.
const STEPS: u32 = limits::STEPS as u32;

// Hundredths to the millimetre.
const HUNDREDTHS: u32 = 100;

// The length that a text means, in steps; a text that means none is refused, and one that means too long a length.
pub fn typed_length(text: &[u8]) -> Result<u32, Refusal>
    ensures { LengthAnswers text.now (typed_of result) }
{
    let whole = digits(text, 0);
    let n = whole.count;
    if n == 0 || limits::WHOLE_DIGITS < n || needless_zero(text, n) {
        return Err(Refusal::LengthForm);
    }
    after_whole(text, n, whole.value)
}

// A whole part of n digits, more than one, that starts with 0: somebody may have meant 0,10 by 010 (request W1).
fn needless_zero(text: &[u8], n: usize) -> bool
    requires { n ≤ length text.now }
    ensures { (result ≡ true) ↔ ((1 < n) × (get_or text.now 0 0 ≡ 48)) }
{
    1 < n && text[0] == b'0'
}

// After the whole digits: nothing, or a separator.
fn after_whole(text: &[u8], at: usize, whole: u32) -> Result<u32, Refusal>
    requires { (at ≤ length text.now) × (whole ≤ cut) }
    ensures { typed_of result ≡ after_whole whole (drop at text.now) }
{
    if at == text.len() {
        return in_steps(whole * HUNDREDTHS);
    }
    if is_separator(text[at]) {
        return after_separator(text, at + 1, whole);
    }
    Err(Refusal::LengthForm)
}

// After the separator: digits to the text's end, at least one and few enough.
fn after_separator(text: &[u8], at: usize, whole: u32) -> Result<u32, Refusal>
    requires { (at ≤ length text.now) × (whole ≤ cut) }
    ensures { typed_of result ≡ after_separator whole (drop at text.now) }
{
    let part = digits(text, at);
    let k = part.count;
    if k < text.len() - at || k == 0 || limits::PART_DIGITS < k {
        return Err(Refusal::LengthForm);
    }
    in_steps(whole * HUNDREDTHS + part.value * worth(k))
}

// "Both separators mean the same."
fn is_separator(c: u8) -> bool
    ensures { (result ≡ true) ↔ CommaOrPoint c }
{
    matches!(c, b',' | b'.')
}

// What the last of k digits after the separator is worth, in hundredths.
fn worth(k: usize) -> u32
    requires { (1 ≤ k) × (k ≤ Limits.part_digits) }
    ensures value { result ≡ 10 ^ (2 - k) }
    ensures most { result ≤ 10 }
{
    if k == 1 { 10 } else { 1 }
}

// Hundredths of a millimetre to steps, rounded up, or out of range.
fn in_steps(h: u32) -> Result<u32, Refusal>
    ensures { typed_of result ≡ judged h }
{
    if limits::MOST_HUNDREDTHS < h {
        return Err(Refusal::LengthRange);
    }
    Ok((h * STEPS).div_ceil(HUNDREDTHS))
}
