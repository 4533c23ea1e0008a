// One word as a number: an optional minus and 1 to 10 digits, that fits 32 bits signed.
// The digits are read without a sign, into a type that holds ten of them.
#![tactic(auto)]

ghost use Rattle.std.specs.Prelude.{◌≡◌, FitsSigned, SomeIff};
ghost use Rattle.std.specs.Int.{w32};
ghost use Rattle.text_number.specs.Numbers.{Reads};
ghost use Rattle.text_number.specs.Magnitude.{Magnitude};

use text_digits::is_digit;

const MOST_DIGITS: usize = 10;

// The number that a word stands for, if it stands for one that fits.
pub fn read_number(word: &[u8]) -> Option<i32>
    ensures { Reads word.now result }
{
    match word.strip_prefix(b"-") {
        Some(digits) => fitting(-magnitude(digits)?),
        None => fitting(magnitude(word)?),
    }
}

// A number, where it fits 32 bits signed.
fn fitting(number: i64) -> Option<i32>
    ensures { SomeIff result (FitsSigned w32 number) number }
{
    i32::try_from(number).ok()
}

// The number without its sign, where the word is 1 to 10 digits.
fn magnitude(word: &[u8]) -> Option<i64>
    ensures { Magnitude word.now result }
{
    if word.is_empty() || MOST_DIGITS < word.len() {
        return None;
    }
    let mut value: u64 = 0;
    for &b in word {
        if !is_digit(b) {
            return None;
        }
        value = value * 10 + u64::from(b - b'0');
    }
    Some(value as i64)
}
