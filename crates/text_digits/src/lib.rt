// Decimal numbers as text: what digits name, for typed lengths, numbers of a line and of a file, and what is printed.
// One function says whether a byte is a digit, and one reads the digits that stand at a place.
#![tactic(auto)]

ghost use Rattle.std.specs.Prelude.{◌≡◌, true, ◌↔◌, ◌≤◌, ◌+◌, ◌-◌, ◌*◌, min, length, drop};
ghost use Rattle.text_digits.specs.Decimal.{Digit, number, cut};
ghost use Rattle.text_digits.specs.DecimalLaws.{leading};

// Where a number that is read stops growing: no number that anybody reads here is so large, and so it fits, however long the text is.
const CUT: u32 = 1000000;

// The digits that stand at a place: how many, and the number that they name, cut.
#[derive(Drop)]
pub struct Run {
    pub count: usize,
    pub value: u32,
}

pub fn is_digit(b: u8) -> bool
    ensures { (result ≡ true) ↔ Digit b }
{
    b.is_ascii_digit()
}

// The digits from a place on.
pub fn digits(text: &[u8], from: usize) -> Run
    requires { from ≤ length text.now }
    ensures count { result.count ≡ length (leading (drop from text.now)) }
    ensures value { result.value ≡ min (number (leading (drop from text.now))) cut }
{
    leading_run(&text[from..])
}

// The digits that a text starts with.
fn leading_run(text: &[u8]) -> Run
    ensures count { result.count ≡ length (leading text.now) }
    ensures value { result.value ≡ min (number (leading text.now)) cut }
{
    let mut value: u32 = 0;
    for (count, &b) in text.iter().enumerate() {
        if !is_digit(b) {
            return Run { count, value };
        }
        value = one_more(value, b);
    }
    Run {
        count: text.len(),
        value,
    }
}

// A number with one digit more behind it, cut.
fn one_more(value: u32, b: u8) -> u32
    requires { (value ≤ cut) × Digit b }
    ensures { result ≡ min (value * 10 + (b - 48)) cut }
{
    (value * 10 + u32::from(b - b'0')).min(CUT)
}
