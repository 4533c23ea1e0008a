// Words of hex digits of either case: a bit pattern of 8 digits, and a text of two digits a byte, or a `-` for the text of no bytes.
// A text is measured before it is decoded, so that the lent room stays as it was where the word is no text.
#![tactic(auto)]

ghost use Rattle.std.specs.Prelude.{◌≡◌, ◌<◌, ◌≤◌, ◌+◌, ◌*◌, length, take, SomeIff};
ghost use Rattle.std.specs.Char.{is_ascii_hexdigit};
ghost use Rattle.std.specs.List.{list_all};
ghost use Rattle.text_hex.specs.Hex.{worth_of, HexDigits, bytes_of, PatternReads, TextReads, Measured};

const PATTERN_DIGITS: usize = 8;

// How many hex digits there are.
const BASE: u32 = 16;

// The bit pattern that 8 hex digits stand for.
pub fn read_pattern(word: &[u8]) -> Option<u32>
    ensures { PatternReads word.now result }
{
    if word.len() != PATTERN_DIGITS {
        return None;
    }
    let mut value: u32 = 0;
    for &digit in word {
        value = value * BASE + worth(digit)?;
    }
    Some(value)
}

// The bytes that a word stands for, into the room's first cells: how many they are. The room stays as it was where the word is no text or finds no room.
pub fn read_text(word: &[u8], room: &mut [u8]) -> Option<usize>
    ensures { TextReads word.now room.old room.new result }
{
    let n = measure(word)?;
    if room.len() < n {
        return None;
    }
    decode(word, &mut room[..n]);
    Some(n)
}

// How many bytes a word stands for, if it is a text.
fn measure(word: &[u8]) -> Option<usize>
    ensures { Measured word.now result }
{
    if word == b"-".as_slice() {
        return Some(0);
    }
    let n = word.len() / 2;
    if n == 0 || n * 2 != word.len() || !all_hex(word) {
        return None;
    }
    Some(n)
}

fn all_hex(word: &[u8]) -> bool
    ensures { result ≡ list_all is_ascii_hexdigit word.now }
{
    word.iter().all(u8::is_ascii_hexdigit)
}

// Fills the room with the bytes of a text.
fn decode(word: &[u8], room: &mut [u8])
    requires long { length room.old * 2 ≤ length word.now }
    requires digits { 0 < length room.old → HexDigits word.now }
    ensures { room.new ≡ take (length room.old) (bytes_of word.now) }
{
    for (k, cell) in room.iter_mut().enumerate() {
        *cell = byte(word[k * 2], word[k * 2 + 1]);
    }
}

// The byte of two digits.
fn byte(high: u8, low: u8) -> u8
    requires high { worth_of high < 16 }
    requires low { worth_of low < 16 }
    ensures { result ≡ worth_of high * 16 + worth_of low }
{
    (worth(high).unwrap() * BASE + worth(low).unwrap()) as u8
}

// What a hex digit is worth.
#[tactic(auto, using(crate::specs::HexLaws::worth_value, crate::specs::HexLaws::worth_some, crate::specs::HexLaws::hex_below))]
fn worth(digit: u8) -> Option<u32>
    ensures { SomeIff result (worth_of digit < 16) (worth_of digit) }
{
    char::from(digit).to_digit(BASE)
}
