// OFF texts, word by word (document 02, W7): a comma outside comments, the next word, counts, and whether the faces are right.
// A text may be any bytes, of any length. What is left of it never starts inside a comment, and nothing is copied.
#![tactic(auto)]

ghost use Rattle.std.specs.Prelude.{◌+◌, ◌≤◌, ◌<◌, ◌*◌, ◌-◌, ◌≡◌, true, not, [], length, drop, position, MatchOption};
ghost use Rattle.std.specs.Char.{is_ascii_digit};
ghost use Rattle.std.specs.List.{list_all};
ghost use Rattle.limits.specs.Decides.{Decides};
ghost use Rattle.text_digits.specs.Decimal.{Digit};
ghost use Rattle.off_text.specs.Off.{CommaOutside, white, words_in, IsCount, Faces};
ghost use Rattle.off_text.specs.Walk.{plain, Behind, PassedAs, StartAs, NextAs, BelowAs, CountedBehind, IndicesAs, FaceAs};

// What is left behind the comment that a text starts with, or else behind its first byte.
fn passed(text: &[u8]) -> &[u8]
    requires { 0 < length text.now }
    ensures { PassedAs text.now result.now }
{
    if text[0] == b'#' {
        return &text[text_cut::part_end(text, 0, b'\n')..];
    }
    &text[1..]
}

// Whether a comma stands outside comments.
pub fn has_comma(text: &[u8]) -> bool
    ensures { Decides result (CommaOutside text.now) }
{
    let mut rest = text;
    while let Some(b) = rest.first() {
        if *b == b',' {
            return true;
        }
        rest = passed(rest);
    }
    false
}

#[tactic(auto, unfolding(crate::specs::Off::white))]
fn is_white(b: u8) -> bool
    ensures { result ≡ white b }
{
    b == b'\t' || b == b'\n' || b == b'\r' || b == b' '
}

fn in_word(b: u8) -> bool
    ensures { result ≡ plain b }
{
    !is_white(b) && b != b'#'
}

// What is left from the next word on: white space and comments are passed.
fn word_start(text: &[u8]) -> &[u8]
    ensures { StartAs text.now result.now }
{
    let mut rest = text;
    while let Some(b) = rest.first() {
        if in_word(*b) {
            return rest;
        }
        rest = passed(rest);
    }
    rest
}

// Where the word ends that a text starts with; nothing where it is all of the text.
fn word_end(text: &[u8]) -> Option<usize>
    ensures { result ≡ position (λ b. not (plain b)) text.now }
{
    text.iter().position(|b| !in_word(*b))
}

// The words that are left of a text.
#[derive(Drop)]
pub struct Words<'a> {
    pub rest: &'a [u8],
}

impl<'a> Words<'a> {
    // The next word; nothing where there is none.
    pub fn next_word(&mut self) -> Option<&'a [u8]>
        ensures next { MatchOption result (words_in self.old.rest.now ≡ []) (λ w. NextAs self.old.rest.now w.now self.new.rest.now) }
        ensures behind { Behind self.old.rest.now self.new.rest.now }
        ensures rest { words_in self.new.rest.now ≡ drop 1 (words_in self.old.rest.now) }
    {
        let start = word_start(self.rest);
        if start.is_empty() {
            return None;
        }
        let (word, rest) = start.split_at(word_end(start).unwrap_or(start.len()));
        self.rest = rest;
        Some(word)
    }

    // The next word as a number below a bound; nothing where it is none.
    pub fn next_below(&mut self, bound: usize) -> Option<usize>
        ensures { CountedBehind bound self.old.rest.now result self.new.rest.now }
    {
        below(self.next_word()?, bound)
    }
}

// Whether a word is digits, one or more.
pub fn is_count(word: &[u8]) -> bool
    ensures { Decides result (IsCount word.now) }
{
    !word.is_empty() && are_digits(word)
}

fn are_digits(word: &[u8]) -> bool
    ensures { result ≡ list_all is_ascii_digit word.now }
{
    word.iter().all(|b| b.is_ascii_digit())
}

// A number with one digit more behind it, where that is below the bound.
fn one_more(value: usize, b: u8, bound: usize) -> Option<usize>
    requires { Digit b }
    ensures { MatchOption result (bound ≤ value * 10 + (b - 48)) (λ n. (n ≡ value * 10 + (b - 48)) × (n < bound)) }
{
    let next = value.checked_mul(10)?.checked_add(usize::from(b - b'0'))?;
    if next < bound { Some(next) } else { None }
}

// The number that a word of digits names, where it is below the bound.
fn below(word: &[u8], bound: usize) -> Option<usize>
    ensures { BelowAs bound word.now result }
{
    if !is_count(word) {
        return None;
    }
    let mut value: usize = 0;
    for b in word {
        value = one_more(value, *b, bound)?;
    }
    Some(value)
}

// Whether the next n words name corners.
fn indices(words: &mut Words<'_>, corners: usize, n: usize) -> bool
    ensures behind { Behind words.old.rest.now words.new.rest.now }
    ensures told { IndicesAs corners n (words_in words.old.rest.now) result words.new.rest.now }
{
    for i in 0..n {
        if words.next_below(corners).is_none() {
            return false;
        }
    }
    true
}

// Whether the next words are a face: a number n and n indices. No number that so many words follow is as large as what is left of the text.
fn face(words: &mut Words<'_>, corners: usize) -> bool
    ensures behind { Behind words.old.rest.now words.new.rest.now }
    ensures told { FaceAs corners (words_in words.old.rest.now) result words.new.rest.now }
{
    match words.next_below(words.rest.len()) {
        Some(n) => indices(words, corners, n),
        None => false,
    }
}

// Whether the words that are left are so many faces, and nothing follows the last.
pub fn faces(words: &mut Words<'_>, corners: usize, count: usize) -> bool
    ensures behind { Behind words.old.rest.now words.new.rest.now }
    ensures told { Decides result (Faces corners count (words_in words.old.rest.now)) }
    ensures none_left { result ≡ true → words_in words.new.rest.now ≡ [] }
{
    for i in 0..count {
        if !face(words, corners) {
            return false;
        }
    }
    words.next_word().is_none()
}
