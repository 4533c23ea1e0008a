// OFF texts read into corners (document 02, W7): the corners' numbers in steps at the start of lent room, or a refusal and the room as it was.
// Two passes and no copy of the text: the first tells the refusal of the whole text, the second writes.
#![tactic(auto)]

ghost use Rattle.std.specs.Prelude.{◌*◌, ◌≡◌, length, IfOk};
ghost use Rattle.limits.specs.Decides.{Decides};
ghost use Rattle.limits.specs.Refusals.{answer_number, number_of};
ghost use Rattle.scans.specs.Scanned.{lower_of};
ghost use Rattle.off_text.specs.Off.{off, words_in, EachWord};
ghost use Rattle.off_text.specs.Walk.{Behind};
ghost use Rattle.off_read.specs.Corners.{WordsWritten, OffReadAs, off_read_of};
ghost use Rattle.off_read.specs.Passes.{HeadAs, Taken, NumbersAs, BodyAs, LayoutAs, FillsAs};

use limits::Refusal;
use off_text::Words;

// The counts of corners and of faces.
#[derive(Drop)]
struct Head {
    corners: usize,
    faces: usize,
}

// How many corners a text has, and what is left of it from their numbers on.
#[derive(Drop)]
struct Layout<'a> {
    corners: usize,
    numbers: &'a [u8],
}

// Whether a word is OFF, to the letter.
fn is_off(word: &[u8]) -> bool
    ensures { Decides result (word.now ≡ off) }
{
    word == b"OFF".as_slice()
}

// The three counts, of which the first two are below a bound. What the third, of edges, names is not worked out.
fn counts(words: &mut Words<'_>, bound: usize) -> Option<Head>
    ensures behind { Behind words.old.rest.now words.new.rest.now }
    ensures told { HeadAs bound (words_in words.old.rest.now) result words.new.rest.now }
{
    let corners = words.next_below(bound)?;
    let faces = words.next_below(bound)?;
    let edges = words.next_word()?;
    if off_text::is_count(edges) {
        Some(Head { corners, faces })
    } else {
        None
    }
}

// The next n words as numbers: 26 at the first that is none, and else the lower of 17 and 18 that any of them has.
fn numbers(words: &mut Words<'_>, n: usize) -> Result<(), Refusal>
    ensures behind { Behind words.old.rest.now words.new.rest.now }
    ensures told { NumbersAs n (words_in words.old.rest.now) (answer_number result) words.new.rest.now }
{
    let mut found = Ok(());
    for i in 0..n {
        let word = words.next_word().ok_or(Refusal::BadText)?;
        match off_number::read(word) {
            Ok(_) => {}
            Err(refusal) => {
                if refusal == Refusal::BadText {
                    return Err(refusal);
                }
                found = Err(lower(found, refusal));
            }
        }
    }
    found
}

// The lower of two refusals, where there is one already.
fn lower(found: Result<(), Refusal>, refusal: Refusal) -> Refusal
    ensures { number_of result ≡ lower_of (answer_number found) (number_of refusal) }
{
    match found {
        Ok(()) => refusal,
        Err(first) => first.min(refusal),
    }
}

// The corners' numbers, and the faces behind them. A text has as many bytes as words, at least, so that three times a count that it can have fits.
fn body(words: &mut Words<'_>, corners: usize, faces: usize) -> Result<(), Refusal>
    ensures behind { Behind words.old.rest.now words.new.rest.now }
    ensures told { BodyAs corners faces (words_in words.old.rest.now) (answer_number result) }
{
    if words.rest.len() / 3 < corners {
        return Err(Refusal::BadText);
    }
    let judged = numbers(words, 3 * corners);
    if matches!(judged, Err(Refusal::BadText)) {
        return judged;
    }
    if off_text::faces(words, corners, faces) {
        return judged;
    }
    Err(Refusal::BadText)
}

// The first pass.
fn first_pass(text: &[u8]) -> Result<Layout<'_>, Refusal>
    ensures behind { IfOk result (λ l. Behind text.now l.numbers.now) }
    ensures told { LayoutAs text.now result }
{
    let mut words = Words { rest: text };
    if !words.next_word().is_some_and(is_off) {
        return Err(Refusal::BadText);
    }
    let head = counts(&mut words, text.len()).ok_or(Refusal::BadText)?;
    let numbers = words.rest;
    body(&mut words, head.corners, head.faces)?;
    Ok(Layout {
        corners: head.corners,
        numbers,
    })
}

// The second pass: the next words, which are numbers of steps, one into each cell of the room.
fn write(text: &[u8], room: &mut [i32])
    requires { EachWord Taken (length room.old) (words_in text.now) }
    ensures { WordsWritten (words_in text.now) (length room.old) room.old room.new }
{
    let mut words = Words { rest: text };
    for cell in room.iter_mut() {
        *cell = off_number::read(words.next_word().unwrap()).unwrap();
    }
}

// So many corners, whose numbers a text starts with, written to the room, or refused: none, too many, or too little room.
fn fill(text: &[u8], corners: usize, room: &mut [i32]) -> Result<usize, Refusal>
    requires { EachWord Taken (3 * corners) (words_in text.now) }
    ensures { FillsAs corners (words_in text.now) room.old room.new (off_read_of result) }
{
    if corners == 0 {
        return Err(Refusal::CountZero);
    }
    if limits::CORNERS < corners {
        return Err(Refusal::ManyCorners);
    }
    let needed = 3 * corners;
    if room.len() < needed {
        return Err(Refusal::ShortRoom);
    }
    write(text, &mut room[..needed]);
    Ok(needed)
}

// How many numbers the text's corners have, three each, and these in steps, in its own order, at the start of the room; or the refusal, and the room as it was.
pub fn corners(text: &[u8], room: &mut [i32]) -> Result<usize, Refusal>
    ensures { OffReadAs text.now room.old room.new (off_read_of result) }
{
    if off_text::has_comma(text) {
        return Err(Refusal::CommaRefused);
    }
    let layout = first_pass(text)?;
    fill(layout.numbers, layout.corners, room)
}
