// The parts of a line: where the words behind the command's own begin, exactly one or three of them, or any count that are numbers.
// `end` is where the command's own word ends.
ghost use Rattle.std.specs.Prelude.{◌≡◌, pos, length, get_or};
ghost use Rattle.line.specs.Parted.{Parted};
ghost use Rattle.line.specs.Behind.{behind, NumbersIn, NotNegative};

// Where the words behind a command's own begin: behind its space, and past the line's end where the line has no more.
pub fn after(line: &[u8], end: usize) -> usize {
    end.min(line.len()) + 1
}

// The words from a place to the line's end, if they are three: where the first and the second of them end.
pub fn three_words(line: &[u8], start: usize) -> Option<(usize, usize)>
    ensures { Parted start (length line.now) result }
{
    let first = text_words::word_end(line, start);
    let second = text_words::word_end(line, first + 1);
    if line.len() <= second {
        return None;
    }
    let third = text_words::word_end(line, second + 1);
    if third < line.len() {
        return None;
    }
    Some((first, second))
}

// The one word behind a command's own, if it is a number.
pub fn only_number(line: &[u8], end: usize) -> Option<i32> {
    if end < line.len() {
        return text_number::read_number(&line[end + 1..]);
    }
    None
}

// The one word behind a command's own, if it is a number and not negative.
pub fn only_index(line: &[u8], end: usize) -> Option<usize> {
    not_negative(only_number(line, end)?)
}

// A word that is a number and not negative.
pub fn read_index(word: &[u8]) -> Option<usize> {
    not_negative(text_number::read_number(word)?)
}

pub fn not_negative(v: i32) -> Option<usize>
    ensures { NotNegative v result }
{
    usize::try_from(v).ok()
}

// The words behind a command's own, each of them a number, into the room's first cells: how many they are.
pub fn numbers_behind(line: &[u8], end: usize, room: &mut [i32]) -> Option<usize>
    ensures { NumbersIn (behind line.now end) room.old room.new result }
{
    if line.len() <= end {
        return Some(0);
    }
    text_words::read_numbers(line, end + 1, room)
}

// The number at a place, and 0 where there is none.
pub fn number_at(numbers: &[i32], i: usize) -> i32
    ensures { result ≡ get_or numbers.now i (pos 0) }
{
    numbers.get(i).copied().unwrap_or(0)
}
