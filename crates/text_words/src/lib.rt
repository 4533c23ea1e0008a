// The words of a line, which exactly one space separates: where a word ends, and a run of words that are numbers.
// A line is cut at each space, so a space at either end and a double space leave an empty word, which is no number.
#![tactic(auto)]

ghost use Rattle.std.specs.Prelude.{◌≡◌, ◌≤◌, ◌+◌, min, length, drop};
ghost use Rattle.text_words.specs.Words.{first_word, Listed};

use text_number::read_number;

// Where the word ends that starts at a place: at the first space from there on, or at the line's end.
pub fn word_end(line: &[u8], start: usize) -> usize
    ensures place { result ≡ min start (length line.now) + length (first_word (drop start line.now)) }
    ensures within { result ≤ length line.now }
{
    text_cut::part_end(line, start, b' ')
}

// The words from a place to the line's end, each of them a number, into the room's first cells: how many they are, if none is no number and
// all find room.
pub fn read_numbers(line: &[u8], start: usize, room: &mut [i32]) -> Option<usize>
    ensures { Listed (drop start line.now) room.old room.new result }
{
    let mut at = start;
    let mut n: usize = 0;
    while at <= line.len() {
        let end = word_end(line, at);
        let v = read_number(&line[at..end])?;
        if room.len() <= n {
            return None;
        }
        room[n] = v;
        n += 1;
        if end == line.len() {
            return Some(n);
        }
        at = end + 1;
    }
    None
}
