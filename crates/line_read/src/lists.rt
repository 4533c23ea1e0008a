// The command on two lent lists of placed corners.
// `end` is where the command's own word ends.
ghost use Rattle.std.specs.Prelude.{length};
ghost use Rattle.line.specs.Printed.{SameOut};
ghost use Rattle.line_read.specs.ReadWithin.{ListWithin};

use line::out::Out;
use line::parts::{not_negative, numbers_behind};
use line_verdict::pair_answer;

// The gap is one number, and the lists stand behind it.
const LISTS: usize = 1;

// `lists G N n .. M n ..`: every word is a number, the gap comes first, and each of the two counts is kept.
pub fn lists(line: &[u8], end: usize, room: &mut [i32], out: &mut Out<'_>)
    ensures { SameOut out.old out.new }
{
    let Some(n) = numbers_behind(line, end, room) else {
        out.wrong();
        return;
    };
    both_lists(&room[0..n], out);
}

// The line's numbers: the gap, one list behind the other, and nothing behind the second.
fn both_lists(numbers: &[i32], out: &mut Out<'_>)
    ensures { SameOut out.old out.new }
{
    let Some(first) = list_end(numbers, LISTS) else {
        out.wrong();
        return;
    };
    let Some(second) = list_end(numbers, first) else {
        out.wrong();
        return;
    };
    if second != numbers.len() {
        out.wrong();
        return;
    }
    pair_answer(
        verdict::pair_of_lists(
            numbers[0],
            &numbers[LISTS + 1..first],
            &numbers[first + 1..second],
        ),
        out,
    );
}

// Where the list ends whose count stands at a place, if as many numbers follow it.
fn list_end(numbers: &[i32], start: usize) -> Option<usize>
    ensures { ListWithin start (length numbers.now) result }
{
    if numbers.len() <= start {
        return None;
    }
    let left = numbers.len() - start;
    let count = not_negative(numbers[start])?;
    if left <= count {
        return None;
    }
    Some(start + 1 + count)
}
