// The order test of the marks buffer: in each axis's part as many marks as there are keys, their keys climbing, and no mark after them.
// The keys are distinct, so that many climbing marks are all of them.
#![tactic(auto)]

ghost use Rattle.std.specs.Prelude.{◌≡◌, ◌≤◌};
ghost use Rattle.limits.specs.Limits;
ghost use Rattle.marks.specs.Keys.{key_of};
ghost use Rattle.marks_test.specs.Tested.{climbs, blank, marks_in, Tested, TestedMarks};

use marks::{Keys, NO_KEY, START_Y, START_Z, key_of};

// How many marks the keys say there are.
fn marks_in(keys: &[u32; limits::AXIS_MARKS]) -> usize
    ensures { (result ≡ marks_in (key_of keys.now)) × (result ≤ Limits.axis_marks) }
{
    // Stays: as `filter(..).count()` this loop takes 2.4 times the instructions, since it is no vector code then.
    let mut n = 0;
    for key in keys {
        n += usize::from(*key < NO_KEY);
    }
    n
}

// Whether each number has a key of its own and the keys climb.
fn climbing(part: &[u16], keys: &[u32; limits::AXIS_MARKS]) -> bool
    ensures { result ≡ climbs (key_of keys.now) 0 part.now }
{
    let mut least = 0;
    for q in part {
        let key = key_of(keys, *q);
        if key < least || key >= NO_KEY {
            return false;
        }
        least = key + 1;
    }
    true
}

// Whether no mark stands there.
fn is_blank(part: &[u16]) -> bool
    ensures { result ≡ blank part.now }
{
    part.iter().all(|q| *q == limits::NO_MARK)
}

// Whether a part of any length and contents is in place.
fn in_place(part: &[u16], keys: &[u32; limits::AXIS_MARKS]) -> bool
    ensures { Tested keys.now part.now result }
{
    if part.len() != limits::AXIS_MARKS {
        return false;
    }
    let n = marks_in(keys);
    climbing(&part[..n], keys) && is_blank(&part[n..])
}

// Whether a buffer of any length and contents is in place, by the keys of the three axes.
pub fn in_place_marks(marks: &[u16], keys: &Keys) -> bool
    ensures { TestedMarks keys.now.x keys.now.y keys.now.z marks.now result }
{
    marks.len() == limits::MARKS
        && in_place(&marks[0..START_Y], &keys.x)
        && in_place(&marks[START_Y..START_Z], &keys.y)
        && in_place(&marks[START_Z..limits::MARKS], &keys.z)
}
