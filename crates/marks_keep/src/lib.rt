// The marks buffer kept in place while one place is placed, moved or removed: each of its marks slides to where its new key belongs.
// A place that is no longer taken has NO_KEY: its marks are carried past all others, and what is left there is no mark.
#![tactic(auto)]

ghost use Rattle.std.specs.Prelude.{◌≡◌, ◌<◌, ltb, length, replicate};
ghost use Rattle.limits.specs.Limits;
ghost use Rattle.marks.specs.Keys.{key_of, no_key};
ghost use Rattle.marks.specs.Sorted.{standing};
ghost use Rattle.marks.specs.Promises.{Reordered, ReorderedMarks};
ghost use Rattle.marks_keep.specs.Slide.{Found, CarriedDown, CarriedUp, Slid};

use marks::{Keys, MarkKeys, NO_KEY, PlaceKeys, START_Y, START_Z, key_of};

// What stands for a mark of this key: the mark, or no mark where the key is none.
fn standing(key: u32, mark: u16) -> u16
    ensures { result ≡ standing (ltb key no_key) mark }
{
    if key < NO_KEY { mark } else { limits::NO_MARK }
}

// The first cell that holds this, or the last.
fn find(part: &[u16], q: u16) -> usize
    requires { 0 < length part.now }
    ensures { Found q part.now result }
{
    match part.iter().position(|held| *held == q) {
        Some(cell) => cell,
        None => part.len() - 1,
    }
}

// From a cell down, past all of a larger key, each of which comes up by one.
// Stays beside `carry_up`: they walk opposite ways and compare the other way round, so one for both would take a closure for each step.
fn carry_down(part: &mut [u16], keys: &[u32; limits::AXIS_MARKS], from: usize, key: u32) -> usize
    requires { from < length part.old }
    ensures { CarriedDown (key_of keys.now) key from part.old part.new result }
{
    for below in (0..from).rev() {
        let q = part[below];
        if key_of(keys, q) <= key {
            return below + 1;
        }
        part[below + 1] = q;
    }
    0
}

// From a cell up, past all of a smaller key, each of which comes down by one.
fn carry_up(part: &mut [u16], keys: &[u32; limits::AXIS_MARKS], from: usize, key: u32) -> usize
    requires { from < length part.old }
    ensures { CarriedUp (key_of keys.now) key from part.old part.new result }
{
    for above in from + 1..part.len() {
        let q = part[above];
        if key <= key_of(keys, q) {
            return above - 1;
        }
        part[above - 1] = q;
    }
    part.len() - 1
}

// A mark gets a new key and goes to where it belongs.
fn slide(part: &mut [u16], keys: &mut [u32; limits::AXIS_MARKS], mark: u16, key: u32)
    requires { (0 < length part.old) × (mark < Limits.axis_marks) }
    ensures { Slid mark key keys.old keys.new part.old part.new }
{
    let was = key_of(keys, mark);
    keys[usize::from(mark)] = key;
    let found = find(part, standing(was, mark));
    let down = carry_down(part, keys, found, key);
    let cell = carry_up(part, keys, down, key);
    part[cell] = standing(key, mark);
}

// The reordering function: the two marks of a place get new keys and slide, one after the other.
fn reorder(part: &mut [u16], keys: &mut [u32; limits::AXIS_MARKS], place: usize, k: MarkKeys)
    requires { (0 < length part.old) × (place < Limits.places) }
    ensures { Reordered place k keys.old keys.new part.old part.new }
{
    slide(part, keys, (2 * place + 1) as u16, k.high);
    slide(part, keys, (2 * place) as u16, k.low);
}

// No place is taken: no mark anywhere.
pub fn start_marks(marks: &mut [u16])
    ensures { marks.new ≡ replicate (length marks.old) Limits.no_mark }
{
    marks.fill(limits::NO_MARK);
}

// One place is placed, moved or removed on all three axes: the keys of its marks become the new ones.
pub fn reorder_marks(marks: &mut [u16], keys: &mut Keys, place: usize, new: PlaceKeys)
    requires { (length marks.old ≡ Limits.marks) × (place < Limits.places) }
    ensures { ReorderedMarks place new.x new.y new.z
        keys.old.x keys.old.y keys.old.z keys.new.x keys.new.y keys.new.z marks.old marks.new }
{
    reorder(&mut marks[0..START_Y], &mut keys.x, place, new.x);
    reorder(&mut marks[START_Y..START_Z], &mut keys.y, place, new.y);
    reorder(
        &mut marks[START_Z..limits::MARKS],
        &mut keys.z,
        place,
        new.z,
    );
}
